//! The bytes of an answer.

ghost use Rattle.std.specs.Prelude.{◌≡◌, ◌≤◌, ◌<◌, ◌^◌, ◌+◌, ◌++◌, ◌∷◌, [], ℕ, List, length, vec_capacity, OnOk, OnErr, Err};
ghost use Rattle.ninep.specs.Puts.{StandsFirst, IsPut, part_bytes};
ghost use Rattle.std.specs.List.{flat_map, AllByRecursion};
ghost use Rattle.ninep.specs.Fields.{One, Two, Four, Eight, Number, Fits, IsShort, number_bytes, fields_bytes, text_bytes};
ghost use Rattle.ninep.specs.Requests.{rest_bytes, spelling};
ghost use Rattle.ninep.specs.Replies.{qid_fields, held_fields, room_fields};
ghost use Rattle.ninep.specs.Replies.{owner_fields, size_fields, times_fields, version_fields, attribute_fields};
ghost use Rattle.ninep.specs.Replies.{number_of, reply_fields, replied, size_of};

use crate::reply::{Attributes, Held, Qid, Reply, StatfsReply};
use crate::write_refusal::WriteRefusal;
use std::alloc::AllocError;

/// A number of one byte.
#[tactic(auto, unfolding(crate::specs::Fields::number_bytes))]
fn put_u8(out: &mut Vec<u8>, n: u8) -> Result<(), AllocError>
    ensures ok { OnOk result (out.new.items ≡ out.old.items ++ number_bytes One n) }
    ensures kept { OnErr result (StandsFirst out.old.items out.new.items) }
    ensures full { OnErr result (vec_capacity out.old < length out.old.items + length (number_bytes One n)) }
    ensures capacity { vec_capacity out.old ≤ vec_capacity out.new }
{
    out.extend_from_slice(&n.to_le_bytes())
}

/// A number of two bytes.
#[tactic(auto, unfolding(crate::specs::Fields::number_bytes))]
fn put_u16(out: &mut Vec<u8>, n: u16) -> Result<(), AllocError>
    ensures ok { OnOk result (out.new.items ≡ out.old.items ++ number_bytes Two n) }
    ensures kept { OnErr result (StandsFirst out.old.items out.new.items) }
    ensures full { OnErr result (vec_capacity out.old < length out.old.items + length (number_bytes Two n)) }
    ensures capacity { vec_capacity out.old ≤ vec_capacity out.new }
{
    out.extend_from_slice(&n.to_le_bytes())
}

/// A text, behind its length of two bytes.
fn put_text(out: &mut Vec<u8>, text: &[u8]) -> Result<(), AllocError>
    requires { IsShort text.now }
    ensures ok { OnOk result (out.new.items ≡ out.old.items ++ text_bytes text.now) }
    ensures kept { OnErr result (StandsFirst out.old.items out.new.items) }
    ensures full { OnErr result (vec_capacity out.old < length out.old.items + length (text_bytes text.now)) }
    ensures capacity { vec_capacity out.old ≤ vec_capacity out.new }
{
    put_u16(out, text.len() as u16)?;
    out.extend_from_slice(text)
}

fn put_data(out: &mut Vec<u8>, bytes: &[u8]) -> Result<(), AllocError>
    requires { length bytes.now < 2 ^ 32 }
    ensures ok { OnOk result (out.new.items ≡ out.old.items ++ (number_bytes Four (length bytes.now) ++ bytes.now)) }
    ensures kept { OnErr result (StandsFirst out.old.items out.new.items) }
    ensures full { OnErr result
        (vec_capacity out.old < length out.old.items + length (number_bytes Four (length bytes.now) ++ bytes.now)) }
    ensures capacity { vec_capacity out.old ≤ vec_capacity out.new }
{
    put_u32(out, bytes.len() as u32)?;
    out.extend_from_slice(bytes)
}

/// A number of four bytes.
#[tactic(auto, unfolding(crate::specs::Fields::number_bytes))]
fn put_u32(out: &mut Vec<u8>, n: u32) -> Result<(), AllocError>
    ensures ok { OnOk result (out.new.items ≡ out.old.items ++ number_bytes Four n) }
    ensures kept { OnErr result (StandsFirst out.old.items out.new.items) }
    ensures full { OnErr result (vec_capacity out.old < length out.old.items + length (number_bytes Four n)) }
    ensures capacity { vec_capacity out.old ≤ vec_capacity out.new }
{
    out.extend_from_slice(&n.to_le_bytes())
}

/// A number of eight bytes.
#[tactic(auto, unfolding(crate::specs::Fields::number_bytes))]
fn put_u64(out: &mut Vec<u8>, n: u64) -> Result<(), AllocError>
    ensures ok { OnOk result (out.new.items ≡ out.old.items ++ number_bytes Eight n) }
    ensures kept { OnErr result (StandsFirst out.old.items out.new.items) }
    ensures full { OnErr result (vec_capacity out.old < length out.old.items + length (number_bytes Eight n)) }
    ensures capacity { vec_capacity out.old ≤ vec_capacity out.new }
{
    out.extend_from_slice(&n.to_le_bytes())
}

/// A field of an answer, as it is written.
#[derive(Clone, Copy)]
pub(crate) enum Part<'a> {
    U8(u8),
    U16(u16),
    U32(u32),
    U64(u64),
    Text(&'a [u8]),
}

/// A field.
fn put(out: &mut Vec<u8>, part: &Part<'_>) -> Result<(), AllocError>
    requires { IsPut part.now }
    ensures ok { OnOk result (out.new.items ≡ out.old.items ++ part_bytes part.now) }
    ensures kept { OnErr result (StandsFirst out.old.items out.new.items) }
    ensures full { OnErr result (vec_capacity out.old < length out.old.items + length (part_bytes part.now)) }
    ensures capacity { vec_capacity out.old ≤ vec_capacity out.new }
{
    match *part {
        Part::U8(n) => put_u8(out, n),
        Part::U16(n) => put_u16(out, n),
        Part::U32(n) => put_u32(out, n),
        Part::U64(n) => put_u64(out, n),
        Part::Text(text) => put_text(out, text),
    }
}

/// Fields, one behind the other.
pub(crate) fn put_all(out: &mut Vec<u8>, parts: &[Part<'_>]) -> Result<(), AllocError>
    requires { AllByRecursion IsPut parts.now }
    ensures ok { OnOk result (out.new.items ≡ out.old.items ++ flat_map part_bytes parts.now) }
    ensures kept { OnErr result (StandsFirst out.old.items out.new.items) }
    ensures full { OnErr result (vec_capacity out.old < length out.old.items + length (flat_map part_bytes parts.now)) }
    ensures capacity { vec_capacity out.old ≤ vec_capacity out.new }
{
    for part in parts {
        put(out, part)?;
    }
    Ok(())
}

fn put_qid(out: &mut Vec<u8>, qid: &Qid) -> Result<(), AllocError>
    ensures ok { OnOk result (out.new.items ≡ out.old.items ++ fields_bytes (qid_fields qid.now)) }
    ensures kept { OnErr result (StandsFirst out.old.items out.new.items) }
    ensures full { OnErr result (vec_capacity out.old < length out.old.items + length (fields_bytes (qid_fields qid.now))) }
    ensures capacity { vec_capacity out.old ≤ vec_capacity out.new }
{
    put_all(
        out,
        &[
            Part::U8(qid.kind),
            Part::U32(qid.version),
            Part::U64(qid.path),
        ],
    )
}

#[tactic(auto, unfolding(crate::specs::Replies::block_fields, crate::specs::Replies::file_fields))]
fn put_room(out: &mut Vec<u8>, room: &StatfsReply) -> Result<(), AllocError>
    ensures ok { OnOk result (out.new.items ≡ out.old.items ++ fields_bytes (room_fields room.now)) }
    ensures kept { OnErr result (StandsFirst out.old.items out.new.items) }
    ensures full { OnErr result (vec_capacity out.old < length out.old.items + length (fields_bytes (room_fields room.now))) }
    ensures capacity { vec_capacity out.old ≤ vec_capacity out.new }
{
    put_all(
        out,
        &[
            Part::U32(room.kind),
            Part::U32(room.block_size),
            Part::U64(room.blocks),
            Part::U64(room.free),
            Part::U64(room.available),
            Part::U64(room.files),
            Part::U64(room.free_files),
            Part::U64(room.id),
            Part::U32(room.name_length),
        ],
    )
}

/// Which attributes are told, of which file, and how large it is.
#[tactic(auto, unfolding(crate::specs::Replies::owner_fields, crate::specs::Replies::size_fields))]
fn put_file(out: &mut Vec<u8>, a: &Attributes) -> Result<(), AllocError>
    ensures ok { OnOk result (out.new.items ≡ out.old.items ++ fields_bytes (owner_fields a.now ++ size_fields a.now)) }
    ensures kept { OnErr result (StandsFirst out.old.items out.new.items) }
    ensures full { OnErr result
        (vec_capacity out.old < length out.old.items + length (fields_bytes (owner_fields a.now ++ size_fields a.now))) }
    ensures capacity { vec_capacity out.old ≤ vec_capacity out.new }
{
    put_all(
        out,
        &[
            Part::U64(a.valid),
            Part::U8(a.qid.kind),
            Part::U32(a.qid.version),
            Part::U64(a.qid.path),
            Part::U32(a.mode),
            Part::U32(a.uid),
            Part::U32(a.gid),
            Part::U64(a.links),
            Part::U64(a.device),
            Part::U64(a.size),
            Part::U64(a.block_size),
            Part::U64(a.blocks),
        ],
    )
}

/// When it was changed.
#[tactic(auto, unfolding(crate::specs::Replies::times_fields, crate::specs::Replies::version_fields))]
fn put_times(out: &mut Vec<u8>, a: &Attributes) -> Result<(), AllocError>
    ensures ok { OnOk result (out.new.items ≡ out.old.items ++ fields_bytes (times_fields a.now ++ version_fields a.now)) }
    ensures kept { OnErr result (StandsFirst out.old.items out.new.items) }
    ensures full { OnErr result
        (vec_capacity out.old < length out.old.items + length (fields_bytes (times_fields a.now ++ version_fields a.now))) }
    ensures capacity { vec_capacity out.old ≤ vec_capacity out.new }
{
    put_all(
        out,
        &[
            Part::U64(a.atime.0),
            Part::U64(a.atime.1),
            Part::U64(a.mtime.0),
            Part::U64(a.mtime.1),
            Part::U64(a.ctime.0),
            Part::U64(a.ctime.1),
            Part::U64(a.made.0),
            Part::U64(a.made.1),
            Part::U64(a.generation),
            Part::U64(a.data_version),
        ],
    )
}

#[tactic(auto, using(crate::proofs::WritingLaws::fields_append))]
fn put_attributes(out: &mut Vec<u8>, a: &Attributes) -> Result<(), AllocError>
    ensures ok { OnOk result (out.new.items ≡ out.old.items ++ fields_bytes (attribute_fields a.now)) }
    ensures kept { OnErr result (StandsFirst out.old.items out.new.items) }
    ensures full { OnErr result (vec_capacity out.old < length out.old.items + length (fields_bytes (attribute_fields a.now))) }
    ensures capacity { vec_capacity out.old ≤ vec_capacity out.new }
{
    put_file(out, a)?;
    put_times(out, a)
}

fn put_held(out: &mut Vec<u8>, held: &Held<'_>) -> Result<(), AllocError>
    requires { IsShort held.now.client.now }
    ensures ok { OnOk result (out.new.items ≡ out.old.items ++ fields_bytes (held_fields held.now)) }
    ensures kept { OnErr result (StandsFirst out.old.items out.new.items) }
    ensures full { OnErr result (vec_capacity out.old < length out.old.items + length (fields_bytes (held_fields held.now))) }
    ensures capacity { vec_capacity out.old ≤ vec_capacity out.new }
{
    put_all(
        out,
        &[
            Part::U8(held.kind),
            Part::U64(held.start),
            Part::U64(held.length),
            Part::U32(held.process),
            Part::Text(held.client),
        ],
    )
}

fn put_qids(out: &mut Vec<u8>, qids: &[Qid]) -> Result<(), AllocError>
    requires { length qids.now < 2 ^ 16 }
    ensures ok { OnOk result
        (out.new.items ≡ out.old.items ++ (number_bytes Two (length qids.now) ++ fields_bytes (flat_map qid_fields qids.now))) }
    ensures kept { OnErr result (StandsFirst out.old.items out.new.items) }
    ensures full { OnErr result (vec_capacity out.old
        < length out.old.items + length (number_bytes Two (length qids.now) ++ fields_bytes (flat_map qid_fields qids.now))) }
    ensures capacity { vec_capacity out.old ≤ vec_capacity out.new }
{
    put_u16(out, qids.len() as u16)?;
    for qid in qids {
        put_qid(out, qid)?;
    }
    Ok(())
}

fn put_opened(out: &mut Vec<u8>, qid: &Qid, unit: u32) -> Result<(), AllocError>
    ensures ok { OnOk result (out.new.items ≡ out.old.items ++ fields_bytes (qid_fields qid.now ++ Number Four unit ∷ [])) }
    ensures kept { OnErr result (StandsFirst out.old.items out.new.items) }
    ensures full { OnErr result
        (vec_capacity out.old < length out.old.items + length (fields_bytes (qid_fields qid.now ++ Number Four unit ∷ []))) }
    ensures capacity { vec_capacity out.old ≤ vec_capacity out.new }
{
    put_all(
        out,
        &[
            Part::U8(qid.kind),
            Part::U32(qid.version),
            Part::U64(qid.path),
            Part::U32(unit),
        ],
    )
}

/// The fields of an answer.
fn put_fields(out: &mut Vec<u8>, reply: &Reply<'_>) -> Result<(), AllocError>
    requires { AllByRecursion Fits (reply_fields reply.now) }
    ensures ok { OnOk result (out.new.items ≡ out.old.items ++ fields_bytes (reply_fields reply.now)) }
    ensures kept { OnErr result (StandsFirst out.old.items out.new.items) }
    ensures full { OnErr result (vec_capacity out.old < length out.old.items + length (fields_bytes (reply_fields reply.now))) }
    ensures capacity { vec_capacity out.old ≤ vec_capacity out.new }
{
    match reply {
        Reply::Error { number } | Reply::Write { count: number } => put_u32(out, *number),
        Reply::Statfs { room } => put_room(out, room),
        Reply::Open { qid, unit } | Reply::Create { qid, unit } => put_opened(out, qid, *unit),
        Reply::Symlink { qid } | Reply::Mkdir { qid } | Reply::Attach { qid } => put_qid(out, qid),
        Reply::Readlink { target } => put_text(out, target),
        Reply::Getattr { attributes } => put_attributes(out, attributes),
        Reply::Readdir { entries: bytes } | Reply::Read { bytes } => put_data(out, bytes),
        Reply::Lock { status } => put_u8(out, *status),
        Reply::Getlock { held } => put_held(out, held),
        Reply::Version {
            message_size,
            version,
        } => put_all(out, &[Part::U32(*message_size), Part::Text(version)]),
        Reply::Walk { qids } => put_qids(out, qids),
        Reply::Rename | Reply::Setattr | Reply::Fsync | Reply::Link => Ok(()),
        Reply::Renameat | Reply::Unlinkat | Reply::Flush | Reply::Clunk | Reply::Remove => Ok(()),
    }
}

/// The number of an answer's type.
fn number(reply: &Reply<'_>) -> u8
    ensures { result ≡ number_of reply.now }
{
    match reply {
        Reply::Error { .. } => 7,
        Reply::Statfs { .. } => 9,
        Reply::Open { .. } => 13,
        Reply::Create { .. } => 15,
        Reply::Symlink { .. } => 17,
        Reply::Rename => 21,
        Reply::Readlink { .. } => 23,
        Reply::Getattr { .. } => 25,
        Reply::Setattr => 27,
        Reply::Readdir { .. } => 41,
        Reply::Fsync => 51,
        Reply::Lock { .. } => 53,
        Reply::Getlock { .. } => 55,
        Reply::Link => 71,
        Reply::Mkdir { .. } => 73,
        Reply::Renameat => 75,
        Reply::Unlinkat => 77,
        Reply::Version { .. } => 101,
        Reply::Attach { .. } => 105,
        Reply::Flush => 109,
        Reply::Walk { .. } => 111,
        Reply::Read { .. } => 117,
        Reply::Write { .. } => 119,
        Reply::Clunk => 121,
        Reply::Remove => 123,
    }
}

/// An answer with its tag, without its size.
fn put_rest(out: &mut Vec<u8>, tag: u16, reply: &Reply<'_>) -> Result<(), AllocError>
    requires { AllByRecursion Fits (reply_fields reply.now) }
    ensures ok { OnOk result (out.new.items ≡ out.old.items ++ rest_bytes (replied tag reply.now)) }
    ensures kept { OnErr result (StandsFirst out.old.items out.new.items) }
    ensures full { OnErr result (vec_capacity out.old < length out.old.items + length (rest_bytes (replied tag reply.now))) }
    ensures capacity { vec_capacity out.old ≤ vec_capacity out.new }
{
    put_u8(out, number(reply))?;
    put_u16(out, tag)?;
    put_fields(out, reply)
}

/// Puts a size in the place of the four bytes from a place on.
fn put_length(out: &mut Vec<u8>, at: usize, size: u32)
    requires { at + 4 ≤ length out.old.items }
    ensures { (front rest : List ℕ) → out.old.items ≡ front ++ (0 ∷ 0 ∷ 0 ∷ 0 ∷ rest) → length front ≡ at
        → out.new.items ≡ front ++ (number_bytes Four size ++ rest) }
{
    let bytes = size.to_le_bytes();
    out[at] = bytes[0];
    out[at + 1] = bytes[1];
    out[at + 2] = bytes[2];
    out[at + 3] = bytes[3];
}

/// An answer with its tag, behind four bytes of zeros for its size.
fn put_message(out: &mut Vec<u8>, tag: u16, reply: &Reply<'_>) -> Result<(), AllocError>
    requires { AllByRecursion Fits (reply_fields reply.now) }
    ensures ok { OnOk result (out.new.items ≡ (out.old.items ++ 0 ∷ 0 ∷ 0 ∷ 0 ∷ []) ++ rest_bytes (replied tag reply.now)) }
    ensures kept { OnErr result (StandsFirst out.old.items out.new.items) }
    ensures full { OnErr result (vec_capacity out.old < length out.old.items + (4 + length (rest_bytes (replied tag reply.now)))) }
    ensures capacity { vec_capacity out.old ≤ vec_capacity out.new }
{
    out.extend_from_slice(&[0; 4])?;
    put_rest(out, tag, reply)
}

/// Writes an answer with this tag at the end of `out`, if it has at most `limit` bytes.
///
/// 1 TooLong: it has more. 2 OutOfMemory: no memory was found for it. In both cases `out` has what it had.
pub fn write(out: &mut Vec<u8>, limit: u32, tag: u16, reply: &Reply<'_>) -> Result<(), WriteRefusal>
    requires { AllByRecursion Fits (reply_fields reply.now) }
    ensures ok { OnOk result ((size_of reply.now ≤ limit) × (out.new.items ≡ out.old.items ++ spelling (replied tag reply.now))) }
    ensures long { result ≡ Err WriteRefusal.TooLong → (limit < size_of reply.now) × (out.new.items ≡ out.old.items) }
    ensures full { result ≡ Err WriteRefusal.OutOfMemory → vec_capacity out.old < length out.old.items + size_of reply.now }
    ensures kept { OnErr result (out.new.items ≡ out.old.items) }
    ensures capacity { OnErr result (vec_capacity out.old ≤ vec_capacity out.new) }
{
    let at = out.len();
    let Ok(()) = put_message(out, tag, reply) else {
        out.truncate(at);
        return Err(WriteRefusal::OutOfMemory);
    };
    let size = out.len() - at;
    if size > limit as usize {
        out.truncate(at);
        return Err(WriteRefusal::TooLong);
    }
    put_length(out, at, size as u32);
    Ok(())
}
