//! The bytes of an answer.

ghost use Rattle.std.specs.Prelude.{◌≡◌, ◌≤◌, ◌<◌, ◌^◌, ◌+◌, ◌++◌, ◌∷◌, [], length, vec_capacity, OnOk, OnErr, Err};
ghost use Rattle.fields.specs.Fields.{Four, Number, fields_bytes};
ghost use Rattle.fields.specs.Puts.{StandsFirst};
ghost use Rattle.fuse.specs.Replies.{attribute_fields, name_fields, entry_fields, valid_fields, opened_fields, room_fields, init_fields};
ghost use Rattle.fuse.specs.Replies.{reply_fields, reply_bytes, size_of, error_of, IsReply, answer};

use crate::reply::{Attributes, Entry, InitReply, Opened, Reply, StatfsReply};
use crate::write_refusal::WriteRefusal;
use fields::putting::{Part, put_all};
use std::alloc::AllocError;

#[tactic(auto, unfolding(crate::specs::Replies::attribute_fields))]
fn put_attributes(out: &mut Vec<u8>, a: &Attributes) -> Result<(), AllocError>
    ensures ok { OnOk result (out.new.items ≡ out.old.items ++ fields_bytes (attribute_fields a.now)) }
    ensures kept { OnErr result (StandsFirst out.old.items out.new.items) }
    ensures full { OnErr result (vec_capacity out.old < length out.old.items + length (fields_bytes (attribute_fields a.now))) }
    ensures capacity { vec_capacity out.old ≤ vec_capacity out.new }
{
    put_all(
        out,
        &[
            Part::U64(a.inode),
            Part::U64(a.size),
            Part::U64(a.blocks),
            Part::U64(a.atime.0),
            Part::U64(a.mtime.0),
            Part::U64(a.ctime.0),
            Part::U32(a.atime.1),
            Part::U32(a.mtime.1),
            Part::U32(a.ctime.1),
            Part::U32(a.mode),
            Part::U32(a.links),
            Part::U32(a.uid),
            Part::U32(a.gid),
            Part::U32(a.device),
            Part::U32(a.block_size),
            Part::U32(a.flags),
        ],
    )
}

/// What is told of a name before the attributes.
#[tactic(auto, unfolding(crate::specs::Replies::name_fields))]
fn put_name(out: &mut Vec<u8>, e: &Entry) -> Result<(), AllocError>
    ensures ok { OnOk result (out.new.items ≡ out.old.items ++ fields_bytes (name_fields e.now)) }
    ensures kept { OnErr result (StandsFirst out.old.items out.new.items) }
    ensures full { OnErr result (vec_capacity out.old < length out.old.items + length (fields_bytes (name_fields e.now))) }
    ensures capacity { vec_capacity out.old ≤ vec_capacity out.new }
{
    put_all(
        out,
        &[
            Part::U64(e.node),
            Part::U64(e.generation),
            Part::U64(e.name_valid.0),
            Part::U64(e.attributes_valid.0),
            Part::U32(e.name_valid.1),
            Part::U32(e.attributes_valid.1),
        ],
    )
}

/// What a name leads to.
#[tactic(auto, using(fields::proofs::WritingLaws::fields_append))]
pub(crate) fn put_entry(out: &mut Vec<u8>, e: &Entry) -> Result<(), AllocError>
    ensures ok { OnOk result (out.new.items ≡ out.old.items ++ fields_bytes (entry_fields e.now)) }
    ensures kept { OnErr result (StandsFirst out.old.items out.new.items) }
    ensures full { OnErr result (vec_capacity out.old < length out.old.items + length (fields_bytes (entry_fields e.now))) }
    ensures capacity { vec_capacity out.old ≤ vec_capacity out.new }
{
    put_name(out, e)?;
    put_attributes(out, &e.attributes)
}

#[tactic(auto, unfolding(crate::specs::Replies::valid_fields))]
fn put_valid(out: &mut Vec<u8>, valid: &(u64, u32)) -> Result<(), AllocError>
    ensures ok { OnOk result (out.new.items ≡ out.old.items ++ fields_bytes (valid_fields valid.now)) }
    ensures kept { OnErr result (StandsFirst out.old.items out.new.items) }
    ensures full { OnErr result (vec_capacity out.old < length out.old.items + length (fields_bytes (valid_fields valid.now))) }
    ensures capacity { vec_capacity out.old ≤ vec_capacity out.new }
{
    put_all(out, &[Part::U64(valid.0), Part::U32(valid.1), Part::U32(0)])
}

/// Attributes, behind how long they may be kept.
#[tactic(auto, using(fields::proofs::WritingLaws::fields_append))]
fn put_told(out: &mut Vec<u8>, valid: &(u64, u32), a: &Attributes) -> Result<(), AllocError>
    ensures ok { OnOk result (out.new.items ≡ out.old.items ++ fields_bytes (valid_fields valid.now ++ attribute_fields a.now)) }
    ensures kept { OnErr result (StandsFirst out.old.items out.new.items) }
    ensures full { OnErr result
        (vec_capacity out.old < length out.old.items + length (fields_bytes (valid_fields valid.now ++ attribute_fields a.now))) }
    ensures capacity { vec_capacity out.old ≤ vec_capacity out.new }
{
    put_valid(out, valid)?;
    put_attributes(out, a)
}

#[tactic(auto, unfolding(crate::specs::Replies::opened_fields))]
fn put_opened(out: &mut Vec<u8>, opened: &Opened) -> Result<(), AllocError>
    ensures ok { OnOk result (out.new.items ≡ out.old.items ++ fields_bytes (opened_fields opened.now)) }
    ensures kept { OnErr result (StandsFirst out.old.items out.new.items) }
    ensures full { OnErr result (vec_capacity out.old < length out.old.items + length (fields_bytes (opened_fields opened.now))) }
    ensures capacity { vec_capacity out.old ≤ vec_capacity out.new }
{
    put_all(
        out,
        &[
            Part::U64(opened.handle),
            Part::U32(opened.flags),
            Part::U32(0),
        ],
    )
}

/// A file that was made and opened.
#[tactic(auto, using(fields::proofs::WritingLaws::fields_append))]
fn put_created(out: &mut Vec<u8>, entry: &Entry, opened: &Opened) -> Result<(), AllocError>
    ensures ok { OnOk result (out.new.items ≡ out.old.items ++ fields_bytes (entry_fields entry.now ++ opened_fields opened.now)) }
    ensures kept { OnErr result (StandsFirst out.old.items out.new.items) }
    ensures full { OnErr result
        (vec_capacity out.old < length out.old.items + length (fields_bytes (entry_fields entry.now ++ opened_fields opened.now))) }
    ensures capacity { vec_capacity out.old ≤ vec_capacity out.new }
{
    put_entry(out, entry)?;
    put_opened(out, opened)
}

#[tactic(auto, unfolding(crate::specs::Replies::room_fields))]
fn put_room(out: &mut Vec<u8>, room: &StatfsReply) -> Result<(), AllocError>
    ensures ok { OnOk result (out.new.items ≡ out.old.items ++ fields_bytes (room_fields room.now)) }
    ensures kept { OnErr result (StandsFirst out.old.items out.new.items) }
    ensures full { OnErr result (vec_capacity out.old < length out.old.items + length (fields_bytes (room_fields room.now))) }
    ensures capacity { vec_capacity out.old ≤ vec_capacity out.new }
{
    put_all(
        out,
        &[
            Part::U64(room.blocks),
            Part::U64(room.free),
            Part::U64(room.available),
            Part::U64(room.files),
            Part::U64(room.free_files),
            Part::U32(room.block_size),
            Part::U32(room.name_length),
            Part::U32(room.fragment_size),
            Part::U32(0),
            Part::U32(0),
            Part::U32(0),
            Part::U32(0),
            Part::U32(0),
            Part::U32(0),
            Part::U32(0),
        ],
    )
}

#[tactic(auto, unfolding(crate::specs::Replies::init_fields))]
fn put_settled(out: &mut Vec<u8>, it: &InitReply) -> Result<(), AllocError>
    ensures ok { OnOk result (out.new.items ≡ out.old.items ++ fields_bytes (init_fields it.now)) }
    ensures kept { OnErr result (StandsFirst out.old.items out.new.items) }
    ensures full { OnErr result (vec_capacity out.old < length out.old.items + length (fields_bytes (init_fields it.now))) }
    ensures capacity { vec_capacity out.old ≤ vec_capacity out.new }
{
    put_all(
        out,
        &[
            Part::U32(it.major),
            Part::U32(it.minor),
            Part::U32(it.readahead),
            Part::U32(it.flags),
            Part::U16(it.background),
            Part::U16(it.busy),
            Part::U32(it.max_write),
            Part::U32(it.time_unit),
            Part::U16(it.max_pages),
            Part::U16(it.map_alignment),
            Part::U32(it.more_flags),
            Part::U32(0),
            Part::U32(0),
            Part::U32(0),
            Part::U32(0),
            Part::U32(0),
            Part::U32(0),
            Part::U32(0),
        ],
    )
}

/// A reply, without what stands before it.
fn put_reply(out: &mut Vec<u8>, reply: &Reply<'_>) -> Result<(), AllocError>
    ensures ok { OnOk result (out.new.items ≡ out.old.items ++ reply_bytes reply.now) }
    ensures kept { OnErr result (StandsFirst out.old.items out.new.items) }
    ensures full { OnErr result (vec_capacity out.old < length out.old.items + length (reply_bytes reply.now)) }
    ensures capacity { vec_capacity out.old ≤ vec_capacity out.new }
{
    match reply {
        Reply::Error { .. } | Reply::Done => Ok(()),
        Reply::Init { settled } => put_settled(out, settled),
        Reply::Entry { entry } => put_entry(out, entry),
        Reply::Attributes { valid, attributes } => put_told(out, valid, attributes),
        Reply::Open { opened } => put_opened(out, opened),
        Reply::Create { entry, opened } => put_created(out, entry, opened),
        Reply::Write { count } => put_all(out, &[Part::U32(*count), Part::U32(0)]),
        Reply::Statfs { room } => put_room(out, room),
        Reply::Bytes { bytes } => out.extend_from_slice(bytes),
    }
}

/// How many bytes a reply has, without what stands before it.
fn reply_len(reply: &Reply<'_>) -> usize
    ensures exact { result ≡ length (reply_bytes reply.now) }
    ensures bound { result < 2 ^ 63 }
{
    match reply {
        Reply::Error { .. } | Reply::Done => 0,
        Reply::Init { .. } => 64,
        Reply::Entry { .. } => 128,
        Reply::Attributes { .. } => 104,
        Reply::Open { .. } => 16,
        Reply::Create { .. } => 144,
        Reply::Write { .. } => 8,
        Reply::Statfs { .. } => 80,
        Reply::Bytes { bytes } => bytes.len(),
    }
}

/// The error that stands before a reply: its number negated, or 0.
fn error(reply: &Reply<'_>) -> u32
    requires { IsReply reply.now }
    ensures { result ≡ error_of reply.now }
{
    match reply {
        Reply::Error { number } => number.wrapping_neg(),
        _ => 0,
    }
}

/// An answer whose length is this.
fn put_answer(
    out: &mut Vec<u8>,
    size: u32,
    unique: u64,
    reply: &Reply<'_>,
) -> Result<(), AllocError>
    requires size { size ≡ size_of reply.now }
    requires reply { IsReply reply.now }
    ensures ok { OnOk result (out.new.items ≡ out.old.items ++ answer unique reply.now) }
    ensures kept { OnErr result (StandsFirst out.old.items out.new.items) }
    ensures full { OnErr result (vec_capacity out.old < length out.old.items + length (answer unique reply.now)) }
    ensures capacity { vec_capacity out.old ≤ vec_capacity out.new }
{
    put_all(
        out,
        &[Part::U32(size), Part::U32(error(reply)), Part::U64(unique)],
    )?;
    put_reply(out, reply)
}

/// Writes the answer to the request with this number at the end of `out`.
///
/// 1 TooLong: its length has more than 32 bits. 2 OutOfMemory: no memory was found for it. In both cases `out` has what it had.
pub fn write(out: &mut Vec<u8>, unique: u64, reply: &Reply<'_>) -> Result<(), WriteRefusal>
    requires { IsReply reply.now }
    ensures ok { OnOk result ((size_of reply.now < 2 ^ 32) × (out.new.items ≡ out.old.items ++ answer unique reply.now)) }
    ensures long { result ≡ Err WriteRefusal.TooLong → 2 ^ 32 ≤ size_of reply.now }
    ensures full { result ≡ Err WriteRefusal.OutOfMemory → vec_capacity out.old < length out.old.items + size_of reply.now }
    ensures kept { OnErr result (out.new.items ≡ out.old.items) }
    ensures capacity { vec_capacity out.old ≤ vec_capacity out.new }
{
    let Ok(size) = u32::try_from(16 + reply_len(reply)) else {
        return Err(WriteRefusal::TooLong);
    };
    let at = out.len();
    let Ok(()) = put_answer(out, size, unique, reply) else {
        out.truncate(at);
        return Err(WriteRefusal::OutOfMemory);
    };
    Ok(())
}
