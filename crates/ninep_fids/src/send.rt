//! Answers, as they are written.

ghost use Rattle.std.specs.Prelude.{◌≡◌, [], ◌∷◌, ◌≤◌, ◌<◌, ◌+◌, length, take, vec_capacity, OnOk, OnErr, IfErr, nat_lt, not};
ghost use Rattle.std.specs.List.{AllByRecursion, flat_map};
ghost use Rattle.ninep.specs.Fields.{Two, Number, Text, Data, Fits};
ghost use Rattle.ninep.specs.Replies.{qid_fields, reply_fields};
ghost use Rattle.ninep.specs.declared.reply.Reply.{Reply as ToClient};
ghost use Rattle.ninep_fids.specs.Written.{answer_number, answer_fields, said_number, said_fields, too_long, IsWritten, IsSaidIn};
ghost use Rattle.ninep_fids.specs.Sending.{IsSent};

use crate::answer::{NinepAnswer, Said};
use crate::knows::HEAD;
use errno::Errno;
use ninep::names::MAX_NAMES;
use ninep::reply::{Attributes, Held, Qid, Reply, StatfsReply};
use ninep::write_refusal::WriteRefusal;
use ninep::writing::write;
use talks::end::End;
use talks::refused::Refused;
use tree::MAX_TARGET;

/// The kind of a lock that isn't held, as Linux's client has it.
const UNLOCKED: u8 = 2;

/// The version that is spoken.
const SPOKEN: &[u8] = b"9P2000.L";

/// The first of some bytes, at most so many.
pub fn within(bytes: &[u8], most: u32) -> &[u8]
    ensures bytes { result.now ≡ take most bytes.now }
    ensures short { length result.now ≤ most }
{
    if bytes.len() <= most as usize {
        return bytes;
    }
    &bytes[..most as usize]
}

/// A qid.
fn own(qid: &Qid) -> Qid
    ensures { result ≡ qid.now }
{
    *qid
}

/// Qids, of which each number is seen to fit its field.
fn seen(qids: &[Qid]) -> &[Qid]
    ensures same { result.now ≡ qids.now }
    ensures fits { AllByRecursion Fits (flat_map qid_fields qids.now) }
{
    for qid in qids {
        let _ = own(qid);
    }
    qids
}

/// The first of some qids, at most sixteen.
fn walked(qids: &[Qid]) -> &[Qid]
    ensures first { result.now ≡ take 16 qids.now }
    ensures few { length result.now ≤ 16 }
{
    if qids.len() <= MAX_NAMES {
        return qids;
    }
    &qids[..MAX_NAMES]
}

/// The reply of a walk.
fn walk_reply(qids: &[Qid]) -> Reply<'_>
    requires { length qids.now ≤ 16 }
    ensures { IsSent 111 (Number Two (length qids.now) ∷ flat_map qid_fields qids.now) result }
{
    Reply::Walk { qids: seen(qids) }
}

/// The reply of a room.
#[tactic(auto, unfolding(ninep::specs::Replies::block_fields, ninep::specs::Replies::file_fields))]
fn room_reply<'a>(room: StatfsReply) -> Reply<'a>
    ensures { IsSent 9 (reply_fields (ToClient.Statfs room)) result }
{
    Reply::Statfs { room }
}

/// The reply of attributes.
#[tactic(auto, unfolding(ninep::specs::Replies::owner_fields, ninep::specs::Replies::size_fields, ninep::specs::Replies::times_fields, ninep::specs::Replies::version_fields))]
fn attributes_reply<'a>(attributes: Attributes) -> Reply<'a>
    ensures { IsSent 25 (reply_fields (ToClient.Getattr attributes)) result }
{
    Reply::Getattr { attributes }
}

/// The reply of a lock that isn't held.
fn unlocked<'a>(start: u64, length: u64, process: u32) -> Reply<'a>
    ensures { IsSent 55 (answer_fields 0 (NinepAnswer.Getlock start length process)) result }
{
    let held = Held {
        kind: UNLOCKED,
        start,
        length,
        process,
        client: b"",
    };
    Reply::Getlock { held }
}

/// The reply of a refusal.
fn error<'a>(refused: Refused) -> Reply<'a>
    ensures { IsSent 7 (answer_fields 0 (NinepAnswer.Refused refused)) result }
{
    Reply::Error {
        number: refused.number(),
    }
}

/// The reply of a fid that is open.
fn opened<'a>(qid: Qid) -> Reply<'a>
    ensures { IsSent 13 (answer_fields 0 (NinepAnswer.Open qid)) result }
{
    Reply::Open { qid, unit: 0 }
}

/// The reply of a file that was made, and is open.
fn created<'a>(qid: Qid) -> Reply<'a>
    ensures { IsSent 15 (answer_fields 0 (NinepAnswer.Create qid)) result }
{
    Reply::Create { qid, unit: 0 }
}

/// The reply of a link's target.
fn link_reply(target: &[u8]) -> Reply<'_>
    ensures { IsSent 23 (Text (take 1023 target.now) ∷ []) result }
{
    Reply::Readlink {
        target: within(target, MAX_TARGET as u32),
    }
}

/// The reply of a directory's entries.
fn entries_reply(entries: &[u8], most: u32) -> Reply<'_>
    ensures { IsSent 41 (Data (take most entries.now) ∷ []) result }
{
    Reply::Readdir {
        entries: within(entries, most),
    }
}

/// The reply of a file's bytes.
fn bytes_reply(bytes: &[u8], most: u32) -> Reply<'_>
    ensures { IsSent 117 (Data (take most bytes.now) ∷ []) result }
{
    Reply::Read {
        bytes: within(bytes, most),
    }
}

/// The reply of a version, and of how many bytes a message has at most.
fn version_reply<'a>(message_size: u32, known: bool) -> Reply<'a>
    ensures { IsSent 101 (answer_fields 0 (NinepAnswer.Version message_size known)) result }
{
    Reply::Version {
        message_size,
        version: if known { SPOKEN } else { b"unknown" },
    }
}

/// The reply of an answer, where data have at most so many bytes.
fn reply_of(answer: &NinepAnswer, most: u32) -> Reply<'_>
    ensures { IsSent (answer_number answer.now) (answer_fields most answer.now) result }
{
    match answer {
        NinepAnswer::Refused(refused) => error(*refused),
        NinepAnswer::Statfs(room) => room_reply(*room),
        NinepAnswer::Open(qid) => opened(own(qid)),
        NinepAnswer::Create(qid) => created(own(qid)),
        NinepAnswer::Symlink(qid) => Reply::Symlink { qid: own(qid) },
        NinepAnswer::Rename => Reply::Rename,
        NinepAnswer::Readlink(target) => link_reply(target),
        NinepAnswer::Getattr(attributes) => attributes_reply(*attributes),
        NinepAnswer::Setattr => Reply::Setattr,
        NinepAnswer::Readdir(entries) => entries_reply(entries, most),
        NinepAnswer::Lock => Reply::Lock { status: 0 },
        NinepAnswer::Getlock {
            start,
            length,
            process,
        } => unlocked(*start, *length, *process),
        NinepAnswer::Link => Reply::Link,
        NinepAnswer::Mkdir(qid) => Reply::Mkdir { qid: own(qid) },
        NinepAnswer::Renameat => Reply::Renameat,
        NinepAnswer::Unlinkat => Reply::Unlinkat,
        NinepAnswer::Version {
            message_size,
            known,
        } => version_reply(*message_size, *known),
        NinepAnswer::Attach(qid) => Reply::Attach { qid: own(qid) },
        NinepAnswer::Flush => Reply::Flush,
        NinepAnswer::Walk(qids) => walk_reply(walked(qids)),
        NinepAnswer::Read(bytes) => bytes_reply(bytes, most),
        NinepAnswer::Write(count) => Reply::Write { count: *count },
        NinepAnswer::Clunk => Reply::Clunk,
        NinepAnswer::Remove => Reply::Remove,
    }
}

/// The reply of what is said.
fn reply_to(said: &Said, most: u32) -> Reply<'_>
    ensures { IsSent (said_number said.now) (said_fields most said.now) result }
{
    match said {
        Said::Plain(answer) => reply_of(answer, most),
        Said::Synced => Reply::Fsync,
    }
}

/// Whether a buffer has room for so many bytes more.
fn has_room(out: &Vec<u8>, limit: u32) -> bool
    ensures { result ≡ not (nat_lt (vec_capacity out.now) (length out.now.items + limit)) }
{
    out.capacity() - out.len() >= limit as usize
}

/// Writes with this tag that an answer is longer than a message may be.
fn refuse(out: &mut Vec<u8>, limit: u32, tag: u16) -> Result<(), End>
    ensures ok { OnOk result (IsWritten limit tag too_long out.old.items out.new.items) }
    ensures err { IfErr result (λ e. e ≡ End.OutOfMemory) }
    ensures kept { OnErr result (out.new.items ≡ out.old.items) }
    ensures full { OnErr result (4096 ≤ limit → vec_capacity out.old < length out.old.items + 11) }
{
    let number = Errno::EIO.number();
    match write(out, limit, tag, &Reply::Error { number }) {
        Ok(()) => Ok(()),
        Err(_) => Err(End::OutOfMemory),
    }
}

/// Writes what is said with this tag. Where that is longer than a message may be, EIO is said.
///
/// An error: no memory was found for it, where there was no room for the longest message, and `out` has what it had.
#[tactic(auto, using(crate::proofs::SendLaws::too_much))]
pub fn send(out: &mut Vec<u8>, limit: u32, tag: u16, said: &Said) -> Result<(), End>
    requires { 4096 ≤ limit }
    ensures ok { OnOk result (IsSaidIn limit tag said.now out.old.items out.new.items) }
    ensures err { IfErr result (λ e. e ≡ End.OutOfMemory) }
    ensures kept { OnErr result (out.new.items ≡ out.old.items) }
    ensures full { OnErr result (vec_capacity out.old < length out.old.items + limit) }
{
    let has_room = has_room(out, limit);
    match write(out, limit, tag, &reply_to(said, limit - HEAD)) {
        Ok(()) => Ok(()),
        Err(WriteRefusal::TooLong) => refuse(out, limit, tag),
        // What finds no memory where there is room for the longest message is longer than that.
        Err(WriteRefusal::OutOfMemory) if has_room => refuse(out, limit, tag),
        Err(WriteRefusal::OutOfMemory) => Err(End::OutOfMemory),
    }
}
