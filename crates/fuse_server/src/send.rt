//! Answers, as they are written.

ghost use Rattle.std.specs.Prelude.{◌≡◌, ◌≤◌, ◌<◌, ◌+◌, ℕ, vec_len, vec_capacity, OnOk, OnErr, IfErr};
ghost use Rattle.fuse.specs.Replies.{IsReply, size_of, answer};
ghost use Rattle.talks.specs.Numbers.{number_of};
ghost use Rattle.fuse_server.specs.Kinds.{reply_for, reply_to};
ghost use Rattle.fuse_server.specs.Answering.{IsSent, no_memory};

use crate::bounds::within;
use crate::said::{FuseAnswer, Said};
use crate::told::{VALID, nothing};
use errno::Errno;
use fuse::reply::Reply;
use fuse::writing::write;
use talks::end::End;
use talks::refused::Refused;
use tree::MAX_TRANSFER;

/// The most bytes of an answer: what a READ reads, and the 16 before it.
pub(crate) const MAX_ANSWER: u32 = 65552;

/// The numbers of errors that a file server has no call for, as Linux has them.
const ENOSYS: u32 = 38;

const EPROTO: u32 = 71;

/// A refusal.
fn error<'a>(refused: Refused) -> Reply<'a>
    ensures { result ≡ Reply.Error (number_of refused) }
{
    Reply::Error {
        number: refused.number(),
    }
}

/// The reply of an answer.
#[tactic(auto, using(crate::proofs::Replies::fits))]
fn reply_of(it: &FuseAnswer) -> Reply<'_>
    ensures told { (unique : ℕ) → answer unique result ≡ answer unique (reply_for it.now) }
    ensures reply { IsReply result }
    ensures size { size_of result ≤ 65552 }
{
    match it {
        FuseAnswer::Refused(refused) => error(*refused),
        FuseAnswer::Unknown => Reply::Error { number: ENOSYS },
        FuseAnswer::OtherVersion => Reply::Error { number: EPROTO },
        FuseAnswer::Done => Reply::Done,
        FuseAnswer::Init(settled) => Reply::Init { settled: *settled },
        FuseAnswer::Entry(entry) => Reply::Entry { entry: *entry },
        FuseAnswer::Attributes(attributes) => Reply::Attributes {
            valid: VALID,
            attributes: *attributes,
        },
        FuseAnswer::Open(opened) => Reply::Open { opened: *opened },
        FuseAnswer::Create(entry, opened) => Reply::Create {
            entry: *entry,
            opened: *opened,
        },
        FuseAnswer::Write(count) => Reply::Write { count: *count },
        FuseAnswer::Statfs(room) => Reply::Statfs { room: *room },
        FuseAnswer::Bytes(bytes) => Reply::Bytes {
            bytes: within(bytes, MAX_TRANSFER),
        },
    }
}

/// The reply of what is said.
#[tactic(auto, using(crate::proofs::Replies::fits))]
fn reply_to(said: &Said) -> Reply<'_>
    ensures told { (unique : ℕ) → answer unique result ≡ answer unique (reply_to said.now) }
    ensures reply { IsReply result }
    ensures size { size_of result ≤ 65552 }
{
    match said {
        Said::Plain(answer) => reply_of(answer),
        Said::Synced => Reply::Done,
        Said::Missing => Reply::Entry { entry: nothing() },
    }
}

/// Writes with this number that there is no memory. An error: not even for this, and `out` has what it had.
pub(crate) fn refuse(out: &mut Vec<u8>, unique: u64) -> Result<(), End>
    ensures ok { OnOk result (IsSent unique no_memory out.old.items out.new.items) }
    ensures err { IfErr result (λ e. e ≡ End.OutOfMemory) }
    ensures kept { OnErr result (out.new.items ≡ out.old.items) }
    ensures full { OnErr result (vec_capacity out.old < vec_len out.old + 16) }
{
    match write(out, unique, &error(Refused::By(Errno::ENOMEM))) {
        Ok(()) => Ok(()),
        Err(_) => Err(End::OutOfMemory),
    }
}

/// Writes what is said with this number.
pub(crate) fn send(out: &mut Vec<u8>, unique: u64, said: &Said)
    requires { vec_len out.old + 65552 ≤ vec_capacity out.old }
    ensures { IsSent unique said.now out.old.items out.new.items }
{
    match write(out, unique, &reply_to(said)) {
        Ok(()) => {}
        Err(_) => unreachable!(),
    }
}
