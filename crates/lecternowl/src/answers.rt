//! What calls give, as plain results.

ghost use Rattle.std.specs.Prelude.{◌≡◌, Some};
ghost use Rattle.lecternowl.specs.Answers.{call_error_text, described, done, error_in, followed, listed, measured, opened};
ghost use Rattle.lecternowl.specs.Answers.{placed, read, wrote};

use errno::Errno;
use std::{error, fmt};
use tree::{Attributes, Entry, LinkTarget, Outcome, Reply, Statfs};

/// Why a call gave no value.
#[derive(Debug, PartialEq, Eq, Drop)]
pub enum CallError {
    /// The call is refused for this reason, and nothing is changed. `EIO` comes exactly once the device was given up.
    Refused(Errno),
    /// No answer: the link to the drivers has ended. Whether the call had an effect isn't told.
    Cut,
    /// The reply is one of another call, which over true replies none is.
    Other(Reply),
}

/// Writes the name of the errno, `Cut` or `Other`.
impl fmt::Display for CallError {
    ghost output = { λ e. Some (call_error_text e) };

    fn fmt<W: fmt::Write>(&self, f: &mut fmt::Formatter<W>) -> fmt::Result {
        f.write_str(match self {
            CallError::Refused(errno) => errno.name(),
            CallError::Cut => "Cut",
            CallError::Other(_) => "Other",
        })
    }
}

impl error::Error for CallError {}

/// Why a call with this outcome gave no value.
fn error_of(outcome: Outcome) -> CallError
    ensures { result ≡ error_in outcome }
{
    match outcome {
        Outcome::Reply(Reply::Refused(errno)) => CallError::Refused(errno),
        Outcome::Reply(reply) => CallError::Other(reply),
        Outcome::Cut => CallError::Cut,
    }
}

/// That a call that has nothing to tell was done.
pub(crate) fn done_of(outcome: Outcome) -> Result<(), CallError>
    ensures { result ≡ done outcome }
{
    match outcome {
        Outcome::Reply(Reply::Done) => Ok(()),
        outcome => Err(error_of(outcome)),
    }
}

/// The descriptor that open or dup gave.
pub(crate) fn opened_of(outcome: Outcome) -> Result<u32, CallError>
    ensures { result ≡ opened outcome }
{
    match outcome {
        Outcome::Reply(Reply::Descriptor(fd)) => Ok(fd),
        outcome => Err(error_of(outcome)),
    }
}

/// The bytes that were read.
pub(crate) fn read_of(outcome: Outcome) -> Result<Vec<u8>, CallError>
    ensures { result ≡ read outcome }
{
    match outcome {
        Outcome::Reply(Reply::Bytes(bytes)) => Ok(bytes),
        outcome => Err(error_of(outcome)),
    }
}

/// How many bytes were written.
pub(crate) fn wrote_of(outcome: Outcome) -> Result<u32, CallError>
    ensures { result ≡ wrote outcome }
{
    match outcome {
        Outcome::Reply(Reply::Wrote(count)) => Ok(count),
        outcome => Err(error_of(outcome)),
    }
}

/// The position after a seek.
pub(crate) fn placed_of(outcome: Outcome) -> Result<u32, CallError>
    ensures { result ≡ placed outcome }
{
    match outcome {
        Outcome::Reply(Reply::At(position)) => Ok(position),
        outcome => Err(error_of(outcome)),
    }
}

/// The attributes of a node.
pub(crate) fn described_of(outcome: Outcome) -> Result<Attributes, CallError>
    ensures { result ≡ described outcome }
{
    match outcome {
        Outcome::Reply(Reply::Inode(attributes)) => Ok(attributes),
        outcome => Err(error_of(outcome)),
    }
}

/// The names of a directory.
pub(crate) fn listed_of(outcome: Outcome) -> Result<Vec<Entry>, CallError>
    ensures { result ≡ listed outcome }
{
    match outcome {
        Outcome::Reply(Reply::Names(entries)) => Ok(entries),
        outcome => Err(error_of(outcome)),
    }
}

/// The sizes of the volume, and what is free of them.
pub(crate) fn measured_of(outcome: Outcome) -> Result<Statfs, CallError>
    ensures { result ≡ measured outcome }
{
    match outcome {
        Outcome::Reply(Reply::Space(room)) => Ok(room),
        outcome => Err(error_of(outcome)),
    }
}

/// The target of a symbolic link.
pub(crate) fn followed_of(outcome: Outcome) -> Result<LinkTarget, CallError>
    ensures { result ≡ followed outcome }
{
    match outcome {
        Outcome::Reply(Reply::Target(target)) => Ok(target),
        outcome => Err(error_of(outcome)),
    }
}
