//! Marks, and their texts.

ghost use Rattle.std.specs.Prelude.{◌≡◌, Some};
ghost use Rattle.records.specs.Marks.{Mark};
ghost use Rattle.reply_text.specs.TranscriptText.{cause_text, kind_text, mark_of, mark_text, moved_text};

use crate::text::ReplyText;
use compact_message::{ReplyRef, RequestRef};
use errno::Errno;
use message::Kind;
use message::endpoint::Endpoint;
use records::marks::Cause;
use std::fmt;
use tree::{Call, Reply, Who};

/// A mark of a record. The bytes of requests and replies, the calls and their replies stand elsewhere.
#[derive(Clone, Copy)]
pub enum MarkRef<'a> {
    /// A driver was started.
    Started(Endpoint),
    /// A reply of a driver was taken.
    Answered(ReplyRef<'a>),
    /// A flush was taken.
    Flush,
    /// The device was given up.
    GaveUp,
    /// A client's call was finished: who called, at which time, the call, and its reply.
    Took(Who, u32, &'a Call<'a>, &'a Reply),
    /// A request was posted to a driver.
    Issued(RequestRef<'a>, Endpoint),
    /// A driver is to be replaced.
    Fault(Endpoint, Cause),
}

/// What is a mark of a record, or keeps one.
pub trait AsMark {
    // the mark
    ghost mark: { Self → Mark };

    /// The mark, borrowed.
    fn as_mark(&self) -> MarkRef<'_>
        ensures { mark_of result ≡ mark self.now };
}

impl AsMark for MarkRef<'_> {
    ghost mark = { mark_of };

    fn as_mark(&self) -> MarkRef<'_> {
        *self
    }
}

/// Whether a request reads or writes, as a transcript has it.
fn kind_name(kind: Kind) -> &'static str
    ensures { result.now ≡ kind_text kind }
{
    match kind {
        Kind::Read => "read",
        Kind::Write => "write",
    }
}

/// Why a driver is replaced, as a transcript has it.
fn cause_name(cause: Cause) -> &'static str
    ensures { result.now ≡ cause_text cause }
{
    match cause {
        Cause::Exit => "exit",
        Cause::Hung => "hung",
        Cause::Complaint => "complaint",
    }
}

/// How many bytes a reply moved, or its error's name.
#[derive(Clone, Copy)]
struct Moved<'a>(&'a Result<u32, Errno>);

impl fmt::Display for Moved<'_> {
    ghost output = { λ moved. Some (moved_text moved.0.now) };

    fn fmt<W: fmt::Write>(&self, f: &mut fmt::Formatter<W>) -> fmt::Result {
        match self.0 {
            Ok(count) => write!(f, "{count}"),
            Err(errno) => write!(f, "{errno}"),
        }
    }
}

/// Writes `started S.G`; `issue ID read|write POSITION COUNT to S.G`; `answer ID N from S.G`, or the error's name for N; `fault S.G
/// exit|hung|complaint`; `given up`; `flush`; or `reply SESSION REPLY`.
impl fmt::Display for MarkRef<'_> {
    ghost output = { λ mark. Some (mark_text (mark_of mark)) };

    fn fmt<W: fmt::Write>(&self, f: &mut fmt::Formatter<W>) -> fmt::Result {
        match self {
            MarkRef::Started(endpoint) => write!(f, "started {endpoint}"),
            MarkRef::Answered(reply) => {
                let head = &reply.head;
                let (id, moved, from) = (head.id, Moved(&head.outcome), head.from);
                write!(f, "answer {id} {moved} from {from}")
            }
            MarkRef::Flush => f.write_str("flush"),
            MarkRef::GaveUp => f.write_str("given up"),
            MarkRef::Took(who, _, _, reply) => {
                let session = who.session;
                let reply = ReplyText(reply);
                write!(f, "reply {session} {reply}")
            }
            MarkRef::Issued(request, to) => {
                let head = &request.head;
                let (id, kind) = (head.id, kind_name(head.kind));
                let (position, count) = (head.position, head.count);
                write!(f, "issue {id} {kind} {position} {count} to {to}")
            }
            MarkRef::Fault(endpoint, cause) => {
                let cause = cause_name(*cause);
                write!(f, "fault {endpoint} {cause}")
            }
        }
    }
}
