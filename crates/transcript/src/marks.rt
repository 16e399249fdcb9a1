//! Which mark a note leaves.

ghost use Rattle.std.specs.Prelude.{List, IfErr, IfOk};
ghost use Rattle.records.specs.Marks.{Mark};
ghost use Rattle.records.specs.Told.{received};
ghost use Rattle.schedule.specs.Entries.{entry_in};
ghost use Rattle.schedule.specs.Noted.{Noted, marks_in, with_entry};
ghost use Rattle.trace_digest.specs.Heard.{IsHeard};
ghost use Rattle.transcript.specs.Leaves.{Leaves};
ghost use Rattle.compact_message.specs.Padded.{incoming_of};

use compact_message::IncomingRef;
use records::marks::Cause;
use reply_text::mark::MarkRef;
use schedule::LogEntryRef;
use std::alloc::AllocError;
use trace_digest::TraceDigest;

/// The mark that a note leaves, if it leaves one. An error: no memory was found, and what was heard is as it was.
pub fn mark_of_note<'l>(
    heard: &mut TraceDigest,
    entry: LogEntryRef<'l>,
) -> Result<Option<MarkRef<'l>>, AllocError>
    ensures left { IfOk result (λ left. (n : Noted) → IsHeard heard.old (marks_in n)
        → Leaves heard.new (marks_in n) (marks_in (with_entry (entry_in entry.entry) n)) left) }
    ensures refused { IfErr result (λ _. (marks : List Mark) → IsHeard heard.old marks → IsHeard heard.new marks) }
{
    match entry {
        LogEntryRef::Begun(_) => Ok(None),
        LogEntryRef::Posted(to, request, accepted) => {
            if !accepted {
                return Ok(None);
            }
            heard.issued_any(&request.request())?;
            Ok(Some(MarkRef::Issued(request, to)))
        }
        LogEntryRef::Complained(about, is_fault) => {
            if !is_fault {
                return Ok(None);
            }
            Ok(Some(MarkRef::Fault(about, Cause::Complaint)))
        }
        LogEntryRef::Received(message) => Ok(mark_of_message(heard, message)),
        LogEntryRef::Handed(message) => Ok(mark_of_message(heard, message)),
        LogEntryRef::Faulted(about, cause) => Ok(Some(MarkRef::Fault(about, cause))),
        LogEntryRef::Took(who, now, call, reply) => Ok(Some(MarkRef::Took(who, now, call, reply))),
    }
}

/// The mark that a message leaves: a reply leaves one if it counts, and an End leaves none.
fn mark_of_message<'l>(heard: &mut TraceDigest, message: IncomingRef<'l>) -> Option<MarkRef<'l>>
    ensures { (marks : List Mark) → IsHeard heard.old marks
        → Leaves heard.new marks (received (incoming_of message.entry) marks) result }
{
    let whole = message.incoming();
    if !heard.leaves_mark(&whole) {
        return None;
    }
    heard.takes(&whole);
    match message {
        IncomingRef::Reply(reply) => Some(MarkRef::Answered(reply)),
        IncomingRef::Started(endpoint) => Some(MarkRef::Started(endpoint)),
        IncomingRef::GaveUp => Some(MarkRef::GaveUp),
        IncomingRef::Flush => Some(MarkRef::Flush),
        IncomingRef::End => None,
    }
}
