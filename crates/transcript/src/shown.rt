//! The marks of a run's record.

ghost use Rattle.std.specs.Prelude.{◌≡◌, IfOk, map, reverse};
ghost use Rattle.schedule.specs.LogView.{said};
ghost use Rattle.schedule.specs.Noted.{marks_in};
ghost use Rattle.reply_text.specs.TranscriptText.{mark_of};

use crate::marks::mark_of_note;
use reply_text::mark::MarkRef;
use schedule::Log;
use std::alloc::{AllocError, Global};
use trace_digest::TraceDigest;

/// The marks of the record that a run has noted, oldest first. An error: no memory was found.
pub fn shown_marks<'l>(alloc: Global, log: &'l Log<'l>) -> Result<Vec<MarkRef<'l>>, AllocError>
    ensures { IfOk result (λ shown. map mark_of shown.items ≡ reverse (marks_in (said log.now))) }
{
    let mut heard = TraceDigest::new(alloc)?;
    let mut shown = Vec::new(alloc);
    for at in 0..log.len() {
        if let Some(mark) = mark_of_note(&mut heard, log.entry(at))? {
            shown.push(mark)?;
        }
    }
    Ok(shown)
}
