//! What is printed of a run, and the status of the process.

ghost use Rattle.std.specs.Prelude.{◌≡◌, Some};
ghost use Rattle.std.specs.Io.KnownBytes.{Appends};
ghost use Rattle.std.specs.List.{list_any};
ghost use Rattle.output.specs.Output.{AppendsPart, Tells};
ghost use Rattle.reply_text.specs.TranscriptText.{transcript_text};
ghost use Rattle.simulation.specs.Shown.{Shows, is_giving_up, output_text, status_number};

use output::{OutputRefusal, Told, tell};
use reply_text::mark::{AsMark, MarkRef};
use reply_text::write::write_transcript;
use std::alloc::Global;
use std::fmt;
use std::io::Write;

/// How a run ended.
#[derive(Clone, Copy, Debug, PartialEq, Eq)]
pub enum SimulationStatus {
    /// The transcript was written.
    Done,
    /// Nothing was run, or not all of the transcript was written. A line was to say why.
    Refused(Told),
    /// As `Done`, and the device was given up.
    GivenUp,
}

impl SimulationStatus {
    /// The status of the process: 0, 1 or 3.
    pub fn number(self) -> u8
        ensures { result ≡ status_number self }
    {
        match self {
            SimulationStatus::Done => 0,
            SimulationStatus::Refused(_) => 1,
            SimulationStatus::GivenUp => 3,
        }
    }
}

/// Why a transcript wasn't written, as a line of standard error.
#[derive(Clone, Copy)]
pub struct NotShown(pub OutputRefusal);

impl fmt::Display for NotShown {
    ghost output = { λ r. Some (output_text r.0) };

    fn fmt<W: fmt::Write>(&self, f: &mut fmt::Formatter<W>) -> fmt::Result {
        match self.0 {
            OutputRefusal::OutOfMemory => f.write_str("OutOfMemory"),
            OutputRefusal::NotWritten => f.write_str("cannot write standard output"),
        }
    }
}

/// Says on `err` why nothing was run.
pub fn refuse<T: fmt::Display, E: Write>(
    alloc: Global,
    refusal: &T,
    err: &mut E,
) -> SimulationStatus
    ensures told { (told : Told) × (result ≡ SimulationStatus.Refused told) × Tells (T.output refusal.now) told (E.contents err.old)
        (E.contents err.new) }
{
    SimulationStatus::Refused(tell(alloc, err, refusal))
}

/// Whether the device was given up.
fn gave_up<M: AsMark>(marks: &[M]) -> bool
    ensures { result ≡ list_any (λ m. is_giving_up (M.mark m)) marks.now }
{
    marks.iter().any(|mark| is_giving_up(mark))
}

/// Whether a mark says that the device was given up.
fn is_giving_up<M: AsMark>(mark: &M) -> bool
    ensures { result ≡ is_giving_up (M.mark mark.now) }
{
    matches!(mark.as_mark(), MarkRef::GaveUp)
}

/// Writes a transcript on `out`: its marks, oldest first, one a line, and last `unanswered N`. Where that fails, what went out is a
/// beginning of it, and `err` says why.
pub fn show<M: AsMark, W: Write, E: Write>(
    alloc: Global,
    marks: &[M],
    unanswered: u64,
    out: &mut W,
    err: &mut E,
) -> SimulationStatus
    ensures { Shows (transcript_text M.mark marks.now unanswered) (list_any (λ m. is_giving_up (M.mark m)) marks.now) result
        (W.contents out.old) (W.contents out.new) (E.contents err.old) (E.contents err.new) }
{
    match write_transcript(alloc, out, marks, unanswered) {
        Ok(()) if gave_up(marks) => SimulationStatus::GivenUp,
        Ok(()) => SimulationStatus::Done,
        Err(refusal) => SimulationStatus::Refused(tell(alloc, err, &NotShown(refusal))),
    }
}
