//! Writing a transcript.

ghost use Rattle.std.specs.Prelude.{OnOk, OnErr};
ghost use Rattle.std.specs.Io.KnownBytes.{Appends};
ghost use Rattle.output.specs.Output.{AppendsPart};
ghost use Rattle.reply_text.specs.TranscriptText.{marks_text, transcript_text, unanswered_text};

use crate::line::make_line;
use crate::mark::AsMark;
use output::{OutputRefusal, write_text};
use std::alloc::Global;
use std::io::Write;

/// Writes marks, one a line, as they stand, each in the memory of the one before.
fn write_marks<M: AsMark, W: Write>(
    alloc: Global,
    to: &mut W,
    marks: &[M],
) -> Result<(), OutputRefusal>
    ensures ok { OnOk result (Appends (W.contents to.old) (W.contents to.new) (marks_text M.mark marks.now)) }
    ensures err { OnErr result (AppendsPart (W.contents to.old) (W.contents to.new) (marks_text M.mark marks.now)) }
{
    let mut line = String::new(alloc);
    for marked in marks {
        make_line(&mut line, &marked.as_mark())?;
        write_text(to, line.as_bytes())?;
    }
    Ok(())
}

/// Writes the line with the number of calls that have no reply.
fn write_unanswered<W: Write>(
    alloc: Global,
    to: &mut W,
    unanswered: u64,
) -> Result<(), OutputRefusal>
    ensures ok { OnOk result (Appends (W.contents to.old) (W.contents to.new) (unanswered_text unanswered)) }
    ensures err { OnErr result (AppendsPart (W.contents to.old) (W.contents to.new) (unanswered_text unanswered)) }
{
    let line = format!(in alloc; "unanswered {unanswered}\n")?;
    write_text(to, line.as_bytes())
}

/// Writes a transcript: its marks, oldest first, one a line, and last `unanswered N`, how many calls arrived and have no reply.
///
/// Where a write fails, or no memory is found for a line, what went out is a beginning of the text.
pub fn write_transcript<M: AsMark, W: Write>(
    alloc: Global,
    to: &mut W,
    marks: &[M],
    unanswered: u64,
) -> Result<(), OutputRefusal>
    ensures ok { OnOk result (Appends (W.contents to.old) (W.contents to.new) (transcript_text M.mark marks.now unanswered)) }
    ensures err { OnErr result (AppendsPart (W.contents to.old) (W.contents to.new) (transcript_text M.mark marks.now unanswered)) }
{
    write_marks(alloc, to, marks)?;
    write_unanswered(alloc, to, unanswered)
}
