//! Writing the answers to the calls of sessions, with a record of what went out.

ghost use Rattle.std.specs.Prelude.{OnOk, OnErr};
ghost use Rattle.std.specs.Io.KnownBytes.{Appends};
ghost use Rattle.output.specs.Output.{AppendsPart};
ghost use Rattle.reply_text.specs.Answers.{number_text, outcomes_text, session_text, sessions_text};

use crate::line::make_line;
use crate::outcomes::Outcomes;
use output::{OutputRefusal, write_text};
use std::alloc::Global;
use std::io::Write;

/// What came of a session's calls.
#[derive(Drop)]
pub struct Played {
    /// The session's number, 0 to 63.
    pub number: u8,
    /// The answer to each call, in their order.
    pub outcomes: Outcomes,
}

/// Writes the sessions one after the other: for each a line with its number and the answers to its calls, a line each.
pub fn write_sessions<W: Write>(
    alloc: Global,
    to: &mut W,
    sessions: &[Played],
) -> Result<(), OutputRefusal>
    ensures ok { OnOk result (Appends (W.contents to.old) (W.contents to.new) (sessions_text sessions.now)) }
    ensures err { OnErr result (AppendsPart (W.contents to.old) (W.contents to.new) (sessions_text sessions.now)) }
{
    for session in sessions {
        write_session(alloc, to, session)?;
    }
    Ok(())
}

/// Writes a session's number and the answers to its calls, a line each.
pub fn write_session<W: Write>(
    alloc: Global,
    to: &mut W,
    session: &Played,
) -> Result<(), OutputRefusal>
    ensures ok { OnOk result (Appends (W.contents to.old) (W.contents to.new) (session_text session.now)) }
    ensures err { OnErr result (AppendsPart (W.contents to.old) (W.contents to.new) (session_text session.now)) }
{
    write_number(alloc, to, session.number)?;
    write_outcomes(alloc, to, &session.outcomes)
}

/// Writes the line with a session's number.
fn write_number<W: Write>(alloc: Global, to: &mut W, number: u8) -> Result<(), OutputRefusal>
    ensures ok { OnOk result (Appends (W.contents to.old) (W.contents to.new) (number_text number)) }
    ensures err { OnErr result (AppendsPart (W.contents to.old) (W.contents to.new) (number_text number)) }
{
    let line = format!(in alloc; "session {number}\n")?;
    write_text(to, line.as_bytes())
}

/// Writes the answers to a session's calls, one a line, each in the memory of the one before.
fn write_outcomes<W: Write>(
    alloc: Global,
    to: &mut W,
    outcomes: &Outcomes,
) -> Result<(), OutputRefusal>
    ensures ok { OnOk result (Appends (W.contents to.old) (W.contents to.new) (outcomes_text outcomes.now.items)) }
    ensures err { OnErr result (AppendsPart (W.contents to.old) (W.contents to.new) (outcomes_text outcomes.now.items)) }
{
    let mut line = String::new(alloc);
    for at in 0..outcomes.len() {
        make_line(&mut line, &outcomes.get(at))?;
        write_text(to, line.as_bytes())?;
    }
    Ok(())
}
