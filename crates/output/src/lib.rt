//! Writing texts, with a record of what went out.
#![tactic(auto)]

ghost use Rattle.std.specs.Prelude.{◌≡◌, [], IfErr, IsOk, OnOk, OnErr};
ghost use Rattle.std.specs.Io.KnownBytes.{Appends};
ghost use Rattle.output.specs.Output.{AppendsPart, Tells};

use std::alloc::{AllocError, Global};
use std::fmt::Display;
use std::io::Write;
use thiserror::Error;

/// Why not all was written. What went out is a beginning of the text, and some of it is left.
#[derive(Clone, Copy, Debug, PartialEq, Eq, Error)]
pub enum OutputRefusal {
    /// No memory for a line.
    #[error("OutOfMemory")]
    OutOfMemory,
    /// The writer refused bytes, or took none.
    #[error("NotWritten")]
    NotWritten,
}

impl From<AllocError> for OutputRefusal {
    ghost use Rattle.output.specs.declared.OutputRefusal.TheVariants.{OutOfMemory as NoMemory};

    ghost from_gives = { λ _ e. e ≡ NoMemory };

    fn from(_refused: AllocError) -> OutputRefusal {
        OutputRefusal::OutOfMemory
    }
}

/// Writes a text, as many bytes at a time as the writer takes.
#[tactic(auto, using(crate::proofs::Writes::part_of_front))]
pub fn write_text<W: Write>(to: &mut W, text: &[u8]) -> Result<(), OutputRefusal>
    ensures empty { text.now ≡ [] → IsOk result }
    ensures refusal { IfErr result (λ e. e ≡ OutputRefusal.NotWritten) }
    ensures ok { OnOk result (Appends (W.contents to.old) (W.contents to.new) text.now) }
    ensures err { OnErr result (AppendsPart (W.contents to.old) (W.contents to.new) text.now) }
{
    let mut at = 0;
    while at < text.len() {
        match to.write(&text[at..]) {
            Ok(0) => return Err(OutputRefusal::NotWritten),
            Ok(count) => at += count,
            Err(_) => return Err(OutputRefusal::NotWritten),
        }
    }
    Ok(())
}

/// How the telling of a value ended.
#[derive(Clone, Copy, Debug, PartialEq, Eq)]
pub enum Told {
    /// Its line went out.
    Whole,
    /// The writer refused bytes: a beginning of its line went out, and some of it is left.
    Partly,
    /// No memory was found for its line: the line `OutOfMemory` went out.
    NoMemory,
    /// No memory was found for its line, and the writer refused bytes: a beginning of the line `OutOfMemory` went out, and some of it
    /// is left.
    NoMemoryPartly,
}

/// Writes a line that says what a value prints, or `OutOfMemory` where there is no memory for it; how that ended says exactly what
/// went out.
pub fn tell<T: Display, W: Write>(alloc: Global, to: &mut W, what: &T) -> Told
    ensures { Tells (T.output what.now) result (W.contents to.old) (W.contents to.new) }
{
    match format!(in alloc; "{what}\n") {
        Ok(line) => match write_text(to, line.as_bytes()) {
            Ok(()) => Told::Whole,
            Err(_) => Told::Partly,
        },
        Err(_) => match write_text(to, b"OutOfMemory\n") {
            Ok(()) => Told::NoMemory,
            Err(_) => Told::NoMemoryPartly,
        },
    }
}
