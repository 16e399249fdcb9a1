//! Scripts, from their text to their lines.

ghost use Rattle.std.specs.Prelude.{◌≡◌, ◌<◌, IfOk, IfErr, OnErr, flat_map, length, map};
ghost use Rattle.call_text.specs.Scripts.{line_bytes, line_call, script_of};
ghost use Rattle.call_text.specs.Said.{said};
ghost use Rattle.call_text.specs.Refusals.{IsRefused};

use crate::scripts::script::Script;
use crate::scripts::timed::{TimedLine, read_timed, read_user};
use crate::words::cut;
use std::alloc::{AllocError, Global};
use thiserror::Error;

/// Why a script isn't read. Nothing was played.
#[derive(Clone, Copy, Debug, PartialEq, Eq, Error)]
pub enum ScriptRefusal {
    /// The line of this number, counted from 1, is the first that can't be read.
    #[error("bad line {0}")]
    BadLine(u64),
    /// No memory was found for a call, or for its bytes.
    #[error("OutOfMemory")]
    OutOfMemory,
}

/// The user and the group of a script, and the lines of its calls.
#[derive(Drop)]
struct ScriptLines<'t> {
    uid: u16,
    gid: u16,
    lines: Vec<TimedLine<'t>>,
}

/// Reads the lines of a script, each ended by a newline. Memory is sought only once a call's line was read.
fn read_lines(alloc: Global, text: &[u8]) -> Result<ScriptLines<'_>, ScriptRefusal>
    ensures ok { IfOk result (λ script. script_of text.now ≡ Ok (script.uid, script.gid, map line_call script.lines.items)) }
    ensures err { IfErr result (IsRefused text.now) }
{
    let Some((first, mut rest)) = cut(text, b'\n') else {
        return Err(ScriptRefusal::BadLine(1));
    };
    let Some((uid, gid)) = read_user(first) else {
        return Err(ScriptRefusal::BadLine(1));
    };
    let mut lines = Vec::new(alloc);
    while !rest.is_empty() {
        // The user's line and one for each call stand before this one.
        let number = lines.len() as u64 + 2;
        let Some((line, after)) = cut(rest, b'\n') else {
            return Err(ScriptRefusal::BadLine(number));
        };
        rest = after;
        let Some(timed) = read_timed(line) else {
            return Err(ScriptRefusal::BadLine(number));
        };
        if lines.push(timed).is_err() {
            return Err(ScriptRefusal::OutOfMemory);
        }
    }
    Ok(ScriptLines { uid, gid, lines })
}

/// The bytes that are decoded for the lines' calls, one call's after the other's.
fn decode_lines(alloc: Global, lines: &[TimedLine<'_>]) -> Result<Vec<u8>, AllocError>
    ensures bytes { IfOk result (λ bytes. bytes.items ≡ flat_map line_bytes lines.now) }
    ensures some { OnErr result (0 < length lines.now) }
{
    let mut bytes = Vec::new(alloc);
    for line in lines {
        line.decode(&mut bytes)?;
    }
    Ok(bytes)
}

/// Reads a script: a line for the user and then one for each call, each ended by a newline.
///
/// A bad line is the first that can't be read; no bytes are a bad line 1. Memory is sought only once a call's line was read.
pub fn read_script(alloc: Global, text: &[u8]) -> Result<Script<'_>, ScriptRefusal>
    ensures ok { IfOk result (λ script. script_of text.now ≡ Ok (said script)) }
    ensures err { IfErr result (IsRefused text.now) }
{
    let ScriptLines { uid, gid, lines } = read_lines(alloc, text)?;
    match decode_lines(alloc, lines.as_slice()) {
        Ok(bytes) => Ok(Script {
            uid,
            gid,
            lines,
            bytes,
        }),
        Err(_) => Err(ScriptRefusal::OutOfMemory),
    }
}
