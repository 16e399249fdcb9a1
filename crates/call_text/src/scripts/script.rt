//! Scripts that were read, and their calls.

ghost use Rattle.std.specs.Prelude.{◌≡◌, IfOk, flat_map, map};
ghost use Rattle.call_text.specs.Scripts.{line_bytes, line_call, plain_timed};

use crate::scripts::timed::{TimedCall, TimedLine};
use std::alloc::{AllocError, Global};

/// The calls of one session, and whose they are.
#[derive(Drop)]
pub struct Script<'t> {
    /// The user, 0 to 65535; user 0 is granted all.
    pub uid: u16,
    /// The group, 0 to 65535.
    pub gid: u16,
    pub(crate) lines: Vec<TimedLine<'t>>,
    pub(crate) bytes: Vec<u8>,
    ghost whole: { bytes.items ≡ flat_map line_bytes lines.items },
}

impl Script<'_> {
    /// Its calls, in the order of the lines. Their paths and bytes stand in the script and in its text.
    pub fn calls(&self, alloc: Global) -> Result<Vec<TimedCall<'_>>, AllocError>
        ensures { IfOk result (λ calls. map plain_timed calls.items ≡ map line_call self.now.lines.items) }
    {
        calls_of(alloc, self.lines.as_slice(), self.bytes.as_slice())
    }
}

/// The lines' calls, with the bytes that were decoded for them.
fn calls_of<'t>(
    alloc: Global,
    lines: &[TimedLine<'t>],
    bytes: &'t [u8],
) -> Result<Vec<TimedCall<'t>>, AllocError>
    requires { bytes.now ≡ flat_map line_bytes lines.now }
    ensures { IfOk result (λ calls. map plain_timed calls.items ≡ map line_call lines.now) }
{
    let mut calls = Vec::with_capacity(alloc, lines.len())?;
    let mut rest = bytes;
    for line in lines {
        let (own, after) = rest.split_at(line.decoded_len());
        calls.push_reserved(line.timed(own));
        rest = after;
    }
    Ok(calls)
}
