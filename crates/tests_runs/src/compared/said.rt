//! What a run says: its status, and what it printed.

ghost use Rattle.std.specs.Prelude.{◌≡◌, ◌↔◌, IsOk};

use std::alloc::{AllocError, Global};
use std::str;
use std::test::Fail;

/// The status of a run, and what it printed on standard output and on standard error.
pub type Said<'s> = (u8, &'s str, &'s str);

/// The first lines of a text, so many of them, and then another text so many times.
pub type Cut<'t> = (&'t str, usize, &'t str, usize);

/// Looks at the status and at what was printed, and is an error where they are others.
pub fn is_said(status: u8, out: &[u8], err: &[u8], wanted: Said<'_>) -> Result<(), Fail>
    ensures { IsOk result ↔ ((status ≡ wanted.entry.0) × (out.now ≡ wanted.entry.1.now) × (err.now ≡ wanted.entry.2.now)) }
{
    if status == wanted.0 && out == wanted.1.as_bytes() && err == wanted.2.as_bytes() {
        return Ok(());
    }
    let out = str::from_utf8(out).unwrap_or("no text");
    let err = str::from_utf8(err).unwrap_or("no text");
    Err(Fail::new(format_args!("status {status}, {err}, {out}")))
}

/// The text of first lines, and of what stands behind them.
pub fn cut(alloc: Global, cut: Cut<'_>) -> Result<String, AllocError> {
    let (text, lines, end, times) = cut;
    let mut begun = String::new(alloc);
    for line in text.lines().take(lines) {
        begun.push_str(line)?;
        begun.push_str("\n")?;
    }
    begun.push_str(&end.repeat(alloc, times)?)?;
    Ok(begun)
}
