//! How long work took, and a plain copy to compare it with.

use std::io;
use std::time::Instant;

/// The microseconds since a piece of work began.
pub fn micros_since(rt: &HostRuntime, start: Instant) -> io::Result<u128> {
    Ok(start.elapsed(rt)?.as_micros())
}

/// Copies as many bytes as both slices have, and tells how many.
pub fn copy(from: &[u8], to: &mut [u8]) -> usize {
    let count = from.len().min(to.len());
    to[..count].copy_from_slice(&from[..count]);
    count
}

/// Tells one line.
pub fn say(rt: &HostRuntime, line: &str) -> io::Result<()> {
    eprintln!(*rt; "{line}")
}

/// Tells how long a piece of work took that ends now, and how many blocks it went over, or what else is counted.
pub fn tell(
    rt: &HostRuntime,
    what: &str,
    done: u32,
    counted: &str,
    start: Instant,
) -> io::Result<()> {
    let micros = micros_since(rt, start)?;
    eprintln!(*rt; "{what}: {done} {counted} in {micros} microseconds")
}
