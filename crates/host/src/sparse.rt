//! Bytes put where all is zero so far: what is zero of them needn't be put.

ghost use Rattle.std.specs.Prelude.{◌≡◌, ◌<◌, ◌≤◌, ◌↔◌, ℕ, List, Option, None, Some, IsTrue, OnOk, length, take, replicate};
ghost use Rattle.host.specs.Sparse.{Puts, filled};

use std::io::{self, Seek, SeekFrom, Write};

/// How many bytes are looked at together, whether they are all zero: a block of most file systems (own).
const PIECE: usize = 4096;

/// The most bytes that are put together (own).
const MOST: usize = 262144;

/// What takes bytes at places.
pub trait Sink {
    // The bytes that it holds, where they are known.
    ghost contents: { Self → Option (List ℕ) } = { λ _. None };

    /// Puts all of these bytes at a place, over what was there.
    fn put(&mut self, at: u64, bytes: &[u8]) -> io::Result<()>
        ensures { OnOk result (Puts (contents self.old) (contents self.new) at bytes.now) };
}

/// Puts bytes at the front of what holds zeros alone: then it holds them, and zeros behind them. A piece of them that is all zero isn't
/// put.
pub fn put_all<S: Sink>(sink: &mut S, bytes: &[u8]) -> io::Result<()>
    ensures whole { (n : ℕ) → S.contents sink.old ≡ Some (replicate n 0) → length bytes.now ≤ n
        → OnOk result (S.contents sink.new ≡ Some (filled bytes.now n)) }
{
    let mut at = zeros_at_front(bytes);
    while at < bytes.len() {
        let end = at + run_at_front(&bytes[at..]);
        sink.put(at as u64, &bytes[at..end])?;
        at = end + zeros_at_front(&bytes[end..]);
    }
    Ok(())
}

/// How many bytes at the front are zero, in whole pieces.
fn zeros_at_front(bytes: &[u8]) -> usize
    ensures within { result ≤ length bytes.now }
    ensures zeros { take result bytes.now ≡ replicate result 0 }
{
    let mut at = 0;
    while at < bytes.len() {
        let end = at + PIECE.min(bytes.len() - at);
        if !is_zero(&bytes[at..end]) {
            return at;
        }
        at = end;
    }
    at
}

/// How many bytes at the front are put together: those of the first piece, and of the next ones up to one that is all zero.
fn run_at_front(bytes: &[u8]) -> usize
    ensures within { result ≤ length bytes.now }
    ensures some { 0 < length bytes.now → 0 < result }
{
    let mut at = PIECE.min(bytes.len());
    while at < bytes.len() && at < MOST {
        let end = at + PIECE.min(bytes.len() - at);
        if is_zero(&bytes[at..end]) {
            return at;
        }
        at = end;
    }
    at
}

/// Whether all of these bytes are zero.
pub fn is_zero(bytes: &[u8]) -> bool
    ensures { IsTrue result ↔ (bytes.now ≡ replicate (length bytes.now) 0) }
{
    let mut most: u8 = 0;
    for byte in bytes {
        most = most.max(*byte);
    }
    most == 0
}

/// A file that takes bytes at places.
#[derive(Drop)]
pub struct Places<'f, F> {
    file: &'f mut F,
    // where the file stands; none where a write failed
    at: Option<u64>,
}

impl<'f, F: Write + Seek> Places<'f, F> {
    /// The places of a file that stands at its beginning.
    pub fn new(file: &'f mut F) -> Places<'f, F> {
        Places { file, at: Some(0) }
    }
}

impl<F: Write + Seek> Sink for Places<'_, F> {
    fn put(&mut self, at: u64, bytes: &[u8]) -> io::Result<()> {
        if self.at != Some(at) {
            self.file.seek(SeekFrom::Start(at))?;
        }
        self.at = None;
        self.file.write_all(bytes)?;
        self.at = Some(at.saturating_add(bytes.len() as u64));
        Ok(())
    }
}
