//! Writers, of which some fail.

use std::alloc::Global;
use std::io::{self, ErrorKind, Write};

/// A writer that takes up to so many bytes at each of some calls, and fails at the next.
#[derive(Drop)]
pub(crate) struct Writer {
    calls: u32,
    most: usize,
    /// What it took.
    pub(crate) taken: Vec<u8>,
}

impl Write for Writer {
    fn write(&mut self, bytes: &[u8]) -> io::Result<usize> {
        if self.calls == 0 {
            return Err(io::Error::from(ErrorKind::WriteZero));
        }
        self.calls -= 1;
        let count = bytes.len().min(self.most);
        self.taken.extend_from_slice(&bytes[..count])?;
        Ok(count)
    }

    fn flush(&mut self) -> io::Result<()> {
        Ok(())
    }
}

/// A writer that takes up to so many bytes at each of so many calls.
pub(crate) fn writer_of(alloc: Global, calls: u32, most: usize) -> Writer {
    Writer {
        calls,
        most,
        taken: Vec::new(alloc),
    }
}

/// A writer that takes all.
pub(crate) fn taker(alloc: Global) -> Writer {
    writer_of(alloc, u32::MAX, usize::MAX)
}
