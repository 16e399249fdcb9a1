//! A writer that fails.

use std::io::{self, ErrorKind, Write};

/// A writer that takes up to 5 bytes at each of some calls, and fails at the next.
#[derive(Drop)]
pub struct Failing {
    /// How many calls it takes still.
    pub calls: u32,
    /// What it has.
    pub taken: Vec<u8>,
}

impl Write for Failing {
    fn write(&mut self, bytes: &[u8]) -> io::Result<usize> {
        if self.calls == 0 {
            return Err(io::Error::from(ErrorKind::WriteZero));
        }
        self.calls -= 1;
        let count = bytes.len().min(5);
        self.taken.extend_from_slice(&bytes[..count])?;
        Ok(count)
    }

    fn flush(&mut self) -> io::Result<()> {
        Ok(())
    }
}
