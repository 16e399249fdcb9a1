//! The descriptor of /dev/fuse as a stream of messages, and as one of answers.

use std::io;
use std::io::{Read, Write};

/// The system's number of ENOENT: a message was withdrawn before it was read, or an answer is nobody's any more.
const WITHDRAWN: i32 = 2;

/// The system's number of EINTR: a read was interrupted.
const INTERRUPTED: i32 = 4;

/// The system's number of ENODEV: the volume is unmounted.
const UNMOUNTED: i32 = 19;

/// The number of an error of the system; 0 of another one.
fn code_of(error: &io::Error) -> i32 {
    match error.raw_os_error() {
        Some(code) => code,
        None => 0,
    }
}

/// Whether a read that failed so is tried again: the message was withdrawn before it was read, or a signal came.
fn is_passing(error: &io::Error) -> bool {
    let code = code_of(error);
    code == WITHDRAWN || code == INTERRUPTED
}

/// A stream of messages from the kernel, or of answers to it: each read gives one message whole, and each write is one answer. It ends once
/// the volume is unmounted.
#[derive(Drop)]
pub(crate) struct Device<T> {
    stream: T,
}

impl<T> Device<T> {
    /// The descriptor that this stream reads or writes.
    pub(crate) fn new(stream: T) -> Device<T> {
        Device { stream }
    }
}

impl<T: Read> Read for Device<T> {
    /// A message that was withdrawn before it was read is passed over; no bytes are read once the volume is unmounted.
    fn read(&mut self, buf: &mut [u8]) -> io::Result<usize> {
        for _ in 0..u64::MAX {
            match self.stream.read(buf) {
                Ok(count) => return Ok(count),
                Err(error) if code_of(&error) == UNMOUNTED => return Ok(0),
                Err(error) if !is_passing(&error) => return Err(error),
                Err(_) => {}
            }
        }
        Ok(0)
    }
}

impl<T: Write> Write for Device<T> {
    /// An answer that nobody waits for any more counts as written.
    fn write(&mut self, buf: &[u8]) -> io::Result<usize> {
        match self.stream.write(buf) {
            Ok(count) => Ok(count),
            Err(error) => {
                let code = code_of(&error);
                if code == UNMOUNTED || code == WITHDRAWN {
                    Ok(buf.len())
                } else {
                    Err(error)
                }
            }
        }
    }

    fn flush(&mut self) -> io::Result<()> {
        self.stream.flush()
    }
}
