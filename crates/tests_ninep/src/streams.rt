//! Streams, a clock and sessions of tests.

use std::alloc::Global;
use std::io;
use std::io::{ErrorKind, Read, Write};
use std::time::{Clock, Duration};
use talks::answers::Answers;
use talks::ask::Leaving;
use talks::end::End;
use talks::sessions::{EnterRefusal, Sessions};
use tree::{Call, Outcome};

/// Bytes that are read at most so many at a time.
#[derive(Drop)]
pub struct Piecemeal<'b> {
    pub bytes: &'b [u8],
    pub piece: usize,
}

impl Read for Piecemeal<'_> {
    fn read(&mut self, buf: &mut [u8]) -> io::Result<usize> {
        let count = self.piece.min(self.bytes.len()).min(buf.len());
        let (front, rest) = self.bytes.split_at(count);
        buf[..count].copy_from_slice(front);
        self.bytes = rest;
        Ok(count)
    }
}

/// The same, but each other read, the first among them, is interrupted.
#[derive(Drop)]
pub struct Interrupted<'b> {
    pub rest: Piecemeal<'b>,
    pub is_late: bool,
}

impl Read for Interrupted<'_> {
    fn read(&mut self, buf: &mut [u8]) -> io::Result<usize> {
        self.is_late = !self.is_late;
        if self.is_late {
            return Err(io::Error::from(ErrorKind::Interrupted));
        }
        self.rest.read(buf)
    }
}

/// A writer that hands on what it took once it is flushed.
#[derive(Drop)]
pub struct Held {
    held: Vec<u8>,
    pub flushed: Vec<u8>,
}

impl Held {
    /// A writer that has taken nothing.
    pub fn new(alloc: Global) -> Held {
        Held {
            held: Vec::new(alloc),
            flushed: Vec::new(alloc),
        }
    }
}

impl Write for Held {
    fn write(&mut self, buf: &[u8]) -> io::Result<usize> {
        self.held.extend_from_slice(buf)?;
        Ok(buf.len())
    }

    fn flush(&mut self) -> io::Result<()> {
        self.flushed.extend_from_slice(&self.held)?;
        self.held.clear();
        Ok(())
    }
}

/// A writer that takes so many bytes, at most seven at a time, and refuses more.
#[derive(Drop)]
pub struct Narrow {
    pub taken: Vec<u8>,
    room: usize,
}

impl Narrow {
    /// A stream that has taken nothing, and takes so many bytes.
    pub fn new(alloc: Global, room: usize) -> Narrow {
        Narrow {
            taken: Vec::new(alloc),
            room,
        }
    }
}

impl Write for Narrow {
    fn write(&mut self, buf: &[u8]) -> io::Result<usize> {
        let count = buf.len().min(self.room).min(7);
        if count == 0 && !buf.is_empty() {
            return Err(io::Error::from(ErrorKind::StorageFull));
        }
        self.taken.extend_from_slice(&buf[..count])?;
        self.room -= count;
        Ok(count)
    }

    fn flush(&mut self) -> io::Result<()> {
        Ok(())
    }
}

/// A clock that stands.
#[derive(Drop)]
pub struct Fixed;

impl Clock for Fixed {
    fn monotonic(&self) -> io::Result<Duration> {
        Ok(Duration::from_secs(100))
    }

    fn since_1970(&self) -> io::Result<Duration> {
        Ok(Duration::from_secs(100))
    }
}

/// A clock that stands at so many seconds since 1970, or tells no time.
#[derive(Drop)]
pub struct Standing(pub Option<u64>);

impl Clock for Standing {
    fn monotonic(&self) -> io::Result<Duration> {
        Ok(Duration::from_secs(100))
    }

    fn since_1970(&self) -> io::Result<Duration> {
        match self.0 {
            Some(seconds) => Ok(Duration::from_secs(seconds)),
            None => Err(io::Error::from(ErrorKind::Unsupported)),
        }
    }
}

/// A session of each user, whose calls are cut, and the time of the last one.
#[derive(Drop)]
pub struct Timed {
    pub now: Option<u32>,
}

impl Sessions for Timed {
    ghost called = { λ s session now call outcome t. Unit {0} };

    ghost entered = { λ s uid gid result t. Unit {0} };

    ghost left = { λ s who t. Unit {0} };

    fn enter(&mut self, _uid: u16, _gid: u16) -> Result<u8, EnterRefusal> {
        Ok(0)
    }

    fn call(&mut self, _session: u8, now: u32, _call: &Call<'_>) -> Outcome {
        self.now = Some(now);
        Outcome::Cut
    }

    fn leave(&mut self, _who: Leaving) {}
}

/// Sessions that are never made.
#[derive(Drop)]
pub struct Idle;

impl Sessions for Idle {
    ghost called = { λ s session now call outcome t. Unit {0} };

    ghost entered = { λ s uid gid result t. Unit {0} };

    ghost left = { λ s who t. Unit {0} };

    fn enter(&mut self, _uid: u16, _gid: u16) -> Result<u8, EnterRefusal> {
        Err(EnterRefusal::TooMany)
    }

    fn call(&mut self, _session: u8, _now: u32, _call: &Call<'_>) -> Outcome {
        Outcome::Cut
    }

    fn leave(&mut self, _who: Leaving) {}
}

/// A writer that takes nothing, and isn't flushed.
#[derive(Drop)]
pub struct Shut;

impl Write for Shut {
    fn write(&mut self, _buf: &[u8]) -> io::Result<usize> {
        Err(io::Error::from(ErrorKind::StorageFull))
    }

    fn flush(&mut self) -> io::Result<()> {
        Err(io::Error::from(ErrorKind::StorageFull))
    }
}

/// Who answers each message by no bytes, and takes messages of 5 to 9 bytes.
#[derive(Drop)]
pub struct Silent {
    pub count: u32,
}

impl Answers for Silent {
    ghost answers = { λ S called entered left message answer s w t v. Unit {0} };

    ghost fewest = { 5 };

    fn least(&self) -> u32 {
        5
    }

    fn most(&self) -> u32 {
        9
    }

    fn answer<S: Sessions>(
        &mut self,
        _sessions: &mut S,
        _now: u32,
        _bytes: &[u8],
        _out: &mut Vec<u8>,
    ) -> Result<(), End> {
        self.count = self.count.saturating_add(1);
        Ok(())
    }
}
