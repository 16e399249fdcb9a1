//! An image and its log as storage of units.

use crate::copied_over::{is_old, touch};
use crate::is_at;
use crate::made_again::made_again;
use host::sparse::is_zero;
use stable::{Storage, UNIT, Which};
use std::alloc::Global;
use std::fs::File;
use std::io::{self, ErrorKind};
use std::os::unix::fs::FileExt;
use std::rt::Files;
use std::time::{Clock, SystemTime};

/// How many bytes of a file are read at once, how many of an image are written at once at least where so many come one behind the other, and
/// how many zeros are written behind what lengthens a log (own).
pub(crate) const AT_ONCE: u64 = 64 * UNIT as u64;
/// How a log's head begins: the first bytes of the log's second unit.
const HEAD: [u8; 8] = *b"MFSREDO1";

/// The two files, open. The image keeps its length in bytes; behind the end of each file zeros are read.
///
/// Once a write of a gate of the log or any sync has failed, each later call is refused: what the system then shows of a file may not be
/// what is on the disk. The program has to be started again.
///
/// The image is written while the log asks for changes of it alone. Before that, and each half second meanwhile, the log is touched, so
/// that a kill leaves no image that seems to have been copied over the one of its log. Where it can't be touched the image isn't written.
///
/// A log that isn't at its name any more once it is synced is made again there, with all that it has: so the next start finds it. Where
/// that fails, as where another file has the name, so does the sync. Where the folder isn't there either, both files have moved with it,
/// and stay as they are.
#[derive(Drop)]
pub struct ImageFiles<R> {
    alloc: Global,
    rt: R,
    log_name: String,
    log: File,
    log_ahead: Ahead,
    // None where there is no image yet.
    image: Option<File>,
    image_ahead: Ahead,
    image_behind: Behind,
    // How many bytes the image has.
    length: u64,
    // How many bytes the log counts as having: no write within them makes it longer.
    room: u64,
    // How many bytes the log had when it was synced last, or opened.
    synced: u64,
    // The unit of the log that was written last. A gate is the one write that doesn't go behind it: a record is written upward, and then its
    // gate, in front of it; and the first gate is closed.
    last: u64,
    is_doubtful: bool,
    // When the log was touched last.
    touched: Option<SystemTime>,
}

/// Bytes of a file, in its order: what was read last, until the file is written.
#[derive(Drop)]
struct Ahead {
    from: u64,
    bytes: Vec<u8>,
}

impl Ahead {
    /// Nothing is read yet.
    fn new(alloc: Global) -> Ahead {
        Ahead {
            from: 0,
            bytes: Vec::new(alloc),
        }
    }

    /// The unit at a place, where all of it was read.
    fn unit(&self, at: u64) -> Option<[u8; UNIT]> {
        let skipped = usize::try_from(at.checked_sub(self.from)?).ok()?;
        self.bytes.get(skipped..)?.first_chunk::<UNIT>().copied()
    }

    /// Reads so many bytes from a place on. Where that fails nothing counts as read.
    fn fill(&mut self, file: &File, at: u64, count: usize) -> io::Result<()> {
        self.bytes.resize(count, 0)?;
        self.from = at;
        let read = file.read_exact_at(&mut self.bytes, at);
        if read.is_err() {
            self.bytes.truncate(0);
        }
        read
    }

    /// The unit at a place of a file of so many bytes, with which those behind it are read: a settling and a comparison ask for one after
    /// the other.
    fn read(&mut self, file: &File, length: u64, at: u64) -> io::Result<[u8; UNIT]> {
        let count = length.saturating_sub(at).min(AT_ONCE) as usize;
        let _ = self.fill(file, at, count);
        match self.unit(at) {
            Some(unit) => Ok(unit),
            None => unit_at(file, length, at),
        }
    }

    /// Appends zeros to a file of so many bytes, as they are read behind its end. The bytes that were read serve as such zeros.
    fn lengthen(&mut self, file: &File, length: u64) -> io::Result<()> {
        self.bytes.truncate(0);
        self.bytes.resize(AT_ONCE as usize, 0)?;
        let written = file.write_all_at(&self.bytes, length);
        self.bytes.truncate(0);
        written
    }
}

/// Bytes that an image is to have from a place on: written once others come, or are read, or the image is synced.
#[derive(Drop)]
struct Behind {
    at: u64,
    bytes: Vec<u8>,
}

impl Behind {
    /// Whether bytes of this place lie right behind these, and are to be written with them.
    fn takes(&self, at: u64) -> bool {
        let count = self.bytes.len() as u64;
        count < AT_ONCE && self.at.saturating_add(count) == at
    }
}

/// Where a unit begins in a file, in bytes.
fn place_of(n: u64) -> io::Result<u64> {
    n.checked_mul(UNIT as u64)
        .ok_or(io::Error::from(ErrorKind::InvalidInput))
}

/// The unit at a place of a file of so many bytes: those that are there, and zeros behind them.
fn unit_at(file: &File, length: u64, at: u64) -> io::Result<[u8; UNIT]> {
    let mut unit = [0; UNIT];
    let there = length.saturating_sub(at).min(UNIT as u64) as usize;
    file.read_exact_at(&mut unit[..there], at)?;
    Ok(unit)
}

/// Whether the gate of a log is shut: its first unit is zeros, or isn't there.
pub(crate) fn is_shut(log: &File) -> io::Result<bool> {
    Ok(is_zero(&unit_at(log, log.metadata()?.len(), 0)?))
}

/// Whether this file is a log: its gate is shut, or its second unit is a log's head. A crash of a log's program leaves no other file.
pub(crate) fn is_log(log: &File) -> io::Result<bool> {
    let length = log.metadata()?.len();
    Ok(is_shut(log)? || unit_at(log, length, UNIT as u64)?.starts_with(&HEAD))
}

/// Whether a log asks for changes of the image whose file has this number: its first gate is the head behind it.
pub(crate) fn is_due(log: &File, number: u64) -> io::Result<bool> {
    let length = log.metadata()?.len();
    let head = unit_at(log, length, UNIT as u64)?;
    let is_of_it = match head.split_first_chunk::<8>() {
        Some((letters, rest)) => *letters == HEAD && rest.starts_with(&number.to_be_bytes()),
        None => false,
    };
    Ok(is_of_it && unit_at(log, length, 0)? == head)
}

impl<R: Files<File = File> + Clock + Drop> ImageFiles<R> {
    /// The storage of a log of this name and an image, which has as many bytes as it has now.
    pub(crate) fn new(
        alloc: Global,
        rt: R,
        log_name: String,
        log: File,
        image: Option<File>,
    ) -> io::Result<ImageFiles<R>> {
        let length = match &image {
            Some(image) => image.metadata()?.len(),
            None => 0,
        };
        let room = log.metadata()?.len();
        Ok(ImageFiles {
            alloc,
            rt,
            log_name,
            log,
            log_ahead: Ahead::new(alloc),
            image,
            image_ahead: Ahead::new(alloc),
            image_behind: Behind {
                at: 0,
                bytes: Vec::new(alloc),
            },
            length,
            room,
            synced: room,
            last: 0,
            is_doubtful: false,
            touched: None,
        })
    }

    /// One of the files, unless they are in doubt.
    fn file(&self, which: Which) -> io::Result<&File> {
        let file = match which {
            Which::Log => Some(&self.log),
            Which::Image => self.image.as_ref(),
        };
        match file {
            Some(file) if !self.is_doubtful => Ok(file),
            _ => Err(io::Error::from(ErrorKind::Other)),
        }
    }

    /// The unit at a place of the log.
    fn log_unit(&mut self, at: u64) -> io::Result<[u8; UNIT]> {
        if let Some(unit) = self.log_ahead.unit(at) {
            return Ok(unit);
        }
        let length = self.file(Which::Log)?.metadata()?.len();
        self.log_ahead.read(&self.log, length, at)
    }

    /// The unit at a place of the image.
    fn image_unit(&mut self, at: u64) -> io::Result<[u8; UNIT]> {
        if !self.image_behind.bytes.is_empty() {
            self.write_behind()?;
        }
        match &self.image {
            Some(image) if !self.is_doubtful => match self.image_ahead.unit(at) {
                Some(unit) => Ok(unit),
                None => self.image_ahead.read(image, self.length, at),
            },
            _ => Err(io::Error::from(ErrorKind::Other)),
        }
    }

    /// Appends zeros to the log, where a write to this end of it made it longer: then the next syncs wait for its bytes alone, and not for the
    /// journal of the file system, too. They change nothing that is read of it, and may be wanting.
    fn make_room(&mut self, end: u64) {
        if end > self.room {
            let _ = self.log_ahead.lengthen(&self.log, end);
            self.room = end.saturating_add(AT_ONCE);
        }
    }

    /// Cuts off what was written behind the end of the log since it was synced, as of a record for which the disk has no room: the room is
    /// there again then. What is cut off counts as nothing, since its gate is closed.
    fn cut_back(&mut self) {
        if self.log.set_len(self.synced).is_ok() {
            self.room = self.synced;
        }
    }

    /// Writes bytes at a place of the log.
    fn write_log(&mut self, first: u64, bytes: &[u8]) -> io::Result<()> {
        let at = place_of(first)?;
        let written = self.file(Which::Log)?.write_all_at(bytes, at);
        self.log_ahead.bytes.truncate(0);
        let is_gate = first <= self.last;
        self.last = first;
        match &written {
            Ok(()) => self.make_room(at.saturating_add(bytes.len() as u64)),
            Err(_) if is_gate => self.is_doubtful = true,
            Err(_) => self.cut_back(),
        }
        written
    }

    /// Syncs the log, which is made again at its name where it isn't there any more.
    fn sync_log(&mut self) -> io::Result<()> {
        let log = self.file(Which::Log)?;
        log.sync_data()?;
        if is_at(&self.rt, Some(log), &self.log_name)? {
            return Ok(());
        }
        match made_again(self.alloc, &self.rt, log, &self.log_name) {
            Ok(again) => {
                self.log = again;
                Ok(())
            }
            Err(error) if error.kind() == ErrorKind::NotFound => Ok(()),
            Err(error) => Err(error),
        }
    }

    /// Takes bytes that are to be written at a place of the image: those that lie one behind the other go together.
    fn write_image(&mut self, first: u64, bytes: &[u8]) -> io::Result<()> {
        let at = place_of(first)?;
        let _ = self.file(Which::Image)?;
        if !self.image_behind.takes(at) {
            self.write_behind()?;
            self.image_behind.at = at;
        }
        self.image_behind.bytes.extend_from_slice(bytes)?;
        Ok(())
    }

    /// Touches the log, where it may be older than the image once that is written.
    fn touch_log(&mut self) -> io::Result<()> {
        let now = SystemTime::now(&self.rt)?;
        if is_old(self.touched, now) {
            touch(self.file(Which::Log)?, now)?;
            self.touched = Some(now);
        }
        Ok(())
    }

    /// Writes what the image is to have, of which only the bytes within its length.
    fn write_behind(&mut self) -> io::Result<()> {
        let written = self.write_within();
        self.image_behind.bytes.truncate(0);
        self.image_ahead.bytes.truncate(0);
        written
    }

    /// The same, and the bytes stay to be written.
    fn write_within(&mut self) -> io::Result<()> {
        let rest = self.length.saturating_sub(self.image_behind.at);
        let rest = usize::try_from(rest).unwrap_or(usize::MAX);
        if rest > 0 && !self.image_behind.bytes.is_empty() {
            self.touch_log()?;
        }
        let image = self.file(Which::Image)?;
        let there = self.image_behind.bytes.len().min(rest);
        image.write_all_at(&self.image_behind.bytes[..there], self.image_behind.at)
    }
}

impl<R: Files<File = File> + Clock + Drop> Storage for ImageFiles<R> {
    fn read(&mut self, file: Which, n: u64) -> io::Result<[u8; UNIT]> {
        let at = place_of(n)?;
        match file {
            Which::Log => self.log_unit(at),
            Which::Image => self.image_unit(at),
        }
    }

    fn write(&mut self, file: Which, first: u64, units: &[[u8; UNIT]]) -> io::Result<()> {
        match file {
            Which::Log => self.write_log(first, units.as_flattened()),
            Which::Image => self.write_image(first, units.as_flattened()),
        }
    }

    fn sync(&mut self, file: Which) -> io::Result<()> {
        let synced = match file {
            Which::Log => self.sync_log(),
            Which::Image => {
                self.write_behind()?;
                self.file(file)?.sync_data()
            }
        };
        self.is_doubtful = synced.is_err();
        if matches!(file, Which::Log) {
            self.synced = self.room;
        }
        synced
    }
}
