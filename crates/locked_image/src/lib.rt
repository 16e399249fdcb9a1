//! The image of a volume as two files: the image, and beside it its redo log, which is locked while a program may write the image.
#![tactic(auto)]

pub mod beside;
mod copied_over;
pub mod locked;
mod made_again;
pub mod reading;
pub mod reasons;
pub mod storing;

ghost use Rattle.std.specs.Prelude.{◌≡◌};
ghost use Rattle.locked_image.specs.Refusals.{files_refusal_number};

use std::alloc::{AllocError, Global};
use std::fmt;
use std::fs::{self, File, OpenOptions, TryLockError};
use std::io::{self, ErrorKind};
use std::os::unix::fs::MetadataExt;
use std::rt::Files;

/// How often files are opened anew that somebody took away or replaced meanwhile (own).
const MOST_TRIES: u32 = 16;

/// Why an image is neither read nor written, in the order in which it is looked for; each prints a line.
#[derive(Clone, Copy, Debug, PartialEq, Eq)]
pub enum FilesRefusal<'n> {
    /// 1: it can't be opened for reading and writing, or its log can't, or it can't be written; and why.
    CannotWrite(&'n str, &'static str),
    /// 2: another program has a lock of it, or of its log.
    Served(&'n str),
    /// 3: its log is open for another image, or the file of that name is no log. It is as it was.
    Foreign(&'n str),
    /// 4: it was changed more than a second later than its log, which asks for changes of it. Both are as they were.
    CopiedOver(&'n str),
    /// 5: it can't be read, or its log can't; and why.
    CannotRead(&'n str, &'static str),
}

impl FilesRefusal<'_> {
    /// Its number.
    pub fn number(&self) -> u32
        ensures { result ≡ files_refusal_number self.now }
    {
        match self {
            FilesRefusal::CannotWrite(_, _) => 1,
            FilesRefusal::Served(_) => 2,
            FilesRefusal::Foreign(_) => 3,
            FilesRefusal::CopiedOver(_) => 4,
            FilesRefusal::CannotRead(_, _) => 5,
        }
    }
}

impl fmt::Display for FilesRefusal<'_> {
    fn fmt<W: fmt::Write>(&self, f: &mut fmt::Formatter<W>) -> fmt::Result {
        match self {
            FilesRefusal::CannotWrite(name, why) => write!(f, "cannot write {name}: {why}"),
            FilesRefusal::CannotRead(name, why) => write!(f, "cannot read {name}: {why}"),
            FilesRefusal::Served(name) => write!(f, "{name} is being served"),
            FilesRefusal::Foreign(name) => write!(f, "{name}.redo is of another image"),
            FilesRefusal::CopiedOver(name) => {
                write!(
                    f,
                    "{name} was changed later than {name}.redo, which a kill left: "
                )?;
                f.write_str("if another image took its place remove that log, else touch it")
            }
        }
    }
}

/// The name of the log of the image at this place.
fn log_name(alloc: Global, place: &str) -> Result<String, AllocError> {
    format!(in alloc; "{place}.redo")
}

/// The image of this name, open for reading and writing; none where there is none. What is there and is no file is refused.
fn image_at<R: Files<File = File>>(rt: &R, place: &str) -> io::Result<Option<File>> {
    match OpenOptions::new().read(true).write(true).open(rt, place) {
        Ok(file) if file.metadata()?.is_file() => Ok(Some(file)),
        Ok(_) => Err(io::Error::from(ErrorKind::InvalidInput)),
        Err(error) if error.kind() == ErrorKind::NotFound => Ok(None),
        Err(error) => Err(error),
    }
}

/// Whether this file, or none, is what the name leads to.
fn is_at<R: Files<File = File>>(rt: &R, file: Option<&File>, name: &str) -> io::Result<bool> {
    match (fs::metadata(rt, name), file) {
        (Ok(there), Some(file)) => {
            let open = file.metadata()?;
            Ok(open.ino() == there.ino() && open.dev() == there.dev())
        }
        (Ok(_), None) => Ok(false),
        (Err(error), _) if error.kind() == ErrorKind::NotFound => Ok(file.is_none()),
        (Err(error), _) => Err(error),
    }
}

/// Whether a lock was taken: not where another program has one.
fn is_taken(lock: Result<(), TryLockError>) -> io::Result<bool> {
    match lock {
        Ok(()) => Ok(true),
        Err(TryLockError::WouldBlock) => Ok(false),
        Err(TryLockError::Error(error)) => Err(error),
    }
}
