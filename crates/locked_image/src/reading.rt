//! Images that are only read.

use crate::copied_over::is_copied_over;
use crate::reasons::why;
use crate::storing::{ImageFiles, is_log};
use crate::{FilesRefusal, MOST_TRIES, is_at, is_taken, log_name};
use host::whole_file::{place_of, read_front};
use image_file::{OpenRefusal, read_through};
use std::fs::{self, File, TryLockError};
use std::io::{self, ErrorKind};
use std::os::unix::fs::MetadataExt;
use std::rt::Files;
use std::time::Clock;

/// The bytes of an image. Where a log lies beside it, what the log asks for is put into them; no file is changed.
///
/// Refused are an image that can't be read, or whose log can't (`CannotRead`), one that a program may be writing (`Served`), one whose log is
/// another image's, or none (`Foreign`), and one that was copied over that of its log (`CopiedOver`).
pub fn read_image<'n, R: Files<File = File> + AllocGlobal + Clock + Copy>(
    rt: &R,
    name: &'n str,
) -> Result<Vec<u8>, FilesRefusal<'n>> {
    match try_read(rt, name) {
        Ok(read) => read,
        Err(error) => Err(FilesRefusal::CannotRead(name, why(&error))),
    }
}

/// The same; an error where a file can't be read. Where a log comes or goes meanwhile all is read again.
fn try_read<'n, R: Files<File = File> + AllocGlobal + Clock + Copy>(
    rt: &R,
    name: &'n str,
) -> io::Result<Result<Vec<u8>, FilesRefusal<'n>>> {
    for _ in 0..MOST_TRIES {
        let place = place_of(rt, name)?;
        let place = place.as_path().as_str();
        let log_name = log_name(rt.alloc(), place)?;
        let Some(shared) = shared_at(rt, place, &log_name)? else {
            break;
        };
        let bytes = read_front(rt, place)?;
        if is_at(rt, shared.log.as_ref(), &log_name)? {
            return read_behind(rt, name, shared, bytes);
        }
    }
    Ok(Err(FilesRefusal::Served(name)))
}

/// An image and its log, if it has one. No program writes them while they are open here, since both are locked.
#[derive(Drop)]
struct SharedFiles {
    image: File,
    log: Option<File>,
}

/// The image at a place and the log of this name; none where a program may be writing them. An image that can't be locked for another
/// reason, as by a file system without locks, is read all the same.
fn shared_at<R: Files<File = File>>(
    rt: &R,
    place: &str,
    log_name: &str,
) -> io::Result<Option<SharedFiles>> {
    let log = log_at(rt, log_name)?;
    if let Some(log) = &log {
        if !is_taken(log.try_lock_shared())? {
            return Ok(None);
        }
    }
    let image = File::open(rt, place)?;
    match image.try_lock_shared() {
        Err(TryLockError::WouldBlock) => Ok(None),
        _ => Ok(Some(SharedFiles { image, log })),
    }
}

/// The log of this name, if there is one. What is there and is no file, as a pipe that nobody may ever write, is refused.
fn log_at<R: Files<File = File>>(rt: &R, name: &str) -> io::Result<Option<File>> {
    match fs::metadata(rt, name) {
        Ok(there) if there.is_file() => Ok(Some(File::open(rt, name)?)),
        Ok(_) => Err(io::Error::from(ErrorKind::InvalidInput)),
        Err(error) if error.kind() == ErrorKind::NotFound => Ok(None),
        Err(error) => Err(error),
    }
}

/// The bytes of an image, with what its log asks for.
fn read_behind<'n, R: Files<File = File> + AllocGlobal + Clock + Copy>(
    rt: &R,
    name: &'n str,
    shared: SharedFiles,
    bytes: Vec<u8>,
) -> io::Result<Result<Vec<u8>, FilesRefusal<'n>>> {
    let SharedFiles { image, log } = shared;
    let Some(log) = log else {
        return Ok(Ok(bytes));
    };
    if !is_log(&log)? {
        return Ok(Err(FilesRefusal::Foreign(name)));
    }
    if is_copied_over(&image, &log)? {
        return Ok(Err(FilesRefusal::CopiedOver(name)));
    }
    let number = image.metadata()?.ino();
    let no_name = String::new(rt.alloc());
    let mut files = ImageFiles::new(rt.alloc(), *rt, no_name, log, Some(image))?;
    let mut bytes = bytes;
    match read_through(rt.alloc(), &mut files, number, bytes.as_mut_slice()) {
        Ok(()) => Ok(Ok(bytes)),
        Err(OpenRefusal::Foreign) => Ok(Err(FilesRefusal::Foreign(name))),
        Err(OpenRefusal::Io(error)) => Err(error),
    }
}
