//! An image that one program alone may write: it holds the locks of the image and of its log.

use crate::copied_over::is_copied_over;
use crate::reasons::why;
use crate::storing::{ImageFiles, is_log, is_shut};
use crate::{FilesRefusal, MOST_TRIES, image_at, is_at, is_taken, log_name};
use host::whole_file::{flush_folder, place_of, replace_filled};
use image_file::{Kept, OpenRefusal};
use std::alloc::Global;
use std::fs::{self, File, OpenOptions};
use std::io::{self, ErrorKind};
use std::os::unix::fs::{MetadataExt, chown};
use std::path::PathBuf;
use std::rt::Files;
use std::time::Clock;

/// An image, or the name of one that is to be made, and its log, both locked until `close` or the end of the process.
#[derive(Drop)]
pub struct LockedImage {
    place: PathBuf,
    image: Option<File>,
    log_name: String,
    log: File,
    // Whether the log was made for this, and so asks for nothing.
    is_new: bool,
}

/// Opens the image of this name, or none where there is none, and its log, which is made where there is none; and locks both. A symbolic
/// link is followed: the log lies beside the file that it leads to.
///
/// Refused are what is no file or can't be opened for reading and writing (`CannotWrite`), an image that another program has locked by this
/// name or another one, or whose log it has (`Served`), and a log that is none (`Foreign`).
pub fn open<'n, R: Files<File = File> + AllocGlobal>(
    rt: &R,
    name: &'n str,
) -> Result<LockedImage, FilesRefusal<'n>> {
    match try_open(rt, name) {
        Ok(Some(locked)) => match is_log(&locked.log) {
            Ok(true) => Ok(locked),
            Ok(false) => Err(FilesRefusal::Foreign(name)),
            Err(error) => Err(FilesRefusal::CannotWrite(name, why(&error))),
        },
        Ok(None) => Err(FilesRefusal::Served(name)),
        Err(error) => Err(FilesRefusal::CannotWrite(name, why(&error))),
    }
}

/// The same; none where another program has a lock. Somebody may take the log away before it is locked, or replace the image: then both are
/// opened again.
fn try_open<R: Files<File = File> + AllocGlobal>(
    rt: &R,
    name: &str,
) -> io::Result<Option<LockedImage>> {
    if name.is_empty() {
        return Err(io::Error::from(ErrorKind::InvalidInput));
    }
    for _ in 0..MOST_TRIES {
        let place = place_of(rt, name)?;
        let image = image_at(rt, place.as_path().as_str())?;
        let log_name = log_name(rt.alloc(), place.as_path().as_str())?;
        let (log, is_new) = log_at(rt, &log_name, image.as_ref())?;
        if !is_taken(log.try_lock())? {
            return Ok(None);
        }
        if !try_lock_image(image.as_ref())? {
            take_away(rt, &log_name, is_new);
            return Ok(None);
        }
        let is_image = is_at(rt, image.as_ref(), place.as_path().as_str())?;
        if is_image && is_at(rt, Some(&log), &log_name)? {
            return Ok(Some(LockedImage {
                place,
                image,
                log_name,
                log,
                is_new,
            }));
        }
    }
    Ok(None)
}

/// Tries to lock an image, if there is one: a program that serves it by another name of the file has another log. Whether none does.
fn try_lock_image(image: Option<&File>) -> io::Result<bool> {
    match image {
        Some(image) => is_taken(image.try_lock()),
        None => Ok(true),
    }
}

/// Takes a log away that was made.
fn take_away<R: Files<File = File>>(rt: &R, log_name: &str, is_new: bool) {
    if is_new {
        let _ = fs::remove_file(rt, log_name);
    }
}

/// The log of this name, and whether it was made: then it has the permissions of the image, and its owner where this process may give it
/// away.
fn log_at<R: Files<File = File>>(
    rt: &R,
    name: &str,
    image: Option<&File>,
) -> io::Result<(File, bool)> {
    let mut how = OpenOptions::new();
    how.read(true).write(true);
    match how.create_new(true).open(rt, name) {
        Ok(log) => {
            if let Some(image) = image {
                let metadata = image.metadata()?;
                let _ = chown(rt, name, Some(metadata.uid()), Some(metadata.gid()));
                log.set_permissions(metadata.permissions())?;
            }
            Ok((log, true))
        }
        Err(error) if error.kind() == ErrorKind::AlreadyExists => {
            Ok((how.create_new(false).create(true).open(rt, name)?, false))
        }
        Err(error) => Err(error),
    }
}

impl LockedImage {
    /// Whether there is an image.
    pub fn has_image(&self) -> bool {
        self.image.is_some()
    }

    /// Whether this name leads to the image.
    pub fn is_image<R: Files<File = File>>(&self, rt: &R, name: &str) -> bool {
        self.image.is_some() && matches!(is_at(rt, self.image.as_ref(), name), Ok(true))
    }

    /// Does what the log asks for, and keeps the image from now on; `name` is the name that a refusal tells.
    pub fn keep<'n, R: Files<File = File> + AllocGlobal + Clock + Copy>(
        &self,
        rt: &R,
        name: &'n str,
    ) -> Result<Kept<ImageFiles<R>>, FilesRefusal<'n>> {
        match self.is_copied_over() {
            Ok(false) => {}
            Ok(true) => return Err(FilesRefusal::CopiedOver(name)),
            Err(error) => return Err(FilesRefusal::CannotWrite(name, why(&error))),
        }
        match self.opened(rt) {
            Ok(kept) => Ok(kept),
            Err(OpenRefusal::Foreign) => Err(FilesRefusal::Foreign(name)),
            Err(OpenRefusal::Io(error)) => Err(FilesRefusal::CannotWrite(name, why(&error))),
        }
    }

    /// Does what the log asks for.
    fn opened<R: Files<File = File> + AllocGlobal + Clock + Copy>(
        &self,
        rt: &R,
    ) -> Result<Kept<ImageFiles<R>>, OpenRefusal> {
        match self.files(rt) {
            Ok((files, number)) => Kept::open(rt.alloc(), files, number),
            Err(error) => Err(OpenRefusal::Io(error)),
        }
    }

    /// Whether another image was copied over this one, whose log is due.
    fn is_copied_over(&self) -> io::Result<bool> {
        match &self.image {
            Some(image) => is_copied_over(image, &self.log),
            None => Ok(false),
        }
    }

    /// The two files, and the image's name in its log: the number of its inode, and 0, which is that of no file, where there is no image.
    /// The name of a log that was made is on the disk first.
    fn files<R: Files<File = File> + AllocGlobal + Clock + Copy>(
        &self,
        rt: &R,
    ) -> io::Result<(ImageFiles<R>, u64)> {
        if self.is_new {
            flush_folder(rt, &self.log_name)?;
        }
        let log_name = String::from_str(rt.alloc(), self.log_name.as_str())?;
        let (image, number) = match &self.image {
            Some(image) => (Some(image.try_clone()?), image.metadata()?.ino()),
            None => (None, 0),
        };
        Ok((
            ImageFiles::new(rt.alloc(), *rt, log_name, self.log.try_clone()?, image)?,
            number,
        ))
    }

    /// Does what the log asks for, where there was one; `name` is the name that a refusal tells.
    pub fn settle<'n, R: Files<File = File> + AllocGlobal + Clock + Copy>(
        &self,
        rt: &R,
        name: &'n str,
    ) -> Result<(), FilesRefusal<'n>> {
        if !self.is_new {
            self.keep(rt, name)?;
        }
        Ok(())
    }

    /// Puts bytes in the place of the image, and zeros behind them up to a length, as `replace_filled` does. The log has to be settled.
    pub fn replace<R: Files<File = File> + AllocGlobal>(
        &mut self,
        rt: &R,
        bytes: &[u8],
        length: u64,
    ) -> io::Result<()> {
        let place = self.place.as_path().as_str();
        replace_filled(rt, place, bytes, length)?;
        self.image = image_at(rt, place)?;
        try_lock_image(self.image.as_ref())?;
        Ok(())
    }

    /// Takes the log away, if its gate is shut, and gives the lock back.
    pub fn close<R: Files<File = File>>(self, rt: &R) {
        let is_ours = matches!(is_at(rt, Some(&self.log), &self.log_name), Ok(true));
        if is_ours && matches!(is_shut(&self.log), Ok(true)) {
            let _ = fs::remove_file(rt, self.log_name.as_str());
        }
    }
}

/// Puts bytes in the place of an image, or makes it, as `replace_filled` does, while no other program may write it. What its log asked for
/// is done first, so that the image that was there is whole where the new one can't be written; the log goes.
pub fn replace_image<'n, R: Files<File = File> + AllocGlobal + Clock + Copy>(
    rt: &R,
    name: &'n str,
    bytes: &[u8],
    length: u64,
) -> Result<(), FilesRefusal<'n>> {
    let mut locked = open(rt, name)?;
    let replaced = match locked.settle(rt, name) {
        Ok(()) => locked
            .replace(rt, bytes, length)
            .map_err(|error| FilesRefusal::CannotWrite(name, why(&error))),
        Err(refusal) => Err(refusal),
    };
    locked.close(rt);
    replaced
}
