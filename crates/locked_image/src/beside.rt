//! The places of an image that is handed on: that of the locked image, and the file beside it.

use crate::locked::LockedImage;
use host::whole_file::replace;
use std::fs::{self, File};
use std::io::{self, ErrorKind};
use std::rt::Files;
use volume_commands::handing::ImagePlace;

/// The place of the locked image: what is put there replaces it, or makes it. What real files hold no contract says.
#[derive(Drop)]
pub struct InPlace<'l, R> {
    rt: R,
    locked: &'l mut LockedImage,
}

impl<'l, R> InPlace<'l, R> {
    /// That of this one, whose log is settled.
    pub fn of(rt: R, locked: &'l mut LockedImage) -> InPlace<'l, R> {
        InPlace { rt, locked }
    }
}

impl<R: Files<File = File> + AllocGlobal> ImagePlace for InPlace<'_, R> {
    fn put(&mut self, image: &[u8]) -> bool {
        self.locked
            .replace(&self.rt, image, image.len() as u64)
            .is_ok()
    }
}

/// How many images are left beside one at most, by their names (own).
const MOST_LEFT: u32 = 100;

/// Whether there is no file of this name.
fn is_free<R: Files>(rt: &R, name: &str) -> io::Result<bool> {
    match fs::metadata(rt, name) {
        Ok(_) => Ok(false),
        Err(error) if error.kind() == ErrorKind::NotFound => Ok(true),
        Err(error) => Err(error),
    }
}

/// Gives the file of this name, if there is one, the same name with the first number behind it that is free, from 1 on. So no image that
/// was left before is replaced.
fn set_aside<R: Files + Alloc>(rt: &R, name: &str) -> io::Result<()> {
    if is_free(rt, name)? {
        return Ok(());
    }
    for number in 1..MOST_LEFT {
        let older = format!(in rt.alloc(); "{name}{number}")?;
        if is_free(rt, older.as_str())? {
            return fs::rename(rt, name, older.as_str());
        }
    }
    Err(io::Error::from(ErrorKind::AlreadyExists))
}

/// The file of a name and `.given-up`, for an image that isn't handed on: it is put there as by `replace`. One that was left there before
/// gets a number behind its name.
#[derive(Drop)]
pub struct Beside<'n, R> {
    rt: R,
    name: &'n str,
}

impl<'n, R> Beside<'n, R> {
    /// Beside the file of this name.
    pub fn of(rt: R, name: &'n str) -> Beside<'n, R> {
        Beside { rt, name }
    }
}

impl<R: Files + Alloc> ImagePlace for Beside<'_, R> {
    fn put(&mut self, image: &[u8]) -> bool {
        let name = self.name;
        match format!(in self.rt.alloc(); "{name}.given-up") {
            Ok(beside) => {
                let beside = beside.as_str();
                set_aside(&self.rt, beside).is_ok() && replace(&self.rt, beside, image).is_ok()
            }
            Err(_) => false,
        }
    }
}
