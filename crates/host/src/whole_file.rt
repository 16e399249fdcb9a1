//! Reading a file at once, and writing one so that its name never leads to a part of it.

use crate::sparse::{Places, put_all};
use std::fs::{self, File, OpenFile, OpenOptions};
use std::io::{self, ErrorKind, Read};
use std::os::unix::fs::{MetadataExt, chown};
use std::path::{Path, PathBuf};
use std::rt::Files;

/// How many names beside a file are tried for the new one (own).
const MOST_TRIES: u32 = 100;

/// What a file that is replaced hands on to the new one.
#[derive(Drop)]
struct Owned {
    permissions: fs::Permissions,
    uid: u32,
    gid: u32,
}

/// What is to be in a file: these bytes, and zeros up to a length.
#[derive(Clone, Copy)]
struct Contents<'a> {
    bytes: &'a [u8],
    length: u64,
}

/// How many bytes are read of a file at most (own): those of the largest volume that a superblock describes, 65536 blocks of 4096 bytes.
const MOST_BYTES: u64 = 268435456;

/// The first bytes of a file, 268435456 at most: what an image is read by, since no volume reaches further.
pub fn read_front<R: Files + Alloc>(rt: &R, name: &str) -> io::Result<Vec<u8, R::A>> {
    read_first(rt, name, MOST_BYTES)
}

/// The bytes of a file, all of them: an error where there are more than 268435456.
pub fn read<R: Files + Alloc>(rt: &R, name: &str) -> io::Result<Vec<u8, R::A>> {
    let bytes = read_first(rt, name, MOST_BYTES + 1)?;
    if bytes.len() as u64 > MOST_BYTES {
        return Err(io::Error::from(ErrorKind::FileTooLarge));
    }
    Ok(bytes)
}

/// The first bytes of a file, so many at most. Room for as many as it tells is made first, and read into at once; more may stand behind
/// those, as where a pipe tells none.
fn read_first<R: Files + Alloc>(rt: &R, name: &str, most: u64) -> io::Result<Vec<u8, R::A>> {
    let mut file = File::open(rt, name)?;
    let size = file.metadata()?.len().min(most);
    let mut bytes = vec![in rt.alloc(); 0; size as usize]?;
    let filled = read_into(&mut file, &mut bytes)?;
    if filled < bytes.len() {
        bytes.truncate(filled);
        return Ok(bytes);
    }
    let mut behind = Vec::new(rt.alloc());
    file.take(most.saturating_sub(size))
        .read_to_end(&mut behind)?;
    bytes.append(&mut behind)?;
    Ok(bytes)
}

/// Reads until the room is full or the file ends: how many bytes were read.
fn read_into<F: Read>(file: &mut F, room: &mut [u8]) -> io::Result<usize> {
    let mut filled = 0;
    for _ in 0..u64::MAX {
        match file.read(&mut room[filled..]) {
            Ok(0) => break,
            Ok(count) => filled += count,
            Err(error) if error.kind() == ErrorKind::Interrupted => {}
            Err(error) => return Err(error),
        }
    }
    Ok(filled)
}

/// Puts bytes in the place of a file, or makes it. They go to a new file beside it, of the same permissions, which takes its name
/// once it is whole and on the disk; the folder is flushed behind that, so that the name leads to the new file after a power cut, too.
/// Where the bytes can't be written the file of this name is as it was, and the new one is taken away; where the folder can't be flushed
/// the file is the new one, and that is an error, too. The new file is the old one's owner's and group's, where this process may give it away.
///
/// Where the name is a symbolic link, the file that it leads to is replaced. What is there and is no file, as a folder or a device, or
/// is a file that may not be written, is refused.
pub fn replace<R: Files + Alloc>(rt: &R, name: &str, bytes: &[u8]) -> io::Result<()> {
    replace_filled(rt, name, bytes, bytes.len() as u64)
}

/// The same with these bytes, and zeros behind them up to a length in bytes: as many bytes are in the file as they are, or as the length
/// says, whichever is more.
pub fn replace_filled<R: Files + Alloc>(
    rt: &R,
    name: &str,
    bytes: &[u8],
    length: u64,
) -> io::Result<()> {
    let contents = Contents {
        bytes,
        length: length.max(bytes.len() as u64),
    };
    let place = place_of(rt, name)?;
    let place = place.as_path().as_str();
    let old = owned_of(rt, place)?;
    let (file, beside) = new_beside(rt, place)?;
    put(rt, file, beside.as_str(), place, old, &contents)
}

/// Whether a file of this name could be replaced, or made, now; nothing is changed. The refusals are those of `replace` that come before the
/// bytes are written: no folder, no file there, a file or a folder that may not be written, no free name beside it.
pub fn try_replace<R: Files + Alloc>(rt: &R, name: &str) -> io::Result<()> {
    let place = place_of(rt, name)?;
    let place = place.as_path().as_str();
    owned_of(rt, place)?;
    let (_, beside) = new_beside(rt, place)?;
    fs::remove_file(rt, beside.as_str())
}

/// A new file beside the one of this name, and its name.
fn new_beside<R: Files + Alloc>(rt: &R, place: &str) -> io::Result<(R::File, String<R::A>)> {
    for number in 0..MOST_TRIES {
        let beside = format!(in rt.alloc(); "{place}.new{number}")?;
        match OpenOptions::new()
            .write(true)
            .create_new(true)
            .open(rt, beside.as_str())
        {
            Ok(file) => return Ok((file, beside)),
            Err(error) if error.kind() == ErrorKind::AlreadyExists => {}
            Err(error) => return Err(error),
        }
    }
    Err(io::Error::from(ErrorKind::AlreadyExists))
}

/// The name of the file itself, past symbolic links; the name as it was given where there is no file.
pub fn place_of<R: Files + Alloc>(rt: &R, name: &str) -> io::Result<PathBuf<R::A>> {
    match fs::canonicalize(rt, name) {
        Ok(path) => Ok(path),
        Err(error) if error.kind() == ErrorKind::NotFound => {
            Ok(PathBuf::from_str(rt.alloc(), name)?)
        }
        Err(error) => Err(error),
    }
}

/// The permissions, owner and group of a file that may be written; none where there is no file.
fn owned_of<R: Files>(rt: &R, place: &str) -> io::Result<Option<Owned>> {
    let file = match OpenOptions::new().write(true).open(rt, place) {
        Ok(file) => file,
        Err(error) if error.kind() == ErrorKind::NotFound => return Ok(None),
        Err(error) => return Err(error),
    };
    let metadata = file.metadata()?;
    if !metadata.is_file() {
        return Err(io::Error::from(ErrorKind::InvalidInput));
    }
    Ok(Some(Owned {
        permissions: metadata.permissions(),
        uid: metadata.uid(),
        gid: metadata.gid(),
    }))
}

/// Fills the new file and gives it its name, or takes it away.
fn put<R: Files>(
    rt: &R,
    file: R::File,
    beside: &str,
    place: &str,
    old: Option<Owned>,
    contents: &Contents<'_>,
) -> io::Result<()> {
    if let Some(old) = &old {
        // Refused to a process that isn't the owner's and not root's: the file then stays its own.
        let _ = chown(rt, beside, Some(old.uid), Some(old.gid));
    }
    let put = match fill::<R>(file, old, contents) {
        Ok(()) => fs::rename(rt, beside, place),
        Err(error) => Err(error),
    };
    if put.is_err() {
        let _ = fs::remove_file(rt, beside);
        return put;
    }
    flush_folder(rt, place)
}

/// Waits until the disk has the names of the folder in which a file lies.
pub fn flush_folder<R: Files>(rt: &R, place: &str) -> io::Result<()> {
    let folder = match Path::new(place).parent() {
        Some(folder) if !folder.as_str().is_empty() => folder.as_str(),
        _ => ".",
    };
    File::open(rt, folder)?.sync_all()
}

/// Writes the bytes to the new file, and waits until the disk has them. Pieces of zeros aren't written: the file has its length first, and
/// reads as zeros where nothing was written.
fn fill<R: Files>(
    mut file: R::File,
    old: Option<Owned>,
    contents: &Contents<'_>,
) -> io::Result<()> {
    if let Some(old) = old {
        file.set_permissions(old.permissions)?;
    }
    file.set_len(contents.length)?;
    put_all(&mut Places::new(&mut file), contents.bytes)?;
    file.sync_all()
}
