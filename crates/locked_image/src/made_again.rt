//! A log that was removed while its program runs, made again.

use crate::is_taken;
use crate::storing::AT_ONCE;
use host::whole_file::flush_folder;
use stable::UNIT;
use std::alloc::Global;
use std::fs::{self, File, OpenOptions};
use std::io::{self, ErrorKind};
use std::os::unix::fs::{FileExt, MetadataExt, chown};
use std::rt::Files;

/// Writes the bytes of a file, from one place to before another, into another file.
fn copy(alloc: Global, from: &File, to: &File, first: u64, end: u64) -> io::Result<()> {
    let mut bytes = Vec::new(alloc);
    for n in 0..end.saturating_sub(first).div_ceil(AT_ONCE) {
        let at = first.saturating_add(n.saturating_mul(AT_ONCE));
        let count = end.saturating_sub(at).min(AT_ONCE) as usize;
        bytes.resize(count, 0u8)?;
        from.read_exact_at(&mut bytes, at)?;
        to.write_all_at(&bytes, at)?;
    }
    Ok(())
}

/// Gives a new file of this name what a log has, its owner and its permissions, and the lock; all that is on the disk then. The first unit
/// comes last: without it a log asks for nothing.
fn fill<R: Files<File = File>>(
    alloc: Global,
    rt: &R,
    log: &File,
    made: &File,
    name: &str,
) -> io::Result<()> {
    if !is_taken(made.try_lock())? {
        return Err(io::Error::from(ErrorKind::WouldBlock));
    }
    let metadata = log.metadata()?;
    let _ = chown(rt, name, Some(metadata.uid()), Some(metadata.gid()));
    made.set_permissions(metadata.permissions())?;
    let (gate, length) = (UNIT as u64, metadata.len());
    copy(alloc, log, made, gate, length)?;
    made.sync_all()?;
    flush_folder(rt, name)?;
    copy(alloc, log, made, 0, length.min(gate))?;
    made.sync_data()
}

/// A file of this name with what a log has, locked and on the disk. AlreadyExists where some file has the name; after another error none has.
pub(crate) fn made_again<R: Files<File = File>>(
    alloc: Global,
    rt: &R,
    log: &File,
    name: &str,
) -> io::Result<File> {
    let mut how = OpenOptions::new();
    how.read(true).write(true).create_new(true);
    let made = how.open(rt, name)?;
    match fill(alloc, rt, log, &made, name) {
        Ok(()) => Ok(made),
        Err(error) => {
            let _ = fs::remove_file(rt, name);
            Err(error)
        }
    }
}
