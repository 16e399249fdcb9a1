//! What a session's directory holds, by the test's own rules.

use crate::deed::NAMES;
use errno::Errno;

/// How many bytes a piece of a file has.
pub const PIECE: usize = 700;

/// How many pieces a file may have.
pub const PIECES: usize = 4;

/// What is under a name.
#[derive(Clone, Copy)]
pub enum Entry {
    Nothing,
    /// An empty directory.
    Folder,
    /// A file of so many pieces, each of one byte throughout.
    File(usize, [u8; PIECES]),
}

/// What is under each name of a directory.
pub type Held = [Entry; NAMES as usize];

/// Under each name there is nothing.
pub const EMPTY: Held = [Entry::Nothing; NAMES as usize];

/// What is under a name.
pub fn entry_of(held: &Held, name: u8) -> Entry {
    match held.get(usize::from(name)) {
        Some(entry) => *entry,
        None => Entry::Nothing,
    }
}

/// Puts something under a name.
pub fn put(held: &mut Held, name: u8, entry: Entry) {
    if let Some(place) = held.get_mut(usize::from(name)) {
        *place = entry;
    }
}

/// How many names there are.
pub fn count(held: &Held) -> usize {
    held.iter()
        .filter(|entry| !matches!(entry, Entry::Nothing))
        .count()
}

/// A file with one piece more, if it may have that.
pub fn longer(entry: Entry, byte: u8) -> Option<Entry> {
    let (count, mut pieces) = match entry {
        Entry::File(count, pieces) => (count, pieces),
        _ => (0, [0; PIECES]),
    };
    let place = pieces.get_mut(count)?;
    *place = byte;
    Some(Entry::File(count.saturating_add(1), pieces))
}

/// Renames: what it has to answer.
pub fn rename(held: &mut Held, from: u8, to: u8) -> Result<(), Errno> {
    let moved = entry_of(held, from);
    match (moved, entry_of(held, to)) {
        (Entry::Nothing, _) => return Err(Errno::ENOENT),
        _ if from == to => return Ok(()),
        (Entry::Folder, Entry::File(..)) => return Err(Errno::ENOTDIR),
        (Entry::File(..), Entry::Folder) => return Err(Errno::EISDIR),
        _ => {}
    }
    put(held, from, Entry::Nothing);
    put(held, to, moved);
    Ok(())
}

/// Removes a file: what it has to answer.
pub fn unlink(held: &mut Held, name: u8) -> Result<(), Errno> {
    match entry_of(held, name) {
        Entry::Nothing => Err(Errno::ENOENT),
        Entry::Folder => Err(Errno::EPERM),
        Entry::File(..) => {
            put(held, name, Entry::Nothing);
            Ok(())
        }
    }
}

/// Makes a directory: what it has to answer.
pub fn mkdir(held: &mut Held, name: u8) -> Result<(), Errno> {
    match entry_of(held, name) {
        Entry::Nothing => {
            put(held, name, Entry::Folder);
            Ok(())
        }
        _ => Err(Errno::EEXIST),
    }
}

/// Removes a directory: what it has to answer.
pub fn rmdir(held: &mut Held, name: u8) -> Result<(), Errno> {
    match entry_of(held, name) {
        Entry::Nothing => Err(Errno::ENOENT),
        Entry::File(..) => Err(Errno::ENOTDIR),
        Entry::Folder => {
            put(held, name, Entry::Nothing);
            Ok(())
        }
    }
}

/// Whether the bytes are those of a file's pieces.
pub fn are_pieces(bytes: &[u8], count: usize, pieces: &[u8; PIECES]) -> bool {
    bytes.len() == count.saturating_mul(PIECE)
        && bytes
            .chunks(PIECE)
            .zip(pieces.iter())
            .all(|(chunk, piece)| chunk.iter().all(|byte| byte == piece))
}
