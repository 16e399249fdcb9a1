//! What a session may do, as it is drawn.

use crate::draws::Draws;

/// How many names a directory may have.
pub const NAMES: u32 = 4;

/// What a session does with a name of its own directory, or of the shared one.
#[derive(Clone, Copy)]
pub enum Deed {
    /// Makes or empties a file, and writes a piece of this byte.
    Write(u8, u8),
    /// Makes a file if there is none, and adds a piece of this byte at its end.
    Append(u8, u8),
    /// Reads a file whole.
    Read(u8),
    /// Renames one to the other.
    Rename(u8, u8),
    /// Removes a file.
    Unlink(u8),
    /// Makes a directory.
    Mkdir(u8),
    /// Removes a directory.
    Rmdir(u8),
    /// Has all written.
    Sync,
    /// Makes a file of the shared directory that isn't there.
    Make(u8),
    /// Removes a file of the shared directory.
    Take(u8),
}

/// A name.
fn name(draws: &mut Draws) -> u8 {
    u8::try_from(draws.below(NAMES)).unwrap_or(0)
}

/// A byte.
fn byte(draws: &mut Draws) -> u8 {
    u8::try_from(draws.below(256)).unwrap_or(0)
}

impl Deed {
    /// The next deed.
    pub fn of(draws: &mut Draws) -> Deed {
        let kind = draws.below(15);
        let at = name(draws);
        match kind {
            0 | 1 => Deed::Write(at, byte(draws)),
            2 | 3 => Deed::Append(at, byte(draws)),
            4 | 5 => Deed::Read(at),
            6 | 7 => Deed::Rename(at, name(draws)),
            8 => Deed::Unlink(at),
            9 => Deed::Mkdir(at),
            10 => Deed::Rmdir(at),
            11 => Deed::Sync,
            12 | 13 => Deed::Make(at),
            _ => Deed::Take(at),
        }
    }
}
