//! Calls on a volume, and what each is to give.

use block_store::Halt;

/// A field of inode 1.
#[derive(Clone, Copy)]
pub enum Field {
    Mode,
    Links,
    Size,
    Atime,
    Mtime,
    Ctime,
    /// One of its ten zone numbers.
    Zone(usize),
}

/// A call on a volume. Where no inode is named it is inode 1.
#[derive(Clone, Copy)]
pub enum Call<'a> {
    /// How many zones are free.
    Free,
    /// Attaches pages of an inode.
    Attach(u32, &'a [u32]),
    /// Lets go the pages of an inode from one on.
    Detach(u32, u32),
    /// The zone of a page.
    Zone(u32),
    /// Whether these are the zones of pages side by side, from one on, where up to four are asked for: how many.
    Zones(u32, &'a [u32]),
    /// Whether each of these pages has a data zone of 1024 bytes, which are zeros.
    Blank(&'a [u32]),
    /// Whether each of these pages is a hole.
    Holes(&'a [u32]),
    /// Reads from a place on into so many bytes of a slice of 0x2e, which then has these bytes: how many came.
    Read(u32, usize, &'a [u8]),
    /// Writes bytes from a place on.
    Write(u32, &'a [u8]),
    /// Makes the file that long.
    Resize(u32),
    /// Sets the times.
    Stamp(u32),
    /// A field.
    Field(Field),
    /// How many zones more it takes when so many of its pages from the first one on are held too.
    Need(u32, u32),
    /// Whether there are zones enough for so many bytes from a place on: 1 or 0.
    Room(u32, u32),
}

/// What a call gives: a number, which is 0 where it gives none; or none, where it isn't so, or can't be tried.
pub type CallResult = Result<Option<u32>, Halt>;

/// A call, and the number or the halt that it is to give.
pub type Step<'a> = (Call<'a>, Result<u32, Halt>);

/// How long the file is.
pub const SIZE: Call<'static> = Call::Field(Field::Size);

/// It was done, or it is so.
pub const DONE: Result<u32, Halt> = Ok(0);

/// Whether a call gave what it was to give.
pub fn is_wanted(got: CallResult, wanted: Result<u32, Halt>) -> bool {
    match (got, wanted) {
        (Ok(Some(got)), Ok(wanted)) => got == wanted,
        (Err(got), Err(wanted)) => got == wanted,
        _ => false,
    }
}
