//! The smallest new volume with one of its first bytes changed: with which values of it the volume is clean, and what `stat /` says of it
//! then.

use std::alloc::{AllocError, Global};

/// With which values of a byte the small volume is clean.
#[derive(Clone, Copy)]
pub enum Clean {
    /// With each, since nothing looks at the byte.
    Ignored,
    /// With each, since each has a meaning.
    Any,
    /// With that of the volume alone.
    Own,
    /// With those from one on to another.
    Between(u8, u8),
    /// With those that have all these bits clear.
    Without(u8),
}

/// The bytes of the small volume up to the end of the root's zone, in runs: how many each has, and with which values of one of them the
/// volume is clean. They follow from docs/FORMAT.md alone.
static RUNS: [(usize, Clean); 26] = [
    // the boot block
    (1024, Clean::Ignored),
    // 17 to 32 inodes take the two blocks of the table
    (1, Clean::Between(17, 32)),
    (3, Clean::Own),
    // a pad
    (2, Clean::Ignored),
    // both maps' blocks, the first data zone, the logarithm
    (8, Clean::Own),
    // a pad
    (2, Clean::Ignored),
    // the greatest size
    (4, Clean::Own),
    // the image has 64 blocks, and the root's zone is number 6
    (1, Clean::Between(7, 64)),
    // the other bytes of the zones, the magic number
    (5, Clean::Own),
    // a pad
    (2, Clean::Ignored),
    // the block size, the version
    (3, Clean::Own),
    // behind the superblock
    (993, Clean::Ignored),
    // the inode map: the bits 0 to 31 are nobody's, the root's and those of inodes without a mode, bit 32 the last inode's
    (4, Clean::Own),
    (1, Clean::Without(1)),
    (1019, Clean::Ignored),
    // the zone map: the bits 0 to 55 are nobody's, that of the root's zone and those of zones without a use, 56 to 58 the last three's
    (7, Clean::Own),
    (1, Clean::Without(7)),
    (1016, Clean::Ignored),
    // the root's mode: nine permissions of a directory, which a link isn't; its links
    (1, Clean::Any),
    (1, Clean::Between(0x40, 0x41)),
    (2, Clean::Own),
    // its user and group; its size; its times; its zones
    (4, Clean::Any),
    (4, Clean::Own),
    (12, Clean::Any),
    (40, Clean::Own),
    // inodes that aren't marked
    (1984, Clean::Ignored),
];

/// How many bytes the root's two entries have, of which each has to be as it is. Nothing looks at those behind them.
const ENTRIES: usize = 128;

/// The bytes up to the end of the root's zone.
pub const LOOKED_AT: usize = 7168;

/// With which values of the byte at a place the volume is clean.
pub fn clean_at(place: usize) -> Clean {
    let mut end = 0usize;
    for (count, clean) in &RUNS {
        end = end.saturating_add(*count);
        if place < end {
            return *clean;
        }
    }
    if place < end.saturating_add(ENTRIES) {
        Clean::Own
    } else {
        Clean::Ignored
    }
}

/// Whether this is such a value, where the volume has that one.
pub fn is_clean(clean: Clean, value: u8, own: u8) -> bool {
    match clean {
        Clean::Ignored | Clean::Any => true,
        Clean::Own => value == own,
        Clean::Between(first, last) => first <= value && value <= last,
        Clean::Without(bits) => value & bits == 0,
    }
}

/// Puts bytes at a place.
pub fn put(image: &mut [u8], at: usize, bytes: &[u8]) {
    for (place, byte) in image.iter_mut().skip(at).zip(bytes) {
        *place = *byte;
    }
}

/// The first byte of the root's inode in the small volume.
const ROOT_INODE: usize = 4096;

/// The number of so many bytes, four at most, from this place of the root's inode on, the lowest first.
fn field(image: &[u8], at: usize, width: usize) -> u32 {
    let mut number = 0u32;
    let bytes = image.iter().skip(ROOT_INODE.saturating_add(at)).take(width);
    for byte in bytes.rev() {
        number = number << 8 | u32::from(*byte);
    }
    number
}

/// What a play of `stat /` by session 0 prints of the small volume with one byte changed, where it is clean. It follows from where
/// docs/FORMAT.md has the fields of an inode.
pub fn stat_of(alloc: Global, image: &[u8]) -> Result<String, AllocError> {
    let (mode, links) = (field(image, 0, 2), field(image, 2, 2));
    let (user, group, size) = (field(image, 4, 2), field(image, 6, 2), field(image, 8, 4));
    let (read, written) = (field(image, 12, 4), field(image, 16, 4));
    let changed = field(image, 20, 4);
    let mut text = String::new(alloc);
    writeln!(text, "session 0")?;
    write!(
        text,
        "inode 1 mode {mode:07o} links {links} uid {user} gid {group} size {size}"
    )?;
    writeln!(text, " times {read} {written} {changed}")?;
    Ok(text)
}
