//! Look-ups, and plain scans, of as many names as the directory has.

ghost use Rattle.std.specs.Prelude.{◌<◌, length};
ghost use Rattle.block_store.specs.Volume.{IsOn};

use crate::bench_names::directories::Directory;
use block_store::Blocks;
use directory::find;
use layout::Geometry;
use volume::Inode;

/// How many names the directory has.
pub(crate) const NAMES: u32 = 1000;

/// The last digit of a number.
fn digit(number: u32) -> u8 {
    b'0' + (number % 10) as u8
}

/// The name of a number.
pub(crate) fn name_of(number: u32) -> [u8; 8] {
    [
        b'f',
        b'i',
        b'l',
        b'e',
        digit(number / 1000),
        digit(number / 100),
        digit(number / 10),
        digit(number),
    ]
}

/// Whether a directory has the name.
fn has<B: Blocks>(blocks: &mut B, geometry: &Geometry, inode: &Inode, name: &[u8]) -> bool
    requires on { IsOn B.world geometry.now blocks.old }
    requires named { 0 < length name.now }
    ensures { IsOn B.world geometry.now blocks.new }
{
    matches!(find(blocks, geometry, inode, name), Ok(Some(_)))
}

/// Looks names up, from the one of a number on, and tells how many are there.
pub(crate) fn look_ups(directory: &mut Directory, first: u32) -> u32 {
    let mut found = 0u32;
    for number in 0..NAMES {
        let name = name_of(first.saturating_add(number));
        if has(
            &mut directory.blocks,
            &directory.geometry,
            &directory.inode,
            &name,
        ) {
            found = found.saturating_add(1);
        }
    }
    found
}

/// Whether some entry after the first two has the name: its bytes, and a zero byte behind them.
fn is_there(entries: &[u8], name: &[u8; 8]) -> bool {
    for k in 2..entries.len() / 64 {
        let at = 64 * k + 4;
        if entries[at..at + 8] == name[..] && entries[at + 8] == 0 {
            return true;
        }
    }
    false
}

/// The same by plain scans.
pub(crate) fn scans(entries: &[u8], first: u32) -> u32 {
    let mut found = 0u32;
    for number in 0..NAMES {
        if is_there(entries, &name_of(first.saturating_add(number))) {
            found = found.saturating_add(1);
        }
    }
    found
}

/// Whether some entry after the first two has a name of these 60 bytes.
fn is_field_there(entries: &[u8], field: &[u8; 60]) -> bool {
    for k in 2..entries.len() / 64 {
        let at = 64 * k + 4;
        if entries[at..at + 60] == field[..] {
            return true;
        }
    }
    false
}

/// The same by plain scans of the 60 bytes of each name.
pub(crate) fn scans_of_fields(entries: &[u8], first: u32) -> u32 {
    let mut found = 0u32;
    for number in 0..NAMES {
        let mut field = [0; 60];
        field[..8].copy_from_slice(&name_of(first.saturating_add(number)));
        if is_field_there(entries, &field) {
            found = found.saturating_add(1);
        }
    }
    found
}
