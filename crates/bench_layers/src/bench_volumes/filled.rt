//! Full volumes, to be measured. Nothing is proved of them but that making them is safe; the check says whether they are clean.

use crate::sizes::place_of;
use layout::Geometry;
use new_volume::mkfs;
use std::alloc::Global;

/// The version of a volume: its superblock and its directories' entries go by it.
#[derive(Clone, Copy)]
pub(crate) enum Version {
    /// With names of 14 bytes.
    Two,
    /// With names of 60 bytes.
    Three,
}

impl Version {
    /// How many bytes an entry has.
    fn entry_size(self) -> u32 {
        match self {
            Version::Two => 16,
            Version::Three => 64,
        }
    }
}

/// Which volume of 64 MiB.
#[derive(Clone, Copy)]
pub(crate) struct Kind {
    /// Version 2 has blocks of 1024 bytes.
    pub(crate) version: Version,
    /// Bytes of a block.
    pub(crate) block_size: u32,
    /// Inodes.
    pub(crate) inodes: u32,
    /// Names in the root: each of a file, of which the first ones share all zones.
    pub(crate) names: u32,
}

/// A volume that is being filled.
#[derive(Drop)]
struct Filling {
    version: Version,
    image: Vec<u8>,
    volume: Geometry,
    /// How many data zones are used.
    used: u32,
}

impl Filling {
    /// Writes a number of 4 bytes, where they lie in the image.
    fn put(&mut self, at: usize, value: u32) {
        let end = at.saturating_add(4);
        if at < end && end <= self.image.len() && end - at == 4 {
            self.image[at..end].copy_from_slice(&value.to_le_bytes());
        }
    }

    /// Sets a bit of the map that begins at a block.
    fn mark(&mut self, block: u32, bit: u32) {
        let at = self.place(block).saturating_add(bit as usize / 8);
        if let Some(byte) = self.image.get_mut(at) {
            *byte |= 1 << (bit % 8);
        }
    }

    /// The first byte of a block.
    fn place(&self, block: u32) -> usize {
        place_of(&self.volume, block)
    }

    /// The first byte of an inode.
    fn inode_place(&self, number: u32) -> usize {
        let table = 2u32
            .saturating_add(self.volume.inode_map_blocks)
            .saturating_add(self.volume.zone_map_blocks);
        let entry = 64 * number.saturating_sub(1) as usize;
        self.place(table).saturating_add(entry)
    }

    /// The next zone that is free, which is now used.
    fn take(&mut self) -> Option<u32> {
        let zones = self.volume.zones.saturating_sub(self.volume.first_zone);
        if self.used >= zones {
            return None;
        }
        let zone = self.volume.first_zone.saturating_add(self.used);
        self.used = self.used.saturating_add(1);
        let map = 2u32.saturating_add(self.volume.inode_map_blocks);
        self.mark(map, self.used);
        Some(zone)
    }

    /// How many zones are free.
    fn free(&self) -> u32 {
        let zones = self.volume.zones.saturating_sub(self.volume.first_zone);
        zones.saturating_sub(self.used)
    }

    /// The place at which a page's zone stands, where the pages before it have theirs. An indirect block is made with its first page.
    fn page_place(&mut self, blocks: &mut Indirect, inode: u32, page: u32) -> Option<usize> {
        let slots = self.inode_place(inode).saturating_add(24);
        let numbers = self.volume.block_size / 4;
        let below = page.saturating_sub(7);
        if page < 7 || numbers == 0 {
            return Some(slots.saturating_add(4 * page as usize));
        }
        let (row, column) = (below / numbers, below % numbers);
        if column == 0 {
            blocks.last = self.take()?;
            if row == 1 {
                blocks.double = self.take()?;
                self.put(slots.saturating_add(32), blocks.double);
            }
            let above = if row == 0 {
                slots.saturating_add(28)
            } else {
                self.number_place(blocks.double, row.saturating_sub(1))
            };
            self.put(above, blocks.last);
        }
        Some(self.number_place(blocks.last, column))
    }

    /// The place of a number in an indirect block.
    fn number_place(&self, block: u32, number: u32) -> usize {
        self.place(block).saturating_add(4 * number as usize)
    }

    /// Gives a file more pages, from one on and up to another one, as long as there are zones, and tells how many it has then. With
    /// entries, each page is filled with those of the root.
    fn grow(&mut self, inode: u32, from: u32, to: u32, names: u32) -> u32 {
        let mut blocks = Indirect { last: 0, double: 0 };
        for page in from..to {
            if self.free() < 3 {
                return page;
            }
            let place = self.page_place(&mut blocks, inode, page);
            match (place, self.take()) {
                (Some(at), Some(zone)) => {
                    self.put(at, zone);
                    self.put_entries(zone, page, names);
                }
                _ => return page,
            }
        }
        to
    }

    /// Writes the root's entries of a page.
    fn put_entries(&mut self, zone: u32, page: u32, names: u32) {
        let size = self.version.entry_size();
        let entries = self.volume.block_size.checked_div(size).unwrap_or(0);
        for entry in 0..entries {
            let number = page.saturating_mul(entries).saturating_add(entry);
            if number >= 2 && number - 2 < names {
                let at = (size as usize).saturating_mul(entry as usize);
                self.put_entry(self.place(zone).saturating_add(at), number, name_of(number));
            }
        }
    }

    /// Writes an entry with a name of four letters, at most.
    fn put_entry(&mut self, at: usize, number: u32, name: u32) {
        match self.version {
            Version::Two => {
                self.put(at, number % 65536 + 65536 * (name % 65536));
                self.put(at.saturating_add(4), name / 65536);
            }
            Version::Three => {
                self.put(at, number);
                self.put(at.saturating_add(4), name);
            }
        }
    }

    /// Gives a new volume of version 3 the superblock and the first two entries of version 2.
    fn make_version_2(&mut self) {
        let maps = self.volume.inode_map_blocks % 65536
            + 65536 * (self.volume.zone_map_blocks % 65536);
        let fields = [
            self.volume.inodes,
            maps,
            self.volume.first_zone,
            0x7fff_ffff,
            0x0001_2468,
            self.volume.zones,
            0,
            0,
        ];
        for (field, value) in fields.iter().enumerate() {
            self.put(1024 + 4 * field, *value);
        }
        let root = self.place(self.volume.first_zone);
        for at in [0, 4, 64, 68] {
            self.put(root.saturating_add(at), 0);
        }
        self.put_entry(root, 1, DOT);
        self.put_entry(root.saturating_add(16), 1, DOT_DOT);
    }

    /// Makes an inode a file of so many pages.
    fn put_file(&mut self, inode: u32, pages: u32) {
        let at = self.inode_place(inode);
        self.mark(2, inode);
        self.put(at, 0o100644 + 65536);
        let size = pages.saturating_mul(self.volume.block_size);
        self.put(at.saturating_add(8), size);
    }
}

/// The indirect blocks of a file that grows.
#[derive(Clone, Copy)]
struct Indirect {
    /// The one that names the page.
    last: u32,
    /// The double indirect block.
    double: u32,
}

/// The name `.`, as a number.
const DOT: u32 = 0x2e;

/// The name `..`, as a number.
const DOT_DOT: u32 = 0x2e2e;

/// Four letters that no other number has, as a number.
fn name_of(number: u32) -> u32 {
    let letter = |power: u32| 97 + (number / power) % 26;
    letter(1) + 256 * letter(26) + 65536 * letter(676) + 16777216 * letter(17576)
}

/// The volume, or none where there isn't one or no memory.
pub(crate) fn filled(alloc: Global, kind: Kind) -> Option<Vec<u8>> {
    if kind.block_size == 0 {
        return None;
    }
    let blocks = 67108864 / kind.block_size;
    let image = mkfs(alloc, blocks, kind.block_size, kind.inodes, 50).ok()?;
    let volume = Geometry::parse(&image).ok()?;
    let mut filling = Filling {
        version: kind.version,
        image,
        volume,
        used: 1,
    };
    if let Version::Two = kind.version {
        filling.make_version_2();
    }
    let entries = kind.names.saturating_add(2);
    let size = entries.saturating_mul(kind.version.entry_size());
    let pages = size.div_ceil(kind.block_size);
    filling.put_entries(volume.first_zone, 0, kind.names);
    filling.grow(1, 1, pages, kind.names);
    let root = filling.inode_place(1);
    filling.put(root.saturating_add(8), size);
    for inode in 2..kind.names.saturating_add(2) {
        let pages = filling.grow(inode, 0, MOST_PAGES, 0);
        filling.put_file(inode, pages);
    }
    Some(filling.image)
}

/// How many pages a file of these volumes has at most: with blocks of 1024 some of them lie below the double indirect block.
const MOST_PAGES: u32 = 8192;
