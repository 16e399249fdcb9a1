//! A volume in the bytes of an image, as the check reads it: its bits, its inodes, the numbers in its zones, the entries of its
//! directories.
//!
//! Passes over the zones that inodes name say which numbers are bad, how often a zone is named, and which zones are spare. Each indirect
//! zone is entered once a level.
#![tactic(auto)]

mod enter;
mod entry;
mod least;
mod spare;
mod uses;

ghost use Rattle.std.specs.Prelude.{◌≡◌, ◌≤◌, ◌<◌, ◌+◌, ◌-◌, ◌*◌, ◌/◌, ◌%◌, ℕ, Ok, Err, MatchOption, MatchResult, false, length};
ghost use Rattle.std.specs.Prelude.{slice_index, true};
ghost use Rattle.layout.specs.Places.{geometry_of};

pub use enter::bad_number;
pub use entry::{is_field, is_name_field, name_of};
use inode::decode_in;
use layout::{Geometry, LayoutRefusal, u16_at, u32_at};
pub use least::least_passing;
pub use spare::spare_zone;
pub use uses::{bad_bit, count_uses, used_twice};
use volume::Inode;

/// The bytes of an image that begins with a volume, and the volume's sizes.
#[derive(Clone, Copy)]
pub struct Image<'a> {
    bytes: &'a [u8],
    geometry: Geometry,
    ghost parsed: { geometry_of bytes.now ≡ Ok geometry },
}

/// An entry of 64 zero bytes, as a hole in a directory has.
static BLANK: [u8; 64] = [0; 64];

impl<'a> Image<'a> {
    ghost use Rattle.tree.specs.Space.{numbers_in_zone, pages_of};
    ghost use Rattle.volume.specs.Reading.{bit_in, is_data_zone, is_inode};
    ghost use Rattle.volume.specs.Nodes.{entry_count_of, file_byte, is_marked, last_block, number, page_zone, second_block};
    ghost use Rattle.volume.specs.Entries.{is_directory_inode, is_link_inode};
    ghost use Rattle.image.specs.Contents.{contents};
    ghost use Rattle.image.specs.Targets.{IsTarget};

    /// The volume that the bytes begin with, or why its superblock is refused.
    pub fn parse(bytes: &'a [u8]) -> Result<Image<'a>, LayoutRefusal>
        ensures { MatchResult result (λ i. (i.bytes.now ≡ bytes.now) × (geometry_of bytes.now ≡ Ok i.geometry))
            (λ e. geometry_of bytes.now ≡ Err e) }
    {
        let geometry = Geometry::parse(bytes)?;
        Ok(Image { bytes, geometry })
    }

    /// The volume's sizes.
    pub fn geometry(&self) -> Geometry
        ensures { result ≡ self.now.geometry }
    {
        self.geometry
    }

    /// How many numbers a zone holds.
    pub fn numbers(&self) -> usize
        ensures value { result ≡ numbers_in_zone self.now.geometry }
        ensures some { 0 < result }
        ensures most { result ≤ 1024 }
    {
        self.geometry.block_size as usize / 4
    }

    /// Whether a number is an inode's.
    pub fn is_inode(&self, number: u32) -> bool
        ensures { result ≡ is_inode self.now.geometry number }
    {
        1 <= number && number <= self.geometry.inodes
    }

    /// Whether a number is a data zone's.
    pub fn is_data_zone(&self, number: u32) -> bool
        ensures { result ≡ is_data_zone self.now.geometry number }
    {
        self.geometry.first_zone <= number && number < self.geometry.zones
    }

    /// Bit n of the inode map.
    pub fn has_inode_bit(&self, n: u32) -> bool
        requires { n ≤ self.now.geometry.inodes }
        ensures { result ≡ (contents self.now).inode_map n }
    {
        self.bit(2, n)
    }

    /// Bit k of the zone map.
    pub fn has_zone_bit(&self, k: u32) -> bool
        requires { k ≤ self.now.geometry.zones - self.now.geometry.first_zone }
        ensures { result ≡ (contents self.now).zone_map k }
    {
        self.bit(2 + self.geometry.inode_map_blocks as usize, k)
    }

    /// Bit k of the map that begins at a block.
    fn bit(&self, block: usize, k: u32) -> bool
        requires { block * self.now.geometry.block_size + k / 8 < length self.now.bytes.now }
        ensures { result ≡ bit_in (λ p. slice_index self.now.bytes.now (block * self.now.geometry.block_size + p)) k }
    {
        let byte = self.bytes[block * self.geometry.block_size as usize + k as usize / 8];
        (byte >> (k % 8)) % 2 == 1
    }

    /// The byte at which inode n begins.
    fn inode_place(&self, n: u32) -> usize
        requires { is_inode self.now.geometry n ≡ true }
        ensures value { result ≡ (2 + self.now.geometry.inode_map_blocks + self.now.geometry.zone_map_blocks)
            * self.now.geometry.block_size + 64 * (n - 1) }
        ensures inside { result + 64 ≤ length self.now.bytes.now }
    {
        let g = self.geometry;
        let start = 2 + g.inode_map_blocks as usize + g.zone_map_blocks as usize;
        start * g.block_size as usize + 64 * (n as usize - 1)
    }

    /// Inode n.
    pub fn inode(&self, n: u32) -> Inode
        requires { is_inode self.now.geometry n ≡ true }
        ensures { result ≡ (contents self.now).inodes n }
    {
        decode_in(self.bytes, self.inode_place(n))
    }

    /// The mode of inode n, of which nothing else is read.
    pub fn mode(&self, n: u32) -> u16
        requires { is_inode self.now.geometry n ≡ true }
        ensures { result ≡ ((contents self.now).inodes n).mode }
    {
        u16_at(self.bytes, self.inode_place(n))
    }

    /// The link count of inode n.
    pub fn links(&self, n: u32) -> u16
        requires { is_inode self.now.geometry n ≡ true }
        ensures { result ≡ ((contents self.now).inodes n).links }
    {
        u16_at(self.bytes, self.inode_place(n) + 2)
    }

    /// The size of inode n in bytes.
    pub fn size(&self, n: u32) -> u32
        requires { is_inode self.now.geometry n ≡ true }
        ensures { result ≡ ((contents self.now).inodes n).size }
    {
        u32_at(self.bytes, self.inode_place(n) + 8)
    }

    /// Whether inode n is marked: its number is one of the volume's, and its bit is set.
    pub fn is_marked(&self, n: u32) -> bool
        ensures { result ≡ is_marked self.now.geometry (contents self.now) n }
    {
        self.is_inode(n) && self.has_inode_bit(n)
    }

    /// Whether inode n is marked and a directory.
    pub fn is_directory(&self, n: u32) -> bool
        ensures { result ≡ is_directory_inode self.now.geometry (contents self.now) n }
    {
        self.is_marked(n) && is_directory_mode(self.mode(n))
    }

    /// Whether inode n is marked and a symbolic link.
    pub fn is_link(&self, n: u32) -> bool
        ensures { result ≡ is_link_inode self.now.geometry (contents self.now) n }
    {
        self.is_marked(n) && is_link_mode(self.mode(n))
    }

    /// Number j of a zone; in what is no data zone stands none.
    pub fn number(&self, zone: u32, j: usize) -> u32
        requires { j < numbers_in_zone self.now.geometry }
        ensures { result ≡ number (contents self.now) zone j }
    {
        if self.is_data_zone(zone) {
            u32_at(
                self.bytes,
                zone as usize * self.geometry.block_size as usize + 4 * j,
            )
        } else {
            0
        }
    }

    /// The block of a byte of a file, and the byte's place in it. There are three sizes: a division by one of them is a shift.
    fn parts_of_byte(&self, byte: usize) -> (usize, usize)
        ensures block { result.0 ≡ byte / self.now.geometry.block_size }
        ensures place { result.1 ≡ byte % self.now.geometry.block_size }
    {
        let size = self.geometry.block_size;
        if size == 1024 {
            return (byte / 1024, byte % 1024);
        }
        if size == 2048 {
            return (byte / 2048, byte % 2048);
        }
        (byte / 4096, byte % 4096)
    }

    /// The block of a number of a row of zones full of numbers, and the number's place in it.
    fn parts_of_number(&self, index: usize) -> (usize, usize)
        ensures block { result.0 ≡ index / numbers_in_zone self.now.geometry }
        ensures place { result.1 ≡ index % numbers_in_zone self.now.geometry }
    {
        let size = self.geometry.block_size;
        if size == 1024 {
            return (index / 256, index % 256);
        }
        if size == 2048 {
            return (index / 512, index % 512);
        }
        (index / 1024, index % 1024)
    }

    /// The indirect block of an inode that names blocks that name pages: 0 is the double's, then come those below the triple's.
    fn second_block(&self, inode: &Inode, index: usize) -> u32
        ensures { result ≡ second_block (numbers_in_zone self.now.geometry) (contents self.now) inode.now index }
    {
        if index == 0 {
            inode.zones[8]
        } else if index <= self.numbers() {
            self.number(inode.zones[9], index - 1)
        } else {
            0
        }
    }

    /// The indirect block of an inode that names pages: 0 is the single's, then come those below the double's and the triple's.
    fn last_block(&self, inode: &Inode, index: usize) -> u32
        ensures { result ≡ last_block (numbers_in_zone self.now.geometry) (contents self.now) inode.now index }
    {
        if index == 0 {
            return inode.zones[7];
        }
        let (row, column) = self.parts_of_number(index - 1);
        let above = self.second_block(inode, row);
        self.number(above, column)
    }

    /// The zone of a page of an inode, or 0 for a hole.
    pub fn page_zone(&self, inode: &Inode, page: usize) -> u32
        ensures { result ≡ page_zone self.now.geometry (contents self.now) inode.now page }
    {
        if page < 7 {
            return inode.zones[page];
        }
        let (row, column) = self.parts_of_number(page - 7);
        let above = self.last_block(inode, row);
        self.number(above, column)
    }

    /// How many pages the bytes of an inode cover.
    pub fn pages(&self, inode: &Inode) -> usize
        ensures { result ≡ pages_of self.now.geometry inode.now.size }
    {
        let size = self.geometry.block_size as usize;
        (inode.size as usize + size - 1) / size
    }

    /// The 64 bytes of an entry of a directory; where no data zone lies there, zeros.
    pub fn entry(&self, inode: &Inode, number: u32) -> &'a [u8]
        requires { number < entry_count_of inode.now }
        ensures len { length result.now ≡ 64 }
        ensures bytes { (a : ℕ) → a < 64 → slice_index result.now a ≡ file_byte self.now.geometry (contents self.now) inode.now
            (64 * number + a) }
    {
        let (page, offset) = self.parts_of_byte(64 * number as usize);
        let zone = self.page_zone(inode, page);
        if !self.is_data_zone(zone) {
            return &BLANK;
        }
        let at = zone as usize * self.geometry.block_size as usize + offset;
        &self.bytes[at..at + 64]
    }

    /// The bytes of a symbolic link's target, which page 0 has room for; none where no data zone lies there.
    pub fn target(&self, inode: &Inode) -> Option<&'a [u8]>
        requires { inode.now.size ≤ 1024 }
        ensures { MatchOption result (is_data_zone self.now.geometry (page_zone self.now.geometry (contents self.now) inode.now 0) ≡ false)
            (λ bytes. IsTarget self.now inode.now bytes.now) }
    {
        let zone = self.page_zone(inode, 0);
        if !self.is_data_zone(zone) {
            return None;
        }
        let at = zone as usize * self.geometry.block_size as usize;
        Some(&self.bytes[at..at + inode.size as usize])
    }
}

ghost use Rattle.volume.specs.Nodes.{is_directory_mode, is_link_mode};

/// Whether a mode's type is that of directories.
pub fn is_directory_mode(mode: u16) -> bool
    ensures { result ≡ is_directory_mode mode }
{
    mode / 4096 == 4
}

/// Whether a mode's type is that of symbolic links.
fn is_link_mode(mode: u16) -> bool
    ensures { result ≡ is_link_mode mode }
{
    mode / 4096 == 10
}
