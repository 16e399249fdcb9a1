//! Small volumes in memory.

ghost use Rattle.std.specs.Prelude.{◌≡◌};
ghost use Rattle.layout.specs.Places.{IsGeometry};

use crate::layers::steps::Step;
use crate::layers::tables::{OTHER, ROOT};
use bitmap::{Map, clear, count_free, lowest_free, search, set};
use block_store::Halt;
use block_store::memory::Memory;
use inode::inode_table::{load, store};
use layout::Geometry;
use step_count::Steps;
use volume::Inode;

/// The sizes of a volume.
pub(crate) enum Sizes {
    /// 64 blocks of 1024 bytes, 32 inodes.
    Small,
    /// The same with blocks of 2048 bytes: the table takes one block, so there is a data zone more.
    Middle,
    /// And with blocks of 4096 bytes.
    Large,
    /// 64 inodes.
    SixtyFourInodes,
    /// 200 inodes.
    MoreInodes,
    /// An inode map of two blocks: the second begins with number 8192.
    ManyInodes,
}

/// The numbers of a volume of these sizes.
fn geometry(sizes: &Sizes) -> Geometry
    ensures { IsGeometry result }
{
    let (block_size, inodes, zones, inode_map_blocks, first_zone) = match sizes {
        Sizes::Small => (1024, 32, 64, 1, 6),
        Sizes::Middle => (2048, 32, 64, 1, 5),
        Sizes::Large => (4096, 32, 64, 1, 5),
        Sizes::SixtyFourInodes => (1024, 64, 64, 1, 8),
        Sizes::MoreInodes => (1024, 200, 64, 1, 17),
        Sizes::ManyInodes => (1024, 8292, 600, 2, 524),
    };
    Geometry {
        block_size,
        inodes,
        zones,
        inode_map_blocks,
        zone_map_blocks: 1,
        first_zone,
    }
}

/// Which inode it is: 1 is the root, 2 the other; 0 is another one.
fn which(inode: &Inode) -> u32 {
    if *inode == ROOT {
        return 1;
    }
    if *inode == OTHER { 2 } else { 0 }
}

/// A volume in memory.
#[derive(Drop)]
pub(crate) struct Volume {
    blocks: Memory,
    geometry: Geometry,
    ghost sizes: { IsGeometry geometry },
    ghost same: { blocks.block_size ≡ geometry.block_size },
}

impl Volume {
    /// The volume of these sizes whose bytes the image has.
    pub(crate) fn new(sizes: &Sizes, image: Vec<u8>) -> Volume {
        let geometry = geometry(sizes);
        Volume {
            blocks: Memory::new(geometry.block_size, image),
            geometry,
        }
    }

    /// Whether this comes of a step, and the volume has these bytes then.
    pub(crate) fn gives(&mut self, step: &Step, came: Result<u32, Halt>, bytes: &[u8]) -> bool {
        self.does(step) == came && self.blocks.image() == bytes
    }

    /// Does a step; the number that comes of it, the greatest where a number was looked for and there is none, 0 where it says of none.
    fn does(&mut self, step: &Step) -> Result<u32, Halt> {
        match step {
            Step::Lowest(map) => self.lowest(*map),
            Step::Count(map) => self.count(*map),
            Step::LowestWords(map) => self.lowest_words(*map),
            Step::CountWords(map) => self.count_words(*map),
            Step::Mark(map, number, inside) => self.mark(*map, *number, *inside),
            Step::Load(number) => self.load(*number),
            Step::StoreRoot(number) => self.store(*number, &ROOT),
            Step::StoreOther(number) => self.store(*number, &OTHER),
        }
    }

    /// The lowest free number of a map.
    fn lowest(&mut self, map: Map) -> Result<u32, Halt> {
        let number = lowest_free(&mut self.blocks, &self.geometry, map)?;
        Ok(number.unwrap_or(u32::MAX))
    }

    /// How many numbers of a map are free.
    fn count(&mut self, map: Map) -> Result<u32, Halt> {
        Ok(count_free(&mut self.blocks, &self.geometry, map)?)
    }

    /// How many words are looked at for the lowest free number of a map.
    fn lowest_words(&mut self, map: Map) -> Result<u32, Halt> {
        let mut words = Steps::new();
        search::lowest_free(&mut self.blocks, &self.geometry, map, &mut words)?;
        Ok(words.count() as u32)
    }

    /// How many are looked at to count the free ones.
    fn count_words(&mut self, map: Map) -> Result<u32, Halt> {
        let mut words = Steps::new();
        search::count_free(&mut self.blocks, &self.geometry, map, &mut words)?;
        Ok(words.count() as u32)
    }

    /// Puts a number into a map, or takes it out; 1 where that was done, 0 past the last.
    fn mark(&mut self, map: Map, number: u32, inside: bool) -> Result<u32, Halt> {
        if number > map.last(&self.geometry) {
            return Ok(0);
        }
        if inside {
            set(&mut self.blocks, &self.geometry, map, number)?;
        } else {
            clear(&mut self.blocks, &self.geometry, map, number)?;
        }
        Ok(1)
    }

    /// Which inode has this number.
    fn load(&mut self, number: u32) -> Result<u32, Halt> {
        let inode = load(&mut self.blocks, &self.geometry, number)?;
        Ok(which(&inode))
    }

    /// Makes this the inode of a number.
    fn store(&mut self, number: u32, inode: &Inode) -> Result<u32, Halt> {
        store(&mut self.blocks, &self.geometry, number, inode)?;
        Ok(0)
    }
}
