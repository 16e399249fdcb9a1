//! A volume in memory, on which calls are made.

ghost use Rattle.std.specs.Prelude.{◌≡◌};
ghost use Rattle.layout.specs.Places.{IsGeometry};

use crate::calls::{Call, CallResult, Field, Step, is_wanted};
use bitmap::{Map, count_free};
use block_store::Halt;
use block_store::memory::Memory;
use file::file_pages::changing::{set_size, stamp};
use file::file_pages::reading::read_at;
use file::file_room::{has_room, need};
use file::write_at;
use inode::inode_table::load;
use layout::Geometry;
use std::test::Fail;
use zone::cutting::detach_from;
use zone::pages::attach;
use zone::places::{lookup, lookup_row};

/// A volume in memory.
#[derive(Drop)]
pub struct Volume {
    blocks: Memory,
    geometry: Geometry,
    ghost sizes: { IsGeometry geometry },
    ghost same: { blocks.block_size ≡ geometry.block_size },
}

impl Volume {
    /// The volume of these sizes whose bytes the image has.
    pub fn new(geometry: Geometry, image: Vec<u8>) -> Volume
        requires { IsGeometry geometry }
    {
        Volume {
            blocks: Memory::new(geometry.block_size, image),
            geometry,
        }
    }

    /// Makes the calls of a row one after the other: each gives what stands beside it.
    pub fn gives(&mut self, row: &str, number: u32, steps: &[Step]) -> Result<(), Fail> {
        for (step, (call, wanted)) in steps.iter().enumerate() {
            let got = self.call(call);
            if !is_wanted(got, *wanted) {
                return Err(Fail::new(format_args!("{row} {number}: step {step}")));
            }
        }
        Ok(())
    }

    /// Makes a call.
    fn call(&mut self, call: &Call) -> CallResult {
        match call {
            Call::Free => self.free(),
            Call::Attach(inode, pages) => self.attach(*inode, pages),
            Call::Detach(inode, page) => self.detach(*inode, *page),
            Call::Zone(page) => Ok(Some(self.zone(*page)?)),
            Call::Zones(page, zones) => self.has_row(*page, zones),
            Call::Blank(pages) => self.are_blank(pages),
            Call::Holes(pages) => self.are_holes(pages),
            Call::Read(at, room, left) => self.read(*at, *room, left),
            Call::Write(at, bytes) => self.write(*at, bytes),
            Call::Resize(size) => self.resize(*size),
            Call::Stamp(now) => self.stamp(*now),
            Call::Field(field) => self.field(field),
            Call::Need(first, count) => self.need(*first, *count),
            Call::Room(at, count) => self.room(*at, *count),
        }
    }

    /// How many zones are free.
    fn free(&mut self) -> CallResult {
        let count = count_free(&mut self.blocks, &self.geometry, Map::Zones)?;
        Ok(Some(count))
    }

    /// Attaches pages of an inode.
    fn attach(&mut self, inode: u32, pages: &[u32]) -> CallResult {
        for page in pages {
            self.attach_page(inode, *page)?;
        }
        Ok(Some(0))
    }

    /// Attaches a page of an inode.
    fn attach_page(&mut self, inode: u32, page: u32) -> Result<u32, Halt> {
        attach(&mut self.blocks, &self.geometry, inode, page)
    }

    /// Lets go the pages of an inode from one on.
    fn detach(&mut self, inode: u32, page: u32) -> CallResult {
        detach_from(&mut self.blocks, &self.geometry, inode, page)?;
        Ok(Some(0))
    }

    /// The zone of a page.
    fn zone(&mut self, page: u32) -> Result<u32, Halt> {
        let inode = load(&mut self.blocks, &self.geometry, 1)?;
        Ok(lookup(&mut self.blocks, &self.geometry, &inode, page)?)
    }

    /// How many these zones are, if they are those of pages side by side, where up to four are asked for.
    fn has_row(&mut self, page: u32, zones: &[u32]) -> CallResult {
        let inode = load(&mut self.blocks, &self.geometry, 1)?;
        let mut into = [1; 4];
        let count = lookup_row(&mut self.blocks, &self.geometry, &inode, page, &mut into)?;
        if &into[..count] != zones {
            return Ok(None);
        }
        Ok(u32::try_from(count).ok())
    }

    /// Whether each of these pages has a data zone of 1024 bytes, which are zeros.
    fn are_blank(&mut self, pages: &[u32]) -> CallResult {
        for page in pages {
            if !self.is_blank(*page)? {
                return Ok(None);
            }
        }
        Ok(Some(0))
    }

    /// Whether a page has a data zone of 1024 bytes, which are zeros.
    fn is_blank(&mut self, page: u32) -> Result<bool, Halt> {
        let zone = self.zone(page)?;
        if zone < self.geometry.first_zone || zone >= self.geometry.zones {
            return Ok(false);
        }
        let from = (zone as usize).saturating_mul(1024);
        match self.blocks.image().get(from..) {
            Some(bytes) => Ok(bytes.starts_with(&[0; 1024])),
            None => Ok(false),
        }
    }

    /// Whether each of these pages is a hole.
    fn are_holes(&mut self, pages: &[u32]) -> CallResult {
        for page in pages {
            if self.zone(*page)? != 0 {
                return Ok(None);
            }
        }
        Ok(Some(0))
    }

    /// Reads into so many bytes of a slice of 0x2e: how many came, if it has these bytes then.
    fn read(&mut self, at: u32, room: usize, left: &[u8]) -> CallResult {
        let inode = load(&mut self.blocks, &self.geometry, 1)?;
        let mut into = [0x2e; 18432];
        let room = room.min(18432);
        let count = read_at(
            &mut self.blocks,
            &self.geometry,
            &inode,
            at,
            &mut into[..room],
        )?;
        if !into.starts_with(left) {
            return Ok(None);
        }
        Ok(u32::try_from(count).ok())
    }

    /// Writes bytes; none, or past the greatest size, isn't tried.
    fn write(&mut self, at: u32, bytes: &[u8]) -> CallResult {
        if bytes.is_empty() || at > 2147483647 || bytes.len() > (2147483647 - at) as usize {
            return Ok(None);
        }
        write_at(&mut self.blocks, &self.geometry, 1, at, bytes)?;
        Ok(Some(0))
    }

    /// Makes the file that long.
    fn resize(&mut self, size: u32) -> CallResult {
        if size > 2147483647 {
            return Ok(None);
        }
        set_size(&mut self.blocks, &self.geometry, 1, size)?;
        Ok(Some(0))
    }

    /// Sets the times.
    fn stamp(&mut self, now: u32) -> CallResult {
        stamp(&mut self.blocks, &self.geometry, 1, now)?;
        Ok(Some(0))
    }

    /// A field of inode 1.
    fn field(&mut self, field: &Field) -> CallResult {
        let inode = load(&mut self.blocks, &self.geometry, 1)?;
        Ok(match field {
            Field::Mode => Some(u32::from(inode.mode)),
            Field::Links => Some(u32::from(inode.links)),
            Field::Size => Some(inode.size),
            Field::Atime => Some(inode.atime),
            Field::Mtime => Some(inode.mtime),
            Field::Ctime => Some(inode.ctime),
            Field::Zone(place) => inode.zones.get(*place).copied(),
        })
    }

    /// How many zones more inode 1 takes for pages.
    fn need(&mut self, first: u32, count: u32) -> CallResult {
        if first > 2097152 || count > 2097152 - first {
            return Ok(None);
        }
        let inode = load(&mut self.blocks, &self.geometry, 1)?;
        Ok(Some(need(&mut self.blocks, &self.geometry, &inode, first, count)?))
    }

    /// Whether there are zones enough for so many bytes.
    fn room(&mut self, at: u32, count: u32) -> CallResult {
        if count == 0 || at > 2147483647 || count > 2147483647 - at {
            return Ok(None);
        }
        let fits = has_room(&mut self.blocks, &self.geometry, 1, at, count)?;
        Ok(Some(u32::from(fits)))
    }
}
