//! The data zones of a new volume, taken one after the other.

ghost use Rattle.std.specs.Prelude.{ℕ, ◌≡◌, ◌≤◌, ◌<◌, ◌+◌, ◌-◌, ◌*◌, ◌/◌, ◌%◌, ◌^◌, IfOk, length, slice_index};
ghost use Rattle.image.specs.Contents.{contents};
ghost use Rattle.layout.specs.Bytes.{u32_at};
ghost use Rattle.migrate.specs.Pages.{pages_below, pages_from, pages_in, zones_under};
ghost use Rattle.migrate.specs.Used.{zones_below};
ghost use Rattle.migrate.specs.Zones.{IsAppended, IsTaken};

use crate::volume_blocks::{BLOCK, VolumeBlocks};
use byteorder::{ByteOrder, LittleEndian};
use std::alloc::AllocError;

/// How many zone numbers a block holds.
pub(crate) const NUMBERS: usize = 256;

/// The beginning of a new volume's image: its tables, and the data zones that are taken.
#[derive(Drop)]
pub(crate) struct NewZones {
    /// Whole blocks.
    pub(crate) image: Vec<u8>,
    /// How many bytes the whole image has, at most 67108864.
    pub(crate) limit: usize,
    ghost few: { limit ≤ 67108864 },
    ghost blocks: { limit % 1024 ≡ 0 },
    ghost whole: { length image.items % 1024 ≡ 0 },
    ghost within: { length image.items ≤ limit },
}

impl NewZones {
    /// Takes the next zone for a block of bytes, and gives its number.
    pub(crate) fn append(&mut self, block: &[u8]) -> Result<u32, AllocError>
        requires whole { length block.now ≡ 1024 }
        requires room { length self.old.image.items < self.old.limit }
        ensures { IfOk result (λ z. IsAppended block.now z self.old.limit self.new.limit self.old.image.items self.new.image.items) }
    {
        let at = self.image.len();
        self.image.extend_from_slice(block)?;
        Ok((at / BLOCK) as u32)
    }

    /// Copies the old zone of a level, and all that its numbers lead to: 0 is a page, above it stand the indirect blocks. Gives the
    /// number of the new one; a hole stays a hole.
    pub(crate) fn copy(
        &mut self,
        old: &VolumeBlocks,
        zone: u32,
        level: usize,
    ) -> Result<u32, AllocError>
        requires low { level < 4 }
        requires room { length self.old.image.items + 1024 * zones_below (contents old.now.image) level zone ≤ self.old.limit }
        ensures { IfOk result (λ z. IsTaken (pages_in (contents old.now.image)) level zone z self.old.limit self.new.limit
            self.old.image.items self.new.image.items) }
    {
        if zone == 0 {
            return Ok(0);
        }
        if level == 0 {
            return self.append(old.block(zone));
        }
        let mut numbers = [0; NUMBERS];
        for j in 0..NUMBERS {
            numbers[j] = self.copy(old, old.image.number(zone, j), level - 1)?;
        }
        self.append(&block_of(&numbers))
    }

    /// Takes zones for the bytes of a file from a page on, as far as one number of a level leads, and gives that number; 0 where the
    /// file ends before.
    pub(crate) fn lay(&mut self, bytes: &[u8], page: usize, level: usize) -> Result<u32, AllocError>
        requires low { level < 4 }
        requires short { length bytes.now < 2 ^ 32 }
        requires near { page < 2 ^ 32 }
        requires room { length self.old.image.items + 1024 * zones_under (pages_from bytes.now) level page ≤ self.old.limit }
        ensures { IfOk result (λ z. IsTaken (pages_from bytes.now) level page z self.old.limit self.new.limit
            self.old.image.items self.new.image.items) }
    {
        if BLOCK * page >= bytes.len() {
            return Ok(0);
        }
        if level == 0 {
            return self.append(&page_of(bytes, page));
        }
        let mut numbers = [0; NUMBERS];
        for j in 0..NUMBERS {
            numbers[j] = self.lay(bytes, page + j * pages_below(level - 1), level - 1)?;
        }
        self.append(&block_of(&numbers))
    }
}

/// How many pages a number of a level leads to.
fn pages_below(level: usize) -> usize
    requires { level < 3 }
    ensures value { result ≡ pages_below level }
    ensures few { result ≤ 65536 }
{
    match level {
        0 => 1,
        1 => NUMBERS,
        _ => NUMBERS * NUMBERS,
    }
}

/// The block that holds these numbers.
fn block_of(numbers: &[u32; NUMBERS]) -> [u8; BLOCK]
    ensures { (j : ℕ) → j < 256 → u32_at result (4 * j) ≡ slice_index numbers.now j }
{
    let mut block = [0; BLOCK];
    for j in 0..NUMBERS {
        put_number(&mut block, 4 * j, numbers[j]);
    }
    block
}

/// Writes a number at four bytes.
fn put_number(block: &mut [u8], at: usize, number: u32)
    requires { at + 4 ≤ length block.old }
    ensures size { length block.new ≡ length block.old }
    ensures number { u32_at block.new at ≡ number }
    ensures before { (p : ℕ) → p < at → slice_index block.new p ≡ slice_index block.old p }
{
    LittleEndian::write_u32(&mut block[at..], number);
}

/// A page of a file, with zeros after its end.
fn page_of(bytes: &[u8], page: usize) -> [u8; BLOCK]
    requires short { length bytes.now < 2 ^ 32 }
    requires there { 1024 * page < length bytes.now }
    ensures { (o : ℕ) → o < 1024 → slice_index result o ≡ slice_index bytes.now (1024 * page + o) }
{
    let mut block = [0; BLOCK];
    for o in 0..BLOCK {
        let at = BLOCK * page + o;
        if at < bytes.len() {
            block[o] = bytes[at];
        }
    }
    block
}
