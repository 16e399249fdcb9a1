//! Blocks in memory, for tests and for images that are held whole.

mod frames;

ghost use Rattle.std.specs.Prelude.{◌≡◌, ◌↔◌, ℕ, ◌+◌, ◌*◌, ◌<◌, ◌≤◌, length, replicate, slice_index, IsOk, IfOk, IfErr, IsTrue};
ghost use Rattle.layout.specs.Places.{is_block_size};
ghost use Rattle.block_store.specs.Rows.{with_bytes};

use crate::Cut;

/// Blocks in memory: those that lie whole in an image, one after the other. Nothing is ever cut but a call on a block past the last.
#[derive(Drop)]
pub struct Memory {
    block_size: u32,
    image: Vec<u8>,
    ghost sized: { IsTrue (is_block_size block_size) },
}

/// A block's place.
#[derive(Clone, Copy)]
pub struct MemoryFrame {
    pub(crate) block: usize,
    pub(crate) at: usize,
}

impl Memory {
    /// The blocks of an image, of 1024, 2048 or 4096 bytes each. Bytes past the last whole block are kept, and never read.
    pub fn new(block_size: u32, image: Vec<u8>) -> Memory
        requires { IsTrue (is_block_size block_size) }
        ensures size { result.block_size ≡ block_size }
        ensures image { result.image.items ≡ image.items }
    {
        Memory { block_size, image }
    }

    /// The bytes of all blocks.
    pub fn image(&self) -> &[u8]
        ensures { result.now ≡ self.now.image.items }
    {
        &self.image
    }

    /// Where a block begins, if the image has all of it.
    pub(crate) fn place(&self, block: u32) -> Result<MemoryFrame, Cut>
        ensures there { IsOk result ↔ (block * self.now.block_size + self.now.block_size ≤ length self.now.image.items) }
        ensures block { IfOk result (λ p. p.block ≡ block) }
        ensures at { IfOk result (λ p. p.at ≡ block * self.now.block_size) }
        ensures cut { IfErr result (λ c. c ≡ Cut.Eio) }
    {
        let size = self.block_size as usize;
        let at = block as usize * size;
        if self.image.len() < at + size {
            return Err(Cut::Eio);
        }
        Ok(MemoryFrame {
            block: block as usize,
            at,
        })
    }
}

/// Writes bytes from a place on.
pub(crate) fn write(image: &mut [u8], at: usize, bytes: &[u8])
    requires { at + length bytes.now ≤ length image.old }
    ensures { (o : ℕ) → slice_index image.new o ≡ with_bytes at bytes.now (slice_index image.old) o }
{
    image[at..at + bytes.len()].copy_from_slice(bytes);
}

/// Makes so many bytes from a place on zero.
pub(crate) fn clear(image: &mut [u8], at: usize, many: usize)
    requires { at + many ≤ length image.old }
    ensures { (o : ℕ) → slice_index image.new o ≡ with_bytes at (replicate many 0) (slice_index image.old) o }
{
    image[at..at + many].fill(0);
}
