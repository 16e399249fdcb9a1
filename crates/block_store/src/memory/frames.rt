//! Blocks in memory are blocks.

ghost use Rattle.std.specs.Prelude.{◌≡◌, ◌+◌, ◌*◌, ◌≤◌, length};
ghost use Rattle.block_store.specs.Memory.{memory_world};
ghost use Rattle.block_store.specs.Lawful.{is_world};

use crate::memory::{Memory, MemoryFrame, clear, write};
use crate::{Blocks, Cut};

impl Blocks for Memory {
    type Frame = MemoryFrame;

    ghost world = { memory_world };

    ghost names = { λ m f block.
        (f.block ≡ block) × (f.at ≡ block * m.block_size) × (block * m.block_size + m.block_size ≤ length m.image.items) };

    fn block_size(&self) -> u32 {
        self.block_size
    }

    fn is_at_hand(&self, block: u32) -> bool {
        self.place(block).is_ok()
    }

    fn fetch(&mut self, block: u32) -> Result<MemoryFrame, Cut> {
        self.place(block)
    }

    fn bytes(&self, frame: MemoryFrame) -> &[u8] {
        &self.image[frame.at..frame.at + self.block_size as usize]
    }

    fn change(&mut self, frame: MemoryFrame, from: usize, bytes: &[u8]) {
        write(&mut self.image, frame.at + from, bytes);
    }

    fn fresh(&mut self, block: u32) -> Result<MemoryFrame, Cut> {
        let place = self.place(block)?;
        clear(&mut self.image, place.at, self.block_size as usize);
        Ok(place)
    }

    fn forget(&mut self, _block: u32) {}

    fn sync(&mut self) -> Result<(), Cut> {
        Ok(())
    }

    fn live(&self) -> Result<(), Cut> {
        Ok(())
    }

    ghost lawful = { is_world };
}
