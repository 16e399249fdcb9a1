//! Blocks in frames.

ghost use Rattle.std.specs.Prelude.{◌≡◌, ℕ, ◌+◌, ◌<◌, ◌≤◌, ◌^◌, length, Some, is_some, OnOk, OnErr, IfOk, IfErr};
ghost use Rattle.block_store.specs.World.{World, IsWorld, Turns};
ghost use Rattle.block_store.specs.Rows.{written, cleared};

use crate::Cut;

/// Blocks, some of them at hand in frames.
pub trait Blocks {
    /// A block's place in memory.
    type Frame: Copy;

    ghost world: { World Self };

    // this frame is the block's
    ghost names: { Self → Self.Frame → ℕ → Type 0 };

    /// The bytes of a block.
    fn block_size(&self) -> u32
        ensures size { result ≡ world.size self.now }
        ensures most { result ≤ 4096 };

    /// Whether a block is at hand in a frame.
    fn is_at_hand(&self, block: u32) -> bool
        ensures { result ≡ is_some (world.frames self.now block) };

    /// The frame of a block.
    fn fetch(&mut self, block: u32) -> Result<Self::Frame, Cut>
        requires ready { world.ready self.old }
        ensures turns { Turns world self.old self.new (λ d e. e ≡ d) }
        ensures looks { world.looks self.old self.new }
        ensures frame { IfOk result (λ f. names self.new f block) }
        ensures cut { IfErr result (λ c. world.over self.new c) };

    /// The bytes of a frame.
    fn bytes(&self, frame: Self::Frame) -> &[u8]
        requires { (block : ℕ) × names self.now frame block }
        ensures bytes { (block : ℕ) → names self.now frame block → world.frames self.now block ≡ Some result.now }
        ensures whole { length result.now ≡ world.size self.now };

    /// Changes these bytes of a frame, whose block may be changed.
    fn change(&mut self, frame: Self::Frame, from: usize, bytes: &[u8])
        requires ready { world.ready self.old }
        requires frame { (block : ℕ) × names self.old frame block × world.writable self.old block }
        requires within { from + length bytes.now ≤ world.size self.old }
        ensures turns { (block : ℕ) → names self.old frame block
            → Turns world self.old self.new (λ d e. e ≡ written block from bytes.now d) }
        ensures frames { (f : _) (block : ℕ) → names self.old f block → names self.new f block };

    /// The frame of a block that may be changed, with zero bytes in place of its own.
    fn fresh(&mut self, block: u32) -> Result<Self::Frame, Cut>
        requires ready { world.ready self.old }
        requires writable { world.writable self.old block }
        ensures turns { Turns world self.old self.new (λ d e. OnOk result (e ≡ cleared block d)) }
        ensures frame { IfOk result (λ f. names self.new f block) }
        ensures cut { IfErr result (λ c. world.over self.new c) };

    /// Gives up the frame of a block, if its bytes are the disk's.
    fn forget(&mut self, block: u32)
        requires ready { world.ready self.old }
        ensures turns { Turns world self.old self.new (λ d e. e ≡ d) }
        ensures looks { world.looks self.old self.new };

    /// Writes all that was changed. Where nothing was, it only looks.
    fn sync(&mut self) -> Result<(), Cut>
        requires ready { world.ready self.old }
        ensures turns { Turns world self.old self.new (λ d e. e ≡ d) }
        ensures synced { OnOk result (world.synced self.new) }
        ensures looks { world.looks self.old self.new }
        ensures cut { IfErr result (λ c. world.over self.new c) };

    /// Whether calls go on, or why not.
    fn live(&self) -> Result<(), Cut>
        ensures live { OnOk result (world.live self.now) }
        ensures cut { IfErr result (λ c. world.over self.now c) };

    ghost lawful: { IsWorld world };
}
