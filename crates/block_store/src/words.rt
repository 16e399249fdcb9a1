//! Numbers and bytes in blocks.

ghost use Rattle.std.specs.Prelude.{◌≡◌, ◌⊎◌, ℕ, ◌+◌, ◌<◌, ◌≤◌, length, OnOk, OnErr, IfOk, IfErr};
ghost use Rattle.std.specs.Int.{w32, to_le_bytes};
ghost use Rattle.block_store.specs.World.{Turns, Reads};
ghost use Rattle.volume.specs.Reading.{u32_in};
ghost use Rattle.block_store.specs.Rows.{HasBytes, written, cleared};

use crate::{Blocks, Cut};
use layout::u32_at;

/// The byte at a place of a block.
pub fn read_byte<B: Blocks>(blocks: &mut B, block: u32, at: usize) -> Result<u8, Cut>
    requires ready { B.world.ready blocks.old }
    requires within { at < B.world.size blocks.old }
    ensures reads { Reads B.world blocks.old blocks.new (λ d. IfOk result (λ x. x ≡ d block at)) }
    ensures cut { IfErr result (λ c. B.world.over blocks.new c) }
{
    let frame = blocks.fetch(block)?;
    let bytes = blocks.bytes(frame);
    Ok(bytes[at])
}

/// The little-endian number in four bytes of a block.
pub fn read_u32<B: Blocks>(blocks: &mut B, block: u32, at: usize) -> Result<u32, Cut>
    requires ready { B.world.ready blocks.old }
    requires within { at + 4 ≤ B.world.size blocks.old }
    ensures reads { Reads B.world blocks.old blocks.new (λ d. IfOk result (λ x. x ≡ u32_in (d block) at)) }
    ensures cut { IfErr result (λ c. B.world.over blocks.new c) }
{
    let frame = blocks.fetch(block)?;
    let bytes = blocks.bytes(frame);
    Ok(u32_at(bytes, at))
}

/// Copies the bytes of a block from a place on into the slice, as many as it is long. Where the call is cut, the slice stays.
pub fn read_bytes<B: Blocks>(
    blocks: &mut B,
    block: u32,
    from: usize,
    into: &mut [u8],
) -> Result<(), Cut>
    requires ready { B.world.ready blocks.old }
    requires within { from + length into.old ≤ B.world.size blocks.old }
    ensures reads { Reads B.world blocks.old blocks.new (λ d. OnOk result (HasBytes from into.new (d block))) }
    ensures stays { OnErr result (into.new ≡ into.old) }
    ensures cut { IfErr result (λ c. B.world.over blocks.new c) }
{
    let frame = blocks.fetch(block)?;
    let bytes = blocks.bytes(frame);
    into.copy_from_slice(&bytes[from..from + into.len()]);
    Ok(())
}

/// The frame of a block all of whose bytes are to be replaced: one that is at hand stays as it is, another gets zeros, and isn't read.
fn frame_to_fill<B: Blocks>(blocks: &mut B, block: u32) -> Result<B::Frame, Cut>
    requires ready { B.world.ready blocks.old }
    requires writable { B.world.writable blocks.old block }
    ensures turns { Turns B.world blocks.old blocks.new (λ d e. OnOk result ((e ≡ d) ⊎ (e ≡ cleared block d))) }
    ensures frame { IfOk result (λ f. B.names blocks.new f block) }
    ensures cut { IfErr result (λ c. B.world.over blocks.new c) }
{
    if blocks.is_at_hand(block) {
        blocks.fetch(block)
    } else {
        blocks.fresh(block)
    }
}

/// Writes these bytes into a block, all that it has.
fn replace<B: Blocks>(blocks: &mut B, block: u32, bytes: &[u8]) -> Result<(), Cut>
    requires ready { B.world.ready blocks.old }
    requires writable { B.world.writable blocks.old block }
    requires whole { length bytes.now ≡ B.world.size blocks.old }
    ensures turns { Turns B.world blocks.old blocks.new (λ d e. OnOk result (e ≡ written block 0 bytes.now d)) }
    ensures cut { IfErr result (λ c. B.world.over blocks.new c) }
{
    let frame = frame_to_fill(blocks, block)?;
    blocks.change(frame, 0, bytes);
    Ok(())
}

/// Writes these bytes into a block, from a place on. A block that gets all its bytes isn't read before.
pub fn write_bytes<B: Blocks>(
    blocks: &mut B,
    block: u32,
    from: usize,
    bytes: &[u8],
) -> Result<(), Cut>
    requires ready { B.world.ready blocks.old }
    requires writable { B.world.writable blocks.old block }
    requires within { from + length bytes.now ≤ B.world.size blocks.old }
    ensures turns { Turns B.world blocks.old blocks.new (λ d e. OnOk result (e ≡ written block from bytes.now d)) }
    ensures cut { IfErr result (λ c. B.world.over blocks.new c) }
{
    if bytes.len() == blocks.block_size() as usize {
        return replace(blocks, block, bytes);
    }
    let frame = blocks.fetch(block)?;
    blocks.change(frame, from, bytes);
    Ok(())
}

/// Writes a number into four bytes of a block, the low byte first.
pub fn write_u32<B: Blocks>(blocks: &mut B, block: u32, from: usize, number: u32) -> Result<(), Cut>
    requires ready { B.world.ready blocks.old }
    requires writable { B.world.writable blocks.old block }
    requires within { from + 4 ≤ B.world.size blocks.old }
    ensures turns { Turns B.world blocks.old blocks.new (λ d e. OnOk result (e ≡ written block from (to_le_bytes w32 number) d)) }
    ensures cut { IfErr result (λ c. B.world.over blocks.new c) }
{
    write_bytes(blocks, block, from, &number.to_le_bytes())
}

/// Makes all bytes of a block zero, without reading it.
pub fn clear<B: Blocks>(blocks: &mut B, block: u32) -> Result<(), Cut>
    requires ready { B.world.ready blocks.old }
    requires writable { B.world.writable blocks.old block }
    ensures turns { Turns B.world blocks.old blocks.new (λ d e. OnOk result (e ≡ cleared block d)) }
    ensures cut { IfErr result (λ c. B.world.over blocks.new c) }
{
    blocks.fresh(block)?;
    Ok(())
}
