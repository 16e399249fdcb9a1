//! The inode table of a volume, behind its maps: inode n has 64 bytes, entry n - 1 of the table.

ghost use Rattle.std.specs.Prelude.{◌≡◌, ◌≤◌, ◌<◌, ◌+◌, ◌↔◌, IfErr, IsErrOf, IsTrue, false};
ghost use Rattle.layout.specs.Places.{IsGeometry};
ghost use Rattle.volume.specs.Reading.{is_inode, inode_block, inode_offset};
ghost use Rattle.volume.specs.Pieces.{pieces};
ghost use Rattle.block_store.specs.World.{Turns, Reads};
ghost use Rattle.block_store.specs.Volume.{IsOn, Alters};
ghost use Rattle.block_store.specs.Halts.{IsHalt, Ends};
ghost use Rattle.inode.specs.Table.{with_inode};

use crate::{decode_in, encode};
use block_store::words::write_bytes;
use block_store::{Blocks, Halt};
use layout::Geometry;
use volume::Inode;

/// Where an inode begins.
#[derive(Clone, Copy)]
struct Place {
    block: u32,
    at: usize,
}

fn place_of(geometry: &Geometry, number: u32) -> Place
    requires geometry { IsGeometry geometry.now }
    requires number { IsTrue (is_inode geometry.now number) }
    ensures block { result.block ≡ inode_block geometry.now number }
    ensures at { result.at ≡ inode_offset geometry.now number }
    ensures within { result.at + 64 ≤ geometry.now.block_size }
{
    let each = geometry.block_size / 64;
    let table = 2 + geometry.inode_map_blocks + geometry.zone_map_blocks;
    Place {
        block: table + (number - 1) / each,
        at: 64 * ((number - 1) % each) as usize,
    }
}

/// Whether inodes have the number: 1 to as many as there are.
fn has_number(geometry: &Geometry, number: u32) -> bool
    ensures { result ≡ is_inode geometry.now number }
{
    1 <= number && number <= geometry.inodes
}

/// The inode of a number. Unsound where no inode has it; then nothing is done.
pub fn load<B: Blocks>(blocks: &mut B, geometry: &Geometry, number: u32) -> Result<Inode, Halt>
    requires on { IsOn B.world geometry.now blocks.old }
    ensures reads { Reads B.world blocks.old blocks.new (λ d.
        Ends result (λ i. i ≡ (pieces geometry.now d).inodes number) (IsTrue (is_inode geometry.now number))) }
    ensures unsound { IsErrOf result Halt.Unsound ↔ (is_inode geometry.now number ≡ false) }
    ensures untouched { is_inode geometry.now number ≡ false → blocks.new ≡ blocks.old }
    ensures halt { IfErr result (λ h. IsHalt B.world blocks.new h) }
{
    if !has_number(geometry, number) {
        return Err(Halt::Unsound);
    }
    let place = place_of(geometry, number);
    let frame = blocks.fetch(place.block)?;
    Ok(decode_in(blocks.bytes(frame), place.at))
}

/// Makes this the inode of a number. Unsound where no inode has it; then nothing is done.
pub fn store<B: Blocks>(
    blocks: &mut B,
    geometry: &Geometry,
    number: u32,
    inode: &Inode,
) -> Result<(), Halt>
    requires on { IsOn B.world geometry.now blocks.old }
    ensures turns { Turns B.world blocks.old blocks.new (λ d e.
        Ends result (λ _. Alters geometry.now (with_inode (pieces geometry.now d) number inode.now) d e)
        (IsTrue (is_inode geometry.now number))) }
    ensures unsound { IsErrOf result Halt.Unsound ↔ (is_inode geometry.now number ≡ false) }
    ensures untouched { is_inode geometry.now number ≡ false → blocks.new ≡ blocks.old }
    ensures halt { IfErr result (λ h. IsHalt B.world blocks.new h) }
{
    if !has_number(geometry, number) {
        return Err(Halt::Unsound);
    }
    let place = place_of(geometry, number);
    let bytes = encode(inode);
    write_bytes(blocks, place.block, place.at, &bytes)?;
    Ok(())
}
