//! The bytes of files, written.

ghost use Rattle.std.specs.Prelude.{◌≡◌, ◌≤◌, ◌+◌, ◌↔◌, ℕ, length, IfErr, IsErrOf, false};
ghost use Rattle.volume.specs.Pieces.{pieces};
ghost use Rattle.volume.specs.Reading.{is_data_zone};
ghost use Rattle.block_store.specs.World.{Turns};
ghost use Rattle.block_store.specs.Halts.{Ends, IsHalt};
ghost use Rattle.block_store.specs.Volume.{IsOn};
ghost use Rattle.file.specs.Writing.{WritesPage, IsPageZone};

use block_store::{Blocks, Halt};
use layout::Geometry;
use zone::numbers::write_zone;

/// Writes these bytes into the zone of a page, from an offset of the page on: the file whose page lies there has them then, up to
/// its end, and all else stays. Unsound exactly where it is no data zone, and nothing is changed then. Where no page of a marked inode lies
/// in the zone, or the rules are broken, nothing more is said.
pub fn write_page<B: Blocks>(
    blocks: &mut B,
    geometry: &Geometry,
    zone: u32,
    from: usize,
    bytes: &[u8],
) -> Result<(), Halt>
    requires on { IsOn B.world geometry.now blocks.old }
    requires within { from + length bytes.now ≤ geometry.now.block_size }
    ensures turns { Turns B.world blocks.old blocks.new (λ d e. Ends result
        (λ x. (n p : ℕ) → WritesPage geometry.now n p zone from bytes.now d e) (IsPageZone geometry.now (pieces geometry.now d) zone)) }
    ensures unsound { IsErrOf result Halt.Unsound ↔ (is_data_zone geometry.now zone ≡ false) }
    ensures untouched { is_data_zone geometry.now zone ≡ false → blocks.new ≡ blocks.old }
    ensures halt { IfErr result (λ h. IsHalt B.world blocks.new h) }
{
    write_zone(blocks, geometry, zone, from, bytes)
}
