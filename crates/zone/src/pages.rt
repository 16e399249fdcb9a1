//! The pages of a file, attached to zones.

ghost use Rattle.std.specs.Prelude.{IfErr};
ghost use Rattle.volume.specs.Pieces.{pieces};
ghost use Rattle.block_store.specs.World.{Turns};
ghost use Rattle.block_store.specs.Halts.{Ends, IsHalt};
ghost use Rattle.block_store.specs.Volume.{IsOn};
ghost use Rattle.zone.specs.Pages.{MayHold};
ghost use Rattle.zone.specs.Files.{AttachesPage};

use crate::holding::hold;
use block_store::{Blocks, Halt};
use layout::Geometry;

/// The zone of a page, which gets one if it has none, and so do the indirect blocks on the way to it. A zone that it gets is
/// filled with zeros before its number is put anywhere. Unsound only where the rules are broken, fewer zones are free than the page
/// lacks, or the number is no marked inode's, or the page none that a file may have; nothing more is said of these.
pub fn attach<B: Blocks>(
    blocks: &mut B,
    geometry: &Geometry,
    inode: u32,
    page: u32,
) -> Result<u32, Halt>
    requires on { IsOn B.world geometry.now blocks.old }
    ensures turns { Turns B.world blocks.old blocks.new (λ d e. Ends result
        (λ z. AttachesPage geometry.now inode page z d e) (MayHold geometry.now (pieces geometry.now d) inode 0 page)) }
    ensures halt { IfErr result (λ h. IsHalt B.world blocks.new h) }
{
    hold(blocks, geometry, inode, 0, page)
}
