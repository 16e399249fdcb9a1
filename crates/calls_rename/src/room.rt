//! Whether there are zones enough for a move to another directory.

ghost use Rattle.std.specs.Prelude.{IfErr};
ghost use Rattle.block_store.specs.Halts.{Ends, IsHalt};
ghost use Rattle.block_store.specs.Volume.{IsOn};
ghost use Rattle.block_store.specs.World.{Reads};
ghost use Rattle.calls_rename.specs.Elsewhere.{CanMove, TellsRoom};

use crate::Asked;
use crate::last_page::let_go;
use bitmap::{Map, count_free};
use block_store::{Blocks, Halt};
use file::file_room::zones_for;
use layout::Geometry;
use tree::MAX_SIZE;

/// Whether the tree after a move to a new name of another directory fits: whether those zones are free that the entry takes there, or
/// given back where it goes. Nothing is changed. Unsound only where no tree is held of which that move is asked.
pub fn has_room<B: Blocks>(blocks: &mut B, geometry: &Geometry, asked: &Asked) -> Result<bool, Halt>
    requires on { IsOn B.world geometry.now blocks.old }
    ensures reads { Reads B.world blocks.old blocks.new (λ d. Ends result
        (λ fits. TellsRoom geometry.now d asked.now fits) (CanMove geometry.now d asked.now)) }
    ensures halt { IfErr result (λ h. IsHalt B.world blocks.new h) }
{
    let old = asked.from.size;
    if old < 64 || old > MAX_SIZE {
        return Err(Halt::Unsound);
    }
    let new = asked.to.size;
    if new > MAX_SIZE - 64 {
        return Ok(false);
    }
    let more = zones_for(blocks, geometry, asked.what.to, new, 64)?;
    let free = count_free(blocks, geometry, Map::Zones)?;
    let back = let_go(geometry, old);
    Ok(u64::from(more) <= u64::from(free) + u64::from(back))
}
