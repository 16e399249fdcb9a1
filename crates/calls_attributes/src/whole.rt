//! The calls on the volume as a whole.

ghost use Rattle.std.specs.Prelude.{◌≡◌, ◌≢◌, IfErr, OnOk, Ok};
ghost use Rattle.tree.specs.Tree.{Tree};
ghost use Rattle.tree.specs.NodeCalls.{statfs};
ghost use Rattle.tree.specs.Answers.{answer_of, refused, done};
ghost use Rattle.descriptors.specs.Files.{Files, HasFiles};
ghost use Rattle.block_store.specs.World.{Turns};
ghost use Rattle.block_store.specs.Volume.{IsOn};
ghost use Rattle.block_store.specs.Halts.{IsHalt};
ghost use Rattle.calls_attributes.specs.Does.{Meets};

use bitmap::{Map, count_free};
use block_store::{Blocks, Halt};
use errno::Errno;
use layout::Geometry;
use tree::{Reply, Statfs};

/// sync: writes all that was changed.
pub fn sync<B: Blocks>(blocks: &mut B, geometry: &Geometry, reply: &mut Reply) -> Result<(), Halt>
    requires on { IsOn B.world geometry.now blocks.old }
    ensures turns { Turns B.world blocks.old blocks.new (λ d e. (f : Files) →
        Meets geometry.now (λ t. Ok (done, t)) result reply.new (HasFiles f) (HasFiles f) d e) }
    ensures synced { OnOk result (B.world.synced blocks.new) }
    ensures halt { IfErr result (λ h. IsHalt B.world blocks.new h) }
    ensures proper { OnOk result (answer_of reply.new ≢ refused Errno.EIO) }
{
    blocks.sync()?;
    *reply = Reply::Done;
    Ok(())
}

/// statfs: the sizes of the volume, and how many zones and inodes are free, counted in its maps.
pub fn statfs<B: Blocks>(blocks: &mut B, geometry: &Geometry, reply: &mut Reply) -> Result<(), Halt>
    requires on { IsOn B.world geometry.now blocks.old }
    ensures turns { Turns B.world blocks.old blocks.new (λ d e. (f : Files) →
        Meets geometry.now (λ t. statfs geometry.now t) result reply.new (HasFiles f) (HasFiles f) d e) }
    ensures looks { B.world.looks blocks.old blocks.new }
    ensures halt { IfErr result (λ h. IsHalt B.world blocks.new h) }
    ensures proper { OnOk result (answer_of reply.new ≢ refused Errno.EIO) }
{
    let free_zones = count_free(blocks, geometry, Map::Zones)?;
    let free_inodes = count_free(blocks, geometry, Map::Inodes)?;
    *reply = Reply::Space(Statfs {
        block_size: geometry.block_size,
        zones: geometry.zones - geometry.first_zone,
        free_zones,
        inodes: geometry.inodes,
        free_inodes,
    });
    Ok(())
}
