//! What stands against a move.

ghost use Rattle.std.specs.Prelude.{◌≡◌, ◌≢◌, ◌≤◌, IfErr, IfOk, IfSome};
ghost use Rattle.descriptors.specs.Table.{files_of};
ghost use Rattle.block_store.specs.Halts.{Ends, IsHalt};
ghost use Rattle.block_store.specs.Volume.{IsOn};
ghost use Rattle.block_store.specs.World.{Reads};
ghost use Rattle.calls_rename.specs.Within.{HoldsDirectory};
ghost use Rattle.calls_rename.specs.Barred.{IsFound, SaysBarred, SaysInside, why_full, why_kept};

use crate::ancestors::is_within;
use crate::asked::Asked;
use block_store::{Blocks, Halt};
use calls_attributes::found::is_directory;
use descriptors::Descriptors;
use errno::Errno;
use inode::inode_table::load;
use inode_operations::Move;
use layout::Geometry;
use tree::MAX_LINKS;
use volume::Inode;

/// Whether what moves is a directory that is the new directory, or that the new directory lies below.
fn is_inside<B: Blocks>(blocks: &mut B, geometry: &Geometry, what: &Move) -> Result<bool, Halt>
    requires on { IsOn B.world geometry.now blocks.old }
    ensures reads { Reads B.world blocks.old blocks.new (λ d. Ends result
        (λ b. SaysInside geometry.now d what.entry.now b) (HoldsDirectory geometry.now d what.entry.now.to)) }
    ensures halt { IfErr result (λ h. IsHalt B.world blocks.new h) }
{
    if !what.is_directory {
        return Ok(false);
    }
    is_within(blocks, geometry, what.to, what.number)
}

/// EMLINK where a directory comes to another parent that has as many links as may be.
fn why_full(asked: &Asked) -> Option<Errno>
    ensures full { result ≡ why_full asked.now }
    ensures proper { IfSome result (λ e. e ≢ Errno.EIO) }
{
    let what = &asked.what;
    if what.is_directory && what.from != what.to && asked.to.links >= MAX_LINKS {
        return Some(Errno::EMLINK);
    }
    None
}

/// Why the node of an inode may not lose its name to what moves, a directory or not. In this order: ENOTDIR of a file where a directory
/// moves, EISDIR of a directory where a file moves, ENOTEMPTY of a directory, EBUSY of one that is open.
fn why_kept(opens: &Descriptors, moves: bool, number: u32, inode: &Inode) -> Option<Errno>
    ensures kept { number ≤ 65535 → result ≡ why_kept (files_of opens.now) moves number inode.now }
    ensures proper { IfSome result (λ e. e ≢ Errno.EIO) }
{
    let stands = is_directory(inode);
    if moves && !stands {
        return Some(Errno::ENOTDIR);
    }
    if !moves && stands {
        return Some(Errno::EISDIR);
    }
    if stands && inode.size != 128 {
        return Some(Errno::ENOTEMPTY);
    }
    if stands && number <= 65535 && opens.is_open(number as u16) {
        return Some(Errno::EBUSY);
    }
    None
}

/// Why what was asked may not move, where it isn't the node at the new name already. In this order: EINVAL of a directory that would lie in
/// itself; where nothing has the new name, EMLINK of a directory that comes to another parent with as many links as may be; where a node
/// has it, ENOTDIR of a directory over a file, EISDIR of a file over a directory, ENOTEMPTY over a directory with names, EBUSY over one
/// that is open. Nothing is changed.
pub fn why_barred<B: Blocks>(
    blocks: &mut B,
    opens: &Descriptors,
    geometry: &Geometry,
    asked: &Asked,
) -> Result<Option<Errno>, Halt>
    requires on { IsOn B.world geometry.now blocks.old }
    ensures reads { let f = files_of opens.now in Reads B.world blocks.old blocks.new (λ d. Ends result
        (λ r. SaysBarred geometry.now f d asked.now r) (IsFound geometry.now d asked.now)) }
    ensures proper { IfOk result (λ r. IfSome r (λ e. e ≢ Errno.EIO)) }
    ensures halt { IfErr result (λ h. IsHalt B.world blocks.new h) }
{
    if is_inside(blocks, geometry, &asked.what)? {
        return Ok(Some(Errno::EINVAL));
    }
    let Some(number) = asked.there else {
        return Ok(why_full(asked));
    };
    let inode = load(blocks, geometry, number)?;
    Ok(why_kept(opens, asked.what.is_directory, number, &inode))
}
