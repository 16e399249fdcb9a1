//! A copy of a volume in which the nodes without a link are given back.

ghost use Rattle.std.specs.Prelude.{◌≡◌, ◌+◌, IfOk, length};
ghost use Rattle.volume.specs.Nodes.{nodes_of};
ghost use Rattle.image.specs.Contents.{contents};
ghost use Rattle.release.specs.Nameless.{unlinked_below};
ghost use Rattle.release.specs.Released.{KeepsLinked};

use crate::giving::give_all_back;
use crate::refusal::ReleaseRefusal;
use block_store::memory::Memory;
use image::Image;
use std::alloc::Global;

/// The blocks of a volume without the nodes that had no link, and how many these were.
#[derive(Drop)]
pub(crate) struct Remains {
    pub(crate) blocks: Memory,
    pub(crate) count: u32,
}

/// Gives back the nodes without a link in a copy of the bytes of this image.
pub(crate) fn given_back(
    alloc: Global,
    image: &Image,
    volume: &[u8],
) -> Result<Remains, ReleaseRefusal>
    requires same { image.now.bytes.now ≡ volume.now }
    ensures count { IfOk result (λ r. r.count ≡ unlinked_below
        (nodes_of image.now.geometry (contents image.now)) (image.now.geometry.inodes + 1)) }
    ensures length { IfOk result (λ r. length r.blocks.image.items ≡ length volume.now) }
    ensures tree { IfOk result (λ r. KeepsLinked volume.now r.blocks.image.items) }
{
    let geometry = image.geometry();
    let mut blocks = Memory::new(geometry.block_size, volume.to_vec(alloc)?);
    let count = give_all_back(&mut blocks, image)?;
    if blocks.image().len() != volume.len() {
        return Err(ReleaseRefusal::Halted);
    }
    Ok(Remains { blocks, count })
}
