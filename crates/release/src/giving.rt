//! The nodes of a volume that have no link are given back.

ghost use Rattle.std.specs.Prelude.{◌≡◌, ◌+◌, IfErr, IfOk};
ghost use Rattle.lemmas.specs.Sums.{one_if};
ghost use Rattle.tree.specs.Changes.{has_no_link};
ghost use Rattle.volume.specs.Nodes.{nodes_of};
ghost use Rattle.image.specs.Contents.{contents};
ghost use Rattle.block_store.specs.World.{Turns};
ghost use Rattle.block_store.specs.Halts.{Ends};
ghost use Rattle.block_store.specs.Volume.{IsOn};
ghost use Rattle.release.specs.Nameless.{unlinked_below};
ghost use Rattle.release.specs.Giving.{GivesAllBack, GivesBack, HasImage, MayGiveBack};

use block_store::{Blocks, Halt};
use image::Image;
use inode_operations::free_node;

/// Whether inode n is in use and has no link.
fn is_unlinked(image: &Image, n: u32) -> bool
    ensures { result ≡ has_no_link (nodes_of image.now.geometry (contents image.now) n) }
{
    if !image.is_marked(n) {
        return false;
    }
    image.links(n) == 0
}

/// Gives back the node of this number, if the image has one there without a link: whether it did, as 0 or 1. The blocks are those of the
/// image, but for nodes of other numbers. Unsound only where they aren't sound, or the number's node isn't the image's.
fn give_back<B: Blocks>(blocks: &mut B, image: &Image, number: u32) -> Result<u32, Halt>
    requires on { IsOn B.world image.now.geometry blocks.old }
    ensures turns { Turns B.world blocks.old blocks.new (λ d e. Ends result
        (λ count. GivesBack image.now number d e) (MayGiveBack image.now number d)) }
    ensures count { IfOk result (λ count. count ≡ one_if (has_no_link (nodes_of image.now.geometry (contents image.now) number))) }
{
    if !is_unlinked(image, number) {
        return Ok(0);
    }
    free_node(blocks, &image.geometry(), number)?;
    Ok(1)
}

/// Gives back all nodes that have no link in the image, whose blocks these are: how many there were. Unsound only where they aren't sound,
/// or aren't the image's.
pub(crate) fn give_all_back<B: Blocks>(blocks: &mut B, image: &Image) -> Result<u32, Halt>
    requires on { IsOn B.world image.now.geometry blocks.old }
    ensures turns { Turns B.world blocks.old blocks.new (λ d e. Ends result
        (λ count. GivesAllBack image.now d e) (HasImage image.now d)) }
    ensures count { IfOk result (λ count. count ≡ unlinked_below
        (nodes_of image.now.geometry (contents image.now)) (image.now.geometry.inodes + 1)) }
{
    let mut count = 0;
    for number in 0..image.geometry().inodes + 1 {
        count += give_back(blocks, image, number)?;
    }
    Ok(count)
}
