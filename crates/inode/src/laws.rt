//! Laws of inodes, each a function whose contract is the law.

ghost use Rattle.inode.specs.Laws.{HeldAttributes, RootIsPlaced, RootReply};

/// Where a volume holds a tree, what an inode's bytes tell is what stat tells of its node.
#[tactic(auto, using(crate::proofs::Stat::held_attributes))]
pub fn held_attributes()
    ensures { HeldAttributes }
{}

/// Inode 1 begins the first block of the inode table, which lies before the data zones and on whole sectors.
pub fn root_is_placed()
    ensures { RootIsPlaced }
{}

/// Where a volume holds a tree, the 64 bytes of inode 1 answer each `stat /`, which leaves the tree.
pub fn root_reply()
    ensures { RootReply }
{}
