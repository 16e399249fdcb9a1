//! Laws of client calls that go by steps, each of which changes one node of a volume: what stands in between, and that the tree is held in
//! the end. Each is a function whose contract is the law.

ghost use Rattle.inode_operations.specs.Stands.{DirectoryStands, HoldsAtEnd, NodeStands, NothingIsDone, StepIsDone};
ghost use Rattle.inode_operations.specs.Ending.{LeftIsLeft, PutIsLeft};
ghost use Rattle.inode_operations.specs.Naming.{NameIsThere, NameMayBePut, RoomIsForName};

/// A call begins with the nodes of the tree that the volume holds, and each step changes one of them: the volume stays sound. A node that
/// stands at a step is that of a marked inode. A volume whose nodes are in the end those of a tree holds it.
pub fn steps_make_a_call()
    ensures first { NothingIsDone }
    ensures step { StepIsDone }
    ensures node { NodeStands }
    ensures directory { DirectoryStands }
    ensures end { HoldsAtEnd }
{}

/// A name of a directory that stands at a step may be taken away then. One that it hasn't may be put there exactly where the nodes fit
/// with it, which is what `file::file_room::has_room` of an entry's 64 bytes at the directory's end says.
pub fn names_are_put_and_taken()
    ensures taken { NameIsThere }
    ensures put { NameMayBePut }
    ensures room { RoomIsForName }
{}

/// What `crate::lose_node` leaves of a node is what the tree leaves of one that has no name and isn't open.
pub fn what_is_left()
    ensures left { LeftIsLeft }
    ensures put { PutIsLeft }
{}
