//! Laws that lead from the moves to the client call.

ghost use Rattle.inode_operations.specs.Asking.{MoveToMayBeMade};
ghost use Rattle.inode_operations.specs.Replaced.{ReplacedIsReplaced};
ghost use Rattle.inode_operations.specs.Whole.{MovedIsMoved};

/// What a move makes of a tree, and what is left then of what it replaced, is what the tree's own rename makes.
pub fn moves_are_the_trees()
    ensures moved { MovedIsMoved }
    ensures replaced { ReplacedIsReplaced }
{}

/// The steps of a move to another directory may be made where the tree before them has what they ask.
pub fn moves_may_be_made()
    ensures { MoveToMayBeMade }
{}
