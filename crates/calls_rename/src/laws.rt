//! Moves that always fit, and what a rename has found is what its moves ask for. Each law is a function whose contract it is.

ghost use Rattle.calls_rename.specs.Laws.{FitsDropped, FitsOver, FitsWithin, FoundIsAsked};

/// Within a directory, and over a name that is there, the tree after a move fits the volume that held the one before; and so it does once
/// what had that name is dropped.
pub fn moves_that_fit()
    ensures within { FitsWithin }
    ensures over { FitsOver }
    ensures dropped { FitsDropped }
{}

/// What a rename finds is what its moves ask of the tree, where something else has the new name, if anything, and what moves isn't a
/// directory that the new place lies in.
pub fn found_is_asked()
    ensures { FoundIsAsked }
{}
