//! What the moves of a rename need of the tree before it. Each law is a function whose contract it is.

ghost use Rattle.calls_rename.specs.MoveLaws.{MayDropOther, MayMoveInDirectory, MayMoveOnto, MayMoveWhereItFits};
ghost use Rattle.calls_rename.specs.MoveZones.{MoveTakes};

/// A move may be made of what a rename found: within a directory, to another where the tree after it fits, or over a name that is there;
/// and then what had that name may be dropped.
pub fn moves_are_possible()
    ensures within { MayMoveInDirectory }
    ensures other { MayMoveWhereItFits }
    ensures over { MayMoveOnto }
    ensures dropped { MayDropOther }
{}

/// A move to a new name of another directory takes what `file::file_room::zones_for` says of 64 bytes at the end of that one, and gives
/// back what `crate::last_page::let_go` says of the size of the old one.
pub fn a_move_takes_zones()
    ensures { MoveTakes }
{}
