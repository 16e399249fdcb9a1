//! Laws of the definitions, each a function whose contract is the law.

ghost use Rattle.fuse_nodes.specs.Files.{FilesStay, NodesStay};
ghost use Rattle.fuse_nodes.specs.Laws.{StaysSound, NumbersStay, IsToldByItsNumber, LostLeadNowhere};

/// From the root alone on, whatever is told, forgotten, opened, closed and lost: the root stays, and each inode leads to the one node with
/// this inode that isn't gone or is open.
pub fn tables_stay_sound()
    ensures { StaysSound }
{}

/// A number keeps its inode, and isn't given again once its node is gone.
pub fn numbers_stay()
    ensures { NumbersStay }
{}

/// A node is told by a number of its own, and isn't gone then.
pub fn each_is_told_by_its_number()
    ensures { IsToldByItsNumber }
{}

/// Of an inode that is lost, each node is gone.
pub fn lost_lead_nowhere()
    ensures { LostLeadNowhere }
{}

/// What stands at an inode stays what it is in each call but one that takes it: a file goes by the removal of its last name, unless it is
/// open, or by the last close of one without a name; a directory by its removal, unless it is open.
#[tactic(auto, using(crate::proofs::Staying::nodes_stay))]
pub fn nodes_stay()
    ensures { NodesStay }
{}

/// So it does through any calls none of which takes it: an inode then means the same file, directory or link before and after.
#[tactic(auto, using(crate::proofs::Staying::files_stay))]
pub fn files_stay()
    ensures { FilesStay }
{}
