//! Laws of legal records and sessions, each a function whose contract is the law.

ghost use Rattle.std.specs.Prelude.{List};
ghost use Rattle.layout.specs.declared.Geometry.{Geometry};
ghost use Rattle.records.specs.Marks.{Mark};
ghost use Rattle.records.specs.Disk.{Contents};
ghost use Rattle.records.specs.Lives.{StillServes};
ghost use Rattle.records.specs.LegalLaws.{BeginningsAreLegal, OnlyCallsMoveTree, GivenUpStays, NoMemoryLeaves, SyncedIsHeld, SettledIsHeld, WithoutFrames};
ghost use Rattle.records.specs.LegalLaws.{OwnCallsGrow, OwnCallsAreByItsUser, NewSessionIsSession};

use crate::legal::Serve;

/// A legal record has legal beginnings.
#[tactic(auto, using(crate::proofs::Legality::beginnings_are_legal))]
pub fn beginnings_are_legal()
    ensures { BeginningsAreLegal }
{}

/// Calls alone move the tree: no message, no request and no fault does.
#[tactic(auto, using(crate::proofs::Legality::only_calls_move_tree))]
pub fn only_calls_move_tree()
    ensures { OnlyCallsMoveTree }
{}

/// Once the device is given up each call is answered EIO, and the tree stays.
#[tactic(auto, using(crate::proofs::Legality::given_up_stays))]
pub fn given_up_stays()
    ensures { GivenUpStays }
{}

/// A read or readdir that is refused for want of memory leaves the tree.
#[tactic(auto, using(crate::proofs::Legality::no_memory_leaves))]
pub fn no_memory_leaves()
    ensures { NoMemoryLeaves }
{}

/// After a sync that answered ok nothing is unsure, and the disk alone holds the tree.
#[tactic(auto, using(crate::proofs::Legality::synced_is_held))]
pub fn synced_is_held()
    ensures { SyncedIsHeld }
{}

/// While calls only look since a sync that answered ok, and as long as no write is issued after the last of them, nothing is unsure, and the
/// disk alone holds the tree.
#[tactic(auto, using(crate::proofs::Settling::settled_is_held))]
pub fn settled_is_held()
    ensures { SettledIsHeld }
{}

/// A server without frames would read back the disk, and where each unsure place has a frame nothing is unsure then.
pub fn without_frames()
    ensures { (g : Geometry) (image : Contents) (marks : List Mark) → WithoutFrames g image marks }
{}

/// A session's calls stay in the record, in their order.
pub fn own_calls_grow()
    ensures { OwnCallsGrow }
{}

/// A session's own calls are all made by the user and group that it was made for.
pub fn own_calls_are_by_its_user()
    ensures { (g : Geometry) (image : Contents) → OwnCallsAreByItsUser g image }
{}

/// What always holds of a session holds when it is made.
pub fn new_session_is_session()
    ensures { NewSessionIsSession }
{}

/// From its opening or mounting on, after every list of calls and messages and over any link, a server's record is well formed;
/// over true replies it is legal, and while the link hasn't ended and the device isn't given up the tree now would be read back.
pub fn still_serves<S: Serve>()
    ensures { StillServes S S.serving }
{}
