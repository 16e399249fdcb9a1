//! A run's record without its faults, which is the record of the file server: the server knows of no fault.

ghost use Rattle.std.specs.Prelude.{List};
ghost use Rattle.message.specs.declared.BlockReply.{BlockReply};
ghost use Rattle.message.specs.declared.Incoming.{Incoming};
ghost use Rattle.records.specs.Marks.{Mark};
ghost use Rattle.schedule.specs.Faultless.{FaultsChangeNothing, LeaveSameMark};

/// A record without its faults says the same of requests, the disk and the tree, and what holds of it holds of the record.
#[tactic(auto, using(crate::proofs::FaultlessLaws::faults_change_nothing))]
pub fn faults_change_nothing()
    ensures { (marks : List Mark) → FaultsChangeNothing marks }
{}

/// A message leaves the same mark in both.
#[tactic(auto, using(crate::proofs::FaultlessLaws::leave_same_mark))]
pub fn messages_leave_same_mark()
    ensures { (message : Incoming) (marks : List Mark) → LeaveSameMark message marks }
{}
