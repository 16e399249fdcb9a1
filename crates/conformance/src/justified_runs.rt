//! What a whole run keeps, each a law of the definitions.

ghost use Rattle.conformance.specs.RunLaws.{RunsKeepStarts, RunsKeepHung, RunsKeepFlushes, RunsKeepGivingUp, RunsKeepAnswers, RunsKeepExits, RunsAreJustified, RunsKeepComplaints, RunsKeepAfterFault, RunsKeepOrder, RunsKeepAll, RunsKeepFailures};
ghost use Rattle.conformance.specs.Shown.{RunsShowEvents};

/// At each event of a run drivers are started exactly where the policy and the events before say.
pub fn runs_keep_starts()
    ensures { RunsKeepStarts }
{}

/// Drivers are found to be hung exactly where the policy and the events before say.
pub fn runs_keep_hung()
    ensures { RunsKeepHung }
{}

/// Each Flush event has one flush, and no other event any.
pub fn runs_keep_flushes()
    ensures { RunsKeepFlushes }
{}

/// The device is given up in the group of a fault that gives it up, once; in the last group that may be owed.
pub fn runs_keep_giving_up()
    ensures { RunsKeepGivingUp }
{}

/// At each event those replies are answered that are delivered there, were sent earlier, and count.
pub fn runs_keep_answers()
    ensures { RunsKeepAnswers }
{}

/// A running driver that dies has one exit, and one that steps has one only where it failed; there are no others.
pub fn runs_keep_exits()
    ensures { RunsKeepExits }
{}

/// From its opening on, a run is justified in all of this, whatever the server does at its link.
pub fn runs_are_justified()
    ensures { RunsAreJustified }
{}

/// A complaint follows exactly each answer of the running driver that isn't good, once the server owes none.
pub fn runs_keep_complaints()
    ensures { RunsKeepComplaints }
{}

/// The device is given up only after its fault: right after an exit or missed heartbeats; after a complaint while a start is awaited, and
/// at most one call was finished.
pub fn runs_keep_after_fault()
    ensures { RunsKeepAfterFault }
{}

/// At each event the calls taken so far are the first that arrived, in their order.
pub fn runs_keep_order()
    ensures { RunsKeepOrder }
{}

/// All of this together, at each moment of a run from its opening.
pub fn runs_keep_all()
    ensures { RunsKeepAll }
{}

/// A driver that has failed did so at a step of its own.
pub fn runs_keep_failures()
    ensures { RunsKeepFailures }
{}

/// All that justifies the events of a run that was run out.
pub fn runs_show_events()
    ensures { RunsShowEvents }
{}
