//! What a whole run keeps, and what justifies it, each a law of the definitions.

ghost use Rattle.conformance.specs.Acting.{RunsKeepActs};
ghost use Rattle.conformance.specs.Leaving.{RunsKeepWaits};
ghost use Rattle.conformance.specs.Sending.{RunsKeepSteps};
ghost use Rattle.conformance.specs.Whole.{RunsAreWhole};

/// At each event of a run calls are finished and requests issued only where the event, or an earlier mark of its group, handed the server
/// something.
pub fn runs_keep_acts()
    ensures { RunsKeepActs }
{}

/// At each event of a run that stands still or has ended calls are left only while a request is open or a start is awaited, and not after
/// giving up; those taken so far are the first that arrived, in their order.
pub fn runs_keep_waits()
    ensures { RunsKeepWaits }
{}

/// Each reply of a run stands at a step of its driver, which was live then, had been issued a request with this id, and
/// moved no more than its steps can.
pub fn runs_keep_steps()
    ensures { RunsKeepSteps }
{}

/// A run that was run out is justified, at each of its events and by what stands at its end.
pub fn runs_are_whole()
    ensures { RunsAreWhole }
{}
