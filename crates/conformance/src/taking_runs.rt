//! What a whole run keeps of what its drivers took and answered, each a law of the definitions.

ghost use Rattle.conformance.specs.TookLaws.{ReadyAreNew, RunsGiveTook, RunsKeepReplies, RunsKeepTook, TookIsKept};

/// Drivers that are ready for a volume took nothing yet.
pub fn ready_are_new()
    ensures { ReadyAreNew }
{}

/// What stands with a driver was issued to it: what it took last, what it works on, and each request on its line.
pub fn took_is_kept()
    ensures { TookIsKept }
{}

/// So it is of each driver at each moment of a run.
pub fn runs_give_took()
    ensures { RunsGiveTook }
{}

/// Each driver that was started took nothing, or last a request that was issued to it; the one in work is that one.
pub fn runs_keep_took()
    ensures { RunsKeepTook }
{}

/// The replies of each driver are those that it gave as it stands: one for each id that it has done with, in the order of the ids, and as
/// many that aren't good as it counts.
pub fn runs_keep_replies()
    ensures { RunsKeepReplies }
{}
