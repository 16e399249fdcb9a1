//! What events keep, and what a server does within them, each a law of the definitions.

ghost use Rattle.conformance.specs.EventLaws.{EventsAreDone, StartsAreKept, HungAreKept, FlushesAreKept, GivingUpIsKept, AnswersAreKept, ExitsAreKept, DriversAreKept, SlotsAreKept};

/// Each event of a run does one of a few things to the drivers and the reincarnation server, and leaves the marks of that.
#[tactic(auto, using(crate::proofs::Events::event_done))]
pub fn events_are_done()
    ensures { EventsAreDone }
{}

/// At each event drivers are started exactly where the policy and the events before say.
pub fn starts_are_kept()
    ensures { StartsAreKept }
{}

/// Drivers are found to be hung exactly where the policy and the events before say.
pub fn hung_are_kept()
    ensures { HungAreKept }
{}

/// A flush is a Flush event's.
pub fn flushes_are_kept()
    ensures { FlushesAreKept }
{}

/// The device is given up in the group of a fault that gives it up, once; in the last group that may be owed.
pub fn giving_up_is_kept()
    ensures { GivingUpIsKept }
{}

/// At each event those replies are answered that are delivered there, were sent earlier, and count.
pub fn answers_are_kept()
    ensures { AnswersAreKept }
{}

/// A running driver that dies has one exit, and one that steps has one only where it failed; there are no others.
pub fn exits_are_kept()
    ensures { ExitsAreKept }
{}

/// The drivers are those that were handed in, in their order, and the one that runs hasn't failed.
pub fn drivers_are_kept()
    ensures { DriversAreKept }
{}

/// A driver that lives hasn't ended, and one that has failed did so at a step of its own.
pub fn slots_are_kept()
    ensures { SlotsAreKept }
{}
