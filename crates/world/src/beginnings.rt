//! What an exact run begins with.

ghost use Rattle.world.specs.FirstEvents.{RunsHaveBeginnings};

/// An exact run begins with an exact run of each beginning of its schedule.
#[tactic(auto, using(crate::proofs::FirstEvents::runs_have_beginnings))]
pub fn runs_have_beginnings()
    ensures { RunsHaveBeginnings }
{}
