//! What marks beside the media are good for.

ghost use Rattle.shared_media.specs.Marking.{AgreesOn, MarkedAgain, TakenAfterSteps};

/// An image that agrees with the media but in marked units does so after any number of steps of drivers.
pub fn agreement_stays()
    ensures { AgreesOn }
{}

/// Whatever steps of drivers come between two takings of changes: what is taken last makes an image that agreed with the media but in marked
/// units theirs, unit for unit.
#[tactic(auto, using(crate::proofs::Sequences::taken_after_steps))]
pub fn taken_after_steps()
    ensures { TakenAfterSteps }
{}

/// Where changes that were taken weren't kept and their units are marked again, whatever steps came between, an image that agreed with the
/// media but in marked units does so still.
pub fn marked_again_is_all()
    ensures { MarkedAgain }
{}
