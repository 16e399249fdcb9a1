//! What the link's guarantee goes on through, each a law of the definitions.

ghost use Rattle.simulated_link.specs.Moments.{RunsEndNeeding};
ghost use Rattle.simulated_link.specs.Waiting.{ServersHandNone, AsidesHandNone, OneIsHandedOut, ItIsAnswered};
ghost use Rattle.simulated_link.specs.Laws.{RepliesAreTrue, MediaAreHeld, RunsKeepTruth, MediaAreHeldThroughout, ServersLeadOn, AsidesLeadOn, CallsLeadOn, AnswersLeadOn, ServersTellTruly, AsidesTellTruly, ServersEndRightly};

/// In each record of which the guarantee holds the replies are true.
#[tactic(auto, using(crate::proofs::Guarantee::replies_true))]
pub fn replies_are_true()
    ensures { RepliesAreTrue }
{}

/// The media hold what the record says of the disk, at each sector of the volume that isn't unsure, and what was handed in outside of it.
#[tactic(auto, using(crate::proofs::Guarantee::media_held))]
pub fn media_are_held()
    ensures { MediaAreHeld }
{}

/// A run by the rules keeps the guarantee, while its record is well formed.
pub fn runs_keep_truth()
    ensures { RunsKeepTruth }
{}

/// So the media hold what the record says at each moment on the way to one whose record is well formed.
pub fn media_are_held_throughout()
    ensures { MediaAreHeldThroughout }
{}

/// After whatever a server does at the link: the schedule stays, no event is run twice, no more is left to do, and the events that were
/// noted are still those of the schedule.
#[tactic(auto, using(crate::proofs::Leading::servers_lead_on))]
pub fn servers_lead_on()
    ensures { ServersLeadOn }
{}

/// So it is after what is done between two calls; where something is done, less is left to do.
#[tactic(auto, using(crate::proofs::Leading::asides_lead_on))]
pub fn asides_lead_on()
    ensures { AsidesLeadOn }
{}

/// And after a call is handed out.
#[tactic(auto, using(crate::proofs::Leading::calls_lead_on))]
pub fn calls_lead_on()
    ensures { CallsLeadOn }
{}

/// And after its answer is noted.
#[tactic(auto, using(crate::proofs::Leading::answers_lead_on))]
pub fn answers_lead_on()
    ensures { AnswersLeadOn }
{}

/// Whatever a server does at the link hands no call out and answers none: the calls that arrived are still those that wait, those that were
/// handed out and those that were answered, in their order.
#[tactic(auto, using(crate::proofs::Waits::servers_hand_none))]
pub fn servers_hand_none()
    ensures { ServersHandNone }
{}

/// Nor does what is done between two calls.
#[tactic(auto, using(crate::proofs::Waits::asides_hand_none))]
pub fn asides_hand_none()
    ensures { AsidesHandNone }
{}

/// The call that is handed out is the first that waits.
#[tactic(auto, using(crate::proofs::Waits::one_is_handed_out))]
pub fn one_is_handed_out()
    ensures { OneIsHandedOut }
{}

/// Its answer is that of a call that was handed out.
#[tactic(auto, using(crate::proofs::Waits::it_is_answered))]
pub fn it_is_answered()
    ensures { ItIsAnswered }
{}

/// That a complaint gave the device up was told only where the record says that it was given up; so it stays, whatever a server does at the
/// link.
#[tactic(auto, using(crate::proofs::Telling::servers_tell_truly))]
pub fn servers_tell_truly()
    ensures { ServersTellTruly }
{}

/// The link ends only once each event was run and nothing is owed, or for want of memory.
#[tactic(auto, using(crate::proofs::Running::servers_end_rightly))]
pub fn servers_end_rightly()
    ensures { ServersEndRightly }
{}

/// Where the link has ended in a run by the rules, the server answers a call and needs a message, and the device isn't given up.
#[tactic(auto, using(crate::proofs::Needing::runs_end_needing))]
pub fn runs_end_needing()
    ensures { RunsEndNeeding }
{}

/// And through what is done between two calls.
#[tactic(auto, using(crate::proofs::Telling::asides_tell_truly))]
pub fn asides_tell_truly()
    ensures { AsidesTellTruly }
{}
