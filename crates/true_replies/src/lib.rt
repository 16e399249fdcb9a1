//! Over drivers that keep the interface, the replies that a file server takes are true.
//!
//! A run is seen between two events: the media, the driver that was started last, its line, the replies that
//! drivers sent, and the record. Its events are those of drivers and of the server at its link: a step of the
//! running driver or of one that was replaced, a request handed over, a death that tears a sector, a start, a
//! post, a reply delivered as late and as often as one likes. Nothing else is known of them, and of a driver
//! no more than its interface promises.
#![tactic(auto)]

ghost use Rattle.records.specs.Opening.{Opening, contents_at};
ghost use Rattle.true_replies.specs.State.{State, Invariant};
ghost use Rattle.true_replies.specs.Events.{IsOnMedia, IsOpening, Next, Run, RunIsTrue, opening_media};

/// Every run from an opening: the record is well formed, each good reply to a read that counted holds what the
/// disk held, the media hold the acknowledged disk at every sector that isn't unsure, and what was handed in at
/// every sector outside the volume.
#[tactic(auto, using(crate::proofs::Keeps::run_is_true))]
pub fn replies_are_true()
    ensures { (v : Opening) (x y : State) → IsOnMedia v → IsOpening v x → Run v x y → RunIsTrue v y }
{}

/// What holds between two events holds after the next one.
#[tactic(auto, using(crate::proofs::Keeps::opened_keeps))]
pub fn each_event_keeps()
    ensures { (v : Opening) (x y : State) → Invariant v (contents_at v) (opening_media v) x → Next v x y
        → Invariant v (contents_at v) (opening_media v) y }
{}
