//! The link of a run before its first event.

ghost use Rattle.std.specs.Prelude.{◌≡◌, ◌≤◌, ◌<◌, ◌^◌, ◌∷◌, [], All, IfOk, length, map};
ghost use Rattle.reincarnate.specs.Watch.{driver, new_watch};
ghost use Rattle.records.specs.Marks.{Started};
ghost use Rattle.records.specs.Opening.{Opening};
ghost use Rattle.synchronous_driver.specs.Inline.{IsReady};
ghost use Rattle.true_replies.specs.Events.{IsOnMedia, opening_media};
ghost use Rattle.schedule.specs.LogView.{room_in};
ghost use Rattle.simulated_link.specs.StateView.{IsOpened, RunTruth, run_of};
ghost use Rattle.world.specs.ServerRuns.{IsFresh};

use media::Media;
use reincarnate::Reincarnation;
use reincarnate::policy::Setup;
use schedule::Event;
use simulated_link::RunLink;
use std::alloc::{AllocError, Global};
use synchronous_driver::local::LocalDriver;

/// The link of a run before its first event, on these media, with these drivers. An error: no memory was found.
pub fn link_of<'a, D: LocalDriver>(
    alloc: Global,
    media: Media,
    setup: &Setup,
    supply: Vec<D>,
    events: &'a [Event<'a>],
) -> Result<RunLink<'a, D>, AllocError>
    requires media { media.generation ≡ 0 }
    requires few { length events.now < 2 ^ 32 }
    ensures fresh { IfOk result (λ p. IsFresh events.now (length media.sectors) (run_of D.state p)) }
    ensures opened { IfOk result (λ p. IsOpened media setup.now.policy (new_watch (length (map D.state supply.items)))
        (map D.state supply.items)
        events.now (run_of D.state p)) }
    ensures truth { IfOk result (λ p. (v : Opening) → IsOnMedia v → media ≡ opening_media v
        → All (IsReady v) (map D.state supply.items)
        → RunTruth v (run_of D.state p).scene (Started (driver 1) ∷ [])) }
    ensures room { IfOk result (λ p. 33 ≤ room_in p.log) }
{
    let Ok(reincarnation) = Reincarnation::new(alloc, setup.policy, supply) else {
        return Err(AllocError);
    };
    RunLink::new(alloc, media, reincarnation, events)
}
