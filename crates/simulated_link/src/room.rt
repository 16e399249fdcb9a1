//! Room for what the next event and the server's doings after it add.

ghost use Rattle.std.specs.Prelude.{◌≡◌, ◌<◌, ◌≤◌, Some, length, slice_get, false};
ghost use Rattle.std.specs.Bool.{OnTrue};
ghost use Rattle.std.specs.VecDeque.{deque_len, deque_capacity};
ghost use Rattle.schedule.specs.LogView.{said, room_in};
ghost use Rattle.simulated_link.specs.DisksView.{HasRoom};
ghost use Rattle.simulated_link.specs.StageView.{scene_of};

use crate::events::stage::Stage;
use schedule::{Arrived, Event, Log};
use std::alloc::Global;
use std::collections::VecDeque;
use synchronous_driver::local::LocalDriver;

/// Makes room for an event and what follows it; false where no memory was found, or the link has ended.
pub fn make_room<'a, D: LocalDriver>(
    stage: &mut Stage<D>,
    log: &mut Log<'a>,
    queue: &mut VecDeque<Arrived<'a>>,
    alloc: Global,
) -> bool
    ensures live { OnTrue result (log.old.over ≡ false) }
    ensures scene { scene_of D.state stage.new (said log.new) ≡ scene_of D.state stage.old (said log.old) }
    ensures log { OnTrue result (36 ≤ room_in log.new) }
    ensures over { log.new.over ≡ log.old.over }
    ensures drivers { OnTrue result (HasRoom stage.new.drivers) }
    ensures queue { OnTrue result (deque_len queue.new < deque_capacity queue.new) }
    ensures waiting { queue.new.items ≡ queue.old.items }
    ensures tick { stage.new.tick ≡ stage.old.tick }
{
    if log.over {
        return false;
    }
    if !log.make_room() {
        return false;
    }
    if queue.reserve(1).is_err() {
        return false;
    }
    stage.drivers.make_room(alloc).is_ok()
}

/// The event with this number.
#[tactic(auto, using(crate::proofs::MovingLaws::there))]
pub fn event_at<'a>(events: &'a [Event<'a>], next: usize) -> &'a Event<'a>
    requires { next < length events.now }
    ensures { slice_get events.now next ≡ Some result.now }
{
    &events[next]
}
