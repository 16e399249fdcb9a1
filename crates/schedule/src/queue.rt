//! The queue in which calls wait, the first one first.

ghost use Rattle.std.specs.Prelude.{◌≡◌, ◌<◌, ◌++◌, drop, slice_get};
ghost use Rattle.std.specs.VecDeque.{deque_len, deque_capacity};
ghost use Rattle.schedule.specs.ArrivingCalls.{calls_of};

use crate::Event;
use crate::arrived::Arrived;
use std::collections::VecDeque;

/// The call that an event brings waits behind the others; an event that brings none leaves the queue as it is.
pub fn wait<'a>(queue: &mut VecDeque<Arrived<'a>>, event: &Event<'a>)
    requires { deque_len queue.old < deque_capacity queue.old }
    ensures { queue.new.items ≡ queue.old.items ++ calls_of event.now }
{
    if let Event::Arrive(who, now, call) = event {
        queue.push_back_reserved(Arrived {
            who: *who,
            now: *now,
            call: *call,
        });
    }
}

/// The call that arrived first of those that wait, which waits no more; none where none waits.
pub fn take_first<'a>(queue: &mut VecDeque<Arrived<'a>>) -> Option<Arrived<'a>>
    ensures first { result ≡ slice_get queue.old.items 0 }
    ensures others { queue.new.items ≡ drop 1 queue.old.items }
{
    queue.pop_front()
}
