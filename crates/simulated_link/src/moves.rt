//! What a driver that was started does at a step.

ghost use Rattle.std.specs.Prelude.{◌≡◌, ◌<◌, ◌≤◌, length, vec_len, vec_capacity, true, drop};
ghost use Rattle.std.specs.VecDeque.{deque_capacity};
ghost use Rattle.synchronous_driver.specs.Steps.{HandsOver};
ghost use Rattle.bdev.specs.Promises.{IsDriver};
ghost use Rattle.true_replies.specs.Events.{reply_of};
ghost use Rattle.simulated_link.specs.Disks.{SlotSteps, sent_at};
ghost use Rattle.simulated_link.specs.UnitView.{slot_of};

use crate::unit::Unit;
use bdev::{Accept, Answer, Step};
use media::Media;
use message::endpoint::{DISK_DRIVER, Endpoint};
use message::{BlockReply, BlockRequest};
use schedule::Sent;
use std::collections::VecDeque;
use synchronous_driver::local::LocalDriver;

/// A driver's answer, with its endpoint and place.
fn stamped(generation: u32, place: u32, answer: &Answer) -> Sent
    ensures { result ≡ record { reply = reply_of generation answer.now; place = place } }
{
    Sent {
        reply: BlockReply {
            from: Endpoint {
                slot: DISK_DRIVER,
                generation,
            },
            id: answer.id,
            outcome: answer.outcome,
            bytes: answer.bytes,
        },
        place,
    }
}

/// Hands the front of the line to the driver; a busy driver leaves it there.
fn hand_over<D: LocalDriver>(driver: &mut D, line: &mut VecDeque<BlockRequest>)
    ensures hands { HandsOver (D.state driver.old) line.old.items (D.state driver.new) line.new.items }
    ensures driver { IsDriver (D.state driver.new) }
    ensures few { length line.new.items ≤ length line.old.items }
    ensures room { deque_capacity line.new ≡ deque_capacity line.old }
{
    let _ready = driver.ready_here(0);
    let Some(front) = line.front() else {
        return;
    };
    let request = *front;
    match driver.accept_here(request) {
        Accept::Busy => {}
        Accept::Taken => drop_front(line),
        Accept::Old => drop_front(line),
    }
}

/// Takes the front off the line.
fn drop_front(line: &mut VecDeque<BlockRequest>)
    ensures rest { line.new.items ≡ drop 1 line.old.items }
    ensures room { deque_capacity line.new ≡ deque_capacity line.old }
{
    let _ = line.pop_front();
}

/// A live driver is handed the front of its line, and steps once.
pub(crate) fn step_unit<D: LocalDriver>(
    unit: &mut Unit<D>,
    media: &mut Media,
    generation: u32,
) -> Step
    requires { unit.old.live ≡ true }
    ensures { SlotSteps generation (slot_of D.state unit.old) media.old result (slot_of D.state unit.new) media.new }
{
    hand_over(&mut unit.driver, &mut unit.line);
    let step = unit.driver.step_here(media, generation);
    if matches!(&step, Step::Failed) {
        unit.live = false;
    }
    step
}

/// What a step answered is sent.
pub(crate) fn send(sent: &mut Vec<Sent>, generation: u32, place: u32, step: &Step)
    requires { vec_len sent.old < vec_capacity sent.old }
    ensures { sent.new.items ≡ sent_at place generation step.now sent.old.items }
{
    match step {
        Step::Done(answer) => sent.push_reserved(stamped(generation, place, answer)),
        Step::Working => {}
        Step::Idle => {}
        Step::Failed => {}
    }
}
