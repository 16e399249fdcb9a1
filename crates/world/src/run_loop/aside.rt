//! What is done at the link between two calls.

ghost use Rattle.std.specs.Prelude.{◌≡◌, ◌⊎◌, ◌<◌, ◌≤◌, ◌-◌, ◌∷◌, List, IfOk, OnOk, OnErr, length, true, false};
ghost use Rattle.records.specs.Opening.{Opening};
ghost use Rattle.records.specs.Marks.{Mark, Took};
ghost use Rattle.tree.specs.Answers.{answer_of};
ghost use Rattle.schedule.specs.LogView.{said, room_in};
ghost use Rattle.simulated_link.specs.StageView.{scene_of};
ghost use Rattle.simulated_link.specs.Kept.{with_next};
ghost use Rattle.simulated_link.specs.StateView.{run_of, RunTruth, Asides, Answers, HandsOut, left_of, starving};

use message::Incoming;
use schedule::Arrived;
use schedule::queue::take_first;
use simulated_link::RunLink;
use simulated_link::room::make_room;
use std::alloc::AllocError;
use synchronous_driver::local::LocalDriver;
use tree::Reply;

/// Runs the next event between two calls, or tells that a complaint gave the device up, if that is owed: the message that the server
/// is to be handed, if there is one. An error: no memory was found, and nothing was done but to mark the run so.
pub fn aside<D: LocalDriver>(link: &mut RunLink<'_, D>) -> Result<Option<Incoming>, AllocError>
    requires left { (link.old.owed ≡ true) ⊎ (link.old.next < length link.old.events.now) }
    requires live { link.old.log.over ≡ false }
    ensures asides { Asides (run_of D.state link.old) result (run_of D.state link.new) }
    ensures history { (said link.new.log).history ≡ (said link.old.log).history }
    ensures truth { (v : Opening) (marks : List Mark) → RunTruth v (scene_of D.state link.old.stage (said link.old.log)) marks
        → IfOk result (λ m. RunTruth v (scene_of D.state link.new.stage (said link.new.log)) (with_next m marks)) }
    ensures refused { OnErr result (run_of D.state link.new ≡ starving (run_of D.state link.old)) }
    ensures kept { (v : Opening) (marks : List Mark) → RunTruth v (scene_of D.state link.old.stage (said link.old.log)) marks
        → OnErr result (RunTruth v (scene_of D.state link.new.stage (said link.new.log)) marks) }
    ensures room { OnOk result (33 ≤ room_in link.new.log) }
    ensures budget { left_of link.new.log.over (length link.new.events.now - link.new.next) link.new.told
        ≤ left_of link.old.log.over (length link.old.events.now - link.old.next) link.old.told }
{
    if !make_room(&mut link.stage, &mut link.log, &mut link.queue, link.alloc) {
        link.starved = true;
        return Err(AllocError);
    }
    if link.owed {
        link.owed = false;
        link.told = true;
        link.log.note_handed(&Incoming::GaveUp);
        return Ok(Some(Incoming::GaveUp));
    }
    let message = link.run();
    if let Some(message) = &message {
        link.log.note_handed(message);
    }
    Ok(message)
}

/// A call was answered. An error: no memory was found, and nothing was done but to mark the run so.
pub fn took<'a, D: LocalDriver>(
    link: &mut RunLink<'a, D>,
    arrived: Arrived<'a>,
    reply: Reply,
) -> Result<(), AllocError>
    requires { link.old.log.over ≡ false }
    ensures answers { Answers (run_of D.state link.old) arrived.entry reply result (run_of D.state link.new) }
    ensures history { (said link.new.log).history ≡ (said link.old.log).history }
    ensures truth { (v : Opening) (marks : List Mark) → RunTruth v (scene_of D.state link.old.stage (said link.old.log)) marks
        → OnOk result (RunTruth v (scene_of D.state link.new.stage (said link.new.log))
        (Took arrived.entry.who arrived.entry.now arrived.entry.call (answer_of reply) ∷ marks)) }
    ensures refused { OnErr result (run_of D.state link.new ≡ starving (run_of D.state link.old)) }
    ensures kept { (v : Opening) (marks : List Mark) → RunTruth v (scene_of D.state link.old.stage (said link.old.log)) marks
        → OnErr result (RunTruth v (scene_of D.state link.new.stage (said link.new.log)) marks) }
    ensures room { OnOk result (33 ≤ room_in link.new.log) }
    ensures budget { left_of link.new.log.over (length link.new.events.now - link.new.next) link.new.told
        ≤ left_of link.old.log.over (length link.old.events.now - link.old.next) link.old.told }
{
    if !make_room(&mut link.stage, &mut link.log, &mut link.queue, link.alloc) {
        link.starved = true;
        return Err(AllocError);
    }
    link.log
        .note_answer(arrived.who, arrived.now, arrived.call, reply);
    Ok(())
}

/// The call that arrived first of those that wait, which waits no more; none where none waits.
pub fn next_call<'a, D: LocalDriver>(link: &mut RunLink<'a, D>) -> Option<Arrived<'a>>
    ensures hands { HandsOut (run_of D.state link.old) result (run_of D.state link.new) }
    ensures stage { link.new.stage ≡ link.old.stage }
    ensures log { link.new.log ≡ link.old.log }
{
    take_first(&mut link.queue)
}
