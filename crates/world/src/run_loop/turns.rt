//! Turns between two calls, until nothing is left to do or a call is cut.

ghost use Rattle.std.specs.Prelude.{◌≡◌, ◌⊎◌, ◌≤◌, ◌<◌, ◌+◌, ◌^◌, length, if◌then◌else◌, IfOk, IfSome, OnOk, OnErr, None, option_map, true, false};
ghost use Rattle.simulated_link.specs.StateView.{work_left, HandsOut, IsSpent};
ghost use Rattle.simulated_link.specs.Moments.{Resting, Answering};
ghost use Rattle.tree.specs.declared.Call.{Call};
ghost use Rattle.simulated_link.specs.Laws.{IsSound};
ghost use Rattle.world.specs.Runs.{RunsOn, Awaits, Notes, IsLive, IsIdle, IsNext, RunsOne, AnswersTo, ComesTo, EndsAs, doing_of, doing_after};
ghost use Rattle.world.specs.Ends.{RunsOut};

use crate::run_loop::course::Course;
use crate::run_loop::{Arrival, WorldLink};
use file_server::{Ending, FileServer};
use message::Incoming;
use std::alloc::AllocError;
use tree::Reply;

/// The next event is run at the link of a server, or what is owed is told.
fn advance<L: WorldLink, S: FileServer<L>>(server: &mut S) -> Result<Option<Incoming>, AllocError>
    requires left { ((L.Ran.run (S.line server.old)).owed ≡ true)
        ⊎ ((L.Ran.run (S.line server.old)).next < length (L.Ran.run (S.line server.old)).events) }
    requires live { (L.Ran.run (S.line server.old)).over ≡ false }
    requires ready { S.is_ready server.old }
    ensures awaits { IfOk result (λ m. Awaits (S.Serve.serving server.old) (S.Serve.serving server.new)
        (L.Link.truth (S.line server.old)) (L.Link.truth (S.line server.new)) (L.Ran.run (S.line server.old))
        (L.Ran.run (S.line server.new)) m) }
    ensures ready { OnOk result (S.is_ready server.new) }
    ensures room { OnOk result (33 ≤ L.Link.room (S.line server.new)) }
    ensures absorbed { S.absorbed server.new ≡ S.absorbed server.old }
    ensures starved { OnErr result ((L.Ran.run (S.line server.new)).starved ≡ true) }
{
    server.link_mut().aside()
}

/// The next event between two calls is run, or what is owed is told, and the server is handed the message that came. An error: no memory
/// was found.
pub fn run_event<L: WorldLink, S: FileServer<L>>(server: &mut S) -> Result<(), AllocError>
    requires left { ((L.Ran.run (S.line server.old)).owed ≡ true) ⊎ IsNext (L.Ran.run (S.line server.old)) }
    requires idle { IsIdle (S.Serve.serving server.old) (L.Ran.run (S.line server.old)) }
    requires ready { S.is_ready server.old }
    requires few { S.absorbed server.old < 2 ^ 48 }
    ensures ready { OnOk result (S.is_ready server.new) }
    ensures runs { OnOk result (RunsOn (S.Serve.serving server.old) (S.Serve.serving server.new)
        (L.Link.truth (S.line server.old)) (L.Link.truth (S.line server.new)) (L.Ran.run (S.line server.old))
        (L.Ran.run (S.line server.new)) Resting Resting) }
    ensures idle { OnOk result (IsIdle (S.Serve.serving server.new) (L.Ran.run (S.line server.new))) }
    ensures one { OnOk result (RunsOne (L.Ran.run (S.line server.old)) (L.Ran.run (S.line server.new))) }
    ensures absorbed { OnOk result (S.absorbed server.new ≤ S.absorbed server.old + 1) }
    ensures starved { OnErr result ((L.Ran.run (S.line server.new)).starved ≡ true) }
{
    if let Some(message) = advance(server)? {
        server.absorb(message);
    }
    Ok(())
}

/// The answer to a call is noted.
fn note_answer<L: WorldLink, S: FileServer<L>>(
    server: &mut S,
    arrived: L::Waiting,
    reply: Reply,
) -> Result<(), AllocError>
    requires ready { S.is_ready server.old }
    requires live { (L.Ran.run (S.line server.old)).over ≡ false }
    ensures ready { OnOk result (S.is_ready server.new) }
    ensures noted { OnOk result (Notes (S.Serve.serving server.old) (S.Serve.serving server.new)
        (L.Link.truth (S.line server.old)) (L.Link.truth (S.line server.new)) (L.Ran.run (S.line server.old))
        (L.Ran.run (S.line server.new)) (L.Waiting.Arrival.arrived arrived) reply) }
    ensures absorbed { S.absorbed server.new ≡ S.absorbed server.old }
    ensures starved { OnErr result ((L.Ran.run (S.line server.new)).starved ≡ true) }
{
    server.link_mut().took(arrived, reply)
}

/// A call that was handed out: the server answers it, or its link ends in it. An error: no memory was found.
pub fn answer<L: WorldLink, S: FileServer<L>>(
    server: &mut S,
    arrived: L::Waiting,
) -> Result<Course, AllocError>
    requires ready { S.is_ready server.old }
    requires knows { S.knows (L.Waiting.Arrival.arrived arrived).call }
    requires handed { IsLive (Answering (L.Waiting.Arrival.arrived arrived)) (S.Serve.serving server.old)
        (L.Ran.run (S.line server.old)) }
    ensures ready { OnOk result (S.is_ready server.new) }
    ensures runs { IfOk result (λ c. RunsOn (S.Serve.serving server.old) (S.Serve.serving server.new)
        (L.Link.truth (S.line server.old)) (L.Link.truth (S.line server.new)) (L.Ran.run (S.line server.old))
        (L.Ran.run (S.line server.new)) (Answering (L.Waiting.Arrival.arrived arrived))
        (doing_after c (L.Waiting.Arrival.arrived arrived))) }
    ensures course { IfOk result (λ c. AnswersTo c (L.Waiting.Arrival.arrived arrived) (S.Serve.serving server.new)
        (L.Ran.run (S.line server.new))) }
    ensures absorbed { OnOk result (S.absorbed server.new ≡ S.absorbed server.old) }
    ensures starved { OnErr result ((L.Ran.run (S.line server.new)).starved ≡ true) }
{
    let asked = arrived.as_arrived();
    let mut reply = Reply::Done;
    match server.call(asked.who, asked.now, &asked.call, &mut reply) {
        Ending::Answered => {
            note_answer(server, arrived, reply)?;
            Ok(Course::More)
        }
        Ending::Cut => Ok(Course::Cut),
    }
}

/// The call that arrived first of those that wait, if one does, where nothing is owed.
fn next_call<L: WorldLink, S: FileServer<L>>(server: &mut S) -> Option<L::Waiting>
    requires ready { S.is_ready server.old }
    requires idle { IsIdle (S.Serve.serving server.old) (L.Ran.run (S.line server.old)) }
    requires paid { (L.Ran.run (S.line server.old)).owed ≡ false }
    ensures ready { S.is_ready server.new }
    ensures runs { RunsOn (S.Serve.serving server.old) (S.Serve.serving server.new)
        (L.Link.truth (S.line server.old)) (L.Link.truth (S.line server.new)) (L.Ran.run (S.line server.old))
        (L.Ran.run (S.line server.new)) Resting (doing_of (option_map L.Waiting.Arrival.arrived result)) }
    ensures hands { HandsOut (L.Ran.run (S.line server.old)) (option_map L.Waiting.Arrival.arrived result)
        (L.Ran.run (S.line server.new)) }
    ensures live { IsLive (doing_of (option_map L.Waiting.Arrival.arrived result)) (S.Serve.serving server.new)
        (L.Ran.run (S.line server.new)) }
    ensures absorbed { S.absorbed server.new ≡ S.absorbed server.old }
{
    server.link_mut().next_call()
}

/// One turn between two calls: what is owed is told, or a call that waits is answered, or, where none does, the next event is run.
fn turn<L: WorldLink, S: FileServer<L>>(server: &mut S) -> Result<Course, AllocError>
    requires ready { S.is_ready server.old }
    requires few { S.absorbed server.old < 2 ^ 48 }
    requires knows { (call : Call) → S.knows call }
    requires idle { IsIdle (S.Serve.serving server.old) (L.Ran.run (S.line server.old)) }
    ensures ready { OnOk result (S.is_ready server.new) }
    ensures course { IfOk result (λ c. ComesTo c (S.Serve.serving server.old) (S.Serve.serving server.new)
        (L.Link.truth (S.line server.old)) (L.Link.truth (S.line server.new)) (L.Ran.run (S.line server.old))
        (L.Ran.run (S.line server.new))) }
    ensures absorbed { OnOk result (S.absorbed server.new ≤ S.absorbed server.old + 1) }
    ensures starved { OnErr result ((L.Ran.run (S.line server.new)).starved ≡ true) }
{
    if server.link().owes() {
        run_event(server)?;
        return Ok(Course::More);
    }
    if let Some(arrived) = next_call(server) {
        let course = answer(server, arrived)?;
        return Ok(course);
    }
    if server.link().has_event() {
        run_event(server)?;
        return Ok(Course::More);
    }
    Ok(Course::Done)
}

/// A run to its end: the schedule is run, and the calls that arrive in it are answered in their order, each once the one before it is;
/// whether a call was cut. An error: no memory was found.
pub fn turns<L: WorldLink, S: FileServer<L>>(server: &mut S) -> Result<bool, AllocError>
    requires ready { S.is_ready server.old }
    requires few { S.absorbed server.old + work_left (L.Ran.run (S.line server.old)) < 2 ^ 48 }
    requires knows { (call : Call) → S.knows call }
    requires idle { IsIdle (S.Serve.serving server.old) (L.Ran.run (S.line server.old)) }
    ensures ends { IfOk result (λ cut. EndsAs cut (S.Serve.serving server.old) (S.Serve.serving server.new)
        (L.Link.truth (S.line server.old)) (L.Link.truth (S.line server.new)) (L.Ran.run (S.line server.old))
        (L.Ran.run (S.line server.new))) }
    ensures starved { OnErr result ((L.Ran.run (S.line server.new)).starved ≡ true) }
{
    loop {
        match turn(server)? {
            Course::More => {}
            Course::Done => return Ok(false),
            Course::Cut => return Ok(true),
        }
    }
}

/// How many calls wait, where each event was run and nothing is owed.
fn left_waiting<L: WorldLink, S: FileServer<L>>(server: &S) -> Option<u64>
    ensures spent { IfSome result (λ n. IsSpent (L.Ran.run (S.line server.now))) }
    ensures waiting { IfSome result (λ n. n ≡ length (L.Ran.run (S.line server.now)).queue) }
    ensures none { result ≡ None → IsSpent (L.Ran.run (S.line server.now)) → ⊥ }
{
    let link = server.link();
    if link.has_event() {
        return None;
    }
    if link.owes() {
        return None;
    }
    Some(link.waiting())
}

/// How many calls have no answer: those that wait, and the one that was cut, if one was.
fn unanswered_calls(cut: bool, waiting: u64) -> u64
    requires { waiting < 2 ^ 48 }
    ensures { result ≡ (if cut then waiting + 1 else waiting) }
{
    if cut { waiting + 1 } else { waiting }
}

/// Runs a schedule out, from before its first event: how many calls of those that arrived have no answer. An error: no memory was found.
///
/// Each event is run, in its order, and each call that arrives is begun, in its order, once the one before it was answered and what was
/// owed was told, before the next event; the last one may be cut, where the link has ended. Then the replies are those of the file tree,
/// and the media hold what the record says.
pub fn run_out<L: WorldLink, S: FileServer<L>>(server: &mut S) -> Result<u64, AllocError>
    requires ready { S.is_ready server.old }
    requires few { S.absorbed server.old + work_left (L.Ran.run (S.line server.old)) < 2 ^ 48 }
    requires knows { (call : Call) → S.knows call }
    requires idle { IsIdle (S.Serve.serving server.old) (L.Ran.run (S.line server.old)) }
    requires sound { IsSound (L.Ran.run (S.line server.old)) }
    ensures out { IfOk result (λ unanswered. RunsOut (S.Serve.serving server.old) (S.Serve.serving server.new)
        (L.Link.truth (S.line server.old)) (L.Ran.run (S.line server.old)) (L.Ran.run (S.line server.new)) unanswered) }
    ensures starved { OnErr result ((L.Ran.run (S.line server.new)).starved ≡ true) }
{
    let cut = turns(server)?;
    let Some(waiting) = left_waiting(server) else {
        return Err(AllocError);
    };
    Ok(unanswered_calls(cut, waiting))
}
