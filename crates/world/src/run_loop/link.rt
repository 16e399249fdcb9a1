//! A link that a schedule moves: what is done at it between two calls.

ghost use Rattle.std.specs.Prelude.{◌≡◌, ◌⊎◌, ◌↔◌, ◌≤◌, ◌<◌, ◌∷◌, List, IfOk, OnOk, OnErr, length, option_map, true, false};
ghost use Rattle.records.specs.Marks.{Mark, Took};
ghost use Rattle.records.specs.Opening.{Opening};
ghost use Rattle.tree.specs.Answers.{answer_of};
ghost use Rattle.simulated_link.specs.Kept.{with_next};
ghost use Rattle.simulated_link.specs.StateView.{RunState, RunTruth, GoesOn, Asides, HandsOut, Answers, starving};
ghost use Rattle.schedule.specs.declared.arrived.Arrived.{Arrived as OfCall};

use crate::run_loop::aside;
use message::Incoming;
use reissue::Link;
use schedule::Arrived;
use simulated_link::RunLink;
use std::alloc::AllocError;
use synchronous_driver::local::LocalDriver;
use tree::Reply;

/// A link that a schedule moves, as contracts see it: `run` is the run as it stands, with its schedule, the calls that wait, and what was
/// noted.
pub trait Ran: Link {
    ghost run: { Self → RunState };

    // what was told to the link and what it gave is what was noted
    ghost tells: { (l : Self) → Self.Link.history l ≡ (run l).scene.noted.history };

    // what goes on in the link is what a server does at it
    ghost goes: { (a b : Self) → Self.Link.goes_on a b → GoesOn (run a) (run b) };

    // its guarantee is that of the run
    ghost guarantees: { (l : Self) (v : Opening) (marks : List Mark) → Self.Link.truth l v marks → RunTruth v (run l).scene marks };
}

/// A call that arrived, whatever it borrows from.
pub trait Arrival: Copy + Drop {
    // in the words of contracts
    ghost arrived: { Self → OfCall };

    /// Who calls, the time, and the call.
    fn as_arrived(&self) -> Arrived<'_>
        ensures { result ≡ arrived self.now };
}

/// A link that a schedule moves.
pub trait WorldLink: Ran + Drop {
    /// A call that arrived.
    type Waiting: Arrival;

    /// Whether a complaint gave the device up, which wasn't told yet.
    fn owes(&self) -> bool
        ensures { result ≡ (Self.Ran.run self.now).owed };

    /// Whether an event is left.
    fn has_event(&self) -> bool
        ensures { (result ≡ true) ↔ ((Self.Ran.run self.now).next < length (Self.Ran.run self.now).events) };

    /// How many calls wait.
    fn waiting(&self) -> u64
        ensures { result ≡ length (Self.Ran.run self.now).queue };

    /// Runs the next event between two calls, or tells that a complaint gave the device up, if that is owed: the message that the server
    /// is to be handed, if there is one. An error: no memory was found, and nothing was done but to mark the run so.
    fn aside(&mut self) -> Result<Option<Incoming>, AllocError>
        requires left { ((Self.Ran.run self.old).owed ≡ true)
            ⊎ ((Self.Ran.run self.old).next < length (Self.Ran.run self.old).events) }
        requires live { (Self.Ran.run self.old).over ≡ false }
        ensures asides { Asides (Self.Ran.run self.old) result (Self.Ran.run self.new) }
        ensures history { Self.Link.history self.new ≡ Self.Link.history self.old }
        ensures truth { (v : Opening) (marks : List Mark) → Self.Link.truth self.old v marks
            → IfOk result (λ m. Self.Link.truth self.new v (with_next m marks)) }
        ensures refused { OnErr result (Self.Ran.run self.new ≡ starving (Self.Ran.run self.old)) }
        ensures kept { (v : Opening) (marks : List Mark) → Self.Link.truth self.old v marks
            → OnErr result (Self.Link.truth self.new v marks) }
        ensures room { OnOk result (33 ≤ Self.Link.room self.new) }
        ensures budget { Self.Link.budget_left self.new ≤ Self.Link.budget_left self.old };

    /// The call that arrived first of those that wait, which waits no more; none where none waits.
    fn next_call(&mut self) -> Option<Self::Waiting>
        ensures hands { HandsOut (Self.Ran.run self.old) (option_map Self.Waiting.Arrival.arrived result) (Self.Ran.run self.new) }
        ensures history { Self.Link.history self.new ≡ Self.Link.history self.old }
        ensures truth { (v : Opening) (marks : List Mark) → Self.Link.truth self.old v marks → Self.Link.truth self.new v marks }
        ensures room { Self.Link.room self.old ≤ Self.Link.room self.new }
        ensures budget { Self.Link.budget_left self.new ≤ Self.Link.budget_left self.old };

    /// A call was answered. An error: no memory was found, and nothing was done but to mark the run so.
    fn took(&mut self, arrived: Self::Waiting, reply: Reply) -> Result<(), AllocError>
        requires { (Self.Ran.run self.old).over ≡ false }
        ensures answers { Answers (Self.Ran.run self.old) (Self.Waiting.Arrival.arrived arrived) reply result
            (Self.Ran.run self.new) }
        ensures history { Self.Link.history self.new ≡ Self.Link.history self.old }
        ensures truth { (v : Opening) (marks : List Mark) → Self.Link.truth self.old v marks
            → let call = Self.Waiting.Arrival.arrived arrived in OnOk result (Self.Link.truth self.new v
            (Took call.who call.now call.call (answer_of reply) ∷ marks)) }
        ensures refused { OnErr result (Self.Ran.run self.new ≡ starving (Self.Ran.run self.old)) }
        ensures kept { (v : Opening) (marks : List Mark) → Self.Link.truth self.old v marks
            → OnErr result (Self.Link.truth self.new v marks) }
        ensures room { OnOk result (33 ≤ Self.Link.room self.new) }
        ensures budget { Self.Link.budget_left self.new ≤ Self.Link.budget_left self.old };
}

impl<'a, D: LocalDriver> Ran for RunLink<'a, D> {
    ghost use Rattle.simulated_link.specs.StateView.{run_of};
    ghost use Rattle.std.specs.Prelude.{refl};

    ghost run = { λ l. run_of D.state l };

    ghost tells = { λ l. refl };

    ghost goes = { λ a b on. on };

    ghost guarantees = { λ l v marks kept. kept };
}

impl<'a> Arrival for Arrived<'a> {
    ghost arrived = { λ a. a };

    fn as_arrived(&self) -> Arrived<'_> {
        *self
    }
}

impl<'a, D: LocalDriver> WorldLink for RunLink<'a, D> {
    type Waiting = Arrived<'a>;

    fn owes(&self) -> bool {
        self.owed
    }

    fn has_event(&self) -> bool {
        self.next < self.events.len()
    }

    fn waiting(&self) -> u64 {
        self.queue.len() as u64
    }

    fn aside(&mut self) -> Result<Option<Incoming>, AllocError> {
        aside::aside(self)
    }

    fn next_call(&mut self) -> Option<Arrived<'a>> {
        aside::next_call(self)
    }

    fn took(&mut self, arrived: Arrived<'a>, reply: Reply) -> Result<(), AllocError> {
        aside::took(self, arrived, reply)
    }
}
