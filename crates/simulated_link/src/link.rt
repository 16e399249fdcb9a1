//! The drivers that a schedule moves, as the server's link.

ghost use Rattle.std.specs.Prelude.{◌≡◌, ◌<◌, ◌≤◌, ◌+◌, ◌-◌, List, Some, None, IfSome, length, false, not, ◌||◌, ◌&&◌};
ghost use Rattle.std.specs.VecDeque.{deque_len, deque_capacity};
ghost use Rattle.records.specs.Opening.{Opening};
ghost use Rattle.records.specs.Marks.{Mark};

use crate::events::ruling::complain;
use crate::room::{event_at, make_room};
use crate::run::RunLink;
use message::endpoint::Endpoint;
use message::{BlockRequest, Incoming};
use reissue::link::{Link, LinkRefusal, TrueLink};
use schedule::queue::wait;
use synchronous_driver::local::LocalDriver;

impl<'a, D: LocalDriver> RunLink<'a, D> {
    ghost use Rattle.schedule.specs.LogView.{said, room_in};
    ghost use Rattle.simulated_link.specs.DisksView.{HasRoom};
    ghost use Rattle.simulated_link.specs.Kept.{with_next};
    ghost use Rattle.simulated_link.specs.StateView.{run_of, RunsEvent, Advances, ComesToEnd, RunTruth, GoesOn, left_of};

    /// Runs the next event: what message it brings, if any.
    pub fn run(&mut self) -> Option<Incoming>
        requires left { self.old.next < length self.old.events.now }
        requires live { self.old.log.over ≡ false }
        requires paid { self.old.owed ≡ false }
        requires log { 1 < room_in self.old.log }
        requires drivers { HasRoom self.old.stage.drivers }
        requires queue { deque_len self.old.queue < deque_capacity self.old.queue }
        ensures plays { RunsEvent (run_of D.state self.old) result (run_of D.state self.new) }
        ensures room { room_in self.old.log ≤ room_in self.new.log + 2 }
        ensures over { self.new.log.over ≡ self.old.log.over }
    {
        let event = event_at(self.events, self.next);
        let place = self.next as u32;
        self.next += 1;
        self.log.note_event(event);
        wait(&mut self.queue, event);
        self.stage.run(self.alloc, &mut self.log, place, event)
    }

    #[tactic(auto, using(crate::proofs::MovingLaws::advanced, crate::proofs::MovingLaws::advanced_more))]
    /// Runs events until one brings a message; none, if each was run or no memory was found.
    fn advance(&mut self) -> Option<Incoming>
        requires live { self.old.log.over ≡ false }
        requires paid { self.old.owed ≡ false }
        requires log { 36 ≤ room_in self.old.log }
        requires drivers { HasRoom self.old.stage.drivers }
        requires queue { deque_len self.old.queue < deque_capacity self.old.queue }
        ensures came { IfSome result (λ m. Advances (run_of D.state self.old) (Some m) (run_of D.state self.new)) }
        ensures ends { result ≡ None → ComesToEnd (run_of D.state self.old) (run_of D.state self.new) }
        ensures room { IfSome result (λ m. 34 ≤ room_in self.new.log) }
        ensures next { IfSome result (λ m. self.old.next < self.new.next) }
        ensures over { self.new.log.over ≡ false }
    {
        while self.next < self.events.len() {
            if let Some(message) = self.run() {
                return Some(message);
            }
            if !make_room(&mut self.stage, &mut self.log, &mut self.queue, self.alloc) {
                self.starved = true;
                return None;
            }
        }
        None
    }
}

/// Whether that the device was given up is owed, after a ruling.
fn owes(owed: bool, gives_up: bool, told: bool, over: bool) -> bool
    ensures { result ≡ (owed || (gives_up && not told && not over)) }
{
    owed || (gives_up && !told && !over)
}

impl<'a, D: LocalDriver> Link for RunLink<'a, D> {
    ghost use Rattle.schedule.specs.LogView.{said as said_in, room_in as room_left};
    ghost use Rattle.simulated_link.specs.StageView.{scene_of};
    ghost use Rattle.simulated_link.specs.StateView.{RunTruth as IsRunTruth, left_of as left_by, GoesOn as HasGoneOn, run_of as played};
    ghost use Rattle.simulated_link.specs.Goes.{goes_stays, goes_joins};

    ghost history = { λ l. (said_in l.log).history };

    ghost budget_left = { λ l. left_by l.log.over (length l.events.now - l.next) l.told };

    ghost room = { λ l. room_left l.log };

    ghost truth = { λ l v marks. IsRunTruth v (scene_of D.state l.stage (said_in l.log)) marks };

    ghost goes_on = { λ l m. HasGoneOn (played D.state l) (played D.state m) };

    fn post(&mut self, to: Endpoint, request: &BlockRequest) -> Result<(), LinkRefusal> {
        match self.stage.drivers.line_up(to, request) {
            Ok(()) => {
                self.log.note_post(to, request);
                Ok(())
            }
            Err(refusal) => {
                self.log.note_refused(to, request);
                Err(refusal)
            }
        }
    }

    fn complain(&mut self, about: Endpoint) {
        let ruling = complain(&mut self.stage.reincarnation, about, self.stage.tick);
        self.owed = owes(self.owed, ruling.gives_up(), self.told, self.log.over);
        self.log.note_complaint(about, ruling.is_fault());
    }

    #[tactic(auto, using(crate::proofs::MovingLaws::ended_true, crate::proofs::MovingLaws::true_of))]
    fn take(&mut self) -> Incoming {
        let over = self.log.over;
        if over {
            return Incoming::End;
        }
        if !make_room(&mut self.stage, &mut self.log, &mut self.queue, self.alloc) {
            self.starved = true;
            self.log.end();
            return Incoming::End;
        }
        if self.owed {
            self.owed = false;
            self.told = true;
            self.log.note_received(&Incoming::GaveUp);
            return Incoming::GaveUp;
        }
        match self.advance() {
            Some(message) => {
                self.log.note_received(&message);
                message
            }
            None => {
                self.log.end();
                Incoming::End
            }
        }
    }

    fn budget(&self) -> u64 {
        if self.log.over {
            return 0;
        }
        let left = (self.events.len() - self.next) as u64;
        if self.told { left } else { left + 1 }
    }

    ghost stays = { λ l. goes_stays (played D.state l) };

    ghost joins = { λ a b c first next. goes_joins (played D.state a) (played D.state b) (played D.state c) first next };
}

impl<'a, D: LocalDriver> TrueLink for RunLink<'a, D> {
    ghost use Rattle.simulated_link.specs.Goes.{replies_of_run};

    ghost replies_are_true = { λ l v marks kept. replies_of_run v _ marks kept };
}
