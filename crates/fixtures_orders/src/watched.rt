//! What tells a drawn gate who runs: the service's link and its drivers.

ghost use Rattle.std.specs.Prelude.{◌≡◌, ◌≤◌, List, [], IfNone, IfSome};
ghost use Rattle.records.specs.Marks.{Mark};
ghost use Rattle.records.specs.Opening.{Opening};
ghost use Rattle.records.specs.Told.{received};
ghost use Rattle.board.specs.Steady.{IsAside};

use bdev::{Accept, BlockDriver, Step};
use board::counting::steady::{Steady, Supplied};
use fixtures_drawn::chooser::{Note, TAKER};
use fixtures_drawn::drawn::Drawn;
use media::Media;
use message::endpoint::Endpoint;
use message::{BlockReply, BlockRequest, Incoming, Kind};
use modeldisk::ScriptedDriver;
use reissue::link::{Link, LinkRefusal};
use std::sync::{Arc, Wait};
use std::thread::yield_now;

/// A link that tells a gate what goes over it, and takes a message only once the gate lets it.
pub(crate) struct Watched<L: Link + Drop, R: Wait + Copy> {
    link: L,
    gate: Arc<Drawn<R>>,
}

impl<L: Link + Drop, R: Wait + Copy> Drop for Watched<L, R> {
    fn drop(self) {
        let Self { link, gate } = self;
        drop(link);
        gate.open();
    }
}

impl<L: Link + Drop, R: Wait + Copy> Watched<L, R> {
    /// This link, which tells this gate.
    pub(crate) fn new(link: L, gate: Arc<Drawn<R>>) -> Watched<L, R>
        ensures link { result.link ≡ link }
        ensures truth { (v : Opening) → L.truth link v [] → ⟦<Watched<L, R> as Link>⟧.truth result v [] }
    {
        Watched { link, gate }
    }
}

/// A number that tells of an answer: whose it is, to which request, and what it says.
fn number_of(reply: &BlockReply) -> u64 {
    let outcome = match reply.outcome {
        Ok(count) => u64::from(count),
        Err(_) => 1,
    };
    reply
        .id
        .wrapping_mul(64)
        .wrapping_add(u64::from(reply.from.generation))
        .wrapping_add(outcome << 32)
}

/// Tells a gate of a message.
fn tell<R: Wait + Copy>(gate: &Drawn<R>, message: &Incoming) {
    match message {
        Incoming::Reply(reply) => {
            gate.tell(Note::Answer(number_of(reply)));
        }
        Incoming::Started(endpoint) => {
            gate.tell(Note::Start(endpoint.generation));
        }
        _ => {}
    }
}

impl<L: Link + Drop, R: Wait + Copy> Link for Watched<L, R> {
    ghost history = { λ l. L.history l.link };

    ghost budget_left = { λ l. L.budget_left l.link };

    ghost room = { λ l. L.room l.link };

    ghost truth = { λ l v marks. L.truth l.link v marks };

    ghost goes_on = { λ l m. L.goes_on l.link m.link };

    fn post(&mut self, to: Endpoint, request: &BlockRequest) -> Result<(), LinkRefusal> {
        if request.kind == Kind::Write {
            self.gate.tell(Note::Writes);
        }
        let posted = self.link.post(to, request);
        self.gate
            .tell(Note::Posted(to.generation, request.id, posted.is_ok()));
        posted
    }

    fn complain(&mut self, about: Endpoint) {
        self.link.complain(about);
        self.gate.tell(Note::Complaint(about.generation));
    }

    fn take(&mut self) -> Incoming {
        self.gate.stand(TAKER);
        let message = self.link.take();
        tell(&self.gate, &message);
        message
    }

    fn take_into(&mut self, message: &mut Incoming) {
        self.gate.stand(TAKER);
        self.link.take_into(message);
        tell(&self.gate, message);
    }

    fn budget(&self) -> u64 {
        self.link.budget()
    }

    ghost stays = { λ l. L.stays l.link };

    ghost joins = { λ a b c first next. L.joins a.link b.link c.link first next };
}

/// A message that is about to come, once it has.
fn aside_soon<L: Steady, R: Wait>(rt: &R, link: &mut L) -> Option<Incoming>
    ensures told { L.history link.new ≡ L.history link.old }
    ensures budget { L.budget_left link.new ≤ L.budget_left link.old }
    ensures goes { L.goes_on link.old link.new }
    ensures message { IfSome result IsAside }
    ensures some { IfSome result (λ m. (v : Opening) (marks : List Mark) → L.truth link.old v marks
        → L.truth link.new v (received m marks)) }
    ensures none { IfNone result ((v : Opening) (marks : List Mark) → L.truth link.old v marks → L.truth link.new v marks) }
{
    for _ in rt.forever() {
        let message = link.aside();
        if message.is_some() {
            return message;
        }
        yield_now();
    }
    unreachable!()
}

impl<L: Steady + Drop, R: Wait + Copy> Steady for Watched<L, R> {
    fn aside(&mut self) -> Option<Incoming> {
        if !self.gate.tell(Note::Looks) {
            return None;
        }
        let message = aside_soon(&self.gate.handle(), &mut self.link);
        if let Some(message) = &message {
            tell(&self.gate, message);
        }
        message
    }

    ghost rests = { λ l. L.rests l.link };

    ghost flushes = { λ l. L.flushes l.link };

    ghost has_room = { λ l. L.has_room l.link };
}

impl<L: Supplied + Drop, R: Wait + Copy> Supplied for Watched<L, R> {
    ghost runs_on = { λ l policy supply. L.runs_on l.link policy supply };

    ghost keeps_on = { λ l m policy supply. L.keeps_on l.link m.link policy supply };
}

/// A driver that tells a gate when it takes a request, is through with one, and ends.
pub(crate) struct Telling<R: Wait + Copy> {
    driver: ScriptedDriver,
    generation: u32,
    gate: Arc<Drawn<R>>,
}

impl<R: Wait + Copy> Telling<R> {
    /// This driver, of the generation that it will have.
    pub(crate) fn new(driver: ScriptedDriver, generation: u32, gate: Arc<Drawn<R>>) -> Telling<R> {
        Telling {
            driver,
            generation,
            gate,
        }
    }
}

impl<R: Wait + Copy> Drop for Telling<R> {
    fn drop(self) {
        let Self {
            driver: _,
            generation,
            gate,
        } = self;
        gate.end_driver(generation);
    }
}

impl<R: Wait + Copy + Send + Sync> BlockDriver for Telling<R> {
    ghost use Rattle.modeldisk.specs.Script.{scripted_state};

    ghost state = { λ t. scripted_state t.driver };

    fn accept(&mut self, request: BlockRequest) -> Accept {
        self.gate.tell(Note::Taken(self.generation));
        self.driver.accept(request)
    }

    fn in_work(&self) -> Option<u32> {
        self.driver.in_work()
    }

    fn ready(&self, minor: u8) -> Option<(u32, u32)> {
        self.driver.ready(minor)
    }

    fn bad(&self) -> u64 {
        self.driver.bad()
    }

    fn step(&mut self, media: &mut Media, generation: u32) -> Step {
        let step = self.driver.step(media, generation);
        let is_done = matches!(&step, Step::Done(_));
        if is_done || matches!(&step, Step::Idle) {
            self.gate.tell(Note::Through(self.generation, is_done));
        }
        step
    }
}
