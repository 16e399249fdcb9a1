//! The drivers under the reincarnation server, and what each event of a schedule does.

ghost use Rattle.std.specs.Prelude.{◌≡◌, ◌<◌, ◌≤◌, ◌+◌, ◌^◌, ◌∷◌, None, IfOk, length, map, vec_len, vec_capacity};
ghost use Rattle.reincarnate.specs.declared.policy.Event.TheVariants.{Tick};
ghost use Rattle.reincarnate.specs.Watch.{driver as driver_of, new_watch, on};
ghost use Rattle.schedule.specs.Noted.{Noted};

use crate::drivers::Drivers;
use crate::events::ruling::{Ruling, exit};
use bdev::Step;
use media::Media;
use message::Incoming;
use message::endpoint::{DISK_DRIVER, Endpoint};
use records::marks::Cause;
use reincarnate::policy::Event as PolicyEvent;
use reincarnate::{Action, Reincarnation};
use schedule::{Event, Log};
use std::alloc::{AllocError, Global};
use synchronous_driver::local::LocalDriver;

/// The drivers, the reincarnation server that has the others, the tick, and the last beat: its driver's generation and its tick.
#[derive(Drop)]
pub struct Stage<D> {
    pub drivers: Drivers<D>,
    pub reincarnation: Reincarnation<D>,
    pub tick: u64,
    pub pulse: (u32, u32),
    pub ghost latest: { reincarnation.watch.generation ≡ drivers.media.generation },
    pub ghost within: { tick < 2 ^ 48 },
}

/// The disk driver of this generation.
fn driver(generation: u32) -> Endpoint
    ensures { result ≡ driver_of generation }
{
    Endpoint {
        slot: DISK_DRIVER,
        generation,
    }
}

/// The first driver of the supply, which a reincarnation server that was told nothing yet starts at tick 0.
#[tactic(auto, using(crate::proofs::Decided::starts_first))]
fn first_driver<D: Drop>(reincarnation: &mut Reincarnation<D>) -> D
    requires { reincarnation.old.watch ≡ new_watch (length reincarnation.old.supply) }
    ensures policy { reincarnation.new.policy ≡ reincarnation.old.policy }
    ensures watch { reincarnation.new.watch ≡ (on reincarnation.old.policy reincarnation.old.watch (Tick 0 (0, 0))).0 }
    ensures supply { reincarnation.old.supply ≡ result ∷ reincarnation.new.supply }
{
    match reincarnation.on(PolicyEvent::Tick(0, (0, 0))) {
        Action::Start(_, driver) => driver,
        Action::Nothing => unreachable!(),
        Action::WaitUntil(_) => unreachable!(),
        Action::GiveUp => unreachable!(),
    }
}

impl<D: LocalDriver> Stage<D> {
    ghost use Rattle.simulated_link.specs.Scene.{Opens, Exits, Ticks, StepsAt, DiesAt, Quietly, Occurs, beaten, delivered};
    ghost use Rattle.simulated_link.specs.StageView.{scene_of};
    ghost use Rattle.simulated_link.specs.DisksView.{HasRoom};
    ghost use Rattle.std.specs.Prelude.{slice_get};
    ghost use Rattle.schedule.specs.LogView.{said, room_in};
    ghost use Rattle.simulated_link.specs.Disks.{Hangs, Repeats};

    /// Before the first event, at tick 0: the first driver of the supply of a reincarnation server that was told nothing yet is started on
    /// the media, as generation 1. An error: no memory was found.
    pub fn new(
        alloc: Global,
        media: Media,
        reincarnation: Reincarnation<D>,
    ) -> Result<Stage<D>, AllocError>
        requires media { media.generation ≡ 0 }
        requires untold { reincarnation.watch ≡ new_watch (length reincarnation.supply) }
        ensures opens { IfOk result (λ s. (n : Noted) → Opens media reincarnation.policy reincarnation.watch
            (map D.state reincarnation.supply) n (scene_of D.state s n)) }
        ensures tick { IfOk result (λ s. s.tick ≡ 0) }
    {
        let mut reincarnation = reincarnation;
        let driver = first_driver(&mut reincarnation);
        Ok(Stage {
            drivers: Drivers::first(alloc, media, driver)?,
            reincarnation,
            tick: 0,
            pulse: (0, 0),
        })
    }

    /// The driver of this generation exited.
    fn exited(&mut self, log: &mut Log, generation: u32) -> Option<Incoming>
        requires { 0 < room_in log.old }
        ensures exits { Exits generation (scene_of D.state self.old (said log.old)) result (scene_of D.state self.new (said log.new)) }
        ensures room { room_in log.old ≤ room_in log.new + 1 }
        ensures over { log.new.over ≡ log.old.over }
        ensures tick { self.new.tick ≡ self.old.tick }
    {
        let about = driver(generation);
        match exit(&mut self.reincarnation, about, self.tick) {
            Ruling::Ignored => None,
            Ruling::Fault => {
                log.note_fault(about, Cause::Exit);
                None
            }
            Ruling::GivesUp => {
                log.note_fault(about, Cause::Exit);
                Some(Incoming::GaveUp)
            }
        }
    }

    /// A step of the driver of this generation, at the event with this number.
    pub fn step(&mut self, log: &mut Log, place: u32, generation: u32) -> Option<Incoming>
        requires log { 0 < room_in log.old }
        requires sent { vec_len self.old.drivers.sent < vec_capacity self.old.drivers.sent }
        ensures steps { StepsAt place generation (scene_of D.state self.old (said log.old)) result (scene_of D.state self.new
            (said log.new)) }
        ensures room { room_in log.old ≤ room_in log.new + 1 }
        ensures over { log.new.over ≡ log.old.over }
        ensures tick { self.new.tick ≡ self.old.tick }
    {
        match self.drivers.step(place, generation) {
            Some(Step::Failed) => self.exited(log, generation),
            Some(_) => None,
            None => None,
        }
    }

    /// The driver of this generation dies.
    pub fn die(
        &mut self,
        log: &mut Log,
        generation: u32,
        bytes: Option<[u8; 512]>,
    ) -> Option<Incoming>
        requires log { 0 < room_in log.old }
        ensures dies { DiesAt generation bytes (scene_of D.state self.old (said log.old)) result (scene_of D.state self.new
            (said log.new)) }
        ensures room { room_in log.old ≤ room_in log.new + 1 }
        ensures over { log.new.over ≡ log.old.over }
        ensures tick { self.new.tick ≡ self.old.tick }
    {
        if self.drivers.die(generation, bytes) {
            self.exited(log, generation)
        } else {
            None
        }
    }

    /// The n-th reply, as the server takes it.
    pub fn deliver(&self, n: u32) -> Option<Incoming>
        ensures { result ≡ delivered (slice_get self.now.drivers.sent.items n) }
    {
        let n = n as usize;
        if n < self.drivers.sent.len() {
            Some(Incoming::Reply(self.drivers.sent[n].reply))
        } else {
            None
        }
    }

    /// The n-th request that was posted goes again to the line of its driver.
    pub fn repeat(&mut self, log: &Log, n: u32)
        ensures quietly { Quietly (scene_of D.state self.old (said log.now)) None (scene_of D.state self.new (said log.now))
            (Repeats (slice_get (said log.now).posts n)) }
        ensures tick { self.new.tick ≡ self.old.tick }
    {
        if let Some(post) = log.post(n) {
            self.drivers
                .line_up_again(post.to.generation, &post.request);
        }
    }

    /// Tick by tick: the tick rises by one, and a current driver that lives and doesn't hang beats.
    fn beat(&mut self)
        requires { self.old.tick + 1 < 2 ^ 32 }
        ensures beaten { (n : Noted) → scene_of D.state self.new n ≡ beaten (scene_of D.state self.old n) }
        ensures drivers { self.new.drivers ≡ self.old.drivers }
        ensures reincarnation { self.new.reincarnation ≡ self.old.reincarnation }
        ensures tick { self.new.tick ≡ self.old.tick + 1 }
    {
        self.tick += 1;
        if self.drivers.current.live && !self.drivers.current.hung {
            self.pulse = (self.drivers.generation, self.tick as u32);
        }
    }

    /// A tick: the reincarnation server is told of it, with the pulse, and may start the next driver.
    pub fn pass_tick(&mut self, alloc: Global, log: &mut Log) -> Option<Incoming>
        requires log { 0 < room_in log.old }
        requires room { HasRoom self.old.drivers }
        requires ticks { self.old.tick + 1 < 2 ^ 32 }
        ensures ticks { Ticks (scene_of D.state self.old (said log.old)) result (scene_of D.state self.new (said log.new)) }
        ensures room { room_in log.old ≤ room_in log.new + 1 }
        ensures over { log.new.over ≡ log.old.over }
        ensures tick { self.new.tick ≡ self.old.tick + 1 }
    {
        self.beat();
        let current = driver(self.drivers.generation);
        match self
            .reincarnation
            .on(PolicyEvent::Tick(self.tick, self.pulse))
        {
            Action::Nothing => None,
            Action::WaitUntil(_) => {
                log.note_fault(current, Cause::Hung);
                None
            }
            Action::GiveUp => {
                log.note_fault(current, Cause::Hung);
                Some(Incoming::GaveUp)
            }
            Action::Start(endpoint, next) => {
                self.drivers.start(alloc, endpoint.generation, next);
                Some(Incoming::Started(endpoint))
            }
        }
    }

    /// What an event does to the drivers, the one with this number, and what message it brings. The calls that arrive wait elsewhere.
    pub fn run(
        &mut self,
        alloc: Global,
        log: &mut Log,
        place: u32,
        event: &Event,
    ) -> Option<Incoming>
        requires log { 0 < room_in log.old }
        requires room { HasRoom self.old.drivers }
        requires ticks { self.old.tick + 1 < 2 ^ 32 }
        ensures plays { Occurs place event.now (scene_of D.state self.old (said log.old)) result
            (scene_of D.state self.new (said log.new)) }
        ensures room { room_in log.old ≤ room_in log.new + 1 }
        ensures over { log.new.over ≡ log.old.over }
        ensures tick { self.new.tick ≤ self.old.tick + 1 }
    {
        match event {
            Event::Arrive(_, _, _) => None,
            Event::Flush => Some(Incoming::Flush),
            Event::Tick => self.pass_tick(alloc, log),
            Event::Step(generation) => self.step(log, place, *generation),
            Event::Die(generation, bytes) => self.die(log, *generation, *bytes),
            Event::Hang(generation) => {
                self.hang(log, *generation);
                None
            }
            Event::Deliver(n) => self.deliver(*n),
            Event::Repeat(n) => {
                self.repeat(log, *n);
                None
            }
        }
    }

    /// The driver of this generation hangs.
    fn hang(&mut self, log: &Log, generation: u32)
        ensures quietly { Quietly (scene_of D.state self.old (said log.now)) None (scene_of D.state self.new (said log.now))
            (Hangs generation) }
        ensures tick { self.new.tick ≡ self.old.tick }
    {
        self.drivers.hang(generation);
    }
}
