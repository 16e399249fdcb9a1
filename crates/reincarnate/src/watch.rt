//! What is remembered of the driver that runs and of its faults, and what is decided by it.

ghost use Rattle.std.specs.Prelude.{◌≡◌, ◌≤◌, ◌<◌, ◌-◌, ◌^◌, ℕ, min, true};
ghost use Rattle.reincarnate.specs.Policy.{IsAllowed};
ghost use Rattle.reincarnate.specs.Faults.{fault_number};
ghost use Rattle.reincarnate.specs.Watch.{on, on_fault, on_report, on_start, on_tick};
ghost use Rattle.reincarnate.specs.Laws.{is_running, tick_of};
ghost use Rattle.reincarnate.specs.Known.{HasSpare, Makes, is_waiting, known_at_first, watch_with};

use crate::policy::{Event, Policy};
use message::endpoint::{DISK_DRIVER, Endpoint, Slots};
use std::marker::Model;

/// What is decided at an event: an action without its driver.
#[derive(Clone, Copy)]
pub(crate) enum Decision {
    Nothing,
    WaitUntil(u64),
    Start(Endpoint),
    GiveUp,
}

/// A fault: the how-manieth it is of those that came soon after one another, and its tick.
#[derive(Clone, Copy)]
pub(crate) struct Fault {
    number: u32,
    tick: u64,
}

/// What goes on.
#[derive(Clone, Copy)]
pub(crate) enum Phase {
    /// The next start is awaited, for this tick.
    Waiting(u64),
    /// A driver runs at this endpoint, with the pulse at the last tick and the misses in a row.
    Running {
        endpoint: Endpoint,
        pulse: (u32, u32),
        missed: u32,
    },
    /// No driver is started any more.
    GivenUp,
}

/// All that is remembered, but for the drivers that are left.
#[derive(Drop)]
pub(crate) struct Watch {
    policy: Policy,
    slots: Slots,
    last_fault: Option<Fault>,
    phase: Phase,
}

impl Model for Watch {
    ghost use Rattle.reincarnate.specs.Known.{Known, known_of, IsSound};

    ghost Value = { Known };

    ghost view = { λ w. known_of w.policy w.slots w.last_fault w.phase };

    ghost invariant = { λ w. IsSound w.policy w.slots w.last_fault w.phase };
}

impl Watch {
    /// Nothing was started, and the first start is awaited for tick 0.
    pub(crate) fn new(policy: Policy) -> Watch
        requires { IsAllowed policy }
        ensures { result ≡ known_at_first policy }
    {
        Watch {
            policy,
            slots: Slots::new(),
            last_fault: None,
            phase: Phase::Waiting(0),
        }
    }

    /// Decides at an event, so many drivers being left.
    pub(crate) fn on(&mut self, event: Event, spares: usize) -> Decision
        requires spare { HasSpare self.old.phase spares }
        requires tick { tick_of event < 2 ^ 48 }
        ensures { Makes (on self.old.policy (watch_with self.old spares) event) self.old.policy spares result self.new }
    {
        match event {
            Event::Exit(endpoint, tick) => self.report(endpoint, tick, spares),
            Event::Complaint(endpoint, tick) => self.report(endpoint, tick, spares),
            Event::Tick(tick, pulse) => self.tick(tick, pulse, spares),
        }
    }

    /// An exit or a complaint: a fault where it is of the driver that runs.
    fn report(&mut self, about: Endpoint, tick: u64, spares: usize) -> Decision
        requires spare { HasSpare self.old.phase spares }
        requires tick { tick < 2 ^ 48 }
        ensures { Makes (on_report self.old.policy (watch_with self.old spares) self.old.phase about tick) self.old.policy spares result
            self.new }
    {
        let Phase::Running { endpoint, .. } = self.phase else {
            return Decision::Nothing;
        };
        if endpoint != about {
            return Decision::Nothing;
        }
        self.fault(endpoint.generation, tick, spares)
    }

    /// A tick: the awaited start, a beat or a miss.
    fn tick(&mut self, tick: u64, pulse: (u32, u32), spares: usize) -> Decision
        requires spare { HasSpare self.old.phase spares }
        requires tick { tick < 2 ^ 48 }
        ensures { Makes (on_tick self.old.policy (watch_with self.old spares) self.old.phase tick pulse) self.old.policy spares result
            self.new }
    {
        match self.phase {
            Phase::Waiting(until) => {
                if tick < until {
                    return Decision::Nothing;
                }
                self.start(pulse)
            }
            Phase::Running {
                endpoint,
                pulse: last,
                missed,
            } => {
                let missed = if pulse == last { missed + 1 } else { 0 };
                if missed == self.policy.misses {
                    return self.fault(endpoint.generation, tick, spares);
                }
                self.phase = Phase::Running {
                    endpoint,
                    pulse,
                    missed,
                };
                Decision::Nothing
            }
            Phase::GivenUp => Decision::Nothing,
        }
    }

    /// Starts the next driver; the pulse is the one at its start.
    fn start(&mut self, pulse: (u32, u32)) -> Decision
        requires { is_waiting self.old.phase ≡ true }
        ensures { (spares : ℕ) → Makes (on_start (watch_with self.old spares) pulse) self.old.policy spares result self.new }
    {
        let Ok(endpoint) = self.slots.start(DISK_DRIVER) else {
            unreachable!()
        };
        self.phase = Phase::Running {
            endpoint,
            pulse,
            missed: 0,
        };
        Decision::Start(endpoint)
    }

    /// A fault of the driver that runs, which has this generation.
    fn fault(&mut self, generation: u32, tick: u64, spares: usize) -> Decision
        requires running { is_running self.old.phase ≡ true }
        requires generation { generation ≡ self.old.generation }
        requires tick { tick < 2 ^ 48 }
        ensures { Makes (on_fault self.old.policy (watch_with self.old spares) tick) self.old.policy spares result self.new }
    {
        let number = self.number(tick);
        self.last_fault = Some(Fault { number, tick });
        if number > self.policy.max_faults || spares == 0 || generation == u32::MAX {
            self.phase = Phase::GivenUp;
            return Decision::GiveUp;
        }
        let until = tick + wait(self.policy.cap, number);
        self.phase = Phase::Waiting(until);
        Decision::WaitUntil(until)
    }

    /// The number of a fault at this tick.
    fn number(&self, tick: u64) -> u32
        requires { is_running self.now.phase ≡ true }
        ensures value { result ≡ fault_number self.now.policy.calm self.now.fault tick }
        ensures first { 1 ≤ result }
    {
        match self.last_fault {
            Some(earlier) if tick < earlier.tick + u64::from(self.policy.calm) => {
                earlier.number + 1
            }
            _ => 1,
        }
    }
}

/// How many ticks the next start waits after a fault with this number: twice as many after each, up to the cap.
fn wait(cap: u32, number: u32) -> u64
    requires first { 1 ≤ number }
    requires last { number ≤ 32 }
    ensures { result ≡ min (2 ^ (number - 1)) cap }
{
    u64::from(cap.min(1 << (number - 1)))
}
