//! The reincarnation server over its supply of drivers.

ghost use Rattle.std.specs.Prelude.{◌≡◌, ◌<◌, ◌^◌, List, [], ◌∷◌, IfErr, IfOk, OnOk};
ghost use Rattle.reincarnate.specs.Laws.{tick_of};
ghost use Rattle.reincarnate.specs.Follows.{Follows};
ghost use Rattle.reincarnate.specs.Runs.{Added, Met, Turn};
ghost use Rattle.reincarnate.specs.Supply.{Decides, NewAnswers, with_driver};

use crate::policy::{Event, Policy};
use crate::watch::{Decision, Watch};
use crate::{Action, SupplyRefusal};
use bdev::Driver;
use std::alloc::{AllocError, Global};
use std::collections::VecDeque;
use std::marker::Model;

/// A supply of these drivers, in their order.
fn supply_of<D: Drop>(alloc: Global, drivers: Vec<D>) -> Result<VecDeque<D>, AllocError>
    ensures { IfOk result (λ supply. supply.items ≡ drivers.items) }
{
    drivers.into_iter().collect(alloc)
}

/// The reincarnation server of the disk driver, with the drivers that weren't started yet.
#[derive(Drop)]
pub struct Reincarnation<D = Driver> {
    watch: Watch,
    // The next one first.
    supply: VecDeque<D>,
}

impl<D> Model for Reincarnation<D> {
    ghost use Rattle.std.specs.Prelude.{length};
    ghost use Rattle.reincarnate.specs.Supply.{ReincarnationState, state_of};
    ghost use Rattle.reincarnate.specs.Known.{HasSpare};

    ghost Value = { ReincarnationState D };

    ghost view = { λ r. state_of r.watch r.supply.items };

    ghost invariant = { λ r. HasSpare r.watch.phase (length r.supply.items) };
}

impl<D: Drop> Reincarnation<D> {
    /// A reincarnation server over these drivers, the first of which is started at the first tick.
    ///
    /// `BadPolicy`: a number of the policy isn't in its range. `NoDriver`: else, where there is no driver. `OutOfMemory`: no
    /// memory was found for the supply. A refusal lets the drivers go.
    pub fn new(
        alloc: Global,
        policy: Policy,
        drivers: Vec<D>,
    ) -> Result<Reincarnation<D>, SupplyRefusal>
        ensures answers { NewAnswers policy drivers.items result }
        ensures follows { IfOk result (λ r. Follows drivers.items [] r) }
    {
        if !policy.is_allowed() {
            return Err(SupplyRefusal::BadPolicy);
        }
        if drivers.is_empty() {
            return Err(SupplyRefusal::NoDriver);
        }
        let Ok(supply) = supply_of(alloc, drivers) else {
            return Err(SupplyRefusal::OutOfMemory);
        };
        Ok(Reincarnation {
            watch: Watch::new(policy),
            supply,
        })
    }

    /// Adds a driver at the end of the supply, or hands it back where no memory was found for it.
    #[tactic(auto, using(crate::proofs::FollowLaws::follows_added))]
    pub fn add_spare(&mut self, driver: D) -> Result<(), D>
        ensures ok { OnOk result (self.new ≡ with_driver self.old driver) }
        ensures follows { (drivers : List D) (turns : List (Turn D))
            → Follows drivers turns self.old → OnOk result (Follows drivers (Added driver ∷ turns) self.new) }
        ensures refused { IfErr result (λ back. (back ≡ driver) × (self.new ≡ self.old)) }
    {
        match self.supply.push_back(driver) {
            Ok(()) => Ok(()),
            Err(refused) => Err(refused.value),
        }
    }

    /// What is to be done at this event, whose tick is below 2^48. It takes no memory.
    ///
    /// A fault of the driver that runs answers `WaitUntil` or `GiveUp`; a tick at which a start is awaited for it or for an
    /// earlier one answers `Start`, with the next driver of the supply. Everything else answers `Nothing`: events about any
    /// other endpoint, events while a start is awaited, and all events after `GiveUp`.
    pub fn on(&mut self, event: Event) -> Action<D>
        requires { tick_of event < 2 ^ 48 }
        ensures decides { Decides self.old event result self.new }
        ensures follows { (drivers : List D) (turns : List (Turn D))
            → Follows drivers turns self.old → Follows drivers (Met event result ∷ turns) self.new }
    {
        match self.watch.on(event, self.supply.len()) {
            Decision::Nothing => Action::Nothing,
            Decision::WaitUntil(tick) => Action::WaitUntil(tick),
            Decision::Start(endpoint) => match self.supply.pop_front() {
                Some(driver) => Action::Start(endpoint, driver),
                None => unreachable!(),
            },
            Decision::GiveUp => Action::GiveUp,
        }
    }
}
