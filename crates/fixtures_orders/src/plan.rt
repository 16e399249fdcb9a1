//! What a number draws: how the threads are chosen, what goes wrong, and what the sessions do.

use crate::watched::Telling;
use errno::Errno;
use fixtures::whole;
use fixtures_drawn::chooser::SUPPLY;
use fixtures_drawn::drawn::Drawn;
use fixtures_drawn::draws::Draws;
use fixtures_drawn::temper::{FAILING, Temper};
use media::partition::Table;
use modeldisk::{Fault, FaultKind, Inner, RamDriver, ScriptedDriver};
use reincarnate::policy::{Policy, Setup};
use std::alloc::{AllocError, Global};
use std::sync::{Arc, Wait};

/// How many requests the first driver takes at most until its fault comes, and each of the next ones.
const FIRST: u32 = 60;

const NEXT: u32 = 12;

/// What a number draws.
#[derive(Clone, Copy)]
pub(crate) struct Plan {
    pub(crate) temper: Temper,
    /// What goes wrong in the first drivers.
    pub(crate) faults: [Option<Fault>; FAILING],
    /// How many missed heartbeats in a row are a fault.
    pub(crate) misses: u32,
    /// By which the threads are chosen.
    pub(crate) choices: Draws,
    /// By which each session's deeds are drawn.
    pub(crate) deeds: [Draws; 2],
}

/// What goes wrong in a driver, if anything does.
fn drawn_fault(draws: &mut Draws, most: u32) -> Option<Fault> {
    if draws.one_in(4) {
        return None;
    }
    let kind = match draws.below(6) {
        0 => FaultKind::Short,
        1 => FaultKind::Error(Errno::EIO),
        _ => FaultKind::Die,
    };
    Some(Fault {
        request: draws.below(most).saturating_add(1),
        after: draws.below(4),
        kind,
    })
}

impl Plan {
    /// What this number draws.
    pub(crate) fn of(number: u64) -> Plan {
        let mut draws = Draws::new(number);
        let mut faults = [None; FAILING];
        let mut most = FIRST;
        for place in faults.iter_mut() {
            *place = drawn_fault(&mut draws, most);
            most = NEXT;
        }
        Plan {
            temper: Temper::of(&mut draws),
            faults,
            misses: draws.below(11).saturating_add(6),
            choices: Draws::new(number ^ (1 << 40)),
            deeds: [
                Draws::new(number ^ (2 << 40)),
                Draws::new(number ^ (3 << 40)),
            ],
        }
    }

    /// The service's: the whole image is the volume, in few frames. No number of faults gives the device up while there are drivers.
    pub(crate) fn setup(&self) -> Setup {
        Setup {
            frames: 16,
            policy: Policy {
                max_faults: 32,
                cap: 1,
                calm: 1,
                misses: self.misses,
            },
            ..whole()
        }
    }

    /// The same without a fault.
    pub(crate) fn calm(&self) -> Plan {
        Plan {
            faults: [None; FAILING],
            ..*self
        }
    }

    // The driver of this number, of so many sectors, with its fault.
    fn driver(
        &self,
        alloc: Global,
        sectors: u32,
        number: usize,
    ) -> Result<ScriptedDriver, AllocError> {
        let mut script = Vec::new(alloc);
        if let Some(Some(fault)) = self.faults.get(number) {
            script.push(*fault)?;
        }
        let inner = Inner::Ram(RamDriver::new(Table::whole(sectors)));
        Ok(ScriptedDriver::new(inner, script))
    }

    /// The drivers, of so many sectors, which tell a gate.
    pub(crate) fn supply<R: Wait + Copy>(
        &self,
        alloc: Global,
        sectors: u32,
        gate: &Arc<Drawn<R>>,
    ) -> Result<Vec<Telling<R>>, AllocError> {
        let mut all = Vec::new(alloc);
        for number in 0..SUPPLY {
            let driver = self.driver(alloc, sectors, number)?;
            let generation = (number as u32).saturating_add(1);
            all.push(Telling::new(driver, generation, Arc::try_clone(gate)?))?;
        }
        Ok(all)
    }
}
