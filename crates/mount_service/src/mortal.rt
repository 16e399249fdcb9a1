//! Drivers that die after so many requests, for a mount that is to go on while they do.

ghost use Rattle.std.specs.Prelude.{◌≡◌, ◌+◌, All, IfOk, length};
ghost use Rattle.media.specs.Table.{ranges_of};
ghost use Rattle.bdev.specs.DriverState.{fresh};
ghost use Rattle.modeldisk.specs.Script.{has_arm, inner_state};
ghost use Rattle.mount_service.specs.Mortal.{IsMortal, faults_by, setup_by};

use media::partition::Table;
use modeldisk::supply::setup_for;
use modeldisk::{Fault, FaultKind, Inner, ModelDriver, RamDriver, ScriptedDriver};
use reincarnate::policy::{Policy, Setup};
use std::alloc::{AllocError, Global};

/// When drivers die.
#[derive(Clone, Copy, Debug, PartialEq, Eq)]
pub enum Mortality {
    /// They don't.
    Never,
    /// Each dies in the request of this number among those that it takes, counted from 1, once one sector of it was moved.
    InRequest(u32),
    /// Each does when it is told to ([`Killing`](crate::killed::Killing)).
    WhenTold,
}

/// So many drivers and one more, each new, with the ranges of this table, and with an arm where a model is asked for.
pub fn mortal_drivers(
    alloc: Global,
    spares: u16,
    model: bool,
    mortality: Mortality,
    table: Table,
) -> Result<Vec<ScriptedDriver>, AllocError>
    ensures count { IfOk result (λ drivers. length drivers.items ≡ spares + 1) }
    ensures each { IfOk result (λ drivers. All (IsMortal model mortality table) drivers.items) }
{
    let mut drivers = Vec::with_capacity(alloc, usize::from(spares) + 1)?;
    for spare in 0..u32::from(spares) + 1 {
        drivers.push(mortal_driver(alloc, model, mortality, table)?)?;
    }
    Ok(drivers)
}

/// A new driver, which dies so.
fn mortal_driver(
    alloc: Global,
    model: bool,
    mortality: Mortality,
    table: Table,
) -> Result<ScriptedDriver, AllocError>
    ensures { IfOk result (IsMortal model mortality table) }
{
    let faults = faults_of(alloc, mortality)?;
    Ok(ScriptedDriver::new(inner(model, table), faults))
}

/// A new driver, which doesn't fail.
fn inner(model: bool, table: Table) -> Inner
    ensures state { inner_state result ≡ fresh (ranges_of table) }
    ensures arm { has_arm result ≡ model }
{
    if model {
        Inner::Model(ModelDriver::new(table, 0))
    } else {
        Inner::Ram(RamDriver::new(table))
    }
}

/// The script of a driver.
fn faults_of(alloc: Global, mortality: Mortality) -> Result<Vec<Fault>, AllocError>
    ensures { IfOk result (λ faults. faults.items ≡ faults_by mortality) }
{
    let mut faults = Vec::new(alloc);
    if let Mortality::InRequest(request) = mortality {
        faults.push(Fault {
            request,
            after: 1,
            kind: FaultKind::Die,
        })?;
    }
    Ok(faults)
}

/// The setup of a program for this minor. Where drivers die, each fault a tick after the one before it counts as a first one, so that the
/// device isn't given up while drivers are left.
pub fn mortal_setup(minor: u8, mortality: Mortality) -> Setup
    ensures { result ≡ setup_by minor mortality }
{
    let setup = setup_for(minor);
    match mortality {
        Mortality::Never => setup,
        Mortality::InRequest(_) | Mortality::WhenTold => Setup {
            minor: setup.minor,
            frames: setup.frames,
            policy: Policy {
                max_faults: setup.policy.max_faults,
                cap: setup.policy.cap,
                calm: 1,
                misses: setup.policy.misses,
            },
        },
    }
}
