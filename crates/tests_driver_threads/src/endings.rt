//! The threads behind a link end, whatever their drivers do.

use crate::counted::{Counted, each_counted};
use crate::setting::{DRIVERS, Ending, Plan, SECTORS, filled_up, play, write_of};
use crate::watch::{Watch, await_count};
use bdev::Driver;
use channel_link::link::ChannelLink;
use media::partition::Table;
use message::Incoming;
use modeldisk::{Fault, FaultKind, Inner, RamDriver, ScriptedDriver};
use reissue::link::Link;
use std::alloc::{AllocError, Global};
use std::process::Abort;
use std::sync::atomic::{AtomicU64, Ordering};
use std::sync::{Arc, Wait};
use std::test::*;
use std::thread::Threads;
use std::time::Clock;

// Asks the first driver, and leaves it at work once it has come to its gate for so many steps: whether it was asked.
#[derive(Drop)]
struct LeftAtWork<R: Clock + Copy> {
    gate: Arc<Watch<R>>,
    steps: u64,
}

impl<R: Wait + Clock + Copy + Send + Sync> Plan<R> for LeftAtWork<R> {
    type Came = bool;

    fn play(&mut self, link: &mut ChannelLink<R>) -> bool {
        let Incoming::Started(first) = link.take() else {
            return false;
        };
        let is_asked = link.post(first, &write_of(1, 0x11)).is_ok();
        if is_asked {
            self.gate.await_come(self.steps);
        }
        is_asked
    }
}

fn is_zero(image: &[u8]) -> bool {
    image.iter().all(|byte| *byte == 0)
}

// The threads are stopped while the first driver is held, until the drivers that weren't started are dropped. It takes no step then, and
// its thread is joined.
#[test]
fn stopped_while_held(rt: HostRuntime) -> Result<(), Fail> {
    let alloc = rt.alloc();
    let gone = Arc::new(alloc, AtomicU64::new(0))?;
    let gate = Arc::new(alloc, Watch::holding(rt, Arc::try_clone(&gone)?))?;
    let plan = LeftAtWork {
        gate: Arc::try_clone(&gate)?,
        steps: 1,
    };
    let drivers = each_counted(alloc, filled_up(alloc, Vec::new(alloc))?, &gone)?;
    let (came, image) = play(alloc, rt, SECTORS, drivers, &gate, plan, Ending::Stopped).ok_or(
        "not stopped",
    )?;
    assert!(rt; came && is_zero(&image));
    assert_eq!(rt; gate.passed(), 1);
    assert_eq!(rt; gone.load(Ordering::SeqCst), 33);
    Ok(())
}

// Drivers of which the first one works on its first request for ever.
fn never_done(alloc: Global, gone: &Arc<AtomicU64>) -> Result<Vec<Counted<Driver>>, AllocError> {
    let mut faults: Vec<Fault> = Vec::new(alloc);
    faults.push(Fault {
        request: 1,
        after: 0,
        kind: FaultKind::Hang,
    })?;
    let inner = Inner::Ram(RamDriver::new(Table::whole(SECTORS)));
    let first: Driver = Box::new(alloc, ScriptedDriver::new(inner, faults))?;
    let mut drivers: Vec<Driver> = Vec::new(alloc);
    drivers.push(first)?;
    each_counted(alloc, filled_up(alloc, drivers)?, gone)
}

#[test]
fn stopped_at_work(rt: HostRuntime) -> Result<(), Fail> {
    let alloc = rt.alloc();
    let gone = Arc::new(alloc, AtomicU64::new(0))?;
    let gate = Arc::new(alloc, Watch::ticking(rt))?;
    let plan = LeftAtWork {
        gate: Arc::try_clone(&gate)?,
        steps: 100,
    };
    let drivers = never_done(alloc, &gone)?;
    let (came, image) = play(alloc, rt, SECTORS, drivers, &gate, plan, Ending::Stopped).ok_or(
        "not stopped",
    )?;
    assert!(rt; came && is_zero(&image));
    assert_eq!(rt; gone.load(Ordering::SeqCst), 33);
    Ok(())
}

// The threads are let go while the first driver works: they end by themselves.
#[test]
fn let_go_at_work(rt: HostRuntime) -> Result<(), Fail> {
    let alloc = rt.alloc();
    let gone = Arc::new(alloc, AtomicU64::new(0))?;
    let gate = Arc::new(alloc, Watch::ticking(rt))?;
    let plan = LeftAtWork {
        gate: Arc::try_clone(&gate)?,
        steps: 100,
    };
    let drivers = never_done(alloc, &gone)?;
    let (came, _) = play(alloc, rt, SECTORS, drivers, &gate, plan, Ending::LetGo).ok_or(
        "not let go",
    )?;
    assert!(rt; came);
    await_count(&*gone, 33);
    Ok(())
}

// Nobody asks the drivers for anything; the first message is taken or none is.
#[derive(Clone, Copy, Drop)]
struct Idles {
    takes: bool,
}

impl<R: Wait + Copy> Plan<R> for Idles {
    type Came = bool;

    fn play(&mut self, link: &mut ChannelLink<R>) -> bool {
        !self.takes || matches!(link.take(), Incoming::Started(_))
    }
}

fn ends_idle<R: Threads + Wait + Abort + Clock + Copy + Send + Sync + 'static>(
    alloc: Global,
    rt: R,
    takes: bool,
) -> Result<(), Fail> {
    let gone = Arc::new(alloc, AtomicU64::new(0))?;
    let gate = Arc::new(alloc, Watch::ticking(rt))?;
    let drivers = each_counted(alloc, filled_up(alloc, Vec::new(alloc))?, &gone)?;
    let (came, image) = play(
        alloc,
        rt,
        SECTORS,
        drivers,
        &gate,
        Idles { takes },
        Ending::Stopped,
    )
    .ok_or("not stopped")?;
    assert!(rt; came && is_zero(&image));
    assert_eq!(rt; gone.load(Ordering::SeqCst), 33);
    Ok(())
}

#[test]
fn stopped_idle(rt: HostRuntime) -> Result<(), Fail> {
    ends_idle(rt.alloc(), rt, true)?;
    ends_idle(rt.alloc(), rt, false)
}
