//! At which tick the next driver is started.

use crate::counted::each_counted;
use crate::replacements::{dying, first_asked};
use crate::setting::{Ending, Plan, SECTORS, filled_up, play, write_of};
use crate::watch::{Watch, await_count};
use bdev::Driver;
use channel_link::link::ChannelLink;
use message::Incoming;
use reissue::link::Link;
use std::sync::atomic::AtomicU64;
use std::sync::{Arc, Wait};
use std::test::*;
use std::time::Clock;

// The first driver is asked behind the first tick, and dies. Once it is gone one tick more passes.
#[derive(Drop)]
struct DiesInATick<R: Clock + Copy> {
    gate: Arc<Watch<R>>,
    gone: Arc<AtomicU64>,
}

impl<R: Wait + Clock + Copy + Send + Sync> Plan<R> for DiesInATick<R> {
    // The generation of the next driver, and how many ticks have passed.
    type Came = Option<(u32, u64)>;

    fn play(&mut self, link: &mut ChannelLink<R>) -> Option<(u32, u64)> {
        let _ = first_asked(link, &write_of(1, 0x11))?;
        await_count(&*self.gone, 1);
        self.gate.allow(2);
        let message = link.take();
        let ticks = self.gate.ticks_passed();
        match message {
            Incoming::Started(next) => Some((next.generation, ticks)),
            _ => None,
        }
    }
}

/// A driver that died since the last tick is replaced at the next one: its exit was reported, under the tick that was the last one then.
#[test]
fn replaced_at_the_next_tick(rt: HostRuntime) -> Result<(), Fail> {
    let alloc = rt.alloc();
    let gone = Arc::new(alloc, AtomicU64::new(0))?;
    let gate = Arc::new(alloc, Watch::ticking(rt))?;
    let plan = DiesInATick {
        gate: Arc::try_clone(&gate)?,
        gone: Arc::try_clone(&gone)?,
    };
    let mut drivers: Vec<Driver> = Vec::new(alloc);
    drivers.push(dying(alloc, 0)?)?;
    let drivers = each_counted(alloc, filled_up(alloc, drivers)?, &gone)?;
    let (came, _) = play(alloc, rt, SECTORS, drivers, &gate, plan, Ending::Stopped).ok_or(
        "not stopped",
    )?;
    assert_eq!(rt; came, Some((2, 2)));
    Ok(())
}
