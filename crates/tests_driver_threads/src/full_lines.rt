//! Lines that are full: what has no room there is kept.

use crate::requests::posted_until_full;
use crate::setting::{Ending, Plan, SECTORS, filled_up, play, request_at, write_of};
use crate::watch::Watch;
use channel_link::channel::bounded;
use channel_link::link::ChannelLink;
use channel_link::messages::Order;
use channel_link::order_line::OrderLine;
use message::endpoint::Endpoint;
use message::{BlockRequest, Incoming};
use reissue::link::Link;
use std::sync::atomic::{AtomicU64, Ordering};
use std::sync::{Arc, Wait};
use std::test::*;
use std::time::Clock;

// How many reports the reincarnation server's line holds.
const REPORTS: u32 = 64;

// The most messages that a plan takes for a late answer: 33 starts, and a few answers.
const MESSAGES: u32 = 40;

// Between two ticks the reincarnation server's line is filled by complaints about nobody, and there is one more, about the first driver.
// Which driver is started next, once that was told and a tick has passed.
#[derive(Drop)]
struct ComplainsAtLast<R: Clock + Copy> {
    gate: Arc<Watch<R>>,
}

impl<R: Wait + Clock + Copy + Send + Sync> Plan<R> for ComplainsAtLast<R> {
    type Came = Option<u32>;

    fn play(&mut self, link: &mut ChannelLink<R>) -> Option<u32> {
        let Incoming::Started(first) = link.take() else {
            return None;
        };
        let nobody = Endpoint {
            slot: first.slot,
            generation: 0,
        };
        for _ in 0..REPORTS {
            link.complain(nobody);
        }
        link.complain(first);
        self.gate.allow(2);
        self.gate.await_ticks(3);
        self.gate.allow(u64::MAX);
        let Incoming::Started(next) = link.take() else {
            return None;
        };
        Some(next.generation)
    }
}

/// The last one of 65 complaints between two ticks isn't lost.
#[test]
fn complaint_at_a_full_line(rt: HostRuntime) -> Result<(), Fail> {
    let alloc = rt.alloc();
    let gate = Arc::new(alloc, Watch::ticking(rt))?;
    let plan = ComplainsAtLast {
        gate: Arc::try_clone(&gate)?,
    };
    let drivers = filled_up(alloc, Vec::new(alloc))?;
    let (came, _) = play(alloc, rt, SECTORS, drivers, &gate, plan, Ending::Stopped).ok_or(
        "not stopped",
    )?;
    assert_eq!(rt; came, Some(2));
    Ok(())
}

// The first driver is held until a later one has answered, and answers too. How many requests are accepted then by the driver that was
// started last.
#[derive(Drop)]
struct FilledBehindLate<R: Clock + Copy> {
    gate: Arc<Watch<R>>,
    release: Arc<AtomicU64>,
}

// Asks each driver that is started, until the one that was started last has answered: that one.
fn answered_by_last<R: Wait + Copy>(
    link: &mut ChannelLink<R>,
    request: &BlockRequest,
) -> Option<Endpoint> {
    let mut last = None;
    for _ in 0..MESSAGES {
        match link.take() {
            Incoming::Started(endpoint) => {
                let _ = link.post(endpoint, request);
                last = Some(endpoint);
            }
            Incoming::Reply(reply) if last == Some(reply.from) => return last,
            Incoming::Reply(_) => {}
            _ => return None,
        }
    }
    None
}

// Takes messages up to the answer of the first driver: the driver that was started last, which is this one where no further is.
fn late_answer<R: Wait + Copy>(link: &mut ChannelLink<R>, last: Endpoint) -> Option<Endpoint> {
    let mut last = last;
    for _ in 0..MESSAGES {
        match link.take() {
            Incoming::Started(endpoint) => last = endpoint,
            Incoming::Reply(reply) if reply.from.generation == 1 => return Some(last),
            Incoming::Reply(_) => {}
            _ => return None,
        }
    }
    None
}

impl<R: Wait + Clock + Copy + Send + Sync> Plan<R> for FilledBehindLate<R> {
    type Came = Option<u32>;

    fn play(&mut self, link: &mut ChannelLink<R>) -> Option<u32> {
        let Incoming::Started(first) = link.take() else {
            return None;
        };
        link.post(first, &request_at(1, 1, 512, 0x11)).ok()?;
        let last = answered_by_last(link, &write_of(2, 0x22))?;
        self.gate.allow(0);
        self.release.store(1, Ordering::SeqCst);
        let last = late_answer(link, last)?;
        posted_until_full(link, last, &mut 2)
    }
}

/// A late answer of a driver that was replaced makes no room for a request at the next driver.
#[test]
fn requests_behind_a_late_answer(rt: HostRuntime) -> Result<(), Fail> {
    let alloc = rt.alloc();
    let release = Arc::new(alloc, AtomicU64::new(0))?;
    let gate = Arc::new(alloc, Watch::holding(rt, Arc::try_clone(&release)?))?;
    let plan = FilledBehindLate {
        gate: Arc::try_clone(&gate)?,
        release,
    };
    let drivers = filled_up(alloc, Vec::new(alloc))?;
    let (came, _) = play(alloc, rt, SECTORS, drivers, &gate, plan, Ending::Stopped).ok_or(
        "not stopped",
    )?;
    assert_eq!(rt; came, Some(32));
    Ok(())
}

/// A request for which a driver's channel has no room is posted once it has, by the same line.
#[test]
fn request_at_a_full_channel(rt: HostRuntime) -> Result<(), Fail> {
    let alloc = rt.alloc();
    let (orders, mut taken) = bounded::<Order>(alloc, 1)?;
    let mut line = OrderLine::new(alloc, orders, 2)?;
    assert!(rt; line.post(&rt, &write_of(1, 0x11)).is_ok());
    assert!(rt; line.post(&rt, &write_of(2, 0x22)).is_err());
    assert!(rt; taken.try_receive(&rt).is_some());
    assert!(rt; line.post(&rt, &write_of(2, 0x22)).is_ok());
    assert!(rt; taken.try_receive(&rt).is_some());
    assert!(rt; line.post(&rt, &write_of(3, 0x33)).is_err());
    Ok(())
}
