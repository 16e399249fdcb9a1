//! Drivers that are held, die or leave their range are replaced.

use crate::setting::{Ending, Plan, SECTORS, filled_up, play, request_at, write_of};
use crate::watch::Watch;
use bdev::Driver;
use channel_link::link::ChannelLink;
use errno::Errno;
use media::partition::Table;
use message::endpoint::Endpoint;
use message::{BlockReply, BlockRequest, Incoming};
use modeldisk::{Fault, FaultKind, Inner, RamDriver, ScriptedDriver};
use reissue::link::Link;
use std::alloc::{AllocError, Global};
use std::sync::atomic::{AtomicU64, Ordering};
use std::sync::{Arc, Wait};
use std::test::*;
use std::thread::Threads;
use std::time::Clock;

// The most messages that a plan takes for one answer: 33 starts, and a few answers.
const MESSAGES: u32 = 40;

// Posts a request to each driver that is started, until one of them answers: that answer. None where anything else comes.
fn asked_until_answered<R: Wait + Copy>(
    link: &mut ChannelLink<R>,
    request: &BlockRequest,
) -> Option<BlockReply> {
    for _ in 0..MESSAGES {
        match link.take() {
            Incoming::Started(endpoint) => {
                let _ = link.post(endpoint, request);
            }
            Incoming::Reply(reply) => return Some(reply),
            _ => return None,
        }
    }
    None
}

// The first driver that is started, which is asked this.
pub(crate) fn first_asked<R: Wait + Copy>(
    link: &mut ChannelLink<R>,
    request: &BlockRequest,
) -> Option<Endpoint> {
    let Incoming::Started(first) = link.take() else {
        return None;
    };
    link.post(first, request).ok()?;
    Some(first)
}

fn is_all(image: &[u8], from: usize, to: usize, byte: u8) -> bool {
    image
        .get(from..to)
        .is_some_and(|bytes| bytes.iter().all(|b| *b == byte))
}

// The first driver is held while a later one answers; then it is let go.
#[derive(Drop)]
struct HeldDriver<R: Clock + Copy> {
    gate: Arc<Watch<R>>,
    release: Arc<AtomicU64>,
}

#[derive(Clone, Copy)]
struct Held {
    first: u32,
    answered: BlockReply,
    // The first one's steps that had passed as a later one had answered.
    early: u64,
    // Whether a post to the first one was refused then.
    dead: bool,
}

impl<R: Wait + Clock + Copy + Send + Sync> Plan<R> for HeldDriver<R> {
    type Came = Option<Held>;

    fn play(&mut self, link: &mut ChannelLink<R>) -> Option<Held> {
        let first = first_asked(link, &write_of(1, 0x11))?;
        let answered = asked_until_answered(link, &write_of(1, 0x22))?;
        let dead = link.post(first, &write_of(2, 0x33)).is_err();
        let early = self.gate.passed();
        self.release.store(1, Ordering::SeqCst);
        self.gate.await_passed(1);
        Some(Held {
            first: first.generation,
            answered,
            early,
            dead,
        })
    }
}

#[test]
fn held_driver(rt: HostRuntime) -> Result<(), Fail> {
    let alloc = rt.alloc();
    let release = Arc::new(alloc, AtomicU64::new(0))?;
    let gate = Arc::new(alloc, Watch::holding(rt, Arc::try_clone(&release)?))?;
    let plan = HeldDriver {
        gate: Arc::try_clone(&gate)?,
        release,
    };
    let drivers = filled_up(alloc, Vec::new(alloc))?;
    let (came, image) = play(alloc, rt, SECTORS, drivers, &gate, plan, Ending::Stopped).ok_or(
        "not stopped",
    )?;
    let came = came.ok_or("no answer")?;
    assert_eq!(rt; came.first, 1);
    assert!(rt; came.answered.from.generation > 1);
    assert_eq!(rt; came.answered.outcome, Ok(1024));
    assert!(rt; came.dead);
    assert_eq!(rt; came.early, 0);
    assert!(rt; is_all(&image, 4096, 5120, 0x22));
    assert!(rt; is_all(&image, 0, 4096, 0) && is_all(&image, 5120, 65536, 0));
    assert_eq!(rt; gate.passed(), 1);
    Ok(())
}

// Asks until an answer comes.
#[derive(Clone, Copy, Drop)]
struct AskedUntilAnswered {
    request: BlockRequest,
}

impl<R: Wait + Copy> Plan<R> for AskedUntilAnswered {
    type Came = Option<BlockReply>;

    fn play(&mut self, link: &mut ChannelLink<R>) -> Option<BlockReply> {
        asked_until_answered(link, &self.request)
    }
}

// A driver that dies at its first request, at the step after this many of its sectors were moved.
pub(crate) fn dying(alloc: Global, after: u32) -> Result<Driver, AllocError> {
    let mut faults: Vec<Fault> = Vec::new(alloc);
    faults.push(Fault {
        request: 1,
        after,
        kind: FaultKind::Die,
    })?;
    let inner = Inner::Ram(RamDriver::new(Table::whole(SECTORS)));
    Ok(Box::new(alloc, ScriptedDriver::new(inner, faults))?)
}

#[test]
fn dies_in_each_step(rt: HostRuntime) -> Result<(), Fail> {
    let alloc = rt.alloc();
    let gate = Arc::new(alloc, Watch::open(rt))?;
    let mut dying_ones: Vec<Driver> = Vec::new(alloc);
    for after in 0..8u32 {
        dying_ones.push(dying(alloc, after)?)?;
    }
    let drivers = filled_up(alloc, dying_ones)?;
    let plan = AskedUntilAnswered {
        request: request_at(1, 4096, 4096, 0x5a),
    };
    let (came, image) = play(alloc, rt, SECTORS, drivers, &gate, plan, Ending::Stopped).ok_or(
        "not stopped",
    )?;
    let answered = came.ok_or("no answer")?;
    assert!(rt; answered.from.generation > 8);
    assert_eq!(rt; answered.outcome, Ok(4096));
    assert!(rt; is_all(&image, 4096, 8192, 0x5a));
    assert!(rt; is_all(&image, 0, 4096, 0) && is_all(&image, 8192, 65536, 0));
    Ok(())
}

// Asks each driver that is started, until the device is given up: how many were started. None where an answer comes.
#[derive(Clone, Copy, Drop)]
struct AskedUntilGivenUp;

impl<R: Wait + Copy> Plan<R> for AskedUntilGivenUp {
    type Came = Option<u32>;

    fn play(&mut self, link: &mut ChannelLink<R>) -> Option<u32> {
        let mut started = 0u32;
        for _ in 0..MESSAGES {
            match link.take() {
                Incoming::Started(endpoint) => {
                    started = endpoint.generation;
                    let _ = link.post(endpoint, &write_of(1, 0x11));
                }
                Incoming::GaveUp => return Some(started),
                _ => return None,
            }
        }
        None
    }
}

#[test]
fn given_up(rt: HostRuntime) -> Result<(), Fail> {
    let alloc = rt.alloc();
    let gate = Arc::new(alloc, Watch::open(rt))?;
    let mut drivers: Vec<Driver> = Vec::new(alloc);
    for _ in 0..3 {
        drivers.push(dying(alloc, 0)?)?;
    }
    let (came, image) = play(
        alloc,
        rt,
        SECTORS,
        drivers,
        &gate,
        AskedUntilGivenUp,
        Ending::Stopped,
    )
    .ok_or("not stopped")?;
    assert_eq!(rt; came, Some(3));
    assert!(rt; is_all(&image, 0, 65536, 0));
    Ok(())
}

// A complaint about the first driver, and the generation of the next one that is started.
#[derive(Clone, Copy, Drop)]
struct Complains;

impl<R: Wait + Copy> Plan<R> for Complains {
    type Came = Option<(u32, u32)>;

    fn play(&mut self, link: &mut ChannelLink<R>) -> Option<(u32, u32)> {
        let Incoming::Started(first) = link.take() else {
            return None;
        };
        link.complain(first);
        let Incoming::Started(next) = link.take() else {
            return None;
        };
        Some((first.generation, next.generation))
    }
}

#[test]
fn complained_of(rt: HostRuntime) -> Result<(), Fail> {
    let alloc = rt.alloc();
    let gate = Arc::new(alloc, Watch::open(rt))?;
    let drivers = filled_up(alloc, Vec::new(alloc))?;
    let (came, _) = play(
        alloc,
        rt,
        SECTORS,
        drivers,
        &gate,
        Complains,
        Ending::Stopped,
    )
    .ok_or("not stopped")?;
    assert_eq!(rt; came, Some((1, 2)));
    Ok(())
}

// The volume has the first 16 sectors. A driver that would write sector 16 fails, and the next one is asked for sectors 8 and 9.
#[derive(Clone, Copy, Drop)]
struct LeavesRange;

impl<R: Wait + Copy> Plan<R> for LeavesRange {
    type Came = Option<BlockReply>;

    fn play(&mut self, link: &mut ChannelLink<R>) -> Option<BlockReply> {
        let _ = first_asked(link, &request_at(1, 8192, 512, 0x11))?;
        asked_until_answered(link, &write_of(2, 0x22))
    }
}

#[test]
fn leaves_its_range(rt: HostRuntime) -> Result<(), Fail> {
    let alloc = rt.alloc();
    let gate = Arc::new(alloc, Watch::open(rt))?;
    let drivers = filled_up(alloc, Vec::new(alloc))?;
    let (came, image) = play(alloc, rt, 16, drivers, &gate, LeavesRange, Ending::Stopped).ok_or(
        "not stopped",
    )?;
    let answered = came.ok_or("no answer")?;
    assert!(rt; answered.id == 2 && answered.from.generation > 1);
    assert_eq!(rt; answered.outcome, Ok(1024));
    assert!(rt; is_all(&image, 4096, 5120, 0x22));
    assert!(rt; is_all(&image, 0, 4096, 0) && is_all(&image, 5120, 65536, 0));
    Ok(())
}

// The next answer of the first driver. Starts, and answers of others, are passed over.
fn answered_by_first<R: Wait + Copy>(link: &mut ChannelLink<R>) -> Option<BlockReply> {
    for _ in 0..MESSAGES {
        match link.take() {
            Incoming::Reply(reply) if reply.from.generation == 1 => return Some(reply),
            Incoming::Reply(_) | Incoming::Started(_) => {}
            _ => return None,
        }
    }
    None
}

// The first driver is asked for a sector that is none, and held until a later one has answered another request. Then it answers, too.
#[derive(Drop)]
struct LateReply {
    release: Arc<AtomicU64>,
}

impl<R: Wait + Copy> Plan<R> for LateReply {
    type Came = Option<(BlockReply, BlockReply)>;

    fn play(&mut self, link: &mut ChannelLink<R>) -> Option<(BlockReply, BlockReply)> {
        let _ = first_asked(link, &request_at(1, 1, 512, 0x11))?;
        let early = asked_until_answered(link, &write_of(2, 0x22))?;
        self.release.store(1, Ordering::SeqCst);
        let late = answered_by_first(link)?;
        Some((early, late))
    }
}

#[test]
fn late_reply(rt: HostRuntime) -> Result<(), Fail> {
    let alloc = rt.alloc();
    let release = Arc::new(alloc, AtomicU64::new(0))?;
    let gate = Arc::new(alloc, Watch::holding(rt, Arc::try_clone(&release)?))?;
    let plan = LateReply { release };
    let drivers = filled_up(alloc, Vec::new(alloc))?;
    let (came, _) = play(alloc, rt, SECTORS, drivers, &gate, plan, Ending::Stopped).ok_or(
        "not stopped",
    )?;
    let (early, late) = came.ok_or("no answers")?;
    assert!(rt; early.from.generation > 1 && early.id == 2);
    assert_eq!(rt; early.outcome, Ok(1024));
    assert!(rt; late.from.generation == 1 && late.id == 1);
    assert_eq!(rt; late.outcome, Err(Errno::EINVAL));
    Ok(())
}
