//! How a run stands after its last event, and what is to happen next.

use crate::requests::Requests;
use modeldisk::supply::DiskDriver;
use schedule::{Event, Sent};
use simulation::transcript::Transcript;
use std::alloc::{AllocError, Global};

/// How a run stands after its last event.
#[derive(Drop)]
pub struct Standing {
    /// The driver that was started last.
    newest: u32,
    /// It lives, and isn't hung.
    runs: bool,
    /// How many requests wait for it.
    waiting: usize,
    /// How many requests have no good answer.
    open: u64,
    /// How many calls have no reply.
    unanswered: u64,
    /// How many requests were posted.
    posted: u32,
    /// The replies that weren't delivered since they were sent.
    due: Vec<u32>,
    /// The replies of drivers before the newest.
    stale: Vec<u32>,
    /// How many replies were sent.
    sent: u32,
}

/// Whether a reply was delivered since it was sent.
fn is_delivered(events: &[Event<'_>], number: u32, sent: &Sent) -> bool {
    let later = events.get(sent.place as usize..).unwrap_or(&[]);
    later
        .iter()
        .any(|event| matches!(*event, Event::Deliver(n) if n == number))
}

/// The replies of a run that weren't delivered since they were sent, those of drivers before the newest, and how many there are.
#[derive(Drop)]
struct Replies {
    due: Vec<u32>,
    stale: Vec<u32>,
    sent: u32,
}

/// The replies of a run of these events.
fn replies_of(
    alloc: Global,
    replies: &[Sent],
    events: &[Event<'_>],
    newest: u32,
) -> Result<Replies, AllocError> {
    let (mut due, mut stale) = (Vec::new(alloc), Vec::new(alloc));
    let mut number = 0u32;
    for sent in replies {
        if !is_delivered(events, number, sent) {
            due.push(number)?;
        }
        if sent.reply.from.generation < newest {
            stale.push(number)?;
        }
        number = number.saturating_add(1);
    }
    Ok(Replies {
        due,
        stale,
        sent: number,
    })
}

/// The requests of a run.
fn requests_of(
    alloc: Global,
    transcript: &Transcript<'_, DiskDriver>,
) -> Result<Requests, AllocError> {
    let mut requests = Requests::NONE;
    for mark in &transcript.marks(alloc)? {
        requests.see(mark);
    }
    Ok(requests)
}

/// How a run of these events stands.
pub fn standing_after(
    alloc: Global,
    transcript: &Transcript<'_, DiskDriver>,
    events: &[Event<'_>],
) -> Result<Standing, AllocError> {
    let (older, current) = transcript.drivers();
    let newest = u32::try_from(older.len()).unwrap_or(0).saturating_add(1);
    let requests = requests_of(alloc, transcript)?;
    let Replies { due, stale, sent } = replies_of(alloc, transcript.sent(), events, newest)?;
    Ok(Standing {
        newest,
        runs: current.live && !current.hung,
        waiting: current.line.len(),
        open: requests.open(),
        unanswered: transcript.unanswered,
        posted: requests.posted,
        due,
        stale,
        sent,
    })
}

/// Deliveries of these replies.
fn deliveries(alloc: Global, replies: &[u32]) -> Result<Vec<Event<'static>>, AllocError> {
    let mut events = Vec::new(alloc);
    for reply in replies {
        events.push(Event::Deliver(*reply))?;
    }
    Ok(events)
}

impl Standing {
    /// Whether requests or calls wait for something.
    fn waits(&self) -> bool {
        self.open > 0 || self.unanswered > 0 || self.waiting > 0
    }

    /// Adds the newest driver's steps for the requests that wait, driver 1 making one after each.
    fn add_steps(
        &self,
        events: &mut Vec<Event<'static>>,
        sectors: usize,
    ) -> Result<(), AllocError> {
        let requests = usize::try_from(self.open).unwrap_or(0).max(self.waiting);
        let steps = [Event::Step(self.newest), Event::Step(1)];
        for _ in 0..requests.max(1).saturating_mul(sectors) {
            events.extend_from_slice(&steps)?;
        }
        Ok(())
    }

    /// What is to happen next; nothing where all is done. Where the newest driver is hung or none lives, a tick. Else each reply that is
    /// due is delivered, and the newest driver makes steps for the requests that wait, driver 1 one after each.
    pub fn next_events(
        &self,
        alloc: Global,
        sectors: usize,
    ) -> Result<Vec<Event<'static>>, AllocError> {
        if !self.runs {
            return Vec::from_slice(alloc, &[Event::Tick]);
        }
        let mut next = deliveries(alloc, &self.due)?;
        if self.waits() {
            self.add_steps(&mut next, sectors)?;
        }
        Ok(next)
    }

    /// What comes once more when all is done: the replies of earlier drivers; where `all` holds, all replies and all requests.
    pub fn last_events(&self, alloc: Global, all: bool) -> Result<Vec<Event<'static>>, AllocError> {
        let mut last = deliveries(alloc, &self.stale)?;
        if all {
            self.add_all(&mut last)?;
        }
        Ok(last)
    }

    /// Adds all replies and all requests.
    fn add_all(&self, events: &mut Vec<Event<'static>>) -> Result<(), AllocError> {
        for reply in 0..self.sent {
            events.push(Event::Deliver(reply))?;
        }
        for request in 0..self.posted {
            events.push(Event::Repeat(request))?;
        }
        Ok(())
    }
}
