//! Schedules, and faults that are put into them.

use schedule::Event;
use std::alloc::{AllocError, Global};

/// How a driver ends.
#[derive(Clone, Copy, Debug, PartialEq, Eq)]
pub enum End {
    /// `die`.
    Dies,
    /// `die` with bytes `ee`: the sector that it was writing is torn.
    Tears,
    /// `hang`.
    Hangs,
}

/// A fault that is put into a schedule.
#[derive(Clone, Copy, Debug, PartialEq, Eq)]
pub struct ScheduledFault {
    /// Before which event it comes, counted from 0; as many as there are events: behind all of them.
    pub place: usize,
    /// The driver at fault: the first one is 1.
    pub generation: u32,
    pub end: End,
    /// How many ticks follow. Where some do, the next driver makes the steps from there on.
    pub ticks: u32,
}

/// A step of driver 1.
static STEP: [Event<'static>; 1] = [Event::Step(1)];

/// What comes at the end of the base schedule.
static LAST: [Event<'static>; 2] = [Event::Flush, Event::Tick];

/// A tick.
static TICK: [Event<'static>; 1] = [Event::Tick];

/// Adds as many steps of driver 1 as a block has sectors.
fn add_steps(events: &mut Vec<Event<'_>>, sectors: usize) -> Result<(), AllocError> {
    for _ in 0..sectors {
        events.extend_from_slice(&STEP)?;
    }
    Ok(())
}

/// The base schedule: these calls; for each block that requests move as many steps of driver 1 as it has sectors, and the delivery of the
/// reply to its request, which has no effect before the request's last block is moved; a flush and a tick.
pub fn base<'t>(
    alloc: Global,
    calls: &[Event<'t>],
    sectors: usize,
    replies: &[u32],
) -> Result<Vec<Event<'t>>, AllocError> {
    let mut events = Vec::from_slice(alloc, calls)?;
    for reply in replies {
        add_steps(&mut events, sectors)?;
        events.push(Event::Deliver(*reply))?;
    }
    events.extend_from_slice(&LAST)?;
    Ok(events)
}

/// The same schedule, but each reply is delivered twice, and then the request of the same number is repeated.
pub fn twice<'t>(alloc: Global, events: &[Event<'t>]) -> Result<Vec<Event<'t>>, AllocError> {
    let mut doubled = Vec::new(alloc);
    for event in events {
        match event {
            Event::Deliver(number) => {
                doubled.extend_from_slice(&[*event, *event, Event::Repeat(*number)])?;
            }
            _other => doubled.push(*event)?,
        }
    }
    Ok(doubled)
}

/// The event by which a driver ends.
fn event_of(fault: &ScheduledFault) -> Event<'static> {
    match fault.end {
        End::Dies => Event::Die(fault.generation, None),
        End::Tears => Event::Die(fault.generation, Some([0xee; 512])),
        End::Hangs => Event::Hang(fault.generation),
    }
}

/// Puts a fault behind these events.
fn strike(events: &mut Vec<Event<'_>>, fault: &ScheduledFault) -> Result<(), AllocError> {
    events.push(event_of(fault))?;
    for _ in 0..fault.ticks {
        events.extend_from_slice(&TICK)?;
    }
    Ok(())
}

/// The driver that makes the steps of driver 1 at a place.
fn stepping(faults: &[ScheduledFault], place: usize) -> u32 {
    let last = faults.iter().filter(|fault| fault.place <= place).last();
    match last {
        Some(fault) if fault.ticks > 0 => fault.generation.saturating_add(1),
        _ => 1,
    }
}

/// The event, at which this driver makes a step of driver 1.
fn stepped<'t>(event: &Event<'t>, generation: u32) -> Event<'t> {
    match *event {
        Event::Step(1) => Event::Step(generation),
        other => other,
    }
}

/// Puts the faults of a place behind these events.
fn strike_at(
    events: &mut Vec<Event<'_>>,
    faults: &[ScheduledFault],
    place: usize,
) -> Result<(), AllocError> {
    for fault in faults {
        if fault.place == place {
            strike(events, fault)?;
        }
    }
    Ok(())
}

/// A schedule with faults put in, which are given in their order.
pub fn with_faults<'t>(
    alloc: Global,
    base: &[Event<'t>],
    faults: &[ScheduledFault],
) -> Result<Vec<Event<'t>>, AllocError> {
    let mut events = Vec::new(alloc);
    for (place, event) in base.iter().enumerate() {
        strike_at(&mut events, faults, place)?;
        events.push(stepped(event, stepping(faults, place)))?;
    }
    strike_at(&mut events, faults, base.len())?;
    Ok(events)
}
