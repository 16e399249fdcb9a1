//! Three faults at drawn places.

use crate::draws::Draws;
use crate::schedules::{End, ScheduledFault};
use crate::trial::Faults;
use std::alloc::{AllocError, Global};

/// The drivers, and how many ticks it takes to start the next one after one that died, and after one that hangs. The faults of the last
/// one are left to whoever runs the schedule out.
static TICKS: [(u32, u32, u32); 3] = [(1, 1, 4), (2, 2, 5), (3, 0, 0)];

/// An end that is drawn.
fn end(draws: &mut Draws) -> End {
    match draws.below(3) {
        0 => End::Dies,
        1 => End::Tears,
        _ => End::Hangs,
    }
}

/// Three places among so many events, and behind them, in their order.
fn places(alloc: Global, draws: &mut Draws, events: usize) -> Result<Vec<usize>, AllocError> {
    let mut places = Vec::new(alloc);
    for _ in 0..TICKS.len() {
        places.push(draws.place(events.saturating_add(1)))?;
    }
    places.sort()?;
    Ok(places)
}

/// Three faults among so many events.
pub fn three(alloc: Global, draws: &mut Draws, events: usize) -> Result<Faults, AllocError> {
    let places = places(alloc, draws, events)?;
    let mut faults = Vec::new(alloc);
    for (place, (generation, died, hung)) in places.iter().zip(&TICKS) {
        let end = end(draws);
        faults.push(ScheduledFault {
            place: *place,
            generation: *generation,
            end,
            ticks: if end == End::Hangs { *hung } else { *died },
        })?;
    }
    Ok(faults)
}

/// So many times three faults.
pub fn threes(
    alloc: Global,
    draws: &mut Draws,
    events: usize,
    count: u32,
) -> Result<Vec<Faults>, AllocError> {
    let mut plans = Vec::new(alloc);
    for _ in 0..count {
        plans.push(three(alloc, draws, events)?)?;
    }
    Ok(plans)
}
