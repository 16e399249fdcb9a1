//! The faults that are put at every place of a schedule: one, or two at every pair of places.

use crate::schedules::{End, ScheduledFault};
use crate::trial::Faults;
use std::alloc::{AllocError, Global};

/// Driver 1 ends so before an event, and the schedule gives no ticks.
fn first_ends(place: usize, end: End) -> ScheduledFault {
    ScheduledFault {
        place,
        generation: 1,
        end,
        ticks: 0,
    }
}

/// Driver 1 dies before an event, and a tick follows.
fn first_dies(place: usize) -> ScheduledFault {
    ScheduledFault {
        place,
        generation: 1,
        end: End::Dies,
        ticks: 1,
    }
}

/// Driver 2 dies before an event, and tears the sector that it was writing.
fn second_tears(place: usize) -> ScheduledFault {
    ScheduledFault {
        place,
        generation: 2,
        end: End::Tears,
        ticks: 0,
    }
}

/// Adds each end of driver 1 before an event.
fn add_ends(alloc: Global, plans: &mut Vec<Faults>, place: usize) -> Result<(), AllocError> {
    for end in [End::Dies, End::Tears, End::Hangs] {
        plans.push(vec![in alloc; first_ends(place, end)]?)?;
    }
    Ok(())
}

/// Each end of driver 1 before each of so many events, and behind them.
pub fn singles(alloc: Global, events: usize) -> Result<Vec<Faults>, AllocError> {
    let mut plans = Vec::new(alloc);
    for place in 0..=events {
        add_ends(alloc, &mut plans, place)?;
    }
    Ok(plans)
}

/// Adds each two faults of which the first is before this one of so many events.
fn add_pairs(
    alloc: Global,
    plans: &mut Vec<Faults>,
    events: usize,
    place: usize,
) -> Result<(), AllocError> {
    for later in place..=events {
        plans.push(vec![in alloc; first_dies(place), second_tears(later)]?)?;
    }
    Ok(())
}

/// Of so many events: driver 1 dies at each of the places from one on to before another, and driver 2 at the same or a later one; a sector
/// that it was writing is torn.
pub fn pairs(
    alloc: Global,
    events: usize,
    from: usize,
    to: usize,
) -> Result<Vec<Faults>, AllocError> {
    let mut plans = Vec::new(alloc);
    for place in from..to {
        add_pairs(alloc, &mut plans, events, place)?;
    }
    Ok(plans)
}

/// The faults of `singles`, and then those of `pairs` from every place on.
pub fn all_places(alloc: Global, events: usize) -> Result<Vec<Faults>, AllocError> {
    let mut plans = singles(alloc, events)?;
    for place in 0..=events {
        add_pairs(alloc, &mut plans, events, place)?;
    }
    Ok(plans)
}
