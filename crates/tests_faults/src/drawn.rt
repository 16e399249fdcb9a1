//! Three faults at drawn places.

use crate::all_right::all_are_right;
use fixtures_faults::drawn::threes;
use fixtures_faults::draws::Draws;
use fixtures_faults::settings::{SETTINGS, Setting};
use fixtures_faults::trial::events_in;
use std::alloc::Global;
use std::test::Fail;

/// How many schedules of each setting are tried.
const COUNT: u32 = 10;

/// Drawn schedules of settings from one on, so many of them.
fn of_settings(alloc: Global, from: u32, count: u32) -> Result<(), Fail> {
    for number in from..from.saturating_add(count) {
        let setting = Setting::of(number);
        let mut draws = Draws::new(u64::from(number));
        let events = events_in(alloc, &setting)?;
        let plans = threes(alloc, &mut draws, events, COUNT)?;
        all_are_right(alloc, &setting, plans.as_slice(), COUNT)?;
    }
    Ok(())
}

#[test]
fn of_one_client(rt: HostRuntime) -> Result<(), Fail> {
    of_settings(rt.alloc(), 0, 12)
}

#[test]
fn of_two_clients(rt: HostRuntime) -> Result<(), Fail> {
    of_settings(rt.alloc(), 12, 12)?;
    assert_eq!(rt; SETTINGS, 24);
    Ok(())
}
