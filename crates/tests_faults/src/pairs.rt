//! Two faults at every pair of places.

use crate::all_right::all_are_right;
use fixtures_faults::places::pairs;
use fixtures_faults::settings::PLAIN;
use std::alloc::Global;
use std::test::Fail;

/// How many events the base schedule has.
const EVENTS: usize = 40;

/// Each pair whose first place is one of these comes out right, and there are so many.
fn two_faults(alloc: Global, from: usize, to: usize, count: u32) -> Result<(), Fail> {
    let plans = pairs(alloc, EVENTS, from, to)?;
    all_are_right(alloc, &PLAIN, plans.as_slice(), count)
}

// 861 in all.

#[test]
fn from_place_0(rt: HostRuntime) -> Result<(), Fail> {
    two_faults(rt.alloc(), 0, 6, 231)
}

#[test]
fn from_place_6(rt: HostRuntime) -> Result<(), Fail> {
    two_faults(rt.alloc(), 6, 13, 224)
}

#[test]
fn from_place_13(rt: HostRuntime) -> Result<(), Fail> {
    two_faults(rt.alloc(), 13, 22, 216)
}

#[test]
fn from_place_22(rt: HostRuntime) -> Result<(), Fail> {
    two_faults(rt.alloc(), 22, 41, 190)
}
