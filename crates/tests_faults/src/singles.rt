//! One fault at every place.

use crate::all_right::all_are_right;
use fixtures_faults::places::singles;
use fixtures_faults::settings::{PLAIN, Setting};
use fixtures_faults::trial::events_in;
use std::alloc::Global;
use std::test::Fail;

/// The base schedule of a setting, which has so many places, comes out right with each fault at each of them.
fn one_fault(alloc: Global, setting: &Setting, places: u32) -> Result<(), Fail> {
    let plans = singles(alloc, events_in(alloc, setting)?)?;
    all_are_right(alloc, setting, plans.as_slice(), places.saturating_mul(3))
}

#[test]
fn at_each_place(rt: HostRuntime) -> Result<(), Fail> {
    one_fault(rt.alloc(), &PLAIN, 41)
}

#[test]
fn blocks_of_2048(rt: HostRuntime) -> Result<(), Fail> {
    let setting = Setting {
        block: 2048,
        ..PLAIN
    };
    one_fault(rt.alloc(), &setting, 63)
}

#[test]
fn blocks_of_4096(rt: HostRuntime) -> Result<(), Fail> {
    let setting = Setting {
        block: 4096,
        ..PLAIN
    };
    one_fault(rt.alloc(), &setting, 107)
}

#[test]
fn over_arms(rt: HostRuntime) -> Result<(), Fail> {
    let setting = Setting {
        arms: true,
        ..PLAIN
    };
    one_fault(rt.alloc(), &setting, 41)
}

#[test]
fn two_clients(rt: HostRuntime) -> Result<(), Fail> {
    let setting = Setting { two: true, ..PLAIN };
    one_fault(rt.alloc(), &setting, 46)
}

#[test]
fn replies_twice(rt: HostRuntime) -> Result<(), Fail> {
    let setting = Setting {
        twice: true,
        ..PLAIN
    };
    one_fault(rt.alloc(), &setting, 63)
}
