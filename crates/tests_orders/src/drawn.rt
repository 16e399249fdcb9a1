//! Each order comes out right.

use fixtures_orders::trial::{Wrong, try_order};
use std::io;
use std::sync::Wait;
use std::test::*;
use std::thread::Threads;

/// How many orders a test tries.
const COUNT: u64 = 10;

/// The first wrong one of the orders of ten numbers, from this one on: its number, and what is wrong.
fn wrong_of_ten<R: Threads + Wait + AllocGlobal + Copy + Send + Sync + 'static>(
    rt: R,
    from: u64,
) -> io::Result<Option<(u64, Wrong)>> {
    for number in from..from.saturating_add(COUNT) {
        if let Some(wrong) = try_order(rt, number)?.wrong {
            return Ok(Some((number, wrong)));
        }
    }
    Ok(None)
}

/// Fails with the number of a wrong order.
fn right(wrong: Option<(u64, Wrong)>) -> Result<(), Fail> {
    match wrong {
        Some((number, wrong)) => Err(Fail::new(format_args!("order {number}: {wrong}"))),
        None => Ok(()),
    }
}

#[test]
fn orders_from_0(rt: HostRuntime) -> Result<(), Fail> {
    right(wrong_of_ten(rt, 0)?)
}

#[test]
fn orders_from_10(rt: HostRuntime) -> Result<(), Fail> {
    right(wrong_of_ten(rt, 10)?)
}

#[test]
fn orders_from_20(rt: HostRuntime) -> Result<(), Fail> {
    right(wrong_of_ten(rt, 20)?)
}

#[test]
fn orders_from_30(rt: HostRuntime) -> Result<(), Fail> {
    right(wrong_of_ten(rt, 30)?)
}

#[test]
fn orders_from_40(rt: HostRuntime) -> Result<(), Fail> {
    right(wrong_of_ten(rt, 40)?)
}

#[test]
fn orders_from_50(rt: HostRuntime) -> Result<(), Fail> {
    right(wrong_of_ten(rt, 50)?)
}

#[test]
fn orders_from_60(rt: HostRuntime) -> Result<(), Fail> {
    right(wrong_of_ten(rt, 60)?)
}

#[test]
fn orders_from_70(rt: HostRuntime) -> Result<(), Fail> {
    right(wrong_of_ten(rt, 70)?)
}

#[test]
fn orders_from_80(rt: HostRuntime) -> Result<(), Fail> {
    right(wrong_of_ten(rt, 80)?)
}

#[test]
fn orders_from_90(rt: HostRuntime) -> Result<(), Fail> {
    right(wrong_of_ten(rt, 90)?)
}
