//! Bells, on which threads rest.

use gate::bell::Bell;
use gate::paced_gate::Paced;
use gate::{Gate, Point};
use std::sync::Arc;
use std::test::*;
use std::thread;
use std::time::Duration;

/// How long a thread would rest on a bell that isn't rung, in seconds: a day.
const LONG: u64 = 86_400;

/// A thread that rests for a day goes on once the bell is rung, and doesn't rest on it again.
#[test]
fn rung_at_rest(rt: HostRuntime) -> Result<(), Fail> {
    let bell = Arc::new(rt.alloc(), Bell::new())?;
    let theirs = Arc::try_clone(&bell)?;
    let rests = thread::spawn(&rt, move || {
        theirs.rest(&rt, Duration::from_secs(LONG));
        theirs.rest(&rt, Duration::from_secs(LONG));
    })
    .ok()
    .ok_or("no thread")?;
    assert!(rt; !bell.is_rung());
    bell.ring();
    rests.join(&rt);
    assert!(rt; bell.is_rung());
    Ok(())
}

/// A gate that lets time pass lets nobody wait whose bell was rung: a hundred thousand turns would take three hours.
#[test]
fn passed_at_the_end(rt: HostRuntime) {
    let gate = Paced::new(rt);
    let bell = Bell::new();
    bell.ring();
    for _ in 0..50_000 {
        gate.pass_or_end(Point::Tick, &bell);
        gate.pass_or_end(Point::FlusherTurn, &bell);
    }
}
