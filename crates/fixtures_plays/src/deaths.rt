//! Plays over drivers that die, hang or answer wrongly.
use crate::plays::{Faults, Play};
use fixtures::gates::Hanging;
use fixtures::{new_volume, patient, whole};
use reincarnate::policy::{Policy, Setup};
use std::alloc::Global;
use std::sync::{Arc, Wait};
use std::test::Fail;
use std::thread::Threads;
use std::time::Clock;

/// What comes of a play: the status, what is printed, and what is said of a refusal.
pub type Told = (u8, &'static str, &'static str);

/// The most faults, the cap and the calm of a policy, if it isn't the default one.
pub type Numbers = Option<(u32, u32, u32)>;

/// A policy's numbers, in which request the drivers' faults come, the drivers that are started one after the other, the script, and what
/// comes of it.
pub type OverDrivers = (Numbers, u32, Faults<'static>, &'static [u8], Told);

/// How long a tick is where it counts between which ticks drivers die, in milliseconds: so long that a driver dies in the tick of its start.
const LONG_TICK: u64 = 1000;

/// Where faults count as first ones after fewer ticks of calm than this, it counts.
const CALM: u32 = 64;

/// A play under the patient policy, or under one with these numbers, and with long ticks where these count.
fn with_numbers<'p>(numbers: Numbers, play: Play<'p>) -> Play<'p> {
    let Some((max_faults, cap, calm)) = numbers else {
        return play;
    };
    let policy = Policy {
        max_faults,
        cap,
        calm,
        ..patient().policy
    };
    let setup = Setup {
        policy,
        ..patient()
    };
    let pace = if calm < CALM { LONG_TICK } else { play.pace };
    Play {
        setup,
        pace,
        ..play
    }
}

/// A row comes out as it says on a new volume, and leaves the image as it is.
fn comes_out<R: Threads + Wait + Clock + Copy + Send + Sync + 'static>(
    alloc: Global,
    rt: R,
    image: &[u8],
    row: &OverDrivers,
) -> Result<(), Fail> {
    let (numbers, request, faults, script, (status, out, err)) = *row;
    let scripts = [Some(script)];
    let play = Play {
        request,
        faults,
        ..Play::new(image, &scripts)
    };
    let played = with_numbers(numbers, play).played(alloc, rt)?;
    played.gave(status, out, err)?;
    if status == 1 || played.is_clean(alloc) && played.left() == image {
        return Ok(());
    }
    Err(Fail::from("another image"))
}

/// Each row comes out as it says, and leaves the image as it is.
pub fn all_come_out<R: Threads + Wait + Clock + Copy + Send + Sync + 'static>(
    alloc: Global,
    rt: R,
    rows: &[OverDrivers],
) -> Result<(), Fail> {
    let image = new_volume(alloc, 1024)?;
    for row in rows {
        comes_out(alloc, rt, &image, row)?;
    }
    Ok(())
}

/// Before which of its steps the first driver hangs, the script, and what is printed of it.
pub type AtHang = (u64, &'static [u8], &'static str);

/// How long a tick is where a driver hangs, in milliseconds.
const TICK: u64 = 50;

/// The least and the most ticks for which a driver may hang: it is hung after three without a beat, and the next one is started at once.
/// No more pass: where the next one isn't started by then, the play has no end.
const HUNG_FOR: (u64, u64) = (3, 6);

/// A row comes out as it says on a new volume, under the default policy, which replaces a driver that misses three heartbeats.
fn goes_on<R: Threads + Wait + Clock + Copy + Send + Sync + 'static>(
    alloc: Global,
    rt: R,
    image: &[u8],
    row: &AtHang,
) -> Result<(), Fail> {
    let (at, script, out) = *row;
    let (least, most) = HUNG_FOR;
    let gate = Arc::new(alloc, Hanging::new(rt, TICK, at, most))?;
    let scripts = [Some(script)];
    let play = Play {
        setup: whole(),
        faults: &[None; 6],
        ..Play::new(image, &scripts)
    };
    let played = play.played_at(alloc, rt, Arc::try_clone(&gate)?)?;
    played.gave(0, out, "")?;
    let hung_for = gate.hung_for().unwrap_or(0);
    if played.is_clean(alloc) && least <= hung_for {
        return Ok(());
    }
    Err(Fail::new(format_args!("hung for {hung_for} ticks")))
}

/// Each row comes out as it says.
pub fn all_go_on<R: Threads + Wait + Clock + Copy + Send + Sync + 'static>(
    alloc: Global,
    rt: R,
    rows: &[AtHang],
) -> Result<(), Fail> {
    let image = new_volume(alloc, 1024)?;
    for row in rows {
        goes_on(alloc, rt, &image, row)?;
    }
    Ok(())
}
