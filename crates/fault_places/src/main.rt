//! Tries schedules with faults put in, and says how many came out wrong: with three at places that are drawn, or with one and two at every
//! place.
#![tactic(auto)]

use fixtures_faults::drawn::threes;
use fixtures_faults::draws::Draws;
use fixtures_faults::places::all_places;
use fixtures_faults::settings::{PLAIN, SETTINGS, Setting};
use fixtures_faults::trial::{Tried, events_in, try_all};
use host::command_line::line_of;
use std::alloc::{AllocError, Global};
use std::io;
use std::process::ExitCode;

/// Which schedules are tried.
#[derive(Clone, Copy)]
enum Wanted {
    /// So many over all settings, with faults that this seed draws.
    Drawn(u64, u32),
    /// The base schedule with each fault and each two faults, until so many came out wrong.
    Each(u32),
}

/// What the words behind `--each` ask for: nothing more, or `--most M`.
fn read_each(words: &[String]) -> Option<Wanted> {
    match words {
        [] => Some(Wanted::Each(u32::MAX)),
        [most, m] if most.as_str() == "--most" => Some(Wanted::Each(m.parse().ok()?)),
        _ => None,
    }
}

/// What the words behind `--seed` ask for: `S --count N`.
fn read_drawn(words: &[String]) -> Option<Wanted> {
    match words {
        [s, count, n] if count.as_str() == "--count" => {
            Some(Wanted::Drawn(s.parse().ok()?, n.parse().ok()?))
        }
        _ => None,
    }
}

/// What the words ask for, if they are `--seed S --count N`, `--each` or `--each --most M`.
fn read_words(words: &[String]) -> Option<Wanted> {
    let (first, rest) = words.get(1..)?.split_first()?;
    if first.as_str() == "--each" {
        return read_each(rest);
    }
    if first.as_str() == "--seed" {
        return read_drawn(rest);
    }
    None
}

/// How many of all schedules are tried in the setting of this number: each has as many as another, or one more.
fn share(count: u32, number: u32) -> u32 {
    let more = u32::from(number < count % SETTINGS);
    (count / SETTINGS).saturating_add(more)
}

/// How many schedules were tried, and how many of them came out wrong.
#[derive(Clone, Copy)]
struct Counts {
    runs: u32,
    wrong: u32,
}

impl Counts {
    /// Prints which schedules came out wrong, after the number of their setting, and counts them.
    fn tell<R: Print>(&mut self, rt: &R, number: u32, tried: &Tried) -> io::Result<()> {
        for line in tried.which.as_str().lines() {
            println!(rt; "setting {number}: {line}")?;
        }
        self.runs = self.runs.saturating_add(tried.count);
        self.wrong = self.wrong.saturating_add(tried.wrong);
        Ok(())
    }
}

/// Tries so many schedules in the setting of this number.
fn try_drawn(
    alloc: Global,
    draws: &mut Draws,
    number: u32,
    count: u32,
) -> Result<Tried, AllocError> {
    let setting = Setting::of(number);
    let plans = threes(alloc, draws, events_in(alloc, &setting)?, count)?;
    try_all(alloc, &setting, plans.as_slice(), u32::MAX)
}

/// Tries the base schedule with each fault and each two, until so many came out wrong.
fn try_each(alloc: Global, most: u32) -> Result<Tried, AllocError> {
    let plans = all_places(alloc, events_in(alloc, &PLAIN)?)?;
    try_all(alloc, &PLAIN, plans.as_slice(), most)
}

/// Tries what is wanted, and prints which schedules came out wrong.
fn try_wanted<R: Print + AllocGlobal>(rt: &R, wanted: Wanted) -> io::Result<Counts> {
    let mut counts = Counts { runs: 0, wrong: 0 };
    match wanted {
        Wanted::Each(most) => counts.tell(rt, 0, &try_each(rt.alloc(), most)?)?,
        Wanted::Drawn(seed, count) => {
            let mut draws = Draws::new(seed);
            for number in 0..SETTINGS {
                let tried = try_drawn(rt.alloc(), &mut draws, number, share(count, number))?;
                counts.tell(rt, number, &tried)?;
            }
        }
    }
    Ok(counts)
}

fn main(rt: HostRuntime) -> io::Result<ExitCode> {
    let Some(line) = line_of(&rt)? else {
        return Ok(ExitCode::from(2));
    };
    let Some(wanted) = read_words(line.as_slice()) else {
        eprintln!(rt; "usage: fault-places --seed S --count N | --each [--most M]")?;
        return Ok(ExitCode::from(2));
    };
    let Counts { runs, wrong } = try_wanted(&rt, wanted)?;
    println!(rt; "{runs} runs, {wrong} wrong")?;
    Ok(ExitCode::from(if wrong == 0 { 0 } else { 1 }))
}
