//! Tries orders of a service's threads by their numbers, and says how many came out wrong.
#![tactic(auto)]

use fixtures_orders::trial::{Tried, try_order};
use host::command_line::line_of;
use std::io;
use std::process::ExitCode;

/// Which orders are tried.
#[derive(Clone, Copy)]
struct Wanted {
    /// The first number.
    from: u64,
    /// How many.
    count: u32,
    /// Whether each is told.
    tells: bool,
}

/// What the words ask for, if they are `--from A --count B`, or these and `--tell`.
fn read_words(words: &[String]) -> Option<Wanted> {
    let (from, count, tells) = match words.get(1..)? {
        [from, a, count, b] if from.as_str() == "--from" && count.as_str() == "--count" => {
            (a, b, false)
        }
        [from, a, count, b, tell]
            if from.as_str() == "--from"
                && count.as_str() == "--count"
                && tell.as_str() == "--tell" => { (a, b, true) }
        _ => return None,
    };
    Some(Wanted {
        from: from.parse().ok()?,
        count: count.parse().ok()?,
        tells,
    })
}

/// Prints what came of an order. Whether it came out wrong.
fn tell<R: Print>(rt: &R, number: u64, tried: &Tried, tells: bool) -> io::Result<bool> {
    let told = &tried.told;
    if let Some(wrong) = &tried.wrong {
        println!(rt; "order {number}: {wrong}")?;
    }
    if tells {
        let (choices, drivers, digest) = (told.choices, told.drivers, told.digest);
        println!(rt; "order {number}: {choices} choices, {drivers} drivers, digest {digest}")?;
    }
    Ok(tried.wrong.is_some())
}

fn main(rt: HostRuntime) -> io::Result<ExitCode> {
    let Some(line) = line_of(&rt)? else {
        return Ok(ExitCode::from(2));
    };
    let Some(wanted) = read_words(line.as_slice()) else {
        eprintln!(rt; "usage: thread-orders --from A --count B [--tell]")?;
        return Ok(ExitCode::from(2));
    };
    let mut wrong = 0u32;
    for number in wanted.from..wanted.from.saturating_add(u64::from(wanted.count)) {
        let tried = try_order(rt, number)?;
        if tell(&rt, number, &tried, wanted.tells)? {
            wrong = wrong.saturating_add(1);
        }
    }
    let count = wanted.count;
    println!(rt; "{count} orders, {wrong} wrong")?;
    Ok(ExitCode::from(if wrong == 0 { 0 } else { 1 }))
}
