//! Each play that is written as text.
use crate::{
    attributes, bytes, calls, followed, full, images, links, moves, opened, opening, places,
    recalled, renames,
};
use fixtures_plays::texts::{all_are_played, both_are_played};
use std::alloc::Global;
use std::sync::Wait;
use std::test::Fail;
use std::thread::Threads;
use std::time::Clock;

/// The texts of plays, and how many plays each has.
type Plays = [(&'static str, usize); 3];

/// Each is played.
fn are_answered<R: Threads + Wait + Clock + Copy + Send + Sync + 'static>(
    alloc: Global,
    rt: R,
    plays: &Plays,
) -> Result<(), Fail> {
    for (text, count) in plays {
        all_are_played(alloc, rt, text, *count)?;
    }
    Ok(())
}

static OPENS: Plays = [
    (opening::PLAYS, 6),
    (opened::PLAYS, 5),
    (attributes::PLAYS, 4),
];

#[test]
fn opens_are_answered(rt: HostRuntime) -> Result<(), Fail> {
    are_answered(rt.alloc(), rt, &OPENS)
}

static PLACES: Plays = [(bytes::PLAYS, 10), (places::PLAYS, 5), (full::PLAYS, 2)];

#[test]
fn reads_and_writes_are_answered(rt: HostRuntime) -> Result<(), Fail> {
    are_answered(rt.alloc(), rt, &PLACES)
}

static NAMES: Plays = [(renames::PLAYS, 9), (moves::PLAYS, 11), (links::PLAYS, 7)];

#[test]
fn calls_on_names_are_answered(rt: HostRuntime) -> Result<(), Fail> {
    are_answered(rt.alloc(), rt, &NAMES)
}

#[test]
fn names_that_changed_are_answered(rt: HostRuntime) -> Result<(), Fail> {
    all_are_played(rt.alloc(), rt, recalled::PLAYS, 6)
}

static REST: Plays = [
    (calls::PLAYS, 20),
    (images::PLAYS, 3),
    (followed::PLAYS, 11),
];

/// At last one is played that another service reads from the image that is left.
#[test]
fn each_call_is_answered(rt: HostRuntime) -> Result<(), Fail> {
    are_answered(rt.alloc(), rt, &REST)?;
    both_are_played(rt.alloc(), rt, images::FILLS, images::READS)
}
