//! A recovery: what a log asks for is done, after a crash or after the program has ended.

ghost use Rattle.std.specs.Prelude.{◌≡◌, ◌≤◌, ◌<◌, ◌+◌, ◌*◌, ◌^◌, ◌++◌, ◌&&◌, length, map, ℕ, List, [], IfOk, OnOk, Some, false};
ghost use Rattle.stable.specs.declared.Which.TheVariants.{Image};
ghost use Rattle.stable.specs.Runs.{Known, now, Knows, EachMoment, Happens, Follows, ShowsLog};
ghost use Rattle.std.specs.Str.{bytes_eq};
ghost use Rattle.redo.specs.Record.{closed, name_in as name_in_bytes, count_in as count_in_bytes, is_head};
ghost use Rattle.redo.specs.Record.{numbers_in, numbers_of, changes_in, from, most, record_standing, said_from, says_of, standing, Nothing};
ghost use Rattle.redo.specs.Runs.{singly};
ghost use Rattle.redo.specs.UnderWay.{IsUnderWay};
ghost use Rattle.redo.specs.Laws.{IsRecoverable, RestsWithEither};
ghost use Rattle.redo.specs.Asked.{asks_of, answer_of};
ghost use Rattle.redo.specs.Plans.{run_write, to_image, to_recover, recover_plan};

use crate::committing::close_gate;
use crate::parts::{first_data, head, record_units};
use stable::{Storage, UNIT, Which};
use std::alloc::{AllocError, Global};
use std::io;

/// How many records a log has at most (own). Each has two units at least: so there are fewer where the next one begins before this unit.
pub const MOST: u64 = 4096;

/// What a recovery found.
#[derive(Clone, Copy, Debug, Drop, PartialEq, Eq)]
pub enum Recovered {
    /// The log asked for nothing: the image is as it was.
    AsItWas,
    /// The log's changes were done.
    Redone,
    /// The log is for another image, and nothing was done.
    Foreign,
}

/// The name in a head.
fn name_in(bytes: &[u8; UNIT]) -> u64
    ensures { result ≡ name_in_bytes bytes.now }
{
    match bytes[8..].split_first_chunk::<8>() {
        Some((name, _)) => u64::from_be_bytes(*name),
        None => 0,
    }
}

/// The count in a head.
fn count_in(bytes: &[u8; UNIT]) -> u32
    ensures { result ≡ count_in_bytes bytes.now }
{
    match bytes[16..].first_chunk::<4>() {
        Some(count) => u32::from_be_bytes(*count),
        None => 0,
    }
}

/// Adds the numbers in a unit of the directory.
fn push_numbers(numbers: &mut Vec<u32>, unit: &[u8; UNIT]) -> Result<(), AllocError>
    ensures { IfOk result (λ _. numbers.new.items ≡ numbers.old.items ++ numbers_in unit.now) }
{
    let mut rest = unit.as_slice();
    while let [a, b, c, d, after @ ..] = rest {
        numbers.push(u32::from_be_bytes([*a, *b, *c, *d]))?;
        rest = after;
    }
    Ok(())
}

/// The numbers in the directory of the record at a place.
pub(crate) fn read_numbers<S: Storage>(
    alloc: Global,
    storage: &mut S,
    at: u64,
    count: u32,
) -> io::Result<Vec<u32>>
    requires room { at ≤ 2 ^ 45 }
    ensures same { Happens [] (S.known storage.old) (S.known storage.new) }
    ensures few { IfOk result (λ v. length v.items ≤ count) }
    ensures numbers { (log : ℕ → List ℕ) → Knows (ShowsLog log) (S.known storage.old)
        → IfOk result (λ v. v.items ≡ numbers_of (from at log) count) }
{
    let mut numbers = Vec::new(alloc);
    let units = (u64::from(count) + 1023) / 1024;
    for i in 0..units {
        push_numbers(&mut numbers, &storage.read(Which::Log, at + (2 + i))?)?;
    }
    numbers.truncate(count as usize);
    Ok(numbers)
}

/// Does the changes of the record at a place.
fn redo_changes<S: Storage>(alloc: Global, storage: &mut S, at: u64, count: u32) -> io::Result<()>
    requires room { at ≤ 2 ^ 45 }
    ensures { (log : ℕ → List ℕ) → Knows (ShowsLog log) (S.known storage.old)
        → Follows (map (run_write Image) (singly (changes_in (from at log) count))) (S.known storage.old) (S.known storage.new) result }
{
    let numbers = read_numbers(alloc, storage, at, count)?;
    let first = first_data(count);
    for (i, n) in numbers.iter().enumerate() {
        let bytes = storage.read(Which::Log, at + (first + i as u64))?;
        storage.write(Which::Image, *n as u64, &[bytes])?;
    }
    Ok(())
}

/// Does the changes of the record at a place, where it is open, and says where the next one begins, and how many may follow: none where it
/// isn't open.
fn redo_record<S: Storage>(
    alloc: Global,
    storage: &mut S,
    name: u64,
    at: u64,
    left: u64,
) -> io::Result<(u64, u64)>
    requires some { 0 < left }
    requires room { at + left * 2 ^ 33 ≤ 2 ^ 45 }
    ensures follows { (log : ℕ → List ℕ) → Knows (ShowsLog log) (S.known storage.old)
        → Follows (map (run_write Image) (singly (says_of (record_standing name (from at log)))))
        (S.known storage.old) (S.known storage.new) result }
    ensures next { (log : ℕ → List ℕ) → Knows (ShowsLog log) (S.known storage.old)
        → IfOk result (λ next. said_from left name log at
        ≡ says_of (record_standing name (from at log)) ++ said_from next.1 name log next.0) }
    ensures less { IfOk result (λ next. next.1 < left) }
    ensures room { IfOk result (λ next. next.0 + next.1 * 2 ^ 33 ≤ 2 ^ 45) }
{
    match asks_at(storage, name, at)? {
        Asked::Changes(count) => {
            redo_changes(alloc, storage, at, count)?;
            Ok((at + record_units(count), left - 1))
        }
        Asked::Another | Asked::NothingMore => Ok((at, 0)),
    }
}

/// Does the changes that a log says, and closes its gate.
fn redo<S: Storage>(alloc: Global, storage: &mut S, name: u64) -> io::Result<()>
    ensures { (log : ℕ → List ℕ) → Knows (ShowsLog log) (S.known storage.old)
        → Follows (to_image (singly (said_from most name log 0))) (S.known storage.old) (S.known storage.new) result }
{
    let mut at: u64 = 0;
    let mut left: u64 = MOST;
    while left > 0 {
        let next = redo_record(alloc, storage, name, at, left)?;
        at = next.0;
        left = next.1;
    }
    storage.sync(Which::Image)?;
    close_gate(storage)
}

/// What a record's gate and head ask for.
#[derive(Clone, Copy, Debug, Drop)]
pub(crate) enum Asked {
    /// The gate isn't open.
    NothingMore,
    /// So many changes.
    Changes(u32),
    /// The record is for another image.
    Another,
}

/// Whether a gate is open: it is the head behind it, and that is a head.
fn is_open(gate: &[u8; UNIT], first: &[u8; UNIT]) -> bool
    ensures { result ≡ (bytes_eq gate.now first.now && is_head first.now) }
{
    *gate == *first && *first == head(name_in(first), count_in(first))
}

/// What a record's gate and head ask for.
fn asks(name: u64, gate: &[u8; UNIT], first: &[u8; UNIT]) -> Asked
    ensures { result ≡ asks_of name gate.now first.now }
{
    if !is_open(gate, first) {
        Asked::NothingMore
    } else if name_in(first) == name {
        Asked::Changes(count_in(first))
    } else {
        Asked::Another
    }
}

/// What the gate and the head of the record at a place ask for.
pub(crate) fn asks_at<S: Storage>(storage: &mut S, name: u64, at: u64) -> io::Result<Asked>
    requires room { at ≤ 2 ^ 45 }
    ensures same { Happens [] (S.known storage.old) (S.known storage.new) }
    ensures asked { (log : ℕ → List ℕ) → Knows (ShowsLog log) (S.known storage.old)
        → IfOk result (λ asked. asked ≡ asks_of name (log at) (log (at + 1))) }
{
    let gate = storage.read(Which::Log, at)?;
    let first = storage.read(Which::Log, at + 1)?;
    Ok(asks(name, &gate, &first))
}

/// Whether a gate is closed.
fn is_closed(gate: &[u8; UNIT]) -> bool
    ensures { result ≡ bytes_eq gate.now closed }
{
    let zeros = [0; UNIT];
    *gate == zeros
}

/// Closes the first gate of a log that asks for nothing, where it isn't closed.
fn shut<S: Storage>(storage: &mut S) -> io::Result<()>
    ensures { (log : ℕ → List ℕ) → Knows (ShowsLog log) (S.known storage.old)
        → Follows (to_recover Nothing (log 0)) (S.known storage.old) (S.known storage.new) result }
{
    let gate = storage.read(Which::Log, 0)?;
    if is_closed(&gate) {
        return Ok(());
    }
    close_gate(storage)
}

/// Does what the log asks for, where a crash leaves what is read of it.
fn act<S: Storage>(alloc: Global, storage: &mut S, name: u64) -> io::Result<Recovered>
    ensures follows { (log : ℕ → List ℕ) → Knows (ShowsLog log) (S.known storage.old)
        → Follows (to_recover (standing name log) (log 0)) (S.known storage.old) (S.known storage.new) result }
    ensures answer { (log : ℕ → List ℕ) → Knows (ShowsLog log) (S.known storage.old)
        → IfOk result (λ answer. answer ≡ answer_of (standing name log)) }
{
    let asked = asks_at(storage, name, 0)?;
    match asked {
        Asked::Changes(_) => {
            redo(alloc, storage, name)?;
            Ok(Recovered::Redone)
        }
        Asked::Another => Ok(Recovered::Foreign),
        Asked::NothingMore => {
            shut(storage)?;
            Ok(Recovered::AsItWas)
        }
    }
}

/// Does what the log asks for, step by step of the plan.
fn recover_by_plan<S: Storage>(alloc: Global, storage: &mut S, name: u64) -> io::Result<Recovered>
    ensures follows { (k : Known) → S.known storage.old ≡ Some k → (now k).log.failed ≡ false
        → Follows (recover_plan name (now k).log.shows) (S.known storage.old) (S.known storage.new) result }
    ensures answer { (k : Known) → S.known storage.old ≡ Some k → (now k).log.failed ≡ false
        → IfOk result (λ answer. answer ≡ answer_of (standing name (now k).log.shows)) }
{
    storage.sync(Which::Log)?;
    act(alloc, storage, name)
}

/// Does what the log asks for, for the image of this name, in files that were just opened. It may be cut off at any moment, and then done
/// again.
///
/// What a program that ended has written to the log is kept first, so that what is read is what a crash would leave. Where a commit or a
/// recovery was cut off, the image found is the one before that commit or the one after it. It takes four bytes of memory a changed unit of
/// a record, and waits for three syncs at most.
pub fn recover<S: Storage>(alloc: Global, storage: &mut S, name: u64) -> io::Result<Recovered>
    ensures follows { (k : Known) → S.known storage.old ≡ Some k → (now k).log.failed ≡ false
        → Follows (recover_plan name (now k).log.shows) (S.known storage.old) (S.known storage.new) result }
    ensures answer { (k : Known) → S.known storage.old ≡ Some k → (now k).log.failed ≡ false
        → IfOk result (λ answer. answer ≡ answer_of (standing name (now k).log.shows)) }
    ensures any_moment { (before after : ℕ → List ℕ) → Knows (IsRecoverable name before after) (S.known storage.old)
        → EachMoment (IsUnderWay name before after) (S.known storage.old) (S.known storage.new) }
    ensures ok { (before after : ℕ → List ℕ) → Knows (IsRecoverable name before after) (S.known storage.old)
        → OnOk result (Knows (RestsWithEither before after) (S.known storage.new)) }
{
    recover_by_plan(alloc, storage, name)
}
