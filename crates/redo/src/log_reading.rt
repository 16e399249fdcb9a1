//! What a log says, for a program that only reads the image.

ghost use Rattle.std.specs.Prelude.{◌≡◌, ◌≤◌, ◌<◌, ◌+◌, ◌*◌, ◌^◌, ◌++◌, ℕ, List, [], IfOk, OnOk};
ghost use Rattle.stable.specs.Runs.{Knows, Happens, ShowsLog};
ghost use Rattle.redo.specs.Record.{changes_in, from, most, said_from, standing};
ghost use Rattle.redo.specs.Asked.{standing_of};

use crate::parts::{first_data, record_units};
use crate::recovering::{Asked, MOST, asks_at, read_numbers};
use stable::{Storage, UNIT, Which};
use std::alloc::Global;
use std::io;

/// What a log says of an image.
#[derive(Drop)]
pub enum Logged {
    /// Nothing: the image is as it stands.
    Nothing,
    /// Units of the image, by their numbers, have these bytes. A later one of the same number counts.
    Changes(Vec<(u32, [u8; UNIT])>),
    /// Nothing of this image: the log is for another one.
    Foreign,
}

/// Adds the changes of the record at a place.
fn read_changes<S: Storage>(
    alloc: Global,
    storage: &mut S,
    at: u64,
    count: u32,
    changes: &mut Vec<(u32, [u8; UNIT])>,
) -> io::Result<()>
    requires room { at ≤ 2 ^ 45 }
    ensures same { Happens [] (S.known storage.old) (S.known storage.new) }
    ensures changes { (log : ℕ → List ℕ) → Knows (ShowsLog log) (S.known storage.old)
        → OnOk result (changes.new.items ≡ changes.old.items ++ changes_in (from at log) count) }
{
    let numbers = read_numbers(alloc, storage, at, count)?;
    let first = first_data(count);
    for (i, n) in numbers.iter().enumerate() {
        let bytes = storage.read(Which::Log, at + (first + i as u64))?;
        changes.push((*n, bytes))?;
    }
    Ok(())
}

/// Adds the changes of the record at a place, where it is open, and says where the next one begins, and how many may follow: none where it
/// isn't open.
fn read_record<S: Storage>(
    alloc: Global,
    storage: &mut S,
    name: u64,
    at: u64,
    left: u64,
    changes: &mut Vec<(u32, [u8; UNIT])>,
) -> io::Result<(u64, u64)>
    requires some { 0 < left }
    requires room { at + left * 2 ^ 33 ≤ 2 ^ 45 }
    ensures same { Happens [] (S.known storage.old) (S.known storage.new) }
    ensures changes { (log : ℕ → List ℕ) → Knows (ShowsLog log) (S.known storage.old)
        → IfOk result (λ next. changes.new.items ++ said_from next.1 name log next.0
        ≡ changes.old.items ++ said_from left name log at) }
    ensures less { IfOk result (λ next. next.1 < left) }
    ensures room { IfOk result (λ next. next.0 + next.1 * 2 ^ 33 ≤ 2 ^ 45) }
{
    match asks_at(storage, name, at)? {
        Asked::Changes(count) => {
            read_changes(alloc, storage, at, count, changes)?;
            Ok((at + record_units(count), left - 1))
        }
        Asked::Another | Asked::NothingMore => Ok((at, 0)),
    }
}

/// The changes that a log says.
fn read_all<S: Storage>(
    alloc: Global,
    storage: &mut S,
    name: u64,
) -> io::Result<Vec<(u32, [u8; UNIT])>>
    ensures same { Happens [] (S.known storage.old) (S.known storage.new) }
    ensures changes { (log : ℕ → List ℕ) → Knows (ShowsLog log) (S.known storage.old)
        → IfOk result (λ changes. changes.items ≡ said_from most name log 0) }
{
    let mut changes = Vec::new(alloc);
    let mut at: u64 = 0;
    let mut left: u64 = MOST;
    while left > 0 {
        let next = read_record(alloc, storage, name, at, left, &mut changes)?;
        at = next.0;
        left = next.1;
    }
    Ok(changes)
}

/// Reads what the log says of the image of this name: what a recovery would do now. Nothing is written. It takes memory for what is logged.
pub fn read_log<S: Storage>(alloc: Global, storage: &mut S, name: u64) -> io::Result<Logged>
    ensures same { Happens [] (S.known storage.old) (S.known storage.new) }
    ensures says { (log : ℕ → List ℕ) → Knows (ShowsLog log) (S.known storage.old)
        → IfOk result (λ logged. standing_of logged ≡ standing name log) }
{
    let asked = asks_at(storage, name, 0)?;
    match asked {
        Asked::Changes(_) => Ok(Logged::Changes(read_all(alloc, storage, name)?)),
        Asked::Another => Ok(Logged::Foreign),
        Asked::NothingMore => Ok(Logged::Nothing),
    }
}
