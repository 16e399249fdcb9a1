//! Commits: changed units of an image go to a log, so that a crash leaves the image before or the image after.

ghost use Rattle.std.specs.Prelude.{ℕ, List, ◌≡◌, ◌+◌, ◌<◌, ◌^◌, length, map, IfOk, OnOk};
ghost use Rattle.stable.specs.Disk.{put};
ghost use Rattle.stable.specs.Runs.{Follows, Knows, EachMoment};
ghost use Rattle.redo.specs.Record.{closed, most, head as head_of, record_units as record_units_of};
ghost use Rattle.redo.specs.Plans.{log_plan, to_gate, body_writes};
ghost use Rattle.redo.specs.UnderWay.{Fits, IsCurrent, IsUnderWay};
ghost use Rattle.redo.specs.Laws.{FindsEither};

use crate::parts::{first_data, head, record_units, write_directory, write_units};
use crate::puts::Puts;
use stable::{Storage, UNIT, Which};
use std::io;

/// Writes a record behind its gate, and the next gate, closed.
fn write_body<S: Storage, P: Puts>(
    storage: &mut S,
    name: u64,
    at: u64,
    numbers: &[u32],
    changes: &P,
) -> io::Result<()>
    requires few { length numbers.now < 2 ^ 32 }
    requires room { at < most }
    ensures { Follows (body_writes name at numbers.now (map (λ w. w.1) (P.puts changes.now)))
        (S.known storage.old) (S.known storage.new) result }
{
    let count = numbers.len() as u32;
    storage.write(Which::Log, at + 1, &[head(name, count)])?;
    write_directory(storage, at + 2, numbers)?;
    write_units(storage, at + first_data(count), changes)?;
    storage.write(Which::Log, at + record_units(count), &[[0; UNIT]])
}

/// Writes a gate of the log, and waits until a crash leaves that.
fn write_gate<S: Storage>(storage: &mut S, at: u64, gate: &[u8; UNIT]) -> io::Result<()>
    ensures { Follows (to_gate at gate.now) (S.known storage.old) (S.known storage.new) result }
{
    storage.write(Which::Log, at, &[*gate])?;
    storage.sync(Which::Log)
}

/// Closes the first gate of the log, and waits until a crash leaves that: then the log asks for nothing.
pub(crate) fn close_gate<S: Storage>(storage: &mut S) -> io::Result<()>
    ensures { Follows (to_gate 0 closed) (S.known storage.old) (S.known storage.new) result }
{
    write_gate(storage, 0, &[0; UNIT])
}

/// Logs changes of these numbers, step by step of the plan.
fn log_by_plan<S: Storage, P: Puts>(
    storage: &mut S,
    name: u64,
    at: u64,
    numbers: &[u32],
    changes: &P,
) -> io::Result<u64>
    requires room { at < most }
    requires numbers { numbers.now ≡ map (λ w. w.0) (P.puts changes.now) }
    requires few { length numbers.now < 2 ^ 32 }
    ensures follows { Follows (log_plan name at (P.puts changes.now)) (S.known storage.old) (S.known storage.new) result }
    ensures next { IfOk result (λ next. next ≡ at + record_units_of (length (P.puts changes.now))) }
    ensures fits { Fits (P.puts changes.now) }
{
    let count = numbers.len() as u32;
    write_body(storage, name, at, numbers, changes)?;
    storage.sync(Which::Log)?;
    write_gate(storage, at, &head(name, count))?;
    Ok(at + record_units(count))
}

/// Logs changed units of an image, in the record at a place. A later change of the same unit counts. `name` is that of the image (own):
/// `recover` does nothing to an image of another name. The first record goes to unit 0 of a log at rest. At ok it says where the next one
/// goes; where that is unit 4096 or behind it, `recover` comes first. At most sixteen units are copied at a time.
///
/// Once it is `Ok`, each crash leaves the image with the changes. The image file has them once `recover` was called. After an error the
/// files are to be opened again, and the log recovered. It waits for two syncs.
pub fn log<S: Storage, P: Puts>(storage: &mut S, name: u64, at: u64, changes: &P) -> io::Result<u64>
    requires room { at < most }
    ensures follows { Follows (log_plan name at (P.puts changes.now)) (S.known storage.old) (S.known storage.new) result }
    ensures next { IfOk result (λ next. next ≡ at + record_units_of (length (P.puts changes.now))) }
    ensures any_moment { (image : ℕ → List ℕ) → Knows (IsCurrent name at image) (S.known storage.old)
        → EachMoment (FindsEither name image (put (P.puts changes.now) image)) (S.known storage.old) (S.known storage.new) }
    ensures under_way { (image : ℕ → List ℕ) → Knows (IsCurrent name at image) (S.known storage.old)
        → EachMoment (IsUnderWay name image (put (P.puts changes.now) image)) (S.known storage.old) (S.known storage.new) }
    ensures ok { (image : ℕ → List ℕ) → Knows (IsCurrent name at image) (S.known storage.old)
        → OnOk result (Knows (IsCurrent name (at + record_units_of (length (P.puts changes.now))) (put (P.puts changes.now) image))
        (S.known storage.new)) }
{
    log_by_plan(storage, name, at, changes.numbers(), changes)
}
