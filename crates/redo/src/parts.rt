//! The parts of a record.

ghost use Rattle.std.specs.Prelude.{◌≡◌, ◌≤◌, ◌<◌, ◌+◌, ◌^◌, ◌++◌, [], ◌∷◌, length, map, take, drop};
ghost use Rattle.stable.specs.declared.Which.TheVariants.{Log};
ghost use Rattle.stable.specs.Disk.{Write};
ghost use Rattle.stable.specs.Runs.{Follows};
ghost use Rattle.redo.specs.Record.{numbers_unit as numbers_unit_of, head as head_of, first_data as first_data_of};
ghost use Rattle.redo.specs.Record.{record_units as record_units_of};
ghost use Rattle.redo.specs.Plans.{directory_writes, unit_writes};

use crate::puts::Puts;
use stable::{Storage, UNIT, Which};
use std::io;

/// How many numbers are in a unit of the directory (own): 4096 bytes hold 1024 of four bytes.
const NUMBERS: usize = 1024;

/// How many changed units are written by one call at most (own): so many are copied at a time.
const AT_ONCE: usize = 16;

/// Puts bytes at a place of a unit.
fn put_bytes(unit: &mut [u8; UNIT], at: usize, bytes: &[u8])
    requires { at + length bytes.now ≤ 4096 }
    ensures { unit.new ≡ take at unit.old ++ bytes.now ++ drop (at + length bytes.now) unit.old }
{
    unit[at..at + bytes.len()].copy_from_slice(bytes);
}

/// The head of a record (own): the letters MFSREDO1, the name of the image and the number of changed units, the most significant byte first.
pub(crate) fn head(name: u64, count: u32) -> [u8; UNIT]
    ensures { result ≡ head_of name count }
{
    let mut unit = [0; UNIT];
    put_bytes(&mut unit, 0, b"MFSREDO1");
    put_bytes(&mut unit, 8, &name.to_be_bytes());
    put_bytes(&mut unit, 16, &count.to_be_bytes());
    unit
}

/// A unit of the directory: these numbers, and zeros behind them.
fn numbers_unit(numbers: &[u32]) -> [u8; UNIT]
    requires { length numbers.now ≤ 1024 }
    ensures { result ≡ numbers_unit_of numbers.now }
{
    let mut unit = [0; UNIT];
    for (i, n) in numbers.iter().enumerate() {
        put_bytes(&mut unit, 4 * i, &n.to_be_bytes());
    }
    unit
}

/// Which unit of a record has the bytes of the first of so many changes.
pub(crate) fn first_data(count: u32) -> u64
    ensures { result ≡ first_data_of count }
{
    2 + (u64::from(count) + 1023) / 1024
}

/// How many units a record of so many changes has.
pub(crate) fn record_units(count: u32) -> u64
    ensures { result ≡ record_units_of count }
{
    first_data(count) + u64::from(count)
}

/// Writes the numbers of units to the log, from a unit on.
pub(crate) fn write_directory<S: Storage>(
    storage: &mut S,
    first: u64,
    numbers: &[u32],
) -> io::Result<()>
    requires few { length numbers.now < 2 ^ 32 }
    requires room { first < 2 ^ 32 }
    ensures { Follows (directory_writes first numbers.now) (S.known storage.old) (S.known storage.new) result }
{
    let mut rest = numbers;
    let mut at = first;
    while !rest.is_empty() {
        let (front, after) = rest.split_at(rest.len().min(NUMBERS));
        storage.write(Which::Log, at, &[numbers_unit(front)])?;
        rest = after;
        at += 1;
    }
    Ok(())
}

/// Writes the bytes of some neighbouring changes to the log, from a unit on, by one call.
fn write_run<S: Storage, P: Puts>(
    storage: &mut S,
    first: u64,
    changes: &P,
    from: usize,
    size: usize,
) -> io::Result<()>
    requires few { size ≤ 16 }
    requires there { from + size ≤ length (P.puts changes.now) }
    requires count { length (P.puts changes.now) < 2 ^ 32 }
    ensures { Follows (Write Log first (take size (drop from (map (λ w. w.1) (P.puts changes.now)))) ∷ [])
        (S.known storage.old) (S.known storage.new) result }
{
    let mut units = [[0; UNIT]; AT_ONCE];
    for i in 0..size {
        units[i] = changes.unit(from + i);
    }
    storage.write(Which::Log, first, &units[..size])
}

/// Writes the bytes of changes to the log, from a unit on, sixteen units by a call.
pub(crate) fn write_units<S: Storage, P: Puts>(
    storage: &mut S,
    first: u64,
    changes: &P,
) -> io::Result<()>
    requires room { first < 2 ^ 33 }
    ensures { Follows (unit_writes first (map (λ w. w.1) (P.puts changes.now))) (S.known storage.old) (S.known storage.new) result }
{
    let count = changes.numbers().len();
    let mut done: usize = 0;
    while done < count {
        let size = (count - done).min(AT_ONCE);
        write_run(storage, first + done as u64, changes, done, size)?;
        done += size;
    }
    Ok(())
}
