//! Reading an image whose log may ask for changes, without writing.

ghost use Rattle.std.specs.Prelude.{◌≡◌, ◌+◌, ◌-◌, ◌*◌, ◌≤◌, ◌++◌, ℕ, List, [], length, min, take, drop, OnOk, OnErr, Some, Err, false};
ghost use Rattle.stable.specs.Disk.{set, put};
ghost use Rattle.stable.specs.Runs.{Known, now, Happens};
ghost use Rattle.changes.specs.Units.{unit_of};
ghost use Rattle.redo.specs.Record.{standing, Foreign};
ghost use Rattle.image_file.specs.Images.{IsReadThrough, within};

use crate::refusal::OpenRefusal;
use redo::{Logged, read_log};
use stable::{Storage, UNIT};
use std::alloc::Global;

/// Puts the first bytes of a unit at a place of an image.
fn put_bytes(image: &mut [u8], first: usize, count: usize, unit: &[u8; UNIT])
    requires there { first + count ≤ length image.old }
    requires few { count ≤ 4096 }
    ensures { image.new ≡ take first image.old ++ take count unit.now ++ drop (first + count) image.old }
{
    image[first..first + count].copy_from_slice(&unit[..count]);
}

/// Puts a unit at its place in an image, as far as the image goes.
fn put_unit(image: &mut [u8], number: u32, unit: &[u8; UNIT])
    ensures size { length image.new ≡ length image.old }
    ensures units { (n : ℕ) → unit_of image.new n ≡ within (length image.old) n (set (unit_of image.old) (number, unit.now) n) }
{
    let first = (number as usize * UNIT).min(image.len());
    let count = (image.len() - first).min(UNIT);
    put_bytes(image, first, count, unit);
}

/// Puts units at their places in an image, as far as it goes.
fn put_units(image: &mut [u8], changes: &[(u32, [u8; UNIT])])
    ensures size { length image.new ≡ length image.old }
    ensures units { (n : ℕ) → unit_of image.new n ≡ within (length image.old) n (put changes.now (unit_of image.old) n) }
{
    for (number, unit) in changes {
        put_unit(image, *number, unit);
    }
}

/// Makes of the bytes of an image file what a recovery of its log would make of it now, for a program that only reads: nothing is written.
/// `name` is that of the image. It takes memory for what is logged. Where it is refused, the bytes stay.
pub fn read_through<S: Storage>(
    alloc: Global,
    storage: &mut S,
    name: u64,
    image: &mut [u8],
) -> Result<(), OpenRefusal>
    ensures same { Happens [] (S.known storage.old) (S.known storage.new) }
    ensures read { (k : Known) → S.known storage.old ≡ Some k → (now k).log.failed ≡ false
        → OnOk result (IsReadThrough name (now k).log.shows image.old image.new) }
    ensures foreign { (k : Known) → S.known storage.old ≡ Some k → (now k).log.failed ≡ false
        → result ≡ Err OpenRefusal.Foreign → standing name (now k).log.shows ≡ Foreign }
    ensures refused { OnErr result (image.new ≡ image.old) }
{
    match read_log(alloc, storage, name)? {
        Logged::Nothing => Ok(()),
        Logged::Changes(changes) => {
            put_units(image, &changes);
            Ok(())
        }
        Logged::Foreign => Err(OpenRefusal::Foreign),
    }
}
