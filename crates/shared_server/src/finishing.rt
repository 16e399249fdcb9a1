//! What comes of the last sync of a service, and the places of its volume that are read back.

ghost use Rattle.std.specs.Prelude.{◌≡◌, ◌≤◌, ◌<◌, ◌+◌, ◌*◌, ◌%◌, ◌↔◌, IfOk, ℕ, false, true};
ghost use Rattle.changes.specs.Units.{Covers, is_marked};
ghost use Rattle.shared_server.specs.Finishing.{ArePlacesOf, IsPlaceOf};

use changes::Marks;
use std::alloc::{AllocError, Global};
use volume_reading::{Place, ReadRoom};

/// The bytes of the largest volume (own): 64 MiB.
pub(crate) const MOST: u64 = 67108864;

/// The bytes of a unit.
const UNIT: u64 = 4096;

/// How many units are read back in one piece at most: 1 MiB.
const UNITS_AT_ONCE: u32 = 256;

/// What it takes to read back what was written of a volume's range.
#[derive(Drop)]
pub(crate) struct Reading {
    /// Room for the reads.
    pub(crate) room: ReadRoom,
    /// The places of the range that are to be read back, in order.
    pub(crate) places: Vec<Place>,
    /// Which units of 4096 bytes they lie in.
    pub(crate) units: Marks,
}

/// What came of a last sync, and of reading back what was written of the volume's range.
#[derive(Drop)]
pub enum Finish {
    /// The sync was answered ok, and what lies in these units of 4096 bytes of the range was read back, and taken: no write that was issued
    /// has a byte elsewhere.
    Read(Marks),
    /// The sync was answered ok, and what was written wasn't read back, or not all: no memory was found for it, no volume is so large as
    /// the range, or more was written meanwhile.
    Unread,
    /// The device was given up.
    GivenUp,
    /// The link to the drivers had ended.
    Cut,
}

/// Where marked units that lie side by side end, from one on: that one, where it isn't marked. None is looked at from `count` on.
fn end_of_run(units: &Marks, from: u32, count: u32) -> u32
    requires { from ≤ count }
    ensures within { (from ≤ result) × (result ≤ count) }
    ensures none { result ≡ from → from < count → is_marked units.now from ≡ false }
    ensures marked { (n : ℕ) → from ≤ n → n < result → is_marked units.now n ≡ true }
{
    for unit in from..count {
        if !units.has(unit) {
            return unit;
        }
    }
    count
}

/// The place of a range of this size that lies in units from `first` to before `end`, of which there are 256 at most.
fn place_of(first: u32, end: u32, size: u64) -> Place
    requires some { first < end }
    requires few { end ≤ first + 256 }
    requires starts { 4096 * first < size }
    requires most { size ≤ 67108864 }
    ensures { IsPlaceOf first end size result }
{
    let start = u64::from(first) * UNIT;
    let behind = (u64::from(end) * UNIT).min(size);
    Place {
        start,
        size: (behind - start) as u32,
    }
}

/// The places of a range of this size, a multiple of 512, that lie in marked units, in order, each of 1 MiB at most. Refused where no
/// memory was found for them.
fn places_of(alloc: Global, units: &Marks, size: u64) -> Result<Vec<Place>, AllocError>
    requires whole { size % 512 ≡ 0 }
    requires most { size ≤ 67108864 }
    ensures { IfOk result (λ places. ArePlacesOf units.now size places.items) }
{
    let count = ((size + (UNIT - 1)) / UNIT) as u32;
    let mut places = Vec::new(alloc);
    let mut next: u32 = 0;
    while next < count {
        let end = end_of_run(units, next, count.min(next + UNITS_AT_ONCE));
        if next < end {
            places.push(place_of(next, end, size))?;
        }
        next = end.max(next + 1);
    }
    Ok(places)
}

/// The places of a range of this size, a multiple of 512, that are to be read back where these units were written, and room to read them.
/// Refused where no memory was found.
pub(crate) fn room_for(alloc: Global, units: &Marks, size: u64) -> Result<Reading, AllocError>
    requires whole { size % 512 ≡ 0 }
    requires most { size ≤ 67108864 }
    ensures units { IfOk result (λ reading. reading.units ≡ units.now) }
    ensures places { IfOk result (λ reading. ArePlacesOf units.now size reading.places.items) }
{
    let room = ReadRoom::new(alloc)?;
    let places = places_of(alloc, units, size)?;
    let units = units.copied(alloc)?;
    Ok(Reading {
        room,
        places,
        units,
    })
}

/// Whether the same units are marked.
pub(crate) fn are_same(units: &Marks, others: &Marks) -> bool
    ensures { (result ≡ true) ↔ (Covers units.now others.now × Covers others.now units.now) }
{
    units.covers(others) && others.covers(units)
}
