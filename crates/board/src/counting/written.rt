//! Which units of a volume's range writes have bytes in.

ghost use Rattle.std.specs.Prelude.{◌≡◌, ◌<◌, ◌||◌, ℕ, [], length, IfOk};
ghost use Rattle.changes.specs.Units.{is_marked};
ghost use Rattle.board.specs.Written.{AreWritten, DiskStaysUnwritten, writes_in};

use changes::Marks;
use message::{BlockRequest, Kind};
use std::alloc::{AllocError, Global};

/// How many units of 4096 bytes the largest volume has (own): 64 MiB.
const MOST_UNITS: u32 = 16384;

/// The bytes of a unit.
const UNIT: u128 = 4096;

/// Marks for all units that a volume may have, none of which is marked. Refused where no memory was found.
pub(crate) fn none_written(alloc: Global) -> Result<Marks, AllocError>
    ensures { IfOk result (λ units. AreWritten units []) }
{
    let units = Marks::new(alloc, MOST_UNITS)?;
    Ok(units)
}

/// Marks the units in which a request has a byte, if it is a write.
pub(crate) fn mark_written(units: &mut Marks, request: &BlockRequest)
    requires { length units.old ≡ 16384 }
    ensures number { length units.new ≡ 16384 }
    ensures each { (n : ℕ) → n < 16384 → is_marked units.new n ≡ (writes_in request.now n || is_marked units.old n) }
{
    if request.kind == Kind::Read || request.count == 0 {
        return;
    }
    let last = request.position as u128 + (request.count as u128 - 1);
    let first = (request.position as u128 / UNIT).min(MOST_UNITS as u128) as u32;
    let end = (last / UNIT + 1).min(MOST_UNITS as u128) as u32;
    for unit in first..end {
        units.mark(unit);
    }
}

/// In a unit in which no write of a record has a byte the disk is as it was at first, whatever the replies.
#[tactic(auto, using(crate::proofs::Written::disk_stays_unwritten))]
pub fn disk_stays_unwritten()
    ensures { DiskStaysUnwritten }
{}
