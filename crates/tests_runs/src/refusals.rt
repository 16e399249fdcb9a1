//! What isn't run, and what is said of it.

use crate::compared::refused::{Refused, Told, is_refused, is_told_first};
use media::MediaRefusal;
use media::partition::PartitionRefusal;
use media::partition::place::PlaceRefusal;
use simulation::world::RunRefusal;
use std::test::Fail;
use volume::Finding;

/// A driver of the volume's 128 sectors that is new.
const NEW: (u32, bool) = (128, true);

/// The zone map has a zone that isn't used.
const FOUND: RunRefusal = RunRefusal::NotClean(Finding {
    number: 9,
    place: 7,
});

static ROWS: [Refused; 9] = [
    // No number of ticks without a sign of life may be a fault. That is told before the want of drivers.
    (0, 64, 3, &[NEW], RunRefusal::BadSetup),
    (0, 64, 3, &[], RunRefusal::BadSetup),
    // One frame less than the least number.
    (3, 15, 3, &[NEW], RunRefusal::BadSetup),
    (3, 15, 3, &[], RunRefusal::BadSetup),
    // The second driver serves half of the volume, or took a request before.
    (3, 64, 3, &[NEW, (64, true)], RunRefusal::BadSetup),
    (3, 64, 3, &[NEW, (128, false)], RunRefusal::BadSetup),
    (3, 64, 3, &[], RunRefusal::NoDriver),
    // A finding is told before a bad setup.
    (3, 64, 7, &[], FOUND),
    (3, 15, 7, &[], FOUND),
];

#[test]
fn runs_are_refused(rt: HostRuntime) -> Result<(), Fail> {
    for (number, row) in ROWS.iter().enumerate() {
        is_refused(rt.alloc(), number, row)?;
    }
    Ok(())
}

static NUMBERS: [(RunRefusal, u32); 8] = [
    (FOUND, 3),
    (
        RunRefusal::Partition(PlaceRefusal::Table(PartitionRefusal::NoSignature)),
        2,
    ),
    (RunRefusal::Partition(PlaceRefusal::NoPartition), 2),
    (RunRefusal::Media(MediaRefusal::NotWholeSectors), 1),
    (RunRefusal::Media(MediaRefusal::TooLarge), 1),
    (RunRefusal::BadSetup, 4),
    (RunRefusal::NoDriver, 5),
    (RunRefusal::OutOfMemory, 6),
];

#[test]
fn refusals_have_numbers(_rt: HostRuntime) -> Result<(), Fail> {
    for (refusal, number) in &NUMBERS {
        if refusal.number() != *number {
            return Err(Fail::new(format_args!("{refusal}")));
        }
    }
    Ok(())
}

/// A schedule of two lines.
const TWO: Option<&[u8]> = Some(b"call 0 0 0 100 stat /\nstep 1\n");

static TOLD: [Told; 12] = [
    (
        Some((3072, 7, 65536)),
        TWO,
        64,
        0,
        "NotClean finding 9 at 7\n",
    ),
    (
        Some((1048, 0, 65536)),
        TWO,
        64,
        0,
        "NotClean finding 1 at 2\n",
    ),
    (Some((0, 0, 65536)), TWO, 15, 0, "BadSetup\n"),
    (Some((0, 0, 65536)), TWO, 64, 1, "Partition NoSignature\n"),
    (None, None, 64, 0, "cannot read v.img\n"),
    (None, Some(b"step\n"), 64, 0, "cannot read v.img\n"),
    (Some((0, 0, 65536)), None, 64, 0, "cannot read s.txt\n"),
    (Some((0, 0, 1023)), None, 64, 0, "cannot read s.txt\n"),
    (
        Some((0, 0, 1023)),
        Some(b"tick\nstep\n"),
        64,
        0,
        "bad line 2 of s.txt\n",
    ),
    (
        Some((0, 0, 65536)),
        Some(b"tick\nflush"),
        64,
        0,
        "bad line 2 of s.txt\n",
    ),
    (
        Some((0, 0, 1023)),
        Some(b"tick\n"),
        64,
        0,
        "Media NotWholeSectors\n",
    ),
    (
        Some((0, 0, 512)),
        Some(b""),
        64,
        0,
        "NotClean finding 1 at 1\n",
    ),
];

#[test]
fn refusals_are_told(rt: HostRuntime) -> Result<(), Fail> {
    for row in &TOLD {
        is_told_first(rt.alloc(), row)?;
    }
    Ok(())
}
