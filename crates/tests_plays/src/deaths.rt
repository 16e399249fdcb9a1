//! Drivers that die, hang or answer wrongly in the middle of a read, and what they leave.
use errno::Errno;
use fixtures_plays::deaths::{AtHang, OverDrivers, Told, all_come_out, all_go_on};
use fixtures_plays::plays::HONEST;
use message::endpoint::{SlotRefusal, Slots};
use modeldisk::FaultKind;
use std::test::Fail;

/// What is played.
const TWICE: &[u8] = b"user 0 0\n100 stat /\n101 stat /\n";

const SERVED: Told = (
    0,
    "session 0
inode 1 mode 0040755 links 2 uid 0 gid 0 size 128 times 50 50 50
inode 1 mode 0040755 links 2 uid 0 gid 0 size 128 times 50 50 50
",
    "",
);

const GIVEN_UP: Told = (3, "session 0\nEIO\nEIO\n", "");

const DIES: Option<(u32, FaultKind)> = Some((0, FaultKind::Die));

const DIES_LATER: Option<(u32, FaultKind)> = Some((1, FaultKind::Die));

const STOPS_SHORT: Option<(u32, FaultKind)> = Some((0, FaultKind::Short));

const GIVES_HALF: Option<(u32, FaultKind)> = Some((1, FaultKind::Short));

const ERRS: Option<(u32, FaultKind)> = Some((0, FaultKind::Error(Errno::EIO)));

/// An error that is an answer to calls too.
const IS_FULL: Option<(u32, FaultKind)> = Some((0, FaultKind::Error(Errno::ENOSPC)));

/// Request 1 is the first call's read: the start asks nothing of a driver. All drivers are those that were handed in, in their order.
static ROWS: [OverDrivers; 13] = [
    (None, 1, &[DIES_LATER, None], TWICE, SERVED),
    (None, 1, &[DIES, DIES, None], TWICE, SERVED),
    // Where none of them serves, each call is answered EIO.
    (None, 1, &[DIES_LATER], TWICE, GIVEN_UP),
    // The rest is issued under a new id, without a complaint: the one driver goes on.
    (None, 1, &[GIVES_HALF], TWICE, SERVED),
    (None, 1, &[ERRS, STOPS_SHORT, None], TWICE, SERVED),
    (None, 1, &[ERRS], TWICE, GIVEN_UP),
    // No call is answered with a driver's error.
    (None, 1, &[IS_FULL, IS_FULL, None], TWICE, SERVED),
    (None, 1, &[IS_FULL], TWICE, GIVEN_UP),
    (None, 1, &[STOPS_SHORT], TWICE, GIVEN_UP),
    // A block that has a frame isn't asked for again: both calls are served by one that would die in its second request.
    (None, 2, &[DIES], TWICE, SERVED),
    // What is only read stays byte by byte.
    (
        None,
        1,
        HONEST,
        b"user 0 0\n100 stat /\n100 open / r 0\n100 readdir 0\n",
        (
            0,
            "session 0
inode 1 mode 0040755 links 2 uid 0 gid 0 size 128 times 50 50 50
fd 0
names 0
",
            "",
        ),
    ),
    // Where the device is given up the image is there as the media stand.
    (
        None,
        1,
        &[DIES],
        b"user 0 0\n100 stat /\n",
        (3, "session 0\nEIO\n", ""),
    ),
    // So it is, and the status says so, where that happened in the last sync alone: request 1 reads the root's inode, the next one writes
    // it.
    (
        None,
        2,
        &[DIES],
        b"user 0 0\n100 chmod / 700\n",
        (3, "session 0\nok\n", ""),
    ),
];

/// Each number of a policy is the one that was handed in.
static POLICIES: [OverDrivers; 6] = [
    // With no fault allowed, the first one's death is the last.
    (Some((0, 32, 64)), 1, &[DIES, None], TWICE, GIVEN_UP),
    (Some((0, 32, 64)), 1, &[None, DIES], TWICE, SERVED),
    // Each driver but the last dies at the tick of its start; starts come 1, 2 and 4 ticks after the first, second and third fault in a
    // row, or after the cap. Faults 1 to 5 are allowed: the sixth driver serves.
    (
        Some((5, 32, 64)),
        1,
        &[DIES, DIES, DIES, DIES, DIES, None],
        TWICE,
        SERVED,
    ),
    (
        Some((4, 32, 64)),
        1,
        &[DIES, DIES, DIES, DIES, DIES, None],
        TWICE,
        GIVEN_UP,
    ),
    (
        Some((6, 32, 64)),
        1,
        &[DIES, DIES, DIES, DIES, DIES, DIES, None],
        TWICE,
        SERVED,
    ),
    (
        Some((5, 32, 64)),
        1,
        &[DIES, DIES, DIES, DIES, DIES, DIES, None],
        TWICE,
        GIVEN_UP,
    ),
];

/// So is its calm.
static CALMS: [OverDrivers; 4] = [
    // Faults at ticks 0 and 1: after one tick of calm the second counts as a first one.
    (Some((1, 32, 1)), 1, &[DIES, DIES, None], TWICE, SERVED),
    (Some((1, 32, 2)), 1, &[DIES, DIES, None], TWICE, GIVEN_UP),
    // Faults at ticks 0, 1 and 3, or 0, 1 and 2: the third comes two ticks after the second, or one.
    (
        Some((2, 32, 2)),
        1,
        &[DIES, DIES, DIES, None],
        TWICE,
        SERVED,
    ),
    (
        Some((2, 1, 2)),
        1,
        &[DIES, DIES, DIES, None],
        TWICE,
        GIVEN_UP,
    ),
];

/// Nothing that these plays do reaches the image, which stays a sound volume.
#[test]
fn replies_outlive_drivers(rt: HostRuntime) -> Result<(), Fail> {
    all_come_out(rt.alloc(), rt, &ROWS)?;
    let mut slots = Slots::new();
    assert!(rt; matches!(slots.start(16), Err(SlotRefusal::NoSuchSlot)));
    Ok(())
}

#[test]
fn faults_are_allowed(rt: HostRuntime) -> Result<(), Fail> {
    all_come_out(rt.alloc(), rt, &POLICIES)
}

#[test]
fn faults_after_a_calm_are_first_ones(rt: HostRuntime) -> Result<(), Fail> {
    all_come_out(rt.alloc(), rt, &CALMS)
}

/// What is written and read back.
const WRITES: &[u8] =
    b"user 0 0\n100 open /f rwc 644\n100 write 0 68\n100 sync\n100 seek 0 set 0\n100 read 0 9\n";

const WRITTEN: &str = "session 0\nfd 0\nwrote 1\nok\nat 0\nbytes 68\n";

/// A block is read as two sectors, one a step. The first driver hangs before its first step, in the first read of the call, after it, and
/// in the second one.
static HANGS: [AtHang; 4] = [
    (0, WRITES, WRITTEN),
    (1, WRITES, WRITTEN),
    (2, WRITES, WRITTEN),
    (3, WRITES, WRITTEN),
];

/// A play whose driver hangs goes on after three ticks.
#[test]
fn a_driver_that_hangs_is_replaced(rt: HostRuntime) -> Result<(), Fail> {
    all_go_on(rt.alloc(), rt, &HANGS)
}
