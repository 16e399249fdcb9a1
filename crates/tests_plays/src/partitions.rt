//! Volumes in partitions of an image: a new volume of 128 sectors behind a sector with a table, from sector 1 on; and four of them.
use crate::writers::{STAT, TOLD};
use fixtures_plays::disks::{OnDisk, are_served};
use fixtures_plays::partitions::{Written, are_written};
use std::test::Fail;

/// Tables with one entry, minors, and what comes of a script there.
static ROWS: [OnDisk; 8] = [
    ((0x81, 128, 0xaa), 2, 0, TOLD, ""),
    ((0x81, 128, 0x55), 2, 1, "", "Partition NoSignature\n"),
    ((0x81, 129, 0xaa), 2, 1, "", "Partition PastMedia\n"),
    ((0x83, 128, 0xaa), 2, 1, "", "Partition\n"),
    ((0x81, 128, 0xaa), 1, 1, "", "Partition\n"),
    ((0x81, 128, 0xaa), 5, 1, "", "Partition\n"),
    ((0x81, 128, 0xaa), 255, 1, "", "Partition\n"),
    ((0x81, 128, 0xaa), 0, 1, "", "Mount Layout BadMagic\n"),
];

#[test]
fn partitions_are_served_or_refused_by_name(rt: HostRuntime) -> Result<(), Fail> {
    are_served(rt.alloc(), rt, STAT, &ROWS)
}

/// A file is made in each of four volumes, under a name of its own: inode 2 in the root, which has no other name. The third one is filled:
/// 57 zones are free on a new volume of 64 blocks of 1024 bytes with 32 inodes, and 56 pages take an indirect block beside them.
static WRITTEN: [Written; 4] = [
    (
        1,
        (
            b"user 0 0\n100 open /a rwc 644\n100 write 0 6f6e65\n",
            "session 0\nfd 0\nwrote 3\n",
        ),
        (
            b"user 0 0\n200 open /a r 0\n200 read 0 9\n200 open / r 0\n200 readdir 1\n",
            "session 0\nfd 0\nbytes 6f6e65\nfd 1\nnames 1 61:2\n",
        ),
    ),
    (
        2,
        (
            b"user 0 0\n100 open /b rwc 644\n100 write 0 74776f\n100 sync\n",
            "session 0\nfd 0\nwrote 3\nok\n",
        ),
        (
            b"user 0 0\n200 open /b r 0\n200 read 0 9\n200 open / r 0\n200 readdir 1\n",
            "session 0\nfd 0\nbytes 74776f\nfd 1\nnames 1 62:2\n",
        ),
    ),
    (
        3,
        (
            b"user 0 0\n100 open /c rwc 644\n100 fill 0 57344 33\n100 write 0 33\n100 statfs\n",
            "session 0\nfd 0\nwrote 57344\nENOSPC\nblock 1024 zones 58 free 0 inodes 32 free 30\n",
        ),
        (
            b"user 0 0\n200 open /c r 0\n200 seek 0 set 57340\n200 read 0 9\n200 open / r 0\n200 readdir 1\n",
            "session 0\nfd 0\nat 57340\nbytes 33333333\nfd 1\nnames 1 63:2\n",
        ),
    ),
    (
        4,
        (
            b"user 0 0\n100 open /d rwc 644\n100 write 0 666f7572\n",
            "session 0\nfd 0\nwrote 4\n",
        ),
        (
            b"user 0 0\n200 open /d r 0\n200 read 0 9\n200 open / r 0\n200 readdir 1\n",
            "session 0\nfd 0\nbytes 666f7572\nfd 1\nnames 1 64:2\n",
        ),
    ),
];

#[test]
fn partitions_are_written_alone(rt: HostRuntime) -> Result<(), Fail> {
    are_written(rt.alloc(), rt, &WRITTEN)
}
