//! A call that reads the root's inode, while drivers die, hang, answer late and are given up.

use crate::compared::shown::{cut_shows, shows};
use std::test::Fail;

/// A schedule, what is shown of it, and the status.
type Row = (&'static str, &'static str, u8);

static ROWS: [Row; 12] = [
    // The call waits: nothing was done.
    (
        "\
call 0 0 0 100 stat /
",
        "\
started 1.1
issue 1 read 4096 1024 to 1.1
unanswered 1
",
        0,
    ),
    // The driver dies in the middle of the block: the next one, which is started a tick later, is asked again.
    (
        "\
call 0 0 0 100 stat /
step 1
die 1
tick
step 2
step 2
deliver 0
",
        "\
started 1.1
issue 1 read 4096 1024 to 1.1
fault 1.1 exit
started 1.2
issue 1 read 4096 1024 to 1.2
answer 1 1024 from 1.2
reply 0 inode 1 mode 0040755 links 2 uid 0 gid 0 size 128 times 50 50 50
unanswered 0
",
        0,
    ),
    // The request is repeated: its id was taken before, so the driver drops it. A second delivery answers nothing.
    (
        "\
call 0 0 0 100 stat /
step 1
step 1
repeat 0
step 1
deliver 0
deliver 0
",
        "\
started 1.1
issue 1 read 4096 1024 to 1.1
answer 1 1024 from 1.1
reply 0 inode 1 mode 0040755 links 2 uid 0 gid 0 size 128 times 50 50 50
unanswered 0
",
        0,
    ),
    // A second call waits for the first, and finds the block in its frame.
    (
        "\
call 0 0 0 100 stat /
call 1 0 0 100 stat /
step 1
step 1
deliver 0
",
        "\
started 1.1
issue 1 read 4096 1024 to 1.1
answer 1 1024 from 1.1
reply 0 inode 1 mode 0040755 links 2 uid 0 gid 0 size 128 times 50 50 50
reply 1 inode 1 mode 0040755 links 2 uid 0 gid 0 size 128 times 50 50 50
unanswered 0
",
        0,
    ),
    // There are no such replies.
    (
        "\
call 0 0 0 100 stat /
step 1
deliver 0
deliver 7
",
        "\
started 1.1
issue 1 read 4096 1024 to 1.1
unanswered 1
",
        0,
    ),
    // No events.
    (
        "",
        "\
started 1.1
unanswered 0
",
        0,
    ),
    // A request that was answered is repeated: the driver drops it at its next step, and the next request has one step less.
    (
        "\
call 0 0 0 100 stat /
step 1
step 1
deliver 0
repeat 0
call 0 0 0 100 open /f rwc 644
step 1
step 1
deliver 1
",
        "\
started 1.1
issue 1 read 4096 1024 to 1.1
answer 1 1024 from 1.1
reply 0 inode 1 mode 0040755 links 2 uid 0 gid 0 size 128 times 50 50 50
issue 2 read 2048 1024 to 1.1
unanswered 1
",
        0,
    ),
    // Two misses are no fault yet.
    (
        "\
call 0 0 0 100 stat /
step 1
step 1
hang 1
tick
tick
",
        "\
started 1.1
issue 1 read 4096 1024 to 1.1
unanswered 1
",
        0,
    ),
    // The third miss in a row is, at tick 3.
    (
        "\
call 0 0 0 100 stat /
step 1
step 1
hang 1
tick
tick
tick
",
        "\
started 1.1
issue 1 read 4096 1024 to 1.1
fault 1.1 hung
unanswered 1
",
        0,
    ),
    // The next driver is started at tick 4.
    (
        "\
call 0 0 0 100 stat /
step 1
step 1
hang 1
tick
tick
tick
tick
",
        "\
started 1.1
issue 1 read 4096 1024 to 1.1
fault 1.1 hung
started 1.2
issue 1 read 4096 1024 to 1.2
unanswered 1
",
        0,
    ),
    // The old one's reply leaves no mark.
    (
        "\
call 0 0 0 100 stat /
step 1
step 1
hang 1
tick
tick
tick
tick
deliver 0
step 2
step 2
deliver 1
",
        "\
started 1.1
issue 1 read 4096 1024 to 1.1
fault 1.1 hung
started 1.2
issue 1 read 4096 1024 to 1.2
answer 1 1024 from 1.2
reply 0 inode 1 mode 0040755 links 2 uid 0 gid 0 size 128 times 50 50 50
unanswered 0
",
        0,
    ),
    // Each driver dies as soon as it is started: the device is given up.
    (DEATHS, GIVEN_UP, 3),
];

/// Each driver dies as soon as it is started: at ticks 0, 1, 3, 7, 15 and 31.
const DEATHS: &str = "\
call 0 0 0 100 stat /
die 1
tick
die 2
tick
tick
die 3
tick
tick
tick
tick
die 4
tick
tick
tick
tick
tick
tick
tick
tick
die 5
tick
tick
tick
tick
tick
tick
tick
tick
tick
tick
tick
tick
tick
tick
tick
tick
die 6
call 0 0 0 100 seek 0 set 0
";

/// What is shown of it.
const GIVEN_UP: &str = "\
started 1.1
issue 1 read 4096 1024 to 1.1
fault 1.1 exit
started 1.2
issue 1 read 4096 1024 to 1.2
fault 1.2 exit
started 1.3
issue 1 read 4096 1024 to 1.3
fault 1.3 exit
started 1.4
issue 1 read 4096 1024 to 1.4
fault 1.4 exit
started 1.5
issue 1 read 4096 1024 to 1.5
fault 1.5 exit
started 1.6
issue 1 read 4096 1024 to 1.6
fault 1.6 exit
given up
reply 0 EIO
reply 0 EIO
unanswered 0
";

#[test]
fn the_root_is_read(rt: HostRuntime) -> Result<(), Fail> {
    for (schedule, transcript, status) in &ROWS {
        shows(rt.alloc(), 1024, schedule, transcript, *status)?;
    }
    Ok(())
}

/// How many lines are run, the ticks after them, which are one too few for the next start, and how many lines are shown until then.
static EARLY: [(usize, usize, usize); 5] = [
    (2, 0, 3),
    (4, 1, 6),
    (7, 3, 9),
    (12, 7, 12),
    (21, 15, 15),
];

/// A tick earlier the next driver isn't started.
#[test]
fn starts_are_backed_off(rt: HostRuntime) -> Result<(), Fail> {
    for (lines, ticks, shown) in &EARLY {
        let schedule = (DEATHS, *lines, "tick\n", *ticks);
        cut_shows(
            rt.alloc(),
            schedule,
            (GIVEN_UP, *shown, "unanswered 1\n", 1),
        )?;
    }
    Ok(())
}
