//! Calls that come between a driver's fault and the next start. One that needs no request is answered at once; one that needs a request
//! waits for the start.

use crate::compared::shown::parts_show;
use std::test::Fail;

/// A file is made: that reads the root's inode, both maps and the root's entries.
const OPENED: &str = "\
call 0 0 0 100 open /f rwc 644
step 1
step 1
deliver 0
step 1
step 1
deliver 1
step 1
step 1
deliver 2
step 1
step 1
deliver 3
";

/// What is shown of it.
const OPEN: &str = "\
started 1.1
issue 1 read 4096 1024 to 1.1
answer 1 1024 from 1.1
issue 2 read 2048 1024 to 1.1
answer 2 1024 from 1.1
issue 3 read 3072 1024 to 1.1
answer 3 1024 from 1.1
issue 4 read 6144 1024 to 1.1
answer 4 1024 from 1.1
reply 0 fd 0
";

/// The parts of a schedule on a volume of blocks of 1024, and what is shown of each.
type Row = (&'static [&'static str], &'static [&'static str]);

static ROWS: [Row; 4] = [
    // The first start after a death comes with the next tick, the second one two ticks after its death. A position, a second descriptor
    // and its end take no block.
    (
        &[
            OPENED,
            "\
die 1
call 0 0 0 100 seek 0 set 5
tick
die 2
call 0 0 0 100 seek 0 cur 2
tick
call 0 0 0 100 dup 0
tick
call 0 0 0 100 close 1
",
        ],
        &[
            OPEN,
            "\
fault 1.1 exit
reply 0 at 5
started 1.2
fault 1.2 exit
reply 0 at 7
reply 0 fd 1
started 1.3
reply 0 ok
unanswered 0
",
        ],
    ),
    // Three ticks without a sign of life are a fault, and the fourth brings the next driver. A descriptor that isn't open, and a call that
    // is refused for its words, take no block either.
    (
        &[
            OPENED,
            "\
hang 1
tick
tick
tick
call 0 0 0 100 close 0
call 0 0 0 100 close 0
call 1 0 0 100 dup 0
call 0 0 0 100 stat f
tick
",
        ],
        &[
            OPEN,
            "\
fault 1.1 hung
reply 0 ok
reply 0 EBADF
reply 1 EBADF
reply 0 EINVAL
started 1.2
unanswered 0
",
        ],
    ),
    // What stands in frames is read while no driver runs: the root, and the file's first page. A sync has to wait.
    (
        &[
            OPENED,
            "\
call 0 0 0 100 write 0 68656c6c6f
die 1
call 0 0 0 100 seek 0 set 1
call 0 0 0 100 read 0 9
call 1 5 7 100 stat /f
call 0 0 0 100 sync
call 0 0 0 100 close 0
",
        ],
        &[
            OPEN,
            "\
reply 0 wrote 5
fault 1.1 exit
reply 0 at 1
reply 0 bytes 656c6c6f
reply 1 inode 2 mode 0100644 links 1 uid 0 gid 0 size 5 times 100 100 100
unanswered 2
",
        ],
    ),
    // A call that needs the root's inode waits, and the one behind it too: both are answered once the next driver is started.
    (
        &[
            "\
die 1
call 0 0 0 100 stat /
call 1 0 0 100 close 0
tick
step 2
step 2
deliver 0
",
        ],
        &[
            "\
started 1.1
fault 1.1 exit
started 1.2
issue 1 read 4096 1024 to 1.2
answer 1 1024 from 1.2
reply 0 inode 1 mode 0040755 links 2 uid 0 gid 0 size 128 times 50 50 50
reply 1 EBADF
unanswered 0
",
        ],
    ),
];

#[test]
fn calls_come_while_no_driver_runs(rt: HostRuntime) -> Result<(), Fail> {
    for (schedule, transcript) in &ROWS {
        parts_show(rt.alloc(), 1024, schedule, transcript)?;
    }
    Ok(())
}
