//! Neighbouring changed blocks, which a flush writes by one request: a death tears one of its sectors, and all of it is written again.

use crate::compared::left::{Left, is_left};
use crate::compared::shown::parts_show;
use std::test::Fail;

/// A file of one page is made on a volume of 64 blocks of 1024, and a flush writes what changed: blocks 2, 3 and 4 have both maps and the
/// inodes, blocks 6 and 7 the root's entries and the page.
const FLUSHED: &str = "\
call 0 0 0 100 open /f rwc 644
call 0 0 0 100 fill 0 1024 31
step 1
step 1
deliver 0
step 1
step 1
deliver 1
step 1
step 1
deliver 2
step 1
step 1
deliver 3
flush
";

/// A step of the driver, which writes a sector.
const STEP: &str = "step 1\n";

/// A death in the middle of a write, with bytes that the sector may hold then.
const TORN: &str = "\
die 1 ee
";

/// The next driver writes both runs, and a sync finds nothing left to write.
const MENDED: &str = "\
tick
step 2
step 2
step 2
step 2
step 2
step 2
deliver 4
step 2
step 2
step 2
step 2
deliver 5
call 0 0 0 100 sync
";

/// The same where the first driver had answered: its reply comes late, and is dropped.
const LATE: &str = "\
tick
step 2
step 2
step 2
step 2
step 2
step 2
deliver 4
deliver 5
step 2
step 2
step 2
step 2
deliver 6
call 0 0 0 100 sync
";

/// What is shown, wherever the death came.
const SHOWN: &str = "\
started 1.1
issue 1 read 4096 1024 to 1.1
answer 1 1024 from 1.1
issue 2 read 2048 1024 to 1.1
answer 2 1024 from 1.1
issue 3 read 3072 1024 to 1.1
answer 3 1024 from 1.1
issue 4 read 6144 1024 to 1.1
answer 4 1024 from 1.1
reply 0 fd 0
reply 0 wrote 1024
flush
issue 5 write 2048 3072 to 1.1
issue 6 write 6144 2048 to 1.1
fault 1.1 exit
started 1.2
issue 5 write 2048 3072 to 1.2
issue 6 write 6144 2048 to 1.2
answer 5 3072 from 1.2
answer 6 2048 from 1.2
reply 0 ok
unanswered 0
";

/// The sector that was being written is torn, and none behind it was written; before its first step and behind its last one none is.
static TORN_AT: [Left; 7] = [
    (1024, &[FLUSHED, TORN], &[(0, 65536, None)], false),
    (
        1024,
        &[FLUSHED, STEP, TORN],
        &[(2560, 3072, Some(0xee)), (3072, 65536, None)],
        false,
    ),
    (
        1024,
        &[FLUSHED, STEP, STEP, TORN],
        &[(3072, 3584, Some(0xee)), (3584, 65536, None)],
        false,
    ),
    (
        1024,
        &[FLUSHED, STEP, STEP, STEP, TORN],
        &[(3584, 4096, Some(0xee)), (4096, 65536, None)],
        false,
    ),
    (
        1024,
        &[FLUSHED, STEP, STEP, STEP, STEP, TORN],
        &[(4096, 4608, Some(0xee)), (4608, 65536, None)],
        false,
    ),
    (
        1024,
        &[FLUSHED, STEP, STEP, STEP, STEP, STEP, TORN],
        &[(4608, 5120, Some(0xee)), (5120, 65536, None)],
        false,
    ),
    (
        1024,
        &[FLUSHED, STEP, STEP, STEP, STEP, STEP, STEP, TORN],
        &[(5120, 65536, None)],
        false,
    ),
];

/// All was written again: the volume is clean, and has the page.
static MENDED_AT: [Left; 7] = [
    (
        1024,
        &[FLUSHED, TORN, MENDED],
        &[(7168, 8192, Some(0x31))],
        true,
    ),
    (
        1024,
        &[FLUSHED, STEP, TORN, MENDED],
        &[(7168, 8192, Some(0x31))],
        true,
    ),
    (
        1024,
        &[FLUSHED, STEP, STEP, TORN, MENDED],
        &[(7168, 8192, Some(0x31))],
        true,
    ),
    (
        1024,
        &[FLUSHED, STEP, STEP, STEP, TORN, MENDED],
        &[(7168, 8192, Some(0x31))],
        true,
    ),
    (
        1024,
        &[FLUSHED, STEP, STEP, STEP, STEP, TORN, MENDED],
        &[(7168, 8192, Some(0x31))],
        true,
    ),
    (
        1024,
        &[FLUSHED, STEP, STEP, STEP, STEP, STEP, TORN, MENDED],
        &[(7168, 8192, Some(0x31))],
        true,
    ),
    (
        1024,
        &[FLUSHED, STEP, STEP, STEP, STEP, STEP, STEP, TORN, LATE],
        &[(7168, 8192, Some(0x31))],
        true,
    ),
];

#[test]
fn torn_runs_are_written_again(rt: HostRuntime) -> Result<(), Fail> {
    for row in &MENDED_AT {
        parts_show(rt.alloc(), 1024, row.1, &[SHOWN])?;
    }
    for row in TORN_AT.iter().chain(&MENDED_AT) {
        is_left(rt.alloc(), row)?;
    }
    Ok(())
}
