//! Writes that drivers leave half done, and what the media hold afterwards.

use crate::compared::left::{Left, is_left};
use crate::compared::shown::{parts_show, repeats_show};
use std::test::Fail;

/// Twenty pages are changed, and 25 blocks with what leads to them: under the setup's 64 frames nothing is written yet. The reads are those
/// that making a file takes on a new volume of 64 blocks of 1024: the root's inode, both maps, and the root's entries. In which order a
/// call reads what it needs is the server's own choice; so is it here, and nothing else is.
const FILLED: &str = "\
call 0 0 0 100 open /f rwc 644
call 0 0 0 100 fill 0 20480 31
step 1
step 1
deliver 0
step 1
step 1
deliver 1
step 1
step 1
deliver 2
step 1
step 1
deliver 3
";

/// What is shown of it: no call waits.
const ALL_WROTE: &str = "\
started 1.1
issue 1 read 4096 1024 to 1.1
answer 1 1024 from 1.1
issue 2 read 2048 1024 to 1.1
answer 2 1024 from 1.1
issue 3 read 3072 1024 to 1.1
answer 3 1024 from 1.1
issue 4 read 6144 1024 to 1.1
answer 4 1024 from 1.1
reply 0 fd 0
reply 0 wrote 20480
unanswered 0
";

/// A page is filled with 0x31 and issued by a flush, filled with 0x32, and then the first write succeeds.
const REFILLED: &str = "\
call 0 0 0 100 open /f rwc 644
call 0 0 0 100 fill 0 1024 31
step 1
step 1
deliver 0
step 1
step 1
deliver 1
step 1
step 1
deliver 2
step 1
step 1
deliver 3
flush
call 0 0 0 100 seek 0 set 0
call 0 0 0 101 fill 0 1024 32
step 1
step 1
step 1
step 1
step 1
step 1
deliver 4
step 1
step 1
step 1
step 1
deliver 5
call 0 0 0 101 sync
step 1
step 1
deliver 6
step 1
step 1
deliver 7
call 0 0 0 101 seek 0 set 0
call 0 0 0 101 read 0 1
tick
";

/// Both maps and the inodes are written by one request, the root's entries and the file's page by another; then again what changed.
const WRITTEN_AGAIN: &str = "\
started 1.1
issue 1 read 4096 1024 to 1.1
answer 1 1024 from 1.1
issue 2 read 2048 1024 to 1.1
answer 2 1024 from 1.1
issue 3 read 3072 1024 to 1.1
answer 3 1024 from 1.1
issue 4 read 6144 1024 to 1.1
answer 4 1024 from 1.1
reply 0 fd 0
reply 0 wrote 1024
flush
issue 5 write 2048 3072 to 1.1
issue 6 write 6144 2048 to 1.1
reply 0 at 0
reply 0 wrote 1024
answer 5 3072 from 1.1
answer 6 2048 from 1.1
issue 7 write 4096 1024 to 1.1
issue 8 write 7168 1024 to 1.1
answer 7 1024 from 1.1
answer 8 1024 from 1.1
reply 0 ok
reply 0 at 0
reply 0 bytes 32
unanswered 0
";

/// A driver hangs when it has written half of a page.
const HUNG: &str = "\
call 0 0 0 100 open /f rwc 644
call 0 0 0 100 fill 0 1024 11
call 0 0 0 100 sync
step 1
step 1
deliver 0
step 1
step 1
deliver 1
step 1
step 1
deliver 2
step 1
step 1
deliver 3
step 1
step 1
step 1
step 1
step 1
step 1
deliver 4
step 1
step 1
step 1
hang 1
";

/// The second driver writes the page, and later the same page with other bytes; then the first one goes on.
const REVOKED: &str = "\
tick
tick
tick
tick
step 2
step 2
step 2
step 2
deliver 5
call 0 0 0 100 seek 0 set 0
call 0 0 0 101 fill 0 1024 22
call 0 0 0 101 sync
step 2
step 2
deliver 6
step 2
step 2
deliver 7
step 1
step 1
call 0 0 0 101 seek 0 set 0
call 0 0 0 101 read 0 1
";

/// What is shown of both.
const REPLACED: &str = "\
started 1.1
issue 1 read 4096 1024 to 1.1
answer 1 1024 from 1.1
issue 2 read 2048 1024 to 1.1
answer 2 1024 from 1.1
issue 3 read 3072 1024 to 1.1
answer 3 1024 from 1.1
issue 4 read 6144 1024 to 1.1
answer 4 1024 from 1.1
reply 0 fd 0
reply 0 wrote 1024
issue 5 write 2048 3072 to 1.1
issue 6 write 6144 2048 to 1.1
answer 5 3072 from 1.1
fault 1.1 hung
started 1.2
issue 6 write 6144 2048 to 1.2
answer 6 2048 from 1.2
reply 0 ok
reply 0 at 0
reply 0 wrote 1024
issue 7 write 4096 1024 to 1.2
issue 8 write 7168 1024 to 1.2
answer 7 1024 from 1.2
answer 8 1024 from 1.2
reply 0 ok
reply 0 at 0
reply 0 bytes 22
unanswered 0
";

/// The reads on a volume of 64 blocks of 2048, and the first sync's first two steps: its first request is for the blocks 2 and 3.
const BEGUN: &str = "\
call 0 0 0 100 open /f rwc 644
call 0 0 0 100 fill 0 2048 aa
call 0 0 0 100 sync
step 1
step 1
step 1
step 1
deliver 0
step 1
step 1
step 1
step 1
deliver 1
step 1
step 1
step 1
step 1
deliver 2
step 1
step 1
step 1
step 1
deliver 3
step 1
step 1
";

/// The next driver writes all.
const MENDED: &str = "\
tick
step 2
step 2
step 2
step 2
step 2
step 2
step 2
step 2
deliver 4
step 2
step 2
step 2
step 2
step 2
step 2
step 2
step 2
deliver 5
step 2
step 2
step 2
step 2
deliver 6
call 0 0 0 100 seek 0 set 0
call 0 0 0 100 read 0 2048
";

/// What is shown when a death tore a sector, but for the file's bytes.
const MENDING: &str = "\
started 1.1
issue 1 read 8192 2048 to 1.1
answer 1 2048 from 1.1
issue 2 read 4096 2048 to 1.1
answer 2 2048 from 1.1
issue 3 read 6144 2048 to 1.1
answer 3 2048 from 1.1
issue 4 read 10240 2048 to 1.1
answer 4 2048 from 1.1
reply 0 fd 0
reply 0 wrote 2048
issue 5 write 4096 4096 to 1.1
issue 6 write 8192 4096 to 1.1
issue 7 write 12288 2048 to 1.1
fault 1.1 exit
started 1.2
issue 5 write 4096 4096 to 1.2
issue 6 write 8192 4096 to 1.2
issue 7 write 12288 2048 to 1.2
answer 5 4096 from 1.2
answer 6 4096 from 1.2
answer 7 2048 from 1.2
reply 0 ok
reply 0 at 0
";

/// A death in the middle of a write, with bytes that the sector may hold then.
const TORN: &str = "\
die 1 ee
";

/// Runs on a volume of blocks of 1024: the parts of each schedule, and what is shown.
static SHOWN: [(&[&str], &[&str]); 3] = [
    (&[FILLED], &[ALL_WROTE]),
    (&[REFILLED], &[WRITTEN_AGAIN]),
    (&[HUNG, REVOKED], &[REPLACED]),
];

/// A run on a volume of blocks of 2048: the parts of its schedule, and what is shown, with the file's bytes before the last line.
static READ_BACK: (&[&str], &[&str], (&str, usize), &str) = (
    &[BEGUN, TORN, MENDED],
    &[MENDING, "reply 0 bytes "],
    ("aa", 2048),
    "\nunanswered 0\n",
);

#[test]
fn writes_are_shown(rt: HostRuntime) -> Result<(), Fail> {
    for (schedule, transcript) in &SHOWN {
        parts_show(rt.alloc(), 1024, schedule, transcript)?;
    }
    let (schedule, begin, repeated, end) = READ_BACK;
    repeats_show(rt.alloc(), 2048, schedule, begin, repeated, end)
}

static LEFT: [Left; 6] = [
    // A page that changed is written again.
    (1024, &[REFILLED], &[(7168, 8192, Some(0x32))], true),
    // A driver that was replaced writes nothing.
    (1024, &[HUNG, REVOKED], &[(7168, 8192, Some(0x22))], true),
    // Half of the page was written, and of the first block all.
    (
        1024,
        &[HUNG],
        &[(7168, 7680, Some(0x11)), (7680, 8192, Some(0))],
        false,
    ),
    // A death tears the sector that was being written, and no other.
    (
        2048,
        &[BEGUN, TORN],
        &[
            (5120, 5632, Some(0xee)),
            (0, 4096, None),
            (5632, 131072, None),
        ],
        false,
    ),
    // A death without bytes tears nothing: of the request's sectors those that were written before it are new.
    (
        2048,
        &[BEGUN, "die 1\n"],
        &[(0, 4096, None), (5120, 131072, None)],
        false,
    ),
    // A torn sector is written again.
    (
        2048,
        &[BEGUN, TORN, MENDED],
        &[(5120, 5632, Some(0xff)), (12288, 14336, Some(0xaa))],
        true,
    ),
];

#[test]
fn writes_are_left(rt: HostRuntime) -> Result<(), Fail> {
    for row in &LEFT {
        is_left(rt.alloc(), row)?;
    }
    Ok(())
}
