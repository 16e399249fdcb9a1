//! Texts and statuses of making a volume.

use crate::writers::{Writer, taker, writer_of};
use output::Told;
use std::alloc::Global;
use std::test::Fail;
use volume_commands::make::{CommandStatus, Wanted, finish, make};

/// What `make` writes on standard output and on standard error, the status, and how long the image is, if there is one.
type Said = (&'static str, &'static str, CommandStatus, Option<u64>);

/// It was refused, and the line on standard error says why.
const REFUSED: CommandStatus = CommandStatus::Refused(Told::Whole);

/// Blocks, bytes of a block and inodes, the time, and what is said of such a volume.
static VOLUMES: [((u32, u32, u32), u32, Said); 10] = [
    (
        (64, 1024, 32),
        50,
        (
            "first 6 zones 58 free 57\n",
            "",
            CommandStatus::Done,
            Some(65536),
        ),
    ),
    (
        (64, 2048, 32),
        50,
        (
            "first 5 zones 59 free 58\n",
            "",
            CommandStatus::Done,
            Some(131072),
        ),
    ),
    (
        (6, 1024, 16),
        50,
        (
            "first 5 zones 1 free 0\n",
            "",
            CommandStatus::Done,
            Some(6144),
        ),
    ),
    // of the most bytes: two blocks in front, one of each map, and one of inodes
    (
        (16384, 4096, 64),
        50,
        (
            "first 5 zones 16379 free 16378\n",
            "",
            CommandStatus::Done,
            Some(67108864),
        ),
    ),
    ((64, 512, 32), 0, ("", "BadBlockSize\n", REFUSED, None)),
    ((64, 1024, 0), 0, ("", "BadInodes\n", REFUSED, None)),
    ((64, 1024, 65536), 0, ("", "BadInodes\n", REFUSED, None)),
    ((65537, 1024, 32), 0, ("", "TooManyBlocks\n", REFUSED, None)),
    ((16385, 4096, 32), 0, ("", "TooManyBlocks\n", REFUSED, None)),
    ((6, 1024, 32), 0, ("", "TooFewBlocks\n", REFUSED, None)),
];

/// Standard output could not be written.
const UNWRITTEN: &str = "cannot write standard output\n";

/// How many calls take 5 bytes each, and what is said then of a volume of 64 blocks of 1024 bytes with 32 inodes. The line has 25 bytes, so
/// five calls take it: a writer that fails earlier has a beginning of it, and there is no image.
static FAILING: [(u32, Said); 6] = [
    (0, ("", UNWRITTEN, REFUSED, None)),
    (1, ("first", UNWRITTEN, REFUSED, None)),
    (2, ("first 6 zo", UNWRITTEN, REFUSED, None)),
    (3, ("first 6 zones 5", UNWRITTEN, REFUSED, None)),
    (4, ("first 6 zones 58 fre", UNWRITTEN, REFUSED, None)),
    (
        5,
        (
            "first 6 zones 58 free 57\n",
            "",
            CommandStatus::Done,
            Some(65536),
        ),
    ),
];

/// Whether this is said of a volume that is wanted.
fn is_said(alloc: Global, wanted: &Wanted, out: &mut Writer, said: &Said) -> bool {
    let mut err = taker(alloc);
    let made = make(alloc, wanted, out, &mut err);
    let length = made.image.as_ref().map(|image| image.length());
    out.taken.as_slice() == said.0.as_bytes()
        && err.taken.as_slice() == said.1.as_bytes()
        && made.status == said.2
        && length == said.3
}

#[test]
fn volumes_are_made(rt: HostRuntime) -> Result<(), Fail> {
    for (number, ((blocks, block_size, inodes), now, said)) in VOLUMES.iter().enumerate() {
        let wanted = Wanted {
            blocks: *blocks,
            block_size: *block_size,
            inodes: *inodes,
            now: *now,
            uid: 3,
            gid: 4,
        };
        if !is_said(rt.alloc(), &wanted, &mut taker(rt.alloc()), said) {
            return Err(Fail::new(format_args!("volume {number}")));
        }
    }
    Ok(())
}

#[test]
fn writers_fail(rt: HostRuntime) -> Result<(), Fail> {
    let wanted = Wanted {
        blocks: 64,
        block_size: 1024,
        inodes: 32,
        now: 50,
        uid: 0,
        gid: 0,
    };
    for (calls, said) in &FAILING {
        let mut out = writer_of(rt.alloc(), *calls, 5);
        if !is_said(rt.alloc(), &wanted, &mut out, said) {
            return Err(Fail::new(format_args!("after {calls} calls")));
        }
    }
    Ok(())
}

#[test]
fn the_end_is_told(rt: HostRuntime) -> Result<(), Fail> {
    for (written, status, line) in [(true, 0, ""), (false, 1, "cannot write a/v.img\n")] {
        let mut err = taker(rt.alloc());
        let ended = finish(rt.alloc(), "a/v.img", written, &mut err);
        if ended.number() != status || err.taken.as_slice() != line.as_bytes() {
            return Err(Fail::new(format_args!("status {status}")));
        }
    }
    Ok(())
}
