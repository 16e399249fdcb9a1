//! Where symbolic links lead, and where a walk ends at one.

use crate::images::{CUT_TREE, Part, TREE, volume};
use crate::volumes::{Call, Seen, Step};
use block_store::{Cut, Halt};
use errno::Errno;
use path::Stop;
use std::test::Fail;
use tree::User;

/// User 0 may do all.
const ROOT: User = User { uid: 0, gid: 0 };

/// A user who owns nothing.
const OTHER: User = User { uid: 9, gid: 8 };

/// There is no such name.
const MISSING: Result<Seen, Stop> = Err(Stop::Refused(Errno::ENOENT));

/// What is to be searched is no directory.
const NO_DIRECTORY: Result<Seen, Stop> = Err(Stop::Refused(Errno::ENOTDIR));

/// It may not be searched.
const CLOSED: Result<Seen, Stop> = Err(Stop::Refused(Errno::EACCES));

/// Eight links were followed, and a ninth is met.
const LOOP: Result<Seen, Stop> = Err(Stop::Refused(Errno::ELOOP));

/// Names of the root that lead to links: a (inode 6) to `/d/e`, b (7) to `d/../f`, c (8) to itself, o (10) to `/`, p (11) to seven times
/// o, q (12) to a name of 61 bytes, r (13) to `x/y`, t (14) to a name of 60 bytes, u (15) to 1022 slashes and `d`. In `/d`, up (9) leads
/// to `../f`. The first has no permissions, and behind its target lie more bytes.
static LINKS: [Part<'static>; 44] = [
    // the type and permissions of `/d`
    (4160, &[0xed, 0x41]),
    // the sizes of the root and of `/d`, and their names
    (4104, &[0xc0, 3]),
    (4168, &[0, 1]),
    (6528, &[6, 0, 0, 0, b'a']),
    (6592, &[7, 0, 0, 0, b'b']),
    (6656, &[8, 0, 0, 0, b'c']),
    (6720, &[10, 0, 0, 0, b'o']),
    (6784, &[11, 0, 0, 0, b'p']),
    (6848, &[12, 0, 0, 0, b'q']),
    (6912, &[13, 0, 0, 0, b'r']),
    (6976, &[14, 0, 0, 0, b't']),
    (7040, &[15, 0, 0, 0, b'u']),
    (7360, &[9, 0, 0, 0, b'u', b'p']),
    // inodes: mode, links, user, group, size; the zone's number 24 bytes behind
    (4416, &[0, 0xa0, 1, 0, 0, 0, 0, 0, 4]),
    (4440, &[10]),
    (4480, &[0xff, 0xa1, 1, 0, 0, 0, 0, 0, 6]),
    (4504, &[11]),
    (4544, &[0xff, 0xa1, 1, 0, 0, 0, 0, 0, 1]),
    (4568, &[12]),
    (4608, &[0xff, 0xa1, 1, 0, 0, 0, 0, 0, 4]),
    (4632, &[13]),
    (4672, &[0xff, 0xa1, 1, 0, 0, 0, 0, 0, 1]),
    (4696, &[14]),
    (4736, &[0xff, 0xa1, 1, 0, 0, 0, 0, 0, 13]),
    (4760, &[15]),
    (4800, &[0xff, 0xa1, 1, 0, 0, 0, 0, 0, 61]),
    (4824, &[16]),
    (4864, &[0xff, 0xa1, 1, 0, 0, 0, 0, 0, 3]),
    (4888, &[17]),
    (4928, &[0xff, 0xa1, 1, 0, 0, 0, 0, 0, 60]),
    (4952, &[18]),
    (4992, &[0xff, 0xa1, 1, 0, 0, 0, 0, 0, 0xff, 3]),
    (5016, &[19]),
    // targets
    (10240, b"/d/e/f/g"),
    (11264, b"d/../f"),
    (12288, b"c"),
    (13312, b"../f"),
    (14336, b"/"),
    (15360, b"o/o/o/o/o/o/o"),
    (16384, &[b'a'; 61]),
    (17408, b"x/y"),
    (18432, &[b'a'; 60]),
    (19456, &[b'/'; 1022]),
    (20478, b"d"),
];

/// Links are followed, the last one too, if a path is walked.
static FOLLOWED: [Step; 17] = [
    (Call::Walk(ROOT, b"/a"), Ok(Seen::There(4))),
    (Call::Walk(ROOT, b"/a/"), Ok(Seen::There(4))),
    (Call::Walk(ROOT, b"/a/."), Ok(Seen::There(4))),
    (Call::Walk(ROOT, b"/a/.."), Ok(Seen::There(2))),
    (Call::Walk(ROOT, b"/a/../../f"), Ok(Seen::There(3))),
    (Call::Walk(ROOT, b"/b"), Ok(Seen::There(3))),
    (Call::Walk(ROOT, b"/o"), Ok(Seen::There(1))),
    (Call::Walk(ROOT, b"/o//d/"), Ok(Seen::There(2))),
    // from where the link stands
    (Call::Walk(ROOT, b"/d/up"), Ok(Seen::There(3))),
    (Call::Walk(ROOT, b"/a/../up"), Ok(Seen::There(3))),
    // a target of 1023 bytes
    (Call::Walk(ROOT, b"/u"), Ok(Seen::There(2))),
    (Call::Walk(ROOT, b"/u/e"), Ok(Seen::There(4))),
    // refusals on the way and behind it
    (Call::Walk(ROOT, b"/b/.."), NO_DIRECTORY),
    (Call::Walk(ROOT, b"/r"), MISSING),
    (Call::Walk(ROOT, b"/r/z"), MISSING),
    (Call::Walk(ROOT, b"/t"), MISSING),
    (
        Call::Walk(ROOT, b"/q"),
        Err(Stop::Refused(Errno::ENAMETOOLONG)),
    ),
];

/// Eight links are followed, wherever they stand, and the ninth isn't looked at.
static COUNTED: [Step; 9] = [
    (Call::Walk(ROOT, b"/o/o/o/o/o/o/o/o"), Ok(Seen::There(1))),
    (Call::Walk(ROOT, b"/o/o/o/o/o/o/o/o/d"), Ok(Seen::There(2))),
    (Call::Walk(ROOT, b"/o/o/o/o/o/o/o/o/o"), LOOP),
    (Call::Walk(ROOT, b"/p/d/e"), Ok(Seen::There(4))),
    (Call::Walk(ROOT, b"/o/p"), LOOP),
    (Call::Walk(ROOT, b"/p/o"), LOOP),
    (Call::Walk(ROOT, b"/p/q"), LOOP),
    (Call::Walk(ROOT, b"/c"), LOOP),
    (Call::Walk(ROOT, b"/c/x"), LOOP),
];

/// What stands last isn't followed where a path means a place, or where it is looked up.
static LAST: [Step; 14] = [
    (Call::LookUp(ROOT, b"/a"), Ok(Seen::There(6))),
    (Call::LookUp(ROOT, b"/a/"), Ok(Seen::There(6))),
    (Call::LookUp(ROOT, b"/a/."), Ok(Seen::There(4))),
    (Call::LookUp(ROOT, b"/a/x"), Ok(Seen::MissingIn(4))),
    (Call::LookUp(ROOT, b"/c"), Ok(Seen::There(8))),
    (Call::LookUp(ROOT, b"/c/x"), LOOP),
    (Call::LookUp(ROOT, b"/b/x"), NO_DIRECTORY),
    (Call::LookUp(ROOT, b"/p/a"), Ok(Seen::There(6))),
    (Call::LookUp(ROOT, b"/p/a/x"), LOOP),
    (Call::Place(b"/a"), Ok(Seen::At(1, 1, Some(6)))),
    (Call::Place(b"/a/xy"), Ok(Seen::At(4, 2, None))),
    (Call::Place(b"/o/d"), Ok(Seen::At(1, 1, Some(2)))),
    (Call::Place(b"/u/up"), Ok(Seen::At(2, 2, Some(9)))),
    (Call::Place(b"/r/z"), MISSING),
];

/// A link's own permissions aren't asked.
static OPEN: [Step; 2] = [
    (Call::Walk(OTHER, b"/a"), Ok(Seen::There(4))),
    (Call::Walk(OTHER, b"/d/up"), Ok(Seen::There(3))),
];

/// Those of the directories on the way are, where the link stands and where it leads.
static SHUT: [Step; 4] = [
    (Call::Walk(OTHER, b"/a"), CLOSED),
    (Call::Walk(OTHER, b"/d/up"), CLOSED),
    (Call::Walk(OTHER, b"/b"), CLOSED),
    (Call::Walk(OTHER, b"/u"), Ok(Seen::There(2))),
];

/// Where the image ends behind the root's entries no target can be read.
static CUT: [Step; 3] = [
    (Call::LookUp(ROOT, b"/a"), Ok(Seen::There(6))),
    (
        Call::Walk(ROOT, b"/a"),
        Err(Stop::Halted(Halt::Cut(Cut::Eio))),
    ),
    (
        Call::LookUp(ROOT, b"/a/x"),
        Err(Stop::Halted(Halt::Cut(Cut::Eio))),
    ),
];

#[test]
fn links_are_followed(rt: HostRuntime) -> Result<(), Fail> {
    let mut tree = volume(rt.alloc(), &TREE, &LINKS)?;
    tree.gives("followed", &FOLLOWED)?;
    tree.gives("counted", &COUNTED)?;
    tree.gives("last", &LAST)?;
    tree.gives("open", &OPEN)?;
    volume(rt.alloc(), &CUT_TREE, &LINKS)?.gives("a cut", &CUT)
}

/// `/d` has permissions 700.
#[test]
fn directories_on_the_way_are_searched(rt: HostRuntime) -> Result<(), Fail> {
    let mut parts = LINKS;
    parts[0] = (4160, &[0xc0, 0x41]);
    volume(rt.alloc(), &TREE, &parts)?.gives("shut", &SHUT)
}
