//! Where paths lead, and the places that they mean for names.

use crate::images::{CUT_TREE, TREE, volume};
use crate::volumes::{Call, Seen, Step, UNSOUND};
use block_store::{Cut, Halt};
use errno::Errno;
use path::Stop;
use std::test::Fail;
use tree::User;

/// User 0 may do all.
const ROOT: User = User { uid: 0, gid: 0 };

/// There is no such name.
const MISSING: Result<Seen, Stop> = Err(Stop::Refused(Errno::ENOENT));

/// What is to be searched is no directory.
const NO_DIRECTORY: Result<Seen, Stop> = Err(Stop::Refused(Errno::ENOTDIR));

/// It may not be searched.
const CLOSED: Result<Seen, Stop> = Err(Stop::Refused(Errno::EACCES));

/// Where paths lead.
static WALKS: [Step; 27] = [
    // dots, slashes and names
    (Call::Walk(ROOT, b"/"), Ok(Seen::There(1))),
    (Call::Walk(ROOT, b"///"), Ok(Seen::There(1))),
    (Call::Walk(ROOT, b"/."), Ok(Seen::There(1))),
    (Call::Walk(ROOT, b"/.."), Ok(Seen::There(1))),
    (Call::Walk(ROOT, b"/../.."), Ok(Seen::There(1))),
    (Call::Walk(ROOT, b"/d"), Ok(Seen::There(2))),
    (Call::Walk(ROOT, b"/d/"), Ok(Seen::There(2))),
    (Call::Walk(ROOT, b"/f"), Ok(Seen::There(3))),
    (Call::Walk(ROOT, b"//d///e/"), Ok(Seen::There(4))),
    (Call::Walk(ROOT, b"/d/.."), Ok(Seen::There(1))),
    (Call::Walk(ROOT, b"/d/."), Ok(Seen::There(2))),
    (Call::Walk(ROOT, b"/d/e/.."), Ok(Seen::There(2))),
    (Call::Walk(ROOT, b"/d/e/../.."), Ok(Seen::There(1))),
    (Call::Walk(ROOT, b"/d/./e/../../f"), Ok(Seen::There(3))),
    // refusals in their order
    (Call::Walk(ROOT, b""), MISSING),
    (Call::Walk(ROOT, b"d"), Err(Stop::Refused(Errno::EINVAL))),
    (Call::Walk(ROOT, b"/f/e"), NO_DIRECTORY),
    (Call::Walk(ROOT, b"/f/."), NO_DIRECTORY),
    (Call::Walk(ROOT, b"/f/.."), NO_DIRECTORY),
    (Call::Walk(ROOT, b"/x"), MISSING),
    (Call::Walk(ROOT, b"/x/f"), MISSING),
    (Call::Walk(ROOT, b"/d/x/.."), MISSING),
    (Call::Walk(ROOT, b"/d/f"), MISSING),
    // inode 99 isn't the volume's: whether it is a link can't be told
    (Call::Walk(ROOT, b"/n"), UNSOUND),
    (Call::Walk(ROOT, b"/n/x"), UNSOUND),
    // a directory of one entry has no parent, and no name either
    (Call::Walk(ROOT, b"/s/.."), UNSOUND),
    (Call::Walk(ROOT, b"/s/f"), MISSING),
];

/// Where paths lead from a node.
static STARTS: [Step; 20] = [
    // the node itself, and what is below and above it
    (Call::WalkFrom(ROOT, 2, b""), Ok(Seen::There(2))),
    (Call::WalkFrom(ROOT, 3, b""), Ok(Seen::There(3))),
    (Call::WalkFrom(ROOT, 2, b"."), Ok(Seen::There(2))),
    (Call::WalkFrom(ROOT, 2, b"e"), Ok(Seen::There(4))),
    (Call::WalkFrom(ROOT, 4, b".."), Ok(Seen::There(2))),
    (Call::WalkFrom(ROOT, 4, b"../../f"), Ok(Seen::There(3))),
    (Call::WalkFrom(ROOT, 3, b"."), NO_DIRECTORY),
    (Call::WalkFrom(ROOT, 2, b"f"), MISSING),
    // what begins with a slash is read from the root on, whatever the start
    (Call::WalkFrom(ROOT, 4, b"/f"), Ok(Seen::There(3))),
    (Call::WalkFrom(OWNER, 0, b"/d/e"), Ok(Seen::There(4))),
    // numbers without a node: 6 is free, 33 is past the last
    (Call::WalkFrom(ROOT, 0, b""), MISSING),
    (Call::WalkFrom(ROOT, 6, b""), MISSING),
    (Call::WalkFrom(ROOT, 33, b"."), MISSING),
    (Call::WalkFrom(ROOT, 65535, b""), MISSING),
    // another user names none
    (Call::WalkFrom(OWNER, 2, b"e"), CLOSED),
    (Call::WalkFrom(OWNER, 6, b""), CLOSED),
    (Call::LookUpFrom(2, b""), Ok(Seen::There(2))),
    (Call::LookUpFrom(2, b"x"), Ok(Seen::MissingIn(2))),
    (Call::PlaceFrom(2, b"e"), Ok(Seen::At(2, 1, Some(4)))),
    (Call::PlaceFrom(6, b"e"), MISSING),
];

/// What paths find, and where names belong.
static PLACES: [Step; 18] = [
    (Call::LookUp(ROOT, b"/"), Ok(Seen::There(1))),
    (Call::LookUp(ROOT, b"/d/."), Ok(Seen::There(2))),
    (Call::LookUp(ROOT, b"/d/e/.."), Ok(Seen::There(2))),
    (Call::LookUp(ROOT, b"/f"), Ok(Seen::There(3))),
    (Call::LookUp(ROOT, b"/d/e/"), Ok(Seen::There(4))),
    // the last name isn't followed, so that its inode isn't read
    (Call::LookUp(ROOT, b"/n"), Ok(Seen::There(99))),
    (Call::LookUp(ROOT, b"/x"), Ok(Seen::MissingIn(1))),
    (Call::LookUp(ROOT, b"/x/"), Ok(Seen::MissingIn(1))),
    (Call::LookUp(ROOT, b"/d/x"), Ok(Seen::MissingIn(2))),
    (Call::LookUp(ROOT, b"/x/."), MISSING),
    (Call::LookUp(ROOT, b"/f/x"), NO_DIRECTORY),
    (Call::LookUp(ROOT, b"/d/x/y"), MISSING),
    (Call::Place(b"/d/e"), Ok(Seen::At(2, 1, Some(4)))),
    (Call::Place(b"/d/xyz/"), Ok(Seen::At(2, 3, None))),
    (Call::Place(b"/d"), Ok(Seen::At(1, 1, Some(2)))),
    // without a last name nothing is looked for
    (Call::Place(b"/"), Ok(Seen::At(1, 0, None))),
    (Call::Place(b"/d/.."), Ok(Seen::At(2, 2, None))),
    (Call::Place(b"/d/e/."), Ok(Seen::At(4, 1, None))),
];

/// Where the image ends behind the root's entries.
static CUT: [Step; 2] = [
    (Call::Walk(ROOT, b"/d"), Ok(Seen::There(2))),
    (
        Call::Walk(ROOT, b"/d/e"),
        Err(Stop::Halted(Halt::Cut(Cut::Eio))),
    ),
];

/// The owner of `/d`.
const OWNER: User = User { uid: 5, gid: 7 };

/// It, one of its group, another, and user 0.
const USERS: [User; 4] = [
    OWNER,
    User { uid: 9, gid: 7 },
    User { uid: 9, gid: 8 },
    User { uid: 0, gid: 8 },
];

/// The type and permissions of `/d`, low byte first, and who of the four may search it: the first that fits speaks.
static SEARCHED: [([u8; 2], [bool; 4]); 4] = [
    // permissions 100, 010, 001 and 676
    ([0x40, 0x40], [true, false, false, true]),
    ([0x08, 0x40], [false, true, false, true]),
    ([0x01, 0x40], [false, false, true, true]),
    ([0xbe, 0x41], [false, true, false, true]),
];

/// Dots are searched for too.
static DOTS: [Step; 2] = [
    (Call::Walk(OWNER, b"/d/."), CLOSED),
    (Call::Walk(OWNER, b"/d/.."), CLOSED),
];

/// What a user is to see who may search `/d`, or may not: who may not isn't told that a name is missing, but the directory itself is
/// reached.
fn seen_by(user: User, may: bool) -> [Step<'static>; 3] {
    let (there, missing) = if may {
        (Ok(Seen::There(4)), Ok(Seen::MissingIn(2)))
    } else {
        (CLOSED, CLOSED)
    };
    [
        (Call::Walk(user, b"/d/e"), there),
        (Call::LookUp(user, b"/d/x"), missing),
        (Call::Walk(user, b"/d"), Ok(Seen::There(2))),
    ]
}

#[test]
fn paths_lead_somewhere(rt: HostRuntime) -> Result<(), Fail> {
    let mut tree = volume(rt.alloc(), &TREE, &[])?;
    tree.gives("walks", &WALKS)?;
    tree.gives("starts", &STARTS)?;
    tree.gives("places", &PLACES)?;
    volume(rt.alloc(), &CUT_TREE, &[])?.gives("a cut", &CUT)
}

#[test]
fn directories_are_searched(rt: HostRuntime) -> Result<(), Fail> {
    for (mode, expected) in &SEARCHED {
        let mut tree = volume(rt.alloc(), &TREE, &[(4160, mode)])?;
        for (user, may) in USERS.iter().zip(expected.iter()) {
            tree.gives("searched", &seen_by(*user, *may))?;
        }
    }
    // permissions 644
    volume(rt.alloc(), &TREE, &[(4160, &[0xa4, 0x41])])?.gives("dots", &DOTS)
}
