//! Entries of a directory: which are told from an offset on, in so many bytes.

use crate::talk::{ATTACH, Given, Row, Talk};
use std::alloc::{AllocError, Global};
use std::test::Fail;
use tree::{Entry, Outcome, Reply};

/// The root is open, as fid 1 and descriptor 0.
static OPEN_ROOT: [Row<'static>; 1] = [(
    &[Given::Descriptor(0)],
    b"\x0c\x01\0\x01\0\0\0\0\0\x01\0",
    "0 open / 1 0;",
    b"\x0d\x01\0\x80\0\0\0\0\x01\0\0\0\0\0\0\0\0\0\0\0",
)];

/// Behind that these rows come out.
fn with_open_root(alloc: Global, rows: &[Row<'_>]) -> Result<(), Fail> {
    let mut talk = Talk::attached(alloc)?;
    talk.plays(&OPEN_ROOT)?;
    talk.plays(rows)
}

/// The root, and then the names `a`, inode 8, and `bc`, inode 9.
const NAMES: &[Given] = &[
    Given::Node(1, 0o40755),
    Given::Names(&[(b"a", 8), (b"bc", 9)]),
];

/// The root, and then the second name alone.
const ONE: &[Given] = &[Given::Node(1, 0o40755), Given::Names(&[(b"bc", 9)])];

/// The root, and then a name of 60 bytes, inode 8, and `s`, inode 9.
const LONG_60: &[Given] = &[
    Given::Node(1, 0o40755),
    Given::Names(&[(&[b'l'; 60], 8), (b"s", 9)]),
];

/// The same, where the first name has 61 bytes.
const LONG_61: &[Given] = &[
    Given::Node(1, 0o40755),
    Given::Names(&[(&[b'l'; 61], 8), (b"s", 9)]),
];

static ENTRIES_ARE_TOLD: [Row<'static>; 3] = [
    (
        NAMES,
        b"\x28\x02\0\x01\0\0\0\0\0\0\0\0\0\0\0\0\x10\0\0",
        "0 lstat /;0 Readdir { fd: 0 };",
        b"\x29\x02\0\x66\0\0\0\0\0\0\0\0\x01\0\0\0\0\0\0\0\x01\0\0\0\0\0\0\0\0\x01\0.\0\0\0\0\0\x01\0\0\0\0\0\0\0\x02\
          \0\0\0\0\0\0\0\0\x02\0..\0\0\0\0\0\x08\0\0\0\0\0\0\0\x03\0\0\0\0\0\0\0\0\x01\0a\0\0\0\0\0\x09\0\0\0\0\0\0\0\
          \x04\0\0\0\0\0\0\0\0\x02\0bc",
    ),
    (
        &[],
        b"\x28\x02\0\x01\0\0\0\x01\0\0\0\0\0\0\0\x54\0\0\0",
        "",
        b"\x29\x02\0\x4d\0\0\0\0\0\0\0\0\x01\0\0\0\0\0\0\0\x02\0\0\0\0\0\0\0\0\x02\0..\0\0\0\0\0\x08\0\0\0\0\0\0\0\x03\
          \0\0\0\0\0\0\0\0\x01\0a\0\0\0\0\0\x09\0\0\0\0\0\0\0\x04\0\0\0\0\0\0\0\0\x02\0bc",
    ),
    (
        &[],
        b"\x28\x02\0\x01\0\0\0\x03\0\0\0\0\0\0\0\0\x10\0\0",
        "",
        b"\x29\x02\0\x1a\0\0\0\0\0\0\0\0\x09\0\0\0\0\0\0\0\x04\0\0\0\0\0\0\0\0\x02\0bc",
    ),
];

/// A directory of the names `a` and `bc`, in one answer, and from an offset in the middle on.
#[test]
fn entries_are_told(rt: HostRuntime) -> Result<(), Fail> {
    with_open_root(rt.alloc(), &ENTRIES_ARE_TOLD)
}

static NAMES_THAT_STAY_ARE_TOLD_ONCE: [Row<'static>; 8] = [
    (
        NAMES,
        b"\x28\x02\0\x01\0\0\0\0\0\0\0\0\0\0\0\x65\0\0\0",
        "0 lstat /;0 Readdir { fd: 0 };",
        b"\x29\x02\0\x4c\0\0\0\0\0\0\0\0\x01\0\0\0\0\0\0\0\x01\0\0\0\0\0\0\0\0\x01\0.\0\0\0\0\0\x01\0\0\0\0\0\0\0\x02\
          \0\0\0\0\0\0\0\0\x02\0..\0\0\0\0\0\x08\0\0\0\0\0\0\0\x03\0\0\0\0\0\0\0\0\x01\0a",
    ),
    (
        &[Given::Done],
        b"\x4c\x07\0\x01\0\0\0\x01\0a\0\0\0\0",
        "0 unlink /a;",
        b"\x4d\x07\0",
    ),
    (
        &[],
        b"\x28\x02\0\x01\0\0\0\x03\0\0\0\0\0\0\0\0\x10\0\0",
        "",
        b"\x29\x02\0\x1a\0\0\0\0\0\0\0\0\x09\0\0\0\0\0\0\0\x04\0\0\0\0\0\0\0\0\x02\0bc",
    ),
    (
        ONE,
        b"\x28\x02\0\x01\0\0\0\0\0\0\0\0\0\0\0\x66\0\0\0",
        "0 lstat /;0 Readdir { fd: 0 };",
        b"\x29\x02\0\x4d\0\0\0\0\0\0\0\0\x01\0\0\0\0\0\0\0\x01\0\0\0\0\0\0\0\0\x01\0.\0\0\0\0\0\x01\0\0\0\0\0\0\0\x02\
          \0\0\0\0\0\0\0\0\x02\0..\0\0\0\0\0\x09\0\0\0\0\0\0\0\x03\0\0\0\0\0\0\0\0\x02\0bc",
    ),
    (
        &[],
        b"\x28\x02\0\x01\0\0\0\x03\0\0\0\0\0\0\0\0\x10\0\0",
        "",
        b"\x29\x02\0\0\0\0\0",
    ),
    (
        &[],
        b"\x6e\x05\0\x01\0\0\0\x02\0\0\0\0\0",
        "",
        b"\x6f\x05\0\0\0",
    ),
    (
        &[Given::Descriptor(7)],
        b"\x0c\x01\0\x02\0\0\0\0\0\x01\0",
        "0 open / 1 0;",
        b"\x0d\x01\0\x80\0\0\0\0\x01\0\0\0\0\0\0\0\0\0\0\0",
    ),
    (
        NAMES,
        b"\x28\x02\0\x02\0\0\0\x03\0\0\0\0\0\0\0\0\x10\0\0",
        "0 lstat /;0 Readdir { fd: 7 };",
        b"\x29\x02\0\x1a\0\0\0\0\0\0\0\0\x09\0\0\0\0\0\0\0\x04\0\0\0\0\0\0\0\0\x02\0bc",
    ),
];

/// The names as they were at offset 0 are told to the end, once each, whatever becomes of them meanwhile; at offset 0, and of a fid that is
/// opened again, they are asked for anew.
#[test]
fn names_that_stay_are_told_once(rt: HostRuntime) -> Result<(), Fail> {
    with_open_root(rt.alloc(), &NAMES_THAT_STAY_ARE_TOLD_ONCE)
}

static THE_REST_MAY_BE_EMPTY: [Row<'static>; 2] = [
    (
        NAMES,
        b"\x28\x02\0\x01\0\0\0\x04\0\0\0\0\0\0\0\0\x10\0\0",
        "0 lstat /;0 Readdir { fd: 0 };",
        b"\x29\x02\0\0\0\0\0",
    ),
    (
        &[],
        b"\x28\x02\0\x01\0\0\0\xff\xff\xff\xff\xff\xff\xff\xff\0\x10\0\0",
        "",
        b"\x29\x02\0\0\0\0\0",
    ),
];

/// From the last entry's offset on there is none, nor behind it.
#[test]
fn the_rest_may_be_empty(rt: HostRuntime) -> Result<(), Fail> {
    with_open_root(rt.alloc(), &THE_REST_MAY_BE_EMPTY)
}

static AS_MANY_AS_HAVE_ROOM_ARE_TOLD: [Row<'static>; 2] = [
    (
        NAMES,
        b"\x28\x02\0\x01\0\0\0\0\0\0\0\0\0\0\0\x66\0\0\0",
        "0 lstat /;0 Readdir { fd: 0 };",
        b"\x29\x02\0\x66\0\0\0\0\0\0\0\0\x01\0\0\0\0\0\0\0\x01\0\0\0\0\0\0\0\0\x01\0.\0\0\0\0\0\x01\0\0\0\0\0\0\0\x02\
          \0\0\0\0\0\0\0\0\x02\0..\0\0\0\0\0\x08\0\0\0\0\0\0\0\x03\0\0\0\0\0\0\0\0\x01\0a\0\0\0\0\0\x09\0\0\0\0\0\0\0\
          \x04\0\0\0\0\0\0\0\0\x02\0bc",
    ),
    (
        NAMES,
        b"\x28\x02\0\x01\0\0\0\0\0\0\0\0\0\0\0\x65\0\0\0",
        "0 lstat /;0 Readdir { fd: 0 };",
        b"\x29\x02\0\x4c\0\0\0\0\0\0\0\0\x01\0\0\0\0\0\0\0\x01\0\0\0\0\0\0\0\0\x01\0.\0\0\0\0\0\x01\0\0\0\0\0\0\0\x02\
          \0\0\0\0\0\0\0\0\x02\0..\0\0\0\0\0\x08\0\0\0\0\0\0\0\x03\0\0\0\0\0\0\0\0\x01\0a",
    ),
];

/// The four entries have 102 bytes: in these all of them have room, in 101 the last one hasn't.
#[test]
fn as_many_as_have_room_are_told(rt: HostRuntime) -> Result<(), Fail> {
    with_open_root(rt.alloc(), &AS_MANY_AS_HAVE_ROOM_ARE_TOLD)
}

static THE_LONGEST_ENTRY_HAS_ROOM: [Row<'static>; 2] = [
    (
        LONG_60,
        b"\x28\x02\0\x01\0\0\0\x02\0\0\0\0\0\0\0\x54\0\0\0",
        "0 lstat /;0 Readdir { fd: 0 };",
        b"\x29\x02\0\x54\0\0\0\0\0\0\0\0\x08\0\0\0\0\0\0\0\x03\0\0\0\0\0\0\0\0\x3c\0\
          llllllllllllllllllllllllllllllllllllllllllllllllllllllllllll",
    ),
    (
        &[],
        b"\x28\x02\0\x01\0\0\0\x02\0\0\0\0\0\0\0\x53\0\0\0",
        "",
        b"\x07\x02\0\x16\0\0\0",
    ),
];

/// The longest entry has 84 bytes: a count below these is EINVAL, with which nothing is asked.
#[test]
fn the_longest_entry_has_room(rt: HostRuntime) -> Result<(), Fail> {
    with_open_root(rt.alloc(), &THE_LONGEST_ENTRY_HAS_ROOM)
}

static NONE_IS_PASSED_OVER: [Row<'static>; 1] = [(
    LONG_60,
    b"\x28\x02\0\x01\0\0\0\x01\0\0\0\0\0\0\0\x6d\0\0\0",
    "0 lstat /;0 Readdir { fd: 0 };",
    b"\x29\x02\0\x1a\0\0\0\0\0\0\0\0\x01\0\0\0\0\0\0\0\x02\0\0\0\0\0\0\0\0\x02\0..",
)];

/// Behind an entry that has no room none is told, though a shorter one would have room: the next offset is that of the long one.
#[test]
fn none_is_passed_over(rt: HostRuntime) -> Result<(), Fail> {
    with_open_root(rt.alloc(), &NONE_IS_PASSED_OVER)
}

static LONGER_NAMES_ARE_EIO: [Row<'static>; 2] = [
    (
        LONG_61,
        b"\x28\x02\0\x01\0\0\0\x02\0\0\0\0\0\0\0\0\x10\0\0",
        "0 lstat /;0 Readdir { fd: 0 };",
        b"\x07\x02\0\x05\0\0\0",
    ),
    (
        &[],
        b"\x28\x02\0\x01\0\0\0\x03\0\0\0\0\0\0\0\0\x10\0\0",
        "",
        b"\x29\x02\0\x19\0\0\0\0\0\0\0\0\x09\0\0\0\0\0\0\0\x04\0\0\0\0\0\0\0\0\x01\0s",
    ),
];

/// A name longer than names of the server are is EIO from an offset up to it; behind it, it isn't seen.
#[test]
fn longer_names_are_eio(rt: HostRuntime) -> Result<(), Fail> {
    with_open_root(rt.alloc(), &LONGER_NAMES_ARE_EIO)
}

static SMALL: [Row<'static>; 3] = [
    (
        &[],
        b"\x64\xff\xff\0\x10\0\0\x08\x009P2000.L",
        "leave;",
        b"\x65\xff\xff\0\x10\0\0\x08\x009P2000.L",
    ),
    (
        &[Given::Node(1, 0o40755)],
        ATTACH,
        "enter 0 0;0 lstat /;",
        b"\x69\x02\0\x80\0\0\0\0\x01\0\0\0\0\0\0\0",
    ),
    (
        &[Given::Descriptor(0)],
        b"\x0c\x01\0\x01\0\0\0\0\0\x01\0",
        "0 open / 1 0;",
        b"\x0d\x01\0\x80\0\0\0\0\x01\0\0\0\0\0\0\0\0\0\0\0",
    ),
];

/// Names of 60 bytes, all of inode 7: the bytes of the first one are 3, of the last one 62.
fn sixty(alloc: Global) -> Result<Outcome, AllocError> {
    let mut names = Vec::new(alloc);
    for next in 3..63u8 {
        let name = vec![in alloc; next; 60]?;
        names.push(Entry { name, inode: 7 })?;
    }
    Ok(Outcome::Reply(Reply::Names(names)))
}

/// The entry of one of them is told behind others.
fn tell(told: &mut Vec<u8>, next: u8) -> Result<(), AllocError> {
    told.extend_from_slice(b"\0\0\0\0\0\x07\0\0\0\0\0\0\0")?;
    told.extend_from_slice(&u64::from(next).to_le_bytes())?;
    told.extend_from_slice(b"\0\x3c\0")?;
    told.extend_from_slice(&[next; 60])
}

/// The answer that tells the first 48 of them.
fn told(alloc: Global) -> Result<Vec<u8>, AllocError> {
    let mut told = b"\x29\x02\0\xc0\x0f\0\0".to_vec(alloc)?;
    for next in 3..=50u8 {
        tell(&mut told, next)?;
    }
    Ok(told)
}

/// Where messages have at most 4096 bytes, entries have at most 4072, however many are asked for: of entries of 84 bytes 48 have room.
#[test]
fn the_settled_size_is_kept(rt: HostRuntime) -> Result<(), Fail> {
    let alloc = rt.alloc();
    let told = told(alloc)?;
    let mut talk = Talk::new(alloc);
    talk.plays(&SMALL)?;
    talk.gives(&Given::Node(1, 0o40755))?;
    talk.answers(sixty(alloc)?)?;
    talk.hears(
        b"\x28\x02\0\x01\0\0\0\x02\0\0\0\0\0\0\0\xff\xff\xff\xff",
        "0 lstat /;0 Readdir { fd: 0 };",
        &told,
    )
}
