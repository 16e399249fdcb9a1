//! A fid stays on its file when names are changed.

use crate::talk::{Given, Row, Talk};
use errno::Errno;
use std::alloc::{AllocError, Global};
use std::test::Fail;

/// Fid 2 stands on `/d` (inode 2), fid 3 on `/d/f` (inode 3), and fid 4 on `/df` (inode 4).
static THREE: [Row<'static>; 3] = [
    (
        &[Given::Node(2, 0o40755)],
        b"\x6e\x05\0\x01\0\0\0\x02\0\0\0\x01\0\x01\0d",
        "0 lstat /d;",
        b"\x6f\x05\0\x01\0\x80\0\0\0\0\x02\0\0\0\0\0\0\0",
    ),
    (
        &[Given::Node(3, 0o100644)],
        b"\x6e\x05\0\x02\0\0\0\x03\0\0\0\x01\0\x01\0f",
        "0 lstat /d/f;",
        b"\x6f\x05\0\x01\0\0\0\0\0\0\x03\0\0\0\0\0\0\0",
    ),
    (
        &[Given::Node(4, 0o100644)],
        b"\x6e\x05\0\x01\0\0\0\x04\0\0\0\x01\0\x02\0df",
        "0 lstat /df;",
        b"\x6f\x05\0\x01\0\0\0\0\0\0\x04\0\0\0\0\0\0\0",
    ),
];

/// A call is refused so.
const INVALID: &[Given] = &[Given::Refused(Errno::EINVAL)];

/// Readlinks of the three fids, which the server refuses.
const READLINK_2: &[u8] = b"\x16\x07\0\x02\0\0\0";

const READLINK_3: &[u8] = b"\x16\x07\0\x03\0\0\0";

const READLINK_4: &[u8] = b"\x16\x07\0\x04\0\0\0";

/// The server's refusal of a readlink; that of one of a fid whose file has lost its name.
const EINVAL: &[u8] = b"\x07\x07\0\x16\0\0\0";

const ESTALE: &[u8] = b"\x07\x07\0\x74\0\0\0";

/// A talk in which the three fids stand so.
fn three(alloc: Global) -> Result<Talk, Fail> {
    let mut talk = Talk::attached(alloc)?;
    talk.plays(&THREE)?;
    Ok(talk)
}

/// Then these rows come out.
fn with_three(alloc: Global, rows: &[Row<'_>]) -> Result<(), Fail> {
    let mut talk = three(alloc)?;
    talk.plays(rows)
}

static DIRECTORIES_MOVE: [Row<'static>; 4] = [
    (
        &[Given::Done, Given::Refused(Errno::ENOENT)],
        b"\x4a\x06\0\x01\0\0\0\x01\0d\x01\0\0\0\x02\0xy",
        "0 rename /d /xy;0 lstat /d;",
        b"\x4b\x06\0",
    ),
    (INVALID, READLINK_2, "0 readlink /xy;", EINVAL),
    (INVALID, READLINK_3, "0 readlink /xy/f;", EINVAL),
    (INVALID, READLINK_4, "0 readlink /df;", EINVAL),
];

/// A directory moves: it, and what is below it, goes along; a name that only begins like it stays.
#[test]
fn directories_move(rt: HostRuntime) -> Result<(), Fail> {
    with_three(rt.alloc(), &DIRECTORIES_MOVE)
}

static REFUSED_MOVES_CHANGE_NOTHING: [Row<'static>; 2] = [
    (
        &[Given::Refused(Errno::EACCES)],
        b"\x4a\x06\0\x01\0\0\0\x01\0d\x01\0\0\0\x02\0xy",
        "0 rename /d /xy;",
        b"\x07\x06\0\x0d\0\0\0",
    ),
    (INVALID, READLINK_3, "0 readlink /d/f;", EINVAL),
];

/// A name that isn't changed leaves all where it was.
#[test]
fn refused_moves_change_nothing(rt: HostRuntime) -> Result<(), Fail> {
    with_three(rt.alloc(), &REFUSED_MOVES_CHANGE_NOTHING)
}

static FILES_ARE_REPLACED: [Row<'static>; 3] = [
    (
        &[Given::Done, Given::Refused(Errno::ENOENT)],
        b"\x14\x06\0\x03\0\0\0\x01\0\0\0\x02\0df",
        "0 rename /d/f /df;0 lstat /d/f;",
        b"\x15\x06\0",
    ),
    (INVALID, READLINK_3, "0 readlink /df;", EINVAL),
    (&[], READLINK_4, "", ESTALE),
];

/// A file takes the name of another one, which is gone.
#[test]
fn files_are_replaced(rt: HostRuntime) -> Result<(), Fail> {
    with_three(rt.alloc(), &FILES_ARE_REPLACED)
}

static TWO_NAMES_OF_ONE_FILE_STAY: [Row<'static>; 3] = [
    (
        &[Given::Done, Given::Node(3, 0o100644)],
        b"\x14\x06\0\x03\0\0\0\x01\0\0\0\x02\0df",
        "0 rename /d/f /df;0 lstat /d/f;",
        b"\x15\x06\0",
    ),
    (INVALID, READLINK_3, "0 readlink /d/f;", EINVAL),
    (INVALID, READLINK_4, "0 readlink /df;", EINVAL),
];

/// A rename of two names of one file changes nothing: the old name is still there, and each fid stays where it was.
#[test]
fn two_names_of_one_file_stay(rt: HostRuntime) -> Result<(), Fail> {
    with_three(rt.alloc(), &TWO_NAMES_OF_ONE_FILE_STAY)
}

/// A text, so many `x`, and another text.
fn around(alloc: Global, before: &str, len: u16, behind: &str) -> Result<String, AllocError> {
    let mut text = String::new(alloc);
    text.push_str(before)?;
    for _ in 0..len {
        text.push('x')?;
    }
    text.push_str(behind)?;
    Ok(text)
}

/// The message that gives the directory `/d` a name of so many bytes.
fn long_name(alloc: Global, len: u16) -> Result<Vec<u8>, AllocError> {
    let mut message = b"\x4a\x06\0\x01\0\0\0\x01\0d\x01\0\0\0".to_vec(alloc)?;
    message.extend_from_slice(&len.to_le_bytes())?;
    for _ in 0..len {
        message.push(b'x')?;
    }
    Ok(message)
}

/// What comes of that message.
const MOVED: &[Given] = &[Given::Done, Given::Refused(Errno::ENOENT)];

/// The directory `/d` gets a name of so many bytes.
fn with_long_name(alloc: Global, len: u16) -> Result<Talk, Fail> {
    let mut talk = three(alloc)?;
    let asked = around(alloc, "0 rename /d /", len, ";0 lstat /d;")?;
    let message = long_name(alloc, len)?;
    talk.plays(&[(MOVED, &message, asked.as_str(), b"\x4b\x06\0")])?;
    Ok(talk)
}

/// Fid 3 stands below a name of so many bytes.
fn stands_below(alloc: Global, len: u16) -> Result<(), Fail> {
    let mut talk = with_long_name(alloc, len)?;
    let asked = around(alloc, "0 readlink /", len, "/f;")?;
    talk.plays(&[(INVALID, READLINK_3, asked.as_str(), EINVAL)])
}

static LET_GO: [Row<'static>; 2] = [
    (&[], READLINK_3, "", ESTALE),
    (INVALID, READLINK_4, "0 readlink /df;", EINVAL),
];

/// A path of 1024 bytes is that of a call; what would get a longer one has lost its name.
#[test]
fn long_paths_are_let_go(rt: HostRuntime) -> Result<(), Fail> {
    stands_below(rt.alloc(), 1021)?;
    let mut talk = with_long_name(rt.alloc(), 1022)?;
    talk.plays(&LET_GO)
}

static FILES_ARE_REMOVED: [Row<'static>; 9] = [
    (
        &[Given::Descriptor(1)],
        b"\x0c\x06\0\x04\0\0\0\0\0\0\0",
        "0 open /df 1 0;",
        b"\x0d\x06\0\0\0\0\0\0\x04\0\0\0\0\0\0\0\0\0\0\0",
    ),
    (
        &[Given::Done],
        b"\x4c\x07\0\x01\0\0\0\x02\0df\0\0\0\0",
        "0 unlink /df;",
        b"\x4d\x07\0",
    ),
    (&[], READLINK_4, "", ESTALE),
    (
        &[Given::Refused(Errno::EIO)],
        b"\x18\x02\0\x04\0\0\0\xff\x07\0\0\0\0\0\0",
        "0 Fstat { fd: 1 };",
        b"\x07\x02\0\x05\0\0\0",
    ),
    (
        &[Given::Done],
        b"\x7a\x08\0\x04\0\0\0",
        "0 Close { fd: 1 };",
        b"\x07\x08\0\x74\0\0\0",
    ),
    (
        &[Given::Done],
        b"\x7a\x08\0\x03\0\0\0",
        "0 unlink /d/f;",
        b"\x7b\x08\0",
    ),
    (&[], b"\x7a\x08\0\x03\0\0\0", "", b"\x07\x08\0\x09\0\0\0"),
    (
        &[Given::Refused(Errno::EBUSY)],
        b"\x7a\x08\0\x02\0\0\0",
        "0 rmdir /d;",
        b"\x07\x08\0\x10\0\0\0",
    ),
    (&[], b"\x78\x06\0\x02\0\0\0", "", b"\x07\x06\0\x09\0\0\0"),
];

/// A removed file: its fid is stale, but an open one still tells its attributes and is closed.
#[test]
fn files_are_removed(rt: HostRuntime) -> Result<(), Fail> {
    with_three(rt.alloc(), &FILES_ARE_REMOVED)
}

static NAMES_COME_AND_GO: [Row<'static>; 4] = [
    (
        &[Given::Done],
        b"\x46\x06\0\x02\0\0\0\x04\0\0\0\x01\0g",
        "0 link /df /d/g;",
        b"\x47\x06\0",
    ),
    (
        &[Given::Done],
        b"\x4c\x07\0\x01\0\0\0\x01\0d\0\x02\0\0",
        "0 rmdir /d;",
        b"\x4d\x07\0",
    ),
    (&[], READLINK_2, "", ESTALE),
    (INVALID, READLINK_4, "0 readlink /df;", EINVAL),
];

/// A directory's name is taken away, and a file gets a further name.
#[test]
fn names_come_and_go(rt: HostRuntime) -> Result<(), Fail> {
    with_three(rt.alloc(), &NAMES_COME_AND_GO)
}
