//! Versions, users, walks, and fids that are let go.

use crate::talk::{ATTACH, Given, Row, VERSION, attached, begun};
use errno::Errno;
use std::test::Fail;

static VERSIONS: [Row<'static>; 3] = [
    (
        &[],
        b"\x64\xff\xff\0\x20\0\0\x06\x009P2000",
        "leave;",
        b"\x65\xff\xff\0\x20\0\0\x07\0unknown",
    ),
    (
        &[],
        b"\x64\xff\xff\xff\x0f\0\0\x08\x009P2000.L",
        "",
        b"\x07\xff\xff\x16\0\0\0",
    ),
    (
        &[],
        b"\x64\xff\xff\0\0\x02\0\x08\x009P2000.L",
        "leave;",
        b"\x65\xff\xff\x18\0\x01\0\x08\x009P2000.L",
    ),
];

/// A version that isn't spoken, a size that is too small, and one that is too large.
#[test]
fn versions(rt: HostRuntime) -> Result<(), Fail> {
    begun(rt.alloc(), &VERSIONS)
}

static USERS: [Row<'static>; 6] = [
    (
        &[Given::Node(1, 0o40755)],
        b"\x68\x03\0\x02\0\0\0\xff\xff\xff\xff\0\0\0\0\xff\xff\xff\xff",
        "0 lstat /;",
        b"\x69\x03\0\x80\0\0\0\0\x01\0\0\0\0\0\0\0",
    ),
    (
        &[Given::Node(1, 0o40755)],
        b"\x68\x03\0\x03\0\0\0\xff\xff\xff\xff\0\0\0\0\xe8\x03\0\0",
        "enter 1000 1000;1 lstat /;",
        b"\x69\x03\0\x80\0\0\0\0\x01\0\0\0\0\0\0\0",
    ),
    (&[], ATTACH, "", b"\x07\x02\0\x16\0\0\0"),
    (
        &[],
        b"\x68\x03\0\x04\0\0\0\xff\xff\xff\xff\0\0\0\0\0\0\x01\0",
        "",
        b"\x07\x03\0\x16\0\0\0",
    ),
    (
        &[],
        VERSION,
        "leave;",
        b"\x65\xff\xff\0\x20\0\0\x08\x009P2000.L",
    ),
    (&[], b"\x78\x04\0\x01\0\0\0", "", b"\x07\x04\0\x09\0\0\0"),
];

/// A user attaches twice, and has one session; another one has its own; a version ends them.
#[test]
fn users(rt: HostRuntime) -> Result<(), Fail> {
    attached(rt.alloc(), &USERS)
}

/// User 1000 attaches as fid 2.
const MEMBER: &[u8] = b"\x68\x03\0\x02\0\0\0\xff\xff\xff\xff\0\0\0\0\xe8\x03\0\0";

/// What it is answered.
const ENTERED: &[u8] = b"\x69\x03\0\x80\0\0\0\0\x01\0\0\0\0\0\0\0";

static LAST_FIDS: [Row<'static>; 9] = [
    (
        &[Given::Node(1, 0o40755)],
        MEMBER,
        "enter 1000 1000;1 lstat /;",
        ENTERED,
    ),
    (
        &[],
        b"\x6e\x05\0\x02\0\0\0\x03\0\0\0\0\0",
        "",
        b"\x6f\x05\0\0\0",
    ),
    (&[], b"\x78\x06\0\x02\0\0\0", "", b"\x79\x06\0"),
    (&[], b"\x78\x06\0\x03\0\0\0", "1 leaves;", b"\x79\x06\0"),
    (
        &[Given::Node(1, 0o40755)],
        MEMBER,
        "enter 1000 1000;2 lstat /;",
        ENTERED,
    ),
    (
        &[Given::Descriptor(3)],
        b"\x0c\x05\0\x02\0\0\0\0\0\0\0",
        "2 open / 1 0;",
        b"\x0d\x05\0\x80\0\0\0\0\x01\0\0\0\0\0\0\0\0\0\0\0",
    ),
    (&[], b"\x78\x06\0\x02\0\0\0", "2 leaves;", b"\x79\x06\0"),
    (
        &[Given::Node(1, 0o40755)],
        MEMBER,
        "enter 1000 1000;3 lstat /;",
        ENTERED,
    ),
    (
        &[Given::Refused(Errno::EBUSY)],
        b"\x7a\x06\0\x02\0\0\0",
        "3 rmdir /;3 leaves;",
        b"\x07\x06\0\x10\0\0\0",
    ),
];

/// A user's session ends with its last fid, be that open or removed, and not before; then the user attaches anew.
#[test]
fn sessions_end_with_the_last_fid(rt: HostRuntime) -> Result<(), Fail> {
    attached(rt.alloc(), &LAST_FIDS)
}

static WALKS: [Row<'static>; 9] = [
    (
        &[Given::Node(2, 0o40755), Given::Node(3, 0o100644)],
        b"\x6e\x05\0\x01\0\0\0\x02\0\0\0\x02\0\x01\0d\x01\0f",
        "0 lstat /d;0 lstat /d/f;",
        b"\x6f\x05\0\x02\0\x80\0\0\0\0\x02\0\0\0\0\0\0\0\0\0\0\0\0\x03\0\0\0\0\0\0\0",
    ),
    (
        &[Given::Node(2, 0o40755), Given::Refused(Errno::ENOENT)],
        b"\x6e\x05\0\x01\0\0\0\x03\0\0\0\x02\0\x01\0d\x01\0g",
        "0 lstat /d;0 lstat /d/g;",
        b"\x6f\x05\0\x01\0\x80\0\0\0\0\x02\0\0\0\0\0\0\0",
    ),
    (&[], b"\x78\x06\0\x03\0\0\0", "", b"\x07\x06\0\x09\0\0\0"),
    (
        &[Given::Refused(Errno::EACCES)],
        b"\x6e\x05\0\x01\0\0\0\x03\0\0\0\x01\0\x01\0e",
        "0 lstat /e;",
        b"\x07\x05\0\x0d\0\0\0",
    ),
    (
        &[],
        b"\x6e\x05\0\x02\0\0\0\x03\0\0\0\0\0",
        "",
        b"\x6f\x05\0\0\0",
    ),
    (
        &[Given::Node(2, 0o40755)],
        b"\x6e\x05\0\x01\0\0\0\x04\0\0\0\x02\0\x01\0d\x03\0a/b",
        "0 lstat /d;",
        b"\x6f\x05\0\x01\0\x80\0\0\0\0\x02\0\0\0\0\0\0\0",
    ),
    (
        &[Given::Node(4, 0o120777)],
        b"\x6e\x05\0\x01\0\0\0\x04\0\0\0\x02\0\x01\0l\x01\0f",
        "0 lstat /l;",
        b"\x6f\x05\0\x01\0\x02\0\0\0\0\x04\0\0\0\0\0\0\0",
    ),
    (&[], b"\x78\x06\0\x03\0\0\0", "", b"\x79\x06\0"),
    (&[], b"\x78\x06\0\x03\0\0\0", "", b"\x07\x06\0\x09\0\0\0"),
];

/// A walk of two names; one of which the second leads nowhere, which makes no fid; one of which the first does; a clone.
#[test]
fn walks(rt: HostRuntime) -> Result<(), Fail> {
    attached(rt.alloc(), &WALKS)
}

static DOTS: [Row<'static>; 2] = [
    (
        &[
            Given::Node(2, 0o40755),
            Given::Node(2, 0o40755),
            Given::Node(1, 0o40755),
            Given::Node(1, 0o40755),
        ],
        b"\x6e\x05\0\x01\0\0\0\x02\0\0\0\x04\0\x01\0d\x01\0.\x02\0..\x02\0..",
        "0 lstat /d;0 lstat /d;0 lstat /;0 lstat /;",
        b"\x6f\x05\0\x04\0\x80\0\0\0\0\x02\0\0\0\0\0\0\0\x80\0\0\0\0\x02\0\0\0\0\0\0\0\x80\0\0\0\0\x01\0\0\0\0\0\0\0\
          \x80\0\0\0\0\x01\0\0\0\0\0\0\0",
    ),
    (
        &[Given::Done, Given::Node(5, 0o40700)],
        b"\x48\x01\x01\x02\0\0\0\x01\0n\xc0\x41\0\0\0\0\0\0",
        "0 mkdir /n 448;0 lstat /n;",
        b"\x49\x01\x01\x80\0\0\0\0\x05\0\0\0\0\0\0\0",
    ),
];

/// Up and on the spot: of the fid of `/d/f`'s directory.
#[test]
fn dots(rt: HostRuntime) -> Result<(), Fail> {
    attached(rt.alloc(), &DOTS)
}
