//! Messages that a server of MINIX volumes can't take, and those that need no call.

use crate::talk::{Row, attached};
use std::test::Fail;

static SOME_ARE_NOT_SUPPORTED: [Row<'static>; 5] = [
    (
        &[],
        b"\x66\x01\0\x09\0\0\0\0\0\0\0\0\0\0\0",
        "",
        b"\x07\x01\0\x5f\0\0\0",
    ),
    (
        &[],
        b"\x1e\x01\0\x01\0\0\0\x09\0\0\0\x01\0x",
        "",
        b"\x07\x01\0\x5f\0\0\0",
    ),
    (
        &[],
        b"\x20\x01\0\x01\0\0\0\x01\0x\0\0\0\0\0\0\0\0\0\0\0\0",
        "",
        b"\x07\x01\0\x5f\0\0\0",
    ),
    (
        &[],
        b"\x12\x01\0\x01\0\0\0\x01\0x\0\0\0\0\0\0\0\0\0\0\0\0\0\0\0\0",
        "",
        b"\x07\x01\0\x5f\0\0\0",
    ),
    (&[], b"\x70\x01\x02", "", b"\x07\x01\x02\x5f\0\0\0"),
];

/// EOPNOTSUPP: authentication, extended attributes, device nodes, a type that no request has.
#[test]
fn some_are_not_supported(rt: HostRuntime) -> Result<(), Fail> {
    attached(rt.alloc(), &SOME_ARE_NOT_SUPPORTED)
}

static SOME_NEED_NO_CALL: [Row<'static>; 3] = [
    (&[], b"\x6c\x03\0\x02\0", "", b"\x6d\x03\0"),
    (&[], b"\x6c\x03\0\x02\0\0", "", b"\x07\x03\0\x16\0\0\0"),
    (
        &[],
        b"\x34\x01\0\x01\0\0\0\x01\0\0\0\0\0\0\0\0\0\0\0\0\0\0\0\0\0\0\0\0\x09\0\0\0\0\0",
        "",
        b"\x07\x01\0\x09\0\0\0",
    ),
];

/// A flush is answered at once; so are bytes behind a message's end.
#[test]
fn some_need_no_call(rt: HostRuntime) -> Result<(), Fail> {
    attached(rt.alloc(), &SOME_NEED_NO_CALL)
}
