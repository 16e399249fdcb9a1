//! The root's inode of a new volume, from its bytes and back.
use inode::{attributes, decode, decode_in, encode};
use std::test::Fail;
use tests_texts::row_is_told;
use tree::Attributes;
use volume::Inode;

/// A root of two links and one zone, number 6, made at time 50.
const ROOT: [u8; 64] = [
    0xed, 0x41, 0x02, 0x00, 0x00, 0x00, 0x00, 0x00, 0x80, 0x00, 0x00, 0x00, 0x32, 0x00, 0x00, 0x00,
    0x32, 0x00, 0x00, 0x00, 0x32, 0x00, 0x00, 0x00, 0x06, 0x00, 0x00, 0x00, 0x00, 0x00, 0x00, 0x00,
    0x00, 0x00, 0x00, 0x00, 0x00, 0x00, 0x00, 0x00, 0x00, 0x00, 0x00, 0x00, 0x00, 0x00, 0x00, 0x00,
    0x00, 0x00, 0x00, 0x00, 0x00, 0x00, 0x00, 0x00, 0x00, 0x00, 0x00, 0x00, 0x00, 0x00, 0x00, 0x00,
];

/// The same, decoded.
fn root() -> Inode {
    Inode {
        mode: 0o040755,
        links: 2,
        uid: 0,
        gid: 0,
        size: 128,
        atime: 50,
        mtime: 50,
        ctime: 50,
        zones: [6, 0, 0, 0, 0, 0, 0, 0, 0, 0],
    }
}

/// What stat tells of it, where it is inode 3.
fn told() -> Attributes {
    Attributes {
        inode: 3,
        mode: 0o040755,
        links: 2,
        uid: 0,
        gid: 0,
        size: 128,
        atime: 50,
        mtime: 50,
        ctime: 50,
    }
}

#[test]
fn the_root_is_read_and_written(rt: HostRuntime) -> Result<(), Fail> {
    let mut block = [0xff; 4096];
    block[128..192].copy_from_slice(&ROOT);
    let rows = [
        decode(&ROOT) == root(),
        encode(&root()) == ROOT,
        decode_in(&block, 128) == root(),
        decode_in(&block, 4032).gid == 0xffff,
        attributes(&decode(&ROOT), 3) == told(),
    ];
    row_is_told(
        1,
        format!(in rt.alloc(); "{rows:?}")?.as_str(),
        "[true, true, true, true, true]",
    )
}
