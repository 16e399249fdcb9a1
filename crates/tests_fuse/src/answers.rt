//! Answers: each by its bytes, as C lays out the structs of linux/fuse.h; entries of a directory; answers that aren't written.
ghost use Rattle.std.specs.Prelude.{◌<◌, ◌^◌, length};
ghost use Rattle.fuse.specs.Replies.{IsReply};

use fuse::entries::{ReaddirEntry, push_entry, push_entry_plus};
use fuse::reply::{Attributes, Entry, InitReply, Opened, Reply, StatfsReply};
use fuse::writing::write;
use std::alloc::Global;
use std::test::Fail;

const ATTRIBUTES: Attributes = Attributes {
    inode: 1,
    size: 2,
    blocks: 3,
    atime: (4, 7),
    mtime: (5, 8),
    ctime: (6, 9),
    mode: 33188,
    links: 11,
    uid: 12,
    gid: 13,
    device: 14,
    block_size: 4096,
    flags: 16,
};

const ENTRY: Entry = Entry {
    node: 21,
    generation: 22,
    name_valid: (23, 25),
    attributes_valid: (24, 26),
    attributes: ATTRIBUTES,
};

const OPENED: Opened = Opened {
    handle: 31,
    flags: 2,
};

const ROOM: StatfsReply = StatfsReply {
    blocks: 41,
    free: 42,
    available: 43,
    files: 44,
    free_files: 45,
    block_size: 4096,
    name_length: 60,
    fragment_size: 48,
};

const SETTLED: InitReply = InitReply {
    major: 7,
    minor: 31,
    readahead: 131072,
    flags: 33,
    background: 12,
    busy: 9,
    max_write: 65536,
    time_unit: 1_000_000_000,
    max_pages: 16,
    map_alignment: 5,
    more_flags: 6,
};

/// Whether the bytes behind a 9 are those wanted.
fn stands_behind(out: &[u8], wanted: &[u8]) -> bool {
    out.split_first() == Some((&9, wanted))
}

/// The answer to the request 0x102030405060708 is written as these bytes, behind what stands there.
fn is_written(alloc: Global, reply: &Reply<'_>, wanted: &[u8]) -> Result<(), Fail>
    requires { IsReply reply.now }
{
    let mut out = vec![in alloc; 9]?;
    if write(&mut out, 0x0102030405060708, reply).is_err() {
        return Err(Fail::new(format_args!("{reply:?} isn't written")));
    }
    if !stands_behind(&out, wanted) {
        return Err(Fail::new(format_args!("{reply:?} is written as {out:?}")));
    }
    Ok(())
}

/// Refusals, and answers with nothing to tell or little.
#[test]
fn short_answers_are_written(rt: HostRuntime) -> Result<(), Fail> {
    let alloc = rt.alloc();
    is_written(
        alloc,
        &Reply::Error { number: 2 },
        b"\x10\0\0\0\xfe\xff\xff\xff\x08\x07\x06\x05\x04\x03\x02\x01",
    )?;
    is_written(
        alloc,
        &Reply::Error { number: 511 },
        b"\x10\0\0\0\x01\xfe\xff\xff\x08\x07\x06\x05\x04\x03\x02\x01",
    )?;
    is_written(
        alloc,
        &Reply::Done,
        b"\x10\0\0\0\0\0\0\0\x08\x07\x06\x05\x04\x03\x02\x01",
    )?;
    is_written(
        alloc,
        &Reply::Open { opened: OPENED },
        b"\x20\0\0\0\0\0\0\0\x08\x07\x06\x05\x04\x03\x02\x01\x1f\0\0\0\0\0\0\0\x02\0\0\0\0\0\0\0",
    )?;
    is_written(
        alloc,
        &Reply::Write { count: 4096 },
        b"\x18\0\0\0\0\0\0\0\x08\x07\x06\x05\x04\x03\x02\x01\0\x10\0\0\0\0\0\0",
    )?;
    is_written(
        alloc,
        &Reply::Bytes { bytes: b"hi" },
        b"\x12\0\0\0\0\0\0\0\x08\x07\x06\x05\x04\x03\x02\x01hi",
    )?;
    Ok(())
}

/// What a name leads to, and attributes.
#[test]
fn entries_are_written(rt: HostRuntime) -> Result<(), Fail> {
    let alloc = rt.alloc();
    is_written(
        alloc,
        &Reply::Entry { entry: ENTRY },
        b"\x90\0\0\0\0\0\0\0\x08\x07\x06\x05\x04\x03\x02\x01\x15\0\0\0\0\0\0\0\x16\0\0\0\0\0\0\0\x17\0\0\0\
          \0\0\0\0\x18\0\0\0\0\0\0\0\x19\0\0\0\x1a\0\0\0\x01\0\0\0\0\0\0\0\x02\0\0\0\0\0\0\0\x03\0\0\0\0\0\
          \0\0\x04\0\0\0\0\0\0\0\x05\0\0\0\0\0\0\0\x06\0\0\0\0\0\0\0\x07\0\0\0\x08\0\0\0\x09\0\0\0\xa4\x81\
          \0\0\x0b\0\0\0\x0c\0\0\0\x0d\0\0\0\x0e\0\0\0\0\x10\0\0\x10\0\0\0",
    )?;
    is_written(
        alloc,
        &Reply::Attributes {
            valid: (27, 28),
            attributes: ATTRIBUTES,
        },
        b"x\0\0\0\0\0\0\0\x08\x07\x06\x05\x04\x03\x02\x01\x1b\0\0\0\0\0\0\0\x1c\0\0\0\0\0\0\0\x01\0\0\0\0\
          \0\0\0\x02\0\0\0\0\0\0\0\x03\0\0\0\0\0\0\0\x04\0\0\0\0\0\0\0\x05\0\0\0\0\0\0\0\x06\0\0\0\0\0\0\0\
          \x07\0\0\0\x08\0\0\0\x09\0\0\0\xa4\x81\0\0\x0b\0\0\0\x0c\0\0\0\x0d\0\0\0\x0e\0\0\0\0\x10\0\0\x10\
          \0\0\0",
    )?;
    is_written(
        alloc,
        &Reply::Create {
            entry: ENTRY,
            opened: OPENED,
        },
        b"\xa0\0\0\0\0\0\0\0\x08\x07\x06\x05\x04\x03\x02\x01\x15\0\0\0\0\0\0\0\x16\0\0\0\0\0\0\0\x17\0\0\0\
          \0\0\0\0\x18\0\0\0\0\0\0\0\x19\0\0\0\x1a\0\0\0\x01\0\0\0\0\0\0\0\x02\0\0\0\0\0\0\0\x03\0\0\0\0\0\
          \0\0\x04\0\0\0\0\0\0\0\x05\0\0\0\0\0\0\0\x06\0\0\0\0\0\0\0\x07\0\0\0\x08\0\0\0\x09\0\0\0\xa4\x81\
          \0\0\x0b\0\0\0\x0c\0\0\0\x0d\0\0\0\x0e\0\0\0\0\x10\0\0\x10\0\0\0\x1f\0\0\0\0\0\0\0\x02\0\0\0\0\0\
          \0\0",
    )?;
    Ok(())
}

/// What a connection begins with, and a volume's room.
#[test]
fn long_answers_are_written(rt: HostRuntime) -> Result<(), Fail> {
    let alloc = rt.alloc();
    is_written(
        alloc,
        &Reply::Init { settled: SETTLED },
        b"P\0\0\0\0\0\0\0\x08\x07\x06\x05\x04\x03\x02\x01\x07\0\0\0\x1f\0\0\0\0\0\x02\0!\0\0\0\x0c\0\x09\0\
          \0\0\x01\0\0\xca\x9a;\x10\0\x05\0\x06\0\0\0\0\0\0\0\0\0\0\0\0\0\0\0\0\0\0\0\0\0\0\0\0\0\0\0\0\0\
          \0\0",
    )?;
    is_written(
        alloc,
        &Reply::Statfs { room: ROOM },
        b"`\0\0\0\0\0\0\0\x08\x07\x06\x05\x04\x03\x02\x01)\0\0\0\0\0\0\0*\0\0\0\0\0\0\0+\0\0\0\0\0\0\0,\0\
          \0\0\0\0\0\0-\0\0\0\0\0\0\0\0\x10\0\0<\0\0\0\x30\0\0\0\0\0\0\0\0\0\0\0\0\0\0\0\0\0\0\0\0\0\0\0\0\
          \0\0\0\0\0\0\0",
    )?;
    Ok(())
}

/// Entries of names of no byte to nine, each padded to a multiple of eight.
static ENTRIES: [(&[u8], &[u8]); 10] = [
    (
        b"",
        b"\x33\0\0\0\0\0\0\0\x34\0\0\0\0\0\0\0\0\0\0\0\x08\0\0\0",
    ),
    (
        b"a",
        b"\x33\0\0\0\0\0\0\0\x34\0\0\0\0\0\0\0\x01\0\0\0\x08\0\0\0a\0\0\0\0\0\0\0",
    ),
    (
        b"ab",
        b"\x33\0\0\0\0\0\0\0\x34\0\0\0\0\0\0\0\x02\0\0\0\x08\0\0\0ab\0\0\0\0\0\0",
    ),
    (
        b"abc",
        b"\x33\0\0\0\0\0\0\0\x34\0\0\0\0\0\0\0\x03\0\0\0\x08\0\0\0abc\0\0\0\0\0",
    ),
    (
        b"abcd",
        b"\x33\0\0\0\0\0\0\0\x34\0\0\0\0\0\0\0\x04\0\0\0\x08\0\0\0abcd\0\0\0\0",
    ),
    (
        b"abcde",
        b"\x33\0\0\0\0\0\0\0\x34\0\0\0\0\0\0\0\x05\0\0\0\x08\0\0\0abcde\0\0\0",
    ),
    (
        b"abcdef",
        b"\x33\0\0\0\0\0\0\0\x34\0\0\0\0\0\0\0\x06\0\0\0\x08\0\0\0abcdef\0\0",
    ),
    (
        b"abcdefg",
        b"\x33\0\0\0\0\0\0\0\x34\0\0\0\0\0\0\0\x07\0\0\0\x08\0\0\0abcdefg\0",
    ),
    (
        b"abcdefgh",
        b"\x33\0\0\0\0\0\0\0\x34\0\0\0\0\0\0\0\x08\0\0\0\x08\0\0\0abcdefgh",
    ),
    (
        b"abcdefghi",
        b"\x33\0\0\0\0\0\0\0\x34\0\0\0\0\0\0\0\x09\0\0\0\x08\0\0\0abcdefghi\0\0\0\0\0\0\0",
    ),
];

/// The entry of a row's name is pushed as its bytes behind what stands there, and has so many bytes.
fn entry_is_written(alloc: Global, row: usize, name: &[u8], wanted: &[u8]) -> Result<(), Fail> {
    let entry = ReaddirEntry {
        inode: 51,
        next: 52,
        kind: 8,
        name,
    };
    if name.len() > 9 {
        return Err(Fail::from("a long row"));
    }
    let mut out = vec![in alloc; 9]?;
    push_entry(&mut out, &entry)?;
    if !stands_behind(&out, wanted) || entry.len() != wanted.len() {
        return Err(Fail::new(format_args!("row {row} is written as {out:?}")));
    }
    Ok(())
}

/// Each entry is pushed as its bytes.
#[test]
fn directories_are_written(rt: HostRuntime) -> Result<(), Fail> {
    for (row, (name, wanted)) in ENTRIES.iter().enumerate() {
        entry_is_written(rt.alloc(), row, name, wanted)?;
    }
    Ok(())
}

/// An entry behind what its name leads to.
#[test]
fn plus_is_written(rt: HostRuntime) -> Result<(), Fail> {
    let mut out = Vec::new(rt.alloc());
    let entry = ReaddirEntry {
        inode: 51,
        next: 52,
        kind: 8,
        name: b"abc",
    };
    push_entry_plus(&mut out, &ENTRY, &entry)?;
    let wanted: &[u8] =
        b"\x15\0\0\0\0\0\0\0\x16\0\0\0\0\0\0\0\x17\0\0\0\0\0\0\0\x18\0\0\0\0\0\0\0\x19\0\0\0\x1a\0\0\0\x01\
          \0\0\0\0\0\0\0\x02\0\0\0\0\0\0\0\x03\0\0\0\0\0\0\0\x04\0\0\0\0\0\0\0\x05\0\0\0\0\0\0\0\x06\0\0\0\
          \0\0\0\0\x07\0\0\0\x08\0\0\0\x09\0\0\0\xa4\x81\0\0\x0b\0\0\0\x0c\0\0\0\x0d\0\0\0\x0e\0\0\0\0\x10\
          \0\0\x10\0\0\0\x33\0\0\0\0\0\0\0\x34\0\0\0\0\0\0\0\x03\0\0\0\x08\0\0\0abc\0\0\0\0\0";
    if out.as_slice() != wanted {
        return Err(Fail::new(format_args!("it is written as {out:?}")));
    }
    Ok(())
}
