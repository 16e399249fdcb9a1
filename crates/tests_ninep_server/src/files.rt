//! Open files: opening, reading, writing, making, attributes.

use crate::talk::{Given, Row, Talk, attached};
use errno::Errno;
use std::alloc::Global;
use std::test::Fail;
use tree::Statfs;

/// Fid 2 stands on the file `/f`, inode 3.
static FILE: [Row<'static>; 1] = [(
    &[Given::Node(3, 0o100644)],
    b"\x6e\x05\0\x01\0\0\0\x02\0\0\0\x01\0\x01\0f",
    "0 lstat /f;",
    b"\x6f\x05\0\x01\0\0\0\0\0\0\x03\0\0\0\0\0\0\0",
)];

/// Fid 2 has `/f` open for reading and writing, as descriptor 6.
static OPEN_FILE: [Row<'static>; 1] = [(
    &[Given::Descriptor(6)],
    b"\x0c\x06\0\x02\0\0\0\x02\x80\0\0",
    "0 open /f 3 0;",
    b"\x0d\x06\0\0\0\0\0\0\x03\0\0\0\0\0\0\0\0\0\0\0",
)];

/// Where fid 2 stands there these rows come out.
fn with_file(alloc: Global, rows: &[Row<'_>]) -> Result<(), Fail> {
    let mut talk = Talk::attached(alloc)?;
    talk.plays(&FILE)?;
    talk.plays(rows)
}

/// The same where it has the file open.
fn with_open_file(alloc: Global, rows: &[Row<'_>]) -> Result<(), Fail> {
    let mut talk = Talk::attached(alloc)?;
    talk.plays(&FILE)?;
    talk.plays(&OPEN_FILE)?;
    talk.plays(rows)
}

/// Each in a talk of its own.
static FILES_ARE_OPENED: [Row<'static>; 5] = [
    (
        &[Given::Refused(Errno::EACCES)],
        b"\x0c\x06\0\x02\0\0\0\x01\x02\0\0",
        "0 open /f 34 0;",
        b"\x07\x06\0\x0d\0\0\0",
    ),
    (
        &[Given::Refused(Errno::EACCES)],
        b"\x0c\x06\0\x02\0\0\0\x01\x04\0\0",
        "0 open /f 6 0;",
        b"\x07\x06\0\x0d\0\0\0",
    ),
    (
        &[Given::Refused(Errno::EACCES)],
        b"\x0c\x06\0\x02\0\0\0\0\x02\0\0",
        "0 open /f 1 0;",
        b"\x07\x06\0\x0d\0\0\0",
    ),
    (
        &[Given::Refused(Errno::EACCES)],
        b"\x0c\x06\0\x02\0\0\0\0\0\0\0",
        "0 open /f 1 0;",
        b"\x07\x06\0\x0d\0\0\0",
    ),
    (
        &[],
        b"\x0c\x06\0\x02\0\0\0\x03\0\0\0",
        "",
        b"\x07\x06\0\x16\0\0\0",
    ),
];

/// Flags: write and truncate, write and append; truncate without write means nothing; the access 3 is none.
#[test]
fn files_are_opened(rt: HostRuntime) -> Result<(), Fail> {
    for row in &FILES_ARE_OPENED {
        with_file(rt.alloc(), &[*row])?;
    }
    Ok(())
}

static BYTES_ARE_READ: [Row<'static>; 4] = [
    (
        &[Given::At(258), Given::Bytes(b"hi")],
        b"\x74\x07\0\x02\0\0\0\x02\x01\0\0\0\0\0\0\0\x01\0\0",
        "0 Seek { fd: 6, whence: Set, offset: 258 };0 Read { fd: 6, count: 256 };",
        b"\x75\x07\0\x02\0\0\0hi",
    ),
    (
        &[Given::At(0), Given::Bytes(b"")],
        b"\x74\x07\0\x02\0\0\0\0\0\0\0\0\0\0\0\0\0\x01\0",
        "0 Seek { fd: 6, whence: Set, offset: 0 };0 Read { fd: 6, count: 8168 };",
        b"\x75\x07\0\0\0\0\0",
    ),
    (
        &[],
        b"\x74\x07\0\x02\0\0\0\0\0\0\x80\0\0\0\0\0\x01\0\0",
        "",
        b"\x75\x07\0\0\0\0\0",
    ),
    (
        &[],
        b"\x74\x07\0\x01\0\0\0\0\0\0\0\0\0\0\0\0\x01\0\0",
        "",
        b"\x07\x07\0\x09\0\0\0",
    ),
];

/// A read behind a seek; at an offset past all files; of a fid that isn't open.
#[test]
fn bytes_are_read(rt: HostRuntime) -> Result<(), Fail> {
    with_open_file(rt.alloc(), &BYTES_ARE_READ)
}

static BYTES_ARE_WRITTEN: [Row<'static>; 3] = [
    (
        &[Given::At(1), Given::Wrote(3)],
        b"\x76\x08\0\x02\0\0\0\x01\0\0\0\0\0\0\0\x03\0\0\0abc",
        "0 Seek { fd: 6, whence: Set, offset: 1 };0 write 6 abc;",
        b"\x77\x08\0\x03\0\0\0",
    ),
    (
        &[Given::At(1), Given::Refused(Errno::ENOSPC)],
        b"\x76\x08\0\x02\0\0\0\x01\0\0\0\0\0\0\0\x01\0\0\0a",
        "0 Seek { fd: 6, whence: Set, offset: 1 };0 write 6 a;",
        b"\x07\x08\0\x1c\0\0\0",
    ),
    (
        &[],
        b"\x76\x08\0\x02\0\0\0\0\0\0\x80\0\0\0\0\x01\0\0\0a",
        "",
        b"\x07\x08\0\x1b\0\0\0",
    ),
];

/// A write behind a seek; one that is refused; at an offset past all files.
#[test]
fn bytes_are_written(rt: HostRuntime) -> Result<(), Fail> {
    with_open_file(rt.alloc(), &BYTES_ARE_WRITTEN)
}

/// A sync of the fid.
const FSYNC: &[u8] = b"\x32\x09\0\x02\0\0\0\0\0\0\0";

static FILES_ARE_SYNCED_AND_CLOSED: [Row<'static>; 5] = [
    (&[Given::Done], FSYNC, "0 Sync;", b"\x33\x09\0"),
    (
        &[Given::Refused(Errno::EIO)],
        FSYNC,
        "0 Sync;",
        b"\x07\x09\0\x05\0\0\0",
    ),
    (&[Given::Cut], FSYNC, "0 Sync;", b"\x07\x09\0\x05\0\0\0"),
    (
        &[Given::Cut],
        b"\x78\x0a\0\x02\0\0\0",
        "0 Close { fd: 6 };",
        b"\x79\x0a\0",
    ),
    (&[], b"\x78\x0a\0\x02\0\0\0", "", b"\x07\x0a\0\x09\0\0\0"),
];

/// A sync that was done, one that was refused, and one that was cut; a clunk closes, whatever the close says.
#[test]
fn files_are_synced_and_closed(rt: HostRuntime) -> Result<(), Fail> {
    with_open_file(rt.alloc(), &FILES_ARE_SYNCED_AND_CLOSED)
}

static FILES_ARE_MADE: [Row<'static>; 2] = [
    (
        &[Given::Descriptor(0), Given::Done, Given::Node(4, 0o100640)],
        b"\x0e\x01\0\x01\0\0\0\x01\0n\xc1\0\0\0\xa0\x81\0\0\x07\0\0\0",
        "0 open /n 26 416;0 chown /n 0 7;0 Fstat { fd: 0 };",
        b"\x0f\x01\0\0\0\0\0\0\x04\0\0\0\0\0\0\0\0\0\0\0",
    ),
    (
        &[Given::Node(4, 0o100640)],
        b"\x18\x02\0\x01\0\0\0\xff\x07\0\0\0\0\0\0",
        "0 Fstat { fd: 0 };",
        b"\x19\x02\0\xff\x07\0\0\0\0\0\0\0\0\0\0\0\x04\0\0\0\0\0\0\0\xa0\x81\0\0\x05\0\0\0\x07\0\0\0\x01\0\0\0\0\0\0\0\
          \0\0\0\0\0\0\0\0\x2c\x01\0\0\0\0\0\0\0\x10\0\0\0\0\0\0\x01\0\0\0\0\0\0\0\x0a\0\0\0\0\0\0\0\0\0\0\0\0\0\0\0\
          \x14\0\0\0\0\0\0\0\0\0\0\0\0\0\0\0\x1e\0\0\0\0\0\0\0\0\0\0\0\0\0\0\0\0\0\0\0\0\0\0\0\0\0\0\0\0\0\0\0\0\0\0\0\
          \0\0\0\0\0\0\0\0\0\0\0\0",
    ),
];

/// The directory's fid stands for the new file from then on. User 0 gives it the group that is asked for.
#[test]
fn files_are_made(rt: HostRuntime) -> Result<(), Fail> {
    attached(rt.alloc(), &FILES_ARE_MADE)
}

static TAKEN_NAMES_ARE_OPENED: [Row<'static>; 3] = [
    (
        &[Given::Refused(Errno::EEXIST)],
        b"\x0e\x01\0\x01\0\0\0\x01\0n\xc1\0\0\0\xa0\x81\0\0\x07\0\0\0",
        "0 open /n 26 416;",
        b"\x07\x01\0\x11\0\0\0",
    ),
    (
        &[Given::Refused(Errno::EACCES)],
        b"\x0e\x01\0\x01\0\0\0\x01\0n\x41\x02\0\0\xa0\x81\0\0\x07\0\0\0",
        "0 open /n 58 416;",
        b"\x07\x01\0\x0d\0\0\0",
    ),
    (
        &[
            Given::Refused(Errno::EEXIST),
            Given::Descriptor(3),
            Given::Node(4, 0o100640),
        ],
        b"\x0e\x01\0\x01\0\0\0\x01\0n\x41\x02\0\0\xa0\x81\0\0\x07\0\0\0",
        "0 open /n 58 416;0 open /n 34 0;0 Fstat { fd: 3 };",
        b"\x0f\x01\0\0\0\0\0\0\x04\0\0\0\0\0\0\0\0\0\0\0",
    ),
];

/// A name that is taken is EEXIST where a new file alone is asked for; else what has it is opened, and keeps its owner and group.
#[test]
fn taken_names_are_opened(rt: HostRuntime) -> Result<(), Fail> {
    attached(rt.alloc(), &TAKEN_NAMES_ARE_OPENED)
}

static FILES_ARE_GIVEN_UP: [Row<'static>; 1] = [(
    &[
        Given::Descriptor(9),
        Given::Refused(Errno::EIO),
        Given::Done,
    ],
    b"\x0e\x01\0\x01\0\0\0\x01\0n\x01\0\0\0\xa0\x81\0\0\0\0\0\0",
    "0 open /n 26 416;0 Fstat { fd: 9 };0 Close { fd: 9 };",
    b"\x07\x01\0\x05\0\0\0",
)];

/// A file that can't be given its group, or looked at, is closed again.
#[test]
fn files_are_given_up(rt: HostRuntime) -> Result<(), Fail> {
    attached(rt.alloc(), &FILES_ARE_GIVEN_UP)
}

static ATTRIBUTES_ARE_CHANGED: [Row<'static>; 3] = [
    (
        &[
            Given::Node(3, 0o100644),
            Given::Done,
            Given::Done,
            Given::Done,
            Given::Done,
        ],
        b"\x1a\x01\0\x02\0\0\0\x7b\0\0\0\xa4\x09\0\0\x09\0\0\0\xff\xff\xff\xff\x64\0\0\0\0\0\0\0\x63\0\0\0\0\0\0\0\0\0\
          \0\0\0\0\0\0\x62\0\0\0\0\0\0\0\0\0\0\0\0\0\0\0",
        "0 lstat /f;0 truncate /f 100;0 chown /f 9 7;0 chmod /f 420;0 utime /f 1000 1000;",
        b"\x1b\x01\0",
    ),
    (
        &[Given::Node(3, 0o100644), Given::Refused(Errno::EPERM)],
        b"\x1a\x01\0\x02\0\0\0\x21\x01\0\0\xa4\x01\0\0\0\0\0\0\0\0\0\0\0\0\0\0\0\0\0\0\x63\0\0\0\0\0\0\0\0\0\0\0\0\0\0\
          \0\x62\0\0\0\0\0\0\0\0\0\0\0\0\0\0\0",
        "0 lstat /f;0 chmod /f 420;",
        b"\x07\x01\0\x01\0\0\0",
    ),
    (
        &[Given::Node(3, 0o100644), Given::Done],
        b"\x1a\x01\0\x02\0\0\0\x20\x01\0\0\0\0\0\0\0\0\0\0\0\0\0\0\0\0\0\0\0\0\0\0\x63\0\0\0\0\0\0\0\0\0\0\0\0\0\0\0\
          \x62\0\0\0\0\0\0\0\0\0\0\0\0\0\0\0",
        "0 lstat /f;0 utime /f 10 98;",
        b"\x1b\x01\0",
    ),
];

/// Each attribute that is named is changed, in turn; those that aren't stay. Of a mode the permissions are taken, without the set-user-id
/// bit. A time is now where none is given.
#[test]
fn attributes_are_changed(rt: HostRuntime) -> Result<(), Fail> {
    with_file(rt.alloc(), &ATTRIBUTES_ARE_CHANGED)
}

/// The name of `/f` is taken away.
const UNLINK: Row<'static> = (
    &[Given::Done],
    b"\x4c\x07\0\x01\0\0\0\x01\0f\0\0\0\0",
    "0 unlink /f;",
    b"\x4d\x07\0",
);

/// The size of fid 2 becomes 100.
const SHORTEN: &[u8] =
    b"\x1a\x01\0\x02\0\0\0\x08\0\0\0\0\0\0\0\0\0\0\0\0\0\0\0\x64\0\0\0\0\0\0\0\0\0\0\0\0\0\0\0\0\0\0\0\0\0\0\0\
          \0\0\0\0\0\0\0\0\0\0\0\0\0\0\0\0";

/// The answer to a change of a file that has lost its name, where it is refused.
const STALE: &[u8] = b"\x07\x01\0\x74\0\0\0";

static OPEN_FILES_ARE_CHANGED_WITHOUT_A_NAME: [Row<'static>; 5] = [
    UNLINK,
    (
        &[Given::Node(3, 0o100644), Given::Done],
        SHORTEN,
        "0 lstat inode 3 ;0 truncate inode 3  100;",
        b"\x1b\x01\0",
    ),
    (
        &[Given::Node(3, 0o100644), Given::Done],
        b"\x1a\x01\0\x02\0\0\0\x01\0\0\0\x80\x01\0\0\0\0\0\0\0\0\0\0\0\0\0\0\0\0\0\0\0\0\0\0\0\0\0\0\0\0\0\0\0\0\0\
          \0\0\0\0\0\0\0\0\0\0\0\0\0\0\0\0\0",
        "0 lstat inode 3 ;0 chmod inode 3  384;",
        b"\x1b\x01\0",
    ),
    (
        &[Given::Refused(Errno::EIO)],
        b"\x18\x02\0\x02\0\0\0\xff\x07\0\0\0\0\0\0",
        "0 Fstat { fd: 6 };",
        b"\x07\x02\0\x05\0\0\0",
    ),
    (&[], b"\x46\x01\0\x01\0\0\0\x02\0\0\0\x01\0g", "", STALE),
];

/// A file that has lost its name, and is open, is changed by its inode; it gets no name.
#[test]
fn open_files_are_changed_without_a_name(rt: HostRuntime) -> Result<(), Fail> {
    with_open_file(rt.alloc(), &OPEN_FILES_ARE_CHANGED_WITHOUT_A_NAME)
}

static LOST_FILES_STAY: [Row<'static>; 6] = [
    (
        &[Given::Node(1, 0o40755)],
        b"\x68\x03\0\x03\0\0\0\xff\xff\xff\xff\0\0\0\0\xe8\x03\0\0",
        "enter 1000 1000;1 lstat /;",
        b"\x69\x03\0\x80\0\0\0\0\x01\0\0\0\0\0\0\0",
    ),
    (
        &[Given::Node(3, 0o100666)],
        b"\x6e\x05\0\x03\0\0\0\x04\0\0\0\x01\0\x01\0f",
        "1 lstat /f;",
        b"\x6f\x05\0\x01\0\0\0\0\0\0\x03\0\0\0\0\0\0\0",
    ),
    (
        &[Given::Descriptor(7)],
        b"\x0c\x06\0\x04\0\0\0\x02\x80\0\0",
        "1 open /f 3 0;",
        b"\x0d\x06\0\0\0\0\0\0\x03\0\0\0\0\0\0\0\0\0\0\0",
    ),
    UNLINK,
    (&[], SHORTEN, "", STALE),
    (
        &[],
        b"\x1a\x01\0\x04\0\0\0\x08\0\0\0\0\0\0\0\0\0\0\0\0\0\0\0\x64\0\0\0\0\0\0\0\0\0\0\0\0\0\0\0\0\0\0\0\0\0\0\0\
          \0\0\0\0\0\0\0\0\0\0\0\0\0\0\0\0",
        "",
        STALE,
    ),
];

/// It isn't where the fid isn't open, nor for another user than user 0.
#[test]
fn lost_files_stay(rt: HostRuntime) -> Result<(), Fail> {
    with_file(rt.alloc(), &LOST_FILES_STAY)
}

static REFUSED_CHANGES_LEAVE_ALL: [Row<'static>; 5] = [
    (
        &[Given::Node(3, 0o100644)],
        b"\x1a\x01\0\x02\0\0\0\x0a\0\0\0\0\0\0\0\0\0\x01\0\0\0\0\0\x64\0\0\0\0\0\0\0\0\0\0\0\0\0\0\0\0\0\0\0\0\0\0\0\0\
          \0\0\0\0\0\0\0\0\0\0\0\0\0\0\0",
        "0 lstat /f;",
        b"\x07\x01\0\x16\0\0\0",
    ),
    (
        &[Given::Node(1, 0o40755)],
        b"\x68\x03\0\x03\0\0\0\xff\xff\xff\xff\0\0\0\0\xe8\x03\0\0",
        "enter 1000 1000;1 lstat /;",
        b"\x69\x03\0\x80\0\0\0\0\x01\0\0\0\0\0\0\0",
    ),
    (
        &[Given::Node(3, 0o100666)],
        b"\x6e\x05\0\x03\0\0\0\x04\0\0\0\x01\0\x01\0f",
        "1 lstat /f;",
        b"\x6f\x05\0\x01\0\0\0\0\0\0\x03\0\0\0\0\0\0\0",
    ),
    (
        &[Given::Node(3, 0o100666)],
        b"\x1a\x01\0\x04\0\0\0\x09\0\0\0\xa4\x01\0\0\0\0\0\0\0\0\0\0\x64\0\0\0\0\0\0\0\0\0\0\0\0\0\0\0\0\0\0\0\0\0\0\0\0\
          \0\0\0\0\0\0\0\0\0\0\0\0\0\0\0",
        "1 lstat /f;",
        b"\x07\x01\0\x01\0\0\0",
    ),
    (
        &[Given::Node(3, 0o100666), Given::Done],
        b"\x1a\x01\0\x04\0\0\0\x68\0\0\0\0\0\0\0\0\0\0\0\0\0\0\0\x64\0\0\0\0\0\0\0\0\0\0\0\0\0\0\0\0\0\0\0\0\0\0\0\0\0\0\
          \0\0\0\0\0\0\0\0\0\0\0\0\0",
        "1 lstat /f;1 truncate /f 100;",
        b"\x1b\x01\0",
    ),
];

/// A mode that another user may not change, or an owner past the last one, is refused before the size is changed; behind a size, the time of
/// the change isn't changed by itself.
#[test]
fn refused_changes_leave_all(rt: HostRuntime) -> Result<(), Fail> {
    with_file(rt.alloc(), &REFUSED_CHANGES_LEAVE_ALL)
}

/// The room of a volume.
const ROOM: Statfs = Statfs {
    block_size: 1024,
    zones: 58,
    free_zones: 54,
    inodes: 32,
    free_inodes: 28,
};

static THE_ROOM_IS_TOLD: [Row<'static>; 1] = [(
    &[Given::Space(ROOM)],
    b"\x08\x01\0\x01\0\0\0",
    "0 Statfs;",
    b"\x09\x01\0\x97\x19\x02\x01\0\x04\0\0\x3a\0\0\0\0\0\0\0\x36\0\0\0\0\0\0\0\x36\0\0\0\0\0\0\0\x20\0\0\0\0\0\0\0\
          \x1c\0\0\0\0\0\0\0\0\0\0\0\0\0\0\0\x3c\0\0\0",
)];

/// The room of the volume.
#[test]
fn the_room_is_told(rt: HostRuntime) -> Result<(), Fail> {
    attached(rt.alloc(), &THE_ROOM_IS_TOLD)
}

static LINKS_ARE_READ: [Row<'static>; 5] = [
    (
        &[Given::Done, Given::Node(6, 0o120777)],
        b"\x10\x01\0\x01\0\0\0\x01\0l\x03\0a/b\x07\0\0\0",
        "0 symlink a/b /l;0 lstat /l;",
        b"\x11\x01\0\x02\0\0\0\0\x06\0\0\0\0\0\0\0",
    ),
    (
        &[Given::Node(6, 0o120777)],
        b"\x6e\x05\0\x01\0\0\0\x02\0\0\0\x01\0\x01\0l",
        "0 lstat /l;",
        b"\x6f\x05\0\x01\0\x02\0\0\0\0\x06\0\0\0\0\0\0\0",
    ),
    (
        &[Given::Target(b"a/b")],
        b"\x16\x02\0\x02\0\0\0",
        "0 readlink /l;",
        b"\x17\x02\0\x03\0a/b",
    ),
    (
        &[],
        b"\x0c\x06\0\x02\0\0\0\0\0\0\0",
        "",
        b"\x07\x06\0\x28\0\0\0",
    ),
    (
        &[],
        b"\x1a\x01\0\x02\0\0\0\x01\0\0\0\xa4\x01\0\0\0\0\0\0\0\0\0\0\0\0\0\0\0\0\0\0\0\0\0\0\0\0\0\0\0\0\0\0\0\0\0\0\0\
          \0\0\0\0\0\0\0\0\0\0\0\0\0\0\0",
        "",
        b"\x07\x01\0\x5f\0\0\0",
    ),
];

/// A symbolic link is made and read.
#[test]
fn links_are_read(rt: HostRuntime) -> Result<(), Fail> {
    attached(rt.alloc(), &LINKS_ARE_READ)
}
