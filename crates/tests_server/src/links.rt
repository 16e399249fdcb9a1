//! Symbolic links: targets of no bytes and of the most, and a link whose own bits grant nothing.

use crate::volumes::Volume;
use errno::Errno;
use std::test::Fail;
use tree::{Attributes, Call, LinkTarget, OpenFlags, PathFrom, Reply, Who};

/// User 0.
const ROOT: Who = Who {
    session: 0,
    uid: 0,
    gid: 0,
};

/// A user who owns nothing.
const OTHER: Who = Who {
    session: 0,
    uid: 9,
    gid: 9,
};

/// The most bytes of a target: slashes, which lead to the root.
const LONGEST: [u8; 1023] = [b'/'; 1023];

/// A byte more than a target may have.
const TOO_LONG: [u8; 1024] = [b'/'; 1024];

/// So many bytes, all of them zero.
const ZEROS: [u8; 1024] = [0; 1024];

/// What stat tells of the directory `d`.
const DIRECTORY: Attributes = Attributes {
    inode: 3,
    mode: 0o40755,
    links: 2,
    uid: 5,
    gid: 7,
    size: 128,
    atime: 50,
    mtime: 50,
    ctime: 50,
};

/// What lstat tells of the link that the image has.
const LINK: Attributes = Attributes {
    inode: 4,
    mode: 0o120000,
    links: 1,
    uid: 0,
    gid: 0,
    size: 1,
    atime: 0,
    mtime: 0,
    ctime: 0,
};

/// What lstat tells of the longest link, made at 60 by user 0.
const LONG_LINK: Attributes = Attributes {
    inode: 4,
    mode: 0o120777,
    links: 1,
    uid: 0,
    gid: 0,
    size: 1023,
    atime: 60,
    mtime: 60,
    ctime: 60,
};

/// What stat tells of the root once it has three names.
const TOP: Attributes = Attributes {
    inode: 1,
    mode: 0o40755,
    links: 3,
    uid: 0,
    gid: 0,
    size: 320,
    atime: 0,
    mtime: 60,
    ctime: 60,
};

/// What is asked of a path.
enum Asks {
    /// A link with this target is made.
    Symlink(&'static [u8]),
    /// The target of a link.
    Readlink,
    /// The attributes of what is there.
    Lstat,
    /// The attributes of what a link leads to.
    Stat,
    /// It is opened for reading.
    Open,
}

/// What is answered.
enum Told {
    /// It was done.
    Done,
    /// It is refused.
    Refused(Errno),
    /// A target, behind which zeros stand.
    Target(&'static [u8]),
    /// Attributes.
    Inode(Attributes),
    /// A descriptor.
    Descriptor(u32),
}

/// Who asks, what is asked, of which path, and what is answered.
type Row = (Who, Asks, &'static [u8], Told);

/// The call.
fn call_of<'a>(asks: &'a Asks, path: &'a [u8]) -> Call<'a> {
    let path = PathFrom::root(path);
    match asks {
        Asks::Symlink(target) => Call::Symlink { target, path },
        Asks::Readlink => Call::Readlink { path },
        Asks::Lstat => Call::Lstat { path },
        Asks::Stat => Call::Stat { path },
        Asks::Open => Call::Open {
            path,
            flags: OpenFlags::READ,
            mode: 0,
        },
    }
}

/// A target of these bytes, with zeros behind them.
fn target_of(given: &[u8]) -> LinkTarget {
    let mut bytes = [0; 1023];
    for (place, byte) in bytes.iter_mut().zip(given) {
        *place = *byte;
    }
    LinkTarget {
        bytes,
        length: given.len(),
    }
}

/// The reply.
fn reply_of(told: &Told) -> Reply {
    match told {
        Told::Done => Reply::Done,
        Told::Refused(errno) => Reply::Refused(*errno),
        Told::Target(bytes) => Reply::Target(target_of(bytes)),
        Told::Inode(attributes) => Reply::Inode(*attributes),
        Told::Descriptor(fd) => Reply::Descriptor(*fd),
    }
}

/// Whether a row comes out.
fn is_told(volume: &mut Volume, (who, asks, path, told): &Row) -> bool {
    volume.reply(*who, &call_of(asks, path)) == reply_of(told)
}

/// Rows come out, one after the other.
fn are_told(volume: &mut Volume, rows: &[Row]) -> Result<(), Fail> {
    for (number, row) in rows.iter().enumerate() {
        if !is_told(volume, row) {
            return Err(Fail::new(format_args!("row {number}")));
        }
    }
    Ok(())
}

/// Targets and paths that symlink refuses: the target's length, then its zero bytes, and then the path. No link has an empty path.
static REFUSED: [Row; 10] = [
    (ROOT, Asks::Symlink(b""), b"f", Told::Refused(Errno::ENOENT)),
    (
        ROOT,
        Asks::Symlink(b""),
        b"/f",
        Told::Refused(Errno::ENOENT),
    ),
    (
        ROOT,
        Asks::Symlink(&TOO_LONG),
        b"",
        Told::Refused(Errno::ENAMETOOLONG),
    ),
    (
        ROOT,
        Asks::Symlink(&ZEROS),
        b"f",
        Told::Refused(Errno::ENAMETOOLONG),
    ),
    (
        ROOT,
        Asks::Symlink(b"\0"),
        b"",
        Told::Refused(Errno::EINVAL),
    ),
    (
        ROOT,
        Asks::Symlink(b"d\0"),
        b"/f",
        Told::Refused(Errno::EINVAL),
    ),
    (
        ROOT,
        Asks::Symlink(&LONGEST),
        b"",
        Told::Refused(Errno::ENOENT),
    ),
    (
        ROOT,
        Asks::Symlink(&LONGEST),
        b"/f",
        Told::Refused(Errno::EEXIST),
    ),
    (ROOT, Asks::Readlink, b"", Told::Refused(Errno::ENOENT)),
    (ROOT, Asks::Lstat, b"", Told::Refused(Errno::ENOENT)),
];

#[test]
fn targets_have_1_to_1023_bytes(rt: HostRuntime) -> Result<(), Fail> {
    let mut volume = Volume::new(rt.alloc())?;
    let before = Vec::from_slice(rt.alloc(), volume.bytes())?;
    are_told(&mut volume, &REFUSED)?;
    assert!(rt; volume.bytes() == before.as_slice());
    Ok(())
}

static KEPT: [Row; 6] = [
    (ROOT, Asks::Symlink(&LONGEST), b"/l", Told::Done),
    (ROOT, Asks::Readlink, b"/l", Told::Target(&LONGEST)),
    (ROOT, Asks::Lstat, b"/l", Told::Inode(LONG_LINK)),
    (ROOT, Asks::Stat, b"/l", Told::Inode(TOP)),
    // the target of one byte has zeros behind it
    (ROOT, Asks::Symlink(b"."), b"/d/o", Told::Done),
    (ROOT, Asks::Readlink, b"/d/o", Told::Target(b".")),
];

#[test]
fn the_longest_target_is_kept_and_followed(rt: HostRuntime) -> Result<(), Fail> {
    let mut volume = Volume::new(rt.alloc())?;
    are_told(&mut volume, &KEPT)
}

static LED: [Row; 5] = [
    (OTHER, Asks::Lstat, b"/l", Told::Inode(LINK)),
    (OTHER, Asks::Stat, b"/l", Told::Inode(DIRECTORY)),
    (OTHER, Asks::Readlink, b"/l", Told::Target(b"d")),
    (OTHER, Asks::Open, b"/l", Told::Descriptor(0)),
    (OTHER, Asks::Open, b"/l/..", Told::Descriptor(1)),
];

#[test]
fn the_bits_of_a_link_are_not_asked(rt: HostRuntime) -> Result<(), Fail> {
    let mut volume = Volume::with_link(rt.alloc())?;
    are_told(&mut volume, &LED)
}
