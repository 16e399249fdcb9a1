//! Opens, and a rename. Flags: read 1, write 2, append 4, create 8, exclusive 16, truncate 32.

use crate::volumes::{DONE, Open, Volume};
use errno::Errno;
use std::process::Abort;
use std::test::Fail;
use tree::{Call, PathFrom, Who};

/// User 0.
const ROOT: Who = Who {
    session: 0,
    uid: 0,
    gid: 0,
};

/// A step at a volume.
enum Step {
    /// It is opened, or refused so.
    Opens(Open<'static>, Result<u32, Errno>),
    /// Each session of these opens `/f` for reading under all of its descriptors.
    Fills(&'static [u8]),
    /// User 0 closes a descriptor of session 0.
    Closes(u32),
}

/// An open comes to this.
fn opens(rt: &impl Abort, volume: &mut Volume, open: Open<'_>, expected: Result<u32, Errno>) {
    assert_eq!(rt; volume.open(open), expected);
}

/// A session opens `/f` under each of its descriptors.
fn fills(rt: &impl Abort, volume: &mut Volume, session: u8) {
    for fd in 0..32u32 {
        opens(rt, volume, (session, (0, 0), b"/f", 1, 0), Ok(fd));
    }
}

/// A step comes out.
fn does(rt: &impl Abort, volume: &mut Volume, step: &Step) {
    match step {
        Step::Opens(open, expected) => opens(rt, volume, *open, *expected),
        Step::Fills(sessions) => {
            for session in *sessions {
                fills(rt, volume, *session);
            }
        }
        Step::Closes(fd) => {
            assert_eq!(rt; volume.call(ROOT, &Call::Close { fd: *fd }), Ok(DONE));
        }
    }
}

/// Steps come out, one after the other, on a new volume.
fn do_all(rt: &(impl Abort + AllocGlobal), steps: &[Step]) -> Result<Volume, Fail> {
    let mut volume = Volume::new(rt.alloc())?;
    for step in steps {
        does(rt, &mut volume, step);
    }
    Ok(volume)
}

/// Flags and modes, before the path.
static UNCHANGED: [Step; 5] = [
    Step::Opens((0, (0, 9), b"", 0, 0), Err(Errno::EINVAL)),
    Step::Opens((0, (0, 9), b"", 8, 0), Err(Errno::EINVAL)),
    Step::Opens((0, (0, 9), b"/f", 65, 0), Err(Errno::EINVAL)),
    Step::Opens((0, (0, 9), b"", 1, 0o1000), Err(Errno::EINVAL)),
    Step::Opens((0, (0, 9), b"", 9, 0o777), Err(Errno::ENOENT)),
];

/// An empty path isn't renamed, and the bytes are those of a new volume, of which nothing is open.
fn is_unchanged(rt: &impl Abort, volume: &mut Volume, before: &[u8]) {
    let rename = Call::Rename {
        old: PathFrom::root(b""),
        new: PathFrom::root(b"/x"),
    };
    assert_eq!(rt; volume.call(ROOT, &rename), Err(Errno::ENOENT));
    assert!(rt; volume.bytes() == before && volume.file(0).is_none());
}

#[test]
fn empty_paths_and_other_flags_change_nothing(rt: HostRuntime) -> Result<(), Fail> {
    let before = Volume::new(rt.alloc())?;
    let mut volume = do_all(&rt, &UNCHANGED)?;
    is_unchanged(&rt, &mut volume, before.bytes());
    Ok(())
}

static LOWEST: [Step; 9] = [
    Step::Fills(&[0]),
    // before the path, after the flags
    Step::Opens((0, (0, 0), b"/f", 1, 0), Err(Errno::EMFILE)),
    Step::Opens((0, (0, 0), b"", 1, 0), Err(Errno::EMFILE)),
    Step::Opens((0, (0, 0), b"", 0, 0), Err(Errno::EINVAL)),
    // another session has others
    Step::Opens((1, (0, 0), b"/f", 1, 0), Ok(0)),
    // the lowest that is free again is taken
    Step::Closes(7),
    Step::Closes(3),
    Step::Opens((0, (0, 0), b"/d", 1, 0), Ok(3)),
    Step::Opens((0, (0, 0), b"/d", 1, 0), Ok(7)),
];

static FULL: [Step; 3] = [
    Step::Fills(&[1, 2, 3, 4]),
    Step::Opens((0, (0, 0), b"", 1, 0), Err(Errno::ENFILE)),
    // a session without a descriptor is told that first
    Step::Opens((4, (0, 0), b"", 1, 0), Err(Errno::EMFILE)),
];

/// 32 in a session, and 128 in all.
#[test]
fn descriptors_and_open_files(rt: HostRuntime) -> Result<(), Fail> {
    let _ = do_all(&rt, &LOWEST)?;
    let _ = do_all(&rt, &FULL)?;
    Ok(())
}

/// What is opened on a new volume, one after the other, and the inode, the position and the flags of its descriptor.
type Opened = &'static [(Open<'static>, (u16, u32, u8))];

/// Files that are made, one of them opened again; a file that isn't emptied, and then is; directories.
const OPENED: [Opened; 3] = [
    &[
        ((0, (5, 9), b"/d/n", 30, 0o604), (4, 0, 30)),
        ((0, (6, 8), b"/d/n", 9, 0o777), (4, 0, 9)),
        ((0, (0, 0), b"/m", 9, 0), (5, 0, 9)),
    ],
    &[
        ((0, (5, 7), b"/f", 10, 0), (2, 0, 10)),
        ((0, (5, 7), b"/f", 42, 0), (2, 0, 42)),
    ],
    &[
        ((0, (9, 9), b"/", 1, 0), (1, 0, 1)),
        ((0, (9, 9), b"/d/", 9, 0), (3, 0, 9)),
        ((0, (9, 9), b"/d/..", 1, 0), (1, 0, 1)),
    ],
];

#[test]
fn descriptors_hold_what_was_asked_for(rt: HostRuntime) -> Result<(), Fail> {
    for rows in OPENED {
        let mut volume = Volume::new(rt.alloc())?;
        for (fd, (open, file)) in (0u32..).zip(rows) {
            let given = volume.open(*open);
            assert!(rt; given == Ok(fd) && volume.file(fd) == Some(*file), "{fd}");
        }
    }
    Ok(())
}
