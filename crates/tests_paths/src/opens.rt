//! Open files and descriptors.

use descriptors::Descriptors;
use errno::Errno;
use std::test::Fail;
use tree::OpenFlags;

/// A call on the open files.
#[derive(Clone, Copy)]
enum Call {
    /// Opens an inode for reading: the descriptor.
    Put(u16),
    /// The descriptor that leads where this one does.
    Dup(u32),
    /// The inode that a descriptor lets go.
    Close(u32),
    /// Sets a descriptor's position.
    Seek(u32, u32),
    /// The inode that is read by a descriptor, and the position.
    Get(u32),
    /// The inode, if some open file is of it.
    IsOpen(u16),
}

/// What a call gives: a descriptor or an inode, and a position, 0 where it gives none.
type Answer = Result<Option<(u32, u32)>, Errno>;

/// A session's call, and what it is to give.
type Step = (u8, Call, Answer);

/// A session has 32 descriptors, all of inode 1 here.
static DESCRIPTORS: [Step; 6] = [
    (0, Call::Put(1), Err(Errno::EMFILE)),
    (0, Call::Dup(3), Err(Errno::EMFILE)),
    (0, Call::Dup(32), Err(Errno::EBADF)),
    (0, Call::Close(5), Ok(Some((1, 0)))),
    (0, Call::Close(5), Err(Errno::EBADF)),
    (0, Call::Put(1), Ok(Some((5, 0)))),
];

/// All sessions have 128 open files, all of inode 7 here.
static OPEN_FILES: [Step; 6] = [
    (3, Call::Put(7), Err(Errno::EMFILE)),
    (63, Call::Put(8), Err(Errno::ENFILE)),
    (2, Call::Close(31), Ok(Some((7, 0)))),
    (63, Call::Put(8), Ok(Some((0, 0)))),
    (63, Call::IsOpen(8), Ok(Some((8, 0)))),
    (63, Call::IsOpen(9), Ok(None)),
];

/// A dup gives the lowest number and shares the position, and the open file stays as long as one leads to it.
static DUPS: [Step; 12] = [
    (0, Call::Put(4), Ok(Some((0, 0)))),
    (0, Call::Put(4), Ok(Some((1, 0)))),
    (0, Call::Dup(0), Ok(Some((2, 0)))),
    (0, Call::Seek(2, 77), Ok(Some((2, 77)))),
    (0, Call::Get(0), Ok(Some((4, 77)))),
    (0, Call::Get(1), Ok(Some((4, 0)))),
    (0, Call::Get(2), Ok(Some((4, 77)))),
    (1, Call::Get(0), Ok(None)),
    (0, Call::Close(0), Ok(None)),
    (0, Call::Get(2), Ok(Some((4, 77)))),
    (0, Call::Close(2), Ok(Some((4, 0)))),
    (0, Call::IsOpen(4), Ok(Some((4, 0)))),
];

/// Makes a session's call.
fn made(opens: &mut Descriptors, session: u8, call: Call) -> Answer {
    if session >= 64 {
        return Ok(None);
    }
    match call {
        Call::Put(inode) => Ok(Some((opens.put(session, inode, OpenFlags::READ)?, 0))),
        Call::Dup(fd) => Ok(Some((opens.dup(session, fd)?, 0))),
        Call::Close(fd) => Ok(named(opens.close(session, fd)?)),
        Call::Seek(fd, position) => Ok(sought(opens, session, fd, position)),
        Call::Get(fd) => Ok(read_by(opens.get(session, fd))),
        Call::IsOpen(inode) if opens.is_open(inode) => Ok(named(Some(inode))),
        Call::IsOpen(_) => Ok(None),
    }
}

/// The inode that was named.
fn named(inode: Option<u16>) -> Option<(u32, u32)> {
    Some((u32::from(inode?), 0))
}

/// The inode and the position of an open file; no inode's number where it is open for more than reading.
fn read_by(file: Option<(u16, u32, OpenFlags)>) -> Option<(u32, u32)> {
    match file {
        Some((inode, position, OpenFlags::READ)) => Some((u32::from(inode), position)),
        Some(_) => Some((u32::MAX, 0)),
        None => None,
    }
}

/// Sets the position of a descriptor's open file, if it leads to one.
fn sought(opens: &mut Descriptors, session: u8, fd: u32, position: u32) -> Option<(u32, u32)> {
    if session >= 64 || opens.get(session, fd).is_none() || position > 2147483647 {
        return None;
    }
    opens.set_position(session, fd, position);
    Some((fd, position))
}

/// Makes calls one after the other: each gives what stands beside it.
fn gives(opens: &mut Descriptors, row: &str, steps: &[Step]) -> Result<(), Fail> {
    for (number, (session, call, wanted)) in steps.iter().enumerate() {
        if made(opens, *session, *call) != *wanted {
            return Err(Fail::new(format_args!("{row}: step {number}")));
        }
    }
    Ok(())
}

/// A session opens an inode 32 times, which gives the descriptors 0 to 31.
fn fill(opens: &mut Descriptors, session: u8, inode: u16) -> Result<(), Fail> {
    for fd in 0..32 {
        gives(
            opens,
            "fill",
            &[(session, Call::Put(inode), Ok(Some((fd, 0))))],
        )?;
    }
    Ok(())
}

#[test]
fn files_are_opened(rt: HostRuntime) -> Result<(), Fail> {
    let mut opens = Descriptors::new(rt.alloc())?;
    fill(&mut opens, 0, 1)?;
    gives(&mut opens, "descriptors", &DESCRIPTORS)?;
    let mut opens = Descriptors::new(rt.alloc())?;
    for session in 0..4 {
        fill(&mut opens, session, 7)?;
    }
    gives(&mut opens, "open files", &OPEN_FILES)?;
    gives(&mut Descriptors::new(rt.alloc())?, "dups", &DUPS)
}
