//! Sessions of users, and what they leave.

use crate::mounted::{Exchange, answers, answers_by, put};
use std::test::Fail;

/// A version.
pub(crate) const VERSION: Exchange = (
    b"\x64\xff\xff\0\0\x01\0\x08\09P2000.L",
    b"\x65\xff\xff\0\0\x01\0\x08\09P2000.L",
);

/// User 0 attaches as fid 0.
pub(crate) const ATTACH: Exchange = (
    b"\x68\x01\0\0\0\0\0\xff\xff\xff\xff\0\0\0\0\0\0\0\0",
    b"\x69\x01\0\x80\0\0\0\0\x01\0\0\0\0\0\0\0",
);

/// A second fid of the root, 1.
pub(crate) const CLONE: Exchange = (b"\x6e\x02\0\0\0\0\0\x01\0\0\0\0\0", b"\x6f\x02\0\0\0");

/// By it the file `hi` is made, inode 2, with permissions 640 and group 5, and is open.
pub(crate) const CREATE: Exchange = (
    b"\x0e\x03\0\x01\0\0\0\x02\0hi\x42\0\0\0\xa0\x01\0\0\x05\0\0\0",
    b"\x0f\x03\0\0\0\0\0\0\x02\0\0\0\0\0\0\0\0\0\0\0",
);

/// Its name is removed.
const UNLINK: Exchange = (b"\x4c\x04\0\0\0\0\0\x02\0hi\0\0\0\0", b"\x4d\x04\0");

/// A version ends the sessions: a file that is open there and has no name any more is gone, and its space is free.
#[test]
fn sessions_end_at_a_version(rt: HostRuntime) -> Result<(), Fail> {
    answers(
        rt.alloc(),
        rt,
        &[VERSION, ATTACH, CLONE, CREATE, UNLINK, VERSION],
    )
}

/// So does the stream's end.
#[test]
fn sessions_end_with_the_stream(rt: HostRuntime) -> Result<(), Fail> {
    answers(rt.alloc(), rt, &[VERSION, ATTACH, CLONE, CREATE, UNLINK])
}

/// User 5, who is of group 5, attaches as fid 2, walks to the file, and opens it to read.
const MEMBER: [Exchange; 3] = [
    (
        b"\x68\x05\0\x02\0\0\0\xff\xff\xff\xff\0\0\0\0\x05\0\0\0",
        b"\x69\x05\0\x80\0\0\0\0\x01\0\0\0\0\0\0\0",
    ),
    (
        b"\x6e\x06\0\x02\0\0\0\x03\0\0\0\x01\0\x02\0hi",
        b"\x6f\x06\0\x01\0\0\0\0\0\0\x02\0\0\0\0\0\0\0",
    ),
    (
        b"\x0c\x07\0\x03\0\0\0\0\0\0\0",
        b"\x0d\x07\0\0\0\0\0\0\x02\0\0\0\0\0\0\0\0\0\0\0",
    ),
];

/// User 6, who isn't, is answered EACCES.
const OTHER: [Exchange; 3] = [
    (
        b"\x68\x08\0\x04\0\0\0\xff\xff\xff\xff\0\0\0\0\x06\0\0\0",
        b"\x69\x08\0\x80\0\0\0\0\x01\0\0\0\0\0\0\0",
    ),
    (
        b"\x6e\x09\0\x04\0\0\0\x05\0\0\0\x01\0\x02\0hi",
        b"\x6f\x09\0\x01\0\0\0\0\0\0\x02\0\0\0\0\0\0\0",
    ),
    (b"\x0c\x0a\0\x05\0\0\0\0\0\0\0", b"\x07\x0a\0\x0d\0\0\0"),
];

/// A file that its owner and its group alone may read is read by a user of that group.
#[test]
fn users_have_their_groups(rt: HostRuntime) -> Result<(), Fail> {
    let [attach, walk, open] = MEMBER;
    let [attach_other, walk_other, open_other] = OTHER;
    answers(
        rt.alloc(),
        rt,
        &[
            VERSION,
            ATTACH,
            CLONE,
            CREATE,
            attach,
            walk,
            open,
            attach_other,
            walk_other,
            open_other,
        ],
    )
}

/// All may make files in the root directory.
const OPEN_TO_ALL: Exchange = (
    b"\x1a\x04\0\0\0\0\0\x01\0\0\0\xff\x01\0\0\0\0\0\0\0\0\0\0\0\0\0\0\0\0\0\0\0\0\0\0\0\0\0\0\
      \0\0\0\0\0\0\0\0\0\0\0\0\0\0\0\0\0\0\0\0\0\0\0\0",
    b"\x1b\x04\0",
);

/// What follows the number of a user who attaches as fid 2: it makes the file `hi` as fid 3, inode 2, removes the name, and lets both fids
/// go, the open one last.
const VISIT: [Exchange; 5] = [
    (b"\x6e\x06\0\x02\0\0\0\x03\0\0\0\0\0", b"\x6f\x06\0\0\0"),
    (
        b"\x0e\x07\0\x03\0\0\0\x02\0hi\x42\0\0\0\xa0\x01\0\0\0\0\0\0",
        b"\x0f\x07\0\0\0\0\0\0\x02\0\0\0\0\0\0\0\0\0\0\0",
    ),
    (b"\x4c\x08\0\x02\0\0\0\x02\0hi\0\0\0\0", b"\x4d\x08\0"),
    (b"\x78\x09\0\x02\0\0\0", b"\x79\x09\0"),
    (b"\x78\x0a\0\x03\0\0\0", b"\x79\x0a\0"),
];

/// More users than there are sessions attach, one after the other: each has one until its last fid is let go. With that the file is gone
/// that it had open and that has no name: the next user's file has the same inode.
#[test]
fn sessions_end_with_the_last_fid(rt: HostRuntime) -> Result<(), Fail> {
    let alloc = rt.alloc();
    let (mut asked, mut told) = (Vec::new(alloc), Vec::new(alloc));
    for (message, answer) in &[VERSION, ATTACH, OPEN_TO_ALL] {
        put(&mut asked, message)?;
        put(&mut told, answer)?;
    }
    for user in 1..=300_u32 {
        let mut attach = b"\x68\x05\0\x02\0\0\0\xff\xff\xff\xff\0\0\0\0".to_vec(alloc)?;
        attach.extend_from_slice(&user.to_le_bytes())?;
        put(&mut asked, &attach)?;
        put(&mut told, b"\x69\x05\0\x80\0\0\0\0\x01\0\0\0\0\0\0\0")?;
        for (message, answer) in &VISIT {
            put(&mut asked, message)?;
            put(&mut told, answer)?;
        }
    }
    answers_by(alloc, rt, &asked, &told)
}
