//! A cache of names, and walks of names that changed.

use crate::images::{LAST_ZONE, ROOT_ALONE, TWO_PAGES, volume};
use crate::volumes::{Call, DONE, Seen, Step};
use block_store::{Cut, Halt};
use errno::Errno;
use path::Stop;
use std::test::Fail;
use tree::User;

/// User 0 may do all.
const ROOT: User = User { uid: 0, gid: 0 };

/// There is no such name.
const MISSING: Result<Seen, Stop> = Err(Stop::Refused(Errno::ENOENT));

/// Each walk finds what the root has then.
static CHANGES: [Step; 21] = [
    (Call::Kept, Ok(Seen::Kept(0))),
    (Call::Insert(b"a", 2), DONE),
    (Call::Insert(b"b", 3), DONE),
    (Call::Insert(b"c", 4), DONE),
    (Call::Kept, Ok(Seen::Kept(0))),
    (Call::Walk(ROOT, b"/a"), Ok(Seen::There(2))),
    (Call::Walk(ROOT, b"/b"), Ok(Seen::There(3))),
    (Call::Walk(ROOT, b"/c"), Ok(Seen::There(4))),
    (Call::Walk(ROOT, b"/a"), Ok(Seen::There(2))),
    (Call::Walk(ROOT, b"/d"), MISSING),
    (Call::Kept, Ok(Seen::Kept(3))),
    // the last entry takes the place of the one that goes
    (Call::Remove(b"a"), DONE),
    (Call::Walk(ROOT, b"/a"), MISSING),
    (Call::Walk(ROOT, b"/b"), Ok(Seen::There(3))),
    (Call::Walk(ROOT, b"/c"), Ok(Seen::There(4))),
    (Call::Replace(b"b", 5), DONE),
    (Call::Walk(ROOT, b"/b"), Ok(Seen::There(5))),
    (Call::LookUp(ROOT, b"/b"), Ok(Seen::There(5))),
    (Call::Insert(b"a", 6), DONE),
    (Call::Walk(ROOT, b"/a"), Ok(Seen::There(6))),
    (Call::Place(b"/a"), Ok(Seen::At(1, 1, Some(6)))),
];

#[test]
fn changed_names_are_found(rt: HostRuntime) -> Result<(), Fail> {
    volume(rt.alloc(), &ROOT_ALONE, &[])?.gives("changes", &CHANGES)
}

/// A digit.
fn digit(number: usize) -> u8 {
    b'0' + (number % 10) as u8
}

/// The path of a number's name.
fn path_of(number: usize) -> [u8; 4] {
    [b'/', digit(number / 100), digit(number / 10), digit(number)]
}

#[test]
fn at_most_256_names_are_kept(rt: HostRuntime) -> Result<(), Fail> {
    let mut tree = volume(rt.alloc(), &ROOT_ALONE, &[])?;
    for number in 0..257 {
        let path = path_of(number);
        let steps = [
            (Call::Insert(&path[1..], 1), DONE),
            (Call::Walk(ROOT, &path), Ok(Seen::There(1))),
            (Call::Kept, Ok(Seen::Kept((number + 1).min(256)))),
        ];
        tree.gives("a name more", &steps)?;
    }
    tree.gives(
        "the name that was let go",
        &[(Call::Walk(ROOT, b"/000"), Ok(Seen::There(1)))],
    )?;
    tree.gives("as many names", &[(Call::Kept, Ok(Seen::Kept(256)))])
}

/// A name that was walked is read again where it stands, and no page behind it: that one is gone by then. Another name isn't found.
static WALKED: [Step; 3] = [
    (Call::Walk(ROOT, b"/f"), Ok(Seen::There(3))),
    (Call::LookUp(ROOT, b"/f"), Ok(Seen::There(3))),
    (
        Call::Walk(ROOT, b"/g"),
        Err(Stop::Halted(Halt::Cut(Cut::Eio))),
    ),
];

#[test]
fn a_second_walk_reads_one_page(rt: HostRuntime) -> Result<(), Fail> {
    let mut tree = volume(rt.alloc(), &TWO_PAGES, &[])?;
    tree.gives(
        "the first walk",
        &[(Call::Walk(ROOT, b"/f"), Ok(Seen::There(3)))],
    )?;
    tree.cut(rt.alloc(), LAST_ZONE)?
        .gives("the second walk", &WALKED)
}
