//! How paths are read.

use errno::Errno;
use path::{Parts, Path};
use std::test::Fail;
use tree::{PathFrom, Start};

/// Paths, and why they aren't read: the first reason that holds.
static REFUSALS: [(&[u8], Option<Errno>); 11] = [
    (b"", Some(Errno::ENOENT)),
    (&[b'a'; 1025], Some(Errno::ENAMETOOLONG)),
    (&[b'/'; 1025], Some(Errno::ENAMETOOLONG)),
    (&[b'/'; 1024], None),
    (b"a/b", Some(Errno::EINVAL)),
    (b"/a\0b", Some(Errno::EINVAL)),
    (&[b'a'; 61], Some(Errno::EINVAL)),
    (b"/", None),
    // a part has 60 bytes at most: here are 61, and 60, and a zero before 60
    (
        b"/aaaaaaaaaaaaaaaaaaaaaaaaaaaaaaaaaaaaaaaaaaaaaaaaaaaaaaaaaaaaa",
        Some(Errno::ENAMETOOLONG),
    ),
    (
        b"/aaaaaaaaaaaaaaaaaaaaaaaaaaaaaaaaaaaaaaaaaaaaaaaaaaaaaaaaaaaa",
        None,
    ),
    (
        b"/\0aaaaaaaaaaaaaaaaaaaaaaaaaaaaaaaaaaaaaaaaaaaaaaaaaaaaaaaaaaaa",
        Some(Errno::EINVAL),
    ),
];

/// Paths, and whether they have a last name: dots and the root are none.
static LAST_NAMES: [(&[u8], bool); 6] = [
    (b"/", false),
    (b"///", false),
    (b"/a/.", false),
    (b"/..", false),
    (b"/..a", true),
    (b"/.../", true),
];

/// Paths from a node, and why they aren't read, or where their walk begins.
static FROM_A_NODE: [(&[u8], Result<Start, Errno>); 7] = [
    (b"", Ok(Start::Inode(5))),
    (b"a/b", Ok(Start::Inode(5))),
    (b"/", Ok(Start::Root)),
    (b"//a", Ok(Start::Root)),
    (&[b'a'; 1025], Err(Errno::ENAMETOOLONG)),
    (b"a\0b", Err(Errno::EINVAL)),
    (&[b'a'; 61], Err(Errno::ENAMETOOLONG)),
];

/// Where the walk of a path from node 5 begins, or why it isn't read.
fn start_of(bytes: &[u8]) -> Result<Start, Errno> {
    let path = PathFrom {
        start: Start::Inode(5),
        bytes,
    };
    Ok(Path::parse(path)?.start())
}

/// Why a path isn't read.
fn refusal(bytes: &[u8]) -> Option<Errno> {
    match Path::parse(PathFrom::root(bytes)) {
        Ok(_) => None,
        Err(error) => Some(error),
    }
}

/// Whether a path that can be read has a last name.
fn has_last_name(bytes: &[u8]) -> Option<bool> {
    match Path::parse(PathFrom::root(bytes)) {
        Ok(path) => Some(path.has_last_name()),
        Err(_) => None,
    }
}

/// Whether these are the parts, and no more.
fn are_parts(parts: Parts, wanted: &[&[u8]]) -> bool {
    let mut parts = parts;
    for part in wanted {
        if parts.next() != Some(*part) {
            return false;
        }
    }
    parts.next().is_none()
}

#[test]
fn paths_are_read() -> Result<(), Fail> {
    for (number, (bytes, wanted)) in REFUSALS.iter().enumerate() {
        if refusal(bytes) != *wanted {
            return Err(Fail::new(format_args!("path {number}")));
        }
    }
    for (number, (bytes, wanted)) in FROM_A_NODE.iter().enumerate() {
        if start_of(bytes) != *wanted {
            return Err(Fail::new(format_args!("path {number} from a node")));
        }
    }
    for (number, (bytes, wanted)) in LAST_NAMES.iter().enumerate() {
        if has_last_name(bytes) != Some(*wanted) {
            return Err(Fail::new(format_args!("last name {number}")));
        }
    }
    Ok(())
}

#[test]
fn slashes_in_a_row_are_one() -> Result<(), Fail> {
    let path = Path::parse(PathFrom::root(b"//a///bc/"))?;
    if !are_parts(path.parts(), &[b"a", b"bc"]) || !are_parts(path.parent(), &[b"a"]) {
        return Err(Fail::new("parts"));
    }
    if path.last() != b"bc".as_slice() || !path.has_last_name() {
        return Err(Fail::new("last name"));
    }
    Ok(())
}
