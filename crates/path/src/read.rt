//! Paths that were read.

ghost use Rattle.std.specs.Prelude.{◌≡◌, ◌≢◌, ◌==◌, Ok, Err, IfErr};
ghost use Rattle.std.specs.List.{list_any};
ghost use Rattle.tree.specs.Names.{dot, dot_dot, is_dots, same_name};
ghost use Rattle.tree.specs.Walk.{all_but_last, begins_with_slash, has_last_name, last_part, parts_of, read_path};
ghost use Rattle.path.specs.Lasts.{short_parts};

use crate::parts::{Parts, split_first};
use errno::Errno;
use std::marker::Model;
use tree::{MAX_NAME, MAX_PATH, PathFrom, Start};

/// A path that was read: contracts see where its walk begins, and the list of its parts, each of 1 to 60 bytes without a slash. The
/// parts are slices of the bytes that were read.
#[derive(Drop)]
pub struct Path<'a> {
    // Where its walk begins: at the root, if the bytes begin with a slash.
    start: Start,
    bytes: &'a [u8],
    // The last part, or no bytes where there is none.
    last: &'a [u8],
    // How many parts there are.
    count: usize,
}

impl<'a> Model for Path<'a> {
    ghost use Rattle.tree.specs.Walk.{Way, parts_of};
    ghost use Rattle.path.specs.Lasts.{IsRead};

    ghost Value = { Way };

    ghost view = { λ p. record { start = p.start; parts = parts_of p.bytes.now } };

    ghost invariant = { λ p. IsRead p.bytes.now p.last.now p.count };
}

/// Whether a part is `.`, which stays at its directory.
pub fn is_dot(part: &[u8]) -> bool
    ensures { result ≡ same_name part.now dot }
{
    part.len() == 1 && part[0] == b'.'
}

/// Whether a part is `..`, which goes to the parent.
pub fn is_dot_dot(part: &[u8]) -> bool
    ensures { result ≡ same_name part.now dot_dot }
{
    if part.len() != 2 {
        return false;
    }
    part[0] == b'.' && part[1] == b'.'
}

/// Whether a byte of a path is zero.
fn has_zero(bytes: &[u8]) -> bool
    ensures { result ≡ list_any (λ c. c == 0) bytes.now }
{
    bytes.iter().any(|c| *c == 0)
}

/// Whether a path is read from the root on, wherever it starts.
fn begins_with_slash(bytes: &[u8]) -> bool
    ensures { result ≡ begins_with_slash bytes.now }
{
    match bytes.first() {
        Some(first) => *first == b'/',
        None => false,
    }
}

/// Reads the parts of a path whose walk begins here.
fn read_parts<'a>(start: Start, bytes: &'a [u8]) -> Result<Path<'a>, Errno>
    ensures { result ≡ short_parts start (parts_of bytes.now) }
{
    let mut left = bytes;
    let mut last: &[u8] = &bytes[..0];
    let mut count = 0;
    while let Some((part, rest)) = split_first(left) {
        if part.len() > MAX_NAME {
            return Err(Errno::ENAMETOOLONG);
        }
        last = part;
        count += 1;
        left = rest;
    }
    Ok(Path {
        start,
        bytes,
        last,
        count,
    })
}

impl<'a> Path<'a> {
    /// Reads a path. In this order: ENOENT where one from the root is empty, ENAMETOOLONG over 1024 bytes, EINVAL where one from the
    /// root doesn't begin with `/` or one holds a zero byte, ENAMETOOLONG where a part has over 60 bytes. Slashes in a row count as
    /// one, and those at the end don't count. One that begins with `/` is read from the root on, wherever it starts.
    pub fn parse(path: PathFrom<'a>) -> Result<Path<'a>, Errno>
        ensures parsed { result ≡ read_path path.entry }
        ensures proper { IfErr result (λ e. e ≢ Errno.EIO) }
    {
        let bytes = path.bytes;
        let from_root = path.start == Start::Root;
        let slash = begins_with_slash(bytes);
        if from_root && bytes.is_empty() {
            return Err(Errno::ENOENT);
        }
        if bytes.len() > MAX_PATH {
            return Err(Errno::ENAMETOOLONG);
        }
        if (from_root && !slash) || has_zero(bytes) {
            return Err(Errno::EINVAL);
        }
        let start = if slash { Start::Root } else { path.start };
        read_parts(start, bytes)
    }

    /// Where its walk begins.
    pub fn start(&self) -> Start
        ensures { result ≡ self.now.start }
    {
        self.start
    }

    /// The parts, the first of them first.
    pub fn parts(&self) -> Parts<'a>
        ensures { result ≡ self.now.parts }
    {
        Parts::new(self.bytes, self.count)
    }

    /// All parts but the last: those of the directory that holds what the path means.
    pub fn parent(&self) -> Parts<'a>
        ensures { result ≡ all_but_last self.now.parts }
    {
        Parts::new(self.bytes, self.count.saturating_sub(1))
    }

    /// The last part, or no bytes where there is none, as in `/`.
    pub fn last(&self) -> &'a [u8]
        ensures { result.now ≡ last_part self.now.parts }
    {
        self.last
    }

    /// Whether the last part is a name: one that is there, and neither `.` nor `..`.
    pub fn has_last_name(&self) -> bool
        ensures { result ≡ has_last_name self.now }
    {
        !(self.last.is_empty() || is_dot(self.last) || is_dot_dot(self.last))
    }
}
