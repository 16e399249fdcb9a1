//! The parts of a path, one by one.

ghost use Rattle.std.specs.Prelude.{◌≡◌, ◌∷◌, ◌<◌, ◌≤◌, ◌+◌, ◌==◌, [], IfNone, IfSome, length, not, take, true, false};
ghost use Rattle.std.specs.List.{prefix_len};
ghost use Rattle.tree.specs.Walk.{has_long_part, parts_of};

use std::marker::Model;
use tree::MAX_NAME;

/// How many slashes some bytes begin with.
fn leading_slashes(bytes: &[u8]) -> usize
    ensures count { result ≡ prefix_len (λ c. c == 47) bytes.now }
    ensures within { result ≤ length bytes.now }
{
    for at in 0..bytes.len() {
        if bytes[at] != b'/' {
            return at;
        }
    }
    bytes.len()
}

/// How many bytes there are before the first slash.
fn until_slash(bytes: &[u8]) -> usize
    ensures count { result ≡ prefix_len (λ c. not (c == 47)) bytes.now }
    ensures within { result ≤ length bytes.now }
{
    for at in 0..bytes.len() {
        if bytes[at] == b'/' {
            return at;
        }
    }
    bytes.len()
}

/// The first part of some bytes and what is behind it, if there is a part.
pub(crate) fn split_first(bytes: &[u8]) -> Option<(&[u8], &[u8])>
    ensures none { IfNone result (parts_of bytes.now ≡ []) }
    ensures parts { IfSome result (λ x. parts_of bytes.now ≡ x.0.now ∷ parts_of x.1.now) }
    ensures less { IfSome result (λ x. length x.1.now < length bytes.now) }
    ensures some { IfSome result (λ x. 0 < length x.0.now) }
{
    let bytes = &bytes[leading_slashes(bytes)..];
    let end = until_slash(bytes);
    if end == 0 {
        return None;
    }
    Some((&bytes[..end], &bytes[end..]))
}

/// Parts of a path that are left to read: contracts see the list of them. Each is a slice of the path, of 1 to 60 bytes without a slash.
#[derive(Drop)]
pub struct Parts<'a> {
    // What is left of the path.
    rest: &'a [u8],
    // How many of its parts are left.
    left: usize,
}

impl<'a> Model for Parts<'a> {
    ghost use Rattle.std.specs.Prelude.{List, take};
    ghost use Rattle.tree.specs.Names.{Name};
    ghost use Rattle.tree.specs.Walk.{parts_of};

    ghost Value = { List Name };

    ghost view = { λ p. take p.left (parts_of p.rest.now) };
}

/// How many parts some bytes have, if none of them is longer than a name may be.
fn count_short(bytes: &[u8]) -> Option<usize>
    ensures none { IfNone result (has_long_part bytes.now ≡ true) }
    ensures some { IfSome result (λ n. (has_long_part bytes.now ≡ false) × (n ≡ length (parts_of bytes.now))) }
{
    let mut left = bytes;
    let mut count = 0;
    while let Some((part, rest)) = split_first(left) {
        if part.len() > MAX_NAME {
            return None;
        }
        count += 1;
        left = rest;
    }
    Some(count)
}

impl<'a> Parts<'a> {
    /// The parts of the target of a symbolic link, if none of them is longer than a name may be.
    pub fn of_target(bytes: &'a [u8]) -> Option<Parts<'a>>
        ensures none { IfNone result (has_long_part bytes.now ≡ true) }
        ensures some { IfSome result (λ parts. (has_long_part bytes.now ≡ false) × (parts ≡ parts_of bytes.now)) }
    {
        let count = count_short(bytes)?;
        Some(Parts::new(bytes, count))
    }

    /// The first so many parts of some bytes, or all where there are fewer.
    pub(crate) fn new(bytes: &'a [u8], left: usize) -> Parts<'a>
        ensures { result ≡ take left (parts_of bytes.now) }
    {
        Parts { rest: bytes, left }
    }

    /// The next part, if one is left.
    pub fn next(&mut self) -> Option<&'a [u8]>
        ensures none { IfNone result (self.old ≡ []) }
        ensures stays { IfNone result (self.new ≡ self.old) }
        ensures some { IfSome result (λ part. self.old ≡ part.now ∷ self.new) }
        ensures bytes { IfSome result (λ part. 0 < length part.now) }
    {
        if self.left == 0 {
            return None;
        }
        let (part, rest) = split_first(self.rest)?;
        self.rest = rest;
        self.left -= 1;
        Some(part)
    }
}
