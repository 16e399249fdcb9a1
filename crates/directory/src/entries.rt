//! Entries in the bytes of a block: an inode number of four bytes, and 60 of name, filled with zeros.

ghost use Rattle.std.specs.Prelude.{◌≡◌, ◌<◌, ◌≤◌, ◌+◌, ◌-◌, ◌*◌, ◌&&◌, ◌==◌, IfSome, drop, length, slice_index, take};
ghost use Rattle.std.specs.Ordering.{eq_by_cmp};
ghost use Rattle.tree.specs.Names.{name_cmp};
ghost use Rattle.volume.specs.Nodes.{entry_inode, entry_name, text_in};
ghost use Rattle.directory.specs.Scan.{last_named};

use layout::u32_at;

/// How many bytes an entry has.
pub const ENTRY_SIZE: usize = 64;

/// How many bytes the name has that stands at a place: those before its first zero byte, at most 60.
fn name_length(bytes: &[u8], at: usize) -> usize
    requires { at + 60 ≤ length bytes.now }
    ensures few { result ≤ 60 }
    ensures text { take result (drop at bytes.now) ≡ text_in (slice_index bytes.now) 60 at }
{
    for many in 0..60 {
        if bytes[at + many] == 0 {
            return many;
        }
    }
    60
}

/// The name of entry e of some bytes: a slice of them.
pub fn entry_name(bytes: &[u8], e: usize) -> &[u8]
    requires { 64 * e + 64 ≤ length bytes.now }
    ensures { result.now ≡ entry_name (slice_index bytes.now) e }
{
    let at = ENTRY_SIZE * e + 4;
    let end = at + name_length(bytes, at);
    &bytes[at..end]
}

/// The inode number of entry e of some bytes.
pub fn entry_inode(bytes: &[u8], e: usize) -> u32
    requires { 64 * e + 64 ≤ length bytes.now }
    ensures { result ≡ entry_inode (slice_index bytes.now) e }
{
    u32_at(bytes, ENTRY_SIZE * e)
}

/// Whether two names are the same bytes.
fn is_same(name: &[u8], other: &[u8]) -> bool
    ensures { result ≡ eq_by_cmp name_cmp name.now other.now }
{
    name == other
}

/// Whether entry e of some bytes has a name. As many bytes as the name has are compared first, so that of most entries the length isn't
/// looked for.
pub(crate) fn is_named(bytes: &[u8], e: usize, name: &[u8]) -> bool
    requires { 64 * e + 64 ≤ length bytes.now }
    ensures { result ≡ eq_by_cmp name_cmp name.now (entry_name (slice_index bytes.now) e) }
{
    let at = ENTRY_SIZE * e + 4;
    if name.len() > 60 || !is_same(name, &bytes[at..at + name.len()]) {
        return false;
    }
    is_same(name, entry_name(bytes, e))
}

/// Whether entry e of some bytes has a name and leads to an inode.
pub(crate) fn leads_to(bytes: &[u8], e: usize, name: &[u8], number: u32) -> bool
    requires { 64 * e + 64 ≤ length bytes.now }
    ensures { result ≡ (eq_by_cmp name_cmp name.now (entry_name (slice_index bytes.now) e)
        && (entry_inode (slice_index bytes.now) e == number)) }
{
    is_named(bytes, e, name) && entry_inode(bytes, e) == number
}

/// An entry of a directory: where it stands, and the inode to which it leads.
#[derive(Clone, Copy, Debug, PartialEq, Eq)]
pub struct Placed {
    /// How many entries stand before it.
    pub place: u32,
    /// The inode's number.
    pub number: u32,
}

/// The last of the entries from one on to another that has a name.
pub(crate) fn last_named(bytes: &[u8], from: usize, to: usize, name: &[u8]) -> Option<usize>
    requires order { from ≤ to }
    requires within { 64 * to ≤ length bytes.now }
    ensures last { result ≡ last_named (slice_index bytes.now) name.now from (to - from) }
    ensures within { IfSome result (λ e. (from ≤ e) × (e < to)) }
{
    let mut left = to;
    while left > from {
        left -= 1;
        if is_named(bytes, left, name) {
            return Some(left);
        }
    }
    None
}
