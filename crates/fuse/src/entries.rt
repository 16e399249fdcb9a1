//! The entries of a directory, as an answer has them.

ghost use Rattle.std.specs.Prelude.{◌≡◌, ◌≤◌, ◌<◌, ◌+◌, ◌^◌, ◌++◌, length, vec_capacity, OnOk, OnErr};
ghost use Rattle.fields.specs.Fields.{fields_bytes};
ghost use Rattle.fields.specs.Puts.{StandsFirst};
ghost use Rattle.fuse.specs.Replies.{entry_fields, dirent_bytes, padding};

use crate::reply::Entry;
use crate::writing::put_entry;
use fields::putting::{Part, put_all};
use std::alloc::AllocError;

/// An entry of a directory.
#[derive(Clone, Copy, Debug)]
pub struct ReaddirEntry<'a> {
    pub inode: u64,
    /// The offset by which a later request goes on behind this entry.
    pub next: u64,
    /// 4 for a directory, 8 for a file, 10 for a symbolic link, 0 where it isn't known.
    pub kind: u32,
    pub name: &'a [u8],
}

impl ReaddirEntry<'_> {
    /// How many bytes it has in an answer to READDIR; in one to READDIRPLUS 128 more.
    pub fn len(&self) -> usize
        requires { length self.now.name.now < 2 ^ 32 }
        ensures { result ≡ length (dirent_bytes self.now) }
    {
        24 + self.name.len() + zeros_behind(self.name.len()).len()
    }
}

/// As many zeros as lead from so many bytes to a multiple of eight.
fn zeros_behind(count: usize) -> &'static [u8]
    ensures { result.now ≡ padding count }
{
    match count % 8 {
        1 => &[0; 7],
        2 => &[0; 6],
        3 => &[0; 5],
        4 => &[0; 4],
        5 => &[0; 3],
        6 => &[0; 2],
        7 => &[0; 1],
        _ => &[],
    }
}

/// Writes an entry behind others. An error: no memory was found for it, and `out` has what it had.
pub fn push_entry(out: &mut Vec<u8>, entry: &ReaddirEntry<'_>) -> Result<(), AllocError>
    requires { length entry.now.name.now < 2 ^ 32 }
    ensures ok { OnOk result (out.new.items ≡ out.old.items ++ dirent_bytes entry.now) }
    ensures kept { OnErr result (out.new.items ≡ out.old.items) }
    ensures full { OnErr result (vec_capacity out.old < length out.old.items + length (dirent_bytes entry.now)) }
{
    let len = out.len();
    let Ok(()) = put_dirent(out, entry) else {
        out.truncate(len);
        return Err(AllocError);
    };
    Ok(())
}

/// Writes what a name leads to and its entry behind others, for READDIRPLUS. An error: no memory was found for it, and `out` has what
/// it had.
pub fn push_entry_plus(
    out: &mut Vec<u8>,
    found: &Entry,
    entry: &ReaddirEntry<'_>,
) -> Result<(), AllocError>
    requires { length entry.now.name.now < 2 ^ 32 }
    ensures ok { OnOk result (out.new.items ≡ out.old.items ++ (fields_bytes (entry_fields found.now) ++ dirent_bytes entry.now)) }
    ensures kept { OnErr result (out.new.items ≡ out.old.items) }
    ensures full { OnErr result
        (vec_capacity out.old < length out.old.items + length (fields_bytes (entry_fields found.now) ++ dirent_bytes entry.now)) }
{
    let len = out.len();
    let Ok(()) = put_both(out, found, entry) else {
        out.truncate(len);
        return Err(AllocError);
    };
    Ok(())
}

/// What a name leads to, and its entry.
fn put_both(out: &mut Vec<u8>, found: &Entry, entry: &ReaddirEntry<'_>) -> Result<(), AllocError>
    requires { length entry.now.name.now < 2 ^ 32 }
    ensures ok { OnOk result (out.new.items ≡ out.old.items ++ (fields_bytes (entry_fields found.now) ++ dirent_bytes entry.now)) }
    ensures kept { OnErr result (StandsFirst out.old.items out.new.items) }
    ensures full { OnErr result
        (vec_capacity out.old < length out.old.items + length (fields_bytes (entry_fields found.now) ++ dirent_bytes entry.now)) }
    ensures capacity { vec_capacity out.old ≤ vec_capacity out.new }
{
    put_entry(out, found)?;
    put_dirent(out, entry)
}

/// The fields of an entry.
fn put_dirent(out: &mut Vec<u8>, entry: &ReaddirEntry<'_>) -> Result<(), AllocError>
    requires { length entry.now.name.now < 2 ^ 32 }
    ensures ok { OnOk result (out.new.items ≡ out.old.items ++ dirent_bytes entry.now) }
    ensures kept { OnErr result (StandsFirst out.old.items out.new.items) }
    ensures full { OnErr result (vec_capacity out.old < length out.old.items + length (dirent_bytes entry.now)) }
    ensures capacity { vec_capacity out.old ≤ vec_capacity out.new }
{
    put_all(
        out,
        &[
            Part::U64(entry.inode),
            Part::U64(entry.next),
            Part::U32(entry.name.len() as u32),
            Part::U32(entry.kind),
            Part::Bytes(entry.name),
            Part::Bytes(zeros_behind(entry.name.len())),
        ],
    )
}
