//! The entries of a directory, as an answer has them.

ghost use Rattle.std.specs.Prelude.{◌≡◌, ◌++◌, OnOk, OnErr};
ghost use Rattle.ninep.specs.Fields.{IsShort, fields_bytes};
ghost use Rattle.ninep.specs.Puts.{StandsFirst};
ghost use Rattle.ninep.specs.Replies.{entry_fields};

use crate::reply::Qid;
use crate::writing::{Part, put_all};
use std::alloc::AllocError;

/// An entry of a directory.
#[derive(Clone, Copy)]
pub struct ReaddirEntry<'a> {
    pub qid: Qid,
    /// The offset by which a later request goes on behind this entry.
    pub next: u64,
    /// 4 for a directory, 8 for a file, 10 for a symbolic link.
    pub kind: u8,
    pub name: &'a [u8],
}

/// Writes an entry behind others. An error: no memory was found for it, and `out` has what it had.
pub fn push_entry(out: &mut Vec<u8>, entry: &ReaddirEntry<'_>) -> Result<(), AllocError>
    requires { IsShort entry.now.name.now }
    ensures ok { OnOk result (out.new.items ≡ out.old.items ++ fields_bytes (entry_fields entry.now)) }
    ensures kept { OnErr result (out.new.items ≡ out.old.items) }
{
    let len = out.len();
    let Ok(()) = put_entry(out, entry) else {
        out.truncate(len);
        return Err(AllocError);
    };
    Ok(())
}

/// The fields of an entry.
fn put_entry(out: &mut Vec<u8>, entry: &ReaddirEntry<'_>) -> Result<(), AllocError>
    requires { IsShort entry.now.name.now }
    ensures ok { OnOk result (out.new.items ≡ out.old.items ++ fields_bytes (entry_fields entry.now)) }
    ensures kept { OnErr result (StandsFirst out.old.items out.new.items) }
{
    put_all(
        out,
        &[
            Part::U8(entry.qid.kind),
            Part::U32(entry.qid.version),
            Part::U64(entry.qid.path),
            Part::U64(entry.next),
            Part::U8(entry.kind),
            Part::Text(entry.name),
        ],
    )
}
