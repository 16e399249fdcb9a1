//! The entries of a directory: `.`, `..`, and the names in the order of their bytes. An offset counts them.

ghost use Rattle.std.specs.Prelude.{◌≡◌, ◌<◌, ◌+◌, ◌⊎◌, ◌∷◌, ℕ, List, drop, length, min, nat_lt, true, false, OnOk, IfErr};
ghost use Rattle.talks.specs.Hearing.{eio};
ghost use Rattle.ninep_fids.specs.Directories.{entries_of};
ghost use Rattle.ninep_fids.specs.Entries.{AreTold, entry_bytes, stands};

use errno::Errno;
use ninep::entries::{ReaddirEntry, push_entry};
use ninep::reply::Qid;
use std::alloc::Global;
use talks::refused::Refused;
use tree::MAX_NAME;

/// How many bytes an entry has without its name.
pub const ENTRY_HEAD: usize = 24;

/// The entries of a directory, as they were at a time.
#[derive(Drop)]
pub struct Listed {
    /// The number of the directory in which it stood.
    pub above: u16,
    /// Its names, in the order of their bytes.
    pub names: Vec<tree::Entry>,
}

/// The bytes of entries, at most so many.
#[derive(Drop)]
struct Entries {
    bytes: Vec<u8>,
    limit: usize,
    full: bool,
}

impl Entries {
    /// An entry more, if it has room and none before it hadn't. Its qid has the number alone, and its type isn't told: the client asks for
    /// attributes.
    fn put(&mut self, inode: u16, next: u64, name: &[u8]) -> Result<(), Refused>
        ensures told { OnOk result ((rest : List (List ℕ))
            → stands self.new rest ≡ stands self.old (entry_bytes inode next name.now ∷ rest)) }
        ensures short { OnOk result (nat_lt 60 (length name.now) ≡ false) }
        ensures long { IfErr result (λ e. ((e ≡ eio) × (nat_lt 60 (length name.now) ≡ true)) ⊎ (e ≡ Refused.By Errno.ENOMEM)) }
    {
        if name.len() > MAX_NAME {
            return Err(Refused::By(Errno::EIO));
        }
        if self.full {
            return Ok(());
        }
        if self.bytes.len() + ENTRY_HEAD + name.len() > self.limit {
            self.full = true;
            return Ok(());
        }
        let entry = ReaddirEntry {
            qid: Qid {
                kind: 0,
                version: 0,
                path: u64::from(inode),
            },
            next,
            kind: 0,
            name,
        };
        push_entry(&mut self.bytes, &entry)?;
        Ok(())
    }
}

/// The entry of a directory that stands at an offset: its inode, and its name.
fn entry_at(own: u16, above: u16, names: &[tree::Entry], at: usize) -> (u16, &[u8])
    requires { at < length names.now + 2 }
    ensures { drop at (entries_of own above names.now) ≡ (result.0, result.1.now) ∷ drop (at + 1) (entries_of own above names.now) }
{
    match at {
        0 => (own, b"."),
        1 => (above, b".."),
        _ => {
            let entry = &names[at - 2];
            (entry.inode, &entry.name)
        }
    }
}

/// The entries of a directory from an offset on, in at most so many bytes.
///
/// EIO where one of them has a longer name than names of the server are.
pub fn entries_from(
    alloc: Global,
    own: u16,
    above: u16,
    names: &[tree::Entry],
    offset: u64,
    limit: usize,
) -> Result<Vec<u8>, Refused>
    ensures { AreTold offset limit (drop offset (entries_of own above names.now)) result }
{
    let mut entries = Entries {
        bytes: Vec::new(alloc),
        limit,
        full: false,
    };
    let len = names.len() + 2;
    let first = offset.min(len as u64) as usize;
    for at in first..len {
        let (inode, name) = entry_at(own, above, names, at);
        entries.put(inode, at as u64 + 1, name)?;
    }
    Ok(entries.bytes)
}
