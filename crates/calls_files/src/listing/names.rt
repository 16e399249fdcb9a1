//! Names in the order of their bytes.

ghost use Rattle.std.specs.Prelude.{◌≡◌, IfOk, OnOk, map, []};
ghost use Rattle.tree.specs.Answers.{entry_of};
ghost use Rattle.tree.specs.Names.{with_name};

use std::alloc::{AllocError, Global};
use std::collections::BTreeMap;
use std::marker::Model;
use tree::Entry;

/// Names with their inodes: contracts see the map of a directory, in the order of the names' bytes.
#[derive(Drop)]
pub(crate) struct NameMap {
    inodes: BTreeMap<Vec<u8>, u16>,
}

impl Model for NameMap {
    ghost use Rattle.std.specs.Prelude.{map};
    ghost use Rattle.tree.specs.Names.{Names};
    ghost use Rattle.calls_files.specs.Pairs.{pair_of};

    ghost Value = { Names };

    ghost view = { λ m. map pair_of m.inodes.entries };
}

impl NameMap {
    /// No names.
    pub(crate) fn new(alloc: Global) -> NameMap
        ensures { result ≡ [] }
    {
        NameMap {
            inodes: BTreeMap::new(alloc),
        }
    }

    /// A name more, if there is memory for it; where the map has it, it leads to this inode then.
    pub(crate) fn put(&mut self, alloc: Global, name: &[u8], inode: u16) -> Result<(), AllocError>
        ensures { OnOk result (self.new ≡ with_name self.old name.now inode) }
    {
        let name = name.to_vec(alloc)?;
        self.inodes.insert(name, inode)?;
        Ok(())
    }

    /// All names in their order, if there is memory for the list.
    pub(crate) fn into_entries(self, alloc: Global) -> Result<Vec<Entry>, AllocError>
        ensures { IfOk result (λ entries. map entry_of entries.items ≡ self) }
    {
        let mut entries = Vec::with_capacity(alloc, self.inodes.len())?;
        for (name, inode) in self.inodes {
            entries.push(Entry { name, inode })?;
        }
        Ok(entries)
    }
}
