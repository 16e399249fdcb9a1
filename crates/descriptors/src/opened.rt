//! Open files at numbers of their own.

ghost use Rattle.std.specs.Prelude.{◌≡◌, ◌<◌, IfOk, None, Some, IsSome, is_none, is_some, length, option_map, position, replicate};
ghost use Rattle.std.specs.Prelude.{slice_index_or, slice_set};
ghost use Rattle.std.specs.List.{list_any};
ghost use Rattle.tree.specs.Tree.{most_open_files, opens};

use crate::free::first_free;
use slab::Slab;
use std::alloc::{AllocError, Global};
use std::marker::Model;
use tree::{MAX_OPEN_FILES, OpenFlags};

/// A file or a directory that is open.
#[derive(Clone, Copy)]
pub(crate) struct Opened {
    /// The node.
    pub inode: u16,
    /// The place of the next read or write.
    pub position: u32,
    /// The flags that it was opened with.
    pub flags: OpenFlags,
}

/// The open files, each at a number below 128: contracts see the open file at each number, or that there is none. Their memory is taken
/// when they are made.
#[derive(Drop)]
pub(crate) struct OpenFiles {
    files: Slab<Opened>,
    // The key of each open file, at its number. A key depends on what was open before, and a number doesn't.
    keys: Vec<Option<usize>>,
}

impl Model for OpenFiles {
    ghost use Rattle.std.specs.Prelude.{List, Option, map};
    ghost use Rattle.tree.specs.Tree.{OpenFile};

    ghost Value = { List (Option OpenFile) };

    ghost use Rattle.descriptors.specs.Keys.{file_under, AreKeys};

    ghost view = { λ o. map (file_under o.files) o.keys.items };

    ghost invariant = { λ o. AreKeys o.files o.keys.items };
}

impl OpenFiles {
    ghost use Rattle.descriptors.specs.Keys.{at_position, file_of};

    /// Room for 128 open files, and none.
    pub(crate) fn new(alloc: Global) -> Result<OpenFiles, AllocError>
        ensures { IfOk result (λ o. o ≡ replicate most_open_files None) }
    {
        Ok(OpenFiles {
            files: Slab::with_capacity(alloc, MAX_OPEN_FILES)?,
            keys: vec![in alloc; None; MAX_OPEN_FILES]?,
        })
    }

    /// The least number without an open file.
    pub(crate) fn free(&self) -> Option<usize>
        ensures number { result ≡ position is_none self.now }
        ensures count { length self.now ≡ most_open_files }
    {
        first_free(&self.keys)
    }

    /// The open file at a number.
    pub(crate) fn get(&self, number: usize) -> Option<Opened>
        requires { number < length self.now }
        ensures { option_map file_of result ≡ slice_index_or self.now number None }
    {
        let key = self.keys[number]?;
        self.files.get(key).copied()
    }

    /// Whether one is of this node.
    pub(crate) fn has_inode(&self, inode: u16) -> bool
        ensures { result ≡ list_any (opens inode) self.now }
    {
        for number in 0..self.keys.len() {
            if let Some(file) = self.get(number) {
                if file.inode == inode {
                    return true;
                }
            }
        }
        false
    }

    /// Whether there is one.
    pub(crate) fn has_some(&self) -> bool
        ensures { result ≡ list_any is_some self.now }
    {
        for number in 0..self.keys.len() {
            if self.get(number).is_some() {
                return true;
            }
        }
        false
    }

    /// Opens a file at a number that has none.
    pub(crate) fn insert(&mut self, number: usize, file: Opened)
        requires below { number < length self.old }
        requires free { slice_index_or self.old number None ≡ None }
        ensures { self.new ≡ slice_set self.old number (Some (file_of file)) }
    {
        let key = self.files.insert_reserved(file);
        self.keys[number] = Some(key);
    }

    /// Sets the position of the open file at a number, if there is one.
    pub(crate) fn set_position(&mut self, number: usize, position: u32)
        requires { number < length self.old }
        ensures { self.new ≡ slice_set self.old number (option_map (at_position position) (slice_index_or self.old number None)) }
    {
        if let Some(key) = self.keys[number] {
            if let Some(file) = self.files.get_mut(key) {
                file.position = position;
            }
        }
    }

    /// Lets go the open file at a number, and tells its inode.
    pub(crate) fn remove(&mut self, number: usize) -> u16
        requires { IsSome (slice_index_or self.old number None) }
        ensures inode { option_map (λ o. o.inode) (slice_index_or self.old number None) ≡ Some result }
        ensures after { self.new ≡ slice_set self.old number None }
    {
        match self.keys[number].take() {
            Some(key) => self.files.remove(key).inode,
            None => unreachable!(),
        }
    }
}
