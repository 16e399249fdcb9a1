//! Handles: what the kernel has opened, by its numbers.

ghost use Rattle.std.specs.Prelude.{◌≡◌, None, IfOk, OnOk, OnErr};
ghost use Rattle.std.specs.Result.{result_map_both};

use errno::Errno;
use std::alloc::{AllocError, Global};
use std::collections::BTreeMap;
use talks::refused::Refused;
use tree::Entry;

/// The names of a directory, as they were at a time.
#[derive(Drop)]
pub struct Names {
    /// The directory's inode.
    pub own: u16,
    /// The inode of the directory in which it stood.
    pub above: u16,
    /// Its names, in the order of their bytes, without `.` and `..`.
    pub entries: Vec<Entry>,
}

/// What is open.
#[derive(Drop)]
pub enum Handle {
    /// A file: the number of its node.
    File { node: u64 },
    /// A directory: the number of its node, and its names, once they were asked for.
    Directory { node: u64, names: Option<Names> },
}

impl Handle {
    ghost use Rattle.fuse_nodes.specs.Handles.{keeps, listing_of, opened_of};

    /// A directory keeps these names; a file stays as it is.
    fn keep(&mut self, kept: Names)
        ensures { opened_of self.new ≡ keeps (listing_of kept) (opened_of self.old) }
    {
        let Handle::Directory { node, .. } = &*self else {
            return;
        };
        let node = *node;
        *self = Handle::Directory {
            node,
            names: Some(kept),
        };
    }
}

/// The handles of a mount. Their numbers count up from 1, and none is used twice.
#[derive(Drop)]
pub struct Handles {
    handles: BTreeMap<u64, Handle>,
    // The number of the next handle.
    next: u64,
}

impl Handles {
    ghost use Rattle.fuse_nodes.specs.Tables.{put, changed};
    ghost use Rattle.fuse_nodes.specs.Handles.{Opened, directory_at, file_at, keeps, listing_of, names_at, open_at, opened_of, seen_handle};
    ghost use Rattle.fuse_nodes.specs.Handles.{seen_names, table_of, with_handle};

    /// None.
    pub fn new(alloc: Global) -> Handles
        ensures handles { (table_of result).handles ≡ (λ id. None) }
        ensures next { (table_of result).next ≡ 1 }
    {
        Handles {
            handles: BTreeMap::new(alloc),
            next: 1,
        }
    }

    /// A handle more; its number. An error: no memory was found, or all numbers are used, and all stays.
    fn put(&mut self, handle: Handle) -> Result<u64, AllocError>
        ensures number { IfOk result (λ id. id ≡ (table_of self.old).next) }
        ensures ok { OnOk result (table_of self.new ≡ with_handle (table_of self.old) (opened_of handle)) }
        ensures err { OnErr result (table_of self.new ≡ table_of self.old) }
    {
        let id = self.next;
        let Some(next) = id.checked_add(1) else {
            return Err(AllocError);
        };
        self.handles.insert(id, handle)?;
        self.next = next;
        Ok(id)
    }

    /// A handle of a file; its number. An error: no memory was found, or all numbers are used, and all stays.
    pub fn open_file(&mut self, node: u64) -> Result<u64, AllocError>
        ensures number { IfOk result (λ id. id ≡ (table_of self.old).next) }
        ensures ok { OnOk result (table_of self.new ≡ with_handle (table_of self.old) (Opened.File node)) }
        ensures err { OnErr result (table_of self.new ≡ table_of self.old) }
    {
        self.put(Handle::File { node })
    }

    /// A handle of a directory, whose names weren't asked for yet; its number. An error: as at `open_file`.
    pub fn open_directory(&mut self, node: u64) -> Result<u64, AllocError>
        ensures number { IfOk result (λ id. id ≡ (table_of self.old).next) }
        ensures ok { OnOk result (table_of self.new ≡ with_handle (table_of self.old) (Opened.Directory node None)) }
        ensures err { OnErr result (table_of self.new ≡ table_of self.old) }
    {
        self.put(Handle::Directory { node, names: None })
    }

    /// What is open under a number; EBADF where nothing is.
    pub fn get(&self, handle: u64) -> Result<&Handle, Refused>
        ensures { seen_handle result ≡ open_at (table_of self.now).handles handle }
    {
        match self.handles.get(&handle) {
            Some(found) => Ok(found),
            None => Err(Refused::By(Errno::EBADF)),
        }
    }

    /// The node of an open file; EBADF where nothing is open under the number, or a directory.
    pub fn file(&self, handle: u64) -> Result<u64, Refused>
        ensures { result ≡ file_at (table_of self.now).handles handle }
    {
        match self.get(handle)? {
            Handle::File { node } => Ok(*node),
            Handle::Directory { .. } => Err(Refused::By(Errno::EBADF)),
        }
    }

    /// The node of an open directory; EBADF where nothing is open under the number, or a file.
    pub fn directory(&self, handle: u64) -> Result<u64, Refused>
        ensures { result ≡ directory_at (table_of self.now).handles handle }
    {
        match self.get(handle)? {
            Handle::File { .. } => Err(Refused::By(Errno::EBADF)),
            Handle::Directory { node, .. } => Ok(*node),
        }
    }

    /// The names that are kept with an open directory; EBADF where none are, or no directory is open under the number.
    pub fn names(&self, handle: u64) -> Result<&Names, Refused>
        ensures { seen_names result ≡ names_at (table_of self.now).handles handle }
    {
        match self.get(handle)? {
            Handle::Directory {
                names: Some(names),
                ..
            } => Ok(names),
            _ => Err(Refused::By(Errno::EBADF)),
        }
    }

    /// An open directory keeps these names, in place of what it has. Nothing, where no directory is open under the number.
    pub fn keep(&mut self, handle: u64, kept: Names)
        ensures handles { (table_of self.new).handles ≡ changed (keeps (listing_of kept)) (table_of self.old).handles handle }
        ensures next { (table_of self.new).next ≡ (table_of self.old).next }
    {
        match self.handles.get_mut(&handle) {
            Some(found) => found.keep(kept),
            None => {}
        }
    }

    /// A handle is closed: what was open under the number; EBADF where nothing was, and all stays.
    pub fn close(&mut self, handle: u64) -> Result<Handle, Refused>
        ensures closed { result_map_both opened_of (λ e. e) result ≡ open_at (table_of self.old).handles handle }
        ensures handles { (table_of self.new).handles ≡ put (table_of self.old).handles handle None }
        ensures next { (table_of self.new).next ≡ (table_of self.old).next }
    {
        match self.handles.remove(&handle) {
            Some(closed) => Ok(closed),
            None => Err(Refused::By(Errno::EBADF)),
        }
    }
}
