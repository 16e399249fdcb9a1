//! What a fid is.

ghost use Rattle.std.specs.Prelude.{◌≡◌};

use crate::entries::Listed;
use crate::paths::{joined, rest};
use crate::users::User;
use ninep::reply::Qid;
use std::alloc::Global;
use talks::refused::Refused;
use tree::{Attributes, MAX_PATH, Start};

/// What kind of node a fid stands on.
#[derive(Clone, Copy)]
pub enum Kind {
    File,
    Directory,
    Symlink,
}

/// The node that a fid stands on.
#[derive(Clone, Copy)]
pub struct Node {
    pub inode: u16,
    pub kind: Kind,
}

impl Node {
    ghost use Rattle.ninep_fids.specs.Nodes.{node_of, qid_of};

    /// The node with these attributes.
    pub fn of(attributes: &Attributes) -> Node
        ensures { result ≡ node_of attributes.now }
    {
        let kind = match attributes.mode / 0o10000 {
            0o04 => Kind::Directory,
            0o12 => Kind::Symlink,
            _ => Kind::File,
        };
        Node {
            inode: attributes.inode,
            kind,
        }
    }

    /// Its name to the client.
    pub fn qid(&self) -> Qid
        ensures { result ≡ qid_of self.now }
    {
        let kind = match self.kind {
            Kind::File => 0,
            Kind::Directory => 0x80,
            Kind::Symlink => 0x02,
        };
        Qid {
            kind,
            version: 0,
            path: u64::from(self.inode),
        }
    }
}

/// What a fid stands for.
#[derive(Drop)]
pub struct Fid {
    pub user: User,
    /// Where its node's name is, if it isn't gone.
    pub path: Vec<u8>,
    pub node: Node,
    /// The descriptor of its user's session, if the fid is open.
    pub descriptor: Option<u32>,
    /// Whether the node has lost that name: then the descriptor leads to it, and for user 0 its inode while the fid is open.
    pub gone: bool,
    /// The entries of an open directory, once they were asked for: later offsets of a listing are told from these.
    pub listed: Option<Listed>,
}

impl Fid {
    ghost use Rattle.ninep_fids.specs.Fids.{IsRenamed, IsUnlinked};
    ghost use Rattle.ninep_fids.specs.Directories.{entries_of};
    ghost use Rattle.ninep_fids.specs.Knowledge.{file_of, file_at, file_open, file_listed, start_of};

    /// A fid that isn't open.
    pub fn closed(user: User, path: Vec<u8>, node: Node) -> Fid
        ensures { file_of result ≡ file_at user path.items node }
    {
        Fid {
            user,
            path,
            node,
            descriptor: None,
            gone: false,
            listed: None,
        }
    }

    /// One that is open.
    pub fn open(user: User, path: Vec<u8>, node: Node, fd: u32) -> Fid
        ensures { file_of result ≡ file_open user path.items node fd }
    {
        Fid {
            user,
            path,
            node,
            descriptor: Some(fd),
            gone: false,
            listed: None,
        }
    }

    /// An open directory whose entries were taken.
    pub fn listed(user: User, path: Vec<u8>, node: Node, fd: u32, listed: Listed) -> Fid
        ensures { file_of result ≡ file_listed user path.items node fd (entries_of node.inode listed.above listed.names.items) }
    {
        Fid {
            listed: Some(listed),
            ..Fid::open(user, path, node, fd)
        }
    }

    /// Where calls start that look at its node or change it: at the root, by its name, or at the inode of a node that has lost that, for
    /// user 0. ESTALE where the fid isn't open then, so that the inode may be another file's by now, and for another user.
    pub fn start(&self) -> Result<Start, Refused>
        ensures { result ≡ start_of (file_of self.now) }
    {
        if !self.gone {
            return Ok(Start::Root);
        }
        match self.descriptor {
            Some(_) if self.user.uid == 0 => Ok(Start::Inode(self.node.inode)),
            _ => Err(Refused::Stale),
        }
    }

    /// The old name is the new one now, and what stood at the new one is gone: the fid stays on its node. Where no memory is found for
    /// its path, or that is longer than a call's may be, it counts as gone.
    pub fn rename(&mut self, alloc: Global, old: &[u8], new: &[u8])
        ensures { IsRenamed old.now new.now (file_of self.old) (file_of self.new) }
    {
        if let Some(rest) = rest(&self.path, old) {
            match joined(alloc, new, rest) {
                Ok(path) if path.len() <= MAX_PATH => self.path = path,
                _ => self.gone = true,
            }
        } else if rest(&self.path, new).is_some() {
            self.gone = true;
        }
    }

    /// The name at this path is gone.
    pub fn unlink(&mut self, path: &[u8])
        ensures { IsUnlinked path.now (file_of self.old) (file_of self.new) }
    {
        if rest(&self.path, path).is_some() {
            self.gone = true;
        }
    }
}
