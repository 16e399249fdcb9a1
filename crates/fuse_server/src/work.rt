//! What a message may name.

ghost use Rattle.std.specs.Prelude.{◌≡◌, ◌∷◌, [], IfOk};
ghost use Rattle.fuse_nodes.specs.Known.{known_of};
ghost use Rattle.fuse_nodes.specs.Changes.{descriptor_of};
ghost use Rattle.fuse_server.specs.Plans.{plan_of};
ghost use Rattle.fuse_server.specs.Reach.{IsAt, IsNamed, inode_in, reach_of, second_of};

use fuse::request::{Message, Request};
use fuse_nodes::names::check_name;
use fuse_nodes::node::Descriptor;
use fuse_nodes::nodes::Nodes;
use talks::refused::Refused;
use tree::{PathFrom, Start};

/// What a message is for. It says which calls the message may ask.
#[derive(Clone, Copy)]
pub(crate) enum Plan {
    /// Messages that ask nothing.
    Nothing,
    Look,
    Attributes,
    /// SETATTR.
    Change,
    Target,
    Room,
    Sync,
    Open,
    Read,
    Write,
    /// RELEASE and RELEASEDIR.
    Close,
    /// READDIR and READDIRPLUS.
    List,
    /// MKNOD and CREATE.
    MakeFile,
    MakeDirectory,
    /// SYMLINK.
    MakeLink,
    Link,
    Unlink,
    Rmdir,
    Rename,
}

/// What a request is for.
fn plan_of(request: &Request<'_>) -> Plan
    ensures { result ≡ plan_of request.now }
{
    match request {
        Request::Lookup { .. } => Plan::Look,
        Request::Getattr { .. } => Plan::Attributes,
        Request::Setattr { .. } => Plan::Change,
        Request::Readlink => Plan::Target,
        Request::Symlink { .. } => Plan::MakeLink,
        Request::Mknod { .. } | Request::Create { .. } => Plan::MakeFile,
        Request::Mkdir { .. } => Plan::MakeDirectory,
        Request::Unlink { .. } => Plan::Unlink,
        Request::Rmdir { .. } => Plan::Rmdir,
        Request::Rename { .. } | Request::Rename2 { .. } => Plan::Rename,
        Request::Link { .. } => Plan::Link,
        Request::Open { .. } => Plan::Open,
        Request::Read { .. } => Plan::Read,
        Request::Write { .. } => Plan::Write,
        Request::Statfs => Plan::Room,
        Request::Release { .. } | Request::Releasedir { .. } => Plan::Close,
        Request::Fsync { .. } | Request::Fsyncdir { .. } => Plan::Sync,
        Request::Readdir { .. } | Request::Readdirplus { .. } => Plan::List,
        _ => Plan::Nothing,
    }
}

/// What a message may name: the inodes of its node and of the second one that a RENAME and a LINK have, where they can't be other files',
/// and the node's descriptor, if it has one; and what it is for.
#[derive(Clone, Copy)]
pub(crate) struct Reach {
    pub own: Option<u16>,
    pub other: Option<u16>,
    pub descriptor: Option<Descriptor>,
    pub plan: Plan,
}

/// What a message is answered by: the time, the number of its node, and what it may name.
#[derive(Clone, Copy)]
pub(crate) struct Work {
    pub now: u32,
    pub node: u64,
    pub reach: Reach,
}

/// The second node of a RENAME and of a LINK.
fn second_of(request: &Request<'_>) -> Option<u64>
    ensures { result ≡ second_of request.now }
{
    match request {
        Request::Rename { new_directory, .. } | Request::Rename2 { new_directory, .. } => {
            Some(*new_directory)
        }
        Request::Link { file, .. } => Some(*file),
        _ => None,
    }
}

/// The inode of a node, if it is known, and can't be another file's.
fn inode_in(nodes: &Nodes, id: Option<u64>) -> Option<u16>
    ensures { result ≡ inode_in (known_of nodes.now).nodes id }
{
    match nodes.inode(id?) {
        Ok(inode) => Some(inode),
        Err(_) => None,
    }
}

/// The descriptor of a node, if it has one.
fn descriptor_of(nodes: &Nodes, id: u64) -> Option<Descriptor>
    ensures { result ≡ descriptor_of ((known_of nodes.now).nodes id) }
{
    match nodes.get(id) {
        Ok(node) => node.descriptor,
        Err(_) => None,
    }
}

/// What a message may name, by what is known.
pub(crate) fn reach_of(nodes: &Nodes, message: &Message<'_>) -> Reach
    ensures { result ≡ reach_of (known_of nodes.now) message.now }
{
    Reach {
        own: inode_in(nodes, Some(message.node)),
        other: inode_in(nodes, second_of(&message.request)),
        descriptor: descriptor_of(nodes, message.node),
        plan: plan_of(&message.request),
    }
}

/// A path from an inode; ESTALE where there is none.
fn path_from(inode: Option<u16>, bytes: &[u8]) -> Result<PathFrom<'_>, Refused>
    ensures { IfOk result (λ path. IsAt inode bytes.now path) }
{
    match inode {
        Some(inode) => Ok(PathFrom {
            start: Start::Inode(inode),
            bytes,
        }),
        None => Err(Refused::Stale),
    }
}

impl Reach {
    /// The path of the message's node itself; ESTALE where its inode may be another file's.
    pub(crate) fn node<'a>(&self) -> Result<PathFrom<'a>, Refused>
        ensures at { IfOk result (λ path. IsAt self.now.own [] path) }
        ensures named { IfOk result (λ path. IsNamed self.now path) }
    {
        path_from(self.own, b"")
    }

    /// The path of the directory in which the message's node stands.
    pub(crate) fn above<'a>(&self) -> Result<PathFrom<'a>, Refused>
        ensures at { IfOk result (λ path. IsAt self.now.own (46 ∷ 46 ∷ []) path) }
        ensures named { IfOk result (λ path. IsNamed self.now path) }
    {
        path_from(self.own, b"..")
    }

    /// The path of a name in the message's node; EINVAL where no entry may have this name.
    pub(crate) fn below<'a>(&self, name: &'a [u8]) -> Result<PathFrom<'a>, Refused>
        ensures at { IfOk result (λ path. IsAt self.now.own name.now path) }
        ensures named { IfOk result (λ path. IsNamed self.now path) }
    {
        check_name(name)?;
        path_from(self.own, name)
    }

    /// The path of the second node itself.
    pub(crate) fn other<'a>(&self) -> Result<PathFrom<'a>, Refused>
        ensures at { IfOk result (λ path. IsAt self.now.other [] path) }
        ensures named { IfOk result (λ path. IsNamed self.now path) }
    {
        path_from(self.other, b"")
    }

    /// The path of a name in the second node; EINVAL where no entry may have this name.
    pub(crate) fn below_other<'a>(&self, name: &'a [u8]) -> Result<PathFrom<'a>, Refused>
        ensures at { IfOk result (λ path. IsAt self.now.other name.now path) }
        ensures named { IfOk result (λ path. IsNamed self.now path) }
    {
        check_name(name)?;
        path_from(self.other, name)
    }
}
