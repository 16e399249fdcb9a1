//! What a node is.

ghost use Rattle.std.specs.Prelude.{◌≡◌};

/// The root's number, the protocol's.
pub const ROOT: u64 = 1;

/// A descriptor of a session.
#[derive(Clone, Copy, Debug, PartialEq, Eq)]
pub struct Descriptor {
    pub session: u8,
    pub fd: u32,
}

/// What kind of node it is.
#[derive(Clone, Copy, Debug, PartialEq, Eq)]
pub enum NodeKind {
    File,
    Directory,
    Symlink,
}

/// A node that the kernel knows, or that has handles.
#[derive(Drop)]
pub struct Node {
    pub inode: u16,
    pub kind: NodeKind,
    /// Whether its last name was taken from it.
    pub gone: bool,
    /// How often the kernel was told of it and hasn't forgotten it; past 2^64 - 1 it isn't counted further.
    pub lookups: u64,
    /// How many handles it has; past 2^32 - 1 they aren't counted further.
    pub opens: u32,
    /// The descriptor that all its handles share, if it has one now.
    pub descriptor: Option<Descriptor>,
}

impl Node {
    ghost use Rattle.fuse_nodes.specs.Known.{facts_of};
    ghost use Rattle.fuse_nodes.specs.Known.{is_stale};
    ghost use Rattle.fuse_nodes.specs.Changes.{is_used};

    /// Whether its inode may be another file's now: its last name was taken from it, and it isn't open.
    pub fn is_stale(&self) -> bool
        ensures { result ≡ is_stale (facts_of self.now) }
    {
        self.gone && self.opens == 0
    }

    /// Whether it stays known: the kernel knows it, or it has handles or a descriptor.
    pub fn is_used(&self) -> bool
        ensures { result ≡ is_used (facts_of self.now) }
    {
        self.lookups > 0 || self.opens > 0 || self.descriptor.is_some()
    }
}
