//! Attributes of nodes and the room of a volume, as answers have them.

ghost use Rattle.std.specs.Prelude.{◌≡◌, ◌/◌, ◌==◌};
ghost use Rattle.fuse_server.specs.Entries.{nothing};
ghost use Rattle.fuse_server.specs.Telling.{told_of, room_of};

use fuse::reply::{self, Entry, Opened, StatfsReply};
use fuse_nodes::node::NodeKind;
use tree::{Attributes, MAX_NAME, Statfs};

/// How long the kernel may keep names and attributes: a day. All changes come through the mount, so they stay true until the kernel itself
/// changes them.
pub(crate) const VALID: (u64, u32) = (86_400, 0);

/// How many bytes are best moved at once, as `stat` says.
const BEST: u32 = 4096;

/// The pages that the kernel has of a file stay when it is opened again.
const KEEP_PAGES: u32 = 2;

/// The kernel keeps the names of a directory that it was told, until a message of its own changes them; and when it is opened again.
const KEEP_NAMES: u32 = 0xa;

/// The type of directories.
const DIRECTORY: u16 = 0o4;

/// The type of a mode: what stands above the twelve lowest bits.
fn type_of(mode: u16) -> u16
    ensures { result ≡ mode / 4096 }
{
    mode / 0o10000
}

/// Whether a directory has this mode.
pub(crate) fn is_directory(mode: u16) -> bool
    ensures { result ≡ (mode / 4096 == 4) }
{
    type_of(mode) == DIRECTORY
}

/// What kind of node has this mode.
pub(crate) fn kind_of(mode: u16) -> NodeKind {
    match type_of(mode) {
        DIRECTORY => NodeKind::Directory,
        0o12 => NodeKind::Symlink,
        _ => NodeKind::File,
    }
}

/// The attributes of a node. Its blocks are counted by its size.
pub(crate) fn told(attributes: &Attributes) -> reply::Attributes
    ensures { result ≡ told_of attributes.now }
{
    let size = u64::from(attributes.size);
    reply::Attributes {
        inode: u64::from(attributes.inode),
        size,
        blocks: size.div_ceil(512),
        atime: (u64::from(attributes.atime), 0),
        mtime: (u64::from(attributes.mtime), 0),
        ctime: (u64::from(attributes.ctime), 0),
        mode: u32::from(attributes.mode),
        links: u32::from(attributes.links),
        uid: u32::from(attributes.uid),
        gid: u32::from(attributes.gid),
        device: 0,
        block_size: BEST,
        flags: 0,
    }
}

/// What a name leads to: a node with these attributes. No number is used for two nodes, so there is one generation.
pub(crate) fn entry_of(node: u64, attributes: &Attributes) -> Entry
    ensures node { result.node ≡ node }
    ensures attributes { result.attributes ≡ told_of attributes.now }
{
    Entry {
        node,
        generation: 0,
        name_valid: VALID,
        attributes_valid: VALID,
        attributes: told(attributes),
    }
}

/// That a name leads to nothing.
pub(crate) fn nothing() -> Entry
    ensures { result ≡ nothing }
{
    Entry {
        node: 0,
        generation: 0,
        name_valid: VALID,
        attributes_valid: (0, 0),
        attributes: reply::Attributes {
            inode: 0,
            size: 0,
            blocks: 0,
            atime: (0, 0),
            mtime: (0, 0),
            ctime: (0, 0),
            mode: 0,
            links: 0,
            uid: 0,
            gid: 0,
            device: 0,
            block_size: 0,
            flags: 0,
        },
    }
}

/// A file that was opened.
pub(crate) fn opened_file(handle: u64) -> Opened {
    Opened {
        handle,
        flags: KEEP_PAGES,
    }
}

/// A directory that was opened.
pub(crate) fn opened_directory(handle: u64) -> Opened {
    Opened {
        handle,
        flags: KEEP_NAMES,
    }
}

/// The room of the volume.
pub(crate) fn room_of(room: &Statfs) -> StatfsReply
    ensures { result ≡ room_of room.now }
{
    StatfsReply {
        blocks: u64::from(room.zones),
        free: u64::from(room.free_zones),
        available: u64::from(room.free_zones),
        files: u64::from(room.inodes),
        free_files: u64::from(room.free_inodes),
        block_size: room.block_size,
        name_length: MAX_NAME as u32,
        fragment_size: room.block_size,
    }
}
