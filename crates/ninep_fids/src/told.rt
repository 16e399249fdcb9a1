//! Attributes of nodes, and the room of a volume, as answers have them.

ghost use Rattle.std.specs.Prelude.{◌≡◌};
ghost use Rattle.ninep_fids.specs.Told.{room_told, attributes_told};
ghost use Rattle.talks.specs.Hearing.{target_of};

use crate::fid::Node;
use ninep::reply;
use tree::{Attributes, LinkTarget, MAX_NAME, MAX_TARGET, Statfs};

/// Linux's number of a file system over 9P.
const KIND: u32 = 0x0102_1997;

/// The bits of the attributes that are told: all that Linux counts as basic ones.
const BASIC: u64 = 0x7ff;

/// How many bytes are best moved at once, as `stat` says.
const BEST: u64 = 4096;

/// The room of the volume, as an answer has it.
pub fn room_of(room: &Statfs) -> reply::StatfsReply
    ensures { result ≡ room_told room.now }
{
    reply::StatfsReply {
        kind: KIND,
        block_size: room.block_size,
        blocks: u64::from(room.zones),
        free: u64::from(room.free_zones),
        available: u64::from(room.free_zones),
        files: u64::from(room.inodes),
        free_files: u64::from(room.free_inodes),
        id: 0,
        name_length: MAX_NAME as u32,
    }
}

/// The attributes of a node, as an answer has them. Its blocks are counted by its size.
pub fn told(attributes: &Attributes) -> reply::Attributes
    ensures { result ≡ attributes_told attributes.now }
{
    let size = u64::from(attributes.size);
    reply::Attributes {
        valid: BASIC,
        qid: Node::of(attributes).qid(),
        mode: u32::from(attributes.mode),
        uid: u32::from(attributes.uid),
        gid: u32::from(attributes.gid),
        links: u64::from(attributes.links),
        device: 0,
        size,
        block_size: BEST,
        blocks: size.div_ceil(512),
        atime: (u64::from(attributes.atime), 0),
        mtime: (u64::from(attributes.mtime), 0),
        ctime: (u64::from(attributes.ctime), 0),
        made: (0, 0),
        generation: 0,
        data_version: 0,
    }
}
