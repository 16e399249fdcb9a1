//! What is said to a message, before it is written.

use fuse::reply::{Attributes, Entry, InitReply, Opened, StatfsReply};
use talks::refused::Refused;

/// The answer to a message that is neither a sync done nor a name that leads to nothing.
#[derive(Drop)]
pub(crate) enum FuseAnswer {
    Refused(Refused),
    /// The request isn't one that is answered here: the kernel does without, and mostly asks no more.
    Unknown,
    /// The protocol has another version than the one that is spoken here.
    OtherVersion,
    /// It is done, and there is nothing to tell.
    Done,
    Init(InitReply),
    Entry(Entry),
    Attributes(Attributes),
    Open(Opened),
    Create(Entry, Opened),
    Write(u32),
    Statfs(StatfsReply),
    /// What a READ read, a link's target, or entries of a directory as they are written.
    Bytes(Vec<u8>),
}

/// What is said to a message: an answer, that all that was written lies on the disk, or that a name leads to nothing.
#[derive(Drop)]
pub(crate) enum Said {
    Plain(FuseAnswer),
    /// A sync was done.
    Synced,
    /// A name was looked for, and leads to nothing.
    Missing,
}
