//! What a connection answers.

use ninep::reply::{Attributes, Qid, StatfsReply};
use talks::refused::Refused;

/// The answer to a message that isn't an fsync done, before it is written.
#[derive(Drop)]
pub enum NinepAnswer {
    Refused(Refused),
    Statfs(StatfsReply),
    Open(Qid),
    Create(Qid),
    Symlink(Qid),
    Rename,
    Readlink(Vec<u8>),
    Getattr(Attributes),
    Setattr,
    /// Entries of a directory, as they are written.
    Readdir(Vec<u8>),
    /// The lock is granted.
    Lock,
    /// No lock stands in the way of this one.
    Getlock {
        start: u64,
        length: u64,
        process: u32,
    },
    Link,
    Mkdir(Qid),
    Renameat,
    Unlinkat,
    /// The most bytes of a message, and whether the version is one that is spoken here.
    Version {
        message_size: u32,
        known: bool,
    },
    Attach(Qid),
    Flush,
    Walk(Vec<Qid>),
    Read(Vec<u8>),
    Write(u32),
    Clunk,
    Remove,
}

/// What is said to a message: an answer, or that all that was written lies on the disk.
#[derive(Drop)]
pub enum Said {
    Plain(NinepAnswer),
    /// A sync was done.
    Synced,
}
