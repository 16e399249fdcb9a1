//! What a server answers.

/// What names a file to a client, whichever name leads to it.
#[derive(Clone, Copy, Debug, PartialEq, Eq)]
pub struct Qid {
    /// 0x80 for a directory, 0x02 for a symbolic link, 0 for a file.
    pub kind: u8,
    /// Changes where the file does; 0 where a client isn't to keep it.
    pub version: u32,
    /// The file's number.
    pub path: u64,
}

/// What is known of a volume's room.
#[derive(Clone, Copy, Debug, PartialEq, Eq)]
pub struct StatfsReply {
    /// The number of the kind of file system.
    pub kind: u32,
    pub block_size: u32,
    pub blocks: u64,
    pub free: u64,
    pub available: u64,
    pub files: u64,
    pub free_files: u64,
    pub id: u64,
    /// The most bytes of a name.
    pub name_length: u32,
}

/// The attributes of a file. Times are seconds and nanoseconds.
#[derive(Clone, Copy, Debug, PartialEq, Eq)]
pub struct Attributes {
    /// Which of them are told.
    pub valid: u64,
    pub qid: Qid,
    pub mode: u32,
    pub uid: u32,
    pub gid: u32,
    pub links: u64,
    pub device: u64,
    pub size: u64,
    pub block_size: u64,
    /// Blocks of 512 bytes.
    pub blocks: u64,
    pub atime: (u64, u64),
    pub mtime: (u64, u64),
    pub ctime: (u64, u64),
    pub made: (u64, u64),
    pub generation: u64,
    pub data_version: u64,
}

/// A lock that stands in the way.
#[derive(Clone, Copy, Debug)]
pub struct Held<'a> {
    pub kind: u8,
    pub start: u64,
    pub length: u64,
    pub process: u32,
    pub client: &'a [u8],
}

/// The answer to a request. Numbers of errors, modes and statuses are Linux's.
#[derive(Clone, Copy, Debug)]
pub enum Reply<'a> {
    /// The request is refused, with this error.
    Error {
        number: u32,
    },
    Statfs {
        room: StatfsReply,
    },
    /// The unit is the most bytes that are best moved at once, 0 where that is the message's size.
    Open {
        qid: Qid,
        unit: u32,
    },
    Create {
        qid: Qid,
        unit: u32,
    },
    Symlink {
        qid: Qid,
    },
    Rename,
    Readlink {
        target: &'a [u8],
    },
    Getattr {
        attributes: Attributes,
    },
    Setattr,
    /// Entries, as [`push_entry`](crate::entries::push_entry) writes them.
    Readdir {
        entries: &'a [u8],
    },
    Fsync,
    Lock {
        status: u8,
    },
    Getlock {
        held: Held<'a>,
    },
    Link,
    Mkdir {
        qid: Qid,
    },
    Renameat,
    Unlinkat,
    Version {
        message_size: u32,
        version: &'a [u8],
    },
    Attach {
        qid: Qid,
    },
    Flush,
    /// What the names lead to, each in turn, up to the first that leads nowhere.
    Walk {
        qids: &'a [Qid],
    },
    Read {
        bytes: &'a [u8],
    },
    Write {
        count: u32,
    },
    Clunk,
    Remove,
}
