//! What a server answers.

/// The attributes of a file. Times are seconds and nanoseconds.
#[derive(Clone, Copy, Debug, PartialEq, Eq)]
pub struct Attributes {
    pub inode: u64,
    pub size: u64,
    /// Blocks of 512 bytes.
    pub blocks: u64,
    pub atime: (u64, u32),
    pub mtime: (u64, u32),
    pub ctime: (u64, u32),
    pub mode: u32,
    pub links: u32,
    pub uid: u32,
    pub gid: u32,
    pub device: u32,
    pub block_size: u32,
    pub flags: u32,
}

/// What a name leads to. Node 0: to nothing, which the kernel may keep as long as a name. Times are seconds and nanoseconds.
#[derive(Clone, Copy, Debug, PartialEq, Eq)]
pub struct Entry {
    pub node: u64,
    /// A node's number is another one's only under another generation.
    pub generation: u64,
    /// How long the kernel may keep the name.
    pub name_valid: (u64, u32),
    /// How long the kernel may keep the attributes.
    pub attributes_valid: (u64, u32),
    pub attributes: Attributes,
}

/// A file or directory that was opened.
#[derive(Clone, Copy, Debug, PartialEq, Eq)]
pub struct Opened {
    pub handle: u64,
    /// 1: it is read and written past the kernel's pages. 2: pages that the kernel keeps of it stay.
    pub flags: u32,
}

/// What is known of a volume's room.
#[derive(Clone, Copy, Debug, PartialEq, Eq)]
pub struct StatfsReply {
    pub blocks: u64,
    pub free: u64,
    pub available: u64,
    pub files: u64,
    pub free_files: u64,
    pub block_size: u32,
    /// The most bytes of a name.
    pub name_length: u32,
    pub fragment_size: u32,
}

/// What a connection begins with.
#[derive(Clone, Copy, Debug, PartialEq, Eq)]
pub struct InitReply {
    pub major: u32,
    pub minor: u32,
    /// The most bytes that the kernel reads ahead.
    pub readahead: u32,
    /// What is taken of all that the kernel offers.
    pub flags: u32,
    /// The most requests that nobody waits for; above so many the kernel counts the server as busy.
    pub background: u16,
    pub busy: u16,
    /// The most bytes of a WRITE.
    pub max_write: u32,
    /// Times are multiples of so many nanoseconds.
    pub time_unit: u32,
    /// The most pages of a message.
    pub max_pages: u16,
    pub map_alignment: u16,
    pub more_flags: u32,
}

/// The answer to a request. Numbers of errors and modes are Linux's.
#[derive(Clone, Copy, Debug)]
pub enum Reply<'a> {
    /// The request is refused, with this error: 1 to 511.
    Error {
        number: u32,
    },
    /// It is done, and there is nothing to tell.
    Done,
    Init {
        settled: InitReply,
    },
    Entry {
        entry: Entry,
    },
    /// The attributes, and how long the kernel may keep them.
    Attributes {
        valid: (u64, u32),
        attributes: Attributes,
    },
    Open {
        opened: Opened,
    },
    Create {
        entry: Entry,
        opened: Opened,
    },
    /// So many bytes were written.
    Write {
        count: u32,
    },
    Statfs {
        room: StatfsReply,
    },
    /// What READ read, the target of a link, or entries of a directory as [`push_entry`](crate::entries::push_entry) and
    /// [`push_entry_plus`](crate::entries::push_entry_plus) write them.
    Bytes {
        bytes: &'a [u8],
    },
}
