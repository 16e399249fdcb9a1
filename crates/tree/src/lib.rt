//! The file tree of a volume, the client calls on it, and their replies: the words that every layer
//! above the disk shares. Of the disk only the numbers of its blocks, zones and inodes are known here.
#![tactic(auto)]

pub mod laws;
pub mod tree_laws;

ghost use Rattle.std.specs.Prelude.{⊤, ◌≡◌, [], ◌∷◌, codes};

use bitflags::{Flag, Flags, bitflag_items};
use errno::Errno;

/// How many sessions a server has: they are numbered below it, and a call of another answers EINVAL.
pub const MAX_SESSIONS: u8 = 64;

/// How many descriptors a session has, numbered from 0; past them a call answers EMFILE.
pub const MAX_DESCRIPTORS: u32 = 32;

/// How many files all sessions together have open; past them open answers ENFILE.
pub const MAX_OPEN_FILES: usize = 128;

/// The most bytes of one read or write; past them the call answers EINVAL.
pub const MAX_TRANSFER: u32 = 65536;

/// The most bytes of a file; a write or truncate past them answers EFBIG, a seek EINVAL.
pub const MAX_SIZE: u32 = 2147483647;

/// The most bytes of the target of a symbolic link; a longer one answers ENAMETOOLONG.
pub const MAX_TARGET: usize = 1023;

/// The most links of a node; past them a call answers EMLINK.
pub const MAX_LINKS: u16 = 32767;

/// All permission bits of a mode; a mode with others answers EINVAL.
pub const MAX_PERMISSIONS: u16 = 0o777;

/// The most bytes of a name; a path with a longer one answers ENAMETOOLONG.
pub const MAX_NAME: usize = 60;

/// The most bytes of a path; a longer one answers ENAMETOOLONG.
pub const MAX_PATH: usize = 1024;

/// The user and the group that ask. User 0 may do all.
#[derive(Clone, Copy, Debug, PartialEq, Eq)]
pub struct User {
    pub uid: u16,
    pub gid: u16,
}

/// Who calls: the session, whose descriptors the call means, and the user and group that it asks for.
#[derive(Clone, Copy, Debug, PartialEq, Eq)]
pub struct Who {
    /// Below [`MAX_SESSIONS`]; a call of another session answers EINVAL.
    pub session: u8,
    pub uid: u16,
    pub gid: u16,
}

/// The flags of open. Any bits may stand here: open answers EINVAL for those that it doesn't take.
#[derive(Clone, Copy, Debug, PartialEq, Eq)]
pub struct OpenFlags(u8);

bitflag_items! {
    impl OpenFlags: u8 {
        const READ = 1;
        const WRITE = 2;
        const APPEND = 4;
        const CREATE = 8;
        const EXCLUSIVE = 16;
        const TRUNCATE = 32;
    }
}

impl Flags for OpenFlags {
    type Bits = u8;

    ghost exact = { ⊤ };

    ghost table = { (codes "READ", 1) ∷ (codes "WRITE", 2) ∷ (codes "APPEND", 4) ∷ (codes "CREATE", 8)
        ∷ (codes "EXCLUSIVE", 16) ∷ (codes "TRUNCATE", 32) ∷ [] };

    ghost set_of = { λ flags. flags.0 };

    fn flags<'a>() -> &'a [Flag<OpenFlags>] {
        OpenFlags::FLAGS
    }

    fn bits(&self) -> u8 {
        self.0
    }

    fn from_bits_retain(bits: u8) -> OpenFlags {
        OpenFlags(bits)
    }
}

impl OpenFlags {
    ghost use Rattle.tree.specs.Flags.{appends, creates, is_exclusive, reads, truncates, writes};

    /// Whether they open for reading.
    #[tactic(auto, using(crate::proofs::FlagBits::has_read))]
    pub fn reads(self) -> bool
        ensures { result ≡ reads self.0 }
    {
        self.contains(OpenFlags::READ)
    }

    /// Whether they open for writing.
    #[tactic(auto, using(crate::proofs::FlagBits::has_write))]
    pub fn writes(self) -> bool
        ensures { result ≡ writes self.0 }
    {
        self.contains(OpenFlags::WRITE)
    }

    /// Whether each write goes to the end of the file.
    #[tactic(auto, using(crate::proofs::FlagBits::has_append))]
    pub fn appends(self) -> bool
        ensures { result ≡ appends self.0 }
    {
        self.contains(OpenFlags::APPEND)
    }

    /// Whether a missing file is made.
    #[tactic(auto, using(crate::proofs::FlagBits::has_create))]
    pub fn creates(self) -> bool
        ensures { result ≡ creates self.0 }
    {
        self.contains(OpenFlags::CREATE)
    }

    /// Whether what is there is refused.
    #[tactic(auto, using(crate::proofs::FlagBits::has_exclusive))]
    pub fn is_exclusive(self) -> bool
        ensures { result ≡ is_exclusive self.0 }
    {
        self.contains(OpenFlags::EXCLUSIVE)
    }

    /// Whether a file that is there is emptied.
    #[tactic(auto, using(crate::proofs::FlagBits::has_truncate))]
    pub fn truncates(self) -> bool
        ensures { result ≡ truncates self.0 }
    {
        self.contains(OpenFlags::TRUNCATE)
    }
}

/// The place from which a seek counts.
#[derive(Clone, Copy, Debug, PartialEq, Eq)]
pub enum Whence {
    /// The start of the file.
    Set,
    /// The position of the open file.
    Cur,
    /// The end of the file.
    End,
}

/// Where a path starts.
#[derive(Clone, Copy, Debug, PartialEq, Eq)]
pub enum Start {
    /// At the root.
    Root,
    /// At the node of this number, as stat told it: for user 0, who needs no directory above it.
    Inode(u16),
}

/// A path and where it starts, as the two first arguments of POSIX `openat`. From the root it begins with
/// `/`. From a node it may have no bytes, and means the node itself then; one that begins with `/` is read
/// from the root on all the same.
#[derive(Clone, Copy, Debug, PartialEq, Eq)]
pub struct PathFrom<'a> {
    pub start: Start,
    pub bytes: &'a [u8],
}

impl<'a> PathFrom<'a> {
    ghost use Rattle.std.specs.Prelude.{◌≡◌};

    /// A path from the root.
    pub fn root(bytes: &'a [u8]) -> PathFrom<'a>
        ensures start { result.start ≡ Start.Root }
        ensures bytes { result.bytes.now ≡ bytes.now }
    {
        PathFrom {
            start: Start::Root,
            bytes,
        }
    }
}

/// A client call. `.` and `..` of a path mean what they do in POSIX, repeated slashes count as one, and
/// those at the end are dropped. A mode is permission bits
/// alone, at most octal 777. Each refusal leaves everything as it was.
#[derive(Clone, Copy, Debug, PartialEq, Eq)]
pub enum Call<'a> {
    /// Opens a file or a directory, at position 0, under the lowest free descriptor. With the create flag
    /// a missing file is made with the mode; with the truncate flag a file that is there is emptied.
    Open {
        path: PathFrom<'a>,
        flags: OpenFlags,
        mode: u16,
    },
    /// Frees a descriptor. The last one of a file without a name frees the file.
    Close {
        fd: u32,
    },
    /// The lowest free descriptor for the same open file, so with the same position.
    Dup {
        fd: u32,
    },
    /// Up to `count` bytes from the position on, which moves behind them; fewer at the end of the file.
    Read {
        fd: u32,
        count: u32,
    },
    /// Writes all the bytes at the position, or with the append flag at the end of the file, and moves the
    /// position behind them. No bytes change nothing.
    Write {
        fd: u32,
        bytes: &'a [u8],
    },
    /// Moves the position of an open file, to 0 up to [`MAX_SIZE`]; it may lie past the end.
    Seek {
        fd: u32,
        whence: Whence,
        offset: i64,
    },
    /// The attributes of what a path leads to.
    Stat {
        path: PathFrom<'a>,
    },
    /// The attributes of what a descriptor has open.
    Fstat {
        fd: u32,
    },
    /// A further name for a file.
    Link {
        old: PathFrom<'a>,
        new: PathFrom<'a>,
    },
    /// Takes a name from a file. A file without a name is freed once it isn't open.
    Unlink {
        path: PathFrom<'a>,
    },
    /// Makes an empty directory.
    Mkdir {
        path: PathFrom<'a>,
        mode: u16,
    },
    /// Removes an empty directory that isn't open.
    Rmdir {
        path: PathFrom<'a>,
    },
    /// Moves a file or a directory to another name. What stood there loses the name: a file if a file
    /// moves, an empty directory that isn't open if a directory does.
    Rename {
        old: PathFrom<'a>,
        new: PathFrom<'a>,
    },
    /// Sets the permissions, for the owner and user 0.
    Chmod {
        path: PathFrom<'a>,
        mode: u16,
    },
    /// Sets the owner and the group, for user 0.
    Chown {
        path: PathFrom<'a>,
        uid: u16,
        gid: u16,
    },
    /// Sets the times of access and of modification, in seconds since 1970, for the owner and user 0.
    Utime {
        path: PathFrom<'a>,
        atime: u32,
        mtime: u32,
    },
    /// Sets the size of a file, at most [`MAX_SIZE`]; where it grows there is a hole, which reads as zeros.
    Truncate {
        path: PathFrom<'a>,
        size: u32,
    },
    /// The names of a directory but `.` and `..`, with their inodes, in the order of their bytes.
    Readdir {
        fd: u32,
    },
    /// Answers once all that was changed lies on the disk.
    Sync,
    /// The sizes of the volume, and what is free of them.
    Statfs,
    /// Makes a symbolic link with a target of 1 to [`MAX_TARGET`] bytes, none of them zero.
    Symlink {
        target: &'a [u8],
        path: PathFrom<'a>,
    },
    /// The target of the symbolic link that a path names.
    Readlink {
        path: PathFrom<'a>,
    },
    /// The attributes of what a path names: of a symbolic link that stands last, its own.
    Lstat {
        path: PathFrom<'a>,
    },
}

/// What stat tells of a node.
#[derive(Clone, Copy, Debug, PartialEq, Eq)]
pub struct Attributes {
    /// Its number; the root's is 1.
    pub inode: u16,
    /// Its type and permissions: octal 0040000 for a directory, 0100000 for a file, 0120000 for a symbolic link, and bits of 0777.
    pub mode: u16,
    /// How many names a file has; for a directory 2 and its subdirectories.
    pub links: u16,
    pub uid: u16,
    pub gid: u16,
    /// Bytes of a file; for a directory 64 for each entry, `.` and `..` among them.
    pub size: u32,
    /// When it was made, or what utime set: reads don't change it. Seconds since 1970, as the others.
    pub atime: u32,
    /// When its bytes or names changed last, or what utime set.
    pub mtime: u32,
    /// When it changed last in any way but by a read.
    pub ctime: u32,
}

/// What statfs tells of a volume.
#[derive(Clone, Copy, Debug, PartialEq, Eq)]
pub struct Statfs {
    /// Bytes of a block, and of a zone.
    pub block_size: u32,
    /// How many data zones there are.
    pub zones: u32,
    pub free_zones: u32,
    /// How many inodes there are.
    pub inodes: u32,
    pub free_inodes: u32,
}

/// The target of a symbolic link. It is kept in place, so that none takes memory.
#[derive(Clone, Copy, Debug, PartialEq, Eq)]
pub struct LinkTarget {
    /// Its bytes, and zeros behind them.
    pub bytes: [u8; MAX_TARGET],
    /// How many they are.
    pub length: usize,
}

/// A name in a directory, and its inode.
#[derive(Debug, PartialEq, Eq, Drop)]
pub struct Entry {
    /// 1 to 60 bytes, neither `/` nor zero.
    pub name: Vec<u8>,
    pub inode: u16,
}

/// The reply to a call.
#[derive(Debug, PartialEq, Eq, Drop)]
pub enum Reply {
    /// The call is refused, and nothing is changed.
    Refused(Errno),
    /// A call that has nothing to tell succeeded.
    Done,
    /// The descriptor of open or dup.
    Descriptor(u32),
    /// The bytes of a read.
    Bytes(Vec<u8>),
    /// How many bytes were written: all of them.
    Wrote(u32),
    /// The position after a seek.
    At(u32),
    /// The attributes of stat or fstat.
    Inode(Attributes),
    /// The names of readdir.
    Names(Vec<Entry>),
    /// The room of statfs.
    Space(Statfs),
    /// The target of readlink.
    Target(LinkTarget),
}

/// The server's answer to a call.
#[derive(Debug, PartialEq, Eq, Drop)]
pub enum Outcome {
    /// A reply.
    Reply(Reply),
    /// No reply: the link to the disk has ended. Whether the call had an effect isn't told.
    Cut,
}
