//! What the kernel asks.

use crate::forgets::Forgets;

/// Bytes of an open file, or entries of an open directory: from an offset on, at most so many bytes.
#[derive(Clone, Copy, Debug, PartialEq, Eq)]
pub struct Span {
    pub handle: u64,
    pub offset: u64,
    pub count: u32,
    pub read_flags: u32,
    pub lock_owner: u64,
    pub flags: u32,
}

/// A request of the kernel. A node is a number by which the kernel names a file, a handle one by which it names an open one. Names and
/// targets are bytes without the zero that ends them; numbers of flags and modes are Linux's. Times are seconds and nanoseconds.
#[derive(Clone, Copy, Debug)]
pub enum Request<'a> {
    /// The file of this name in a directory.
    Lookup {
        name: &'a [u8],
    },
    /// So many of the answers that named the node are forgotten. It has no answer.
    Forget {
        count: u64,
    },
    /// The attributes of a file. With the lowest bit of the flags it is the one that the handle has open.
    Getattr {
        flags: u32,
        handle: u64,
    },
    /// Changes the attributes that `valid` names.
    Setattr {
        valid: u32,
        handle: u64,
        size: u64,
        lock_owner: u64,
        atime: (u64, u32),
        mtime: (u64, u32),
        ctime: (u64, u32),
        mode: u32,
        uid: u32,
        gid: u32,
    },
    /// The target of a symbolic link.
    Readlink,
    /// Makes a symbolic link.
    Symlink {
        name: &'a [u8],
        target: &'a [u8],
    },
    /// Makes a file, a device node, a pipe or a socket.
    Mknod {
        mode: u32,
        device: u32,
        umask: u32,
        name: &'a [u8],
    },
    /// Makes a directory.
    Mkdir {
        mode: u32,
        umask: u32,
        name: &'a [u8],
    },
    /// Takes the name of a file away.
    Unlink {
        name: &'a [u8],
    },
    /// Takes an empty directory away.
    Rmdir {
        name: &'a [u8],
    },
    /// Moves a name from the directory of the message to another.
    Rename {
        new_directory: u64,
        old_name: &'a [u8],
        new_name: &'a [u8],
    },
    /// Another name, in the directory of the message, for a file.
    Link {
        file: u64,
        name: &'a [u8],
    },
    /// Opens a file.
    Open {
        flags: u32,
        open_flags: u32,
    },
    /// Bytes of an open file, from an offset on, at most so many.
    Read {
        span: Span,
    },
    /// Bytes into an open file, from an offset on.
    Write {
        handle: u64,
        offset: u64,
        write_flags: u32,
        lock_owner: u64,
        flags: u32,
        bytes: &'a [u8],
    },
    /// What is known of the volume's room.
    Statfs,
    /// The handle of a file is let go.
    Release {
        handle: u64,
        flags: u32,
        release_flags: u32,
        lock_owner: u64,
    },
    /// Has all that was written of a file reach the disk; with the lowest bit of the flags its bytes alone.
    Fsync {
        handle: u64,
        fsync_flags: u32,
    },
    /// A descriptor of an open file is closed.
    Flush {
        handle: u64,
        lock_owner: u64,
    },
    /// Opens the connection: the protocol's version, the most bytes that are read ahead, and what the kernel offers. `more` is empty, or
    /// the 48 bytes that kernels since 7.36 send behind the flags, of which four are flags and the others 0.
    Init {
        major: u32,
        minor: u32,
        readahead: u32,
        flags: u32,
        more: &'a [u8],
    },
    /// Opens a directory.
    Opendir {
        flags: u32,
        open_flags: u32,
    },
    /// Entries of an open directory, from an offset on, in at most so many bytes.
    Readdir {
        span: Span,
    },
    /// The handle of a directory is let go.
    Releasedir {
        handle: u64,
        flags: u32,
        release_flags: u32,
        lock_owner: u64,
    },
    /// As `Fsync`, of a directory.
    Fsyncdir {
        handle: u64,
        fsync_flags: u32,
    },
    /// Whether the asker may do this.
    Access {
        mask: u32,
    },
    /// Makes a file, and opens it.
    Create {
        flags: u32,
        mode: u32,
        umask: u32,
        open_flags: u32,
        name: &'a [u8],
    },
    /// The answer to the message of this number isn't waited for any more. It has no answer.
    Interrupt {
        unique: u64,
    },
    /// The volume is unmounted.
    Destroy,
    /// As `Forget`, of many nodes. It has no answer.
    BatchForget {
        nodes: Forgets<'a>,
    },
    /// As `Readdir`, each entry behind what `Lookup` of its name would answer.
    Readdirplus {
        span: Span,
    },
    /// As `Rename`: with 1 in the flags nothing is to stand there, with 2 the two change places.
    Rename2 {
        new_directory: u64,
        flags: u32,
        old_name: &'a [u8],
        new_name: &'a [u8],
    },
    /// A request that isn't known here, and all that stands behind its head.
    Unknown {
        opcode: u32,
        body: &'a [u8],
    },
}

/// A request with what stands before it: the number by which its answer names it, the node it is about, and who asks.
#[derive(Clone, Copy, Debug)]
pub struct Message<'a> {
    pub unique: u64,
    pub node: u64,
    pub uid: u32,
    pub gid: u32,
    pub pid: u32,
    pub request: Request<'a>,
}
