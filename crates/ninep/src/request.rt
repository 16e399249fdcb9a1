//! What a client asks.

use crate::names::Names;

/// A request of a client. A `fid` is a number by which the client names a file; names and targets are bytes without their lengths. Numbers
/// of flags, modes, types and errors are Linux's.
#[derive(Clone, Copy, Debug)]
pub enum Request<'a> {
    /// What is known of the volume's room.
    Statfs {
        fid: u32,
    },
    /// Opens the file of a fid.
    Open {
        fid: u32,
        flags: u32,
    },
    /// Makes a file in the directory of a fid, which is the new file's from then on, and opens it.
    Create {
        fid: u32,
        name: &'a [u8],
        flags: u32,
        mode: u32,
        gid: u32,
    },
    /// Makes a symbolic link.
    Symlink {
        directory: u32,
        name: &'a [u8],
        target: &'a [u8],
        gid: u32,
    },
    /// Makes a device node, a pipe or a socket.
    Mknod {
        directory: u32,
        name: &'a [u8],
        mode: u32,
        major: u32,
        minor: u32,
        gid: u32,
    },
    /// Moves the file of a fid into a directory, under this name.
    Rename {
        fid: u32,
        directory: u32,
        name: &'a [u8],
    },
    /// The target of a symbolic link.
    Readlink {
        fid: u32,
    },
    /// The attributes of a file; a mask says which are wanted.
    Getattr {
        fid: u32,
        mask: u64,
    },
    /// Changes the attributes that `valid` names. Times are seconds and nanoseconds.
    Setattr {
        fid: u32,
        valid: u32,
        mode: u32,
        uid: u32,
        gid: u32,
        size: u64,
        atime: (u64, u64),
        mtime: (u64, u64),
    },
    /// An extended attribute, or the list of them.
    Xattrwalk {
        fid: u32,
        new_fid: u32,
        name: &'a [u8],
    },
    /// Makes an extended attribute.
    Xattrcreate {
        fid: u32,
        name: &'a [u8],
        size: u64,
        flags: u32,
    },
    /// Entries of an open directory, from an offset on, in at most so many bytes.
    Readdir {
        fid: u32,
        offset: u64,
        count: u32,
    },
    /// Has all that was written reach the disk.
    Fsync {
        fid: u32,
        data_only: u32,
    },
    /// Asks for a lock on bytes of a file.
    Lock {
        fid: u32,
        kind: u8,
        flags: u32,
        start: u64,
        length: u64,
        process: u32,
        client: &'a [u8],
    },
    /// Which lock stands in the way.
    Getlock {
        fid: u32,
        kind: u8,
        start: u64,
        length: u64,
        process: u32,
        client: &'a [u8],
    },
    /// Another name for the file of a fid.
    Link {
        directory: u32,
        fid: u32,
        name: &'a [u8],
    },
    /// Makes a directory.
    Mkdir {
        directory: u32,
        name: &'a [u8],
        mode: u32,
        gid: u32,
    },
    /// Moves a name from one directory to another.
    Renameat {
        old_directory: u32,
        old_name: &'a [u8],
        new_directory: u32,
        new_name: &'a [u8],
    },
    /// Takes a name away.
    Unlinkat {
        directory: u32,
        name: &'a [u8],
        flags: u32,
    },
    /// Opens the connection: the most bytes of a message, and the protocol's version.
    Version {
        message_size: u32,
        version: &'a [u8],
    },
    /// Asks for a file by which a user is authenticated.
    Auth {
        auth_fid: u32,
        user_name: &'a [u8],
        tree: &'a [u8],
        uid: u32,
    },
    /// A user enters at the root of a tree.
    Attach {
        fid: u32,
        auth_fid: u32,
        user_name: &'a [u8],
        tree: &'a [u8],
        uid: u32,
    },
    /// The answer to the request with this tag isn't wanted any more.
    Flush {
        old_tag: u16,
    },
    /// A new fid for what the names lead to.
    Walk {
        fid: u32,
        new_fid: u32,
        names: Names<'a>,
    },
    /// Bytes of an open file, from an offset on, at most so many.
    Read {
        fid: u32,
        offset: u64,
        count: u32,
    },
    /// Bytes into an open file, from an offset on.
    Write {
        fid: u32,
        offset: u64,
        bytes: &'a [u8],
    },
    /// The fid is let go.
    Clunk {
        fid: u32,
    },
    /// The file of a fid is removed, and the fid is let go.
    Remove {
        fid: u32,
    },
}

/// A request with the tag by which its answer names it.
#[derive(Clone, Copy)]
pub struct Message<'a> {
    pub tag: u16,
    pub request: Request<'a>,
}
