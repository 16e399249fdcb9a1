//! The numbers of requests: those that are read, and others of the protocol, which are `Request::Unknown`.

/// `Request::Lookup`.
pub const LOOKUP: u32 = 1;

/// `Request::Forget`.
pub const FORGET: u32 = 2;

/// `Request::Getattr`.
pub const GETATTR: u32 = 3;

/// `Request::Setattr`.
pub const SETATTR: u32 = 4;

/// `Request::Readlink`.
pub const READLINK: u32 = 5;

/// `Request::Symlink`.
pub const SYMLINK: u32 = 6;

/// `Request::Mknod`.
pub const MKNOD: u32 = 8;

/// `Request::Mkdir`.
pub const MKDIR: u32 = 9;

/// `Request::Unlink`.
pub const UNLINK: u32 = 10;

/// `Request::Rmdir`.
pub const RMDIR: u32 = 11;

/// `Request::Rename`.
pub const RENAME: u32 = 12;

/// `Request::Link`.
pub const LINK: u32 = 13;

/// `Request::Open`.
pub const OPEN: u32 = 14;

/// `Request::Read`.
pub const READ: u32 = 15;

/// `Request::Write`.
pub const WRITE: u32 = 16;

/// `Request::Statfs`.
pub const STATFS: u32 = 17;

/// `Request::Release`.
pub const RELEASE: u32 = 18;

/// `Request::Fsync`.
pub const FSYNC: u32 = 20;

/// `Request::Flush`.
pub const FLUSH: u32 = 25;

/// `Request::Init`.
pub const INIT: u32 = 26;

/// `Request::Opendir`.
pub const OPENDIR: u32 = 27;

/// `Request::Readdir`.
pub const READDIR: u32 = 28;

/// `Request::Releasedir`.
pub const RELEASEDIR: u32 = 29;

/// `Request::Fsyncdir`.
pub const FSYNCDIR: u32 = 30;

/// `Request::Access`.
pub const ACCESS: u32 = 34;

/// `Request::Create`.
pub const CREATE: u32 = 35;

/// `Request::Interrupt`.
pub const INTERRUPT: u32 = 36;

/// `Request::Destroy`.
pub const DESTROY: u32 = 38;

/// `Request::BatchForget`.
pub const BATCH_FORGET: u32 = 42;

/// `Request::Readdirplus`.
pub const READDIRPLUS: u32 = 44;

/// `Request::Rename2`.
pub const RENAME2: u32 = 45;

/// Sets an extended attribute: it is read as `Request::Unknown`.
pub const SETXATTR: u32 = 21;

/// An extended attribute: it is read as `Request::Unknown`.
pub const GETXATTR: u32 = 22;

/// The names of extended attributes: it is read as `Request::Unknown`.
pub const LISTXATTR: u32 = 23;

/// Takes an extended attribute away: it is read as `Request::Unknown`.
pub const REMOVEXATTR: u32 = 24;

/// Which lock stands in the way: it is read as `Request::Unknown`.
pub const GETLK: u32 = 31;

/// A lock, or its end: it is read as `Request::Unknown`.
pub const SETLK: u32 = 32;

/// A lock that is waited for: it is read as `Request::Unknown`.
pub const SETLKW: u32 = 33;

/// Where a block of a file lies: it is read as `Request::Unknown`.
pub const BMAP: u32 = 37;

/// A call of a device: it is read as `Request::Unknown`.
pub const IOCTL: u32 = 39;

/// Whether a file can be read or written: it is read as `Request::Unknown`.
pub const POLL: u32 = 40;

/// Room for a part of a file: it is read as `Request::Unknown`.
pub const FALLOCATE: u32 = 43;

/// Where the next data or hole begins: it is read as `Request::Unknown`.
pub const LSEEK: u32 = 46;

/// Bytes from file to file: it is read as `Request::Unknown`.
pub const COPY_FILE_RANGE: u32 = 47;

/// Has all that was written reach the disk: it is read as `Request::Unknown`.
pub const SYNCFS: u32 = 50;

/// A file without a name: it is read as `Request::Unknown`.
pub const TMPFILE: u32 = 51;
