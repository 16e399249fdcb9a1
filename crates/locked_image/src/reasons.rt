//! Why the system refuses a file, in the words that users know.

use std::io::{self, ErrorKind};

/// What an error of a file means (POSIX; own for what these programs refuse themselves: no file, and no free name beside it).
pub fn why(error: &io::Error) -> &'static str {
    match error.kind() {
        ErrorKind::NotFound => "no such file or directory",
        ErrorKind::PermissionDenied => "permission denied",
        ErrorKind::IsADirectory => "is a directory",
        ErrorKind::NotADirectory => "not a directory",
        ErrorKind::InvalidInput => "not a file",
        ErrorKind::InvalidFilename => "file name too long",
        ErrorKind::FilesystemLoop => "too many levels of symbolic links",
        ErrorKind::ReadOnlyFilesystem => "read-only file system",
        ErrorKind::StorageFull => "no space left on device",
        ErrorKind::QuotaExceeded => "disk quota exceeded",
        ErrorKind::FileTooLarge => "file too large",
        ErrorKind::AlreadyExists => "no free name beside it",
        ErrorKind::OutOfMemory => "no memory",
        _ => "input/output error",
    }
}
