//! Requests: each by its bytes, as C lays out the structs of linux/fuse.h; and bytes that are no request. In unused fields stands 0xee.
use fields::fault::MalformedMessage;
use fuse::forgets::Forgets;
use fuse::reading::read;
use fuse::request::{Message, Request};
use std::alloc::Global;
use std::test::Fail;
use tests_texts::row_is_told;

/// Each request by its bytes: the length, the opcode, the number 0x102030405060708, node 2, user 1000, group 100, process 4711, four
/// unused bytes, and its fields.
static REQUESTS: [(&[u8], &str); 33] = [
    (
        b"+\0\0\0\x01\0\0\0\x08\x07\x06\x05\x04\x03\x02\x01\x02\0\0\0\0\0\0\0\xe8\x03\0\0d\0\0\0g\x12\0\0\
          \xee\xee\xee\xeeab\0",
        "Lookup { name: [97, 98] }",
    ),
    (
        b"\x30\0\0\0\x02\0\0\0\x08\x07\x06\x05\x04\x03\x02\x01\x02\0\0\0\0\0\0\0\xe8\x03\0\0d\0\0\0g\x12\0\
          \0\xee\xee\xee\xee\x02\x01\0\0\0\0\0\0",
        "Forget { count: 258 }",
    ),
    (
        b"\x38\0\0\0\x03\0\0\0\x08\x07\x06\x05\x04\x03\x02\x01\x02\0\0\0\0\0\0\0\xe8\x03\0\0d\0\0\0g\x12\0\
          \0\xee\xee\xee\xee\x01\0\0\0\xee\xee\xee\xee\x09\0\0\0\0\0\0\0",
        "Getattr { flags: 1, handle: 9 }",
    ),
    (
        b"\x80\0\0\0\x04\0\0\0\x08\x07\x06\x05\x04\x03\x02\x01\x02\0\0\0\0\0\0\0\xe8\x03\0\0d\0\0\0g\x12\0\
          \0\xee\xee\xee\xee(\0\0\0\xee\xee\xee\xee\x01\0\0\0\0\0\0\0\x02\0\0\0\0\0\0\0\x03\0\0\0\0\0\0\0\
          \x04\0\0\0\0\0\0\0\x05\0\0\0\0\0\0\0\x06\0\0\0\0\0\0\0\x07\0\0\0\x08\0\0\0\x09\0\0\0\xa4\x01\0\0\
          \xee\xee\xee\xee\x0b\0\0\0\x0c\0\0\0\xee\xee\xee\xee",
        "Setattr { valid: 40, handle: 1, size: 2, lock_owner: 3, atime: (4, 7), mtime: (5, 8), ctime: (6, 9), mode: 420, \
         uid: 11, gid: 12 }",
    ),
    (
        b"(\0\0\0\x05\0\0\0\x08\x07\x06\x05\x04\x03\x02\x01\x02\0\0\0\0\0\0\0\xe8\x03\0\0d\0\0\0g\x12\0\0\
          \xee\xee\xee\xee",
        "Readlink",
    ),
    (
        b".\0\0\0\x06\0\0\0\x08\x07\x06\x05\x04\x03\x02\x01\x02\0\0\0\0\0\0\0\xe8\x03\0\0d\0\0\0g\x12\0\0\
          \xee\xee\xee\xeel\0a/b\0",
        "Symlink { name: [108], target: [97, 47, 98] }",
    ),
    (
        b":\0\0\0\x08\0\0\0\x08\x07\x06\x05\x04\x03\x02\x01\x02\0\0\0\0\0\0\0\xe8\x03\0\0d\0\0\0g\x12\0\0\
          \xee\xee\xee\xee\xa4\x81\0\0\x03\x01\0\0\x12\0\0\0\xee\xee\xee\xeen\0",
        "Mknod { mode: 33188, device: 259, umask: 18, name: [110] }",
    ),
    (
        b"\x32\0\0\0\x09\0\0\0\x08\x07\x06\x05\x04\x03\x02\x01\x02\0\0\0\0\0\0\0\xe8\x03\0\0d\0\0\0g\x12\0\
          \0\xee\xee\xee\xee\xed\x01\0\0\x12\0\0\0d\0",
        "Mkdir { mode: 493, umask: 18, name: [100] }",
    ),
    (
        b"*\0\0\0\x0a\0\0\0\x08\x07\x06\x05\x04\x03\x02\x01\x02\0\0\0\0\0\0\0\xe8\x03\0\0d\0\0\0g\x12\0\0\
          \xee\xee\xee\xeeu\0",
        "Unlink { name: [117] }",
    ),
    (
        b"*\0\0\0\x0b\0\0\0\x08\x07\x06\x05\x04\x03\x02\x01\x02\0\0\0\0\0\0\0\xe8\x03\0\0d\0\0\0g\x12\0\0\
          \xee\xee\xee\xeer\0",
        "Rmdir { name: [114] }",
    ),
    (
        b"\x35\0\0\0\x0c\0\0\0\x08\x07\x06\x05\x04\x03\x02\x01\x02\0\0\0\0\0\0\0\xe8\x03\0\0d\0\0\0g\x12\0\
          \0\xee\xee\xee\xee\x03\0\0\0\0\0\0\0a\0bc\0",
        "Rename { new_directory: 3, old_name: [97], new_name: [98, 99] }",
    ),
    (
        b"\x32\0\0\0\x0d\0\0\0\x08\x07\x06\x05\x04\x03\x02\x01\x02\0\0\0\0\0\0\0\xe8\x03\0\0d\0\0\0g\x12\0\
          \0\xee\xee\xee\xee\x04\0\0\0\0\0\0\0k\0",
        "Link { file: 4, name: [107] }",
    ),
    (
        b"\x30\0\0\0\x0e\0\0\0\x08\x07\x06\x05\x04\x03\x02\x01\x02\0\0\0\0\0\0\0\xe8\x03\0\0d\0\0\0g\x12\0\
          \0\xee\xee\xee\xee\x02\x80\0\0\x01\0\0\0",
        "Open { flags: 32770, open_flags: 1 }",
    ),
    (
        b"P\0\0\0\x0f\0\0\0\x08\x07\x06\x05\x04\x03\x02\x01\x02\0\0\0\0\0\0\0\xe8\x03\0\0d\0\0\0g\x12\0\0\
          \xee\xee\xee\xee\x01\0\0\0\0\0\0\0\0\0\x01\0\0\0\0\0\0\x10\0\0\x02\0\0\0\x03\0\0\0\0\0\0\0\x04\0\
          \0\0\xee\xee\xee\xee",
        "Read { span: Span { handle: 1, offset: 65536, count: 4096, read_flags: 2, lock_owner: 3, flags: 4 } }",
    ),
    (
        b"R\0\0\0\x10\0\0\0\x08\x07\x06\x05\x04\x03\x02\x01\x02\0\0\0\0\0\0\0\xe8\x03\0\0d\0\0\0g\x12\0\0\
          \xee\xee\xee\xee\x01\0\0\0\0\0\0\0\0\x02\0\0\0\0\0\0\x02\0\0\0\x01\0\0\0\x03\0\0\0\0\0\0\0\x04\0\
          \0\0\xee\xee\xee\xeehi",
        "Write { handle: 1, offset: 512, write_flags: 1, lock_owner: 3, flags: 4, bytes: [104, 105] }",
    ),
    (
        b"(\0\0\0\x11\0\0\0\x08\x07\x06\x05\x04\x03\x02\x01\x02\0\0\0\0\0\0\0\xe8\x03\0\0d\0\0\0g\x12\0\0\
          \xee\xee\xee\xee",
        "Statfs",
    ),
    (
        b"@\0\0\0\x12\0\0\0\x08\x07\x06\x05\x04\x03\x02\x01\x02\0\0\0\0\0\0\0\xe8\x03\0\0d\0\0\0g\x12\0\0\
          \xee\xee\xee\xee\x01\0\0\0\0\0\0\0\x02\0\0\0\x01\0\0\0\x04\0\0\0\0\0\0\0",
        "Release { handle: 1, flags: 2, release_flags: 1, lock_owner: 4 }",
    ),
    (
        b"\x38\0\0\0\x14\0\0\0\x08\x07\x06\x05\x04\x03\x02\x01\x02\0\0\0\0\0\0\0\xe8\x03\0\0d\0\0\0g\x12\0\
          \0\xee\xee\xee\xee\x05\0\0\0\0\0\0\0\x01\0\0\0\xee\xee\xee\xee",
        "Fsync { handle: 5, fsync_flags: 1 }",
    ),
    (
        b"@\0\0\0\x19\0\0\0\x08\x07\x06\x05\x04\x03\x02\x01\x02\0\0\0\0\0\0\0\xe8\x03\0\0d\0\0\0g\x12\0\0\
          \xee\xee\xee\xee\x05\0\0\0\0\0\0\0\xee\xee\xee\xee\xee\xee\xee\xee\x06\0\0\0\0\0\0\0",
        "Flush { handle: 5, lock_owner: 6 }",
    ),
    (
        b"\x38\0\0\0\x1a\0\0\0\x08\x07\x06\x05\x04\x03\x02\x01\x02\0\0\0\0\0\0\0\xe8\x03\0\0d\0\0\0g\x12\0\
          \0\xee\xee\xee\xee\x07\0\0\0\x1f\0\0\0\0\0\x02\0!\0\0\0",
        "Init { major: 7, minor: 31, readahead: 131072, flags: 33, more: [] }",
    ),
    (
        b"\x30\0\0\0\x1b\0\0\0\x08\x07\x06\x05\x04\x03\x02\x01\x02\0\0\0\0\0\0\0\xe8\x03\0\0d\0\0\0g\x12\0\
          \0\xee\xee\xee\xee\0\0\x01\0\0\0\0\0",
        "Opendir { flags: 65536, open_flags: 0 }",
    ),
    (
        b"P\0\0\0\x1c\0\0\0\x08\x07\x06\x05\x04\x03\x02\x01\x02\0\0\0\0\0\0\0\xe8\x03\0\0d\0\0\0g\x12\0\0\
          \xee\xee\xee\xee\x01\0\0\0\0\0\0\0\x02\0\0\0\0\0\0\0\0\x10\0\0\0\0\0\0\x03\0\0\0\0\0\0\0\x04\0\0\
          \0\xee\xee\xee\xee",
        "Readdir { span: Span { handle: 1, offset: 2, count: 4096, read_flags: 0, lock_owner: 3, flags: 4 } }",
    ),
    (
        b"@\0\0\0\x1d\0\0\0\x08\x07\x06\x05\x04\x03\x02\x01\x02\0\0\0\0\0\0\0\xe8\x03\0\0d\0\0\0g\x12\0\0\
          \xee\xee\xee\xee\x01\0\0\0\0\0\0\0\x02\0\0\0\0\0\0\0\x04\0\0\0\0\0\0\0",
        "Releasedir { handle: 1, flags: 2, release_flags: 0, lock_owner: 4 }",
    ),
    (
        b"\x38\0\0\0\x1e\0\0\0\x08\x07\x06\x05\x04\x03\x02\x01\x02\0\0\0\0\0\0\0\xe8\x03\0\0d\0\0\0g\x12\0\
          \0\xee\xee\xee\xee\x05\0\0\0\0\0\0\0\0\0\0\0\xee\xee\xee\xee",
        "Fsyncdir { handle: 5, fsync_flags: 0 }",
    ),
    (
        b"\x30\0\0\0\x22\0\0\0\x08\x07\x06\x05\x04\x03\x02\x01\x02\0\0\0\0\0\0\0\xe8\x03\0\0d\0\0\0g\x12\0\
          \0\xee\xee\xee\xee\x04\0\0\0\xee\xee\xee\xee",
        "Access { mask: 4 }",
    ),
    (
        b":\0\0\0#\0\0\0\x08\x07\x06\x05\x04\x03\x02\x01\x02\0\0\0\0\0\0\0\xe8\x03\0\0d\0\0\0g\x12\0\0\xee\
          \xee\xee\xeeB\0\0\0\xa4\x81\0\0\x12\0\0\0\x01\0\0\0c\0",
        "Create { flags: 66, mode: 33188, umask: 18, open_flags: 1, name: [99] }",
    ),
    (
        b"\x30\0\0\0$\0\0\0\x08\x07\x06\x05\x04\x03\x02\x01\x02\0\0\0\0\0\0\0\xe8\x03\0\0d\0\0\0g\x12\0\0\
          \xee\xee\xee\xee\x02\x01\0\0\0\0\0\0",
        "Interrupt { unique: 258 }",
    ),
    (
        b"(\0\0\0&\0\0\0\x08\x07\x06\x05\x04\x03\x02\x01\x02\0\0\0\0\0\0\0\xe8\x03\0\0d\0\0\0g\x12\0\0\xee\
          \xee\xee\xee",
        "Destroy",
    ),
    (
        b"@\0\0\0*\0\0\0\x08\x07\x06\x05\x04\x03\x02\x01\x02\0\0\0\0\0\0\0\xe8\x03\0\0d\0\0\0g\x12\0\0\xee\
          \xee\xee\xee\x01\0\0\0\xee\xee\xee\xee\x02\0\0\0\0\0\0\0\x03\0\0\0\0\0\0\0",
        "BatchForget { nodes: Forgets { count: 1, bytes: [2, 0, 0, 0, 0, 0, 0, 0, 3, 0, 0, 0, 0, 0, 0, 0] } }",
    ),
    (
        b"P\0\0\0,\0\0\0\x08\x07\x06\x05\x04\x03\x02\x01\x02\0\0\0\0\0\0\0\xe8\x03\0\0d\0\0\0g\x12\0\0\xee\
          \xee\xee\xee\x01\0\0\0\0\0\0\0\x02\0\0\0\0\0\0\0\x03\0\0\0\x04\0\0\0\x05\0\0\0\0\0\0\0\x06\0\0\0\
          \xee\xee\xee\xee",
        "Readdirplus { span: Span { handle: 1, offset: 2, count: 3, read_flags: 4, lock_owner: 5, flags: 6 } }",
    ),
    (
        b"=\0\0\0-\0\0\0\x08\x07\x06\x05\x04\x03\x02\x01\x02\0\0\0\0\0\0\0\xe8\x03\0\0d\0\0\0g\x12\0\0\xee\
          \xee\xee\xee\x03\0\0\0\0\0\0\0\x02\0\0\0\xee\xee\xee\xeea\0bc\0",
        "Rename2 { new_directory: 3, flags: 2, old_name: [97], new_name: [98, 99] }",
    ),
    (
        b"\x32\0\0\0\x16\0\0\0\x08\x07\x06\x05\x04\x03\x02\x01\x02\0\0\0\0\0\0\0\xe8\x03\0\0d\0\0\0g\x12\0\
          \0\xee\xee\xee\xee\x07\0\0\0\xee\xee\xee\xeeu\0",
        "Unknown { opcode: 22, body: [7, 0, 0, 0, 238, 238, 238, 238, 117, 0] }",
    ),
    (
        b"(\0\0\0\0\x10\0\0\x08\x07\x06\x05\x04\x03\x02\x01\x02\0\0\0\0\0\0\0\xe8\x03\0\0d\0\0\0g\x12\0\0\
          \xee\xee\xee\xee",
        "Unknown { opcode: 4096, body: [] }",
    ),
];

/// Bytes that are no request, and the first fault from left to right.
static FAULTS: [(&[u8], MalformedMessage); 19] = [
    (b"", MalformedMessage::Short),
    (b"(\0\0", MalformedMessage::Short),
    // the length is one too small, or one too large
    (
        b"*\0\0\0\x01\0\0\0\x08\x07\x06\x05\x04\x03\x02\x01\x02\0\0\0\0\0\0\0\xe8\x03\0\0d\0\0\0g\x12\0\0\
          \xee\xee\xee\xeeab\0",
        MalformedMessage::Size,
    ),
    (
        b",\0\0\0\x01\0\0\0\x08\x07\x06\x05\x04\x03\x02\x01\x02\0\0\0\0\0\0\0\xe8\x03\0\0d\0\0\0g\x12\0\0\
          \xee\xee\xee\xeeab\0",
        MalformedMessage::Size,
    ),
    // a name has no zero, or there is no byte of it
    (
        b"*\0\0\0\x01\0\0\0\x08\x07\x06\x05\x04\x03\x02\x01\x02\0\0\0\0\0\0\0\xe8\x03\0\0d\0\0\0g\x12\0\0\
          \xee\xee\xee\xeeab",
        MalformedMessage::Short,
    ),
    (
        b"(\0\0\0\x01\0\0\0\x08\x07\x06\x05\x04\x03\x02\x01\x02\0\0\0\0\0\0\0\xe8\x03\0\0d\0\0\0g\x12\0\0\
          \xee\xee\xee\xee",
        MalformedMessage::Short,
    ),
    // of two names the second has no zero
    (
        b"+\0\0\0\x06\0\0\0\x08\x07\x06\x05\x04\x03\x02\x01\x02\0\0\0\0\0\0\0\xe8\x03\0\0d\0\0\0g\x12\0\0\
          \xee\xee\xee\xeea\0b",
        MalformedMessage::Short,
    ),
    // a zero, or a name, stands behind the name
    (
        b",\0\0\0\x01\0\0\0\x08\x07\x06\x05\x04\x03\x02\x01\x02\0\0\0\0\0\0\0\xe8\x03\0\0d\0\0\0g\x12\0\0\
          \xee\xee\xee\xeeab\0\0",
        MalformedMessage::Trailing,
    ),
    (
        b",\0\0\0\x0a\0\0\0\x08\x07\x06\x05\x04\x03\x02\x01\x02\0\0\0\0\0\0\0\xe8\x03\0\0d\0\0\0g\x12\0\0\
          \xee\xee\xee\xeea\0b\0",
        MalformedMessage::Trailing,
    ),
    // a byte stands behind the last field
    (
        b"\x31\0\0\0\x02\0\0\0\x08\x07\x06\x05\x04\x03\x02\x01\x02\0\0\0\0\0\0\0\xe8\x03\0\0d\0\0\0g\x12\0\
          \0\xee\xee\xee\xee\x01\0\0\0\0\0\0\0\0",
        MalformedMessage::Trailing,
    ),
    (
        b")\0\0\0\x11\0\0\0\x08\x07\x06\x05\x04\x03\x02\x01\x02\0\0\0\0\0\0\0\xe8\x03\0\0d\0\0\0g\x12\0\0\
          \xee\xee\xee\xee\0",
        MalformedMessage::Trailing,
    ),
    // of WRITE more is told than there is, the most that can be told, and less
    (
        b"R\0\0\0\x10\0\0\0\x08\x07\x06\x05\x04\x03\x02\x01\x02\0\0\0\0\0\0\0\xe8\x03\0\0d\0\0\0g\x12\0\0\
          \xee\xee\xee\xee\x01\0\0\0\0\0\0\0\0\0\0\0\0\0\0\0\x03\0\0\0\xee\xee\xee\xee\xee\xee\xee\xee\xee\
          \xee\xee\xee\xee\xee\xee\xee\xee\xee\xee\xeehi",
        MalformedMessage::Short,
    ),
    (
        b"R\0\0\0\x10\0\0\0\x08\x07\x06\x05\x04\x03\x02\x01\x02\0\0\0\0\0\0\0\xe8\x03\0\0d\0\0\0g\x12\0\0\
          \xee\xee\xee\xee\x01\0\0\0\0\0\0\0\0\0\0\0\0\0\0\0\xff\xff\xff\xff\xee\xee\xee\xee\xee\xee\xee\
          \xee\xee\xee\xee\xee\xee\xee\xee\xee\xee\xee\xee\xeehi",
        MalformedMessage::Short,
    ),
    (
        b"R\0\0\0\x10\0\0\0\x08\x07\x06\x05\x04\x03\x02\x01\x02\0\0\0\0\0\0\0\xe8\x03\0\0d\0\0\0g\x12\0\0\
          \xee\xee\xee\xee\x01\0\0\0\0\0\0\0\0\0\0\0\0\0\0\0\x01\0\0\0\xee\xee\xee\xee\xee\xee\xee\xee\xee\
          \xee\xee\xee\xee\xee\xee\xee\xee\xee\xee\xeehi",
        MalformedMessage::Trailing,
    ),
    // of BATCH_FORGET likewise
    (
        b"@\0\0\0*\0\0\0\x08\x07\x06\x05\x04\x03\x02\x01\x02\0\0\0\0\0\0\0\xe8\x03\0\0d\0\0\0g\x12\0\0\xee\
          \xee\xee\xee\x02\0\0\0\xee\xee\xee\xee\x02\0\0\0\0\0\0\0\x03\0\0\0\0\0\0\0",
        MalformedMessage::Short,
    ),
    (
        b"@\0\0\0*\0\0\0\x08\x07\x06\x05\x04\x03\x02\x01\x02\0\0\0\0\0\0\0\xe8\x03\0\0d\0\0\0g\x12\0\0\xee\
          \xee\xee\xee\xff\xff\xff\xff\xee\xee\xee\xee\x02\0\0\0\0\0\0\0\x03\0\0\0\0\0\0\0",
        MalformedMessage::Short,
    ),
    (
        b"@\0\0\0*\0\0\0\x08\x07\x06\x05\x04\x03\x02\x01\x02\0\0\0\0\0\0\0\xe8\x03\0\0d\0\0\0g\x12\0\0\xee\
          \xee\xee\xee\0\0\0\0\xee\xee\xee\xee\x02\0\0\0\0\0\0\0\x03\0\0\0\0\0\0\0",
        MalformedMessage::Trailing,
    ),
    // behind the 16 bytes of INIT a part of the 48, or one more
    (
        b"g\0\0\0\x1a\0\0\0\x08\x07\x06\x05\x04\x03\x02\x01\x02\0\0\0\0\0\0\0\xe8\x03\0\0d\0\0\0g\x12\0\0\
          \xee\xee\xee\xee\x07\0\0\0&\0\0\0\0\0\0\0\0\0\0\0\0\0\0\0\0\0\0\0\0\0\0\0\0\0\0\0\0\0\0\0\0\0\0\
          \0\0\0\0\0\0\0\0\0\0\0\0\0\0\0\0\0\0\0\0\0\0\0\0",
        MalformedMessage::Short,
    ),
    (
        b"i\0\0\0\x1a\0\0\0\x08\x07\x06\x05\x04\x03\x02\x01\x02\0\0\0\0\0\0\0\xe8\x03\0\0d\0\0\0g\x12\0\0\
          \xee\xee\xee\xee\x07\0\0\0&\0\0\0\0\0\0\0\0\0\0\0\0\0\0\0\0\0\0\0\0\0\0\0\0\0\0\0\0\0\0\0\0\0\0\
          \0\0\0\0\0\0\0\0\0\0\0\0\0\0\0\0\0\0\0\0\0\0\0\0\0\0",
        MalformedMessage::Trailing,
    ),
];

/// The rows of `REQUESTS`. No other function names the table, since the check goes over all of it for each that does.
fn requests() -> &'static [(&'static [u8], &'static str)] {
    &REQUESTS
}

/// The request of a message with the number, the node and who asks of the rows.
fn request_of(bytes: &[u8]) -> Option<Request<'_>> {
    match read(bytes) {
        Ok(
            Message {
                unique: 0x0102030405060708,
                node: 2,
                uid: 1000,
                gid: 100,
                pid: 4711,
                request,
            },
        ) => Some(request),
        _ => None,
    }
}

/// It is an error where a row's bytes aren't read as this request.
fn is_read(alloc: Global, row: usize, bytes: &[u8], wanted: &str) -> Result<(), Fail> {
    let Some(request) = request_of(bytes) else {
        return Err(Fail::new(format_args!("row {row} isn't read")));
    };
    let shown = format!(in alloc; "{request:?}")?;
    row_is_told(row, shown.as_str(), wanted)
}

/// Each request is read as its bytes say, with its number, its node and who asks.
#[test]
fn requests_are_read(rt: HostRuntime) -> Result<(), Fail> {
    for (row, (bytes, wanted)) in requests().iter().enumerate() {
        is_read(rt.alloc(), row, bytes, wanted)?;
    }
    Ok(())
}

/// It is an error where bytes aren't refused by this fault.
fn is_refused(row: usize, bytes: &[u8], wanted: MalformedMessage) -> Result<(), Fail> {
    match read(bytes) {
        Err(fault) if fault == wanted => Ok(()),
        _ => Err(Fail::new(format_args!("row {row}, {} bytes", bytes.len()))),
    }
}

/// The beginnings of a row's bytes are refused.
fn beginnings_are_refused(row: usize, bytes: &[u8]) -> Result<(), Fail> {
    for end in 0..bytes.len() {
        let wanted = if end < 4 {
            MalformedMessage::Short
        } else {
            MalformedMessage::Size
        };
        is_refused(row, &bytes[..end], wanted)?;
    }
    Ok(())
}

/// A request whose last bytes are gone has another length.
#[test]
fn no_beginning_is_a_request() -> Result<(), Fail> {
    for (row, (bytes, _)) in requests().iter().enumerate() {
        beginnings_are_refused(row, bytes)?;
    }
    Ok(())
}

/// Bytes with others behind them, and with their length put right.
fn put_right(alloc: Global, bytes: &[u8], more: &[u8]) -> Result<Vec<u8>, Fail> {
    let mut message = bytes.to_vec(alloc)?;
    message.extend_from_slice(more)?;
    let Ok(length) = u8::try_from(message.len()) else {
        return Err(Fail::from("a long row"));
    };
    if let Some(first) = message.first_mut() {
        *first = length;
    }
    Ok(message)
}

/// The beginnings of a row's bytes are short where their length is put right.
fn beginnings_are_short(alloc: Global, row: usize, bytes: &[u8]) -> Result<(), Fail> {
    for end in 4..bytes.len() {
        let message = put_right(alloc, &bytes[..end], &[])?;
        is_refused(row, &message, MalformedMessage::Short)?;
    }
    Ok(())
}

/// A row's bytes have one behind them where there is one more, and their length is put right.
fn a_byte_more_is_refused(alloc: Global, row: usize, bytes: &[u8]) -> Result<(), Fail> {
    let message = put_right(alloc, bytes, &[0])?;
    is_refused(row, &message, MalformedMessage::Trailing)
}

/// Whether these bytes are a request that may have more of them.
fn may_have_more(bytes: &[u8]) -> bool {
    matches!(
        read(bytes),
        Ok(Message {
            request: Request::Unknown { .. } | Request::Init { .. },
            ..
        })
    )
}

/// A request whose last bytes are gone is short where its length is put right, and one with a byte more has a byte behind it; but for
/// one that isn't known, which has any bytes.
#[test]
fn lengths_are_put_right(rt: HostRuntime) -> Result<(), Fail> {
    for (row, (bytes, _)) in requests().iter().enumerate() {
        if !may_have_more(bytes) {
            beginnings_are_short(rt.alloc(), row, bytes)?;
            a_byte_more_is_refused(rt.alloc(), row, bytes)?;
        }
    }
    Ok(())
}

/// Each fault is the first one.
#[test]
fn faults_are_named() -> Result<(), Fail> {
    for (row, (bytes, wanted)) in FAULTS.iter().enumerate() {
        is_refused(row, bytes, *wanted)?;
    }
    Ok(())
}

/// INIT as kernels since 7.36 send it: 104 bytes, of which the last 48 are `MORE`.
const LONG_INIT: &[u8] =
    b"h\0\0\0\x1a\0\0\0\0\0\0\0\0\0\0\0\0\0\0\0\0\0\0\0\0\0\0\0\0\0\0\0\0\0\0\0\0\0\0\0\x07\0\0\0&\0\0\0\
      \0\0\0\0\0\0\0@\x01\0\0\0\0\0\0\0\0\0\0\0\0\0\0\0\0\0\0\0\0\0\0\0\0\0\0\0\0\0\0\0\0\0\0\0\0\0\0\0\
      \0\0\0\0\0\0\0\0";

const MORE: &[u8] =
    b"\x01\0\0\0\0\0\0\0\0\0\0\0\0\0\0\0\0\0\0\0\0\0\0\0\0\0\0\0\0\0\0\0\0\0\0\0\0\0\0\0\0\0\0\0\0\0\0\0";

/// What stands behind the flags of an INIT with the numbers of `LONG_INIT`.
fn more_of(bytes: &[u8]) -> Option<&[u8]> {
    match read(bytes) {
        Ok(
            Message {
                request: Request::Init {
                    major: 7,
                    minor: 38,
                    readahead: 0,
                    flags: 0x4000_0000,
                    more,
                },
                ..
            },
        ) => Some(more),
        _ => None,
    }
}

/// `LONG_INIT` is read with all that stands behind its flags.
#[test]
fn a_long_init_is_read() -> Result<(), Fail> {
    match more_of(LONG_INIT) {
        Some(more) if more == MORE => Ok(()),
        other => Err(Fail::new(format_args!("{other:?} stands behind it"))),
    }
}

/// A BATCH_FORGET of node 2, three times, and node 256, once.
const TWO_FORGETS: &[u8] =
    b"P\0\0\0*\0\0\0\0\0\0\0\0\0\0\0\0\0\0\0\0\0\0\0\0\0\0\0\0\0\0\0\0\0\0\0\0\0\0\0\x02\0\0\0\0\0\0\0\
      \x02\0\0\0\0\0\0\0\x03\0\0\0\0\0\0\0\0\x01\0\0\0\0\0\0\x01\0\0\0\0\0\0\0";

/// The nodes that bytes say are forgotten.
fn nodes_of(bytes: &[u8]) -> Option<Forgets<'_>> {
    match read(bytes) {
        Ok(
            Message {
                request: Request::BatchForget { nodes },
                ..
            },
        ) => Some(nodes),
        _ => None,
    }
}

/// The nodes of a BATCH_FORGET are taken one by one.
#[test]
fn nodes_are_taken_apart() -> Result<(), Fail> {
    let Some(nodes) = nodes_of(TWO_FORGETS) else {
        return Err(Fail::from("not read"));
    };
    let Some(((2, 3), rest)) = nodes.split_first() else {
        return Err(Fail::from("the first node"));
    };
    let Some(((256, 1), none)) = rest.split_first() else {
        return Err(Fail::from("the second node"));
    };
    if nodes.len() != 2 || rest.len() != 1 || !none.is_empty() || none.split_first().is_some() {
        return Err(Fail::from("how many they are"));
    }
    Ok(())
}
