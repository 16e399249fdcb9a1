//! Requests: each type by its bytes; and bytes that are no request.
use ninep::fault::MalformedMessage;
use ninep::reading::read;
use ninep::request::{Message, Request};
use std::alloc::Global;
use std::test::Fail;
use tests_texts::row_is_told;

/// Each request by its bytes: the size, the type, the tag 1 (of a version 65535), and its fields.
static REQUESTS: [(&[u8], &str); 28] = [
    (b"\x0b\0\0\0\x08\x01\0\x07\0\0\0", "Statfs { fid: 7 }"),
    (
        b"\x0f\0\0\0\x0c\x01\0\x07\0\0\0\x02\0\0\0",
        "Open { fid: 7, flags: 2 }",
    ),
    (
        b"\x1a\0\0\0\x0e\x01\0\x07\0\0\0\x01\0f\x42\0\0\0\xa4\x01\0\0\x05\0\0\0",
        "Create { fid: 7, name: [102], flags: 66, mode: 420, gid: 5 }",
    ),
    (
        b"\x17\0\0\0\x10\x01\0\x07\0\0\0\x01\0l\x03\0a/b\x05\0\0\0",
        "Symlink { directory: 7, name: [108], target: [97, 47, 98], gid: 5 }",
    ),
    (
        b"\x1e\0\0\0\x12\x01\0\x07\0\0\0\x01\0n\xa4\x21\0\0\x01\0\0\0\x03\0\0\0\0\0\0\0",
        "Mknod { directory: 7, name: [110], mode: 8612, major: 1, minor: 3, gid: 0 }",
    ),
    (
        b"\x12\0\0\0\x14\x01\0\x07\0\0\0\x08\0\0\0\x01\0x",
        "Rename { fid: 7, directory: 8, name: [120] }",
    ),
    (b"\x0b\0\0\0\x16\x01\0\x07\0\0\0", "Readlink { fid: 7 }"),
    (
        b"\x13\0\0\0\x18\x01\0\x07\0\0\0\xff\x07\0\0\0\0\0\0",
        "Getattr { fid: 7, mask: 2047 }",
    ),
    (
        b"\x43\0\0\0\x1a\x01\0\x07\0\0\0\x08\0\0\0\xa4\x01\0\0\x01\0\0\0\x02\0\0\0\0\x10\0\0\0\0\0\0\x03\0\0\0\0\0\0\0\x04\0\0\0\0\0\0\0\x05\0\0\0\0\0\0\0\x06\0\0\0\0\0\0\0",
        "Setattr { fid: 7, valid: 8, mode: 420, uid: 1, gid: 2, size: 4096, atime: (3, 4), mtime: (5, 6) }",
    ),
    (
        b"\x11\0\0\0\x1e\x01\0\x07\0\0\0\x09\0\0\0\0\0",
        "Xattrwalk { fid: 7, new_fid: 9, name: [] }",
    ),
    (
        b"\x1a\0\0\0\x20\x01\0\x07\0\0\0\x01\0u\x05\0\0\0\0\0\0\0\x01\0\0\0",
        "Xattrcreate { fid: 7, name: [117], size: 5, flags: 1 }",
    ),
    (
        b"\x17\0\0\0\x28\x01\0\x07\0\0\0\x02\0\0\0\0\0\0\0\0\x02\0\0",
        "Readdir { fid: 7, offset: 2, count: 512 }",
    ),
    (
        b"\x0f\0\0\0\x32\x01\0\x07\0\0\0\x01\0\0\0",
        "Fsync { fid: 7, data_only: 1 }",
    ),
    (
        b"\x27\0\0\0\x34\x01\0\x07\0\0\0\x01\x01\0\0\0\x02\0\0\0\0\0\0\0\x03\0\0\0\0\0\0\0\x04\0\0\0\x01\0c",
        "Lock { fid: 7, kind: 1, flags: 1, start: 2, length: 3, process: 4, client: [99] }",
    ),
    (
        b"\x23\0\0\0\x36\x01\0\x07\0\0\0\x01\x02\0\0\0\0\0\0\0\x03\0\0\0\0\0\0\0\x04\0\0\0\x01\0c",
        "Getlock { fid: 7, kind: 1, start: 2, length: 3, process: 4, client: [99] }",
    ),
    (
        b"\x12\0\0\0\x46\x01\0\x08\0\0\0\x07\0\0\0\x01\0k",
        "Link { directory: 8, fid: 7, name: [107] }",
    ),
    (
        b"\x16\0\0\0\x48\x01\0\x08\0\0\0\x01\0d\xed\x01\0\0\x05\0\0\0",
        "Mkdir { directory: 8, name: [100], mode: 493, gid: 5 }",
    ),
    (
        b"\x15\0\0\0\x4a\x01\0\x08\0\0\0\x01\0a\x09\0\0\0\x01\0b",
        "Renameat { old_directory: 8, old_name: [97], new_directory: 9, new_name: [98] }",
    ),
    (
        b"\x12\0\0\0\x4c\x01\0\x08\0\0\0\x01\0a\0\x02\0\0",
        "Unlinkat { directory: 8, name: [97], flags: 512 }",
    ),
    (
        b"\x15\0\0\0\x64\x01\0\0\x20\0\0\x08\09P2000.L",
        "Version { message_size: 8192, version: [57, 80, 50, 48, 48, 48, 46, 76] }",
    ),
    (
        b"\x14\0\0\0\x66\x01\0\x03\0\0\0\x01\0u\0\0\xe8\x03\0\0",
        "Auth { auth_fid: 3, user_name: [117], tree: [], uid: 1000 }",
    ),
    (
        b"\x18\0\0\0\x68\x01\0\x07\0\0\0\xff\xff\xff\xff\x01\0u\0\0\xe8\x03\0\0",
        "Attach { fid: 7, auth_fid: 4294967295, user_name: [117], tree: [], uid: 1000 }",
    ),
    (b"\x09\0\0\0\x6c\x01\0\x01\x02", "Flush { old_tag: 513 }"),
    (
        b"\x18\0\0\0\x6e\x01\0\x07\0\0\0\x09\0\0\0\x02\0\x01\0a\x02\0bc",
        "Walk { fid: 7, new_fid: 9, names: Names { count: 2, bytes: [1, 0, 97, 2, 0, 98, 99] } }",
    ),
    (
        b"\x17\0\0\0\x74\x01\0\x07\0\0\0\0\0\x01\0\0\0\0\0\0\x10\0\0",
        "Read { fid: 7, offset: 65536, count: 4096 }",
    ),
    (
        b"\x19\0\0\0\x76\x01\0\x07\0\0\0\0\0\0\0\0\0\0\0\x02\0\0\0hi",
        "Write { fid: 7, offset: 0, bytes: [104, 105] }",
    ),
    (b"\x0b\0\0\0\x78\x01\0\x07\0\0\0", "Clunk { fid: 7 }"),
    (b"\x0b\0\0\0\x7a\x01\0\x07\0\0\0", "Remove { fid: 7 }"),
];

/// Bytes that are no request, and the first fault from left to right.
static FAULTS: [(&[u8], MalformedMessage); 15] = [
    (b"", MalformedMessage::Short),
    (b"\x0b\0\0", MalformedMessage::Short),
    // the size is one too small, one too large, or counts itself alone
    (b"\x0a\0\0\0\x78\x01\0\x07\0\0\0", MalformedMessage::Size),
    (b"\x0c\0\0\0\x78\x01\0\x07\0\0\0", MalformedMessage::Size),
    (b"\x04\0\0\0", MalformedMessage::Short),
    (b"\x06\0\0\0\x78\x01", MalformedMessage::Short),
    // the type of an answer, and one that nothing has
    (b"\x0b\0\0\0\x79\x01\0\x07\0\0\0", MalformedMessage::Unknown),
    (b"\x07\0\0\0\xff\x01\0", MalformedMessage::Unknown),
    // a field is short by a byte, or one stands behind the last
    (b"\x0a\0\0\0\x78\x01\0\x07\0\0", MalformedMessage::Short),
    (
        b"\x0c\0\0\0\x78\x01\0\x07\0\0\0\0",
        MalformedMessage::Trailing,
    ),
    // a text, and data, are longer than what is there
    (
        b"\x12\0\0\0\x14\x01\0\x07\0\0\0\x08\0\0\0\x02\0x",
        MalformedMessage::Short,
    ),
    (
        b"\x19\0\0\0\x76\x01\0\x07\0\0\0\0\0\0\0\0\0\0\0\x03\0\0\0hi",
        MalformedMessage::Short,
    ),
    (
        b"\x19\0\0\0\x76\x01\0\x07\0\0\0\0\0\0\0\0\0\0\0\xff\xff\xff\xffhi",
        MalformedMessage::Short,
    ),
    // 17 names are too many, whether or not they are there; of two the second isn't
    (
        b"\x11\0\0\0\x6e\x01\0\x07\0\0\0\x09\0\0\0\x11\0",
        MalformedMessage::ManyNames,
    ),
    (
        b"\x14\0\0\0\x6e\x01\0\x07\0\0\0\x09\0\0\0\x02\0\x01\0a",
        MalformedMessage::Short,
    ),
];

/// Each request is read as its bytes say, under its tag.
#[test]
fn requests_are_read(rt: HostRuntime) -> Result<(), Fail> {
    for (row, (bytes, wanted)) in REQUESTS.iter().enumerate() {
        let Ok(Message { tag: 1, request }) = read(bytes) else {
            return Err(Fail::new(format_args!("row {row} isn't read")));
        };
        let shown = format!(in rt.alloc(); "{request:?}")?;
        row_is_told(row, shown.as_str(), wanted)?;
    }
    Ok(())
}

/// A request whose last byte is gone has another size; with the size put right its last field is short.
#[test]
fn no_beginning_is_a_request() -> Result<(), Fail> {
    for (row, (bytes, _)) in REQUESTS.iter().enumerate() {
        for end in 0..bytes.len() {
            let wanted = if end < 4 {
                MalformedMessage::Short
            } else {
                MalformedMessage::Size
            };
            if !matches!(read(&bytes[..end]), Err(fault) if fault == wanted) {
                return Err(Fail::new(format_args!("row {row}, {end} bytes")));
            }
        }
    }
    Ok(())
}

/// Each fault is the first one.
#[test]
fn faults_are_named() -> Result<(), Fail> {
    for (row, (bytes, wanted)) in FAULTS.iter().enumerate() {
        if !matches!(read(bytes), Err(fault) if fault == *wanted) {
            return Err(Fail::new(format_args!("row {row}")));
        }
    }
    Ok(())
}

/// The names of a walk are taken one by one, up to the last of 16.
#[test]
fn names_are_taken_apart() -> Result<(), Fail> {
    let mut bytes = [0u8; 65];
    bytes[0] = 65;
    bytes[4] = 110;
    bytes[15] = 16;
    for k in 0..16 {
        bytes[17 + 3 * k] = 1;
        bytes[19 + 3 * k] = b'a' + k as u8;
    }
    let Ok(
        Message {
            tag: 0,
            request: Request::Walk { names, .. },
        },
    ) = read(&bytes)
    else {
        return Err(Fail::from("not read"));
    };
    let mut names = names;
    for k in 0..16 {
        if names.len() != 16 - k || names.is_empty() {
            return Err(Fail::new(format_args!("{k} names on")));
        }
        match names.split_first() {
            Some(([letter], rest)) if *letter == b'a' + k as u8 => names = rest,
            _ => return Err(Fail::new(format_args!("name {k}"))),
        }
    }
    match names.split_first() {
        None if names.is_empty() => Ok(()),
        _ => Err(Fail::from("a name more")),
    }
}
