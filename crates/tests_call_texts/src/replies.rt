//! The numbers and texts of errors, the texts of replies, and the flags by their letters: expected values are the format's.
use bitflags::Flags;
use errno::Errno;
use reply_text::text::{OutcomeText, ReplyText};
use std::alloc::{AllocError, Global};
use std::test::Fail;
use tests_texts::is_told;
use tree::{Attributes, Entry, LinkTarget, OpenFlags, Outcome, Reply, Statfs};

/// Each error with its number and its name.
static ERRORS: [(Errno, &str); 19] = [
    (Errno::EPERM, "1 EPERM"),
    (Errno::ENOENT, "2 ENOENT"),
    (Errno::EIO, "5 EIO"),
    (Errno::EBADF, "9 EBADF"),
    (Errno::ENOMEM, "12 ENOMEM"),
    (Errno::EACCES, "13 EACCES"),
    (Errno::EBUSY, "16 EBUSY"),
    (Errno::EEXIST, "17 EEXIST"),
    (Errno::ENOTDIR, "20 ENOTDIR"),
    (Errno::EISDIR, "21 EISDIR"),
    (Errno::EINVAL, "22 EINVAL"),
    (Errno::ENFILE, "23 ENFILE"),
    (Errno::EMFILE, "24 EMFILE"),
    (Errno::EFBIG, "27 EFBIG"),
    (Errno::ENOSPC, "28 ENOSPC"),
    (Errno::EMLINK, "31 EMLINK"),
    (Errno::ENAMETOOLONG, "36 ENAMETOOLONG"),
    (Errno::ENOTEMPTY, "39 ENOTEMPTY"),
    (Errno::ELOOP, "40 ELOOP"),
];

/// Errors have these numbers and names.
fn errors_are_named(alloc: Global) -> Result<(), Fail> {
    for (errno, wanted) in &ERRORS {
        let given = format!(in alloc; "{} {errno}", errno.number())?;
        is_told(given.as_str(), wanted)?;
    }
    Ok(())
}

/// A reply has this text.
fn is_written(alloc: Global, reply: &Reply, wanted: &str) -> Result<(), Fail> {
    let shown = ReplyText(reply);
    is_told(format!(in alloc; "{shown}")?.as_str(), wanted)
}

/// Replies that own nothing.
fn plain_replies_are_written(alloc: Global) -> Result<(), Fail> {
    let root = Attributes {
        inode: 1,
        mode: 0o40755,
        links: 2,
        uid: 0,
        gid: 7,
        size: 128,
        atime: 50,
        mtime: 51,
        ctime: u32::MAX,
    };
    let room = Statfs {
        block_size: 1024,
        zones: 58,
        free_zones: 53,
        inodes: 32,
        free_inodes: 30,
    };
    let cases = [
        (Reply::Refused(Errno::ENAMETOOLONG), "ENAMETOOLONG"),
        (Reply::Done, "ok"),
        (Reply::Descriptor(31), "fd 31"),
        (Reply::Wrote(57344), "wrote 57344"),
        (Reply::At(67378176), "at 67378176"),
        (
            Reply::Inode(root),
            "inode 1 mode 0040755 links 2 uid 0 gid 7 size 128 times 50 51 4294967295",
        ),
        (
            Reply::Space(room),
            "block 1024 zones 58 free 53 inodes 32 free 30",
        ),
    ];
    for (reply, wanted) in &cases {
        is_written(alloc, reply, wanted)?;
    }
    Ok(())
}

/// Replies of bytes and of names.
fn lists_are_written(alloc: Global) -> Result<(), Fail> {
    let bytes = Reply::Bytes(vec![in alloc; 0, 10, 0xab, 0xff]?);
    is_written(alloc, &Reply::Bytes(Vec::new(alloc)), "bytes -")?;
    is_written(alloc, &bytes, "bytes 000aabff")?;
    let first = Entry {
        name: vec![in alloc; b'a']?,
        inode: 2,
    };
    let second = Entry {
        name: vec![in alloc; b'n', b'1', b'5']?,
        inode: 16,
    };
    let names = Reply::Names(vec![in alloc; first, second]?);
    is_written(alloc, &Reply::Names(Vec::new(alloc)), "names 0")?;
    is_written(alloc, &names, "names 2 61:2 6e3135:16")
}

/// Targets, which are written as bytes are, up to their length.
fn targets_are_written(alloc: Global) -> Result<(), Fail> {
    let mut bytes = [0u8; 1023];
    for (place, byte) in bytes.iter_mut().zip([b'd', 0xff, b'/', b'x']) {
        *place = byte;
    }
    let cases = [
        (0, "bytes -"),
        (1, "bytes 64"),
        (3, "bytes 64ff2f"),
        (5, "bytes 64ff2f7800"),
    ];
    for (length, wanted) in cases {
        is_written(alloc, &Reply::Target(LinkTarget { bytes, length }), wanted)?;
    }
    let longest = Reply::Target(LinkTarget {
        bytes: [0xa5; 1023],
        length: 1023,
    });
    is_written(alloc, &longest, longest_text(alloc)?.as_str())
}

/// The text of a target of 1023 bytes a5.
fn longest_text(alloc: Global) -> Result<String, AllocError> {
    let mut text = String::new(alloc);
    text.push_str("bytes ")?;
    for _ in 0..1023u32 {
        text.push_str("a5")?;
    }
    Ok(text)
}

/// Outcomes, and any flags.
fn outcomes_and_flags(alloc: Global) -> Result<(), Fail> {
    let (cut, done) = (Outcome::Cut, Outcome::Reply(Reply::Done));
    let (cut, done) = (OutcomeText(&cut), OutcomeText(&done));
    let given = format!(in alloc;
        "{cut} {done} {} {} {}",
        OpenFlags::READ.union(OpenFlags::CREATE).bits(),
        OpenFlags::from_bits_retain(0xff).contains(OpenFlags::TRUNCATE),
        OpenFlags::from_bits_retain(0xc0).bits()
    )?;
    is_told(given.as_str(), "cut ok 9 true 192")
}

#[test]
fn texts_are_the_formats(rt: HostRuntime) -> Result<(), Fail> {
    errors_are_named(rt.alloc())?;
    plain_replies_are_written(rt.alloc())?;
    lists_are_written(rt.alloc())?;
    targets_are_written(rt.alloc())?;
    outcomes_and_flags(rt.alloc())
}
