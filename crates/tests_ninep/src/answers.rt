//! Answers: each type by its bytes; the limit of a message; entries of a directory.
ghost use Rattle.std.specs.List.{AllByRecursion};
ghost use Rattle.ninep.specs.Fields.{Fits};
ghost use Rattle.ninep.specs.Replies.{reply_fields};

use ninep::entries::{ReaddirEntry, push_entry};
use ninep::reply::{Attributes, Held, Qid, Reply, StatfsReply};
use ninep::write_refusal::WriteRefusal;
use ninep::writing::write;
use std::alloc::Global;
use std::test::Fail;

/// A directory's qid: its bytes are 80 01 00 00 00 02 00 00 00 00 00 00 00.
const QID: Qid = Qid {
    kind: 0x80,
    version: 1,
    path: 2,
};

/// An answer is written with tag 258 as these bytes.
fn is_written(alloc: Global, reply: &Reply<'_>, wanted: &[u8]) -> Result<(), Fail>
    requires { AllByRecursion Fits (reply_fields reply.now) }
{
    let mut out = Vec::new(alloc);
    out.push(9)?;
    if write(&mut out, 8192, 258, reply).is_err() {
        return Err(Fail::new(format_args!("{reply:?} isn't written")));
    }
    if out.split_first() != Some((&9, wanted)) {
        return Err(Fail::new(format_args!("{reply:?} is written as {out:?}")));
    }
    Ok(())
}

/// Answers without a field.
#[test]
fn bare_answers_are_written(rt: HostRuntime) -> Result<(), Fail> {
    let alloc = rt.alloc();
    is_written(alloc, &Reply::Rename, b"\x07\0\0\0\x15\x02\x01")?;
    is_written(alloc, &Reply::Setattr, b"\x07\0\0\0\x1b\x02\x01")?;
    is_written(alloc, &Reply::Fsync, b"\x07\0\0\0\x33\x02\x01")?;
    is_written(alloc, &Reply::Link, b"\x07\0\0\0\x47\x02\x01")?;
    is_written(alloc, &Reply::Renameat, b"\x07\0\0\0\x4b\x02\x01")?;
    is_written(alloc, &Reply::Unlinkat, b"\x07\0\0\0\x4d\x02\x01")?;
    is_written(alloc, &Reply::Flush, b"\x07\0\0\0\x6d\x02\x01")?;
    is_written(alloc, &Reply::Clunk, b"\x07\0\0\0\x79\x02\x01")?;
    is_written(alloc, &Reply::Remove, b"\x07\0\0\0\x7b\x02\x01")
}

/// Answers of numbers and qids.
#[test]
fn short_answers_are_written(rt: HostRuntime) -> Result<(), Fail> {
    let alloc = rt.alloc();
    is_written(
        alloc,
        &Reply::Error { number: 116 },
        b"\x0b\0\0\0\x07\x02\x01\x74\0\0\0",
    )?;
    is_written(
        alloc,
        &Reply::Lock { status: 1 },
        b"\x08\0\0\0\x35\x02\x01\x01",
    )?;
    is_written(
        alloc,
        &Reply::Write { count: 4096 },
        b"\x0b\0\0\0\x77\x02\x01\0\x10\0\0",
    )?;
    let opened = b"\x18\0\0\0\x0d\x02\x01\x80\x01\0\0\0\x02\0\0\0\0\0\0\0\0\x02\0\0";
    is_written(
        alloc,
        &Reply::Open {
            qid: QID,
            unit: 512,
        },
        opened,
    )?;
    let created = b"\x18\0\0\0\x0f\x02\x01\x80\x01\0\0\0\x02\0\0\0\0\0\0\0\0\x02\0\0";
    is_written(
        alloc,
        &Reply::Create {
            qid: QID,
            unit: 512,
        },
        created,
    )?;
    let linked = b"\x14\0\0\0\x11\x02\x01\x80\x01\0\0\0\x02\0\0\0\0\0\0\0";
    is_written(alloc, &Reply::Symlink { qid: QID }, linked)?;
    let made = b"\x14\0\0\0\x49\x02\x01\x80\x01\0\0\0\x02\0\0\0\0\0\0\0";
    is_written(alloc, &Reply::Mkdir { qid: QID }, made)?;
    let attached = b"\x14\0\0\0\x69\x02\x01\x80\x01\0\0\0\x02\0\0\0\0\0\0\0";
    is_written(alloc, &Reply::Attach { qid: QID }, attached)
}

/// Answers of bytes.
#[test]
fn answers_of_bytes_are_written(rt: HostRuntime) -> Result<(), Fail> {
    let alloc = rt.alloc();
    is_written(
        alloc,
        &Reply::Readlink { target: b"a/b" },
        b"\x0c\0\0\0\x17\x02\x01\x03\0a/b",
    )?;
    is_written(
        alloc,
        &Reply::Readdir { entries: b"e" },
        b"\x0c\0\0\0\x29\x02\x01\x01\0\0\0e",
    )?;
    is_written(
        alloc,
        &Reply::Read { bytes: b"hi" },
        b"\x0d\0\0\0\x75\x02\x01\x02\0\0\0hi",
    )?;
    let version = Reply::Version {
        message_size: 8192,
        version: b"9P2000.L",
    };
    is_written(
        alloc,
        &version,
        b"\x15\0\0\0\x65\x02\x01\0\x20\0\0\x08\09P2000.L",
    )?;
    let held = Held {
        kind: 1,
        start: 2,
        length: 3,
        process: 4,
        client: b"c",
    };
    let lock = b"\x1f\0\0\0\x37\x02\x01\x01\x02\0\0\0\0\0\0\0\x03\0\0\0\0\0\0\0\x04\0\0\0\x01\0c";
    is_written(alloc, &Reply::Getlock { held }, lock)
}

/// Qids one behind another.
#[test]
fn walks_are_answered(rt: HostRuntime) -> Result<(), Fail> {
    let alloc = rt.alloc();
    is_written(
        alloc,
        &Reply::Walk { qids: &[] },
        b"\x09\0\0\0\x6f\x02\x01\0\0",
    )?;
    let file = Qid {
        kind: 0,
        version: 0,
        path: 3,
    };
    let walked =
        b"\x23\0\0\0\x6f\x02\x01\x02\0\x80\x01\0\0\0\x02\0\0\0\0\0\0\0\0\0\0\0\0\x03\0\0\0\0\0\0\0";
    is_written(alloc, &Reply::Walk { qids: &[QID, file] }, walked)
}

/// A volume's room: nine numbers, of which each is another.
#[test]
#[tactic(auto, unfolding(ninep::specs::Replies::block_fields, ninep::specs::Replies::file_fields))]
fn a_room_is_written(rt: HostRuntime) -> Result<(), Fail> {
    let room = StatfsReply {
        kind: 1,
        block_size: 2,
        blocks: 3,
        free: 4,
        available: 5,
        files: 6,
        free_files: 7,
        id: 8,
        name_length: 60,
    };
    let wanted =
        b"\x43\0\0\0\x09\x02\x01\x01\0\0\0\x02\0\0\0\x03\0\0\0\0\0\0\0\x04\0\0\0\0\0\0\0\x05\0\0\0\0\0\0\0\x06\0\0\0\0\0\0\0\x07\0\0\0\0\0\0\0\x08\0\0\0\0\0\0\0\x3c\0\0\0";
    is_written(rt.alloc(), &Reply::Statfs { room }, wanted)
}

/// Attributes: 160 bytes, of which each number is another.
#[test]
#[tactic(auto, unfolding(ninep::specs::Replies::owner_fields, ninep::specs::Replies::size_fields, ninep::specs::Replies::times_fields, ninep::specs::Replies::version_fields))]
fn attributes_are_written(rt: HostRuntime) -> Result<(), Fail> {
    let attributes = Attributes {
        valid: 0x7ff,
        qid: QID,
        mode: 0o40755,
        uid: 3,
        gid: 4,
        links: 5,
        device: 6,
        size: 7,
        block_size: 8,
        blocks: 9,
        atime: (10, 11),
        mtime: (12, 13),
        ctime: (14, 15),
        made: (16, 17),
        generation: 18,
        data_version: 19,
    };
    let mut wanted = [0u8; 160];
    wanted[0] = 160;
    wanted[4..9].copy_from_slice(b"\x19\x02\x01\xff\x07");
    wanted[15..20].copy_from_slice(b"\x80\x01\0\0\0");
    wanted[20] = 2;
    wanted[28..30].copy_from_slice(b"\xed\x41");
    wanted[32] = 3;
    wanted[36] = 4;
    for k in 0..15 {
        wanted[40 + 8 * k] = 5 + k as u8;
    }
    is_written(rt.alloc(), &Reply::Getattr { attributes }, &wanted)
}

/// An answer of just as many bytes as a message may have is written; of one more it isn't, and nothing is.
#[test]
fn a_message_has_a_limit(rt: HostRuntime) -> Result<(), Fail> {
    let mut out = Vec::new(rt.alloc());
    out.push(9)?;
    let reply = Reply::Read { bytes: b"hi" };
    if write(&mut out, 12, 258, &reply) != Err(WriteRefusal::TooLong) || out.len() != 1 {
        return Err(Fail::from("over the limit"));
    }
    if write(&mut out, 13, 258, &reply) != Ok(()) || out.len() != 14 {
        return Err(Fail::from("at the limit"));
    }
    Ok(())
}

/// Entries stand one behind another.
#[test]
fn entries_are_written(rt: HostRuntime) -> Result<(), Fail> {
    let mut out = Vec::new(rt.alloc());
    push_entry(
        &mut out,
        &ReaddirEntry {
            qid: QID,
            next: 1,
            kind: 4,
            name: b".",
        },
    )?;
    let file = Qid {
        kind: 0,
        version: 0,
        path: 3,
    };
    push_entry(
        &mut out,
        &ReaddirEntry {
            qid: file,
            next: 258,
            kind: 8,
            name: b"ab",
        },
    )?;
    let wanted =
        b"\x80\x01\0\0\0\x02\0\0\0\0\0\0\0\x01\0\0\0\0\0\0\0\x04\x01\0.\0\0\0\0\0\x03\0\0\0\0\0\0\0\x02\x01\0\0\0\0\0\0\x08\x02\0ab";
    if out.as_slice() != wanted.as_slice() {
        return Err(Fail::new(format_args!("{out:?}")));
    }
    Ok(())
}
