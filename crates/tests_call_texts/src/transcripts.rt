//! Transcripts, line by line.
use compact_message::{ReplyRef, RequestRef};
use errno::Errno;
use message::endpoint::Endpoint;
use message::{BlockReply, BlockRequest, Kind};
use output::OutputRefusal;
use records::marks::Cause;
use reply_text::mark::MarkRef;
use reply_text::write::write_transcript;
use std::alloc::Global;
use std::io::{self, ErrorKind, Write};
use std::test::Fail;
use tests_texts::{are_told, is_told, row_is_told};
use tree::{Attributes, Call, PathFrom, Reply, Who};

/// Driver 1 of this generation.
fn driver(generation: u32) -> Endpoint {
    Endpoint {
        slot: 1,
        generation,
    }
}

/// A request for a block at 4096.
fn request(id: u64, kind: Kind, count: u32) -> BlockRequest {
    BlockRequest {
        id,
        kind,
        minor: 0,
        position: 4096,
        count,
        bytes: [0; 4096],
    }
}

/// A reply of driver 2 to request 1.
fn reply(outcome: Result<u32, Errno>) -> BlockReply {
    BlockReply {
        from: driver(2),
        id: 1,
        outcome,
        bytes: [0; 4096],
    }
}

/// Who calls.
const WHO: Who = Who {
    session: 0,
    uid: 0,
    gid: 0,
};

/// The root of a new volume.
const ROOT: Attributes = Attributes {
    inode: 1,
    mode: 0o40755,
    links: 2,
    uid: 0,
    gid: 0,
    size: 128,
    atime: 50,
    mtime: 50,
    ctime: 50,
};

/// Marks, of so many calls without a reply, have this text.
fn is_written(
    alloc: Global,
    marks: &[MarkRef<'_>],
    unanswered: u64,
    wanted: &str,
) -> Result<(), Fail> {
    let mut out = Vec::new(alloc);
    write_transcript(alloc, &mut out, marks, unanswered)?;
    is_told(str::from_utf8(out.as_slice()).unwrap_or("no text"), wanted)
}

/// A driver dies in a read, and the next one answers it.
fn a_death(alloc: Global) -> Result<(), Fail> {
    let (posted, sent) = (request(1, Kind::Read, 1024), reply(Ok(1024)));
    let (asked, answer) = (RequestRef::of(&posted), ReplyRef::of(&sent));
    let path = PathFrom::root(b"/");
    let (call, root) = (Call::Stat { path }, Reply::Inode(ROOT));
    let marks = [
        MarkRef::Started(driver(1)),
        MarkRef::Issued(asked, driver(1)),
        MarkRef::Fault(driver(1), Cause::Exit),
        MarkRef::Started(driver(2)),
        MarkRef::Issued(asked, driver(2)),
        MarkRef::Answered(answer),
        MarkRef::Took(WHO, 100, &call, &root),
    ];
    let text =
        "started 1.1\nissue 1 read 4096 1024 to 1.1\nfault 1.1 exit\nstarted 1.2\nissue 1 read 4096 1024 to 1.2\nanswer 1 1024 from 1.2\n\
        reply 0 inode 1 mode 0040755 links 2 uid 0 gid 0 size 128 times 50 50 50\nunanswered 0\n";
    is_written(alloc, &marks, 0, text)
}

/// The other marks.
fn other_marks(alloc: Global) -> Result<(), Fail> {
    let (posted, sent) = (request(12, Kind::Write, 512), reply(Err(Errno::EIO)));
    let (asked, answer) = (RequestRef::of(&posted), ReplyRef::of(&sent));
    let (call, refused) = (Call::Sync, Reply::Refused(Errno::EIO));
    let who = Who {
        session: 63,
        uid: 1,
        gid: 2,
    };
    let marks = [
        MarkRef::Flush,
        MarkRef::Issued(asked, driver(4294967295)),
        MarkRef::Answered(answer),
        MarkRef::Fault(driver(2), Cause::Complaint),
        MarkRef::Fault(driver(3), Cause::Hung),
        MarkRef::GaveUp,
        MarkRef::Took(who, 100, &call, &refused),
    ];
    let text =
        "flush\nissue 12 write 4096 512 to 1.4294967295\nanswer 1 EIO from 1.2\nfault 1.2 complaint\nfault 1.3 hung\n\
        given up\nreply 63 EIO\nunanswered 2\n";
    is_written(alloc, &marks, 2, text)
}

/// No marks at all.
fn no_marks(alloc: Global) -> Result<(), Fail> {
    let text = "unanswered 18446744073709551615\n";
    is_written(alloc, &[], 18446744073709551615, text)
}

/// A writer with room for so many bytes.
#[derive(Drop)]
struct Narrow {
    taken: Vec<u8>,
    room: usize,
}

impl Write for Narrow {
    fn write(&mut self, bytes: &[u8]) -> io::Result<usize> {
        if self.room == 0 {
            return Err(ErrorKind::StorageFull.into());
        }
        let Some(byte) = bytes.first() else {
            return Ok(0);
        };
        if self.taken.push(*byte).is_err() {
            return Err(ErrorKind::OutOfMemory.into());
        }
        self.room -= 1;
        Ok(1)
    }

    fn flush(&mut self) -> io::Result<()> {
        Ok(())
    }
}

/// Two marks, and no call without a reply.
const SHORT: &str = "started 1.1\nflush\nunanswered 0\n";

/// How a writing ended.
fn ending(told: Result<(), OutputRefusal>) -> &'static str {
    match told {
        Ok(()) => "written",
        Err(OutputRefusal::NotWritten) => "not written",
        Err(OutputRefusal::OutOfMemory) => "no memory",
    }
}

/// A writer with room for so many bytes took the text's first ones.
fn is_beginning(room: usize, taken: &[u8]) -> Result<(), Fail> {
    let wanted = SHORT.as_bytes().get(..room).unwrap_or(b"no such room");
    row_is_told(
        room,
        str::from_utf8(taken).unwrap_or("no text"),
        str::from_utf8(wanted).unwrap_or("none is wanted"),
    )
}

/// Where a write fails, what went out is a beginning of the text.
fn beginnings(alloc: Global) -> Result<(), Fail> {
    let marks = [MarkRef::Started(driver(1)), MarkRef::Flush];
    for room in 0..32 {
        let mut out = Narrow {
            taken: Vec::new(alloc),
            room,
        };
        let told = ending(write_transcript(alloc, &mut out, &marks, 0));
        let is_whole = room == SHORT.len();
        row_is_told(room, told, if is_whole { "written" } else { "not written" })?;
        is_beginning(room, out.taken.as_slice())?;
    }
    Ok(())
}

/// Why a transcript isn't written.
static REFUSALS: [(OutputRefusal, &str); 2] = [
    (OutputRefusal::OutOfMemory, "OutOfMemory"),
    (OutputRefusal::NotWritten, "NotWritten"),
];

#[test]
fn transcripts_are_the_formats(rt: HostRuntime) -> Result<(), Fail> {
    a_death(rt.alloc())?;
    other_marks(rt.alloc())?;
    no_marks(rt.alloc())?;
    beginnings(rt.alloc())?;
    are_told(rt.alloc(), &REFUSALS)
}
