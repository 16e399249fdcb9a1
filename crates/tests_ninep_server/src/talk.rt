//! A connection, and sessions whose outcomes are written down.
ghost use Rattle.std.specs.Prelude.{⊤};

use bitflags::Flags;
use errno::Errno;
use ninep_server::connection::Connection;
use std::alloc::{AllocError, Global};
use std::collections::VecDeque;
use std::fmt::Write;
use std::test::Fail;
use talks::ask::Leaving;
use talks::sessions::{EnterRefusal, Sessions};
use tree::{
    Attributes, Call, Entry, LinkTarget, MAX_TARGET, Outcome, PathFrom, Reply, Start, Statfs,
};

/// Sessions that answer what is written down, and note what they are asked. Where nothing is written down, a call is cut.
#[derive(Drop)]
struct Fake {
    outcomes: VecDeque<Outcome>,
    asked: String,
    entered: u8,
}

/// A word, a path or other bytes behind others.
fn put(out: &mut String, word: &[u8]) {
    let _ = out.push(' ');
    for byte in word {
        let _ = out.push(char::from(*byte));
    }
}

/// A path behind other words, and the node that it starts at, if it isn't the root.
fn put_from(out: &mut String, path: PathFrom<'_>) {
    if let Start::Inode(number) = path.start {
        let _ = write!(out, " inode {number}");
    }
    put(out, path.bytes);
}

/// A call of one path, and its numbers.
fn put_path(out: &mut String, name: &[u8], path: PathFrom<'_>, numbers: &[u32]) {
    put(out, name);
    put_from(out, path);
    for number in numbers {
        let _ = write!(out, " {number}");
    }
}

/// A call of two paths.
fn put_paths(out: &mut String, name: &[u8], first: PathFrom<'_>, second: PathFrom<'_>) {
    put(out, name);
    put_from(out, first);
    put_from(out, second);
}

/// The words of a call.
fn put_call(out: &mut String, call: &Call<'_>) {
    match *call {
        Call::Open { path, flags, mode } => {
            put_path(
                out,
                b"open",
                path,
                &[u32::from(flags.bits()), u32::from(mode)],
            )
        }
        Call::Lstat { path } => put_path(out, b"lstat", path, &[]),
        Call::Mkdir { path, mode } => put_path(out, b"mkdir", path, &[u32::from(mode)]),
        Call::Unlink { path } => put_path(out, b"unlink", path, &[]),
        Call::Rmdir { path } => put_path(out, b"rmdir", path, &[]),
        Call::Readlink { path } => put_path(out, b"readlink", path, &[]),
        Call::Chmod { path, mode } => put_path(out, b"chmod", path, &[u32::from(mode)]),
        Call::Truncate { path, size } => put_path(out, b"truncate", path, &[size]),
        Call::Chown { path, uid, gid } => {
            put_path(out, b"chown", path, &[u32::from(uid), u32::from(gid)])
        }
        Call::Utime { path, atime, mtime } => put_path(out, b"utime", path, &[atime, mtime]),
        Call::Link { old, new } => put_paths(out, b"link", old, new),
        Call::Rename { old, new } => put_paths(out, b"rename", old, new),
        Call::Symlink { target, path } => {
            put(out, b"symlink");
            put(out, target);
            put_from(out, path);
        }
        Call::Write { fd, bytes } => {
            let _ = write!(out, " write {fd}");
            put(out, bytes);
        }
        _ => {
            let _ = write!(out, " {call:?}");
        }
    }
}

impl Sessions for Fake {
    ghost called = { λ _ _ _ _ _ _. ⊤ };

    ghost entered = { λ _ _ _ _ _. ⊤ };

    ghost left = { λ _ _ _. ⊤ };

    fn enter(&mut self, uid: u16, gid: u16) -> Result<u8, EnterRefusal> {
        let _ = write!(self.asked, "enter {uid} {gid};");
        let session = self.entered;
        self.entered = session.saturating_add(1);
        Ok(session)
    }

    fn call(&mut self, session: u8, _now: u32, call: &Call<'_>) -> Outcome {
        let _ = write!(self.asked, "{session}");
        put_call(&mut self.asked, call);
        let _ = self.asked.push(';');
        match self.outcomes.pop_front() {
            Some(outcome) => outcome,
            None => Outcome::Cut,
        }
    }

    fn leave(&mut self, who: Leaving) {
        let _ = match who {
            Leaving::All => write!(self.asked, "leave;"),
            Leaving::One(session) => write!(self.asked, "{session} leaves;"),
        };
    }
}

/// A client's talk with a connection.
#[derive(Drop)]
pub(crate) struct Talk {
    alloc: Global,
    connection: Connection,
    fake: Fake,
}

/// An outcome of a call, as a row writes it down.
pub(crate) enum Given {
    /// The call is cut.
    Cut,
    /// It was done.
    Done,
    /// It is refused.
    Refused(Errno),
    /// A descriptor is given.
    Descriptor(u32),
    /// The position after a seek.
    At(u32),
    /// How many bytes were written.
    Wrote(u32),
    /// Bytes that were read.
    Bytes(&'static [u8]),
    /// Attributes of a node with this inode and this mode, with one link, of user 5 and group 7, with 300 bytes and the times 10, 20, 30.
    Node(u16, u16),
    /// Names of a directory, and their inodes.
    Names(&'static [(&'static [u8], u16)]),
    /// The target of a symbolic link.
    Target(&'static [u8]),
    /// The room of the volume.
    Space(Statfs),
}

/// A row of a talk: the outcomes of the calls that a message makes, in turn; the message; what the sessions are asked; the answer. The
/// message and the answer stand without the four bytes of their sizes.
pub(crate) type Row<'a> = (&'a [Given], &'a [u8], &'a str, &'a [u8]);

/// The attributes of a node.
fn node(inode: u16, mode: u16) -> Outcome {
    Outcome::Reply(Reply::Inode(Attributes {
        inode,
        mode,
        links: 1,
        uid: 5,
        gid: 7,
        size: 300,
        atime: 10,
        mtime: 20,
        ctime: 30,
    }))
}

/// These names.
fn names(alloc: Global, given: &[(&[u8], u16)]) -> Result<Outcome, AllocError> {
    let mut names = Vec::new(alloc);
    for (name, inode) in given {
        let (name, inode) = (name.to_vec(alloc)?, *inode);
        names.push(Entry { name, inode })?;
    }
    Ok(Outcome::Reply(Reply::Names(names)))
}

/// These bytes.
fn bytes(alloc: Global, given: &[u8]) -> Result<Outcome, AllocError> {
    Ok(Outcome::Reply(Reply::Bytes(given.to_vec(alloc)?)))
}

/// This target.
fn target(given: &[u8]) -> Outcome {
    let mut bytes = [0; MAX_TARGET];
    for (place, byte) in bytes.iter_mut().zip(given) {
        *place = *byte;
    }
    let length = given.len();
    Outcome::Reply(Reply::Target(LinkTarget { bytes, length }))
}

/// The outcome that a row writes down.
fn outcome(alloc: Global, given: &Given) -> Result<Outcome, AllocError> {
    match *given {
        Given::Cut => Ok(Outcome::Cut),
        Given::Done => Ok(Outcome::Reply(Reply::Done)),
        Given::Refused(errno) => Ok(Outcome::Reply(Reply::Refused(errno))),
        Given::Descriptor(fd) => Ok(Outcome::Reply(Reply::Descriptor(fd))),
        Given::At(position) => Ok(Outcome::Reply(Reply::At(position))),
        Given::Wrote(count) => Ok(Outcome::Reply(Reply::Wrote(count))),
        Given::Bytes(given) => bytes(alloc, given),
        Given::Node(inode, mode) => Ok(node(inode, mode)),
        Given::Names(given) => names(alloc, given),
        Given::Target(given) => Ok(target(given)),
        Given::Space(room) => Ok(Outcome::Reply(Reply::Space(room))),
    }
}

/// The name of a version, behind its length.
pub(crate) const VERSION: &[u8] = b"\x64\xff\xff\0\x20\0\0\x08\x009P2000.L";

/// User 0 attaches as fid 1, with tag 2.
pub(crate) const ATTACH: &[u8] = b"\x68\x02\0\x01\0\0\0\xff\xff\xff\xff\0\0\0\0\0\0\0\0";

/// What `Talk::attached` begins with.
static ATTACHED: [Row<'static>; 2] = [
    (
        &[],
        VERSION,
        "leave;",
        b"\x65\xff\xff\0\x20\0\0\x08\x009P2000.L",
    ),
    (
        &[Given::Node(1, 0o40755)],
        ATTACH,
        "enter 0 0;0 lstat /;",
        b"\x69\x02\0\x80\0\0\0\0\x01\0\0\0\0\0\0\0",
    ),
];

impl Talk {
    /// A connection as it begins.
    pub(crate) fn new(alloc: Global) -> Talk {
        Talk {
            alloc,
            connection: Connection::new(alloc),
            fake: Fake {
                outcomes: VecDeque::new(alloc),
                asked: String::new(alloc),
                entered: 0,
            },
        }
    }

    /// A connection of 8192 bytes a message, to which user 0 is attached as fid 1: its root is inode 1.
    pub(crate) fn attached(alloc: Global) -> Result<Talk, Fail> {
        let mut talk = Talk::new(alloc);
        talk.plays(&ATTACHED)?;
        Ok(talk)
    }

    /// The next call has this outcome.
    pub(crate) fn answers(&mut self, outcome: Outcome) -> Result<(), AllocError> {
        self.fake.outcomes.push_back(outcome)?;
        Ok(())
    }

    /// The next call has the outcome that is written down.
    pub(crate) fn gives(&mut self, given: &Given) -> Result<(), AllocError> {
        let outcome = outcome(self.alloc, given)?;
        self.answers(outcome)
    }

    /// Rows come out, one after the other.
    pub(crate) fn plays(&mut self, rows: &[Row<'_>]) -> Result<(), Fail> {
        for (outcomes, message, asked, answer) in rows {
            for given in *outcomes {
                self.gives(given)?;
            }
            self.hears(message, asked, answer)?;
        }
        Ok(())
    }

    /// The answer to this message, with its size; the message is given without the four bytes of its own.
    fn answered(&mut self, message: &[u8]) -> Result<Vec<u8>, Fail> {
        let bytes = framed(self.alloc, message)?;
        let mut out = Vec::new(self.alloc);
        match self
            .connection
            .answer(&mut self.fake, 1000, &bytes, &mut out)
        {
            Ok(()) => Ok(out),
            Err(_) => Err(Fail::new(format_args!("no answer to {message:?}"))),
        }
    }

    /// The sessions were asked this, and all outcomes are used up.
    fn was_asked(&self, message: &[u8], asked: &str) -> Result<(), Fail> {
        let told = self.fake.asked.as_str();
        if told == asked && self.fake.outcomes.is_empty() {
            return Ok(());
        }
        Err(Fail::new(format_args!("{message:?} asks {told}, and not {asked}")))
    }

    /// To this message the sessions are asked this, and this is the answer. Both are given without the four bytes of their sizes.
    pub(crate) fn hears(&mut self, message: &[u8], asked: &str, answer: &[u8]) -> Result<(), Fail> {
        self.fake.asked.clear();
        let out = self.answered(message)?;
        self.was_asked(message, asked)?;
        let wanted = framed(self.alloc, answer)?;
        is_answered(message, &out, &wanted)
    }
}

/// Bytes behind the four of their size.
fn framed(alloc: Global, bytes: &[u8]) -> Result<Vec<u8>, Fail> {
    let size = u32::try_from(bytes.len())?.saturating_add(4);
    let mut framed = size.to_le_bytes().to_vec(alloc)?;
    framed.extend_from_slice(bytes)?;
    Ok(framed)
}

/// The answer to a message is as it should be.
fn is_answered(message: &[u8], answer: &[u8], wanted: &[u8]) -> Result<(), Fail> {
    if answer == wanted {
        return Ok(());
    }
    Err(Fail::new(format_args!("{message:?} is answered {answer:?}, and not {wanted:?}")))
}

/// Rows come out as a connection begins.
pub(crate) fn begun(alloc: Global, rows: &[Row<'_>]) -> Result<(), Fail> {
    let mut talk = Talk::new(alloc);
    talk.plays(rows)
}

/// Rows come out once user 0 is attached, as `Talk::attached` says.
pub(crate) fn attached(alloc: Global, rows: &[Row<'_>]) -> Result<(), Fail> {
    let mut talk = Talk::attached(alloc)?;
    talk.plays(rows)
}
