//! The texts of replies: numbers are decimal, modes octal in seven digits, bytes lower-case hexadecimal.

ghost use Rattle.std.specs.Prelude.{◌≡◌, ◌≤◌, Some, length, map};
ghost use Rattle.std.specs.Fmt.{WritesOnOk};
ghost use Rattle.tree.specs.Answers.{answer_of, bytes_of_target, entry_of};
ghost use Rattle.reply_text.specs.Text.{answer_text, attributes_text, bytes_text, details_text, entry_text, free_text, hex_text};
ghost use Rattle.reply_text.specs.Text.{names_text, octal_text, outcome_text, owner_text, room_text, times_text};
ghost use Rattle.reply_text.specs.Told.{told_by, told_text};

use errno::Errno;
use std::fmt;
use tree::{Attributes, Entry, LinkTarget, MAX_TARGET, Outcome, Reply, Statfs};

/// A number of 16 bits in seven octal digits.
#[derive(Clone, Copy)]
struct Octal(u16);

impl fmt::Display for Octal {
    ghost output = { λ o. Some (octal_text o.0) };

    #[tactic(auto, unfolding(crate::specs::Text::octal_text))]
    fn fmt<W: fmt::Write>(&self, f: &mut fmt::Formatter<W>) -> fmt::Result {
        let n = self.0;
        let (a, b, c) = (n / 0o100000 % 8, n / 0o10000 % 8, n / 0o1000 % 8);
        let (d, e, g) = (n / 0o100 % 8, n / 0o10 % 8, n % 8);
        write!(f, "0{a}{b}{c}{d}{e}{g}")
    }
}

/// How many bytes are written in hexadecimal at once.
const PIECE: usize = 64;

/// Writes bytes in hexadecimal, at most a piece.
fn write_piece<W: fmt::Write>(f: &mut fmt::Formatter<W>, piece: &[u8]) -> fmt::Result
    requires { length piece.now ≤ PIECE }
    ensures { WritesOnOk W.write_str_gives f.old result (hex_text piece.now) f.new }
{
    let mut room = [0; 2 * PIECE];
    let digits = &mut room[..2 * piece.len()];
    hex::encode_to_slice(piece, &mut *digits).unwrap();
    f.write_str(str::from_utf8(digits).unwrap())
}

/// Bytes in hexadecimal.
#[derive(Clone, Copy)]
struct Hex<'a>(&'a [u8]);

impl fmt::Display for Hex<'_> {
    ghost output = { λ h. Some (hex_text h.0.now) };

    fn fmt<W: fmt::Write>(&self, f: &mut fmt::Formatter<W>) -> fmt::Result {
        for piece in self.0.chunks(PIECE) {
            write_piece(f, piece)?;
        }
        Ok(())
    }
}

/// Bytes in hexadecimal, or `-` for none.
#[derive(Clone, Copy)]
struct Bytes<'a>(&'a [u8]);

impl fmt::Display for Bytes<'_> {
    ghost output = { λ b. Some (bytes_text b.0.now) };

    fn fmt<W: fmt::Write>(&self, f: &mut fmt::Formatter<W>) -> fmt::Result {
        if self.0.is_empty() {
            return f.write_str("-");
        }
        let hex = Hex(self.0);
        write!(f, "{hex}")
    }
}

/// The bytes of a target.
pub(crate) fn target_bytes(target: &LinkTarget) -> &[u8]
    ensures { result.now ≡ bytes_of_target target.now }
{
    let end = target.length.min(MAX_TARGET);
    &target.bytes[..end]
}

/// The owner's user and group.
#[derive(Clone, Copy)]
struct Owner(u16, u16);

impl fmt::Display for Owner {
    ghost output = { λ o. Some (owner_text o.0 o.1) };

    #[tactic(auto, unfolding(crate::specs::Text::owner_text))]
    fn fmt<W: fmt::Write>(&self, f: &mut fmt::Formatter<W>) -> fmt::Result {
        let Owner(uid, gid) = *self;
        write!(f, "uid {uid} gid {gid}")
    }
}

/// The times of access, of modification and of status change.
#[derive(Clone, Copy)]
struct Times(u32, u32, u32);

impl fmt::Display for Times {
    ghost output = { λ t. Some (times_text t.0 t.1 t.2) };

    #[tactic(auto, unfolding(crate::specs::Text::times_text))]
    fn fmt<W: fmt::Write>(&self, f: &mut fmt::Formatter<W>) -> fmt::Result {
        let Times(atime, mtime, ctime) = *self;
        write!(f, "{atime} {mtime} {ctime}")
    }
}

/// What stands after a node's links.
#[derive(Clone, Copy)]
struct Details(Attributes);

impl fmt::Display for Details {
    ghost output = { λ d. Some (details_text d.0) };

    #[tactic(auto, unfolding(crate::specs::Text::details_text))]
    fn fmt<W: fmt::Write>(&self, f: &mut fmt::Formatter<W>) -> fmt::Result {
        let Details(a) = *self;
        let (owner, size, times) = (
            Owner(a.uid, a.gid),
            a.size,
            Times(a.atime, a.mtime, a.ctime),
        );
        write!(f, "{owner} size {size} times {times}")
    }
}

/// What is told of a node.
#[derive(Clone, Copy)]
struct Node<'a>(&'a Attributes);

/// Writes `inode N mode OOOOOOO links N uid N gid N size N times A M C`.
impl fmt::Display for Node<'_> {
    ghost output = { λ n. Some (attributes_text n.0.now) };

    fn fmt<W: fmt::Write>(&self, f: &mut fmt::Formatter<W>) -> fmt::Result {
        let a = *self.0;
        let (inode, mode, links, details) = (a.inode, Octal(a.mode), a.links, Details(a));
        write!(f, "inode {inode} mode {mode} links {links} {details}")
    }
}

/// What is free of a volume's zones, and of its inodes.
#[derive(Clone, Copy)]
struct Free(u32, u32, u32);

impl fmt::Display for Free {
    ghost output = { λ f. Some (free_text f.0 f.1 f.2) };

    #[tactic(auto, unfolding(crate::specs::Text::free_text))]
    fn fmt<W: fmt::Write>(&self, f: &mut fmt::Formatter<W>) -> fmt::Result {
        let Free(zones, inodes, free_inodes) = *self;
        write!(f, "free {zones} inodes {inodes} free {free_inodes}")
    }
}

/// What is told of a volume.
#[derive(Clone, Copy)]
struct Volume<'a>(&'a Statfs);

/// Writes `block B zones Z free F inodes I free J`.
impl fmt::Display for Volume<'_> {
    ghost output = { λ v. Some (room_text v.0.now) };

    fn fmt<W: fmt::Write>(&self, f: &mut fmt::Formatter<W>) -> fmt::Result {
        let room = *self.0;
        let (block_size, zones) = (room.block_size, room.zones);
        let free = Free(room.free_zones, room.inodes, room.free_inodes);
        write!(f, "block {block_size} zones {zones} {free}")
    }
}

/// A name and its inode.
#[derive(Clone, Copy)]
struct Named<'a>(&'a Entry);

/// Writes a space, the name in hexadecimal, a colon and the inode.
impl fmt::Display for Named<'_> {
    ghost output = { λ n. Some (entry_text (entry_of n.0.now)) };

    fn fmt<W: fmt::Write>(&self, f: &mut fmt::Formatter<W>) -> fmt::Result {
        let name = Hex(self.0.name.as_slice());
        let inode = self.0.inode;
        write!(f, " {name}:{inode}")
    }
}

/// How many names there are, and each.
#[derive(Clone, Copy)]
struct Names<'a>(&'a [Entry]);

impl fmt::Display for Names<'_> {
    ghost output = { λ n. Some (names_text (map entry_of n.0.now)) };

    fn fmt<W: fmt::Write>(&self, f: &mut fmt::Formatter<W>) -> fmt::Result {
        let count = self.0.len();
        write!(f, "{count}")?;
        for name in self.0 {
            let shown = Named(name);
            write!(f, "{shown}")?;
        }
        Ok(())
    }
}

/// What came of a call, borrowed. Its parts stand elsewhere; the target of a link is bytes, as those of a read are.
#[derive(Clone, Copy)]
pub enum OutcomeRef<'a> {
    /// No reply.
    Cut,
    /// A refusal.
    Refused(Errno),
    /// A call that has nothing to tell succeeded.
    Done,
    /// A descriptor.
    Descriptor(u32),
    /// The bytes of a read, or of a target.
    Bytes(&'a [u8]),
    /// How many bytes were written.
    Wrote(u32),
    /// The position after a seek.
    At(u32),
    /// The attributes of a node.
    Inode(&'a Attributes),
    /// The names of a directory.
    Names(&'a [Entry]),
    /// The room of a volume.
    Space(&'a Statfs),
}

/// Writes a refusal's name; `ok`; `fd N`; `bytes` with the bytes in hexadecimal, or with `-` for none;
/// `wrote N`; `at N`; a node's attributes; `names K` and the entries; a volume's room; or `cut`.
impl fmt::Display for OutcomeRef<'_> {
    ghost output = { λ o. Some (told_text (told_by o)) };

    fn fmt<W: fmt::Write>(&self, f: &mut fmt::Formatter<W>) -> fmt::Result {
        match self {
            OutcomeRef::Cut => f.write_str("cut"),
            OutcomeRef::Refused(errno) => write!(f, "{errno}"),
            OutcomeRef::Done => f.write_str("ok"),
            OutcomeRef::Descriptor(fd) => write!(f, "fd {fd}"),
            OutcomeRef::Bytes(bytes) => {
                let shown = Bytes(bytes);
                write!(f, "bytes {shown}")
            }
            OutcomeRef::Wrote(count) => write!(f, "wrote {count}"),
            OutcomeRef::At(position) => write!(f, "at {position}"),
            OutcomeRef::Inode(attributes) => {
                let shown = Node(attributes);
                write!(f, "{shown}")
            }
            OutcomeRef::Names(names) => {
                let shown = Names(names);
                write!(f, "names {shown}")
            }
            OutcomeRef::Space(room) => {
                let shown = Volume(room);
                write!(f, "{shown}")
            }
        }
    }
}

/// What a reply tells, borrowed.
fn replied(reply: &Reply) -> OutcomeRef<'_>
    ensures { told_by result ≡ Some (answer_of reply.now) }
{
    match reply {
        Reply::Refused(errno) => OutcomeRef::Refused(*errno),
        Reply::Done => OutcomeRef::Done,
        Reply::Descriptor(fd) => OutcomeRef::Descriptor(*fd),
        Reply::Bytes(bytes) => OutcomeRef::Bytes(bytes.as_slice()),
        Reply::Wrote(count) => OutcomeRef::Wrote(*count),
        Reply::At(position) => OutcomeRef::At(*position),
        Reply::Inode(attributes) => OutcomeRef::Inode(attributes),
        Reply::Names(names) => OutcomeRef::Names(names.as_slice()),
        Reply::Space(room) => OutcomeRef::Space(room),
        Reply::Target(target) => OutcomeRef::Bytes(target_bytes(target)),
    }
}

/// A reply, to be shown.
#[derive(Clone, Copy)]
pub struct ReplyText<'a>(pub &'a Reply);

/// Writes what the reply tells, as [`OutcomeRef`] does.
impl fmt::Display for ReplyText<'_> {
    ghost output = { λ r. Some (answer_text (answer_of r.0.now)) };

    fn fmt<W: fmt::Write>(&self, f: &mut fmt::Formatter<W>) -> fmt::Result {
        let shown = replied(self.0);
        write!(f, "{shown}")
    }
}

/// What came of a call, to be shown.
#[derive(Clone, Copy)]
pub struct OutcomeText<'a>(pub &'a Outcome);

/// Writes the reply, or `cut`.
impl fmt::Display for OutcomeText<'_> {
    ghost output = { λ outcome. Some (outcome_text outcome.0.now) };

    fn fmt<W: fmt::Write>(&self, f: &mut fmt::Formatter<W>) -> fmt::Result {
        let shown = match self.0 {
            Outcome::Reply(reply) => replied(reply),
            Outcome::Cut => OutcomeRef::Cut,
        };
        write!(f, "{shown}")
    }
}
