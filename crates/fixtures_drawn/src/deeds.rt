//! What a session does, one call after the other, and whether each is answered as it has to be.

use crate::chooser::Note;
use crate::deed::{Deed, NAMES};
use crate::drawn::Drawn;
use crate::held::{
    EMPTY, Entry, Held, PIECE, PIECES, are_pieces, count, entry_of, longer, mkdir, put, rename,
    rmdir, unlink,
};
use crate::shared::{MOST, Shared};
use errno::Errno;
use std::alloc::{AllocError, Global};
use std::sync::Wait;
use tree::{Call, OpenFlags, Outcome, PathFrom, Reply};

/// The shared directory.
pub const COMMON: u8 = b's';

/// The directory of the session of a place.
pub fn own_of(at: usize) -> u8 {
    if at == 0 { b'a' } else { b'b' }
}

/// The path of a name in a directory.
fn path_of(directory: u8, name: u8) -> [u8; 4] {
    [b'/', directory, b'/', b'p'.wrapping_add(name)]
}

/// A session, whichever service it is of.
pub trait Caller {
    /// Makes a call at the time 100.
    fn make(&mut self, call: &Call<'_>) -> Outcome;
}

/// How a file was opened.
#[derive(Clone, Copy)]
enum Opened {
    /// Under descriptor 0.
    Yes,
    Refused(Errno),
    /// There was another answer.
    Otherwise,
}

impl Opened {
    fn is_yes(self) -> bool {
        matches!(self, Opened::Yes)
    }
}

/// A session, which may have a place at the gate: it stands there before each of its calls.
#[derive(Drop)]
pub struct Acting<'a, 'b, C: Caller, R: Wait + Copy> {
    session: &'a mut C,
    gate: &'b Drawn<R>,
    at: Option<usize>,
    // The letter of its directory.
    own: u8,
}

/// What came of a session's deeds.
#[derive(Drop)]
pub struct Acted {
    /// The number of the first deed that was answered otherwise than it has to be, if one was.
    pub wrong: Option<usize>,
    /// What its directory holds.
    pub held: Held,
    /// What it did in the shared directory.
    pub shared: Vec<Shared>,
}

impl Acted {
    /// Nothing was done yet.
    pub fn new(alloc: Global) -> Acted {
        Acted {
            wrong: None,
            held: EMPTY,
            shared: Vec::new(alloc),
        }
    }
}

/// What a reply says, but for bytes and names, of which it says how many there are.
#[derive(Clone, Copy)]
enum Said {
    Done,
    Refused(Errno),
    Descriptor(u32),
    Wrote(u32),
    Bytes(usize),
    Names(usize),
    /// There is none, or another one.
    Otherwise,
}

/// What came of a call.
fn said_of(outcome: &Outcome) -> Said {
    let Outcome::Reply(reply) = outcome else {
        return Said::Otherwise;
    };
    match reply {
        Reply::Done => Said::Done,
        Reply::Refused(errno) => Said::Refused(*errno),
        Reply::Descriptor(fd) => Said::Descriptor(*fd),
        Reply::Wrote(count) => Said::Wrote(*count),
        Reply::Bytes(bytes) => Said::Bytes(bytes.len()),
        Reply::Names(names) => Said::Names(names.len()),
        _ => Said::Otherwise,
    }
}

/// A number that tells of it.
fn number_of(said: Said) -> u64 {
    match said {
        Said::Done => 1,
        Said::Refused(errno) => u64::from(errno.number()).wrapping_add(16),
        Said::Descriptor(fd) => u64::from(fd).wrapping_add(1 << 32),
        Said::Wrote(count) => u64::from(count).wrapping_add(2 << 32),
        Said::Bytes(count) => (count as u64).wrapping_add(3 << 32),
        Said::Names(count) => (count as u64).wrapping_add(4 << 32),
        Said::Otherwise => 2,
    }
}

/// Whether a reply says what has to be answered.
fn is_answer(said: Said, due: Result<(), Errno>) -> bool {
    match due {
        Ok(()) => matches!(said, Said::Done),
        Err(errno) => matches!(said, Said::Refused(given) if given == errno),
    }
}

impl<'a, 'b, C: Caller, R: Wait + Copy> Acting<'a, 'b, C, R> {
    /// The session of a place, or of none, with its directory.
    pub fn new(
        session: &'a mut C,
        gate: &'b Drawn<R>,
        at: Option<usize>,
        own: u8,
    ) -> Acting<'a, 'b, C, R> {
        Acting {
            session,
            gate,
            at,
            own,
        }
    }

    // A call, once the gate lets it pass.
    fn make(&mut self, call: &Call<'_>) -> Outcome {
        if let Some(at) = self.at {
            self.gate.stand(at);
        }
        let outcome = self.session.make(call);
        self.gate.tell(Note::Reply(number_of(said_of(&outcome))));
        outcome
    }

    // The same: what it says.
    fn ask(&mut self, call: &Call<'_>) -> Said {
        said_of(&self.make(call))
    }

    // Whether a call is answered so.
    fn answers(&mut self, call: &Call<'_>, due: Result<(), Errno>) -> bool {
        is_answer(self.ask(call), due)
    }

    fn opens(&mut self, path: &[u8], flags: OpenFlags) -> Opened {
        let open = Call::Open {
            path: PathFrom::root(path),
            flags,
            mode: 0o755,
        };
        match self.ask(&open) {
            Said::Descriptor(0) => Opened::Yes,
            Said::Refused(errno) => Opened::Refused(errno),
            _ => Opened::Otherwise,
        }
    }

    fn closes(&mut self) -> bool {
        self.answers(&Call::Close { fd: 0 }, Ok(()))
    }

    // Writes a piece. Whether that is answered so.
    fn writes_piece(&mut self, byte: u8) -> bool {
        let bytes = [byte; PIECE];
        let write = Call::Write {
            fd: 0,
            bytes: &bytes,
        };
        matches!(self.ask(&write), Said::Wrote(count) if count == PIECE as u32)
    }

    // Opens a file, adds a piece to what it then has, and closes it.
    fn adds(&mut self, held: &mut Held, name: u8, byte: u8, was: Entry, flags: OpenFlags) -> bool {
        let path = path_of(self.own, name);
        let opened = self.opens(&path, OpenFlags::WRITE | OpenFlags::CREATE | flags);
        if matches!(entry_of(held, name), Entry::Folder) {
            return matches!(opened, Opened::Refused(Errno::EISDIR));
        }
        let mut is_right = opened.is_yes();
        if let Some(longer) = longer(was, byte) {
            put(held, name, longer);
            is_right = self.writes_piece(byte) && is_right;
        }
        self.closes() && is_right
    }

    // Reads a file of these pieces. Whether they come.
    fn reads_pieces(&mut self, count: usize, pieces: &[u8; PIECES]) -> bool {
        match &self.make(&Call::Read { fd: 0, count: 4096 }) {
            Outcome::Reply(Reply::Bytes(bytes)) => are_pieces(bytes.as_slice(), count, pieces),
            _ => false,
        }
    }

    fn reads(&mut self, held: &Held, name: u8) -> bool {
        let path = path_of(self.own, name);
        let opened = self.opens(&path, OpenFlags::READ);
        match entry_of(held, name) {
            Entry::Nothing => matches!(opened, Opened::Refused(Errno::ENOENT)),
            Entry::Folder => opened.is_yes() && self.closes(),
            Entry::File(count, pieces) => {
                let is_read = self.reads_pieces(count, &pieces);
                self.closes() && is_read && opened.is_yes()
            }
        }
    }

    fn renames(&mut self, held: &mut Held, from: u8, to: u8) -> bool {
        let (old, new) = (path_of(self.own, from), path_of(self.own, to));
        let call = Call::Rename {
            old: PathFrom::root(&old),
            new: PathFrom::root(&new),
        };
        self.answers(&call, rename(held, from, to))
    }

    // Unlink, mkdir or rmdir of a name.
    fn changes(&mut self, held: &mut Held, deed: Deed, name: u8) -> bool {
        let bytes = path_of(self.own, name);
        let path = PathFrom::root(&bytes);
        let (call, due) = match deed {
            Deed::Mkdir(_) => (Call::Mkdir { path, mode: 0o755 }, mkdir(held, name)),
            Deed::Rmdir(_) => (Call::Rmdir { path }, rmdir(held, name)),
            _ => (Call::Unlink { path }, unlink(held, name)),
        };
        self.answers(&call, due)
    }

    // Makes a file of the shared directory that isn't there. Whether that was done; none where it was answered otherwise.
    fn makes(&mut self, path: &[u8]) -> Option<bool> {
        match self.opens(
            path,
            OpenFlags::WRITE | OpenFlags::CREATE | OpenFlags::EXCLUSIVE,
        ) {
            Opened::Yes => self.closes().then_some(true),
            Opened::Refused(Errno::EEXIST) => Some(false),
            _ => None,
        }
    }

    // Removes a file of the shared directory. Whether that was done; none where it was answered otherwise.
    fn takes(&mut self, path: &[u8]) -> Option<bool> {
        let unlink = Call::Unlink {
            path: PathFrom::root(path),
        };
        match self.ask(&unlink) {
            Said::Done => Some(true),
            Said::Refused(Errno::ENOENT) => Some(false),
            _ => None,
        }
    }

    // Does something in the shared directory, at most so often as there is room to note it.
    fn shares(&mut self, shared: &mut Vec<Shared>, name: u8, makes: bool) -> bool {
        if shared.len() >= MOST {
            return true;
        }
        let path = path_of(COMMON, name);
        let done = if makes {
            self.makes(&path)
        } else {
            self.takes(&path)
        };
        let Some(was_done) = done else {
            return false;
        };
        shared
            .push(Shared {
                name,
                makes,
                was_done,
            })
            .is_ok()
    }

    /// Does it. Whether all is answered as it has to be; what is done in the shared directory is noted.
    pub fn does(&mut self, acted: &mut Acted, deed: Deed) -> bool {
        let held = &mut acted.held;
        match deed {
            Deed::Write(name, byte) => {
                self.adds(held, name, byte, Entry::Nothing, OpenFlags::TRUNCATE)
            }
            Deed::Append(name, byte) => {
                let was = entry_of(held, name);
                self.adds(held, name, byte, was, OpenFlags::APPEND)
            }
            Deed::Read(name) => self.reads(held, name),
            Deed::Rename(from, to) => self.renames(held, from, to),
            Deed::Unlink(name) | Deed::Mkdir(name) | Deed::Rmdir(name) => {
                self.changes(held, deed, name)
            }
            Deed::Sync => self.answers(&Call::Sync, Ok(())),
            Deed::Make(name) => self.shares(&mut acted.shared, name, true),
            Deed::Take(name) => self.shares(&mut acted.shared, name, false),
        }
    }

    /// Makes the directories of both sessions and the shared one. Whether all are made.
    pub fn prepares(&mut self) -> bool {
        let mut is_right = true;
        for letter in [own_of(0), own_of(1), COMMON] {
            let bytes = [b'/', letter];
            let path = PathFrom::root(&bytes);
            is_right = self.answers(&Call::Mkdir { path, mode: 0o755 }, Ok(())) && is_right;
        }
        is_right
    }

    // How many names a directory has; none where it isn't told.
    fn names(&mut self, directory: u8) -> Option<usize> {
        let opened = self.opens(&[b'/', directory], OpenFlags::READ);
        let names = match self.ask(&Call::Readdir { fd: 0 }) {
            Said::Names(count) => Some(count),
            _ => None,
        };
        let is_closed = self.closes();
        names.filter(|_| opened.is_yes() && is_closed)
    }

    /// Whether its directory holds this, and nothing else.
    pub fn finds(&mut self, held: &Held) -> bool {
        let mut is_right = self.names(self.own) == Some(count(held));
        for name in 0..NAMES as u8 {
            is_right = self.reads(held, name) && is_right;
        }
        is_right
    }

    // Whether a file of the shared directory is there; none where it isn't told.
    fn is_there(&mut self, name: u8) -> Option<bool> {
        match self.opens(&path_of(COMMON, name), OpenFlags::READ) {
            Opened::Yes => self.closes().then_some(true),
            Opened::Refused(Errno::ENOENT) => Some(false),
            _ => None,
        }
    }

    /// Which names the shared directory has, a bit for each; none where that isn't told, or there are others.
    pub fn finds_shared(&mut self) -> Option<u16> {
        let mut set = 0u16;
        for name in 0..NAMES as u8 {
            if self.is_there(name)? {
                set |= 1 << (name & 3);
            }
        }
        let names = self.names(COMMON)?;
        (names == set.count_ones() as usize).then_some(set)
    }
}

/// Does all deeds that are drawn, and tells what came of it.
pub fn do_all<C: Caller, R: Wait + Copy>(
    alloc: Global,
    acting: &mut Acting<'_, '_, C, R>,
    deeds: &[Deed],
) -> Acted {
    let mut acted = Acted::new(alloc);
    for (number, deed) in deeds.iter().enumerate() {
        let is_right = acting.does(&mut acted, *deed);
        if !is_right && acted.wrong.is_none() {
            acted.wrong = Some(number);
        }
    }
    acted
}

/// So many deeds, which are drawn.
pub fn drawn_deeds(
    alloc: Global,
    draws: crate::draws::Draws,
    count: usize,
) -> Result<Vec<Deed>, AllocError> {
    let mut draws = draws;
    let mut deeds = Vec::new(alloc);
    for _ in 0..count {
        deeds.push(Deed::of(&mut draws))?;
    }
    Ok(deeds)
}
