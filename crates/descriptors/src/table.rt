//! The open files of all sessions, and their descriptors.

ghost use Rattle.std.specs.Prelude.{◌≡◌, ◌<◌, ◌≤◌, IfOk, IsSome, OnErr, None, Some, is_none, length, position, option_map};
ghost use Rattle.std.specs.Prelude.{slice_index_or};
ghost use Rattle.tree.specs.Tree.{is_open, leads_to, most_sessions, most_size};
ghost use Rattle.lemmas.specs.Sums.{some_below};

use crate::free::first_free;
use crate::opened::{OpenFiles, Opened};
use errno::Errno;
use std::alloc::{AllocError, Global};
use std::marker::Model;
use tree::{MAX_DESCRIPTORS, MAX_SESSIONS, OpenFlags};

/// The open files of all sessions and the descriptors that lead to them: contracts see both as lists, and through `files_of` as the open
/// files and descriptors of the file tree. There are at most 128 open files, and 32 descriptors in each of 64 sessions. All memory is
/// taken when they are made. Sessions are below 64: that is the caller's to see to. A refused call leaves all as it was.
#[derive(Drop)]
pub struct Descriptors {
    files: OpenFiles,
    // For each session the number of each descriptor's open file.
    sessions: Vec<[Option<u8>; 32]>,
}

impl Model for Descriptors {
    ghost use Rattle.descriptors.specs.Table.{Table, IsTable};

    ghost Value = { Table };

    ghost view = { λ d. record { opened = d.files; sessions = d.sessions.items } };

    ghost invariant = { λ d. IsTable (record { opened = d.files; sessions = d.sessions.items }) };
}

/// Whether a descriptor leads to the open file of this number.
fn leads_to(held: Option<u8>, number: u8) -> bool
    ensures { result ≡ leads_to number held }
{
    match held {
        Some(other) => other == number,
        None => false,
    }
}

/// Whether some descriptor of a session leads to the open file of this number.
fn has_number(session: &[Option<u8>], number: u8) -> bool
    ensures { result ≡ some_below (λ fd. leads_to number (slice_index_or session.now fd None)) (length session.now) }
{
    for fd in 0..session.len() {
        if leads_to(session[fd], number) {
            return true;
        }
    }
    false
}

impl Descriptors {
    ghost use Rattle.descriptors.specs.Files.{AreFiles, close_file, dup_file, file_at, is_busy, moved, put_file, room_for_file, tree_with};
    ghost use Rattle.descriptors.specs.Keys.{file_of};
    ghost use Rattle.descriptors.specs.Table.{files_of, number_at, session_at, told};
    ghost use Rattle.descriptors.specs.Made.{no_files, shown};

    /// Room for all open files and descriptors, and none of them.
    pub fn new(alloc: Global) -> Result<Descriptors, AllocError>
        ensures { IfOk result (λ d. files_of d ≡ no_files) }
    {
        let mut sessions = Vec::with_capacity(alloc, MAX_SESSIONS as usize)?;
        for _session in 0..MAX_SESSIONS {
            sessions.push([None; 32])?;
        }
        Ok(Descriptors {
            files: OpenFiles::new(alloc)?,
            sessions,
        })
    }

    /// Opens a node at position 0, under the lowest free descriptor of the session, which it answers. EMFILE where the session has no
    /// free descriptor, else ENFILE where 128 files are open.
    pub fn put(&mut self, session: u8, inode: u16, flags: OpenFlags) -> Result<u32, Errno>
        requires { session < most_sessions }
        ensures put { told result self.new ≡ put_file (files_of self.old) session inode flags.0 }
        ensures refused { OnErr result (self.new ≡ self.old) }
    {
        let Some(fd) = self.free_descriptor(session) else {
            return Err(Errno::EMFILE);
        };
        let Some(number) = self.files.free() else {
            return Err(Errno::ENFILE);
        };
        let file = Opened {
            inode,
            position: 0,
            flags,
        };
        self.files.insert(number, file);
        self.sessions[session as usize][fd] = Some(number as u8);
        Ok(fd as u32)
    }

    /// Whether `put` would open a node for the session: what it would refuse otherwise, EMFILE or ENFILE.
    pub fn can_put(&self, session: u8) -> Result<(), Errno>
        requires { session < most_sessions }
        ensures { result ≡ room_for_file (files_of self.now) session }
    {
        match (self.free_descriptor(session), self.files.free()) {
            (None, _) => Err(Errno::EMFILE),
            (_, None) => Err(Errno::ENFILE),
            (Some(_), Some(_)) => Ok(()),
        }
    }

    /// The lowest free descriptor of the session leads to the same open file as `fd` then. EBADF where `fd` leads to none, else EMFILE
    /// where no descriptor is free.
    pub fn dup(&mut self, session: u8, fd: u32) -> Result<u32, Errno>
        requires { session < most_sessions }
        ensures dup { told result self.new ≡ dup_file (files_of self.old) session fd }
        ensures refused { OnErr result (self.new ≡ self.old) }
    {
        let Some(number) = self.number(session, fd) else {
            return Err(Errno::EBADF);
        };
        let Some(other) = self.free_descriptor(session) else {
            return Err(Errno::EMFILE);
        };
        self.sessions[session as usize][other] = Some(number);
        Ok(other as u32)
    }

    /// Frees a descriptor. Where it was the last one of its open file, that goes too, and its inode is answered: a node without a name may
    /// then be freed, once `is_open` says that no other open file is of it. EBADF where the descriptor leads to none.
    pub fn close(&mut self, session: u8, fd: u32) -> Result<Option<u16>, Errno>
        requires { session < most_sessions }
        ensures close { told result self.new ≡ close_file (files_of self.old) session fd }
        ensures refused { OnErr result (self.new ≡ self.old) }
    {
        let Some(number) = self.number(session, fd) else {
            return Err(Errno::EBADF);
        };
        self.sessions[session as usize][fd as usize] = None;
        if has_number(&self.sessions[session as usize], number) {
            return Ok(None);
        }
        Ok(Some(self.files.remove(number as usize)))
    }

    /// The inode, the position and the flags of a descriptor's open file, if it leads to one.
    pub fn get(&self, session: u8, fd: u32) -> Option<(u16, u32, OpenFlags)>
        requires { session < most_sessions }
        ensures { option_map shown result ≡ file_at (files_of self.now) session fd }
    {
        let number = self.number(session, fd)?;
        let file = self.files.get(number as usize)?;
        Some((file.inode, file.position, file.flags))
    }

    /// Sets the position of a descriptor's open file. That it leads to one, and that the position is at most 2147483647, is the caller's
    /// to see to.
    pub fn set_position(&mut self, session: u8, fd: u32, position: u32)
        requires session { session < most_sessions }
        requires leads { IsSome (file_at (files_of self.old) session fd) }
        requires within { position ≤ most_size }
        ensures { files_of self.new ≡ moved (files_of self.old) session fd position }
    {
        if let Some(number) = self.number(session, fd) {
            self.files.set_position(number as usize, position);
        }
    }

    /// Whether an open file is of this node.
    pub fn is_open(&self, inode: u16) -> bool
        ensures { result ≡ is_open (tree_with (files_of self.now)) inode }
    {
        self.files.has_inode(inode)
    }

    /// Whether some file is open.
    pub fn is_busy(&self) -> bool
        ensures { result ≡ is_busy (files_of self.now) }
    {
        self.files.has_some()
    }

    /// What holds of all open files and descriptors, whatever was called: at most 128 open files with numbers below that, positions up to
    /// 2147483647, no descriptor without an open file and no open file without a descriptor.
    pub fn keep_limits(&self)
        ensures { AreFiles (files_of self.now) }
    {
        let _ = &self.files;
    }

    /// The lowest descriptor of a session that leads to no open file.
    fn free_descriptor(&self, session: u8) -> Option<usize>
        requires { session < most_sessions }
        ensures { result ≡ position is_none (session_at self.now session) }
    {
        first_free(&self.sessions[session as usize])
    }

    /// The number of a descriptor's open file.
    fn number(&self, session: u8, fd: u32) -> Option<u8>
        requires { session < most_sessions }
        ensures { result ≡ number_at self.now session fd }
    {
        if fd < MAX_DESCRIPTORS {
            self.sessions[session as usize][fd as usize]
        } else {
            None
        }
    }
}
