//! Descriptors: one for a file, which all its handles share. Where the server has no more, one is closed whose file isn't gone: it is
//! opened again when it is used.
#![tactic(auto, using(crate::proofs::Asking::goes_on, crate::proofs::Asking::stays, crate::proofs::Steps::steps_on, crate::proofs::Steps::no_step, crate::proofs::Steps::step_given, crate::proofs::Steps::step_got, crate::proofs::Steps::step_closed,))]

ghost use Rattle.std.specs.Prelude.{IfOk};
ghost use Rattle.fuse_server.specs.Asking.{IsClosed, OpenedAt, Talked};
ghost use Rattle.fuse_server.specs.Telling.{HasOwn};
ghost use Rattle.fuse_server.specs.Reach.{CalledFrom, IsNamed};
ghost use Rattle.fuse_server.specs.Plans.{May, open_kind};
ghost use Rattle.fuse_server.specs.Plans.Kind.{Open, Close};
ghost use Rattle.fuse_nodes.specs.Laws.{Steps};
ghost use Rattle.fuse_nodes.specs.Known.{known_of};

use crate::mount::Mount;
use crate::talk::{Seats, calling};
use crate::work::Work;
use bitflags::Flags;
use errno::Errno;
use fuse_nodes::node::Descriptor;
use talks::refused::Refused;
use talks::sessions::Sessions;
use tree::{Call, OpenFlags, PathFrom};

/// The most sessions of user 0: together they have as many descriptors as the server has.
const MOST_SEATS: usize = 4;

/// The bits of the flags of open.
pub(crate) const READ: u8 = 1;

pub(crate) const READ_WRITE: u8 = 3;

/// To read and write a file that is made, where nothing stands at its name.
pub(crate) const NEW: u8 = 27;

/// How a path is opened.
#[derive(Clone, Copy)]
pub(crate) struct Opening<'a> {
    pub path: PathFrom<'a>,
    pub flags: u8,
    /// The permissions of a file that is made.
    pub mode: u16,
}

/// Closes a descriptor.
pub(crate) fn close<S: Sessions>(sessions: &mut S, work: Work, descriptor: Descriptor)
    requires closes { May work.reach.plan Close }
    ensures asked { Talked (CalledFrom work.reach S.called) S.entered S.left work.now sessions.old sessions.new }
    ensures closed { IsClosed (CalledFrom work.reach S.called) S.entered S.left work.now sessions.old descriptor.fd sessions.new }
{
    let call = Call::Close { fd: descriptor.fd };
    let _ = calling(sessions, work, descriptor.session, &call);
}

/// Opens a path by a session.
fn open_by<S: Sessions>(
    sessions: &mut S,
    work: Work,
    session: u8,
    opening: Opening<'_>,
) -> Result<Descriptor, Refused>
    requires named { IsNamed work.reach opening.path }
    requires opens { May work.reach.plan (open_kind opening.flags) }
    ensures asked { Talked (CalledFrom work.reach S.called) S.entered S.left work.now sessions.old sessions.new }
    ensures opened { IfOk result (λ descriptor. OpenedAt (CalledFrom work.reach S.called) S.entered S.left work.now
        sessions.old opening.entry.path opening.entry.mode descriptor sessions.new) }
{
    let call = Call::Open {
        path: opening.path,
        flags: OpenFlags::from_bits_retain(opening.flags),
        mode: opening.mode,
    };
    let fd = calling(sessions, work, session, &call).descriptor()?;
    Ok(Descriptor { session, fd })
}

/// Whether a session has no more descriptors.
fn is_full(opened: &Result<Descriptor, Refused>) -> bool {
    matches!(opened, Err(Refused::By(Errno::EMFILE)))
}

/// Whether all sessions together have no more.
fn are_full(opened: &Result<Descriptor, Refused>) -> bool {
    matches!(opened, Err(Refused::By(Errno::ENFILE)))
}

impl Seats {
    /// Opens a path by the first session that has descriptors; ENFILE where none has.
    fn open_somewhere<S: Sessions>(
        &mut self,
        sessions: &mut S,
        work: Work,
        opening: Opening<'_>,
    ) -> Result<Descriptor, Refused>
        requires named { IsNamed work.reach opening.path }
        requires opens { May work.reach.plan (open_kind opening.flags) }
        ensures asked { Talked (CalledFrom work.reach S.called) S.entered S.left work.now sessions.old sessions.new }
        ensures opened { IfOk result (λ descriptor. OpenedAt (CalledFrom work.reach S.called) S.entered S.left work.now
            sessions.old opening.entry.path opening.entry.mode descriptor sessions.new) }
    {
        'seats: for at in 0..MOST_SEATS {
            let session = self.session(sessions, work, at)?;
            let opened = open_by(sessions, work, session, opening);
            if !is_full(&opened) {
                return opened;
            }
        }
        Err(Refused::By(Errno::ENFILE))
    }
}

impl Mount {
    /// Closes the descriptor of a file, but not of this node, that isn't gone, so that it can be opened again; ENFILE where there is none.
    fn make_room<S: Sessions>(
        &mut self,
        sessions: &mut S,
        work: Work,
        but: u64,
    ) -> Result<(), Refused>
        requires closes { May work.reach.plan Close }
        ensures asked { Talked (CalledFrom work.reach S.called) S.entered S.left work.now sessions.old sessions.new }
        ensures steps { Steps (known_of self.old.nodes) (known_of self.new.nodes) }
    {
        let Some((node, descriptor)) = self.nodes.spare(but) else {
            return Err(Refused::By(Errno::ENFILE));
        };
        let _ = self.nodes.take_descriptor(node);
        close(sessions, work, descriptor);
        Ok(())
    }

    /// Opens a path. Where the server has no more descriptors, one is closed first, but not this node's.
    pub(crate) fn open_path<S: Sessions>(
        &mut self,
        sessions: &mut S,
        work: Work,
        opening: Opening<'_>,
        but: u64,
    ) -> Result<Descriptor, Refused>
        requires named { IsNamed work.reach opening.path }
        requires opens { May work.reach.plan (open_kind opening.flags) }
        requires closes { May work.reach.plan Close }
        ensures asked { Talked (CalledFrom work.reach S.called) S.entered S.left work.now sessions.old sessions.new }
        ensures opened { IfOk result (λ descriptor. OpenedAt (CalledFrom work.reach S.called) S.entered S.left work.now
            sessions.old opening.entry.path opening.entry.mode descriptor sessions.new) }
        ensures steps { Steps (known_of self.old.nodes) (known_of self.new.nodes) }
    {
        let opened = self.seats.open_somewhere(sessions, work, opening);
        if !are_full(&opened) {
            return opened;
        }
        self.make_room(sessions, work, but)?;
        self.seats.open_somewhere(sessions, work, opening)
    }

    /// The descriptor of the message's node, which is opened where it has none.
    pub(crate) fn descriptor<S: Sessions>(
        &mut self,
        sessions: &mut S,
        work: Work,
    ) -> Result<Descriptor, Refused>
        requires opens { May work.reach.plan Open }
        requires closes { May work.reach.plan Close }
        ensures asked { Talked (CalledFrom work.reach S.called) S.entered S.left work.now sessions.old sessions.new }
        ensures own { IfOk result (λ descriptor. HasOwn (CalledFrom work.reach S.called) S.entered S.left work.now sessions.old work.reach
            descriptor sessions.new) }
        ensures steps { Steps (known_of self.old.nodes) (known_of self.new.nodes) }
    {
        match work.reach.descriptor {
            Some(descriptor) => Ok(descriptor),
            None => {
                let path = work.reach.node()?;
                self.open_node(sessions, work, path, work.node)
            }
        }
    }

    /// Opens a node at a path: its descriptor.
    fn open_node<S: Sessions>(
        &mut self,
        sessions: &mut S,
        work: Work,
        path: PathFrom<'_>,
        node: u64,
    ) -> Result<Descriptor, Refused>
        requires named { IsNamed work.reach path }
        requires opens { May work.reach.plan Open }
        requires closes { May work.reach.plan Close }
        ensures asked { Talked (CalledFrom work.reach S.called) S.entered S.left work.now sessions.old sessions.new }
        ensures opened { IfOk result (λ descriptor. OpenedAt (CalledFrom work.reach S.called) S.entered S.left work.now
            sessions.old path.entry 0 descriptor sessions.new) }
        ensures steps { Steps (known_of self.old.nodes) (known_of self.new.nodes) }
    {
        let opening = Opening {
            path,
            flags: READ_WRITE,
            mode: 0,
        };
        let descriptor = self.open_path(sessions, work, opening, node)?;
        self.nodes.set_descriptor(node, descriptor);
        Ok(descriptor)
    }

    /// What is open of an inode has a descriptor, before the name at a path is taken from it: a file that is gone can't be opened again. Other
    /// files still have one, so those that are gone never stop them.
    pub(crate) fn hold<S: Sessions>(
        &mut self,
        sessions: &mut S,
        work: Work,
        path: PathFrom<'_>,
        inode: u16,
    ) -> Result<(), Refused>
        requires named { IsNamed work.reach path }
        requires opens { May work.reach.plan Open }
        requires closes { May work.reach.plan Close }
        ensures asked { Talked (CalledFrom work.reach S.called) S.entered S.left work.now sessions.old sessions.new }
        ensures steps { Steps (known_of self.old.nodes) (known_of self.new.nodes) }
    {
        let Some(id) = self.nodes.of(inode) else {
            return Ok(());
        };
        let node = self.nodes.get(id)?;
        if node.opens == 0 {
            return Ok(());
        }
        if node.descriptor.is_none() {
            self.open_node(sessions, work, path, id)?;
        }
        self.leave_room(sessions, work, path, id)
    }

    /// There is a descriptor for other files, beside this node's, which is to be kept from them: one that can be closed, or one more. ENFILE
    /// where there is none.
    fn leave_room<S: Sessions>(
        &mut self,
        sessions: &mut S,
        work: Work,
        path: PathFrom<'_>,
        node: u64,
    ) -> Result<(), Refused>
        requires named { IsNamed work.reach path }
        requires opens { May work.reach.plan Open }
        requires closes { May work.reach.plan Close }
        ensures asked { Talked (CalledFrom work.reach S.called) S.entered S.left work.now sessions.old sessions.new }
        ensures steps { Steps (known_of self.old.nodes) (known_of self.new.nodes) }
    {
        if self.nodes.spare(node).is_some() {
            return Ok(());
        }
        let opening = Opening {
            path,
            flags: READ,
            mode: 0,
        };
        let descriptor = self.seats.open_somewhere(sessions, work, opening)?;
        close(sessions, work, descriptor);
        Ok(())
    }

    /// A node has a handle less; behind the last one its descriptor is closed.
    pub(crate) fn let_go<S: Sessions>(&mut self, sessions: &mut S, work: Work, node: u64)
        requires closes { May work.reach.plan Close }
        ensures asked { Talked (CalledFrom work.reach S.called) S.entered S.left work.now sessions.old sessions.new }
        ensures steps { Steps (known_of self.old.nodes) (known_of self.new.nodes) }
    {
        if let Some(descriptor) = self.nodes.closed(node) {
            close(sessions, work, descriptor);
        }
    }
}
