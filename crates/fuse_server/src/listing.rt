//! Directories: their entries, as they were when they were asked for from the start.
#![tactic(auto, using(crate::proofs::Asking::goes_on, crate::proofs::Asking::stays, crate::proofs::Plans::by_plan, crate::proofs::Steps::steps_on, crate::proofs::Steps::no_step,))]

ghost use Rattle.std.specs.Prelude.{◌≡◌, ◌≤◌, ◌<◌, ◌+◌, ◌^◌, IfOk, IfSome, IsTrue, length};
ghost use Rattle.fuse_server.specs.Asking.{Talked};
ghost use Rattle.fuse_server.specs.Kinds.{is_open, IsWithin};
ghost use Rattle.fuse_server.specs.Reach.{CalledFrom, IsNamed};
ghost use Rattle.fuse_server.specs.Plans.{May};
ghost use Rattle.fuse_server.specs.Plans.Kind.{Close, Lstat, Open, Readdir};
ghost use Rattle.fuse_server.specs.declared.work.Plan.TheVariants as plan;
ghost use Rattle.fuse_nodes.specs.Laws.{Steps};
ghost use Rattle.fuse_nodes.specs.Known.{known_of};

use crate::bounds::{most_of, within};
use crate::descriptors::{Opening, READ, close};
use crate::mount::Mount;
use crate::said::FuseAnswer;
use crate::talk::calling;
use crate::told::opened_directory;
use crate::work::Work;
use errno::Errno;
use fuse::entries::{ReaddirEntry, push_entry};
use fuse::request::Span;
use fuse_nodes::handles::Names;
use fuse_nodes::node::NodeKind;
use std::alloc::Global;
use talks::refused::Refused;
use talks::sessions::Sessions;
use tree::{Call, Entry, MAX_NAME, PathFrom};

/// The type of an entry that is a directory.
const DIRECTORY: u32 = 4;

/// Where no type is told: the kernel looks at the name for it.
const NOT_TOLD: u32 = 0;

/// The entry at a place: first the directory itself and the one above, then its names; none past the last one.
pub(crate) fn entry_at(names: &Names, at: usize) -> Option<ReaddirEntry<'_>>
    requires { at + 1 < 2 ^ 64 }
    ensures { IfSome result (λ entry. length entry.name.now ≤ 60) }
{
    let next = at as u64 + 1;
    match at {
        0 => Some(ReaddirEntry {
            inode: u64::from(names.own),
            next,
            kind: DIRECTORY,
            name: b".",
        }),
        1 => Some(ReaddirEntry {
            inode: u64::from(names.above),
            next,
            kind: DIRECTORY,
            name: b"..",
        }),
        _ => named_entry(&names.entries, at - 2, next),
    }
}

/// The entry of the name at a place.
fn named_entry(entries: &[Entry], at: usize, next: u64) -> Option<ReaddirEntry<'_>>
    ensures { IfSome result (λ entry. length entry.name.now ≤ 60) }
{
    let entry = entries.get(at)?;
    Some(ReaddirEntry {
        inode: u64::from(entry.inode),
        next,
        kind: NOT_TOLD,
        name: within(&entry.name, MAX_NAME as u32),
    })
}

/// An offset as a place.
pub(crate) fn place_of(offset: u64) -> usize {
    offset as usize
}

/// The entries from a place on, as they are written, in at most so many bytes.
fn entries_from(alloc: Global, names: &Names, from: usize, room: usize) -> Result<Vec<u8>, Refused>
    ensures { IfOk result (λ bytes. length bytes.items ≤ room) }
{
    let mut bytes = Vec::new(alloc);
    'entries: for at in from..names.entries.len() + 2 {
        let Some(entry) = entry_at(names, at) else {
            return Ok(bytes);
        };
        if room - bytes.len() < entry.len() {
            return Ok(bytes);
        }
        push_entry(&mut bytes, &entry)?;
    }
    Ok(bytes)
}

impl Mount {
    /// OPENDIR: a handle. Nothing is asked yet. ENOTDIR where the node is no directory.
    pub(crate) fn open_directory(&mut self, node: u64) -> Result<FuseAnswer, Refused>
        ensures told { IfOk result (λ a. IsTrue (is_open a)) }
        ensures steps { Steps (known_of self.old.nodes) (known_of self.new.nodes) }
    {
        if self.nodes.get(node)?.kind != NodeKind::Directory {
            return Err(Refused::By(Errno::ENOTDIR));
        }
        let handle = self.handles.open_directory(node)?;
        Ok(FuseAnswer::Open(opened_directory(handle)))
    }

    /// The names of the directory at a path.
    fn names_at<S: Sessions>(
        &mut self,
        sessions: &mut S,
        work: Work,
        path: PathFrom<'_>,
    ) -> Result<Vec<Entry>, Refused>
        requires named { IsNamed work.reach path }
        requires opens { May work.reach.plan Open }
        requires closes { May work.reach.plan Close }
        requires lists { May work.reach.plan Readdir }
        ensures asked { Talked (CalledFrom work.reach S.called) S.entered S.left work.now sessions.old sessions.new }
        ensures steps { Steps (known_of self.old.nodes) (known_of self.new.nodes) }
    {
        let opening = Opening {
            path,
            flags: READ,
            mode: 0,
        };
        let descriptor = self.open_path(sessions, work, opening, 0)?;
        let call = Call::Readdir { fd: descriptor.fd };
        let names = calling(sessions, work, descriptor.session, &call).names();
        close(sessions, work, descriptor);
        names
    }

    /// The names of the message's node, and the inodes of itself and the directory above.
    fn names_of<S: Sessions>(&mut self, sessions: &mut S, work: Work) -> Result<Names, Refused>
        requires looks { May work.reach.plan Lstat }
        requires opens { May work.reach.plan Open }
        requires closes { May work.reach.plan Close }
        requires lists { May work.reach.plan Readdir }
        ensures asked { Talked (CalledFrom work.reach S.called) S.entered S.left work.now sessions.old sessions.new }
        ensures steps { Steps (known_of self.old.nodes) (known_of self.new.nodes) }
    {
        let path = work.reach.node()?;
        let own = self.nodes.inode(work.node)?;
        let above = work.reach.above()?;
        let above = self.seats.look(sessions, work, above)?.inode;
        let entries = self.names_at(sessions, work, path)?;
        Ok(Names {
            own,
            above,
            entries,
        })
    }

    /// The node of an open directory is the message's; EBADF where it is another one, or no directory is open under the number.
    pub(crate) fn check_directory(&self, work: Work, handle: u64) -> Result<(), Refused> {
        if self.handles.directory(handle)? != work.node {
            return Err(Refused::By(Errno::EBADF));
        }
        Ok(())
    }

    /// Whether the entries of an open directory are asked for anew: from the start on, or where none are kept.
    fn is_fresh(&self, span: Span) -> bool {
        span.offset == 0 || self.handles.names(span.handle).is_err()
    }

    /// The entries of an open directory are kept with its handle: those that it has now, where they are asked for anew, so that changes
    /// between two messages hide none.
    pub(crate) fn keep_names<S: Sessions>(
        &mut self,
        sessions: &mut S,
        work: Work,
        span: Span,
    ) -> Result<(), Refused>
        requires looks { May work.reach.plan Lstat }
        requires opens { May work.reach.plan Open }
        requires closes { May work.reach.plan Close }
        requires lists { May work.reach.plan Readdir }
        ensures asked { Talked (CalledFrom work.reach S.called) S.entered S.left work.now sessions.old sessions.new }
        ensures steps { Steps (known_of self.old.nodes) (known_of self.new.nodes) }
    {
        self.check_directory(work, span.handle)?;
        if !self.is_fresh(span) {
            return Ok(());
        }
        let names = self.names_of(sessions, work)?;
        self.handles.keep(span.handle, names);
        Ok(())
    }

    /// Entries that are kept with a handle, as they are written.
    fn kept(&self, span: Span) -> Result<FuseAnswer, Refused>
        ensures { IfOk result (IsWithin span.count) }
    {
        let names = self.handles.names(span.handle)?;
        let room = most_of(span.count) as usize;
        let bytes = entries_from(self.alloc, names, place_of(span.offset), room)?;
        Ok(FuseAnswer::Bytes(bytes))
    }

    /// READDIR: the entries from an offset on, as many as have room.
    pub(crate) fn readdir<S: Sessions>(
        &mut self,
        sessions: &mut S,
        work: Work,
        span: Span,
    ) -> Result<FuseAnswer, Refused>
        requires plan { work.reach.plan ≡ plan.List }
        ensures asked { Talked (CalledFrom work.reach S.called) S.entered S.left work.now sessions.old sessions.new }
        ensures told { IfOk result (IsWithin span.count) }
        ensures steps { Steps (known_of self.old.nodes) (known_of self.new.nodes) }
    {
        self.keep_names(sessions, work, span)?;
        self.kept(span)
    }
}
