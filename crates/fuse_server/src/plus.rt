//! READDIRPLUS: the entries of a directory, each behind what its name leads to, so that the kernel needs no LOOKUP of it.
#![tactic(auto, using(crate::proofs::Asking::goes_on, crate::proofs::Asking::stays, crate::proofs::Plans::by_plan, crate::proofs::Steps::steps_on, crate::proofs::Steps::no_step,))]

ghost use Rattle.std.specs.Prelude.{◌≡◌, ◌≤◌, ◌+◌, IfOk, IsTrue, length, vec_capacity};
ghost use Rattle.fuse_nodes.specs.Known.{known_of};
ghost use Rattle.fuse_server.specs.Asking.{Talked};
ghost use Rattle.fuse_server.specs.Entries.{MaybeKnown, KeepsNumbers, IsListed};
ghost use Rattle.fuse_server.specs.Kinds.{IsPlus};
ghost use Rattle.fuse_server.specs.Reach.{CalledFrom};
ghost use Rattle.fuse_server.specs.Plans.{May};
ghost use Rattle.fuse_server.specs.Plans.Kind.{Lstat};
ghost use Rattle.fuse_server.specs.declared.work.Plan.TheVariants as plan;
ghost use Rattle.fuse_nodes.specs.Laws.{Steps};

use crate::bounds::most_of;
use crate::listing::{entry_at, place_of};
use crate::mount::Mount;
use crate::naming::tell;
use crate::said::FuseAnswer;
use crate::talk::Seats;
use crate::told::nothing;
use crate::work::Work;
use fuse::entries::{ReaddirEntry, push_entry_plus};
use fuse::reply::Entry;
use fuse::request::Span;
use fuse_nodes::handles::Names;
use fuse_nodes::nodes::Nodes;
use std::alloc::Global;
use talks::refused::Refused;
use talks::sessions::Sessions;

/// How many bytes are told of what a name leads to.
const FOUND: usize = 128;

/// The entries of an open directory from a place on, as many as have room.
#[derive(Clone, Copy)]
struct Listing<'a> {
    names: &'a Names,
    from: usize,
    room: usize,
}

/// What a name leads to, of which the kernel is told. Node 0 for the directory itself and the one above, which it doesn't count, and where
/// nothing is found that can be told: the kernel then asks for the name when it wants it.
#[tactic(auto, using(crate::proofs::Asking::goes_on, crate::proofs::Asking::stays, crate::proofs::Entries::keeps))]
fn found<S: Sessions>(
    seats: &mut Seats,
    nodes: &mut Nodes,
    sessions: &mut S,
    work: Work,
    name: &[u8],
) -> Entry
    requires looks { May work.reach.plan Lstat }
    ensures asked { Talked (CalledFrom work.reach S.called) S.entered S.left work.now sessions.old sessions.new }
    ensures told { MaybeKnown (known_of nodes.new) result }
    ensures kept { KeepsNumbers (known_of nodes.old) (known_of nodes.new) }
    ensures steps { Steps (known_of nodes.old) (known_of nodes.new) }
{
    let Ok(path) = work.reach.below(name) else {
        return nothing();
    };
    match tell(seats, nodes, sessions, work, path) {
        Ok(entry) => entry,
        Err(_) => nothing(),
    }
}

/// An entry, with the inode and the type of what its name leads to, if that is told.
fn as_found<'a>(entry: ReaddirEntry<'a>, found: &Entry) -> ReaddirEntry<'a>
    ensures { result.name ≡ entry.entry.name }
{
    if found.node == 0 {
        return entry;
    }
    ReaddirEntry {
        inode: found.attributes.inode,
        next: entry.next,
        kind: found.attributes.mode / 0o10000,
        name: entry.name,
    }
}

/// Whether an entry of so many bytes, and what its name leads to, have room behind others, which may be so many bytes together. Their memory
/// is found then.
fn has_room(bytes: &mut Vec<u8>, most: usize, len: usize) -> bool
    requires { length bytes.old.items ≤ most }
    ensures items { bytes.new.items ≡ bytes.old.items }
    ensures within { IsTrue result → length bytes.old.items + 128 + len ≤ most }
    ensures found { IsTrue result → length bytes.old.items + 128 + len ≤ vec_capacity bytes.new }
{
    let left = most - bytes.len();
    if left < FOUND || left - FOUND < len {
        return false;
    }
    bytes.reserve(FOUND + len).is_ok()
}

/// Tells an entry behind others; false where it has no room, and then nothing is told.
fn push_found<S: Sessions>(
    seats: &mut Seats,
    nodes: &mut Nodes,
    sessions: &mut S,
    work: Work,
    listing: Listing<'_>,
    entry: ReaddirEntry<'_>,
    bytes: &mut Vec<u8>,
) -> bool
    requires name { length entry.name.now ≤ 60 }
    requires room { length bytes.old.items ≤ listing.room }
    requires looks { May work.reach.plan Lstat }
    ensures asked { Talked (CalledFrom work.reach S.called) S.entered S.left work.now sessions.old sessions.new }
    ensures room { length bytes.new.items ≤ listing.entry.room }
    ensures listed { IsListed (known_of nodes.old) bytes.old.items → IsListed (known_of nodes.new) bytes.new.items }
    ensures steps { Steps (known_of nodes.old) (known_of nodes.new) }
{
    if has_room(bytes, listing.room, entry.len()) {
        let told = found(seats, nodes, sessions, work, entry.name);
        let written = as_found(entry, &told);
        match push_entry_plus(bytes, &told, &written) {
            Ok(()) => return true,
            Err(_) => unreachable!(),
        }
    }
    false
}

/// Tells the entries of an open directory, as they are written. Their room is found before anything is told.
fn told_entries<S: Sessions>(
    seats: &mut Seats,
    nodes: &mut Nodes,
    sessions: &mut S,
    work: Work,
    alloc: Global,
    listing: Listing<'_>,
) -> Result<Vec<u8>, Refused>
    requires looks { May work.reach.plan Lstat }
    ensures asked { Talked (CalledFrom work.reach S.called) S.entered S.left work.now sessions.old sessions.new }
    ensures room { IfOk result (λ bytes. length bytes.items ≤ listing.entry.room) }
    ensures listed { IfOk result (λ bytes. IsListed (known_of nodes.new) bytes.items) }
    ensures steps { Steps (known_of nodes.old) (known_of nodes.new) }
{
    let mut bytes = Vec::with_capacity(alloc, listing.room)?;
    'entries: for at in listing.from..listing.names.entries.len() + 2 {
        let Some(entry) = entry_at(listing.names, at) else {
            return Ok(bytes);
        };
        if !push_found(seats, nodes, sessions, work, listing, entry, &mut bytes) {
            return Ok(bytes);
        }
    }
    Ok(bytes)
}

impl Mount {
    /// Entries that are kept with a handle, each behind what its name leads to.
    fn kept_plus<S: Sessions>(
        &mut self,
        sessions: &mut S,
        work: Work,
        span: Span,
    ) -> Result<FuseAnswer, Refused>
        requires looks { May work.reach.plan Lstat }
        ensures asked { Talked (CalledFrom work.reach S.called) S.entered S.left work.now sessions.old sessions.new }
        ensures told { IfOk result (IsPlus (known_of self.new.nodes) span.count) }
        ensures steps { Steps (known_of self.old.nodes) (known_of self.new.nodes) }
    {
        let listing = Listing {
            names: self.handles.names(span.handle)?,
            from: place_of(span.offset),
            room: most_of(span.count) as usize,
        };
        let bytes = told_entries(
            &mut self.seats,
            &mut self.nodes,
            sessions,
            work,
            self.alloc,
            listing,
        )?;
        Ok(FuseAnswer::Bytes(bytes))
    }

    /// READDIRPLUS: the entries that READDIR would tell, each behind what LOOKUP of its name would answer, as many as have room. The
    /// kernel has looked up each whose node isn't 0, and none that isn't told.
    pub(crate) fn readdirplus<S: Sessions>(
        &mut self,
        sessions: &mut S,
        work: Work,
        span: Span,
    ) -> Result<FuseAnswer, Refused>
        requires plan { work.reach.plan ≡ plan.List }
        ensures asked { Talked (CalledFrom work.reach S.called) S.entered S.left work.now sessions.old sessions.new }
        ensures told { IfOk result (IsPlus (known_of self.new.nodes) span.count) }
        ensures steps { Steps (known_of self.old.nodes) (known_of self.new.nodes) }
    {
        self.keep_names(sessions, work, span)?;
        self.kept_plus(sessions, work, span)
    }
}
