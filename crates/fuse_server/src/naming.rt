//! Names: where they lead, further ones, changed ones, and ones that are taken away.
#![tactic(auto, using(crate::proofs::Asking::goes_on, crate::proofs::Asking::stays, crate::proofs::Plans::by_plan, crate::proofs::Steps::steps_on, crate::proofs::Steps::no_step, crate::proofs::Steps::step_lost,))]

ghost use Rattle.std.specs.Prelude.{◌≡◌, ◌⊎◌, ℕ, List, IfOk, OnErr, IfSome, IsTrue};
ghost use Rattle.tree.specs.declared.Call.TheVariants as call;
ghost use Rattle.tree.specs.declared.Reply.TheVariants as reply;
ghost use Rattle.talks.specs.Talks.{MayHear};
ghost use Rattle.fuse_nodes.specs.Laws.{IsLost, Steps};
ghost use Rattle.fuse_server.specs.Asking.{look_reply, LookedBefore, Talked, TalkedLooking};
ghost use Rattle.fuse_server.specs.Losing.{is_last};
ghost use Rattle.fuse_nodes.specs.Known.{known_of};
ghost use Rattle.fuse_server.specs.Entries.{IsKnown, KeepsNumbers};
ghost use Rattle.fuse_server.specs.Kinds.{is_done, IsEntry, IsOfLookup};
ghost use Rattle.fuse_server.specs.Reach.{CalledFrom, IsAt, IsNamed};
ghost use Rattle.fuse_server.specs.Telling.{AskedFor, FoundAt, ToldBehind, ShownAt, told_of};
ghost use Rattle.fuse_server.specs.Making.Making.{NewName};
ghost use Rattle.fuse_server.specs.Telling.Telling.{Made, Name, Unlinked, Removed, Renamed};
ghost use Rattle.fuse_server.specs.Plans.{May};
ghost use Rattle.fuse_server.specs.Plans.Kind.{Close, Lstat, Open, Rename};
ghost use Rattle.fuse_server.specs.declared.work.Plan.TheVariants as plan;

use crate::mount::Mount;
use crate::said::{FuseAnswer, Said};
use crate::talk::Seats;
use crate::told::{entry_of, is_directory, kind_of};
use crate::work::Work;
use errno::Errno;
use fuse::reply::Entry;
use fuse_nodes::nodes::Nodes;
use talks::refused::Refused;
use talks::sessions::Sessions;
use tree::{Attributes, Call, MAX_NAME, PathFrom};

/// With this flag of a rename nothing is to stand at the new name.
const NO_REPLACE: u32 = 1;

/// Whether the name that is taken away is the last one of what has these attributes.
fn is_last(attributes: &Attributes) -> bool
    ensures { result ≡ is_last attributes.now }
{
    attributes.links < 2 || is_directory(attributes.mode)
}

impl Seats {
    /// Asks for a rename: the attributes, before it, of what has the new name now, unless it had both.
    fn rename_path<S: Sessions>(
        &mut self,
        sessions: &mut S,
        work: Work,
        old: PathFrom<'_>,
        new: PathFrom<'_>,
    ) -> Result<Attributes, Refused>
        requires old { IsNamed work.reach old }
        requires new { IsNamed work.reach new }
        requires looks { May work.reach.plan Lstat }
        requires renames { May work.reach.plan Rename }
        ensures asked { OnErr result (Talked (CalledFrom work.reach S.called) S.entered S.left work.now sessions.old sessions.new) }
        ensures done { IfOk result (λ was. LookedBefore (CalledFrom work.reach S.called) S.entered S.left work.now sessions.old old.entry
            (reply.Inode was) (call.Rename old.entry new.entry) sessions.new) }
    {
        let was = self.look(sessions, work, old)?;
        self.take(sessions, work, &Call::Rename { old, new })?;
        Ok(was)
    }
}

/// The kernel is told of what has these attributes by a name.
#[tactic(auto, using(crate::proofs::Entries::keeps))]
fn tell_node(nodes: &mut Nodes, attributes: &Attributes) -> Result<Entry, Refused>
    ensures told { IfOk result (IsKnown (known_of nodes.new)) }
    ensures attributes { IfOk result (λ entry. entry.attributes ≡ told_of attributes.now) }
    ensures kept { KeepsNumbers (known_of nodes.old) (known_of nodes.new) }
    ensures steps { Steps (known_of nodes.old) (known_of nodes.new) }
{
    let node = nodes.told(attributes.inode, kind_of(attributes.mode))?;
    Ok(entry_of(node, attributes))
}

/// Looks at a path, and tells the kernel its node.
#[tactic(auto, using(crate::proofs::Asking::goes_on, crate::proofs::Entries::keeps))]
pub(crate) fn tell<S: Sessions>(
    seats: &mut Seats,
    nodes: &mut Nodes,
    sessions: &mut S,
    work: Work,
    path: PathFrom<'_>,
) -> Result<Entry, Refused>
    requires named { IsNamed work.reach path }
    requires looks { May work.reach.plan Lstat }
    ensures asked { Talked (CalledFrom work.reach S.called) S.entered S.left work.now sessions.old sessions.new }
    ensures told { IfOk result (IsKnown (known_of nodes.new)) }
    ensures shown { IfOk result (λ entry. ShownAt (CalledFrom work.reach S.called) S.entered S.left work.now sessions.old path.entry
        entry.attributes sessions.new) }
    ensures kept { KeepsNumbers (known_of nodes.old) (known_of nodes.new) }
    ensures steps { Steps (known_of nodes.old) (known_of nodes.new) }
{
    let attributes = seats.look(sessions, work, path)?;
    tell_node(nodes, &attributes)
}

impl Mount {
    /// Looks at a path, and tells the kernel its node.
    pub(crate) fn tell<S: Sessions>(
        &mut self,
        sessions: &mut S,
        work: Work,
        path: PathFrom<'_>,
    ) -> Result<Entry, Refused>
        requires named { IsNamed work.reach path }
        requires looks { May work.reach.plan Lstat }
        ensures asked { Talked (CalledFrom work.reach S.called) S.entered S.left work.now sessions.old sessions.new }
        ensures told { IfOk result (IsKnown (known_of self.new.nodes)) }
        ensures shown { IfOk result (λ entry. ShownAt (CalledFrom work.reach S.called) S.entered S.left work.now sessions.old path.entry
            entry.attributes sessions.new) }
        ensures steps { Steps (known_of self.old.nodes) (known_of self.new.nodes) }
    {
        tell(&mut self.seats, &mut self.nodes, sessions, work, path)
    }

    /// What a path leads to, of which the kernel is told; nothing where it leads to nothing.
    fn find<S: Sessions>(
        &mut self,
        sessions: &mut S,
        work: Work,
        path: PathFrom<'_>,
    ) -> Result<Option<Entry>, Refused>
        requires named { IsNamed work.reach path }
        requires looks { May work.reach.plan Lstat }
        ensures asked { Talked (CalledFrom work.reach S.called) S.entered S.left work.now sessions.old sessions.new }
        ensures told { IfOk result (λ found. IfSome found (IsKnown (known_of self.new.nodes))) }
        ensures shown { IfOk result (λ found. FoundAt (CalledFrom work.reach S.called) S.entered S.left work.now sessions.old path.entry
            found sessions.new) }
        ensures steps { Steps (known_of self.old.nodes) (known_of self.new.nodes) }
    {
        match self.seats.look_for(sessions, work, path)? {
            Some(attributes) => Ok(Some(tell_node(&mut self.nodes, &attributes)?)),
            None => Ok(None),
        }
    }

    /// What a LOOKUP of a path is answered.
    fn lookup_at<S: Sessions>(&mut self, sessions: &mut S, work: Work, path: PathFrom<'_>) -> Said
        requires named { IsNamed work.reach path }
        requires looks { May work.reach.plan Lstat }
        ensures asked { (name : List ℕ) → IsAt work.reach.own name path.entry
            → AskedFor (MayHear (CalledFrom work.reach S.called) S.entered S.left work.now) work.reach (Name name) (known_of self.new.nodes)
            sessions.old result
            sessions.new }
        ensures told { IsOfLookup (known_of self.new.nodes) result }
        ensures steps { Steps (known_of self.old.nodes) (known_of self.new.nodes) }
    {
        match self.find(sessions, work, path) {
            Ok(Some(entry)) => Said::Plain(FuseAnswer::Entry(entry)),
            Ok(None) => Said::Missing,
            Err(refused) => Said::Plain(FuseAnswer::Refused(refused)),
        }
    }

    /// LOOKUP. A name that is longer than any entry's is missing (own): programs look whether some other word of theirs names a file, and
    /// take no error but ENOENT for a no.
    pub(crate) fn lookup<S: Sessions>(&mut self, sessions: &mut S, work: Work, name: &[u8]) -> Said
        requires plan { work.reach.plan ≡ plan.Look }
        ensures asked { AskedFor (MayHear (CalledFrom work.reach S.called) S.entered S.left work.now) work.reach (Name name.now)
            (known_of self.new.nodes) sessions.old result sessions.new }
        ensures told { IsOfLookup (known_of self.new.nodes) result }
        ensures steps { Steps (known_of self.old.nodes) (known_of self.new.nodes) }
    {
        if name.len() > MAX_NAME {
            return Said::Missing;
        }
        match work.reach.below(name) {
            Ok(path) => self.lookup_at(sessions, work, path),
            Err(refused) => Said::Plain(FuseAnswer::Refused(refused)),
        }
    }

    /// LINK: a further name for the file of a node.
    pub(crate) fn link<S: Sessions>(
        &mut self,
        sessions: &mut S,
        work: Work,
        name: &[u8],
    ) -> Result<FuseAnswer, Refused>
        requires plan { work.reach.plan ≡ plan.Link }
        ensures asked { OnErr result (Talked (CalledFrom work.reach S.called) S.entered S.left work.now sessions.old sessions.new) }
        ensures told { IfOk result (IsEntry (known_of self.new.nodes)) }
        ensures behind { IfOk result (λ a. ToldBehind (CalledFrom work.reach S.called) S.entered S.left work.now work.reach (Made name.now
            NewName) (known_of self.new.nodes) sessions.old a sessions.new) }
        ensures steps { Steps (known_of self.old.nodes) (known_of self.new.nodes) }
    {
        let old = work.reach.other()?;
        let new = work.reach.below(name)?;
        self.seats
            .ask_done(sessions, work, &Call::Link { old, new })?;
        let entry = self.tell(sessions, work, new)?;
        Ok(FuseAnswer::Entry(entry))
    }

    /// UNLINK: a file's name is taken away.
    pub(crate) fn unlink<S: Sessions>(
        &mut self,
        sessions: &mut S,
        work: Work,
        name: &[u8],
    ) -> Result<FuseAnswer, Refused>
        requires plan { work.reach.plan ≡ plan.Unlink }
        ensures asked { OnErr result (Talked (CalledFrom work.reach S.called) S.entered S.left work.now sessions.old sessions.new) }
        ensures told { IfOk result (λ a. IsTrue (is_done a)) }
        ensures behind { IfOk result (λ a. ToldBehind (CalledFrom work.reach S.called) S.entered S.left work.now work.reach (Unlinked
            name.now) (known_of self.new.nodes) sessions.old a sessions.new) }
        ensures steps { Steps (known_of self.old.nodes) (known_of self.new.nodes) }
    {
        let path = work.reach.below(name)?;
        let was = self.seats.look(sessions, work, path)?;
        self.hold(sessions, work, path, was.inode)?;
        self.seats.take(sessions, work, &Call::Unlink { path })?;
        self.lose(&was);
        Ok(FuseAnswer::Done)
    }

    /// A name was taken from what has these attributes.
    fn lose(&mut self, was: &Attributes)
        ensures lost { IsTrue (is_last was.now) → IsLost (known_of self.new.nodes) was.now.inode }
        ensures steps { Steps (known_of self.old.nodes) (known_of self.new.nodes) }
    {
        if is_last(was) {
            self.nodes.lost(was.inode);
        }
    }

    /// RMDIR: an empty directory's name is taken away.
    pub(crate) fn rmdir<S: Sessions>(
        &mut self,
        sessions: &mut S,
        work: Work,
        name: &[u8],
    ) -> Result<FuseAnswer, Refused>
        requires plan { work.reach.plan ≡ plan.Rmdir }
        ensures asked { OnErr result (Talked (CalledFrom work.reach S.called) S.entered S.left work.now sessions.old sessions.new) }
        ensures told { IfOk result (λ a. IsTrue (is_done a)) }
        ensures behind { IfOk result (λ a. ToldBehind (CalledFrom work.reach S.called) S.entered S.left work.now work.reach (Removed
            name.now) (known_of self.new.nodes) sessions.old a sessions.new) }
        ensures steps { Steps (known_of self.old.nodes) (known_of self.new.nodes) }
    {
        let path = work.reach.below(name)?;
        let was = self.seats.look(sessions, work, path)?;
        self.seats.take(sessions, work, &Call::Rmdir { path })?;
        self.nodes.lost(was.inode);
        Ok(FuseAnswer::Done)
    }

    /// What a rename replaces, which keeps a descriptor if it is open. EEXIST where nothing is to stand there.
    fn replaced<S: Sessions>(
        &mut self,
        sessions: &mut S,
        work: Work,
        path: PathFrom<'_>,
        flags: u32,
    ) -> Result<Option<Attributes>, Refused>
        requires named { IsNamed work.reach path }
        requires looks { May work.reach.plan Lstat }
        requires opens { May work.reach.plan Open }
        requires closes { May work.reach.plan Close }
        ensures asked { Talked (CalledFrom work.reach S.called) S.entered S.left work.now sessions.old sessions.new }
        ensures seen { IfOk result (λ found. TalkedLooking (CalledFrom work.reach S.called) S.entered S.left work.now sessions.old
            path.entry (look_reply found) sessions.new) }
        ensures steps { Steps (known_of self.old.nodes) (known_of self.new.nodes) }
    {
        let Some(attributes) = self.seats.look_for(sessions, work, path)? else {
            return Ok(None);
        };
        if flags == NO_REPLACE {
            return Err(Refused::By(Errno::EEXIST));
        }
        self.hold(sessions, work, path, attributes.inode)?;
        Ok(Some(attributes))
    }

    /// A name became another one of this inode. What it replaced lost it, unless both were names of one file: then nothing was changed.
    fn moved(&mut self, inode: u16, replaced: Option<Attributes>)
        ensures lost { IfSome replaced (λ was. IsTrue (is_last was) → (was.inode ≡ inode) ⊎ IsLost (known_of self.new.nodes) was.inode) }
        ensures steps { Steps (known_of self.old.nodes) (known_of self.new.nodes) }
    {
        if let Some(attributes) = replaced {
            if attributes.inode != inode {
                self.lose(&attributes);
            }
        }
    }

    /// RENAME and RENAME2. EINVAL: a flag isn't known here.
    pub(crate) fn rename<S: Sessions>(
        &mut self,
        sessions: &mut S,
        work: Work,
        from: &[u8],
        to: &[u8],
        flags: u32,
    ) -> Result<FuseAnswer, Refused>
        requires plan { work.reach.plan ≡ plan.Rename }
        ensures asked { OnErr result (Talked (CalledFrom work.reach S.called) S.entered S.left work.now sessions.old sessions.new) }
        ensures told { IfOk result (λ a. IsTrue (is_done a)) }
        ensures behind { IfOk result (λ a. ToldBehind (CalledFrom work.reach S.called) S.entered S.left work.now work.reach (Renamed
            from.now to.now) (known_of self.new.nodes) sessions.old a sessions.new) }
        ensures steps { Steps (known_of self.old.nodes) (known_of self.new.nodes) }
    {
        if flags > NO_REPLACE {
            return Err(Refused::By(Errno::EINVAL));
        }
        let old = work.reach.below(from)?;
        let new = work.reach.below_other(to)?;
        let replaced = self.replaced(sessions, work, new, flags)?;
        let moved = self.seats.rename_path(sessions, work, old, new)?;
        self.moved(moved.inode, replaced);
        Ok(FuseAnswer::Done)
    }
}
