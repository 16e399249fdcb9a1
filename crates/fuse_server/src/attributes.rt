//! Attributes: what is told of a node, and what is changed.
#![tactic(auto, using(crate::proofs::Asking::goes_on, crate::proofs::Asking::stays, crate::proofs::Plans::by_plan, crate::proofs::Steps::no_step,))]

ghost use Rattle.std.specs.Prelude.{◌≡◌, Some, IfOk, OnOk, OnErr, IsTrue};
ghost use Rattle.tree.specs.declared.Call.TheVariants as call;
ghost use Rattle.tree.specs.declared.Reply.TheVariants as reply;
ghost use Rattle.talks.specs.Changes.{in_order};
ghost use Rattle.fuse_nodes.specs.Known.{Known, known_of};
ghost use Rattle.fuse_server.specs.Asking.{Talked, TalkedBy, TalkedFor};
ghost use Rattle.fuse_server.specs.Changing.{bits_of, changes_done, given_bit};
ghost use Rattle.fuse_server.specs.Kinds.{is_attributes, is_bytes, is_room};
ghost use Rattle.fuse_server.specs.Reach.{CalledFrom, IsNamed};
ghost use Rattle.fuse_server.specs.declared.said.FuseAnswer.TheVariants as answer;
ghost use Rattle.fuse_server.specs.Telling.{SetBehind, ToldBehind, told_of};
ghost use Rattle.fuse_server.specs.Telling.Telling.{Changed, Node, Target, Room};
ghost use Rattle.fuse_server.specs.Plans.{May};
ghost use Rattle.fuse_server.specs.Plans.Kind.{Fstat, Give, Lstat, Readlink, Set, Space};
ghost use Rattle.fuse_server.specs.declared.work.Plan.TheVariants as plan;
ghost use Rattle.fuse_nodes.specs.Laws.{Steps};

use crate::mount::Mount;
use crate::said::FuseAnswer;
use crate::talk::{Seats, calling};
use crate::told::{kind_of, room_of, told};
use crate::work::Work;
use errno::Errno;
use fuse_nodes::node::{Descriptor, NodeKind};
use talks::changes::{Changes, Wanted};
use talks::flags::has;
use talks::refused::Refused;
use talks::sessions::Sessions;
use talks::target::bytes_of;
use tree::{Attributes, Call, LinkTarget, PathFrom, Statfs};

/// The bits of a change that mean something here: its mode, owner, group, size and times.
const CHANGES: u32 = 0x3f;

const MODE: u32 = 0x1;

const SIZE: u32 = 0x8;

const ATIME: u32 = 0x10;

const MTIME: u32 = 0x20;

/// The bits that say that a time is now. With those of [`Wanted`] they have the same places, where they say that it is given.
const ATIME_NOW: u32 = 0x80;

const MTIME_NOW: u32 = 0x100;

/// The most changes that a message wants.
const MOST_CHANGES: usize = 4;

/// A bit, where a time is changed and isn't now.
fn given(valid: u32, time: u32, now: u32) -> u32
    ensures { result ≡ given_bit valid time now }
{
    if has(valid, time) && !has(valid, now) {
        now
    } else {
        0
    }
}

/// The bits of a change, as [`Wanted`] has them.
pub(crate) fn bits_of(valid: u32) -> u32
    ensures { result ≡ bits_of valid }
{
    (valid & CHANGES) | given(valid, ATIME, ATIME_NOW) | given(valid, MTIME, MTIME_NOW)
}

/// Refuses what of a symbolic link can't be changed: EINVAL for a size, EOPNOTSUPP for a mode.
fn check_link(wanted: &Wanted, was: &Attributes) -> Result<(), Refused> {
    if kind_of(was.mode) != NodeKind::Symlink {
        return Ok(());
    }
    if has(wanted.valid, SIZE) {
        return Err(Refused::By(Errno::EINVAL));
    }
    if has(wanted.valid, MODE) {
        return Err(Refused::Unsupported);
    }
    Ok(())
}

/// The attributes, as an answer.
fn answer_of(attributes: &Attributes) -> FuseAnswer
    ensures { result ≡ answer.Attributes (told_of attributes.now) }
{
    FuseAnswer::Attributes(told(attributes))
}

impl Seats {
    /// Makes changes, one after the other.
    fn change<S: Sessions>(
        &mut self,
        sessions: &mut S,
        work: Work,
        path: PathFrom<'_>,
        changes: Changes,
    ) -> Result<(), Refused>
        requires named { IsNamed work.reach path }
        requires sets { May work.reach.plan Set }
        requires gives { May work.reach.plan Give }
        ensures asked { Talked (CalledFrom work.reach S.called) S.entered S.left work.now sessions.old sessions.new }
        ensures made { OnOk result (TalkedBy (CalledFrom work.reach S.called) S.entered S.left work.now sessions.old
            (changes_done path.entry (in_order changes)) sessions.new) }
    {
        let mut left = changes;
        'changes: for _made in 0..MOST_CHANGES {
            let Some((change, more)) = left.split_first() else {
                return Ok(());
            };
            self.ask_done(sessions, work, &change.call(path))?;
            left = more;
        }
        Ok(())
    }

    /// The room of the volume.
    fn space<S: Sessions>(&mut self, sessions: &mut S, work: Work) -> Result<Statfs, Refused>
        requires rooms { May work.reach.plan Space }
        ensures asked { Talked (CalledFrom work.reach S.called) S.entered S.left work.now sessions.old sessions.new }
        ensures seen { IfOk result (λ room. TalkedFor (CalledFrom work.reach S.called) S.entered S.left work.now sessions.old call.Statfs
            (reply.Space room) sessions.new) }
    {
        let heard = self.ask(sessions, work, &Call::Statfs)?;
        heard.space()
    }

    /// The target of the link at a path.
    fn target<S: Sessions>(
        &mut self,
        sessions: &mut S,
        work: Work,
        path: PathFrom<'_>,
    ) -> Result<LinkTarget, Refused>
        requires named { IsNamed work.reach path }
        requires targets { May work.reach.plan Readlink }
        ensures asked { Talked (CalledFrom work.reach S.called) S.entered S.left work.now sessions.old sessions.new }
        ensures seen { IfOk result (λ target. TalkedFor (CalledFrom work.reach S.called) S.entered S.left work.now sessions.old
            (call.Readlink path.entry) (reply.Target target) sessions.new) }
    {
        let heard = self.ask(sessions, work, &Call::Readlink { path })?;
        heard.target()
    }
}

/// The attributes of what a descriptor has open.
fn attributes_open<S: Sessions>(
    sessions: &mut S,
    work: Work,
    descriptor: Descriptor,
) -> Result<Attributes, Refused>
    requires looks_open { May work.reach.plan Fstat }
    ensures asked { Talked (CalledFrom work.reach S.called) S.entered S.left work.now sessions.old sessions.new }
    ensures behind { (k : Known) → IfOk result (λ was. work.reach.descriptor ≡ Some descriptor
        → ToldBehind (CalledFrom work.reach S.called) S.entered S.left work.now work.reach Node k sessions.old (answer.Attributes (told_of
        was)) sessions.new) }
{
    let call = Call::Fstat { fd: descriptor.fd };
    let heard = calling(sessions, work, descriptor.session, &call);
    heard.attributes()
}

impl Seats {
    /// The attributes of the message's node, by its descriptor, if it has one. ESTALE where its inode may be another file's.
    fn attributes<S: Sessions>(
        &mut self,
        sessions: &mut S,
        work: Work,
    ) -> Result<Attributes, Refused>
        requires looks { May work.reach.plan Lstat }
        requires looks_open { May work.reach.plan Fstat }
        ensures asked { Talked (CalledFrom work.reach S.called) S.entered S.left work.now sessions.old sessions.new }
        ensures behind { (k : Known) → IfOk result (λ was. ToldBehind (CalledFrom work.reach S.called) S.entered S.left work.now work.reach
            Node k sessions.old (answer.Attributes (told_of was)) sessions.new) }
    {
        if let Some(descriptor) = work.reach.descriptor {
            return attributes_open(sessions, work, descriptor);
        }
        let path = work.reach.node()?;
        self.look(sessions, work, path)
    }

    /// Changes of the message's node are made: its attributes then.
    fn set_node<S: Sessions>(
        &mut self,
        sessions: &mut S,
        work: Work,
        changes: Changes,
    ) -> Result<Attributes, Refused>
        requires sets { May work.reach.plan Set }
        requires gives { May work.reach.plan Give }
        requires looks { May work.reach.plan Lstat }
        requires looks_open { May work.reach.plan Fstat }
        ensures asked { Talked (CalledFrom work.reach S.called) S.entered S.left work.now sessions.old sessions.new }
        ensures behind { (k : Known) → IfOk result (λ was. SetBehind (CalledFrom work.reach S.called) S.entered S.left work.now work.reach
            changes k sessions.old (told_of was) sessions.new) }
    {
        let path = work.reach.node()?;
        self.change(sessions, work, path, changes)?;
        self.attributes(sessions, work)
    }
}

impl Mount {
    /// GETATTR.
    pub(crate) fn getattr<S: Sessions>(
        &mut self,
        sessions: &mut S,
        work: Work,
    ) -> Result<FuseAnswer, Refused>
        requires plan { work.reach.plan ≡ plan.Attributes }
        ensures asked { OnErr result (Talked (CalledFrom work.reach S.called) S.entered S.left work.now sessions.old sessions.new) }
        ensures told { IfOk result (λ a. IsTrue (is_attributes a)) }
        ensures behind { IfOk result (λ a. ToldBehind (CalledFrom work.reach S.called) S.entered S.left work.now work.reach Node
            (known_of self.new.nodes) sessions.old a sessions.new) }
        ensures steps { Steps (known_of self.old.nodes) (known_of self.new.nodes) }
    {
        let attributes = self.seats.attributes(sessions, work)?;
        Ok(answer_of(&attributes))
    }

    /// SETATTR: of a symbolic link, its own; of a removed file too, while it is open.
    pub(crate) fn setattr<S: Sessions>(
        &mut self,
        sessions: &mut S,
        work: Work,
        wanted: &Wanted,
    ) -> Result<FuseAnswer, Refused>
        requires plan { work.reach.plan ≡ plan.Change }
        ensures asked { OnErr result (Talked (CalledFrom work.reach S.called) S.entered S.left work.now sessions.old sessions.new) }
        ensures told { IfOk result (λ a. IsTrue (is_attributes a)) }
        ensures behind { IfOk result (λ a. ToldBehind (CalledFrom work.reach S.called) S.entered S.left work.now work.reach
            (Changed wanted.entry.now) (known_of self.new.nodes) sessions.old a sessions.new) }
        ensures steps { Steps (known_of self.old.nodes) (known_of self.new.nodes) }
    {
        let was = self.seats.attributes(sessions, work)?;
        check_link(wanted, &was)?;
        let changes = wanted.changes(&was)?;
        let attributes = self.seats.set_node(sessions, work, changes)?;
        Ok(answer_of(&attributes))
    }

    /// READLINK.
    pub(crate) fn readlink<S: Sessions>(
        &mut self,
        sessions: &mut S,
        work: Work,
    ) -> Result<FuseAnswer, Refused>
        requires plan { work.reach.plan ≡ plan.Target }
        ensures asked { OnErr result (Talked (CalledFrom work.reach S.called) S.entered S.left work.now sessions.old sessions.new) }
        ensures told { IfOk result (λ a. IsTrue (is_bytes a)) }
        ensures behind { IfOk result (λ a. ToldBehind (CalledFrom work.reach S.called) S.entered S.left work.now work.reach Target
            (known_of self.new.nodes) sessions.old a sessions.new) }
        ensures steps { Steps (known_of self.old.nodes) (known_of self.new.nodes) }
    {
        let path = work.reach.node()?;
        let target = self.seats.target(sessions, work, path)?;
        let bytes = bytes_of(&target).to_vec(self.alloc)?;
        Ok(FuseAnswer::Bytes(bytes))
    }

    /// STATFS.
    pub(crate) fn statfs<S: Sessions>(
        &mut self,
        sessions: &mut S,
        work: Work,
    ) -> Result<FuseAnswer, Refused>
        requires plan { work.reach.plan ≡ plan.Room }
        ensures asked { OnErr result (Talked (CalledFrom work.reach S.called) S.entered S.left work.now sessions.old sessions.new) }
        ensures told { IfOk result (λ a. IsTrue (is_room a)) }
        ensures behind { IfOk result (λ a. ToldBehind (CalledFrom work.reach S.called) S.entered S.left work.now work.reach Room
            (known_of self.new.nodes) sessions.old a sessions.new) }
        ensures steps { Steps (known_of self.old.nodes) (known_of self.new.nodes) }
    {
        let room = self.seats.space(sessions, work)?;
        Ok(FuseAnswer::Statfs(room_of(&room)))
    }
}
