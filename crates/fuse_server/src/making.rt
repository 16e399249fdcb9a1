//! Files, directories and symbolic links that are made.
#![tactic(auto, using(crate::proofs::Asking::goes_on, crate::proofs::Asking::stays, crate::proofs::Plans::by_plan, crate::proofs::Steps::steps_on, crate::proofs::Steps::no_step,))]

ghost use Rattle.std.specs.Prelude.{◌≡◌, ◌%◌, [], ◌∷◌, IfOk, OnOk, OnErr};
ghost use Rattle.tree.specs.declared.Call.TheVariants as call;
ghost use Rattle.tree.specs.declared.Reply.TheVariants as reply;
ghost use Rattle.fuse_server.specs.Asking.{OpenedAt, Talked, TalkedBy, TalkedFor};
ghost use Rattle.fuse_nodes.specs.Known.{known_of};
ghost use Rattle.fuse_server.specs.Entries.{IsKnown};
ghost use Rattle.fuse_server.specs.Kinds.{IsEntry, IsCreate};
ghost use Rattle.fuse_server.specs.Reach.{CalledFrom, IsNamed};
ghost use Rattle.fuse_server.specs.Making.{asker, given_to, seen_at};
ghost use Rattle.fuse_server.specs.Telling.{LinkGiven, LinkShown, ShownBy, ToldBehind, told_of};
ghost use Rattle.fuse_server.specs.Telling.Telling.{Made};
ghost use Rattle.fuse_server.specs.Making.Making.{NewDirectory, NewFile, NewLink};
ghost use Rattle.fuse_server.specs.Plans.{May};
ghost use Rattle.fuse_server.specs.Plans.Kind.{Close, Give, Lstat, New};
ghost use Rattle.fuse_server.specs.declared.work.Plan.TheVariants as plan;
ghost use Rattle.fuse_nodes.specs.Laws.{Steps};

use crate::descriptors::{NEW, Opening, close};
use crate::mount::Mount;
use crate::said::FuseAnswer;
use crate::talk::{Seats, calling};
use crate::told::{entry_of, kind_of, opened_file};
use crate::work::Work;
use errno::Errno;
use fuse::reply::{Entry, Opened};
use fuse::request::Message;
use fuse_nodes::node::Descriptor;
use talks::ask::Ask;
use talks::flags::mode_of;
use talks::refused::Refused;
use talks::sessions::{Sessions, heard};
use tree::{Attributes, Call, PathFrom, Start};

/// The type of a file in a mode, above the twelve lowest bits; 0 means it, too.
const FILE: u32 = 0o10;

/// The owner and the group of what is made.
#[derive(Clone, Copy)]
pub(crate) struct Owner {
    pub uid: u16,
    pub gid: u16,
}

/// A number of a user or a group; EINVAL where it doesn't fit the volume.
fn small(number: u32) -> Result<u16, Refused>
    ensures { IfOk result (λ same. same ≡ number) }
{
    match u16::try_from(number) {
        Ok(number) => Ok(number),
        Err(_) => Err(Refused::By(Errno::EINVAL)),
    }
}

/// Who asks; EINVAL where a number doesn't fit the volume.
fn owner_of(message: &Message<'_>) -> Result<Owner, Refused>
    ensures { IfOk result (λ owner. owner ≡ asker message.now) }
{
    Ok(Owner {
        uid: small(message.uid)?,
        gid: small(message.gid)?,
    })
}

/// Whether a mode of MKNOD is a file's.
fn is_file(mode: u32) -> bool {
    let kind = mode / 0o10000;
    kind == FILE || kind == 0
}

/// What a path names itself, be it a link, becomes an owner's: a look tells its inode, at which the change of owners starts, since a path
/// that ends in a link leads further.
fn give_itself<S: Sessions>(
    sessions: &mut S,
    work: Work,
    session: u8,
    path: PathFrom<'_>,
    owner: Owner,
) -> Result<(), Refused>
    requires named { IsNamed work.reach path }
    requires looks { May work.reach.plan Lstat }
    requires gives { May work.reach.plan Give }
    ensures asked { Talked (CalledFrom work.reach S.called) S.entered S.left work.now sessions.old sessions.new }
    ensures given { OnOk result (LinkGiven (CalledFrom work.reach S.called) S.entered S.left work.now sessions.old path.entry owner
        sessions.new) }
{
    let looked = calling(sessions, work, session, &Call::Lstat { path });
    let attributes = looked.attributes()?;
    let Owner { uid, gid } = owner;
    let path = PathFrom {
        start: Start::Inode(attributes.inode),
        bytes: b"",
    };
    let call = Call::Chown { path, uid, gid };
    heard(sessions, work.now, &Ask::Call { session, call }).done()
}

impl Seats {
    /// What was made becomes the asker's.
    fn give<S: Sessions>(
        &mut self,
        sessions: &mut S,
        work: Work,
        path: PathFrom<'_>,
        owner: Owner,
    ) -> Result<(), Refused>
        requires named { IsNamed work.reach path }
        requires gives { May work.reach.plan Give }
        ensures asked { Talked (CalledFrom work.reach S.called) S.entered S.left work.now sessions.old sessions.new }
        ensures given { OnOk result (TalkedFor (CalledFrom work.reach S.called) S.entered S.left work.now sessions.old
            (call.Chown path.entry owner.uid owner.gid) reply.Done sessions.new) }
    {
        let Owner { uid, gid } = owner;
        self.ask_done(sessions, work, &Call::Chown { path, uid, gid })
    }

    /// A link that was made becomes the asker's.
    fn give_link<S: Sessions>(
        &mut self,
        sessions: &mut S,
        work: Work,
        path: PathFrom<'_>,
        owner: Owner,
    ) -> Result<(), Refused>
        requires named { IsNamed work.reach path }
        requires looks { May work.reach.plan Lstat }
        requires gives { May work.reach.plan Give }
        ensures asked { Talked (CalledFrom work.reach S.called) S.entered S.left work.now sessions.old sessions.new }
        ensures given { OnOk result (LinkGiven (CalledFrom work.reach S.called) S.entered S.left work.now sessions.old path.entry owner
            sessions.new) }
    {
        let session = self.session(sessions, work, 0)?;
        give_itself(sessions, work, session, path, owner)
    }

    /// A file that was made becomes the asker's: its attributes.
    fn look_at_made<S: Sessions>(
        &mut self,
        sessions: &mut S,
        work: Work,
        path: PathFrom<'_>,
        owner: Owner,
    ) -> Result<Attributes, Refused>
        requires named { IsNamed work.reach path }
        requires looks { May work.reach.plan Lstat }
        requires gives { May work.reach.plan Give }
        ensures asked { Talked (CalledFrom work.reach S.called) S.entered S.left work.now sessions.old sessions.new }
        ensures seen { IfOk result (λ was. TalkedBy (CalledFrom work.reach S.called) S.entered S.left work.now sessions.old
            (given_to path.entry owner ∷ seen_at path.entry was ∷ []) sessions.new) }
    {
        self.give(sessions, work, path, owner)?;
        self.look(sessions, work, path)
    }
}

impl Mount {
    /// What was made becomes the asker's, and the kernel is told of it.
    fn tell_made<S: Sessions>(
        &mut self,
        sessions: &mut S,
        work: Work,
        path: PathFrom<'_>,
        owner: Owner,
    ) -> Result<Entry, Refused>
        requires named { IsNamed work.reach path }
        requires looks { May work.reach.plan Lstat }
        requires gives { May work.reach.plan Give }
        ensures asked { Talked (CalledFrom work.reach S.called) S.entered S.left work.now sessions.old sessions.new }
        ensures told { IfOk result (IsKnown (known_of self.new.nodes)) }
        ensures shown { IfOk result (λ entry. ShownBy (CalledFrom work.reach S.called) S.entered S.left work.now sessions.old
            (given_to path.entry owner ∷ []) path.entry entry.attributes sessions.new) }
        ensures steps { Steps (known_of self.old.nodes) (known_of self.new.nodes) }
    {
        self.seats.give(sessions, work, path, owner)?;
        self.tell(sessions, work, path)
    }

    /// Makes a file.
    fn make_file<S: Sessions>(
        &mut self,
        sessions: &mut S,
        work: Work,
        path: PathFrom<'_>,
        mode: u16,
    ) -> Result<Descriptor, Refused>
        requires named { IsNamed work.reach path }
        requires makes { May work.reach.plan New }
        requires closes { May work.reach.plan Close }
        ensures asked { Talked (CalledFrom work.reach S.called) S.entered S.left work.now sessions.old sessions.new }
        ensures made { IfOk result (λ made. OpenedAt (CalledFrom work.reach S.called) S.entered S.left work.now sessions.old path.entry
            mode made sessions.new) }
        ensures steps { Steps (known_of self.old.nodes) (known_of self.new.nodes) }
    {
        let opening = Opening {
            path,
            flags: NEW,
            mode,
        };
        self.open_path(sessions, work, opening, 0)
    }

    /// MKNOD: a file is made. EPERM: a pipe, a socket or a device, of which a volume has none.
    pub(crate) fn mknod<S: Sessions>(
        &mut self,
        sessions: &mut S,
        work: Work,
        message: &Message<'_>,
        name: &[u8],
        mode: u32,
    ) -> Result<FuseAnswer, Refused>
        requires plan { work.reach.plan ≡ plan.MakeFile }
        ensures asked { OnErr result (Talked (CalledFrom work.reach S.called) S.entered S.left work.now sessions.old sessions.new) }
        ensures told { IfOk result (IsEntry (known_of self.new.nodes)) }
        ensures behind { IfOk result (λ a. ToldBehind (CalledFrom work.reach S.called) S.entered S.left work.now work.reach (Made name.now
            (NewFile (mode % 512) (asker message.now))) (known_of self.new.nodes) sessions.old a sessions.new) }
        ensures steps { Steps (known_of self.old.nodes) (known_of self.new.nodes) }
    {
        if !is_file(mode) {
            return Err(Refused::By(Errno::EPERM));
        }
        let owner = owner_of(message)?;
        let path = work.reach.below(name)?;
        let made = self.make_file(sessions, work, path, mode_of(mode))?;
        close(sessions, work, made);
        let entry = self.tell_made(sessions, work, path, owner)?;
        Ok(FuseAnswer::Entry(entry))
    }

    /// MKDIR: a directory is made.
    pub(crate) fn mkdir<S: Sessions>(
        &mut self,
        sessions: &mut S,
        work: Work,
        message: &Message<'_>,
        name: &[u8],
        mode: u32,
    ) -> Result<FuseAnswer, Refused>
        requires plan { work.reach.plan ≡ plan.MakeDirectory }
        ensures asked { OnErr result (Talked (CalledFrom work.reach S.called) S.entered S.left work.now sessions.old sessions.new) }
        ensures told { IfOk result (IsEntry (known_of self.new.nodes)) }
        ensures behind { IfOk result (λ a. ToldBehind (CalledFrom work.reach S.called) S.entered S.left work.now work.reach (Made name.now
            (NewDirectory (mode % 512) (asker message.now))) (known_of self.new.nodes) sessions.old a sessions.new) }
        ensures steps { Steps (known_of self.old.nodes) (known_of self.new.nodes) }
    {
        let owner = owner_of(message)?;
        let path = work.reach.below(name)?;
        let mode = mode_of(mode);
        self.seats
            .ask_done(sessions, work, &Call::Mkdir { path, mode })?;
        let entry = self.tell_made(sessions, work, path, owner)?;
        Ok(FuseAnswer::Entry(entry))
    }

    /// A link was made, becomes the asker's, and the kernel is told of it.
    fn tell_link<S: Sessions>(
        &mut self,
        sessions: &mut S,
        work: Work,
        path: PathFrom<'_>,
        owner: Owner,
    ) -> Result<Entry, Refused>
        requires named { IsNamed work.reach path }
        requires looks { May work.reach.plan Lstat }
        requires gives { May work.reach.plan Give }
        ensures asked { Talked (CalledFrom work.reach S.called) S.entered S.left work.now sessions.old sessions.new }
        ensures told { IfOk result (IsKnown (known_of self.new.nodes)) }
        ensures shown { IfOk result (λ entry. LinkShown (CalledFrom work.reach S.called) S.entered S.left work.now sessions.old path.entry
            owner entry.attributes sessions.new) }
        ensures steps { Steps (known_of self.old.nodes) (known_of self.new.nodes) }
    {
        self.seats.give_link(sessions, work, path, owner)?;
        self.tell(sessions, work, path)
    }

    /// SYMLINK: a symbolic link is made.
    pub(crate) fn symlink<S: Sessions>(
        &mut self,
        sessions: &mut S,
        work: Work,
        message: &Message<'_>,
        name: &[u8],
        target: &[u8],
    ) -> Result<FuseAnswer, Refused>
        requires plan { work.reach.plan ≡ plan.MakeLink }
        ensures asked { OnErr result (Talked (CalledFrom work.reach S.called) S.entered S.left work.now sessions.old sessions.new) }
        ensures told { IfOk result (IsEntry (known_of self.new.nodes)) }
        ensures behind { IfOk result (λ a. ToldBehind (CalledFrom work.reach S.called) S.entered S.left work.now work.reach (Made name.now
            (NewLink target.now (asker message.now))) (known_of self.new.nodes) sessions.old a sessions.new) }
        ensures steps { Steps (known_of self.old.nodes) (known_of self.new.nodes) }
    {
        let owner = owner_of(message)?;
        let path = work.reach.below(name)?;
        self.seats
            .ask_done(sessions, work, &Call::Symlink { target, path })?;
        let entry = self.tell_link(sessions, work, path, owner)?;
        Ok(FuseAnswer::Entry(entry))
    }

    /// The kernel is told of a file that was made, and has it open by this descriptor.
    fn tell_opened(
        &mut self,
        attributes: &Attributes,
        descriptor: Descriptor,
    ) -> Result<(Entry, Opened), Refused>
        ensures told { IfOk result (λ x. IsKnown (known_of self.new.nodes) x.0) }
        ensures attributes { IfOk result (λ x. x.0.attributes ≡ told_of attributes.now) }
        ensures steps { Steps (known_of self.old.nodes) (known_of self.new.nodes) }
    {
        let kind = kind_of(attributes.mode);
        let node = self.nodes.told(attributes.inode, kind)?;
        match self.handles.open_file(node) {
            Ok(handle) => {
                self.nodes.opened(node, Some(descriptor));
                Ok((entry_of(node, attributes), opened_file(handle)))
            }
            Err(error) => {
                self.nodes.forget(node, 1);
                Err(Refused::from(error))
            }
        }
    }

    /// What becomes of a file that was made at a path and is open; an error leaves it open.
    fn finish<S: Sessions>(
        &mut self,
        sessions: &mut S,
        work: Work,
        path: PathFrom<'_>,
        owner: Owner,
        descriptor: Descriptor,
    ) -> Result<(Entry, Opened), Refused>
        requires named { IsNamed work.reach path }
        requires looks { May work.reach.plan Lstat }
        requires gives { May work.reach.plan Give }
        ensures asked { Talked (CalledFrom work.reach S.called) S.entered S.left work.now sessions.old sessions.new }
        ensures told { IfOk result (λ x. IsKnown (known_of self.new.nodes) x.0) }
        ensures shown { IfOk result (λ x. ShownBy (CalledFrom work.reach S.called) S.entered S.left work.now sessions.old
            (given_to path.entry owner ∷ []) path.entry x.0.attributes sessions.new) }
        ensures steps { Steps (known_of self.old.nodes) (known_of self.new.nodes) }
    {
        let attributes = self.seats.look_at_made(sessions, work, path, owner)?;
        self.tell_opened(&attributes, descriptor)
    }

    /// CREATE: a file is made, and opened. The kernel asks for it only where nothing stands at the name: EEXIST where something does.
    pub(crate) fn create<S: Sessions>(
        &mut self,
        sessions: &mut S,
        work: Work,
        message: &Message<'_>,
        name: &[u8],
        mode: u32,
    ) -> Result<FuseAnswer, Refused>
        requires plan { work.reach.plan ≡ plan.MakeFile }
        ensures asked { OnErr result (Talked (CalledFrom work.reach S.called) S.entered S.left work.now sessions.old sessions.new) }
        ensures told { IfOk result (IsCreate (known_of self.new.nodes)) }
        ensures behind { IfOk result (λ a. ToldBehind (CalledFrom work.reach S.called) S.entered S.left work.now work.reach (Made name.now
            (NewFile (mode % 512) (asker message.now))) (known_of self.new.nodes) sessions.old a sessions.new) }
        ensures steps { Steps (known_of self.old.nodes) (known_of self.new.nodes) }
    {
        let owner = owner_of(message)?;
        let path = work.reach.below(name)?;
        let descriptor = self.make_file(sessions, work, path, mode_of(mode))?;
        match self.finish(sessions, work, path, owner, descriptor) {
            Ok((entry, opened)) => Ok(FuseAnswer::Create(entry, opened)),
            Err(refused) => {
                close(sessions, work, descriptor);
                Err(refused)
            }
        }
    }
}
