//! How each message is answered.
#![tactic(auto, using(crate::proofs::Asking::goes_on, crate::proofs::Asking::stays, crate::proofs::Steps::steps_on, crate::proofs::Steps::no_step,))]

ghost use Rattle.std.specs.Prelude.{◌≡◌, IfOk, OnErr};
ghost use Rattle.fuse_nodes.specs.Known.{known_of};
ghost use Rattle.talks.specs.Talks.{MayHear};
ghost use Rattle.fuse_server.specs.Asking.{Talked};
ghost use Rattle.fuse_server.specs.Kinds.{is_sync, IsFor, IsInit, IsSaidTo};
ghost use Rattle.fuse_server.specs.Reach.{CalledFrom, reach_of};
ghost use Rattle.fuse_server.specs.Telling.{AskedFor, ToldBehind, telling, tells};
ghost use Rattle.fuse_server.specs.Answering.{IsSaidToBytes, MayHearFrom};
ghost use Rattle.fuse_server.specs.Plans.{plan_of};
ghost use Rattle.fuse_nodes.specs.Laws.{Steps};

use crate::attributes::bits_of;
use crate::bounds::most_of;
use crate::mount::Mount;
use crate::said::{FuseAnswer, Said};
use crate::work::{Work, reach_of};
use errno::Errno;
use fuse::forgets::Forgets;
use fuse::reading::read;
use fuse::reply::InitReply;
use fuse::request::{Message, Request};
use talks::changes::Wanted;
use talks::refused::Refused;
use talks::sessions::Sessions;
use tree::MAX_TRANSFER;

/// The version of the protocol.
const MAJOR: u32 = 7;

const MINOR: u32 = 31;

/// What is taken of all that the kernel offers: reads that nobody waits for (0x1), writes of more than a page (0x20), READDIRPLUS (0x2000),
/// and where READDIR does, that too (0x4000), lookups in one directory side by side (0x40000), a count of a message's pages (0x400000), and
/// targets of links that it keeps (0x800000).
const TAKEN: u32 = 0xc4_6021;

/// The pages of a message: 64 KiB.
const MOST_PAGES: u16 = 16;

/// Times are whole seconds.
const SECOND: u32 = 1_000_000_000;

/// INIT: the protocol's version, and what of it is used.
fn init(major: u32, readahead: u32, flags: u32) -> FuseAnswer
    ensures { IsInit major readahead flags result }
{
    if major < MAJOR {
        return FuseAnswer::OtherVersion;
    }
    FuseAnswer::Init(InitReply {
        major: MAJOR,
        minor: MINOR,
        readahead: most_of(readahead),
        flags: flags & TAKEN,
        background: 0,
        busy: 0,
        max_write: MAX_TRANSFER,
        time_unit: SECOND,
        max_pages: MOST_PAGES,
        map_alignment: 0,
        more_flags: 0,
    })
}

/// Whether a request asks for a sync.
fn asks_sync(request: &Request<'_>) -> bool
    ensures { result ≡ is_sync request.now }
{
    matches!(request, Request::Fsync { .. } | Request::Fsyncdir { .. })
}

/// Whether the answer to a request tells what the last exchange before it told.
fn tells(request: &Request<'_>) -> bool
    ensures { result ≡ tells request.now }
{
    matches!(
        request,
        Request::Lookup { .. }
            | Request::Getattr { .. }
            | Request::Setattr { .. }
            | Request::Readlink
            | Request::Symlink { .. }
            | Request::Mknod { .. }
            | Request::Mkdir { .. }
            | Request::Unlink { .. }
            | Request::Rmdir { .. }
            | Request::Rename { .. }
            | Request::Rename2 { .. }
            | Request::Link { .. }
            | Request::Create { .. }
            | Request::Statfs
            | Request::Read { .. }
            | Request::Write { .. }
    )
}

impl Mount {
    /// Requests about names that are there.
    fn on_names<S: Sessions>(
        &mut self,
        sessions: &mut S,
        work: Work,
        message: &Message<'_>,
    ) -> Result<FuseAnswer, Refused>
        requires plan { work.reach.plan ≡ plan_of message.now.request }
        ensures asked { OnErr result (Talked (CalledFrom work.reach S.called) S.entered S.left work.now sessions.old sessions.new) }
        ensures told { IfOk result (IsFor (known_of self.new.nodes) message.now.request) }
        ensures behind { IfOk result (λ a. ToldBehind (CalledFrom work.reach S.called) S.entered S.left work.now work.reach
            (telling work.now message.now) (known_of self.new.nodes) sessions.old a sessions.new) }
        ensures steps { Steps (known_of self.old.nodes) (known_of self.new.nodes) }
    {
        match message.request {
            Request::Unlink { name } => self.unlink(sessions, work, name),
            Request::Rmdir { name } => self.rmdir(sessions, work, name),
            Request::Link { name, .. } => self.link(sessions, work, name),
            Request::Rename {
                old_name,
                new_name,
                ..
            } => self.rename(sessions, work, old_name, new_name, 0),
            Request::Rename2 {
                flags,
                old_name,
                new_name,
                ..
            } => self.rename(sessions, work, old_name, new_name, flags),
            _ => Ok(FuseAnswer::Unknown),
        }
    }

    /// Requests that make something.
    fn on_making<S: Sessions>(
        &mut self,
        sessions: &mut S,
        work: Work,
        message: &Message<'_>,
    ) -> Result<FuseAnswer, Refused>
        requires plan { work.reach.plan ≡ plan_of message.now.request }
        ensures asked { OnErr result (Talked (CalledFrom work.reach S.called) S.entered S.left work.now sessions.old sessions.new) }
        ensures told { IfOk result (IsFor (known_of self.new.nodes) message.now.request) }
        ensures behind { IfOk result (λ a. ToldBehind (CalledFrom work.reach S.called) S.entered S.left work.now work.reach
            (telling work.now message.now) (known_of self.new.nodes) sessions.old a sessions.new) }
        ensures steps { Steps (known_of self.old.nodes) (known_of self.new.nodes) }
    {
        match message.request {
            Request::Mknod { mode, name, .. } => self.mknod(sessions, work, message, name, mode),
            Request::Mkdir { mode, name, .. } => self.mkdir(sessions, work, message, name, mode),
            Request::Create { mode, name, .. } => self.create(sessions, work, message, name, mode),
            Request::Symlink { name, target } => self.symlink(
                sessions, work, message, name, target,
            ),
            _ => self.on_names(sessions, work, message),
        }
    }

    /// Requests about a node, and about the room.
    fn on_nodes<S: Sessions>(
        &mut self,
        sessions: &mut S,
        work: Work,
        message: &Message<'_>,
    ) -> Result<FuseAnswer, Refused>
        requires plan { work.reach.plan ≡ plan_of message.now.request }
        ensures asked { OnErr result (Talked (CalledFrom work.reach S.called) S.entered S.left work.now sessions.old sessions.new) }
        ensures told { IfOk result (IsFor (known_of self.new.nodes) message.now.request) }
        ensures behind { IfOk result (λ a. ToldBehind (CalledFrom work.reach S.called) S.entered S.left work.now work.reach
            (telling work.now message.now) (known_of self.new.nodes) sessions.old a sessions.new) }
        ensures steps { Steps (known_of self.old.nodes) (known_of self.new.nodes) }
    {
        match message.request {
            Request::Getattr { .. } => self.getattr(sessions, work),
            Request::Setattr {
                valid,
                size,
                atime,
                mtime,
                mode,
                uid,
                gid,
                ..
            } => {
                let wanted = Wanted {
                    valid: bits_of(valid),
                    mode,
                    uid,
                    gid,
                    size,
                    atime: atime.0,
                    mtime: mtime.0,
                    now: work.now,
                };
                self.setattr(sessions, work, &wanted)
            }
            Request::Readlink => self.readlink(sessions, work),
            Request::Statfs => self.statfs(sessions, work),
            _ => self.on_making(sessions, work, message),
        }
    }

    /// Requests for a file's bytes.
    fn on_bytes<S: Sessions>(
        &mut self,
        sessions: &mut S,
        work: Work,
        message: &Message<'_>,
    ) -> Result<FuseAnswer, Refused>
        requires plan { work.reach.plan ≡ plan_of message.now.request }
        ensures asked { OnErr result (Talked (CalledFrom work.reach S.called) S.entered S.left work.now sessions.old sessions.new) }
        ensures told { IfOk result (IsFor (known_of self.new.nodes) message.now.request) }
        ensures behind { IfOk result (λ a. ToldBehind (CalledFrom work.reach S.called) S.entered S.left work.now work.reach
            (telling work.now message.now) (known_of self.new.nodes) sessions.old a sessions.new) }
        ensures steps { Steps (known_of self.old.nodes) (known_of self.new.nodes) }
    {
        match message.request {
            Request::Read { span } => self.read(sessions, work, span),
            Request::Write {
                handle,
                offset,
                bytes,
                ..
            } => self.write(sessions, work, handle, offset, bytes),
            _ => self.on_nodes(sessions, work, message),
        }
    }

    /// Requests about what is open, and those about the mount.
    fn on_handles<S: Sessions>(
        &mut self,
        sessions: &mut S,
        work: Work,
        message: &Message<'_>,
    ) -> Result<FuseAnswer, Refused>
        requires plan { work.reach.plan ≡ plan_of message.now.request }
        ensures asked { Talked (CalledFrom work.reach S.called) S.entered S.left work.now sessions.old sessions.new }
        ensures told { IfOk result (IsFor (known_of self.new.nodes) message.now.request) }
        ensures steps { Steps (known_of self.old.nodes) (known_of self.new.nodes) }
    {
        match message.request {
            Request::Init {
                major,
                readahead,
                flags,
                ..
            } => Ok(init(major, readahead, flags)),
            Request::Destroy => Ok(FuseAnswer::Done),
            Request::Open { .. } => self.open_file(sessions, work),
            Request::Release { handle, .. } => self.release(sessions, work, handle),
            Request::Opendir { .. } => self.open_directory(work.node),
            Request::Readdir { span } => self.readdir(sessions, work, span),
            Request::Readdirplus { span } => self.readdirplus(sessions, work, span),
            Request::Releasedir { handle, .. } => self.release(sessions, work, handle),
            _ => Ok(FuseAnswer::Unknown),
        }
    }

    /// What is said to a message about bytes, a node, a name, or the room.
    #[tactic(auto, using(crate::proofs::Asking::goes_on, crate::proofs::KindLaws::refusal_for))]
    fn told_of<S: Sessions>(
        &mut self,
        sessions: &mut S,
        work: Work,
        message: &Message<'_>,
    ) -> FuseAnswer
        requires plan { work.reach.plan ≡ plan_of message.now.request }
        ensures behind { ToldBehind (CalledFrom work.reach S.called) S.entered S.left work.now work.reach (telling work.now message.now)
            (known_of self.new.nodes) sessions.old result sessions.new }
        ensures told { IsFor (known_of self.new.nodes) message.now.request result }
        ensures steps { Steps (known_of self.old.nodes) (known_of self.new.nodes) }
    {
        match self.on_bytes(sessions, work, message) {
            Ok(answer) => answer,
            Err(refused) => FuseAnswer::Refused(refused),
        }
    }

    /// What is said to a message whose answer tells what the last exchange before it told.
    fn said_telling<S: Sessions>(
        &mut self,
        sessions: &mut S,
        work: Work,
        message: &Message<'_>,
    ) -> Said
        requires plan { work.reach.plan ≡ plan_of message.now.request }
        ensures asked { AskedFor (MayHear (CalledFrom work.reach S.called) S.entered S.left work.now) work.reach
            (telling work.now message.now) (known_of self.new.nodes) sessions.old result sessions.new }
        ensures told { IsSaidTo (known_of self.new.nodes) message.now.request result }
        ensures steps { Steps (known_of self.old.nodes) (known_of self.new.nodes) }
    {
        match message.request {
            Request::Lookup { name } => self.lookup(sessions, work, name),
            _ => Said::Plain(self.told_of(sessions, work, message)),
        }
    }

    /// What is said to a message about what is open, or about the mount.
    #[tactic(auto, using(crate::proofs::Asking::goes_on, crate::proofs::KindLaws::refusal_for))]
    fn said_plainly<S: Sessions>(
        &mut self,
        sessions: &mut S,
        work: Work,
        message: &Message<'_>,
    ) -> FuseAnswer
        requires plan { work.reach.plan ≡ plan_of message.now.request }
        ensures asked { Talked (CalledFrom work.reach S.called) S.entered S.left work.now sessions.old sessions.new }
        ensures told { IsFor (known_of self.new.nodes) message.now.request result }
        ensures steps { Steps (known_of self.old.nodes) (known_of self.new.nodes) }
    {
        match self.on_handles(sessions, work, message) {
            Ok(answer) => answer,
            Err(refused) => FuseAnswer::Refused(refused),
        }
    }

    /// What is said to a message that is no sync.
    fn said_of<S: Sessions>(&mut self, sessions: &mut S, work: Work, message: &Message<'_>) -> Said
        requires plan { work.reach.plan ≡ plan_of message.now.request }
        ensures asked { AskedFor (MayHear (CalledFrom work.reach S.called) S.entered S.left work.now) work.reach
            (telling work.now message.now) (known_of self.new.nodes) sessions.old result sessions.new }
        ensures told { IsSaidTo (known_of self.new.nodes) message.now.request result }
        ensures steps { Steps (known_of self.old.nodes) (known_of self.new.nodes) }
    {
        if tells(&message.request) {
            return self.said_telling(sessions, work, message);
        }
        Said::Plain(self.said_plainly(sessions, work, message))
    }

    /// What is said to a message.
    fn said_by<S: Sessions>(&mut self, sessions: &mut S, work: Work, message: &Message<'_>) -> Said
        requires plan { work.reach.plan ≡ plan_of message.now.request }
        ensures asked { AskedFor (MayHear (CalledFrom work.reach S.called) S.entered S.left work.now) work.reach
            (telling work.now message.now) (known_of self.new.nodes) sessions.old result sessions.new }
        ensures told { IsSaidTo (known_of self.new.nodes) message.now.request result }
        ensures steps { Steps (known_of self.old.nodes) (known_of self.new.nodes) }
    {
        if asks_sync(&message.request) {
            return self.sync(sessions, work);
        }
        self.said_of(sessions, work, message)
    }

    /// What is said to the bytes of a message: EINVAL where they can't be read.
    pub(crate) fn said_to<S: Sessions>(&mut self, sessions: &mut S, now: u32, bytes: &[u8]) -> Said
        ensures said { IsSaidToBytes (MayHearFrom S.called S.entered S.left now) now (known_of self.old.nodes)
            (known_of self.new.nodes) bytes.now sessions.old result sessions.new }
        ensures steps { Steps (known_of self.old.nodes) (known_of self.new.nodes) }
    {
        match read(bytes) {
            Ok(message) => {
                let work = Work {
                    now,
                    node: message.node,
                    reach: reach_of(&self.nodes, &message),
                };
                self.said_by(sessions, work, &message)
            }
            Err(_) => Said::Plain(FuseAnswer::Refused(Refused::By(Errno::EINVAL))),
        }
    }

    /// Nodes that the kernel forgets.
    fn forget_all(&mut self, nodes: Forgets<'_>)
        ensures { Steps (known_of self.old.nodes) (known_of self.new.nodes) }
    {
        let mut rest = nodes;
        'nodes: for _node in 0..nodes.len() {
            let Some(((node, count), more)) = rest.split_first() else {
                return;
            };
            self.nodes.forget(node, count);
            rest = more;
        }
    }

    /// What the bytes of a message say that has no answer. What can't be read says nothing.
    pub(crate) fn hear(&mut self, bytes: &[u8])
        ensures { Steps (known_of self.old.nodes) (known_of self.new.nodes) }
    {
        let Ok(message) = read(bytes) else {
            return;
        };
        match message.request {
            Request::Forget { count } => self.nodes.forget(message.node, count),
            Request::BatchForget { nodes } => self.forget_all(nodes),
            _ => {}
        }
    }
}
