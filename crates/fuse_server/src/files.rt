//! Open files: what is read, what is written, and what reaches the disk.
#![tactic(auto, using(crate::proofs::Asking::goes_on, crate::proofs::Asking::stays, crate::proofs::Plans::by_plan, crate::proofs::Steps::steps_on, crate::proofs::Steps::no_step, crate::proofs::Steps::step_opened,))]

ghost use Rattle.std.specs.Prelude.{◌≡◌, ◌<◌, ◌≤◌, ℕ, [], pos, min, length, IfNone, IfOk, IfSome, IsTrue, OnErr, Some};
ghost use Rattle.talks.specs.Talks.{MayHear};
ghost use Rattle.fuse_nodes.specs.Known.{known_of};
ghost use Rattle.tree.specs.declared.Call.TheVariants as call;
ghost use Rattle.tree.specs.declared.Outcome.TheVariants as outcome;
ghost use Rattle.tree.specs.declared.Reply.TheVariants as reply;
ghost use Rattle.tree.specs.declared.Whence.TheVariants.{Set};
ghost use Rattle.talks.specs.declared.ask.Ask.TheVariants as ask;
ghost use Rattle.talks.specs.declared.heard.Heard.TheVariants as heard_of;
ghost use Rattle.fuse_server.specs.Asking.{ReadFrom, Talked};
ghost use Rattle.fuse_server.specs.Reach.{CalledFrom};
ghost use Rattle.fuse_server.specs.Telling.{AskedFor, ToldBehind};
ghost use Rattle.fuse_server.specs.Telling.Telling.{Other, ReadAt, WrittenAt};
ghost use Rattle.fuse_server.specs.Kinds.{is_open, is_done, IsWithin, IsCount, IsOfSync};
ghost use Rattle.fuse_server.specs.Plans.{May};
ghost use Rattle.fuse_server.specs.Plans.Kind.{Seek, Read};
ghost use Rattle.fuse_server.specs.declared.work.Plan.TheVariants as plan;
ghost use Rattle.fuse_nodes.specs.Laws.{Steps};

use crate::bounds::most_of;
use crate::mount::Mount;
use crate::said::{FuseAnswer, Said};
use crate::talk::calling;
use crate::told::opened_file;
use crate::work::Work;
use crate::writing::write_some;
use errno::Errno;
use fuse::request::Span;
use fuse_nodes::handles::Handle;
use fuse_nodes::node::Descriptor;
use std::alloc::Global;
use talks::refused::Refused;
use talks::sessions::Sessions;
use tree::{Call, MAX_SIZE, Whence};

/// An offset as a position; none past the largest one.
fn position(offset: u64) -> Option<i64>
    ensures at { IfSome result (λ position. position ≡ pos offset) }
    ensures low { IfSome result (λ position. offset ≤ 2147483647) }
    ensures past { IfNone result (2147483647 < offset) }
{
    if offset > u64::from(MAX_SIZE) {
        return None;
    }
    i64::try_from(offset).ok()
}

/// Nothing that was read.
fn no_bytes(alloc: Global) -> Vec<u8>
    ensures { result.items ≡ [] }
{
    Vec::new(alloc)
}

/// How many bytes were written: so many, but no more than were given.
fn written(count: u32, bytes: &[u8]) -> u32
    ensures { result ≡ min count (length bytes.now) }
{
    match u32::try_from(bytes.len()) {
        Ok(len) if len < count => len,
        _ => count,
    }
}

/// Sets the position of a descriptor.
pub(crate) fn seek<S: Sessions>(
    sessions: &mut S,
    work: Work,
    descriptor: Descriptor,
    offset: i64,
) -> Result<u32, Refused>
    requires seeks { May work.reach.plan Seek }
    ensures asked { Talked (CalledFrom work.reach S.called) S.entered S.left work.now sessions.old sessions.new }
    ensures sought { IfOk result (λ position. MayHear (CalledFrom work.reach S.called) S.entered S.left work.now sessions.old
        (ask.Call descriptor.session (call.Seek descriptor.fd Set offset)) (heard_of.Outcome (outcome.Reply (reply.At position)))
        sessions.new) }
{
    let call = Call::Seek {
        fd: descriptor.fd,
        whence: Whence::Set,
        offset,
    };
    calling(sessions, work, descriptor.session, &call).at()
}

/// Reads at a position.
fn read_at<S: Sessions>(
    sessions: &mut S,
    work: Work,
    descriptor: Descriptor,
    offset: i64,
    count: u32,
) -> Result<Vec<u8>, Refused>
    requires seeks { May work.reach.plan Seek }
    requires reads { May work.reach.plan Read }
    ensures asked { Talked (CalledFrom work.reach S.called) S.entered S.left work.now sessions.old sessions.new }
    ensures read { IfOk result (λ bytes. ReadFrom (CalledFrom work.reach S.called) S.entered S.left work.now sessions.old descriptor offset
        count bytes.items sessions.new) }
{
    seek(sessions, work, descriptor, offset)?;
    let call = Call::Read {
        fd: descriptor.fd,
        count,
    };
    calling(sessions, work, descriptor.session, &call).bytes()
}

impl Mount {
    /// OPEN: a handle, and a descriptor where the node has none. The kernel has looked at whether the asker may read or write.
    pub(crate) fn open_file<S: Sessions>(
        &mut self,
        sessions: &mut S,
        work: Work,
    ) -> Result<FuseAnswer, Refused>
        requires plan { work.reach.plan ≡ plan.Open }
        ensures asked { Talked (CalledFrom work.reach S.called) S.entered S.left work.now sessions.old sessions.new }
        ensures told { IfOk result (λ a. IsTrue (is_open a)) }
        ensures steps { Steps (known_of self.old.nodes) (known_of self.new.nodes) }
    {
        let node = work.node;
        self.descriptor(sessions, work)?;
        self.nodes.opened(node, None);
        match self.handles.open_file(node) {
            Ok(handle) => Ok(FuseAnswer::Open(opened_file(handle))),
            Err(error) => {
                self.let_go(sessions, work, node);
                Err(Refused::from(error))
            }
        }
    }

    /// The node of an open file is the message's; EBADF where it is another one, or no file is open under the number.
    fn check_file(&self, work: Work, handle: u64) -> Result<(), Refused> {
        if self.handles.file(handle)? != work.node {
            return Err(Refused::By(Errno::EBADF));
        }
        Ok(())
    }

    /// READ: at most so many bytes from the offset on, and at most what a call gives.
    pub(crate) fn read<S: Sessions>(
        &mut self,
        sessions: &mut S,
        work: Work,
        span: Span,
    ) -> Result<FuseAnswer, Refused>
        requires plan { work.reach.plan ≡ plan.Read }
        ensures asked { OnErr result (Talked (CalledFrom work.reach S.called) S.entered S.left work.now sessions.old sessions.new) }
        ensures told { IfOk result (IsWithin span.count) }
        ensures behind { IfOk result (λ a. ToldBehind (CalledFrom work.reach S.called) S.entered S.left work.now work.reach (ReadAt
            span.offset span.count) (known_of self.new.nodes) sessions.old a sessions.new) }
        ensures steps { Steps (known_of self.old.nodes) (known_of self.new.nodes) }
    {
        self.check_file(work, span.handle)?;
        let Some(offset) = position(span.offset) else {
            return Ok(FuseAnswer::Bytes(no_bytes(self.alloc)));
        };
        let descriptor = self.descriptor(sessions, work)?;
        let count = most_of(span.count);
        let mut bytes = read_at(sessions, work, descriptor, offset, count)?;
        bytes.truncate(count as usize);
        Ok(FuseAnswer::Bytes(bytes))
    }

    /// WRITE: at most as many bytes as a call takes, and as there is room for. EFBIG past the largest offset.
    pub(crate) fn write<S: Sessions>(
        &mut self,
        sessions: &mut S,
        work: Work,
        handle: u64,
        offset: u64,
        bytes: &[u8],
    ) -> Result<FuseAnswer, Refused>
        requires plan { work.reach.plan ≡ plan.Write }
        ensures asked { OnErr result (Talked (CalledFrom work.reach S.called) S.entered S.left work.now sessions.old sessions.new) }
        ensures told { IfOk result (IsCount (length bytes.now)) }
        ensures behind { IfOk result (λ a. ToldBehind (CalledFrom work.reach S.called) S.entered S.left work.now work.reach (WrittenAt
            offset bytes.now) (known_of self.new.nodes) sessions.old a sessions.new) }
        ensures steps { Steps (known_of self.old.nodes) (known_of self.new.nodes) }
    {
        self.check_file(work, handle)?;
        let Some(position) = position(offset) else {
            return Err(Refused::By(Errno::EFBIG));
        };
        let descriptor = self.descriptor(sessions, work)?;
        let count = write_some(sessions, work, descriptor, position, offset, bytes)?;
        Ok(FuseAnswer::Write(written(count, bytes)))
    }

    /// RELEASE and RELEASEDIR: a handle is let go.
    pub(crate) fn release<S: Sessions>(
        &mut self,
        sessions: &mut S,
        work: Work,
        handle: u64,
    ) -> Result<FuseAnswer, Refused>
        requires plan { work.reach.plan ≡ plan.Close }
        ensures asked { Talked (CalledFrom work.reach S.called) S.entered S.left work.now sessions.old sessions.new }
        ensures told { IfOk result (λ a. IsTrue (is_done a)) }
        ensures steps { Steps (known_of self.old.nodes) (known_of self.new.nodes) }
    {
        let Handle::File { node } = self.handles.close(handle)? else {
            return Ok(FuseAnswer::Done);
        };
        self.let_go(sessions, work, node);
        Ok(FuseAnswer::Done)
    }

    /// FSYNC and FSYNCDIR: all that was written reaches the disk.
    pub(crate) fn sync<S: Sessions>(&mut self, sessions: &mut S, work: Work) -> Said
        requires plan { work.reach.plan ≡ plan.Sync }
        ensures asked { AskedFor (MayHear (CalledFrom work.reach S.called) S.entered S.left work.now) work.reach Other (known_of
            self.new.nodes) sessions.old result sessions.new }
        ensures sync { IsOfSync result }
        ensures steps { Steps (known_of self.old.nodes) (known_of self.new.nodes) }
    {
        let heard = match self.seats.ask(sessions, work, &Call::Sync) {
            Ok(heard) => heard,
            Err(refused) => return Said::Plain(FuseAnswer::Refused(refused)),
        };
        match heard.done() {
            Ok(()) => Said::Synced,
            Err(refused) => Said::Plain(FuseAnswer::Refused(refused)),
        }
    }
}
