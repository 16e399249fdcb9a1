//! What came of calls, kept in little memory.

ghost use Rattle.std.specs.Prelude.{◌≡◌, ◌+◌, ◌<◌, ◌++◌, ◌∷◌, [], IfOk, None, length, map, slice_index_or, vec_len, vec_capacity};
ghost use Rattle.std.specs.List.{list_any};
ghost use Rattle.reply_text.specs.Kept.{IsWithin, is_kept_refused, outcome_of, targets_of};
ghost use Rattle.reply_text.specs.Told.{is_refused, told_by, told_of};

use crate::text::{OutcomeRef, target_bytes};
use errno::Errno;
use std::alloc::{AllocError, Global};
use std::marker::Model;
use std::mem::size_of;
use tree::{Attributes, Entry, LinkTarget, Outcome, Reply, Statfs};

/// What came of a call, as it is kept: of a link's target, where it stands among the targets.
#[derive(Drop)]
enum Kept {
    Cut,
    Refused(Errno),
    Done,
    Descriptor(u32),
    Bytes(Vec<u8>),
    Wrote(u32),
    At(u32),
    Inode(Attributes),
    Names(Vec<Entry>),
    Space(Statfs),
    Target(usize),
}

const _: () = prove!(size_of::<Kept>() <= 40);

/// What came of calls, in their order: contracts see the outcomes, and how many more there is room for.
///
/// All its memory is taken when it is made. An outcome fills 40 bytes of it, and a link's target a kilobyte besides. What isn't filled yet
/// isn't touched: where the system gives a page at its first use, it is no memory of the process.
#[derive(Drop)]
pub struct Outcomes {
    kept: Vec<Kept>,
    targets: Vec<LinkTarget>,
}

impl Model for Outcomes {
    ghost use Rattle.reply_text.specs.OutcomeList.{OutcomeList};

    ghost Value = { OutcomeList };

    ghost use Rattle.reply_text.specs.Kept.{AreKept, list_of};

    ghost view = { λ o. list_of o.kept o.targets };

    ghost invariant = { λ o. AreKept o.kept o.targets };
}

impl Outcomes {
    /// None, with room for so many. It refuses where no memory was found.
    pub fn with_capacity(alloc: Global, count: usize) -> Result<Outcomes, AllocError>
        ensures items { IfOk result (λ outcomes. outcomes.items ≡ []) }
        ensures room { IfOk result (λ outcomes. outcomes.room ≡ count) }
    {
        Ok(Outcomes {
            kept: Vec::with_capacity(alloc, count)?,
            targets: Vec::with_capacity(alloc, count)?,
        })
    }

    /// How many there are.
    pub fn len(&self) -> usize
        ensures { result ≡ length self.now.items }
    {
        self.kept.len()
    }

    /// Puts one more behind the others, which stay.
    pub fn push_reserved(&mut self, outcome: Outcome)
        requires { 0 < self.old.room }
        ensures items { self.new.items ≡ self.old.items ++ outcome ∷ [] }
        ensures room { self.new.room + 1 ≡ self.old.room }
    {
        let kept = keep(outcome, &mut self.targets);
        self.kept.push_reserved(kept);
    }

    /// The one at this place, borrowed.
    pub fn get(&self, at: usize) -> OutcomeRef<'_>
        requires { at < length self.now.items }
        ensures { told_by result ≡ slice_index_or (map told_of self.now.items) at None }
    {
        shown(&self.kept[at], self.targets.as_slice())
    }

    /// Whether some call was refused for this reason.
    pub fn has_errno(&self, errno: Errno) -> bool
        ensures { result ≡ list_any (is_refused errno) self.now.items }
    {
        some_refused(self.kept.as_slice(), errno)
    }
}

/// An outcome as it is kept; a target goes behind the others.
fn keep(outcome: Outcome, targets: &mut Vec<LinkTarget>) -> Kept
    requires { vec_len targets.old < vec_capacity targets.old }
    ensures kept { outcome_of targets.new.items result ≡ outcome }
    ensures within { IsWithin (length targets.new.items) result }
    ensures targets { targets.new.items ≡ targets.old.items ++ targets_of outcome }
    ensures capacity { vec_capacity targets.new ≡ vec_capacity targets.old }
{
    match outcome {
        Outcome::Cut => Kept::Cut,
        Outcome::Reply(Reply::Refused(errno)) => Kept::Refused(errno),
        Outcome::Reply(Reply::Done) => Kept::Done,
        Outcome::Reply(Reply::Descriptor(fd)) => Kept::Descriptor(fd),
        Outcome::Reply(Reply::Bytes(bytes)) => Kept::Bytes(bytes),
        Outcome::Reply(Reply::Wrote(count)) => Kept::Wrote(count),
        Outcome::Reply(Reply::At(position)) => Kept::At(position),
        Outcome::Reply(Reply::Inode(attributes)) => Kept::Inode(attributes),
        Outcome::Reply(Reply::Names(names)) => Kept::Names(names),
        Outcome::Reply(Reply::Space(room)) => Kept::Space(room),
        Outcome::Reply(Reply::Target(target)) => {
            let at = targets.len();
            targets.push_reserved(target);
            Kept::Target(at)
        }
    }
}

/// An outcome that is kept beside these targets, borrowed.
fn shown<'o>(kept: &'o Kept, targets: &'o [LinkTarget]) -> OutcomeRef<'o>
    requires { IsWithin (length targets.now) kept.now }
    ensures { told_by result ≡ told_of (outcome_of targets.now kept.now) }
{
    match kept {
        Kept::Cut => OutcomeRef::Cut,
        Kept::Refused(errno) => OutcomeRef::Refused(*errno),
        Kept::Done => OutcomeRef::Done,
        Kept::Descriptor(fd) => OutcomeRef::Descriptor(*fd),
        Kept::Bytes(bytes) => OutcomeRef::Bytes(bytes.as_slice()),
        Kept::Wrote(count) => OutcomeRef::Wrote(*count),
        Kept::At(position) => OutcomeRef::At(*position),
        Kept::Inode(attributes) => OutcomeRef::Inode(attributes),
        Kept::Names(names) => OutcomeRef::Names(names.as_slice()),
        Kept::Space(room) => OutcomeRef::Space(room),
        Kept::Target(at) => OutcomeRef::Bytes(target_bytes(&targets[*at])),
    }
}

/// Whether one of them is a refusal for this reason.
fn some_refused(kept: &[Kept], errno: Errno) -> bool
    ensures { result ≡ list_any (is_kept_refused errno) kept.now }
{
    kept.iter().any(|one| is_kept_refused(one, errno))
}

/// Whether it is a refusal for this reason.
fn is_kept_refused(kept: &Kept, errno: Errno) -> bool
    ensures { result ≡ is_kept_refused errno kept.now }
{
    matches!(kept, Kept::Refused(reason) if reason.number() == errno.number())
}
