//! Which descriptors a session's calls left open.

ghost use Rattle.std.specs.Prelude.{◌≡◌, ◌<◌, ◌==◌, ◌∷◌, [], ℕ, List, if◌then◌else◌, slice_index_or, false};
ghost use Rattle.tree.specs.declared.Who.{Who as Caller};
ghost use Rattle.tree.specs.Answers.{answer_of};
ghost use Rattle.records.specs.Marks.{Mark, Took};
ghost use Rattle.records.specs.ServerCall.{with_outcome};
ghost use Rattle.file_server.specs.Over.{outcome_in, outcome_of};
ghost use Rattle.shared_server.specs.Descriptors.{change_of as change_by, given as given_by, is_done as is_done_by, succeeded, was_cut};

use file_server::Ending;
use tree::{Call, Outcome, Reply};

/// The descriptors that the calls of a session left open, as their answers tell.
#[derive(Drop)]
pub struct LeftOpen {
    // At each number below 32, whether it is open.
    flags: [bool; 32],
}

/// Whether a call was cut.
pub fn is_cut(outcome: &Outcome) -> bool
    ensures { result ≡ was_cut (outcome_of outcome.now) }
{
    match outcome {
        Outcome::Cut => true,
        Outcome::Reply(_) => false,
    }
}

/// Whether a call succeeded that has nothing to tell.
pub fn was_done(outcome: &Outcome) -> bool
    ensures { result ≡ succeeded (outcome_of outcome.now) }
{
    match outcome {
        Outcome::Cut => false,
        Outcome::Reply(reply) => is_done(reply),
    }
}

/// The descriptor in a reply, which is then open.
fn given(reply: &Reply) -> Option<(u32, bool)>
    ensures { result ≡ given_by (answer_of reply.now) }
{
    match reply {
        Reply::Descriptor(fd) => Some((*fd, true)),
        Reply::Refused(_) => None,
        Reply::Done => None,
        Reply::Bytes(_) => None,
        Reply::Wrote(_) => None,
        Reply::At(_) => None,
        Reply::Inode(_) => None,
        Reply::Names(_) => None,
        Reply::Space(_) => None,
        Reply::Target(_) => None,
    }
}

/// Whether a reply tells nothing but that the call succeeded.
fn is_done(reply: &Reply) -> bool
    ensures { result ≡ is_done_by (answer_of reply.now) }
{
    match reply {
        Reply::Done => true,
        Reply::Descriptor(_) => false,
        Reply::Refused(_) => false,
        Reply::Bytes(_) => false,
        Reply::Wrote(_) => false,
        Reply::At(_) => false,
        Reply::Inode(_) => false,
        Reply::Names(_) => false,
        Reply::Space(_) => false,
        Reply::Target(_) => false,
    }
}

/// The descriptor that a call opened or closed, and whether it is open then.
fn change_of(call: &Call, reply: &Reply) -> Option<(u32, bool)>
    ensures { result ≡ change_by call.now (answer_of reply.now) }
{
    match call {
        Call::Open { .. } => given(reply),
        Call::Dup { .. } => given(reply),
        Call::Close { fd } => {
            if is_done(reply) {
                Some((*fd, false))
            } else {
                None
            }
        }
        _ => None,
    }
}

impl LeftOpen {
    ghost use Rattle.shared_server.specs.Descriptors.{leaves_open, AreLeftOpen};

    /// None.
    pub fn new() -> LeftOpen
        ensures { AreLeftOpen result [] }
    {
        LeftOpen { flags: [false; 32] }
    }

    /// Whether this one is open.
    pub fn has(&self, fd: u32) -> bool
        requires { fd < 32 }
        ensures { (marks : List Mark) → AreLeftOpen self.now marks → result ≡ leaves_open fd marks }
    {
        self.flags[fd as usize]
    }

    /// A call was answered so, or cut.
    pub fn note(&mut self, call: &Call, ending: Ending, reply: &Reply)
        ensures { (who : Caller) (now : ℕ) (marks : List Mark) → AreLeftOpen self.old marks
            → AreLeftOpen self.new (with_outcome who now call.now (outcome_of (outcome_in ending reply.now)) marks) }
    {
        match ending {
            Ending::Answered => self.answered(call, reply),
            Ending::Cut => {}
        }
    }

    /// A call was answered so.
    fn answered(&mut self, call: &Call, reply: &Reply)
        ensures { (who : Caller) (now : ℕ) (marks : List Mark) → AreLeftOpen self.old marks
            → AreLeftOpen self.new (Took who now call.now (answer_of reply.now) ∷ marks) }
    {
        if let Some((fd, is_open)) = change_of(call, reply) {
            self.set(fd, is_open);
        }
    }

    /// A descriptor is then open, or isn't; one from 32 on is none.
    fn set(&mut self, fd: u32, is_open: bool)
        ensures { (k : ℕ) → k < 32 → slice_index_or self.new.flags k false
            ≡ (if fd == k then is_open else slice_index_or self.old.flags k false) }
    {
        if fd < 32 {
            self.flags[fd as usize] = is_open;
        }
    }
}
