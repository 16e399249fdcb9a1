//! Who makes calls for a connection or a mount.

ghost use Rattle.std.specs.Prelude.{ℕ, Result};
ghost use Rattle.tree.specs.declared.Call.{Call};
ghost use Rattle.tree.specs.declared.Outcome.{Outcome};
ghost use Rattle.talks.specs.Talks.{MayHear};
ghost use Rattle.talks.specs.declared.ask.Leaving.{Leaving};
ghost use Rattle.talks.specs.declared.sessions.EnterRefusal.{EnterRefusal};

use crate::ask::{Ask, Leaving};
use crate::heard::Heard;
use tree::{Call, Outcome};

/// Why there is no session for a user.
#[derive(Clone, Copy, Debug, PartialEq, Eq)]
pub enum EnterRefusal {
    /// There are as many sessions as may be.
    TooMany,
    /// The server's link to its drivers has ended.
    Stopped,
    /// No memory was found.
    OutOfMemory,
}

/// Who makes calls for a connection: sessions of a file server, one for each user. What each of the three calls may give is said by a
/// relation of the implementation, between the states before and after it; contracts of a connection speak of these relations alone.
pub trait Sessions {
    /// What a call of a session, at a time, may answer.
    ghost called: { Self → ℕ → ℕ → Call → Outcome → Self → Type 0 };

    /// What a user and a group may be answered that ask for a session.
    ghost entered: { Self → ℕ → ℕ → Result ℕ EnterRefusal → Self → Type 0 };

    /// How sessions may end, all of them or one.
    ghost left: { Self → Leaving → Self → Type 0 };

    /// A session for this user and group. A call names it by the number that is answered.
    fn enter(&mut self, uid: u16, gid: u16) -> Result<u8, EnterRefusal>
        ensures { entered self.old uid gid result self.new };

    /// A call of the session with this number, at this time, in seconds since 1970.
    fn call(&mut self, session: u8, now: u32, call: &Call<'_>) -> Outcome
        ensures { called self.old session now call.now result self.new };

    /// Ends all sessions, or the one with a number: their descriptors are closed, and their numbers may be given again.
    fn leave(&mut self, who: Leaving)
        ensures { left self.old who self.new };
}

/// What the sessions answer.
pub fn heard<S: Sessions>(sessions: &mut S, now: u32, ask: &Ask<'_>) -> Heard
    ensures { MayHear S.called S.entered S.left now sessions.old ask.now result sessions.new }
{
    match ask {
        Ask::Enter { uid, gid } => Heard::Entered(sessions.enter(*uid, *gid)),
        Ask::Leave(who) => {
            sessions.leave(*who);
            Heard::Left
        }
        Ask::Call { session, call } => Heard::Outcome(sessions.call(*session, now, call)),
    }
}
