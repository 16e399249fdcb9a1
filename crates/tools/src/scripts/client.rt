//! A session of a service, as one who plays a script needs it.

ghost use Rattle.std.specs.Prelude.{◌≡◌, List, true};
ghost use Rattle.records.specs.Marks.{Mark};
ghost use Rattle.records.specs.Session.{SessionState, SessionGoesOn, MeetKeeps, caller_of};
ghost use Rattle.tools.specs.Made.{call_made, cuts};

use tree::{Call, Outcome};

/// A session of a service: it makes the calls of one user and group, one at a time.
///
/// Of the service contracts see here what the session has seen of its record, that it vouches for each record that a session has seen, and
/// whether its link had ended with that record.
pub trait Client: Send + Drop {
    // the session's user and group, and what it knows
    ghost state: { Self → SessionState };

    // what the service guarantees of a record that one of its sessions has seen
    ghost vouches: { List Mark → Type 0 };

    // that the link to the drivers had ended with this record
    ghost ended: { List Mark → Type 0 };

    /// Its number among the sessions of the service.
    fn number(&self) -> u8
        ensures { result ≡ (state self.now).knows.number };

    /// Makes a call, at this time in seconds since 1970. An answer is the last of the session's own calls in what it has seen; a cut, which
    /// comes once the link to the drivers has ended, leaves none.
    fn call(&mut self, now: u32, call: &Call<'_>) -> Outcome
        ensures goes_on { SessionGoesOn (state self.old) (state self.new) }
        ensures mine { (state self.new).knows.mine ≡ call_made (caller_of (state self.old)) now call.now result
            (state self.old).knows.mine }
        ensures vouched { vouches (state self.new).knows.seen }
        ensures cut { cuts result ≡ true → ended (state self.new).knows.seen };

    /// Two sessions of one service meet: both have then seen what either had seen.
    fn meet(&mut self, other: &mut Self)
        ensures { MeetKeeps (state self.old) (state other.old) (state self.new) (state other.new) };

    /// Ends the session.
    fn end(self);
}
