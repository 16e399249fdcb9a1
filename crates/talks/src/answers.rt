//! Who answers messages.

ghost use Rattle.std.specs.Prelude.{◌≡◌, ℕ, List, [], Result, OnOk, OnErr};
ghost use Rattle.tree.specs.declared.Call.{Call};
ghost use Rattle.tree.specs.declared.Outcome.{Outcome};
ghost use Rattle.talks.specs.declared.ask.Leaving.{Leaving};
ghost use Rattle.talks.specs.declared.sessions.EnterRefusal.{EnterRefusal};

use crate::end::End;
use crate::sessions::Sessions;

/// Who answers the messages of a stream by calls of sessions. How a message may be answered is said by a relation of the implementation:
/// what the sessions may answer (their three relations), the message, its answer, and the sessions and the answerer before and after it.
pub trait Answers {
    ghost answers: { (S : Type 0) → (S → ℕ → ℕ → Call → Outcome → S → Type 0) → (S → ℕ → ℕ → Result ℕ EnterRefusal → S → Type 0)
        → (S → Leaving → S → Type 0) → List ℕ → List ℕ → S → Self → S → Self → Type 0 };

    /// The fewest bytes that a message has.
    ghost fewest: { ℕ };

    /// The fewest bytes that a message has.
    fn least(&self) -> u32
        ensures { result ≡ fewest };

    /// The most bytes that a message may have.
    fn most(&self) -> u32;

    /// Answers one message, all of its bytes, at this time, in seconds since 1970: the answer is written into `out`, which is empty. Some
    /// messages have none.
    ///
    /// Refused: nothing is asked, and nothing is written.
    fn answer<S: Sessions>(
        &mut self,
        sessions: &mut S,
        now: u32,
        bytes: &[u8],
        out: &mut Vec<u8>,
    ) -> Result<(), End>
        requires { out.old.items ≡ [] }
        ensures ok { OnOk result (answers S S.called S.entered S.left bytes.now out.new.items sessions.old self.old sessions.new self.new) }
        ensures none { OnErr result ((sessions.new ≡ sessions.old) × (out.new.items ≡ [])) };
}
