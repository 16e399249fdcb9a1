//! What a file server sees of its drivers: a line to post to, to complain on, and to take messages from.

ghost use Rattle.std.specs.Prelude.{◌≡◌, ◌<◌, ◌≤◌, ◌+◌, ◌∷◌, List, ℕ, is_ok, OnOk, OnErr};
ghost use Rattle.records.specs.Marks.{Mark, Issued};
ghost use Rattle.records.specs.Open.{MayFollow};
ghost use Rattle.records.specs.Disk.{HasTrueReplies};
ghost use Rattle.records.specs.Told.{Told, Posted, Complained, received, heard};
ghost use Rattle.records.specs.Opening.{Opening, contents_at, Fits};
ghost use Rattle.reissue.specs.Refusals.{link_refusal_number};
ghost use Rattle.reissue.specs.Room.{room_needed};

use message::endpoint::Endpoint;
use message::{BlockRequest, Incoming};
use thiserror::Error;

/// Why a request wasn't posted: nothing was handed over, and it may be posted later.
#[derive(Clone, Copy, Debug, PartialEq, Eq, Error)]
pub enum LinkRefusal {
    /// The driver of this endpoint has ended.
    #[error("DeadEndpoint")]
    DeadEndpoint,
    /// The driver's line is full.
    #[error("Full")]
    Full,
}

impl LinkRefusal {
    /// Its number: 1 or 2.
    pub fn number(self) -> u32
        ensures { result ≡ link_refusal_number self }
    {
        match self {
            LinkRefusal::DeadEndpoint => 1,
            LinkRefusal::Full => 2,
        }
    }
}

/// A line to the drivers.
///
/// Contracts see five things of it. `history` is all that it was told and all that it gave, the newest first.
/// `budget_left` bounds how many messages it still gives. `room` is how many more posts and complaints it can note
/// before the next message. `truth` is what the link guarantees of a record for a run that starts from an opening: a
/// link that guarantees nothing has no record of which it holds. `goes_on` is what goes on in it through every call: whoever
/// knows it of a link of his own finds it again after the calls of a server that has the link.
pub trait Link {
    ghost history: { Self → List Told };

    ghost budget_left: { Self → ℕ };

    ghost room: { Self → ℕ };

    ghost truth: { Self → Opening → List Mark → Type 0 };

    ghost goes_on: { Self → Self → Type 0 };

    /// Hands a request to the driver of this endpoint, or says why not: 1 DeadEndpoint, 2 Full. Either way it is noted.
    fn post(&mut self, to: Endpoint, request: &BlockRequest) -> Result<(), LinkRefusal>
        requires { 0 < room self.old }
        ensures told { history self.new ≡ Posted to request.now (is_ok result) ∷ history self.old }
        ensures budget { budget_left self.new ≤ budget_left self.old }
        ensures room { room self.old ≤ room self.new + 1 }
        ensures goes { goes_on self.old self.new }

        // What holds of a record holds of it and the issued request, if that may follow and fits.
        ensures accepted { (opening : Opening) (marks : List Mark) → truth self.old opening marks
            → OnOk result (MayFollow (Issued request.now to) marks → Fits opening request.now
            → truth self.new opening (Issued request.now to ∷ marks)) }
        ensures refused { (opening : Opening) (marks : List Mark) → truth self.old opening marks
            → OnErr result (truth self.new opening marks) };

    /// Tells the reincarnation server that this driver gave an answer that isn't good.
    fn complain(&mut self, about: Endpoint)
        requires { 0 < room self.old }
        ensures told { history self.new ≡ Complained about ∷ history self.old }
        ensures budget { budget_left self.new ≤ budget_left self.old }
        ensures room { room self.old ≤ room self.new + 1 }
        ensures goes { goes_on self.old self.new }
        ensures truth { (opening : Opening) (marks : List Mark) → truth self.old opening marks → truth self.new opening marks };

    /// The next message; End, if the budget is spent or nothing comes any more.
    fn take(&mut self) -> Incoming
        // A message is noted; of Ends the first alone, so that a link which has ended needs no room for more.
        ensures told { history self.new ≡ heard result (history self.old) }
        ensures budget { 0 < budget_left self.old → budget_left self.new < budget_left self.old }
        ensures spent { budget_left self.old ≡ 0 → result ≡ Incoming.End }
        ensures room { room_needed result ≤ room self.new }
        ensures goes { goes_on self.old self.new }

        // What holds of a record holds of it and the message's mark. Whether the replies in it are true isn't said.
        ensures truth { (opening : Opening) (marks : List Mark) → truth self.old opening marks
            → truth self.new opening (received result marks) };

    /// As `take`, but the message is put where the caller has room for it.
    fn take_into(&mut self, message: &mut Incoming)
        ensures told { history self.new ≡ heard message.new (history self.old) }
        ensures budget { 0 < budget_left self.old → budget_left self.new < budget_left self.old }
        ensures spent { budget_left self.old ≡ 0 → message.new ≡ Incoming.End }
        ensures room { room_needed message.new ≤ room self.new }
        ensures goes { goes_on self.old self.new }
        ensures truth { (opening : Opening) (marks : List Mark) → truth self.old opening marks
            → truth self.new opening (received message.new marks) }
    {
        *message = self.take();
    }

    /// How many messages it still gives, at most.
    fn budget(&self) -> u64
        ensures { result ≡ budget_left self.now };

    // each link goes on to itself, and what goes on twice goes on
    ghost stays: { (l : Self) → goes_on l l };

    ghost joins: { (a b c : Self) → goes_on a b → goes_on b c → goes_on a c };
}

/// A link whose guarantee makes the replies true. Of drivers that are run under the link this is known; a link over channels can't give it,
/// since nothing is known of what comes out of a channel.
pub trait TrueLink: Link {
    // the replies are true in each record of which the guarantee holds
    ghost replies_are_true: { (l : Self) (opening : Opening) (marks : List Mark) → Self.truth l opening marks
        → HasTrueReplies (contents_at opening) marks };
}
