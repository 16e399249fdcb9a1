//! A file server over a link: what every one keeps, so that whoever moves its link needs to know nothing else of it.
#![tactic(auto)]

ghost use Rattle.std.specs.Prelude.{◌≡◌, ◌≢◌, ◌≤◌, ◌<◌, ◌+◌, ◌^◌, ℕ, List, min, false};
ghost use Rattle.std.specs.Borrow.{Lends, sem};
ghost use Rattle.tree.specs.declared.Call.{Call as TreeCall};
ghost use Rattle.reissue.specs.Room.{room_needed};
ghost use Rattle.file_server.specs.Over.{CallSpecification, AbsorbsOver, SameServing, outcome_in, outcome_of};
ghost use Rattle.volume_reading.specs.Pieces.{Piece};
ghost use Rattle.volume_reading.specs.Places.{AreAt, ArePlaces, AreTaken};
ghost use Rattle.file_server.specs.Back.{ReadsBack};

pub mod laws;

use message::Incoming;
use records::legal::Serve;
use reissue::Link;
use tree::{Call, Outcome, Reply, Who};
use volume_reading::{Place, ReadRoom, Takes};

/// How a call ended.
#[derive(Clone, Copy, Debug, PartialEq, Eq)]
pub enum Ending {
    /// It was answered: its reply was written.
    Answered,
    /// It was cut, because the link has ended.
    Cut,
}

impl Ending {
    /// The outcome of a call that ended so, with its reply where it was answered.
    pub fn with(self, reply: Reply) -> Outcome
        ensures { result ≡ outcome_in self reply }
    {
        match self {
            Ending::Answered => Outcome::Reply(reply),
            Ending::Cut => Outcome::Cut,
        }
    }
}

/// How reading a volume back ended.
#[derive(Clone, Copy, Debug, PartialEq, Eq)]
pub enum ReadEnd {
    /// All was read.
    Read,
    /// The device was given up.
    GivenUp,
    /// The link has ended.
    Cut,
}

/// A file server over a link of this type.
///
/// Its link is lent out between two calls: whoever owns its type may change it then, as long as it was told and gave nothing more.
/// What goes on in the link goes on through each call, so that its owner finds his own state again. While the link hasn't ended it gives
/// no more messages after a call than before.
pub trait FileServer<L: Link + Drop>: Serve + Drop {
    // the calls that it knows how to answer: a whole file server knows each
    ghost knows: { TreeCall → Type 0 };

    // its link, and the server with another link in its place
    ghost line: { Self → L };

    ghost with_line: { Self → L → Self };

    // how many messages it was handed between two calls
    ghost absorbed: { Self → ℕ };

    // what it needs of its link for the next call: room, and ids for what the link still gives
    ghost is_ready: { Self → Type 0 };

    // nothing is pending at its link, and no Flush is left undone
    ghost is_idle: { Self → Type 0 };

    /// One call of a client, with the time in seconds since 1970, whose reply goes to `reply`. Cut once a take gave End; else EIO once the
    /// device was given up.
    fn call(&mut self, who: Who, now: u32, call: &Call, reply: &mut Reply) -> Ending
        requires ready { is_ready self.old }
        requires knows { knows call.now }
        ensures ready { is_ready self.new }
        ensures keeps { CallSpecification (Self.serving self.old) (Self.serving self.new) (L.truth (line self.old)) (L.truth (line self.new))
            who now call.now (outcome_of (outcome_in result reply.new)) }
        ensures goes { L.goes_on (line self.old) (line self.new) }
        ensures budget { (Self.serving self.new).ended ≡ false → L.budget_left (line self.new) ≤ L.budget_left (line self.old) }
        ensures absorbed { absorbed self.new ≡ absorbed self.old };

    /// One message between two calls, which its link has noted. End has no effect. Where nothing is pending and no Flush is left undone,
    /// nothing but a Flush makes it tell its link anything.
    fn absorb(&mut self, message: Incoming)
        requires ready { is_ready self.old }
        requires few { absorbed self.old < 2 ^ 48 }
        requires room { room_needed message ≤ L.room (line self.old) }
        ensures ready { is_ready self.new }
        ensures keeps { AbsorbsOver (Self.serving self.old) (Self.serving self.new) (L.truth (line self.old)) (L.truth (line self.new))
            message }
        ensures silent { message ≢ Incoming.Flush → is_idle self.old → L.history (line self.new) ≡ L.history (line self.old) }
        ensures goes { L.goes_on (line self.old) (line self.new) }
        ensures budget { (Self.serving self.new).ended ≡ false → L.budget_left (line self.new) ≤ L.budget_left (line self.old) }
        ensures absorbed { absorbed self.new ≤ absorbed self.old + 1 };

    /// The link.
    fn link(&self) -> &L
        ensures { result.now ≡ line self.now };

    /// The link, to be changed: all else stays as it is.
    fn link_mut(&mut self) -> &mut L
        ensures* lends { sem 𝓛 (Lends Self.row L.row self.entry result (with_line self.entry.now)) }
        ensures value { result.now ≡ line self.old };

    /// Lets the server go and reads places of its volume back: waits for all that is pending, and then reads each place of the volume's
    /// range through the link, in order, and has its piece taken before the next one is read. It takes no memory. It ends early where the
    /// device is given up or the link ends. Gives the link.
    fn read_back<T: Takes>(self, room: ReadRoom, places: &[Place], taker: &mut T) -> (L, ReadEnd)
        requires ready { is_ready self }
        requires few { absorbed self ≤ 2 ^ 48 }
        requires live { (Self.serving self).ended ≡ false }
        requires places { ArePlaces 0 (2 ^ 48) places.now }
        ensures back { (pieces : List Piece) × AreTaken T.takes taker.old pieces taker.new
            × (result.1 ≡ ReadEnd.Read → AreAt places.now pieces)
            × ReadsBack (Self.serving self) result.1 pieces (L.history result.0) (L.truth (line self)) (L.truth result.0) }
        ensures goes { L.goes_on (line self) result.0 };

    // the link that was put there is the link
    ghost is_there: { (s : Self) (l : L) → line (with_line s l) ≡ l };

    ghost counts_on: { (s : Self) (l : L) → absorbed (with_line s l) ≡ absorbed s };

    // what its link was told and gave is the link's history
    ghost tells: { (s : Self) → (Self.serving s).told ≡ L.history (line s) };

    // a link with the same history changes nothing of the server
    ghost stays: { (s : Self) (l : L) → L.history l ≡ L.history (line s) → SameServing (Self.serving s) (Self.serving (with_line s l)) };

    // one with as much room and no more messages leaves it ready
    ghost stays_ready: { (s : Self) (l : L) → L.history l ≡ L.history (line s) → min 33 (L.room (line s)) ≤ L.room l
        → L.budget_left l ≤ L.budget_left (line s) → is_ready s → is_ready (with_line s l) };
}
