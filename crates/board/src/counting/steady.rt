//! What a service asks of the link to its drivers.

ghost use Rattle.std.specs.Prelude.{◌≡◌, ◌≤◌, List, IfNone, IfSome};
ghost use Rattle.records.specs.Marks.{Mark};
ghost use Rattle.records.specs.Opening.{Opening};
ghost use Rattle.records.specs.Told.{received};
ghost use Rattle.reincarnate.specs.declared.policy.Policy.{Policy};
ghost use Rattle.bdev.specs.DriverState.{DriverState};
ghost use Rattle.board.specs.Steady.{IsAside, RestsNotOnCalls, RestsNotOnFlushes};

use message::Incoming;
use reissue::link::Link;

/// A link whose guarantee doesn't rest on calls and Flushes: what it guarantees of a record it guarantees of it and one more of these. It
/// always has room for what is done on a message.
pub trait Steady: Link {
    /// The next message, if it has come already: a driver's answer, or a start. It is for a server between two calls, and isn't noted among
    /// what the link gave. That the device was given up is left for the next take, and so is what comes behind it. It waits for none.
    fn aside(&mut self) -> Option<Incoming>
        ensures told { Self.history self.new ≡ Self.history self.old }
        ensures budget { Self.budget_left self.new ≤ Self.budget_left self.old }
        ensures goes { Self.goes_on self.old self.new }
        ensures message { IfSome result IsAside }
        ensures some { IfSome result (λ m. (v : Opening) (marks : List Mark) → Self.truth self.old v marks
            → Self.truth self.new v (received m marks)) }
        ensures none { IfNone result ((v : Opening) (marks : List Mark) → Self.truth self.old v marks → Self.truth self.new v marks) };

    ghost rests: { (link : Self) → RestsNotOnCalls (Self.truth link) };

    ghost flushes: { (link : Self) → RestsNotOnFlushes (Self.truth link) };

    ghost has_room: { (link : Self) → 33 ≤ Self.room link };
}

/// A link to drivers that are replaced by a policy.
///
/// Contracts see one thing more of it: `runs_on` says by which policy, and which drivers were handed in, the first one first. However
/// far the link goes on, it does so.
pub trait Supplied: Link {
    ghost runs_on: { Self → Policy → List DriverState → Type 0 };

    ghost keeps_on: { (l m : Self) (policy : Policy) (supply : List DriverState) → Self.goes_on l m → runs_on l policy supply
        → runs_on m policy supply };
}
