//! Links that keep the record of a service.

ghost use Rattle.std.specs.Prelude.{◌≡◌, ◌↔◌, ◌<◌, ◌≤◌, ◌∷◌, List, ℕ, true, Some, IfSome, IfNone};
ghost use Rattle.tree.specs.Answers.{answer_of};
ghost use Rattle.records.specs.Marks.{Mark, Took, Flush};
ghost use Rattle.records.specs.Opening.{Opening};
ghost use Rattle.records.specs.Told.{received, took_end};
ghost use Rattle.records.specs.Session.{tally_of};
ghost use Rattle.board.specs.View.{without};
ghost use Rattle.board.specs.Steady.{IsAside};
ghost use Rattle.board.specs.Steps.{SessionLearns, SessionIsNew};
ghost use Rattle.board.specs.Keeper.{AreAllUsed, IsLowestFree, IsOneUsed};
ghost use Rattle.board.specs.Written.{AreWritten};
ghost use Rattle.board.specs.Recorder.{SameLink};
ghost use Rattle.file_server.specs.Leaving.{IsEndLast};

use crate::Seat;
use crate::counting::parameters::ServiceParameters;
use crate::counting::steady::Supplied;
use changes::Marks;
use message::Incoming;
use tree::{Call, Reply, Who};

/// A link that keeps the record of a service on the service's board, and gives its sessions their numbers.
///
/// Contracts see two things more of it: `marks` is the record, and `numbers` are the numbers that sessions have.
pub trait Recorder<N: ServiceParameters>: Supplied + Drop {
    ghost marks: { Self → List Mark };

    ghost numbers: { Self → List ℕ };

    /// A call of the caller's session was answered. The caller has then seen the whole record, its call last. Gives how many counted
    /// marks it has, modulo 2^64.
    fn count_call(
        &mut self,
        caller: &mut Seat,
        who: Who,
        now: u32,
        call: &Call,
        reply: &Reply,
    ) -> u64
        requires { (caller.old.table ≡ N.table) × (caller.old.view.number ≡ Some who.session) }
        ensures same { SameLink Self.Link Self.runs_on self.old self.new }
        ensures truth { (v : Opening) (older : List Mark) → Self.truth self.old v older
            → Self.truth self.new v (Took who now call.now (answer_of reply.now) ∷ older) }
        ensures marks { marks self.new ≡ Took who now call.now (answer_of reply.now) ∷ marks self.old }
        ensures numbers { numbers self.new ≡ numbers self.old }
        ensures caller { (caller.new.table ≡ N.table) × (caller.new.view.number ≡ Some who.session) }
        ensures seen { caller.new.view.seen ≡ marks self.new }
        ensures tally { result ≡ tally_of (marks self.new) }
        ensures mine { caller.new.view.mine ≡ Took who now call.now (answer_of reply.now) ∷ caller.old.view.mine }
        ensures session { SessionLearns caller.old.view caller.new.view };

    /// The caller has then seen the whole record. Gives how many counted marks it has, modulo 2^64.
    fn show(&mut self, caller: &mut Seat) -> u64
        requires { caller.old.table ≡ N.table }
        ensures same { SameLink Self.Link Self.runs_on self.old self.new }
        ensures truth { (v : Opening) (older : List Mark) → Self.truth self.old v older → Self.truth self.new v older }
        ensures marks { marks self.new ≡ marks self.old }
        ensures numbers { numbers self.new ≡ numbers self.old }
        ensures caller { (caller.new.table ≡ N.table) × (caller.new.view.number ≡ caller.old.view.number) }
        ensures seen { caller.new.view.seen ≡ marks self.new }
        ensures tally { result ≡ tally_of (marks self.new) }
        ensures mine { caller.new.view.mine ≡ caller.old.view.mine }
        ensures session { SessionLearns caller.old.view caller.new.view };

    /// A Flush was taken between two calls.
    fn note_flush(&mut self)
        ensures same { SameLink Self.Link Self.runs_on self.old self.new }
        ensures truth { (v : Opening) (older : List Mark) → Self.truth self.old v older → Self.truth self.new v (Flush ∷ older) }
        ensures marks { marks self.new ≡ Flush ∷ marks self.old }
        ensures numbers { numbers self.new ≡ numbers self.old };

    /// The next message, if it has come already: as `Steady::aside` of a link that keeps no record. The message leaves its mark.
    fn aside(&mut self) -> Option<Incoming>
        ensures told { Self.Link.history self.new ≡ Self.Link.history self.old }
        ensures budget { Self.Link.budget_left self.new ≤ Self.Link.budget_left self.old }
        ensures goes { Self.Link.goes_on self.old self.new }
        ensures message { IfSome result IsAside }
        ensures some { IfSome result (λ m. (v : Opening) (older : List Mark) → Self.truth self.old v older
            → Self.truth self.new v (received m older)) }
        ensures none { IfNone result ((v : Opening) (older : List Mark) → Self.truth self.old v older → Self.truth self.new v older) };

    /// Whether a take gave End. Nothing is taken then any more.
    fn has_ended(&self) -> bool
        ensures { result ≡ took_end (Self.Link.history self.now) };

    /// Which units of 4096 bytes of the volume's range the writes have a byte in that were issued: a mark for each that a volume may have.
    fn written(&self) -> &Marks
        ensures { AreWritten result.now (marks self.now) };

    /// Whether each of the 64 numbers is that of a session.
    fn is_full(&self) -> bool
        ensures { (result ≡ true) ↔ AreAllUsed (numbers self.now) };

    /// Whether a number is that of a session, but for this number.
    fn has_sessions(&self, but: Option<u8>) -> bool
        ensures { (result ≡ true) ↔ IsOneUsed (without but (numbers self.now)) };

    /// A seat with the lowest number that no session has, if there is one: its session has seen the whole record, and made no call. With it
    /// comes how many counted marks that has, modulo 2^64.
    fn admit(&mut self) -> Option<(u8, Seat, u64)>
        ensures same { SameLink Self.Link Self.runs_on self.old self.new }
        ensures truth { (v : Opening) (older : List Mark) → Self.truth self.old v older → Self.truth self.new v older }
        ensures marks { marks self.new ≡ marks self.old }
        ensures full { IfNone result ((numbers self.new ≡ numbers self.old) × AreAllUsed (numbers self.old)) }
        ensures number { IfSome result (λ r. IsLowestFree r.0 (numbers self.old) × (numbers self.new ≡ r.0 ∷ numbers self.old)) }
        ensures seat { IfSome result (λ r. (r.1.table ≡ N.table) × SessionIsNew r.0 r.1.view (marks self.old)) }
        ensures tally { IfSome result (λ r. r.2 ≡ tally_of (marks self.old)) };

    /// A session ends: its number is free again.
    fn release(&mut self, number: u8, caller: Seat)
        requires { (caller.table ≡ N.table) × (caller.view.number ≡ Some number) × (number < 64) }
        ensures same { SameLink Self.Link Self.runs_on self.old self.new }
        ensures truth { (v : Opening) (older : List Mark) → Self.truth self.old v older → Self.truth self.new v older }
        ensures marks { marks self.new ≡ marks self.old }
        ensures numbers { numbers self.new ≡ without (Some number) (numbers self.old) };

    // What it guarantees of a record it guarantees of this one alone.
    ghost is_record: { (link : Self) (v : Opening) (older : List Mark) → Self.truth link v older → marks link ≡ older };

    // It always has room for what is done on a message.
    ghost is_roomy: { (link : Self) → 33 ≤ Self.room link };

    // The numbers that sessions have stay while it goes on: what a server posts and takes gives and frees none.
    ghost numbers_stay: { (l m : Self) → Self.goes_on l m → numbers m ≡ numbers l };

    // Where it guarantees a record, it took nothing after an End.
    ghost end_last: { (link : Self) (v : Opening) (older : List Mark) → Self.truth link v older → IsEndLast (Self.Link.history link) };
}
