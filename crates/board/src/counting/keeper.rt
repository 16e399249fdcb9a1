//! The record of a service, and the numbers of its sessions.

ghost use Rattle.std.specs.Prelude.{◌≡◌, ◌<◌, ℕ, true, false, slice_index_or};
ghost use Rattle.std.specs.Arc.{arc_value};
ghost use Rattle.records.specs.Marks.{gave_up};
ghost use Rattle.board.specs.View.{IsKeeper, is_used};

use crate::counting::parameters::ServiceParameters;
use crate::{Board, Seat};
use message::endpoint::Endpoint;
use message::{BlockRequest, Incoming};
use std::marker::PhantomData;
use std::sync::Arc;
use tree::{Call, Reply, Who};

/// The record's seat of the board, and which numbers sessions have.
#[derive(Drop)]
pub struct Keeper<N: ServiceParameters> {
    board: Arc<Board>,
    seat: Seat,
    used: [bool; 64],
    of: PhantomData<N>,
    ghost named: { arc_value board ≡ N.table },
    ghost keeps: { IsKeeper N.table seat },
    ghost told: { gave_up seat.view.seen ≡ true → seat.view.given_up ≡ true },
    ghost numbers: { (n : ℕ) → n < 64 → slice_index_or used n false ≡ is_used n seat.view.used },
}

impl<N: ServiceParameters> Keeper<N> {
    ghost use Rattle.std.specs.Prelude.{◌≢◌, ◌↔◌, ◌∷◌, [], List, Some, IfSome, IfNone};
    ghost use Rattle.tree.specs.Answers.{answer_of};
    ghost use Rattle.records.specs.Marks.{Mark, Took, Issued, IsBeginning};
    ghost use Rattle.records.specs.Session.{tally_of};
    ghost use Rattle.board.specs.View.{opener, new_caller, caller_after, without};
    ghost use Rattle.board.specs.Words.{mark_of};
    ghost use Rattle.board.specs.Steps.{SessionLearns, SessionIsNew};
    ghost use Rattle.board.specs.Keeper.{record_of, numbers_of, AreAllUsed, IsLowestFree, IsOneUsed};

    /// The record's seat of a new board: nothing is in the record, and no session has a number.
    pub fn new(board: Arc<Board>, seat: Seat) -> Keeper<N>
        requires board { arc_value board ≡ N.table }
        requires seat { IsKeeper N.table seat × (seat.view ≡ opener) }
        ensures record_is { record_of result ≡ [] }
        ensures numbers { numbers_of result ≡ [] }
    {
        Keeper {
            board,
            seat,
            used: [false; 64],
            of: PhantomData,
        }
    }

    /// A request was issued.
    pub fn issue(&mut self, request: &BlockRequest, to: Endpoint)
        ensures record_is { record_of self.new ≡ Issued request.now to ∷ record_of self.old }
        ensures numbers { numbers_of self.new ≡ numbers_of self.old }
    {
        self.board.issue(&mut self.seat, request, to);
    }

    /// A message was taken that leaves a mark.
    pub fn note(&mut self, message: &Incoming)
        requires { message.now ≢ Incoming.End }
        ensures record_is { record_of self.new ≡ mark_of message.now ∷ record_of self.old }
        ensures numbers { numbers_of self.new ≡ numbers_of self.old }
    {
        self.board.note(&mut self.seat, message);
        if matches!(message, Incoming::GaveUp) {
            self.board.give_up(&mut self.seat);
        }
    }

    /// A call of the caller's session was answered. The caller has then seen the whole record, its call last. Gives how many counted
    /// marks it has, modulo 2^64.
    pub fn count(
        &mut self,
        caller: &mut Seat,
        who: Who,
        now: u32,
        call: &Call,
        reply: &Reply,
    ) -> u64
        requires { (caller.old.table ≡ N.table) × (caller.old.view.number ≡ Some who.session) }
        ensures record_is { record_of self.new ≡ Took who now call.now (answer_of reply.now) ∷ record_of self.old }
        ensures numbers { numbers_of self.new ≡ numbers_of self.old }
        ensures caller { (caller.new.table ≡ N.table) × (caller.new.view.number ≡ Some who.session) }
        ensures seen { caller.new.view.seen ≡ record_of self.new }
        ensures tally { result ≡ tally_of (record_of self.new) }
        ensures mine { caller.new.view.mine ≡ Took who now call.now (answer_of reply.now) ∷ caller.old.view.mine }
        ensures session { SessionLearns caller.old.view caller.new.view }
    {
        self.board
            .count(&mut self.seat, caller, who, now, call, reply);
        self.board.tally(&mut self.seat)
    }

    /// The caller has then seen the whole record. Gives how many counted marks it has, modulo 2^64.
    pub fn show(&mut self, caller: &mut Seat) -> u64
        requires { caller.old.table ≡ N.table }
        ensures record_is { record_of self.new ≡ record_of self.old }
        ensures numbers { numbers_of self.new ≡ numbers_of self.old }
        ensures caller { (caller.new.table ≡ N.table) × (caller.new.view.number ≡ caller.old.view.number) }
        ensures seen { caller.new.view.seen ≡ record_of self.new }
        ensures tally { result ≡ tally_of (record_of self.new) }
        ensures mine { caller.new.view.mine ≡ caller.old.view.mine }
        ensures session { SessionLearns caller.old.view caller.new.view }
    {
        self.board.meet(&mut self.seat, caller);
        self.board.tally(&mut self.seat)
    }

    /// Whether each of the 64 numbers is that of a session.
    pub fn is_full(&self) -> bool
        ensures { (result ≡ true) ↔ AreAllUsed (numbers_of self.now) }
    {
        self.used.iter().all(|used| *used)
    }

    /// Whether this number is that of a session, but for the second one.
    fn has_session(&self, number: u8, but: Option<u8>) -> bool
        requires { number < 64 }
        ensures { result ≡ is_used number (without but (numbers_of self.now)) }
    {
        match but {
            Some(other) => number != other && self.used[number as usize],
            None => self.used[number as usize],
        }
    }

    /// Whether a number is that of a session, but for this number.
    pub fn has_sessions(&self, but: Option<u8>) -> bool
        ensures { (result ≡ true) ↔ IsOneUsed (without but (numbers_of self.now)) }
    {
        for number in 0..64 {
            if self.has_session(number, but) {
                return true;
            }
        }
        false
    }

    /// A seat with the lowest number that no session has, if there is one: its session has seen the whole record. With it comes how many
    /// counted marks that has, modulo 2^64.
    pub fn admit(&mut self) -> Option<(u8, Seat, u64)>
        ensures record_is { record_of self.new ≡ record_of self.old }
        ensures full { IfNone result ((numbers_of self.new ≡ numbers_of self.old) × AreAllUsed (numbers_of self.old)) }
        ensures number { IfSome result (λ r. IsLowestFree r.0 (numbers_of self.old)) }
        ensures numbers { IfSome result (λ r. numbers_of self.new ≡ r.0 ∷ numbers_of self.old) }
        ensures seat { IfSome result (λ r. (r.1.table ≡ N.table) × SessionIsNew r.0 r.1.view (record_of self.old)) }
        ensures tally { IfSome result (λ r. r.2 ≡ tally_of (record_of self.old)) }
    {
        let number = self.used.iter().position(|used| !*used)?;
        let Ok(seat) = self.board.split(&mut self.seat, Some(number as u8)) else {
            unreachable!()
        };
        self.used[number] = true;
        let count = self.board.tally(&mut self.seat);
        Some((number as u8, seat, count))
    }

    /// A session ends: its number is free again.
    pub fn release(&mut self, number: u8, caller: Seat)
        requires { (caller.table ≡ N.table) × (caller.view.number ≡ Some number) × (number < 64) }
        ensures record_is { record_of self.new ≡ record_of self.old }
        ensures numbers { numbers_of self.new ≡ without (Some number) (numbers_of self.old) }
    {
        self.board.spend(&mut self.seat, caller);
        self.used[number as usize] = false;
    }
}
