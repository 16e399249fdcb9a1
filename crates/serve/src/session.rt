//! Sessions of a service.

ghost use Rattle.std.specs.Prelude.{◌≡◌, ◌<◌, ◌≤◌, ◌^◌, true, Some};
ghost use Rattle.std.specs.Bool.{OnTrue, OnFalse};
ghost use Rattle.tree.specs.Tree.{Tree};
ghost use Rattle.records.specs.Marks.{counted, IsBeginning};
ghost use Rattle.records.specs.Opening.{contents_at};
ghost use Rattle.records.specs.Legal.{IsAtFirst};
ghost use Rattle.records.specs.Session.{caller_of, SessionCallKeeps, SessionState, DeviceKeeps, MeetKeeps};
ghost use Rattle.board.specs.Words.{is_given_up};
ghost use Rattle.file_server.specs.Over.{outcome_in, outcome_of};
ghost use Rattle.serve.specs.Closing.{ClosesBelow, ClosesOne, HasClosed, IsFreed, IsLater};
ghost use Rattle.shared_server.specs.Descriptors.{leaves_open};
ghost use Rattle.shared_server.specs.Held.{HasEnded, HoldsIfTrue, IsCutAtEnd, IsEioOnceGivenUp, IsGuaranteed, IsSound};

use crate::let_go::{Gone, LetGo};
use crate::service::Shared;
use board::counting::parameters::ServiceParameters;
use board::counting::recorder::Recorder;
use board::{Board, Device, Seat};
use file_server::{Ending, FileServer};
use shared_server::left_open::{LeftOpen, is_cut};
use std::marker::{Model, PhantomData};
use std::sync::{Arc, Wait};
use tree::{Call, MAX_DESCRIPTORS, Outcome, Reply, Who};

/// One client of a service: a user and a group, and what it has seen of the service's record. A session may move to another thread.
///
/// What the sessions of a service share is a type parameter, so that what waits for nobody needs no handle that may wait.
///
/// A session that is let go without `end` keeps its number and its open files until the service makes a further session or is stopped:
/// then it is ended, as `end` would have.
pub struct Session<N: ServiceParameters, S> {
    pub(crate) board: Arc<Board>,
    pub(crate) seat: Seat,
    pub(crate) who: Who,
    // How many counted marks it has seen, while they are fewer than 2^64.
    pub(crate) seen: u64,
    // The descriptors that its calls left open.
    pub(crate) left_open: LeftOpen,
    // Where it leaves what it has when it is let go.
    pub(crate) let_go: Arc<LetGo<N>>,
    pub(crate) shared: Arc<S>,
    pub(crate) of: PhantomData<N>,
}

impl<N: ServiceParameters, S: Drop> Drop for Session<N, S> {
    fn drop(self) {
        let Self {
            board: _,
            seat,
            who,
            seen,
            left_open,
            let_go,
            shared: _,
            of,
        } = self;
        let_go.put(Gone {
            seat,
            who,
            seen,
            left_open,
            of,
        });
    }
}

impl<N: ServiceParameters, S> Model for Session<N, S> {
    ghost use Rattle.std.specs.Prelude.{◌≡◌, ◌<◌, Some};
    ghost use Rattle.serve.specs.Counts.{Counts};
    ghost use Rattle.std.specs.Arc.{arc_value};
    ghost use Rattle.records.specs.Session.{SessionState};
    ghost use Rattle.board.specs.View.{session_for};
    ghost use Rattle.shared_server.specs.Descriptors.{AreLeftOpen};

    ghost Value = { SessionState };

    ghost view = { λ s. session_for s.who.uid s.who.gid s.who.session s.seat.view };

    ghost invariant = { λ s. (arc_value s.board ≡ N.table) × (s.seat.table ≡ N.table) × (s.seat.view.number ≡ Some s.who.session)
        × (s.who.session < 64) × Counts s.seen s.seat.view.seen × AreLeftOpen s.left_open s.seat.view.mine };
}

impl<N: ServiceParameters, S> Session<N, S> {
    /// Its number among the sessions of the service, 0 to 63.
    pub fn number(&self) -> u8
        ensures number { result ≡ self.now.knows.number }
        ensures low { result < 64 }
    {
        self.who.session
    }

    /// How many counted marks the session has seen: the starts, the answers, the flushes, the giving up and the calls. It doesn't look at
    /// the board, so it stays the same whatever others do; of 2^64 marks or more it says nothing.
    pub fn seen(&self) -> u64
        ensures { counted self.now.knows.seen < 2 ^ 64 → result ≡ counted self.now.knows.seen }
    {
        self.seen
    }

    /// Whether the device was given up. `GivenUp` comes only where the session has then seen so, and comes where it had seen a call
    /// taken after it. It looks at the board, so the session may then have seen more.
    pub fn device(&mut self) -> Device
        ensures { DeviceKeeps self.old (is_given_up result) self.new }
    {
        let device = self.board.device(&mut self.seat);
        self.seen = self.board.tally(&mut self.seat);
        device
    }

    /// Two sessions meet: both have then seen what either had seen, and give the same number of marks.
    pub fn meet(&mut self, other: &mut Session<N, S>)
        ensures { MeetKeeps self.old other.old self.new other.new }
    {
        self.board.meet(&mut self.seat, &mut other.seat);
        let seen = self.seen.max(other.seen);
        self.seen = seen;
        other.seen = seen;
    }
}

impl<N: ServiceParameters, R: Wait + Copy, L: Recorder<N>, S: FileServer<L>> Session<
    N,
    Shared<N, R, L, S>,
> {
    /// Makes a call of the session's user and group. It may wait for the calls of other sessions. The session has then seen the record up
    /// to this call: an answer is its last mark; a cut, which comes once the link to the drivers has ended, leaves none.
    #[inline(always)]
    pub fn call(&mut self, now: u32, call: &Call<'_>) -> Outcome
        ensures keeps { SessionCallKeeps N.geometry (contents_at N.opening) self.old (caller_of self.old) now
            call.now (outcome_of result) self.new }
        ensures sound { IsSound self.new.knows.seen }
        ensures guaranteed { IsGuaranteed L.truth N.opening self.new.knows.seen }
        ensures volume { HoldsIfTrue N.geometry N.opening self.new.knows.seen }
        ensures eio { IsEioOnceGivenUp result self.new.knows.seen }
        ensures cut { IsCutAtEnd L.Link L.marks N.opening result self.new.knows.seen }
    {
        let mut reply = Reply::Done;
        match self.make(now, call, &mut reply) {
            Ending::Answered => Outcome::Reply(reply),
            Ending::Cut => Outcome::Cut,
        }
    }

    /// The same, whose reply goes to `reply`: a reply is large, so it is written where the session's caller has it, and not handed on.
    #[inline(never)]
    fn make(&mut self, now: u32, call: &Call<'_>, reply: &mut Reply) -> Ending
        ensures keeps { SessionCallKeeps N.geometry (contents_at N.opening) self.old (caller_of self.old) now
            call.now (outcome_of (outcome_in result reply.new)) self.new }
        ensures sound { IsSound self.new.knows.seen }
        ensures guaranteed { IsGuaranteed L.truth N.opening self.new.knows.seen }
        ensures volume { HoldsIfTrue N.geometry N.opening self.new.knows.seen }
        ensures eio { IsEioOnceGivenUp (outcome_in result reply.new) self.new.knows.seen }
        ensures cut { IsCutAtEnd L.Link L.marks N.opening (outcome_in result reply.new) self.new.knows.seen }
    {
        let shared = &*self.shared;
        let ending = shared
            .locked()
            .call(&mut self.seat, self.who, now, call, reply, &mut self.seen);
        self.left_open.note(call, ending, reply);
        ending
    }

    /// Closes a descriptor at the time 0, if the session's calls left it open. Whether that wasn't cut.
    fn close(&mut self, fd: u32) -> bool
        requires { fd < 32 }
        ensures later { IsLater L.truth N.opening self.old self.new }
        ensures closed { OnTrue result (ClosesOne fd (caller_of self.old) self.old.knows.mine self.new.knows.mine) }
        ensures cut { OnFalse result (self.new.knows.mine ≡ self.old.knows.mine) }
        ensures ended { OnFalse result (HasEnded L.Link N.opening self.new.knows.seen) }
        ensures open { OnFalse result (leaves_open fd self.old.knows.mine ≡ true) }
    {
        if !self.left_open.has(fd) {
            return true;
        }
        let outcome = self.call(0, &Call::Close { fd });
        !is_cut(&outcome)
    }

    /// Closes each descriptor that the session's calls left open, the lowest first, each by a call at the time 0, until one is cut, which
    /// comes once the link to the drivers has ended. How many descriptors it went through: all 32 where none was cut, else the one that
    /// wasn't closed is the lowest that it left.
    pub fn close_all(&mut self) -> u32
        ensures bound { result ≤ 32 }
        ensures later { IsLater L.truth N.opening self.old self.new }
        ensures caller { caller_of self.new ≡ caller_of self.old }
        ensures seen { IsBeginning self.old.knows.seen self.new.knows.seen }
        ensures closed { ClosesBelow result (caller_of self.old) self.old.knows.mine self.new.knows.mine }
        ensures cut { result < 32 → (leaves_open result self.old.knows.mine ≡ true) × HasEnded L.Link N.opening self.new.knows.seen }
    {
        for fd in 0..MAX_DESCRIPTORS {
            if !self.close(fd) {
                return fd;
            }
        }
        MAX_DESCRIPTORS
    }

    /// Its number and its seat; what it shares is let go.
    pub(crate) fn into_seat(self) -> (u8, Seat)
        ensures number { result.0 ≡ self.knows.number }
        ensures seen { result.1.view.seen ≡ self.knows.seen }
        ensures seat { (result.1.table ≡ N.table) × (result.1.view.number ≡ Some result.0) × (result.0 < 64) }
    {
        let Session {
            board: _,
            seat,
            who,
            seen: _,
            left_open: _,
            let_go: _,
            shared: _,
            of: _,
        } = self;
        (who.session, seat)
    }

    /// Ends the session: closes each descriptor that its calls left open, as `close_all` does; then its number is free again. It may wait
    /// for the calls of other sessions.
    pub fn end(mut self)
        ensures closed { (last : SessionState) × HasClosed L.Link N.opening self last }
        ensures freed { IsFreed L.marks L.numbers self.knows.number }
    {
        self.close_all();
        let Session {
            board: _,
            seat,
            who,
            seen: _,
            left_open: _,
            let_go: _,
            shared,
            of: _,
        } = self;
        shared.server.lock(&shared.rt).release(who.session, seat);
    }
}
