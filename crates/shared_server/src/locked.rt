//! What lies under the lock of a service.

ghost use Rattle.std.specs.Prelude.{◌≡◌, ◌↔◌, ◌∷◌, ◌<◌, ◌≤◌, ◌^◌, ◌%◌, List, length, true, Some, IsErrOf, IfErr, IfOk, OnErr};
ghost use Rattle.records.specs.Opening.{contents_at};
ghost use Rattle.records.specs.Told.{took_end};
ghost use Rattle.tree.specs.Tree.{Tree};
ghost use Rattle.records.specs.Legal.{IsAtFirst};
ghost use Rattle.records.specs.Session.{tally_of};
ghost use Rattle.board.specs.View.{without};
ghost use Rattle.board.specs.Steps.{SessionIsNew, SessionLearns};
ghost use Rattle.file_server.specs.Over.{outcome_in, outcome_of};
ghost use Rattle.shared_server.specs.Held.{AddsCall, HoldsIfTrue, IsEioOnceGivenUp, IsGood, IsGuaranteed, IsHeld, IsNotAdmitted, IsServedCall, IsSound};
ghost use Rattle.shared_server.specs.Stopping.{IsFinished, Went};
ghost use Rattle.shared_server.specs.Finishing.{finish_end, units_back};
ghost use Rattle.board.specs.Keeper.{AreAllUsed, IsLowestFree, IsOneFree, IsOneUsed};
ghost use Rattle.volume_reading.specs.Pieces.{Piece};
ghost use Rattle.volume_reading.specs.Places.{AreTaken};

use crate::calling::make_call;
use crate::finishing::{Finish, MOST, Reading, are_same, room_for};
use crate::flushing::{take_aside, take_flush};
use crate::left_open::{is_cut, was_done};
use crate::refusal::SessionRefusal;
use crate::sharing::{admit, release, show};
use board::Seat;
use board::counting::parameters::ServiceParameters;
use board::counting::recorder::Recorder;
use board::counting::written::disk_stays_unwritten;
use file_server::{Ending, FileServer, ReadEnd};
use std::alloc::Global;
use std::marker::{Model, PhantomData};
use tree::{Call, Outcome, Reply, Who};
use volume_reading::Takes;

/// How many messages the server is handed between two calls at most (own).
const MOST_ABSORBED: u64 = 281474976710656;

/// How many messages it is handed before a Flush at most (own): sixteen answers may have come, and starts.
const MOST_ASIDE: u32 = 64;

/// What came of the last sync of a service.
#[derive(Clone, Copy, Debug, PartialEq, Eq)]
pub enum LastSync {
    /// It was answered ok, and the volume read back.
    Done,
    /// The device was given up.
    GivenUp,
    /// The link to the drivers had ended.
    Cut,
    /// It was answered ok and the volume read back, but the media aren't as they were read: a driver lost writes, and didn't say so.
    NotAsRead,
    /// It was answered ok, and the volume wasn't read back, or not all that drivers may have written.
    NotRead,
}

/// What lies under the lock of a service: its server, whose link keeps the record. Contracts see the link.
#[derive(Drop)]
pub struct Locked<N: ServiceParameters, L: Recorder<N>, S: FileServer<L>> {
    server: S,
    // How many messages it was handed between two calls, at least.
    absorbed: u64,
    of: PhantomData<N>,
    over: PhantomData<L>,
}

impl<N: ServiceParameters, L: Recorder<N>, S: FileServer<L>> Model for Locked<N, L, S> {
    ghost use Rattle.std.specs.Prelude.{◌≤◌, ◌^◌};
    ghost use Rattle.shared_server.specs.Held.{IsHeld as IsHeldFor};

    ghost Value = { L };

    ghost view = { λ d. S.line d.server };

    ghost invariant = { λ d. IsHeldFor N.ServiceParameters L.Link S.Serve.serving S.line S.is_ready S.knows L.runs_on L.marks d.server
        × (S.absorbed d.server ≤ d.absorbed) × (d.absorbed ≤ 2 ^ 48) };
}

impl<N: ServiceParameters, L: Recorder<N>, S: FileServer<L>> Locked<N, L, S> {
    /// A server over the service's volume, which stands with its record.
    pub fn new(server: S) -> Locked<N, L, S>
        requires held { IsHeld N.ServiceParameters L.Link S.Serve.serving S.line S.is_ready S.knows L.runs_on L.marks server }
        requires none_absorbed { S.absorbed server ≡ 0 }
        ensures { result ≡ S.line server }
    {
        Locked {
            server,
            absorbed: 0,
            of: PhantomData,
            over: PhantomData,
        }
    }

    /// A call of a session, which has then seen the whole record. An answer is a mark of it, the last; a cut isn't. No other call is made
    /// meanwhile, and the numbers of sessions stay. The reply goes to `reply`, and to `tally` how many counted marks the record has, modulo
    /// 2^64.
    pub fn call(
        &mut self,
        seat: &mut Seat,
        who: Who,
        now: u32,
        call: &Call,
        reply: &mut Reply,
        tally: &mut u64,
    ) -> Ending
        requires seat { (seat.old.table ≡ N.table) × (seat.old.view.number ≡ Some who.session) }
        ensures seat { (seat.new.table ≡ N.table) × (seat.new.view.number ≡ Some who.session) }
        ensures call { IsServedCall N.geometry N.opening who now call.now seat.old.view (outcome_of (outcome_in result reply.new)) seat.new.view }
        ensures added { AddsCall who now call.now (outcome_of (outcome_in result reply.new)) (L.marks self.old) (L.marks self.new) }
        ensures numbers { L.numbers self.new ≡ L.numbers self.old }
        ensures seen { seat.new.view.seen ≡ L.marks self.new }
        ensures tally { tally.new ≡ tally_of seat.new.view.seen }
        ensures sound { IsSound seat.new.view.seen }
        ensures guaranteed { IsGuaranteed L.truth N.opening seat.new.view.seen }
        ensures truth { L.truth self.new N.opening (L.marks self.new) }
        ensures volume { HoldsIfTrue N.geometry N.opening seat.new.view.seen }
        ensures cut { (outcome_in result reply.new ≡ Outcome.Cut) ↔ (took_end (L.Link.history self.new) ≡ true) }
        ensures eio { IsEioOnceGivenUp (outcome_in result reply.new) seat.new.view.seen }
    {
        make_call(&mut self.server, seat, who, now, call, reply, tally)
    }

    /// The server is handed what came meanwhile, 64 messages at most, and a Flush, while fewer than 2^48 were: so what a Flush began to
    /// write is settled at the next one, and more can be begun, though nothing is called. The numbers of sessions stay.
    pub fn flush(&mut self)
        ensures { L.numbers self.new ≡ L.numbers self.old }
    {
        for _ in 0..MOST_ASIDE {
            if !self.absorb_next() {
                break;
            }
        }
        if self.absorbed < MOST_ABSORBED {
            take_flush(&mut self.server);
            self.absorbed += 1;
        }
    }

    /// The server is handed the next message, if it has come already and fewer than 2^48 were. Whether it was.
    fn absorb_next(&mut self) -> bool
        ensures { L.numbers self.new ≡ L.numbers self.old }
    {
        if self.absorbed < MOST_ABSORBED && take_aside(&mut self.server) {
            self.absorbed += 1;
            return true;
        }
        false
    }

    /// Whether a session has a number, but for this one.
    pub fn has_sessions(&self, but: Option<u8>) -> bool
        ensures { (result ≡ true) ↔ IsOneUsed (without but (L.numbers self.now)) }
    {
        self.server.link().has_sessions(but)
    }

    /// A last sync, after which the server is let go with its link. Where it was answered ok, the volume's range, whose size in bytes is
    /// given, is read back through the link where writes have bytes, in units of 4096 bytes, and each piece, of 1 MiB at most, is taken as
    /// it comes: `Read` where all that went, `Unread` where no memory was found for it, no volume is so large, or more was written
    /// meanwhile. `GivenUp` or `Cut` where the device was given up or the link ended in either. The numbers of sessions stay.
    pub fn finish<T: Takes>(self, alloc: Global, size: u64, taker: &mut T) -> Finish
        requires whole { size % 512 ≡ 0 }
        ensures finished { (pieces : List Piece) × IsFinished L.Link L.numbers N.geometry N.opening (L.marks self) (L.numbers self)
            (finish_end result) size (units_back result) pieces × (finish_end result ≡ Went → AreTaken T.takes taker.old pieces taker.new) }
    {
        let Locked {
            mut server,
            absorbed: _,
            of: _,
            over: _,
        } = self;
        let mut reply = Reply::Done;
        let ending = server.call(SYNCER, 0, &Call::Sync, &mut reply);
        let outcome = ending.with(reply);
        if is_cut(&outcome) {
            return Finish::Cut;
        }
        if !was_done(&outcome) {
            return Finish::GivenUp;
        }
        if size > MOST {
            return Finish::Unread;
        }
        disk_stays_unwritten();
        let Ok(reading) = room_for(alloc, server.link().written(), size) else {
            return Finish::Unread;
        };
        let Reading {
            room,
            places,
            units,
        } = reading;
        let (link, end) = server.read_back(room, &places, taker);
        let is_same = are_same(&units, link.written());
        match end {
            ReadEnd::GivenUp => Finish::GivenUp,
            ReadEnd::Cut => Finish::Cut,
            ReadEnd::Read if !is_same => Finish::Unread,
            ReadEnd::Read => Finish::Read(units),
        }
    }

    /// The same once this session has ended, whose number is free then: the record goes on from what it had seen.
    pub fn finish_after<T: Takes>(
        mut self,
        number: u8,
        mut seat: Seat,
        alloc: Global,
        size: u64,
        taker: &mut T,
    ) -> Finish
        requires seat { (seat.table ≡ N.table) × (seat.view.number ≡ Some number) × (number < 64) }
        requires whole { size % 512 ≡ 0 }
        ensures finished { (pieces : List Piece) × IsFinished L.Link L.numbers N.geometry N.opening seat.view.seen
            (without (Some number) (L.numbers self)) (finish_end result) size (units_back result) pieces
            × (finish_end result ≡ Went → AreTaken T.takes taker.old pieces taker.new) }
    {
        self.show(&mut seat);
        self.release(number, seat);
        self.finish(alloc, size, taker)
    }

    /// A seat for a new session, with the lowest number that is free: 1 TooMany where 64 are in use, 2 Stopped where a take gave End.
    /// A refusal changes nothing. With the seat comes how many counted marks the record has, modulo 2^64.
    pub fn admit(&mut self) -> Result<(u8, Seat, u64), SessionRefusal>
        ensures too_many { IsErrOf result SessionRefusal.TooMany ↔ AreAllUsed (L.numbers self.old) }
        ensures stopped { IsErrOf result SessionRefusal.Stopped
            ↔ ((took_end (L.Link.history self.old) ≡ true) × IsOneFree (L.numbers self.old)) }
        ensures number { IfOk result (λ r. IsLowestFree r.0 (L.numbers self.old)
            × (L.numbers self.new ≡ r.0 ∷ L.numbers self.old)) }
        ensures seat { IfOk result (λ r. (r.1.table ≡ N.table) × SessionIsNew r.0 r.1.view (L.marks self.old)) }
        ensures tally { IfOk result (λ r. r.2 ≡ tally_of (L.marks self.old)) }
        ensures refusal { IfErr result (IsNotAdmitted L.Link L.numbers N.opening) }
        ensures drivers { L.runs_on self.old N.policy N.supply }
        ensures guaranteed { IfOk result (λ r. IsGuaranteed L.truth N.opening r.1.view.seen) }
        ensures volume { IfOk result (λ r. HoldsIfTrue N.geometry N.opening r.1.view.seen) }
        ensures sound { (tree : Tree) → IsAtFirst N.geometry (contents_at N.opening) tree
            → IfOk result (λ r. IsGood N.geometry N.opening tree r.1.view.seen) }
        ensures rest { (L.marks self.new ≡ L.marks self.old) × (L.Link.history self.new ≡ L.Link.history self.old) }
        ensures refused { OnErr result (L.numbers self.new ≡ L.numbers self.old) }
    {
        admit(&mut self.server)
    }

    /// The session of this seat has then seen the whole record.
    fn show(&mut self, seat: &mut Seat)
        requires { seat.old.table ≡ N.table }
        ensures seat { (seat.new.table ≡ N.table) × (seat.new.view.number ≡ seat.old.view.number) }
        ensures seen { seat.new.view.seen ≡ L.marks self.new }
        ensures session { SessionLearns seat.old.view seat.new.view }
        ensures rest { (L.marks self.new ≡ L.marks self.old) × (L.Link.history self.new ≡ L.Link.history self.old) }
        ensures numbers { L.numbers self.new ≡ L.numbers self.old }
    {
        show(&mut self.server, seat);
    }

    /// A session ends: its number is free again.
    pub fn release(&mut self, number: u8, seat: Seat)
        requires { (seat.table ≡ N.table) × (seat.view.number ≡ Some number) × (number < 64) }
        ensures used { L.numbers self.new ≡ without (Some number) (L.numbers self.old) }
        ensures rest { (L.marks self.new ≡ L.marks self.old) × (L.Link.history self.new ≡ L.Link.history self.old) }
    {
        release(&mut self.server, number, seat);
    }
}

/// Who makes the last sync of a service.
const SYNCER: Who = Who {
    session: 0,
    uid: 0,
    gid: 0,
};
