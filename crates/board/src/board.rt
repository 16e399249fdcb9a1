//! The board.

ghost use Rattle.std.specs.Prelude.{◌≡◌, ◌≢◌, ℕ, ◌+◌, ◌*◌, ◌^◌, ◌<◌, ◌≤◌, max, true, false, List, None, Some};
ghost use Rattle.std.specs.Prelude.{IfOk, IsOk, IfSome, IfNone, MatchOption};
ghost use Rattle.tree.specs.declared.Call.{Call};
ghost use Rattle.tree.specs.Answers.{answer_of};
ghost use Rattle.records.specs.Marks.{Took, Issued, gave_up, IsBeginning};
ghost use Rattle.records.specs.Session.{tally_of, went_on, IsLonger};
ghost use Rattle.board.specs.View.{opener, is_used, other_of, new_caller, with_used, hosting, alone, guest_of, IsKeeper, noted, called};
ghost use Rattle.board.specs.View.{keeper_after, caller_after, spending, telling, hearing};
ghost use Rattle.board.specs.Steps.{SessionLearns, SeesMore, IsCallOf, OwnsCalls, LearnsTold, Meets, SessionsMeet, SessionAsks};
ghost use Rattle.board.specs.Steps.{SessionIsNew, AreOneEdition};
ghost use Rattle.board.specs.Words.{pulse_word, is_given_up, mark_of};

use crate::mark::{NewEdition, NewMark, NewNumber};
use crate::rule::{
    Ask, Beat, Compare, Copy, Feel, Find, Give, GiveUp, Hear, Host, Law, Learn, Look, Note, Part,
    Publish, Spend, Start, Take, Tell,
};
use crate::seat::{Knowledge, Seat};
use atomic_table::Table;
use message::endpoint::Endpoint;
use message::{BlockRequest, Incoming};
use std::alloc::{AllocError, Global};
use std::marker::{Brand, Model};
use std::mem;
use tree::{Call, Reply, Who};

const TALLY: usize = 0;

const GENERATION: usize = 1;

const DEVICE: usize = 2;

const PULSE: usize = 3;

const EDITIONS: usize = 4;

/// One generation more in a pulse.
const ONE_GENERATION: u64 = 4294967296;

/// Whether the device was given up.
#[derive(Clone, Copy, Debug, Drop, PartialEq, Eq)]
pub enum Device {
    /// It wasn't, as far as the word tells.
    Live,
    /// It was.
    GivenUp,
}

/// Five words that threads share. To a contract it is the name of its table, which its seats bear too.
#[derive(Drop)]
pub struct Board {
    table: Table<(), Knowledge, (), Law, Global>,
}

impl Model for Board {
    ghost use Rattle.std.specs.Prelude.{◌≡◌};
    ghost use Rattle.atomic_table.specs.Seated.{TableId, table_id_coded};

    ghost Value = { TableId };

    ghost coded = { table_id_coded };

    ghost view = { λ b. b.table.shared.table_id };

    ghost invariant = { λ b. b.table.shared.table_id.words ≡ 5 };
}

impl Board {
    /// A board whose record is empty, and the record's seat. It refuses where no memory was found.
    pub fn new(alloc: Global) -> Result<(Board, Seat), AllocError>
        ensures { IfOk result (λ r. IsKeeper r.0 r.1 × (r.1.view ≡ opener)) }
    {
        let (table, seat) = Table::of_words(alloc, &[0, 0, 0, 0, 0], &())?;
        Ok((Board { table }, Seat { inner: seat }))
    }

    /// A further seat, which has seen as much. One with a number comes from the record's seat, and no seat has the number
    /// yet; its session is new. It takes no memory, so it is never refused.
    pub fn split(&self, seat: &mut Seat, number: Option<u8>) -> Result<Seat, AllocError>
        requires table { seat.old.table ≡ self.now }
        requires number { IfSome number (λ n. IsKeeper self.now seat.old × (is_used n seat.old.view.used ≡ false)) }
        ensures made { IsOk result }
        ensures seat { (seat.new.table ≡ self.now)
            × MatchOption number (seat.new.view ≡ seat.old.view) (λ n. seat.new.view ≡ with_used n seat.old.view) }
        ensures other { IfOk result (λ s. (s.table ≡ self.now) × MatchOption number (s.view ≡ other_of seat.old.view)
            (λ n. s.view ≡ new_caller n seat.old.view)) }
        ensures session { IfOk result (λ s. IfSome number (λ n. SessionIsNew n s.view seat.old.view.seen)) }
    {
        match number {
            None => Ok(self.copy(seat)),
            Some(n) => Ok(self.give_as::<Brand>(seat, n)),
        }
    }

    /// Ends a seat, with the record's. Its number, if it has one, is no longer in use.
    pub fn spend(&self, keeper: &mut Seat, caller: Seat)
        requires keeper { IsKeeper self.now keeper.old }
        requires caller { caller.table ≡ self.now }
        ensures keeper { IsKeeper self.now keeper.new }
        ensures seen { keeper.new.view ≡ spending keeper.old.view caller.view }
    {
        let Seat { inner } = caller;
        self.table
            .shared
            .join_seat::<Spend>(&mut keeper.inner, inner);
    }

    /// The number of counted marks in the record, modulo 2^64. The seat has then seen that record.
    pub fn tally(&self, seat: &mut Seat) -> u64
        requires { seat.old.table ≡ self.now }
        ensures table { seat.new.table ≡ self.now }
        ensures seen { SeesMore seat.old.view seat.new.view }
        ensures tally { result ≡ tally_of seat.new.view.seen }
    {
        self.table.shared.load::<Look>(&mut seat.inner, TALLY)
    }

    /// The greatest generation started.
    pub fn current(&self, seat: &mut Seat) -> u32
        requires { seat.old.table ≡ self.now }
        ensures table { seat.new.table ≡ self.now }
        ensures seen { (seat.new.view ≡ record seat.old.view { generation = result }) × (seat.old.view.generation ≤ result) }
    {
        self.table.shared.load::<Find>(&mut seat.inner, GENERATION) as u32
    }

    /// Notes that a generation was started. One that isn't above the greatest changes nothing.
    pub fn started(&self, seat: &mut Seat, generation: u32)
        requires { seat.old.table ≡ self.now }
        ensures table { seat.new.table ≡ self.now }
        ensures seen { (found : ℕ) × (seat.old.view.generation ≤ found)
            × (seat.new.view ≡ record seat.old.view { generation = max found generation }) }
    {
        self.table
            .shared
            .fetch_max::<Start>(&mut seat.inner, GENERATION, generation as u64);
    }

    /// Whether the device was given up. `GivenUp` comes only where the seat has then seen so, and comes where it had seen a
    /// call taken after it.
    pub fn device(&self, seat: &mut Seat) -> Device
        requires { seat.old.table ≡ self.now }
        ensures table { seat.new.table ≡ self.now }
        ensures seen { SeesMore seat.old.view seat.new.view }
        ensures only { result ≡ Device.GivenUp → gave_up seat.new.view.seen ≡ true }
        ensures always { went_on seat.old.view.seen ≡ true → result ≡ Device.GivenUp }
        ensures session { SessionAsks seat.old.view (is_given_up result) seat.new.view }
    {
        if self.table.shared.load::<Ask>(&mut seat.inner, DEVICE) == 1 {
            Device::GivenUp
        } else {
            Device::Live
        }
    }

    /// Sets the device word, with the record's seat, once the record has the giving up.
    pub fn give_up(&self, keeper: &mut Seat)
        requires keeper { IsKeeper self.now keeper.old }
        requires ended { gave_up keeper.old.view.seen ≡ true }
        ensures keeper { IsKeeper self.now keeper.new }
        ensures seen { keeper.new.view ≡ record keeper.old.view { given_up = true } }
    {
        self.table
            .shared
            .fetch_or::<GiveUp>(&mut keeper.inner, DEVICE, 1);
    }

    /// The greatest pulse: a generation and its driver's count. A pulse of a greater generation is greater.
    pub fn pulse(&self, seat: &mut Seat) -> (u32, u32)
        requires { seat.old.table ≡ self.now }
        ensures table { seat.new.table ≡ self.now }
        ensures seen { seat.new.view ≡ record seat.old.view { pulse = pulse_word result.0 result.1 } }
        ensures least { seat.old.view.pulse ≤ pulse_word result.0 result.1 }
    {
        let word = self.table.shared.load::<Feel>(&mut seat.inner, PULSE);
        (
            (word / ONE_GENERATION) as u32,
            (word % ONE_GENERATION) as u32,
        )
    }

    /// A driver's beat, under its generation. One that isn't above the greatest pulse changes nothing: so an old driver's
    /// once a newer one has beaten, and each of a count that can't grow any more.
    pub fn beat(&self, seat: &mut Seat, generation: u32, count: u32)
        requires { seat.old.table ≡ self.now }
        ensures table { seat.new.table ≡ self.now }
        ensures seen { (found : ℕ) × (seat.old.view.pulse ≤ found)
            × (seat.new.view ≡ record seat.old.view { pulse = max found (pulse_word generation count) }) }
    {
        let word = generation as u64 * ONE_GENERATION + count as u64;
        self.table
            .shared
            .fetch_max::<Beat>(&mut seat.inner, PULSE, word);
    }

    /// Adds the mark of a message to the record, with the record's seat. The tally grows by one.
    pub fn note(&self, keeper: &mut Seat, message: &Incoming)
        requires keeper { IsKeeper self.now keeper.old }
        requires message { message.now ≢ Incoming.End }
        ensures keeper { IsKeeper self.now keeper.new }
        ensures seen { keeper.new.view ≡ noted (mark_of message.now) keeper.old.view }
    {
        self.note_as::<Brand>(keeper, message);
    }

    /// Adds the issue of a request to this endpoint to the record, with the record's seat. It isn't counted: the tally stays.
    pub fn issue(&self, keeper: &mut Seat, request: &BlockRequest, to: Endpoint)
        requires keeper { IsKeeper self.now keeper.old }
        ensures keeper { IsKeeper self.now keeper.new }
        ensures seen { keeper.new.view ≡ noted (Issued request.now to) keeper.old.view }
    {
        self.issue_as::<Brand>(keeper, request, to);
    }

    /// Adds a call of the caller's session, with its reply, to the record. The tally grows by one. The caller has then seen
    /// the whole record, its call last. Once the record has a giving up, the device word is to be set before any call.
    pub fn count(
        &self,
        keeper: &mut Seat,
        caller: &mut Seat,
        who: Who,
        now: u32,
        call: &Call,
        reply: &Reply,
    )
        requires keeper { IsKeeper self.now keeper.old }
        requires caller { (caller.old.table ≡ self.now) × (caller.old.view.number ≡ Some who.session) }
        requires told { gave_up keeper.old.view.seen ≡ true → keeper.old.view.given_up ≡ true }
        ensures keeper { IsKeeper self.now keeper.new }
        ensures seen { keeper.new.view ≡ keeper_after (Took who now call.now (answer_of reply.now)) keeper.old.view caller.old.view }
        ensures caller { (caller.new.table ≡ self.now)
            × (caller.new.view ≡ caller_after (Took who now call.now (answer_of reply.now)) keeper.old.view caller.old.view) }
        ensures beginning { IsBeginning caller.old.view.seen keeper.old.view.seen }
        ensures session { SessionLearns caller.old.view caller.new.view }
    {
        self.count_as::<Brand>(keeper, caller, who, now, call, reply);
    }

    /// Both have then seen the longer of what the two had seen, which begins with the other.
    pub fn meet(&self, seat: &mut Seat, other: &mut Seat)
        requires { (seat.old.table ≡ self.now) × (other.old.table ≡ self.now) }
        ensures tables { (seat.new.table ≡ self.now) × (other.new.table ≡ self.now) }
        ensures seats { Meets seat.old.view seat.new.view × Meets other.old.view other.new.view }
        ensures same { seat.new.view.seen ≡ other.new.view.seen }
        ensures longer { IsLonger seat.new.view.seen seat.old.view.seen other.old.view.seen }
        ensures sessions { SessionsMeet seat.old.view other.old.view seat.new.view other.new.view }
    {
        self.inform(seat, other);
        self.inform(other, seat);
    }

    /// Gives these sectors a number that no others had: they are the edition of that number, and the seat knows them by it.
    /// None where another thread gave a number meanwhile, or all were given: the seat knows what it knew.
    pub fn publish(&self, seat: &mut Seat, sectors: &[[u8; 512]]) -> Option<u64>
        requires { seat.old.table ≡ self.now }
        ensures table { seat.new.table ≡ self.now }
        ensures some { IfSome result (λ n. seat.new.view ≡ record seat.old.view { edition = Some (n, sectors.now) }) }
        ensures none { IfNone result (seat.new.view ≡ seat.old.view) }
    {
        let number = self.table.shared.peek(EDITIONS);
        if number == u64::MAX {
            return None;
        }
        self.publish_as::<Brand>(seat, sectors, number)
    }

    /// Two seats that know the edition of one number know the same sectors by it.
    pub fn same_edition(&self, seat: &mut Seat, other: &mut Seat)
        requires { (seat.old.table ≡ self.now) × (other.old.table ≡ self.now) }
        ensures tables { (seat.new.table ≡ self.now) × (other.new.table ≡ self.now) }
        ensures seats { (seat.new.view ≡ record seat.old.view { heard = None }) × (other.new.view ≡ other.old.view) }
        ensures same { (n : ℕ) (s t : List (List ℕ)) → seat.old.view.edition ≡ Some (n, s)
            → other.old.view.edition ≡ Some (n, t) → s ≡ t }
    {
        let word = self.copy(other);
        self.hear(seat, word);
        self.compare(seat);
    }

    fn copy(&self, seat: &mut Seat) -> Seat
        requires { seat.old.table ≡ self.now }
        ensures same { seat.new ≡ seat.old }
        ensures other { (result.table ≡ self.now) × (result.view ≡ other_of seat.old.view) }
    {
        Seat {
            inner: self.table.shared.split_seat::<Copy>(&mut seat.inner),
        }
    }

    fn give<C: NewNumber>(&self, keeper: &mut Seat) -> Seat
        requires keeper { IsKeeper self.now keeper.old }
        requires free { is_used C.number keeper.old.view.used ≡ false }
        ensures keeper { (keeper.new.table ≡ self.now) × (keeper.new.view ≡ with_used C.number keeper.old.view) }
        ensures caller { (result.table ≡ self.now) × (result.view ≡ new_caller C.number keeper.old.view) }
    {
        Seat {
            inner: self.table.shared.split_seat::<Give<C>>(&mut keeper.inner),
        }
    }

    // The caller picks the number from what it hands over.
    fn give_as<C: NewNumber>(&self, keeper: &mut Seat, number: u8) -> Seat
        requires is { number ≡ C.number }
        requires keeper { IsKeeper self.now keeper.old }
        requires free { is_used number keeper.old.view.used ≡ false }
        ensures keeper { (keeper.new.table ≡ self.now) × (keeper.new.view ≡ with_used number keeper.old.view) }
        ensures caller { (result.table ≡ self.now) × (result.view ≡ new_caller number keeper.old.view) }
        ensures session { SessionIsNew number result.view keeper.old.view.seen }
    {
        self.give::<C>(keeper)
    }

    // The caller picks the mark from the message that it hands over, and so below.
    fn note_as<C: NewMark>(&self, keeper: &mut Seat, message: &Incoming)
        requires is { C.mark ≡ mark_of message.now }
        requires keeper { IsKeeper self.now keeper.old }
        requires message { message.now ≢ Incoming.End }
        ensures keeper { IsKeeper self.now keeper.new }
        ensures seen { keeper.new.view ≡ noted C.mark keeper.old.view }
    {
        self.table
            .shared
            .fetch_add::<Note<C>>(&mut keeper.inner, TALLY, 1);
    }

    fn issue_as<C: NewMark>(&self, keeper: &mut Seat, request: &BlockRequest, to: Endpoint)
        requires is { C.mark ≡ Issued request.now to }
        requires keeper { IsKeeper self.now keeper.old }
        ensures keeper { IsKeeper self.now keeper.new }
        ensures seen { keeper.new.view ≡ noted C.mark keeper.old.view }
    {
        self.table.shared.load::<Note<C>>(&mut keeper.inner, TALLY);
    }

    fn count_as<C: NewMark>(
        &self,
        keeper: &mut Seat,
        caller: &mut Seat,
        who: Who,
        now: u32,
        call: &Call,
        reply: &Reply,
    )
        requires is { C.mark ≡ Took who now call.now (answer_of reply.now) }
        requires keeper { IsKeeper self.now keeper.old }
        requires caller { (caller.old.table ≡ self.now) × (caller.old.view.number ≡ Some who.session) }
        requires told { gave_up keeper.old.view.seen ≡ true → keeper.old.view.given_up ≡ true }
        ensures keeper { (keeper.new.table ≡ self.now) × (keeper.new.view ≡ keeper_after C.mark keeper.old.view caller.old.view) }
        ensures caller { (caller.new.table ≡ self.now) × (caller.new.view ≡ caller_after C.mark keeper.old.view caller.old.view) }
        ensures beginning { IsBeginning caller.old.view.seen keeper.old.view.seen }
        ensures session { SessionLearns caller.old.view caller.new.view }
    {
        self.count_mark::<C>(keeper, caller, who, now, reply);
    }

    fn count_mark<C: NewMark>(
        &self,
        keeper: &mut Seat,
        caller: &mut Seat,
        who: Who,
        now: u32,
        reply: &Reply,
    )
        requires is { (call : Call) × (C.mark ≡ Took who now call (answer_of reply.now)) }
        requires keeper { IsKeeper self.now keeper.old }
        requires caller { (caller.old.table ≡ self.now) × (caller.old.view.number ≡ Some who.session) }
        requires told { gave_up keeper.old.view.seen ≡ true → keeper.old.view.given_up ≡ true }
        ensures keeper { (keeper.new.table ≡ self.now) × (keeper.new.view ≡ keeper_after C.mark keeper.old.view caller.old.view) }
        ensures caller { (caller.new.table ≡ self.now) × (caller.new.view ≡ caller_after C.mark keeper.old.view caller.old.view) }
        ensures beginning { IsBeginning caller.old.view.seen keeper.old.view.seen }
        ensures session { SessionLearns caller.old.view caller.new.view }
    {
        let empty = self.copy(caller);
        let guest = mem::replace(caller, empty);
        self.host(keeper, guest);
        self.take::<C>(keeper);
        *caller = self.part(keeper);
    }

    fn host(&self, keeper: &mut Seat, caller: Seat)
        requires keeper { IsKeeper self.now keeper.old }
        requires caller { caller.table ≡ self.now }
        ensures { (keeper.new.table ≡ self.now) × (keeper.new.view ≡ hosting keeper.old.view caller.view) }
    {
        let Seat { inner } = caller;
        self.table
            .shared
            .join_seat::<Host>(&mut keeper.inner, inner);
    }

    fn take<C: NewMark>(&self, keeper: &mut Seat)
        requires keeper { (keeper.old.table ≡ self.now) × (keeper.old.view.keeps ≡ true) }
        requires call { IsCallOf keeper.old.view.number C.mark }
        requires told { gave_up keeper.old.view.seen ≡ true → keeper.old.view.given_up ≡ true }
        ensures table { keeper.new.table ≡ self.now }
        ensures seen { keeper.new.view ≡ called C.mark keeper.old.view }
        ensures told { IsBeginning keeper.old.view.told keeper.old.view.seen }
        ensures own { OwnsCalls keeper.new.view }
    {
        self.table
            .shared
            .fetch_add::<Take<C>>(&mut keeper.inner, TALLY, 1);
    }

    fn part(&self, keeper: &mut Seat) -> Seat
        requires { (keeper.old.table ≡ self.now) × (keeper.old.view.keeps ≡ true) }
        ensures keeper { (keeper.new.table ≡ self.now) × (keeper.new.view ≡ alone keeper.old.view) }
        ensures caller { (result.table ≡ self.now) × (result.view ≡ guest_of keeper.old.view) }
    {
        Seat {
            inner: self.table.shared.split_seat::<Part>(&mut keeper.inner),
        }
    }

    // `other` sees what `seat` has seen.
    fn inform(&self, seat: &mut Seat, other: &mut Seat)
        requires { (seat.old.table ≡ self.now) × (other.old.table ≡ self.now) }
        ensures seat { seat.new ≡ seat.old }
        ensures table { other.new.table ≡ self.now }
        ensures other { Meets other.old.view other.new.view }
        ensures longer { IsLonger other.new.view.seen other.old.view.seen seat.old.view.seen }
    {
        let word = self.copy(seat);
        self.tell(other, word);
        self.learn(other);
    }

    fn tell(&self, seat: &mut Seat, other: Seat)
        requires seat { seat.old.table ≡ self.now }
        requires other { (other.table ≡ self.now) × (other.view.number ≡ None) }
        ensures { (seat.new.table ≡ self.now) × (seat.new.view ≡ telling seat.old.view other.view) }
    {
        let Seat { inner } = other;
        self.table.shared.join_seat::<Tell>(&mut seat.inner, inner);
    }

    fn learn(&self, seat: &mut Seat)
        requires { seat.old.table ≡ self.now }
        ensures { (seat.new.table ≡ self.now) × LearnsTold seat.old.view seat.new.view }
    {
        self.table.shared.load::<Learn>(&mut seat.inner, TALLY);
    }

    // The caller picks the sectors, which are those that it hands over.
    fn publish_as<C: NewEdition>(
        &self,
        seat: &mut Seat,
        sectors: &[[u8; 512]],
        number: u64,
    ) -> Option<u64>
        requires is { C.sectors ≡ sectors.now }
        requires table { seat.old.table ≡ self.now }
        requires more { number + 1 < 2 ^ 64 }
        ensures table { seat.new.table ≡ self.now }
        ensures some { IfSome result (λ n. seat.new.view ≡ record seat.old.view { edition = Some (n, sectors.now) }) }
        ensures none { IfNone result (seat.new.view ≡ seat.old.view) }
    {
        let found = self
            .table
            .shared
            .compare_exchange::<Publish<C>>(&mut seat.inner, EDITIONS, number, number + 1);
        if found == number { Some(number) } else { None }
    }

    fn hear(&self, seat: &mut Seat, other: Seat)
        requires seat { seat.old.table ≡ self.now }
        requires other { (other.table ≡ self.now) × (other.view.number ≡ None) }
        ensures { (seat.new.table ≡ self.now) × (seat.new.view ≡ hearing seat.old.view other.view) }
    {
        let Seat { inner } = other;
        self.table.shared.join_seat::<Hear>(&mut seat.inner, inner);
    }

    fn compare(&self, seat: &mut Seat)
        requires { seat.old.table ≡ self.now }
        ensures seat { (seat.new.table ≡ self.now) × (seat.new.view ≡ record seat.old.view { heard = None }) }
        ensures same { AreOneEdition seat.old.view.edition seat.old.view.heard }
    {
        self.table.shared.load::<Compare>(&mut seat.inner, EDITIONS);
    }
}
