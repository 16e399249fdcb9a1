//! The table of pending requests.

ghost use Rattle.std.specs.Prelude.{◌≡◌, ◌+◌, ◌<◌, ◌≤◌, ◌==◌, ◌∷◌, [], ◌++◌, take, length, position, max, slice_index_or, IsSome, IfSome};
ghost use Rattle.std.specs.Prelude.{IfOk, ◌↔◌, ◌^◌, ◌-◌, ◌%◌, ℕ, remove, slice_index, IsTrue, Bool, true, false, Option, Some};
ghost use Rattle.std.specs.Prelude.{if◌then◌else◌, nat_lt, ◌&&◌};
ghost use Rattle.std.specs.List.{list_any};
ghost use Rattle.message.specs.Good.{is_write};
ghost use Rattle.records.specs.Marks.{is_endpoint};
ghost use Rattle.reissue.specs.Entries.{HasNumbers, prop_numbers, IsFresh, pending_of, meets};

use crate::ask::{Ask, Ticket};
use crate::pending::Pending;
use crate::queue::{PLACES, Queue};
use message::endpoint::Endpoint;
use message::{BlockReply, BlockRequest, Kind, moved_bytes};
use std::alloc::{AllocError, Global};

/// What an answer did.
#[derive(Clone, Copy, PartialEq, Eq)]
pub enum AnswerEffect {
    /// It doesn't count.
    Dropped,
    /// It counts, and isn't good: a complaint is due.
    Bad,
    /// It was good; what is left is pending under a new id.
    Rest,
    /// It was good, and nothing is left of this read.
    Read(Ticket),
    /// It was good, and nothing is left of this write.
    Written(Ticket),
}

/// The pending requests in the order of their ids. The first `issued` of them were issued, the first `posted` to the
/// present endpoint.
#[derive(Drop)]
pub struct Table {
    /// The pending requests.
    pub pending: Queue,
    /// Room for a request that is put in or taken out: between two calls what it holds has no meaning.
    pub hand: Box<Pending>,
    /// How many of them were ever issued.
    pub issued: usize,
    /// How many of them were posted to the present endpoint.
    pub posted: usize,
    /// How many ids were given.
    pub ids: u64,
    /// Where requests are posted and whose replies count: the endpoint of the last start, until the device is given up.
    pub current: Option<Endpoint>,
    /// Whether the device was given up.
    pub given_up: bool,
    ghost few: { length pending ≤ 16 },
    ghost within: { issued ≤ length pending },
    ghost order: { posted ≤ issued },
    ghost numbers: { HasNumbers ids pending } by { λ x y. prop_numbers ids pending x y },
}

impl Table {
    ghost use Rattle.reissue.specs.declared.pending.Pending.{Pending};

    /// A table with nothing pending.
    pub fn new(alloc: Global) -> Result<Table, AllocError>
        ensures pending { IfOk result (λ t. t.pending ≡ []) }
        ensures issued { IfOk result (λ t. t.issued ≡ 0) }
        ensures posted { IfOk result (λ t. t.posted ≡ 0) }
        ensures ids { IfOk result (λ t. t.ids ≡ 0) }
        ensures current { IfOk result (λ t. t.current ≡ Option.None) }
        ensures given_up { IfOk result (λ t. t.given_up ≡ false) }
    {
        Ok(Table {
            pending: Queue::new(alloc)?,
            hand: Box::new(alloc, Pending::unused())?,
            issued: 0,
            posted: 0,
            ids: 0,
            current: None,
            given_up: false,
        })
    }

    /// Whether sixteen requests are pending.
    pub fn is_full(&self) -> bool
        ensures { IsTrue result ↔ (16 ≤ length self.now.pending) }
    {
        self.pending.len() >= PLACES
    }

    /// Whether each pending request was posted to the present endpoint.
    pub fn is_posted(&self) -> bool
        ensures { result ≡ (self.now.posted == length self.now.pending) }
    {
        self.posted == self.pending.len()
    }

    /// Whether a byte of this range is pending.
    pub fn meets(&self, start: u64, size: u32) -> bool
        requires { start + size < 2 ^ 63 }
        ensures { result ≡ list_any (meets start size) self.now.pending }
    {
        self.pending.meets(start, size)
    }

    /// Whether nothing is pending.
    pub fn is_idle(&self) -> bool
        ensures { (result ≡ true) ↔ (self.now.pending ≡ []) }
    {
        self.pending.len() == 0
    }

    /// Where the issued request with this id stands.
    pub fn find(&self, id: u64) -> Option<usize>
        ensures { result ≡ position (λ p. p.request.id == id) (take self.now.issued self.now.pending) }
    {
        self.pending.find(id, self.issued)
    }

    /// The first pending request that wasn't posted to the present endpoint.
    pub fn next_to_post(&self) -> Option<&BlockRequest>
        ensures some { IsSome result ↔ (self.now.posted < length self.now.pending) }
        ensures request { IfSome result (λ r.
            (p : Pending) × (p ≡ slice_index_or self.now.pending self.now.posted p) × (r.now ≡ p.request)) }
    {
        if self.posted < self.pending.len() {
            Some(&self.pending.get(self.posted).request)
        } else {
            None
        }
    }

    /// The next pending request was posted.
    pub fn count_post(&mut self)
        requires { self.old.posted < length self.old.pending }
        ensures items { self.new.pending ≡ self.old.pending }
        ensures posted { self.new.posted ≡ self.old.posted + 1 }
        ensures issued { self.new.issued ≡ max self.old.issued (self.old.posted + 1) }
        ensures ids { self.new.ids ≡ self.old.ids }
        ensures current { self.new.current ≡ self.old.current }
        ensures given_up { self.new.given_up ≡ self.old.given_up }
    {
        self.posted += 1;
        if self.issued < self.posted {
            self.issued = self.posted;
        }
    }

    /// Adds the request in hand at the end, under the next id.
    fn push(&mut self)
        requires room { length self.old.pending < 16 }
        requires ids { self.old.ids < 2 ^ 60 }
        requires next { self.old.hand.value.request.id ≡ self.old.ids + 1 }
        requires fresh { IsFresh self.old.hand.value.ticket self.old.pending }
        requires ticket { self.old.hand.value.ticket ≤ self.old.ids + 1 }
        ensures items { self.new.pending ≡ self.old.pending ++ self.old.hand.value ∷ [] }
        ensures ids { self.new.ids ≡ self.old.ids + 1 }
        ensures posted { self.new.posted ≡ self.old.posted }
        ensures issued { self.new.issued ≡ self.old.issued }
        ensures current { self.new.current ≡ self.old.current }
        ensures given_up { self.new.given_up ≡ self.old.given_up }
    {
        self.ids += 1;
        self.pending.push(&mut self.hand);
    }

    /// Takes an issued request out, in hand.
    fn take_out(&mut self, at: usize)
        requires { at < self.old.issued }
        ensures items { self.new.pending ≡ remove self.old.pending at }
        ensures value { self.new.hand.value ≡ slice_index_or self.old.pending at self.new.hand.value }
        ensures posted { self.new.posted ≡ (if nat_lt at self.old.posted then self.old.posted - 1 else self.old.posted) }
        ensures issued { self.new.issued + 1 ≡ self.old.issued }
        ensures ids { self.new.ids ≡ self.old.ids }
        ensures current { self.new.current ≡ self.old.current }
        ensures given_up { self.new.given_up ≡ self.old.given_up }
    {
        self.issued -= 1;
        if at < self.posted {
            self.posted -= 1;
        }
        self.pending.remove(at, &mut self.hand);
    }

    /// Whether replies from this endpoint count.
    pub fn is_current(&self, endpoint: &Endpoint) -> bool
        ensures { result ≡ is_endpoint endpoint.now self.now.current }
    {
        match &self.current {
            Some(current) => current == endpoint,
            None => false,
        }
    }

    /// A driver was started: nothing is posted to it yet. Once the device was given up this changes nothing.
    pub fn restart(&mut self, endpoint: Endpoint)
        ensures items { self.new.pending ≡ self.old.pending }
        ensures posted { self.new.posted ≡ (if self.old.given_up then self.old.posted else 0) }
        ensures issued { self.new.issued ≡ self.old.issued }
        ensures ids { self.new.ids ≡ self.old.ids }
        ensures current { self.new.current ≡ (if self.old.given_up then self.old.current else Some endpoint) }
        ensures given_up { self.new.given_up ≡ self.old.given_up }
    {
        if self.given_up {
            return;
        }
        self.current = Some(endpoint);
        self.posted = 0;
    }

    /// The device was given up: nothing is posted any more, and no reply counts.
    pub fn give_up(&mut self)
        ensures items { self.new.pending ≡ self.old.pending }
        ensures posted { self.new.posted ≡ self.old.posted }
        ensures issued { self.new.issued ≡ self.old.issued }
        ensures ids { self.new.ids ≡ self.old.ids }
        ensures current { self.new.current ≡ Option.None }
        ensures given_up { self.new.given_up ≡ true }
    {
        self.current = None;
        self.given_up = true;
    }
}

impl Table {
    ghost use Rattle.std.specs.Prelude.{List, IsErrOf};
    ghost use Rattle.message.specs.declared.Incoming.TheVariants as incoming;
    ghost use Rattle.records.specs.Marks.{Mark, Answered};
    ghost use Rattle.records.specs.Open.{asked_by, moved_by};
    ghost use Rattle.records.specs.Told.{Received, received};
    ghost use Rattle.records.specs.Acts.{complaint_due};
    ghost use Rattle.reissue.specs.declared.pending.Pending.{Pending};
    ghost use Rattle.reissue.specs.Moves.{Closes, begun_by, put, IsRequestFor};
    ghost use Rattle.records.specs.Area.{Area};
    ghost use Rattle.reissue.specs.Entries.{AllIn, begun_of};
    ghost use Rattle.reissue.specs.Agrees.{Agrees};
    ghost use Rattle.reissue.specs.Answers.{complaints_about, is_bad, settled_of, complained};
    ghost use Rattle.reissue.specs.Hears.{IsAnswered, HearsAnswer, counted_move};
    ghost use Rattle.reissue.specs.Closing.{Closing};

    /// The request at this place was answered: so many bytes were moved. The bytes of a read of which nothing is left stand in `into` then:
    /// those of this answer go there from the reply.
    fn settle(
        &mut self,
        at: usize,
        n: u32,
        reply: &BlockReply,
        into: &mut [u8; 4096],
    ) -> AnswerEffect
        requires at { at < self.old.issued }
        requires ids { self.old.ids < 2 ^ 60 }
        requires within { (p : Pending) → p ≡ slice_index_or self.old.pending at p → n ≤ p.request.count }
        requires there { (p : Pending) → p ≡ slice_index_or self.old.pending at p → p.request.id ≡ reply.now.id }
        requires whole { n % 512 ≡ 0 }
        ensures agrees { (marks : List Mark) → Agrees self.old marks
            → position (λ p. p.request.id == reply.now.id) (take self.old.issued self.old.pending) ≡ Some at
            → moved_by reply.now marks ≡ Some n
            → IsTrue (is_endpoint reply.now.from self.old.current)
            → Agrees self.new (Answered reply.now ∷ marks) }
        ensures hears { IsAnswered self.old self.new reply.now.id n }
        ensures good { is_bad result ≡ false }
        ensures closes { Closes (settled_of result into.new) (pending_of self.old.pending) (pending_of self.new.pending) }
        ensures closing { (marks : List Mark) → Agrees self.old marks
            → position (λ p. p.request.id == reply.now.id) (take self.old.issued self.old.pending) ≡ Some at
            → moved_by reply.now marks ≡ Some n
            → IsTrue (is_endpoint reply.now.from self.old.current)
            → Closing (settled_of result into.new) self.old.pending self.new.pending marks (Answered reply.now ∷ marks) }
        ensures minors { (area : Area) → AllIn area self.old.pending → AllIn area self.new.pending }
        ensures ids { self.new.ids ≤ self.old.ids + 1 }
        ensures closed { self.new.ids + length self.old.pending ≤ self.old.ids + length self.new.pending + 1 }
        ensures current { self.new.current ≡ self.old.current }
        ensures given_up { self.new.given_up ≡ self.old.given_up }
    {
        self.take_out(at);
        if self.hand.goes_on(n) {
            self.hand.answer(n, &reply.bytes, self.ids + 1);
            self.push();
            return AnswerEffect::Rest;
        }
        let done = &*self.hand;
        match done.request.kind {
            Kind::Read => {
                done.finish(n, &reply.bytes, into);
                AnswerEffect::Read(done.ticket)
            }
            Kind::Write => AnswerEffect::Written(done.ticket),
        }
    }

    /// How much is left of the issued request at this place.
    fn count_at(&self, at: usize) -> u32
        requires { at < self.now.issued }
        ensures { (p : Pending) × (p ≡ slice_index_or self.now.pending at p) × (result ≡ p.request.count) }
    {
        self.pending.get(at).request.count
    }

    /// Does what a reply asks for. It needs one more id. The bytes of a read of which nothing is left stand in `into` then.
    pub fn answer(&mut self, reply: &BlockReply, into: &mut [u8; 4096]) -> AnswerEffect
        requires { self.old.ids < 2 ^ 60 }
        ensures agrees { (marks : List Mark) → Agrees self.old marks → Agrees self.new (received (incoming.Reply reply.now) marks) }
        ensures hears { (marks : List Mark) → Agrees self.old marks
            → HearsAnswer self.old self.new reply.now.id (counted_move marks reply.now) }
        ensures due { (marks : List Mark) → Agrees self.old marks
            → complained result reply.now ≡ complaints_about (complaint_due reply.now marks) }
        ensures closes { Closes (settled_of result into.new) (pending_of self.old.pending) (pending_of self.new.pending) }
        ensures closing { (marks : List Mark) → Agrees self.old marks
            → Closing (settled_of result into.new) self.old.pending self.new.pending marks
            (received (incoming.Reply reply.now) marks) }
        ensures minors { (area : Area) → AllIn area self.old.pending → AllIn area self.new.pending }
        ensures ids { self.new.ids ≤ self.old.ids + 1 }
        ensures closed { self.new.ids + length self.old.pending ≤ self.old.ids + length self.new.pending + 1 }
        ensures current { self.new.current ≡ self.old.current }
        ensures given_up { self.new.given_up ≡ self.old.given_up }
    {
        if !self.is_current(&reply.from) {
            return AnswerEffect::Dropped;
        }
        let Some(at) = self.find(reply.id) else {
            return AnswerEffect::Dropped;
        };
        let Some(n) = moved_bytes(self.count_at(at), &reply.outcome) else {
            return AnswerEffect::Bad;
        };
        self.settle(at, n, reply, into)
    }

    /// Adds what is asked for at the end, under the next id.
    pub fn add(&mut self, ask: &Ask<'_>) -> Ticket
        requires room { length self.old.pending < 16 }
        requires ids { self.old.ids < 2 ^ 60 }
        requires free { list_any (meets ask.now.position ask.now.count) self.old.pending ≡ false }
        ensures agrees { (marks : List Mark) → Agrees self.old marks → Agrees self.new marks }
        ensures added { (p : Pending) × (self.new.pending ≡ self.old.pending ++ p ∷ [])
            × (begun_of p ≡ begun_by ask.now) × IsRequestFor ask.now (self.old.ids + 1) p.request }
        ensures ticket { result ≡ self.old.ids + 1 }
        ensures fresh { pending_of self.old.pending result ≡ Option.None }
        ensures opens { pending_of self.new.pending ≡ put (pending_of self.old.pending) result (Some (begun_by ask.now)) }
        ensures ids { self.new.ids ≡ self.old.ids + 1 }
        ensures posted { self.new.posted ≡ self.old.posted }
        ensures issued { self.new.issued ≡ self.old.issued }
        ensures current { self.new.current ≡ self.old.current }
        ensures given_up { self.new.given_up ≡ self.old.given_up }
    {
        let id = self.ids + 1;
        self.hand.begin(ask, id);
        self.push();
        Ticket::of_id(id)
    }
}
