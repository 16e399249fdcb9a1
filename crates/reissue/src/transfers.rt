//! Requests over a link, each pending until it is answered good over its whole range.

ghost use Rattle.std.specs.Prelude.{◌≡◌, ◌+◌, ◌<◌, ◌≤◌, ◌^◌, ◌==◌, ◌&&◌, ◌↔◌, ◌∷◌, [], List, ℕ, length, IsOk, IsTrue, IfOk, OnOk, OnErr};
ghost use Rattle.std.specs.Prelude.{IsErrOf, IsSome, true, false, Option, MatchBool};
ghost use Rattle.std.specs.Borrow.{Lends, sem};
ghost use Rattle.std.specs.List.{list_any};
ghost use Rattle.reissue.specs.Room.{room_needed};
ghost use Rattle.reissue.specs.Posts.{is_message};
ghost use Rattle.reissue.specs.Moves.{Opens, begun_by};
ghost use Rattle.reissue.specs.Settlements.{settlement};
ghost use Rattle.reissue.specs.Entries.{pending_of, meets};

use crate::ask::{Ask, BeginRefusal, Settled, Ticket};
use crate::link::Link;
use crate::table::{AnswerEffect, Table};
use message::Incoming;
use message::endpoint::Endpoint;
use std::alloc::{AllocError, Global};

/// The pending requests of a file server, and the link that they go over.
///
/// A request is pending from `begin` until it was answered good over its whole range. Requests get ids that rise by one from 1.
/// Each new driver is posted all that is pending, in rising order, up to the first that the link refuses; the rest is tried
/// again after the next message. After a good answer that moved less than was asked for, what is left goes on under a new id.
/// Of an answer that counts and isn't good the link is told by a complaint, and the request stays pending. Once the device was given up,
/// nothing is posted any more and no reply counts. What goes on in the link goes on through each call.
#[derive(Drop)]
pub struct Transfers<L> {
    link: L,
    table: Table,
}

/// Whether posts are due after this: after each message, and not after End.
fn posts_after(message: &Incoming) -> bool
    ensures { result ≡ is_message message.now }
{
    match message {
        Incoming::End => false,
        Incoming::Reply(_) => true,
        Incoming::Started(_) => true,
        Incoming::GaveUp => true,
        Incoming::Flush => true,
    }
}

impl<L: Link> Transfers<L> {
    ghost use Rattle.records.specs.Marks.{Mark};
    ghost use Rattle.records.specs.Acts.{empty_outbox};
    ghost use Rattle.reissue.specs.Rules.{outbox_of};
    ghost use Rattle.reissue.specs.Agrees.{Agrees, unposted};
    ghost use Rattle.reissue.specs.Posts.{PostsInOrder, IsTried, HasRoom, CanPost, TakesRoom};
    ghost use Rattle.reissue.specs.Calls.{Leads, TakesIn, Absorbs, Steps, Begins, Adds, IsAnswerTo, more_may_come};
    ghost use Rattle.reissue.specs.Transfers.{link_of, table_of, begun_in, with_link, Between};
    ghost use Rattle.reissue.specs.contracts.transfers.Transfers.{the_row};

    /// Nothing pending, over this link. It takes memory for sixteen requests, and nothing here takes any later.
    pub fn new(alloc: Global, link: L) -> Result<Transfers<L>, AllocError>
    where
        L: Drop,
        ensures link { IfOk result (λ t. link_of t ≡ link) }
        ensures pending { IfOk result (λ t. (table_of t).pending ≡ []) }
        ensures ids { IfOk result (λ t. (table_of t).ids ≡ 0) }
        ensures current { IfOk result (λ t. (table_of t).current ≡ Option.None) }
        ensures given_up { IfOk result (λ t. (table_of t).given_up ≡ false) }
        ensures agrees { IfOk result (λ t. Agrees (table_of t) []) }
        ensures owes { IfOk result (λ t. outbox_of (table_of t) ≡ empty_outbox) }
        ensures room { IfOk result (λ t. HasRoom (table_of t) (L.room (link_of t))) }
        ensures tried { IfOk result (λ t. IsTried (table_of t) (L.history (link_of t))) }
    {
        Ok(Transfers {
            link,
            table: Table::new(alloc)?,
        })
    }

    /// How many ids were given.
    pub fn ids(&self) -> u64
        ensures { result ≡ (table_of self.now).ids }
    {
        self.table.ids
    }

    /// Whether the device was given up.
    pub fn is_given_up(&self) -> bool
        ensures { result ≡ (table_of self.now).given_up }
    {
        self.table.given_up
    }

    /// Whether nothing is pending.
    pub fn is_idle(&self) -> bool
        ensures { (result ≡ true) ↔ ((table_of self.now).pending ≡ []) }
    {
        self.table.is_idle()
    }

    /// The link.
    pub fn link(&self) -> &L
        ensures { result.now ≡ link_of self.now }
    {
        &self.link
    }

    /// The link, to be changed: what is pending stays as it is.
    pub fn link_mut(&mut self) -> &mut L
        ensures* lends { sem 𝓛 (Lends (the_row L.row) L.row self.entry result (with_link self.entry.now)) }
        ensures value { result.now ≡ link_of self.old }
    {
        &mut self.link
    }

    /// The link. What is pending is let go.
    pub fn into_link(self) -> L
        ensures { result ≡ link_of self }
    {
        let Transfers { link, table: _ } = self;
        link
    }

    /// Posts what isn't posted yet, in order, up to the first that is refused.
    fn post_rest(&mut self)
        requires { CanPost (table_of self.old) (L.room (link_of self.old)) }
        ensures leads { Between L.Link Leads self.old self.new }
        ensures budget { L.budget_left (link_of self.new) ≤ L.budget_left (link_of self.old) }
        ensures goes { L.goes_on (link_of self.old) (link_of self.new) }
        ensures posts { PostsInOrder (table_of self.old).current (unposted (table_of self.old))
            (L.history (link_of self.old)) (L.history (link_of self.new)) }
        ensures ids { (table_of self.new).ids ≡ (table_of self.old).ids }
        ensures current { (table_of self.new).current ≡ (table_of self.old).current }
        ensures room { TakesRoom (table_of self.old) (table_of self.new) (L.room (link_of self.old)) (L.room (link_of self.new)) }
        ensures tried { IsTried (table_of self.new) (L.history (link_of self.new)) }
    {
        let Some(to) = self.table.current else { return };
        while let Some(request) = self.table.next_to_post() {
            match self.link.post(to, request) {
                Ok(()) => self.table.count_post(),
                Err(_) => return,
            }
        }
    }

    /// Posts what isn't posted yet, if that is due.
    fn post_if(&mut self, due: bool)
        requires { due ≡ true → CanPost (table_of self.old) (L.room (link_of self.old)) }
        ensures leads { Between L.Link Leads self.old self.new }
        ensures budget { L.budget_left (link_of self.new) ≤ L.budget_left (link_of self.old) }
        ensures goes { L.goes_on (link_of self.old) (link_of self.new) }
        ensures posts { MatchBool due
            (PostsInOrder (table_of self.old).current (unposted (table_of self.old))
            (L.history (link_of self.old)) (L.history (link_of self.new)))
            (L.history (link_of self.new) ≡ L.history (link_of self.old)) }
        ensures ids { (table_of self.new).ids ≡ (table_of self.old).ids }
        ensures current { (table_of self.new).current ≡ (table_of self.old).current }
        ensures room { due ≡ true → TakesRoom (table_of self.old) (table_of self.new)
            (L.room (link_of self.old)) (L.room (link_of self.new)) }
        ensures tried { due ≡ true → IsTried (table_of self.new) (L.history (link_of self.new)) }
        ensures kept { due ≡ false → self.new ≡ self.old }
    {
        if due {
            self.post_rest();
        }
    }

    /// Does what a message asks for, but for posts.
    fn take_in(&mut self, message: &Incoming, into: &mut [u8; 4096]) -> Settled
        requires ids { (table_of self.old).ids < 2 ^ 60 }
        requires room { room_needed message.now ≤ L.room (link_of self.old) }
        ensures takes { Between L.Link (TakesIn message.now (settlement result into.new)) self.old self.new }
        ensures answer { IsAnswerTo message.now (settlement result into.new) }
        ensures ended { message.now ≡ Incoming.End → self.new ≡ self.old }
        ensures budget { L.budget_left (link_of self.new) ≤ L.budget_left (link_of self.old) }
        ensures goes { L.goes_on (link_of self.old) (link_of self.new) }
        ensures room { L.room (link_of self.old) ≤ L.room (link_of self.new) + 1 }
        ensures ids { (table_of self.new).ids ≤ (table_of self.old).ids + 1 }
        ensures closed { (table_of self.new).ids + length (table_of self.old).pending
            ≤ (table_of self.old).ids + length (table_of self.new).pending + 1 }
    {
        match message {
            Incoming::Reply(reply) => match self.table.answer(reply, into) {
                AnswerEffect::Dropped => Settled::Nothing,
                AnswerEffect::Rest => Settled::Nothing,
                AnswerEffect::Bad => {
                    self.link.complain(reply.from);
                    Settled::Nothing
                }
                AnswerEffect::Read(ticket) => Settled::Read(ticket),
                AnswerEffect::Written(ticket) => Settled::Written(ticket),
            },
            Incoming::Started(endpoint) => {
                self.table.restart(*endpoint);
                Settled::Nothing
            }
            Incoming::GaveUp => {
                self.table.give_up();
                Settled::GaveUp
            }
            Incoming::Flush => Settled::Flush,
            Incoming::End => Settled::End,
        }
    }

    /// Does what a message asks for: a complaint where an answer counts and isn't good, then the posts that are due. End changes nothing.
    /// The bytes of a read that is settled stand in `into` then.
    pub fn absorb(&mut self, message: &Incoming, into: &mut [u8; 4096]) -> Settled
        requires ids { (table_of self.old).ids < 2 ^ 60 }
        requires room { room_needed message.now ≤ L.room (link_of self.old) }
        ensures absorbs { Between L.Link (Absorbs message.now (settlement result into.new)) self.old self.new }
        ensures answer { IsAnswerTo message.now (settlement result into.new) }
        ensures ended { message.now ≡ Incoming.End → self.new ≡ self.old }
        ensures budget { L.budget_left (link_of self.new) ≤ L.budget_left (link_of self.old) }
        ensures goes { L.goes_on (link_of self.old) (link_of self.new) }
        ensures room { is_message message.now ≡ true → HasRoom (table_of self.new) (L.room (link_of self.new)) }
        ensures tried { IsTried (table_of self.old) (L.history (link_of self.old))
            → IsTried (table_of self.new) (L.history (link_of self.new)) }
        ensures ids { (table_of self.new).ids ≤ (table_of self.old).ids + 1 }
        ensures closed { (table_of self.new).ids + length (table_of self.old).pending
            ≤ (table_of self.old).ids + length (table_of self.new).pending + 1 }
    {
        let due = posts_after(message);
        let settled = self.take_in(message, into);
        self.post_if(due);
        settled
    }

    /// Takes a message, for which the caller has room, and absorbs it. The bytes of a read that is settled stand in `into` then.
    pub fn step(&mut self, message: &mut Incoming, into: &mut [u8; 4096]) -> Settled
        requires { (table_of self.old).ids < 2 ^ 60 }
        ensures steps { Between L.Link (Steps (settlement result into.new)) self.old self.new }
        ensures budget { 0 < L.budget_left (link_of self.old) → L.budget_left (link_of self.new) < L.budget_left (link_of self.old) }
        ensures spent { L.budget_left (link_of self.old) ≡ 0 → result ≡ Settled.End }
        ensures goes { L.goes_on (link_of self.old) (link_of self.new) }
        ensures falls { more_may_come (settlement result into.new) ≡ true → L.budget_left (link_of self.new) < L.budget_left (link_of self.old) }
        ensures room { more_may_come (settlement result into.new) ≡ true → HasRoom (table_of self.new) (L.room (link_of self.new)) }
        ensures tried { IsTried (table_of self.old) (L.history (link_of self.old))
            → IsTried (table_of self.new) (L.history (link_of self.new)) }
        ensures ids { (table_of self.new).ids ≤ (table_of self.old).ids + 1 }
        ensures closed { (table_of self.new).ids + length (table_of self.old).pending
            ≤ (table_of self.old).ids + length (table_of self.new).pending + 1 }
    {
        self.link.take_into(message);
        self.absorb(message, into)
    }

    /// Takes a request up, for any range of whole sectors: 1 TableFull where sixteen are pending, 2 BlockPending where a byte of its range
    /// is. Where there is a driver to post to, and each earlier one was posted to it, it is posted at once; the link may refuse it. It has
    /// one place and one ticket, however many blocks its range takes.
    pub fn begin_run(&mut self, ask: &Ask<'_>) -> Result<Ticket, BeginRefusal>
        requires ids { (table_of self.old).ids < 2 ^ 60 }
        requires room { HasRoom (table_of self.old) (L.room (link_of self.old)) }
        ensures full { IsErrOf result BeginRefusal.TableFull ↔ (length (table_of self.old).pending ≡ 16) }
        ensures pending { IsErrOf result BeginRefusal.BlockPending
            ↔ ((length (table_of self.old).pending < 16)
            × IsTrue (list_any (meets ask.now.position ask.now.count) (table_of self.old).pending)) }
        ensures refused { OnErr result (self.new ≡ self.old) }
        ensures adds { OnOk result (Adds ask.now (table_of self.old) (table_of self.new)
            (L.history (link_of self.old)) (L.history (link_of self.new))) }
        ensures ticket { IfOk result (λ t. t ≡ (table_of self.old).ids + 1) }
        ensures opens { Opens result (begun_by ask.now) (begun_in self.old) (begun_in self.new) }
        ensures begins { Between L.Link (Begins ask.now) self.old self.new }
        ensures budget { L.budget_left (link_of self.new) ≤ L.budget_left (link_of self.old) }
        ensures goes { L.goes_on (link_of self.old) (link_of self.new) }
        ensures room { HasRoom (table_of self.new) (L.room (link_of self.new)) }
        ensures tried { IsTried (table_of self.old) (L.history (link_of self.old))
            → IsTried (table_of self.new) (L.history (link_of self.new)) }
    {
        if self.table.is_full() {
            return Err(BeginRefusal::TableFull);
        }
        if self.table.meets(ask.position, ask.count) {
            return Err(BeginRefusal::BlockPending);
        }
        let due = self.table.is_posted();
        let ticket = self.table.add(ask);
        self.post_if(due);
        Ok(ticket)
    }

    /// Takes a request for one block up, as `begin_run` does: 1 TableFull where sixteen are pending, 2 BlockPending where a byte of its range
    /// is.
    pub fn begin(&mut self, ask: &Ask<'_>) -> Result<Ticket, BeginRefusal>
        requires ids { (table_of self.old).ids < 2 ^ 60 }
        requires room { HasRoom (table_of self.old) (L.room (link_of self.old)) }
        ensures full { IsErrOf result BeginRefusal.TableFull ↔ (length (table_of self.old).pending ≡ 16) }
        ensures pending { IsErrOf result BeginRefusal.BlockPending
            ↔ ((length (table_of self.old).pending < 16)
            × IsTrue (list_any (meets ask.now.position ask.now.count) (table_of self.old).pending)) }
        ensures refused { OnErr result (self.new ≡ self.old) }
        ensures adds { OnOk result (Adds ask.now (table_of self.old) (table_of self.new)
            (L.history (link_of self.old)) (L.history (link_of self.new))) }
        ensures ticket { IfOk result (λ t. t ≡ (table_of self.old).ids + 1) }
        ensures opens { Opens result (begun_by ask.now) (begun_in self.old) (begun_in self.new) }
        ensures begins { Between L.Link (Begins ask.now) self.old self.new }
        ensures budget { L.budget_left (link_of self.new) ≤ L.budget_left (link_of self.old) }
        ensures goes { L.goes_on (link_of self.old) (link_of self.new) }
        ensures room { HasRoom (table_of self.new) (L.room (link_of self.new)) }
        ensures tried { IsTried (table_of self.old) (L.history (link_of self.old))
            → IsTried (table_of self.new) (L.history (link_of self.new)) }
    {
        self.begin_run(ask)
    }
}
