//! A connection, which answers messages.

ghost use Rattle.std.specs.Prelude.{◌≡◌, ◌<◌, ◌+◌, ℕ, suc, [], length, vec_len, vec_capacity, OnOk, OnErr, ◌↔◌, Err};
ghost use Rattle.talks.specs.Talks.{MayHear};
ghost use Rattle.ninep_fids.specs.Asked.{HasAsked};
ghost use Rattle.ninep_fids.specs.Written.{tag_in};
ghost use Rattle.ninep_fids.specs.Knowledge.{known_of};
ghost use Rattle.ninep_fids.specs.Plans.{Follows};
ghost use Rattle.ninep_server.specs.Turns.{Reaches};
ghost use Rattle.ninep_server.specs.Answering.{IsAnswered};
ghost use Rattle.ninep_server.specs.Messages.{plan_of};
ghost use Rattle.ninep_server.specs.Progress.{IsCarriedOn, Within, left_of_turn};

use crate::begin::begin;
use crate::turn::Turn;
use errno::Errno;
use ninep::reading::read;
use ninep::request::Request;
use ninep_fids::answer::{NinepAnswer, Said};
use ninep_fids::faults::refusal_of;
use ninep_fids::knows::{Knows, MAX_MESSAGE};
use ninep_fids::send::send;
use ninep_fids::tag::tag_of;
use std::alloc::Global;
use std::marker::Model;
use talks::answers::Answers as Answering;
use talks::ask::Ask;
use talks::end::End;
use talks::refused::Refused;
use talks::sessions::{Sessions, heard};
use tree::Call;

/// The most that the answer to one message asks of the sessions: a look at each name of a walk is the most that any asks.
const MOST_ASKED: usize = 16;

/// A connection.
#[derive(Drop)]
pub struct Connection {
    knows: Knows,
}

impl Model for Connection {
    ghost use Rattle.ninep_fids.specs.Knowledge.{Known, known_of};

    ghost Value = { Known };

    ghost view = { λ c. known_of c.knows };
}

/// Asks what a turn waits for, and goes on from what is answered.
fn step<'m, S: Sessions>(knows: &mut Knows, sessions: &mut S, now: u32, turn: Turn<'m>) -> Turn<'m>
    ensures reaches { (start : S) → Reaches (MayHear S.called S.entered S.left now) start turn.entry sessions.old
        → Reaches (MayHear S.called S.entered S.left now) start result sessions.new }
    ensures carried { IsCarriedOn (MayHear S.called S.entered S.left now) (left_of_turn turn.entry) sessions.old (known_of knows.old)
        (left_of_turn result) sessions.new (known_of knows.new) }
    ensures few { (n : ℕ) → Within (left_of_turn turn.entry) (suc n) → Within (left_of_turn result) n }
{
    match turn {
        Turn::Said(said) => Turn::Said(said),
        Turn::Sync(session) => {
            let call = Call::Sync;
            Turn::synced(heard(sessions, now, &Ask::Call { session, call }))
        }
        Turn::Go(work) => {
            let heard = heard(sessions, now, &work.ask());
            Turn::of(work.hear(knows, heard))
        }
    }
}

/// What is said to a request, once what it asks of the sessions was asked in turn.
#[tactic(auto, using(crate::proofs::Following::ends))]
fn serve<S: Sessions>(knows: &mut Knows, sessions: &mut S, now: u32, request: &Request<'_>) -> Said
    ensures asked { HasAsked (MayHear S.called S.entered S.left now) sessions.old result sessions.new }
    ensures followed { Follows (MayHear S.called S.entered S.left now) (plan_of (known_of knows.old) now request.now) sessions.old
        (known_of knows.old) result sessions.new (known_of knows.new) }
{
    let mut turn = begin(knows, now, request);
    'turns: for _asked in 0..MOST_ASKED {
        match turn {
            Turn::Said(said) => return said,
            waiting => turn = step(knows, sessions, now, waiting),
        }
    }
    match turn {
        Turn::Said(said) => said,
        Turn::Sync(_) | Turn::Go(_) => unreachable!(),
    }
}

/// What is said to a message, or that there is no room for what could be said.
#[tactic(auto, using(crate::proofs::Turns::with_room, crate::proofs::Turns::without_room))]
fn said_to<S: Sessions>(
    knows: &mut Knows,
    sessions: &mut S,
    now: u32,
    bytes: &[u8],
    has_room: bool,
) -> Said
    ensures asked { HasAsked (MayHear S.called S.entered S.left now) sessions.old result sessions.new }
    ensures followed { IsAnswered (MayHear S.called S.entered S.left now) now bytes.now has_room sessions.old (known_of knows.old) result
        sessions.new (known_of knows.new) }
{
    if !has_room {
        return Said::Plain(NinepAnswer::Refused(Refused::By(Errno::ENOMEM)));
    }
    match read(bytes) {
        Ok(message) => serve(knows, sessions, now, &message.request),
        Err(fault) => Said::Plain(NinepAnswer::Refused(refusal_of(fault))),
    }
}

impl Connection {
    ghost use Rattle.ninep_server.specs.Connections.{Answers, Says};
    ghost use Rattle.ninep_server.specs.Exchanges.{nobody};

    /// A connection of no user, whose messages have at most 65560 bytes until a version is settled.
    pub fn new(alloc: Global) -> Connection
        ensures { result ≡ nobody }
    {
        Connection {
            knows: Knows::new(alloc),
        }
    }

    /// The most bytes of a message.
    pub fn message_size(&self) -> u32
        ensures { result ≡ self.now.message_size }
    {
        self.knows.message_size
    }

    /// Answers one message, all of its bytes: its answer is written behind what stands in `out`, by what the sessions answer to what they
    /// are asked.
    ///
    /// Where no room is found for the longest answer there may be, nothing is asked, and the answer is ENOMEM. NoMessage: the bytes have no
    /// tag. OutOfMemory: there was no room for that answer either. In both cases nothing is asked, and all stays.
    pub fn answer<S: Sessions>(
        &mut self,
        sessions: &mut S,
        now: u32,
        bytes: &[u8],
        out: &mut Vec<u8>,
    ) -> Result<(), End>
        ensures answered { OnOk result (Answers (MayHear S.called S.entered S.left now) (tag_in bytes.now) self.new.message_size
            sessions.old sessions.new out.old.items out.new.items) }
        ensures said { OnOk result (Says (MayHear S.called S.entered S.left now) now bytes.now sessions.old self.old sessions.new
            self.new (vec_len out.old) (vec_capacity out.old) out.old.items out.new.items) }
        ensures short { (result ≡ Err End.NoMessage) ↔ (length bytes.now < 7) }
        ensures full { result ≡ Err End.OutOfMemory → vec_capacity out.old < vec_len out.old + 65560 }
        ensures none { OnErr result ((sessions.new ≡ sessions.old) × (self.new ≡ self.old) × (out.new.items ≡ out.old.items)) }
    {
        let tag = tag_of(bytes)?;
        let has_room = out.reserve(MAX_MESSAGE as usize).is_ok();
        let said = said_to(&mut self.knows, sessions, now, bytes, has_room);
        send(out, self.knows.message_size, tag, &said)
    }
}

/// The fewest bytes of a message: its size, its type and its tag (the protocol's).
const LEAST: u32 = 7;

impl Answering for Connection {
    ghost use Rattle.ninep_server.specs.Exchanges.{IsExchanged};

    ghost answers = { IsExchanged };

    ghost fewest = { 7 };

    fn least(&self) -> u32 {
        LEAST
    }

    fn most(&self) -> u32 {
        self.message_size()
    }

    fn answer<S: Sessions>(
        &mut self,
        sessions: &mut S,
        now: u32,
        bytes: &[u8],
        out: &mut Vec<u8>,
    ) -> Result<(), End> {
        Connection::answer(self, sessions, now, bytes, out)
    }
}
