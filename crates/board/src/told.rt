//! The seat that knows the history, and the steps that add to it.

ghost use Rattle.std.specs.Prelude.{◌≡◌, ◌∷◌, List, [], IfOk};
ghost use Rattle.records.specs.Told.{Told, Posted, Complained, heard};

use atomic_table::{Play, Seat, Table, TableRule};
use message::endpoint::Endpoint;
use message::{BlockRequest, Incoming};
use std::alloc::{AllocError, Global};
use std::marker::{Brand, Model, PhantomData};

/// What the seat knows. No value of it is made: it stands in proofs alone.
pub struct Knowledge;

impl Model for Knowledge {
    ghost Value = { List Told };

    ghost view = { λ _. [] };
}

/// The rule of the table: its one word says nothing of the history.
pub struct Law;

impl TableRule<(), Knowledge, ()> for Law {
    ghost holds = { λ _ _. Unit };

    ghost first = { λ _. [] };
}

/// What a step makes of the history. Its caller picks that from what it hands over.
trait Change {
    ghost after: { List Told → List Told };
}

impl Change for Brand {
    ghost after = { λ told. told };
}

/// A step that makes this of the history.
struct Becomes<C> {
    of: PhantomData<C>,
}

impl<C: Change> Play<(), Knowledge> for Becomes<C> {
    ghost then = { λ _ before _ after. (after.1 ≡ before.1) × (after.0 ≡ C.after before.0) };
}

/// All that a link was told and gave, the newest first. It takes memory for one word, when it is made.
#[derive(Drop)]
pub struct History {
    table: Table<(), Knowledge, (), Law, Global>,
    seat: Seat<(), Knowledge>,
}

impl Model for History {
    ghost Value = { List Told };

    ghost view = { λ h. h.seat.me.0 };

    ghost invariant = { λ h. (h.table.shared.table_id.words ≡ 1) × (h.seat.table_id ≡ h.table.shared.table_id) × (h.seat.me.1 ≡ []) };
}

impl History {
    /// Nothing was told or given. It refuses where no memory was found.
    pub fn new(alloc: Global) -> Result<History, AllocError>
        ensures { IfOk result (λ h. h ≡ []) }
    {
        let (table, seat) = Table::of_words(alloc, &[0], &())?;
        Ok(History { table, seat })
    }

    /// A request was posted to an endpoint; it was accepted, or refused.
    pub fn posted(&mut self, to: Endpoint, request: &BlockRequest, accepted: bool)
        ensures { self.new ≡ Posted to request.now accepted ∷ self.old }
    {
        self.post::<Brand>(to, request, accepted);
    }

    /// A complaint was made about an endpoint.
    pub fn complained(&mut self, about: Endpoint)
        ensures { self.new ≡ Complained about ∷ self.old }
    {
        self.complain::<Brand>(about);
    }

    /// A message was given. Of Ends the first alone adds to the history.
    pub fn heard(&mut self, message: &Incoming)
        ensures { self.new ≡ heard message.now self.old }
    {
        self.hear::<Brand>(message);
    }

    // The caller picks the change from what it hands over, and so below.
    fn post<C: Change>(&mut self, _to: Endpoint, _request: &BlockRequest, _accepted: bool)
        ensures { self.new ≡ C.after self.old }
    {
        step::<C>(&self.table, &mut self.seat);
    }

    fn complain<C: Change>(&mut self, _about: Endpoint)
        ensures { self.new ≡ C.after self.old }
    {
        step::<C>(&self.table, &mut self.seat);
    }

    fn hear<C: Change>(&mut self, _message: &Incoming)
        ensures { self.new ≡ C.after self.old }
    {
        step::<C>(&self.table, &mut self.seat);
    }
}

/// A load that ignores what it finds: what a seat knows changes at a step alone.
fn step<C: Change>(table: &Table<(), Knowledge, (), Law, Global>, seat: &mut Seat<(), Knowledge>)
    requires { (table.now.shared.table_id.words ≡ 1) × (seat.old.table_id ≡ table.now.shared.table_id) }
    ensures table { seat.new.table_id ≡ seat.old.table_id }
    ensures known { seat.new.me ≡ (C.after seat.old.me.0, seat.old.me.1) }
{
    table.shared.load::<Becomes<C>>(seat, 0);
}
