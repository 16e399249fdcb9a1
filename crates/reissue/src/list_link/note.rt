//! What a link stores of what it was told and gave.

ghost use Rattle.std.specs.Prelude.{◌≡◌, ◌≢◌, ◌≤◌, ◌<◌, ◌+◌, ◌∷◌, [], false, true, vec_len, vec_capacity, IfOk};
ghost use Rattle.std.specs.Bool.{OnTrue, OnFalse};
ghost use Rattle.records.specs.Told.{heard, took_end};
ghost use Rattle.reissue.specs.Notes.{history_of, note_told, room_of, told_of};

use message::endpoint::Endpoint;
use message::{BlockRequest, Incoming};
use std::alloc::{AllocError, Global};

/// How many things a link may be told between two messages, and the message.
const ROOM: usize = 34;

/// One thing that a link was told or gave.
#[derive(Clone, Copy)]
pub enum Note {
    /// A request was posted to an endpoint; it was accepted, or refused.
    Posted(Endpoint, BlockRequest, bool),
    /// A complaint about an endpoint.
    Complained(Endpoint),
    /// A message that was taken.
    Received(Incoming),
}

/// All that a link was told and gave, the oldest first, and whether it has ended.
#[derive(Drop)]
pub struct Notes {
    pub items: Vec<Note>,
    pub ended: bool,
    pub ghost unended: { took_end (told_of items.items) ≡ false },
}

impl Notes {
    /// Nothing was told or given, and there is room for what is told before the first message, and for it.
    pub fn new(alloc: Global) -> Result<Notes, AllocError>
        ensures items { IfOk result (λ n. n.items.items ≡ []) }
        ensures ended { IfOk result (λ n. n.ended ≡ false) }
        ensures room { IfOk result (λ n. 34 ≤ vec_capacity n.items) }
    {
        Ok(Notes {
            items: Vec::with_capacity(alloc, ROOM)?,
            ended: false,
        })
    }

    /// Notes a post or a complaint.
    pub fn told(&mut self, note: Note)
        requires room { 0 < room_of self.old.ended (vec_capacity self.old.items) (vec_len self.old.items) }
        requires kind { took_end (note_told note ∷ []) ≡ false }
        ensures history { history_of self.new.ended self.new.items.items ≡ note_told note ∷ history_of self.old.ended self.old.items.items }
        ensures room { room_of self.old.ended (vec_capacity self.old.items) (vec_len self.old.items)
            ≤ room_of self.new.ended (vec_capacity self.new.items) (vec_len self.new.items) + 1 }
    {
        self.items.push_reserved(note);
    }

    /// Makes room for a message and for what is told before the next one; false where no memory was found.
    pub fn make_room(&mut self) -> bool
        ensures history { history_of self.new.ended self.new.items.items ≡ history_of self.old.ended self.old.items.items }
        ensures ended { self.new.ended ≡ self.old.ended }
        ensures room { OnTrue result (34 + vec_len self.new.items ≤ vec_capacity self.new.items) }
        ensures full { OnFalse result (vec_capacity self.old.items < vec_len self.old.items + 34) }
    {
        self.items.reserve(ROOM).is_ok()
    }

    /// Notes a message, for which room was made.
    pub fn heard(&mut self, message: Incoming)
        requires live { self.old.ended ≡ false }
        requires room { 34 + vec_len self.old.items ≤ vec_capacity self.old.items }
        ensures history { history_of self.new.ended self.new.items.items ≡ heard message (history_of self.old.ended self.old.items.items) }
        ensures room { message ≢ Incoming.End → 33 ≤ room_of self.new.ended (vec_capacity self.new.items) (vec_len self.new.items) }
    {
        match message {
            Incoming::End => self.end(),
            Incoming::Reply(_) => self.items.push_reserved(Note::Received(message)),
            Incoming::Started(_) => self.items.push_reserved(Note::Received(message)),
            Incoming::GaveUp => self.items.push_reserved(Note::Received(message)),
            Incoming::Flush => self.items.push_reserved(Note::Received(message)),
        }
    }

    /// Notes that the link has ended, once.
    pub fn end(&mut self)
        ensures history { history_of self.new.ended self.new.items.items ≡ heard Incoming.End
            (history_of self.old.ended self.old.items.items) }
    {
        self.ended = true;
    }
}
