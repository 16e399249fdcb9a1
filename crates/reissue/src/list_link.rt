//! A link for tests, which answers from a list.

ghost use Rattle.std.specs.Prelude.{◌≡◌, ◌≤◌, [], IfOk, List, vec_len, vec_capacity};
ghost use Rattle.records.specs.Marks.{Mark};
ghost use Rattle.records.specs.Opening.{Opening};
ghost use Rattle.reissue.specs.Notes.{history_of, room_of};
ghost use Rattle.reissue.specs.Grows.{Grows, grows_not, grows_then};

pub mod note;

use crate::link::{Link, LinkRefusal};
use crate::list_link::note::{Note, Notes};
use message::endpoint::Endpoint;
use message::{BlockRequest, Incoming};
use std::alloc::{AllocError, Global};

/// A link that gives the messages of a list in their order, and then End. It runs no driver, accepts each post, and guarantees
/// nothing of any record.
#[derive(Drop)]
pub struct ListLink {
    // The messages that are still to come, the next one last.
    messages: Vec<Incoming>,
    notes: Notes,
    budget: u64,
}

impl ListLink {
    /// A link that gives these messages. It was told nothing yet.
    pub fn new(alloc: Global, messages: Vec<Incoming>) -> Result<ListLink, AllocError>
        ensures history { IfOk result (λ link. ⟦<ListLink as Link>⟧.history link ≡ []) }
        ensures budget { IfOk result (λ link. ⟦<ListLink as Link>⟧.budget_left link ≡ 1099511627776) }
        ensures room { IfOk result (λ link. 34 ≤ ⟦<ListLink as Link>⟧.room link) }
    {
        let mut messages = messages;
        messages.reverse();
        Ok(ListLink {
            messages,
            notes: Notes::new(alloc)?,
            budget: 1 << 40,
        })
    }

    /// What it was told and gave, the oldest first, but for the End.
    pub fn notes(&self) -> &[Note]
        ensures { history_of self.now.notes.ended result.now ≡ ⟦<ListLink as Link>⟧.history self.now }
    {
        &self.notes.items
    }
}

impl Link for ListLink {
    ghost history = { λ l. history_of l.notes.ended l.notes.items.items };

    ghost budget_left = { λ l. l.budget };

    ghost room = { λ l. room_of l.notes.ended (vec_capacity l.notes.items) (vec_len l.notes.items) };

    ghost truth = { λ l opening marks. ⊥ };

    // all that it was told and gave stays, and more comes after it
    ghost goes_on = { λ l m. Grows (history_of l.notes.ended l.notes.items.items) (history_of m.notes.ended m.notes.items.items) };

    fn post(&mut self, to: Endpoint, request: &BlockRequest) -> Result<(), LinkRefusal> {
        self.notes.told(Note::Posted(to, *request, true));
        Ok(())
    }

    fn complain(&mut self, about: Endpoint) {
        self.notes.told(Note::Complained(about));
    }

    fn take(&mut self) -> Incoming {
        if self.notes.ended || self.budget == 0 || !self.notes.make_room() {
            self.budget = 0;
            self.notes.end();
            return Incoming::End;
        }
        self.budget -= 1;
        let message = self.messages.pop().unwrap_or(Incoming::End);
        self.notes.heard(message);
        message
    }

    fn budget(&self) -> u64 {
        self.budget
    }

    ghost stays = { λ l. grows_not _ };

    ghost joins = { λ a b c first next. grows_then _ _ _ first next };
}
