//! The state of a block's bytes in memory.

ghost use Rattle.std.specs.Prelude.{◌≡◌, Some, true, is_some};
ghost use Rattle.cache.specs.Slots.{ticket_of, dirtied, written, is_clean, is_dirty};

use reissue::Ticket;

/// What is known of a block's bytes in memory, and of a write of them.
#[derive(Clone, Copy, PartialEq, Eq)]
pub enum State {
    /// They are the disk's.
    Clean,
    /// They were changed, and no write is under way.
    Dirty,
    /// They were changed; a write of them is under way.
    Writing(Ticket),
    /// They were changed again since the write that is under way was issued.
    Changed(Ticket),
}

impl State {
    /// The ticket of the write that is under way.
    pub fn ticket(self) -> Option<Ticket>
        ensures { result ≡ ticket_of self }
    {
        match self {
            State::Clean => None,
            State::Dirty => None,
            State::Writing(ticket) => Some(ticket),
            State::Changed(ticket) => Some(ticket),
        }
    }

    /// Whether the bytes are the disk's.
    pub fn is_clean(self) -> bool
        ensures { result ≡ is_clean self }
    {
        match self {
            State::Clean => true,
            State::Dirty => false,
            State::Writing(_) => false,
            State::Changed(_) => false,
        }
    }

    /// Whether the bytes were changed and no write is under way.
    pub fn is_dirty(self) -> bool
        ensures { result ≡ is_dirty self }
    {
        match self {
            State::Clean => false,
            State::Dirty => true,
            State::Writing(_) => false,
            State::Changed(_) => false,
        }
    }

    /// The state after a change of the bytes.
    pub fn dirtied(self) -> State
        ensures { result ≡ dirtied self }
    {
        match self {
            State::Clean => State::Dirty,
            State::Dirty => State::Dirty,
            State::Writing(ticket) => State::Changed(ticket),
            State::Changed(ticket) => State::Changed(ticket),
        }
    }

    /// The state after the write was answered good: clean, unless the bytes were changed since it was issued.
    pub fn written(self) -> State
        ensures { result ≡ written self }
    {
        match self {
            State::Clean => State::Clean,
            State::Dirty => State::Dirty,
            State::Writing(_) => State::Clean,
            State::Changed(_) => State::Dirty,
        }
    }
}
