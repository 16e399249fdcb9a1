//! The reads of a range that are pending, and where their bytes go.

ghost use Rattle.std.specs.Prelude.{◌≡◌, ◌+◌, ◌<◌, ◌≤◌, ◌-◌, length, vec_capacity, position};
ghost use Rattle.volume_reading.specs.Sought.{is_for, piece_size, place_of, without_ticket, AreBefore, PutsAt};

use reissue::Ticket;

/// How many bytes one read asks for at most.
const AT_MOST: usize = 4096;

/// A read that is pending, and where its bytes go.
#[derive(Clone, Copy)]
pub struct Sought {
    /// What the read is known by.
    pub ticket: Ticket,
    /// How many bytes of the range stand before its first.
    pub at: usize,
}

impl Sought {
    /// Whether it has this ticket.
    fn is_for(&self, ticket: Ticket) -> bool
        ensures { result ≡ is_for ticket self.now }
    {
        self.ticket == ticket
    }
}

/// How many bytes are asked for from this place of a range of `size` bytes on.
pub(crate) fn piece_size(size: usize, at: usize) -> usize
    requires { at ≤ size }
    ensures { result ≡ piece_size size at }
{
    AT_MOST.min(size - at)
}

/// Where in the list the first read with this ticket stands.
fn find(asked: &Vec<Sought>, ticket: Ticket) -> Option<usize>
    ensures { result ≡ position (is_for ticket) asked.now.items }
{
    asked.iter().position(|s| s.is_for(ticket))
}

/// Takes out the read with this ticket, and says where its bytes go, if it is among them.
pub(crate) fn take_out(asked: &mut Vec<Sought>, ticket: Ticket) -> Option<usize>
    ensures at { result ≡ place_of asked.old.items ticket }
    ensures left { asked.new.items ≡ without_ticket ticket asked.old.items }
    ensures capacity { vec_capacity asked.new ≡ vec_capacity asked.old }
{
    match find(asked, ticket) {
        Some(i) => Some(asked.remove(i).at),
        None => None,
    }
}

/// Puts the bytes of a settled read into their places; it isn't sought any more.
pub(crate) fn put_bytes(
    asked: &mut Vec<Sought>,
    into: &mut [u8],
    ticket: Ticket,
    bytes: &[u8; 4096],
)
    requires within { AreBefore (length into.old) (length into.old) asked.old.items }
    ensures left { asked.new.items ≡ without_ticket ticket asked.old.items }
    ensures capacity { vec_capacity asked.new ≡ vec_capacity asked.old }
    ensures puts { PutsAt (place_of asked.old.items ticket) bytes.now into.old into.new }
{
    if let Some(at) = take_out(asked, ticket) {
        let count = piece_size(into.len(), at);
        into[at..at + count].copy_from_slice(&bytes[..count]);
    }
}
