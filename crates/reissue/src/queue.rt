//! Up to sixteen pending requests in a fixed order.

ghost use Rattle.std.specs.Prelude.{◌≡◌, ◌+◌, ◌<◌, ◌≤◌, ◌∷◌, ◌++◌, [], length, remove, IfOk, slice_get, slice_index_or, Some, position};
ghost use Rattle.std.specs.Prelude.{take, ◌==◌, ◌^◌, vec_capacity};
ghost use Rattle.std.specs.List.{list_any};
ghost use Rattle.reissue.specs.Entries.{meets};

use crate::pending::Pending;
use slab::Slab;
use std::alloc::{AllocError, Global};
use std::marker::Model;
use std::mem;

/// How many requests may be pending.
pub const PLACES: usize = 16;

/// A list of pending requests, at most sixteen: contracts see that list. Its memory is taken when it is made. A request goes in and out by
/// the pointer to its room.
#[derive(Drop)]
pub struct Queue {
    entries: Slab<Box<Pending>>,
    // The places of the entries, in their order.
    keys: Vec<usize>,
    // Rooms for as many as may still come.
    spare: Vec<Box<Pending>>,
}

impl Model for Queue {
    ghost use Rattle.std.specs.Prelude.{List, vec_capacity};
    ghost use Rattle.reissue.specs.declared.pending.Pending.{Pending};

    ghost Value = { List Pending };

    ghost use Rattle.reissue.specs.Queue.{entries_at, IsQueue};

    ghost view = { λ q. entries_at q.entries q.keys.items };

    ghost invariant = { λ q. IsQueue q.entries q.keys.items (vec_capacity q.keys) q.spare.items (vec_capacity q.spare) };
}

/// Rooms for sixteen requests.
fn rooms(alloc: Global) -> Result<Vec<Box<Pending>>, AllocError>
    ensures count { IfOk result (λ rooms. length rooms.items ≡ 16) }
    ensures room { IfOk result (λ rooms. 16 ≤ vec_capacity rooms) }
{
    let mut rooms = Vec::with_capacity(alloc, PLACES)?;
    for _ in 0..PLACES {
        rooms.push_reserved(Box::new(alloc, Pending::unused())?);
    }
    Ok(rooms)
}

impl Queue {
    /// An empty list, with room for all.
    pub fn new(alloc: Global) -> Result<Queue, AllocError>
        ensures { IfOk result (λ q. q ≡ []) }
    {
        Ok(Queue {
            entries: Slab::with_capacity(alloc, PLACES)?,
            keys: Vec::with_capacity(alloc, PLACES)?,
            spare: rooms(alloc)?,
        })
    }

    /// How many there are.
    pub fn len(&self) -> usize
        ensures { result ≡ length self.now }
    {
        self.keys.len()
    }

    /// The one at this place.
    pub fn get(&self, at: usize) -> &Pending
        requires { at < length self.now }
        ensures { result.now ≡ slice_index_or self.now at result.now }
    {
        match self.entries.get(self.keys[at]) {
            Some(entry) => &**entry,
            None => unreachable!(),
        }
    }

    /// Where the first of the leading `within` that is under this id stands.
    pub fn find(&self, id: u64, within: usize) -> Option<usize>
        requires { within ≤ length self.now }
        ensures { result ≡ position (λ p. p.request.id == id) (take within self.now) }
    {
        for at in 0..within {
            if self.get(at).request.id == id {
                return Some(at);
            }
        }
        None
    }

    /// Whether a byte of this range is in the range of one, as it was asked for.
    pub fn meets(&self, start: u64, size: u32) -> bool
        requires { start + size < 2 ^ 63 }
        ensures { result ≡ list_any (meets start size) self.now }
    {
        for at in 0..self.len() {
            if self.get(at).meets(start, size) {
                return true;
            }
        }
        false
    }

    /// Puts the one in hand at the end; another room is in hand then.
    pub fn push(&mut self, hand: &mut Box<Pending>)
        requires { length self.old < 16 }
        ensures { self.new ≡ self.old ++ hand.old.value ∷ [] }
    {
        let Some(room) = self.spare.pop() else {
            unreachable!()
        };
        let entry = mem::replace(hand, room);
        let key = self.entries.insert_reserved(entry);
        self.keys.push_reserved(key);
    }

    /// Takes the one at this place in hand; the others stay in order. What was in hand is let go.
    pub fn remove(&mut self, at: usize, hand: &mut Box<Pending>)
        requires { at < length self.old }
        ensures items { self.new ≡ remove self.old at }
        ensures value { hand.new.value ≡ slice_index_or self.old at hand.new.value }
    {
        let key = self.keys.remove(at);
        let entry = self.entries.remove(key);
        self.spare.push_reserved(mem::replace(hand, entry));
    }
}
