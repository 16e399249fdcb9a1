//! A slot.

ghost use Rattle.std.specs.Prelude.{◌≡◌, ◌<◌, ◌≤◌, ◌+◌, ◌^◌, ◌-◌, ◌&&◌, ℕ, IfOk, Some, None, slice_index, length, nat_le, nat_lt, if◌then◌else◌};
ghost use Rattle.std.specs.Prelude.{min, max, is_some};
ghost use Rattle.cache.specs.Slots.{is_number, ticket_of, dirtied, is_under, is_dirty_slot, is_unclean_slot, dirty_block, clean_block};
ghost use Rattle.cache.specs.Order.{eviction_rank};

use crate::state::State;
use crate::uses::MOST_USES;
use reissue::Ticket;
use std::alloc::{AllocError, Global};
use std::mem;

/// A block of zero bytes.
pub fn zeros() -> [u8; 4096]
    ensures { (o : ℕ) → slice_index result o ≡ 0 }
{
    [0; 4096]
}

/// Makes these bytes zero, where they lie.
pub(crate) fn clear(bytes: &mut [u8; 4096])
    ensures { (o : ℕ) → slice_index bytes.new o ≡ 0 }
{
    bytes.fill(0);
}

/// Changes bytes to these, from this place on.
pub(crate) fn put(to: &mut [u8; 4096], from: usize, bytes: &[u8])
    requires { from + length bytes.now ≤ 4096 }
    ensures { (o : ℕ) → slice_index to.new o
        ≡ (if nat_le from o && nat_lt o (from + length bytes.now) then slice_index bytes.now (o - from) else slice_index to.old o) }
{
    to[from..from + bytes.len()].copy_from_slice(bytes);
}

/// Room for a block.
#[derive(Drop)]
pub struct Slot {
    /// The block that it holds, if it holds one.
    pub block: Option<u32>,
    /// Its bytes; those past the block's end have no meaning.
    pub bytes: Box<[u8; 4096]>,
    /// What is known of them.
    pub state: State,
}

impl Slot {
    /// A slot that holds no block.
    pub(crate) fn free(alloc: Global) -> Result<Slot, AllocError>
        ensures block { IfOk result (λ s. s.block ≡ None) }
        ensures state { IfOk result (λ s. s.state ≡ State.Clean) }
    {
        Ok(Slot {
            block: None,
            bytes: Box::new(alloc, zeros())?,
            state: State::Clean,
        })
    }

    /// Whether it holds this block.
    pub(crate) fn holds(&self, block: u32) -> bool
        ensures { result ≡ is_number self.now.block block }
    {
        match self.block {
            Some(held) => held == block,
            None => false,
        }
    }

    /// Whether its write that is under way has this ticket.
    pub(crate) fn is_under(&self, ticket: Ticket) -> bool
        ensures { result ≡ is_under ticket self.now }
    {
        match self.state.ticket() {
            Some(known) => known == ticket,
            None => false,
        }
    }

    /// Whether it holds a block whose bytes were changed, and no write of it is under way.
    pub fn is_dirty(&self) -> bool
        ensures { result ≡ is_dirty_slot self.now }
    {
        self.block.is_some() && self.state.is_dirty()
    }

    /// Whether it holds a block whose bytes may not be the disk's.
    pub fn is_unclean(&self) -> bool
        ensures { result ≡ is_unclean_slot self.now }
    {
        self.block.is_some() && !self.state.is_clean()
    }

    /// Its block, if its bytes were changed and no write of it is under way.
    pub(crate) fn dirty_block(&self) -> Option<u32>
        ensures { result ≡ dirty_block self.now }
    {
        if self.state.is_dirty() {
            self.block
        } else {
            None
        }
    }

    /// Its block, if its bytes are the disk's.
    pub(crate) fn clean_block(&self) -> Option<u32>
        ensures { result ≡ clean_block self.now }
    {
        if self.state.is_clean() {
            self.block
        } else {
            None
        }
    }

    /// Its eviction rank to go, where this is the number of its last use: the slot whose eviction rank is lowest goes first.
    pub(crate) fn eviction_rank(&self, number: u64) -> u64
        requires { number < 2 ^ 62 }
        ensures { result ≡ eviction_rank self.now number }
    {
        if self.block.is_none() {
            number
        } else if self.state.is_clean() {
            MOST_USES + number
        } else {
            2 * MOST_USES + number
        }
    }

    /// Widens the range of places from `from` on and before `to` to its own, if its write is under way.
    #[inline]
    pub(crate) fn widen(&self, at: usize, from: &mut usize, to: &mut usize)
        requires { at < 4096 }
        ensures from { from.new ≡ (if is_some (ticket_of self.now.state) then min from.old at else from.old) }
        ensures to { to.new ≡ (if is_some (ticket_of self.now.state) then max to.old (at + 1) else to.old) }
    {
        if self.state.ticket().is_some() {
            *from = (*from).min(at);
            *to = (*to).max(at + 1);
        }
    }

    /// Holds a block from now on, whose bytes stand in this room; what it had before is the room then.
    pub(crate) fn hold(&mut self, block: u32, room: &mut Box<[u8; 4096]>, state: State)
        ensures block { self.new.block ≡ Some block }
        ensures bytes { self.new.bytes ≡ room.old }
        ensures state { self.new.state ≡ state }
        ensures room { room.new ≡ self.old.bytes }
    {
        self.block = Some(block);
        mem::swap(&mut self.bytes, room);
        self.state = state;
    }

    /// Changes its bytes to zero.
    pub(crate) fn clear(&mut self)
        ensures block { self.new.block ≡ self.old.block }
        ensures state { self.new.state ≡ dirtied self.old.state }
        ensures bytes { (o : ℕ) → slice_index self.new.bytes.value o ≡ 0 }
    {
        self.state = self.state.dirtied();
        clear(&mut self.bytes);
    }

    /// Changes these bytes from this place on.
    pub(crate) fn change(&mut self, from: usize, bytes: &[u8])
        requires { from + length bytes.now ≤ 4096 }
        ensures block { self.new.block ≡ self.old.block }
        ensures state { self.new.state ≡ dirtied self.old.state }
        ensures bytes { (o : ℕ) → slice_index self.new.bytes.value o
            ≡ (if nat_le from o && nat_lt o (from + length bytes.now) then slice_index bytes.now (o - from)
            else slice_index self.old.bytes.value o) }
    {
        self.state = self.state.dirtied();
        put(&mut self.bytes, from, bytes);
    }
}
