//! All slots of a cache.

ghost use Rattle.std.specs.Prelude.{◌≡◌, ◌⊎◌, ◌<◌, ◌≤◌, ◌+◌, ◌*◌, ◌^◌, ℕ, true, IfOk, OnOk, OnErr, Some, None, slice_get, slice_index, length};
ghost use Rattle.std.specs.Bool.{OnTrue, OnFalse};
ghost use Rattle.std.specs.VecDeque.{deque_capacity};
ghost use Rattle.cache.specs.Slots.{held, is_dirty_held, lower_of, AllFree, IsDistinct, NoneDirtyBelow, AreOpenWithin};
ghost use Rattle.cache.specs.Index.{IsIndexOf};
ghost use Rattle.cache.specs.Uses.{IsUsedLast};
ghost use Rattle.cache.specs.Order.{IsRanked, IsRankedBut};

use crate::index::Index;
use crate::slot::{Slot, clear, put, zeros};
use crate::state::State;
use crate::tournament::Tournament;
use crate::uses::Uses;
use reissue::Ticket;
use std::alloc::{AllocError, Global};
use step_count::Steps;

/// How many slots there are at first, if there may be so many.
const FIRST: usize = 64;
/// How many more slots are made at once, at most.
const MOST_MORE: usize = 256;

/// All slots; no block has two. They are made as they are wanted: there are 64 at first, and never more than a limit.
#[derive(Drop)]
pub struct Slots {
    items: Vec<Slot>,
    // When each was used last.
    uses: Uses,
    // Which goes next: the keys are the slots' turns.
    winners: Tournament,
    // Where each block stands.
    index: Index,
    // The block that the search for a dirty slot begins at: none below it has one.
    search_from: u32,
    // The slots with a write under way stand from the first of these places on, and before the second.
    open_from: usize,
    open_to: usize,
    /// Room for a block that is in no slot: a read's bytes come here, and go into a slot by its pointer.
    pub spare: Box<[u8; 4096]>,
    pub ghost distinct: { IsDistinct items.items },
    pub ghost some: { 1 < length items.items },
    pub ghost few: { length items.items ≤ 4096 },
    pub ghost indexed: { IsIndexOf index.entries.items items.items },
    pub ghost room: { length items.items ≤ deque_capacity index.entries },
    pub ghost paired: { length uses.numbers.items ≡ length items.items },
    pub ghost ranked: { IsRanked items.items uses.numbers.items winners.keys.items },
    pub ghost skipped: { NoneDirtyBelow items.items search_from },
    pub ghost opened: { AreOpenWithin items.items open_from open_to },
}

/// Where the search for a dirty slot begins once this block has one too, where it began at `from` before.
#[inline]
fn lowered(from: u32, block: Option<u32>) -> u32
    ensures { result ≡ lower_of from block }
{
    match block {
        Some(block) => from.min(block),
        None => from,
    }
}

/// So many slots, all free.
fn free_slots(alloc: Global, count: usize) -> Result<Vec<Slot>, AllocError>
    ensures free { IfOk result (λ v. AllFree v.items) }
    ensures count { IfOk result (λ v. length v.items ≡ count) }
{
    let mut items = Vec::new(alloc);
    'free: for _ in 0..count {
        items.push(Slot::free(alloc)?)?;
    }
    Ok(items)
}

/// Gives each slot the key of its eviction rank.
#[inline(never)]
fn rank_all(winners: &mut Tournament, items: &[Slot], uses: &Uses)
    requires count { length winners.old.keys.items ≡ length items.now }
    requires paired { length uses.now.numbers.items ≡ length items.now }
    ensures { IsRanked items.now uses.now.numbers.items winners.new.keys.items }
{
    for at in 0..items.len() {
        let key = items[at].eviction_rank(uses.number(at));
        winners.set(at, key);
    }
}

/// The slot there, which may have been changed, is used now.
#[inline]
fn use_now(uses: &mut Uses, winners: &mut Tournament, items: &[Slot], at: usize)
    requires at { at < length items.now }
    requires paired { length uses.old.numbers.items ≡ length items.now }
    requires others { IsRankedBut at items.now uses.old.numbers.items winners.old.keys.items }
    ensures ranked { IsRanked items.now uses.new.numbers.items winners.new.keys.items }
    ensures used { IsUsedLast uses.old.numbers.items uses.new.numbers.items at }
    ensures limit { uses.new.limit ≡ uses.old.limit }
{
    if uses.touch(at) {
        rank_all(winners, items, uses);
    } else {
        let key = items[at].eviction_rank(uses.number(at));
        winners.set(at, key);
    }
}

impl Slots {
    ghost use Rattle.std.specs.Prelude.{min};
    ghost use Rattle.cache.specs.Order.{Free, IsNone, IsVictim, IsDue};
    ghost use Rattle.cache.specs.Growing.{IsGrown};
    ghost use Rattle.cache.specs.Edits.{IsSetAt, IsFilledAt, IsBlankedAt, IsChangedAt, IsAt, IsPlaceOf, IsNextOf, IsWritten, AllStay, AllClean};
    ghost use Rattle.cache.specs.Edits.{SomeUnclean, IsLowestOf, IsLowestBlock, IsRunEnd, AreDirty, AreBegun, Leaves, after_write};
    ghost use Rattle.cache.specs.Runs.{IsCopied, AreGathered};

    /// Slots, all free: the first of so many.
    pub fn new(alloc: Global, limit: usize) -> Result<Slots, AllocError>
        requires some { 1 < limit }
        requires few { limit ≤ 4096 }
        ensures free { IfOk result (λ s. (b : ℕ) → held s.items.items b ≡ None) }
        ensures count { IfOk result (λ s. length s.items.items ≡ min limit 64) }
        ensures limit { IfOk result (λ s. s.uses.limit ≡ limit) }
    {
        let count = limit.min(FIRST);
        let items = free_slots(alloc, count)?;
        let uses = Uses::new(alloc, count, limit)?;
        let mut winners = Tournament::new(alloc, count)?;
        rank_all(&mut winners, &items, &uses);
        Ok(Slots {
            items,
            uses,
            winners,
            index: Index::new(alloc, count)?,
            search_from: u32::MAX,
            open_from: usize::MAX,
            open_to: 0,
            spare: Box::new(alloc, zeros())?,
        })
    }

    /// Makes more slots, where each one holds a block and there may be more: as many as there are, 256 at most. False where there was no
    /// memory for them; then those that are there serve.
    pub fn grow(&mut self) -> bool
        ensures grown { IsGrown self.old self.new }
        ensures spare { self.new.spare ≡ self.old.spare }
        ensures enough { OnTrue result (IsNone Free self.new.items.items self.new.uses.numbers.items
            → length self.new.items.items ≡ self.new.uses.limit) }
        ensures refused { OnFalse result (self.new.items.items ≡ self.old.items.items) }
    {
        let there = self.items.len();
        if there == self.uses.limit || self.get(self.victim()).block.is_none() {
            return true;
        }
        let more = there.min(MOST_MORE).min(self.uses.limit - there);
        self.add(more).is_ok()
    }

    /// Makes so many more slots, all free. All memory is taken first.
    fn add(&mut self, more: usize) -> Result<(), AllocError>
        requires some { 0 < more }
        requires few { length self.old.items.items + more ≤ self.old.uses.limit }
        requires wanted { IsNone Free self.old.items.items self.old.uses.numbers.items }
        ensures grown { IsGrown self.old self.new }
        ensures spare { self.new.spare ≡ self.old.spare }
        ensures count { OnOk result (length self.new.items.items ≡ length self.old.items.items + more) }
        ensures longer { OnOk result (length self.old.items.items < length self.new.items.items) }
        ensures refused { OnErr result (self.new.items.items ≡ self.old.items.items) }
    {
        let alloc = *self.items.allocator();
        let count = self.items.len() + more;
        let uses = self.uses.longer(alloc, count)?;
        let mut winners = Tournament::new(alloc, count)?;
        self.index.reserve(count)?;
        let mut slots = free_slots(alloc, more)?;
        self.items.append(&mut slots)?;
        rank_all(&mut winners, &self.items, &uses);
        self.uses = uses;
        self.winners = winners;
        Ok(())
    }

    /// Where this block stands. A step is an entry of the index that is compared.
    #[inline]
    pub fn find(&self, block: u32, steps: &mut Steps) -> Option<usize>
        ensures place { IsPlaceOf result self.now.items.items block }
        ensures cost { steps.new ≤ steps.old + 13 }
    {
        self.index.find(block, steps)
    }

    /// The slot that goes next: a free one; where none is free, of the clean ones the one used longest ago; where none is clean, of all.
    pub fn victim(&self) -> usize
        ensures in_range { result < length self.now.items.items }
        ensures chosen { IsVictim self.now.items.items self.now.uses.numbers.items result }
    {
        self.winners.first()
    }

    /// The block of the slot that goes next, where its bytes were changed and no write of them is under way.
    #[inline]
    pub fn due(&self) -> Option<u32>
        ensures { IsDue result self.now.items.items self.now.uses.numbers.items }
    {
        self.get(self.victim()).dirty_block()
    }

    /// Whether the bytes of each slot with a block are the disk's.
    pub fn is_clean(&self) -> bool
        ensures clean { OnTrue result (AllClean (held self.now.items.items)) }
        ensures unclean { OnFalse result (SomeUnclean (held self.now.items.items)) }
    {
        !self.winners.any_late()
    }

    /// The dirty slot with the lowest block.
    pub fn lowest_dirty(&self) -> Option<usize>
        ensures { IsLowestOf result self.now.items.items }
    {
        self.next_dirty(self.search_from)
    }

    /// The dirty slot with the lowest block of those from this one on.
    pub fn next_dirty(&self, from: u32) -> Option<usize>
        ensures { IsNextOf result self.now.items.items from }
    {
        for nth in self.index.start(from)..self.index.len() {
            let at = self.index.place(nth);
            if self.get(at).state.is_dirty() {
                return Some(at);
            }
        }
        None
    }

    /// The lowest block with a dirty slot.
    pub fn lowest_block(&self) -> Option<u32>
        ensures { IsLowestBlock result (held self.now.items.items) }
    {
        match self.lowest_dirty() {
            Some(at) => self.get(at).block,
            None => None,
        }
    }

    /// Whether the block so many past this one has a dirty slot.
    fn is_dirty_past(&self, block: u32, past: u32) -> bool
        ensures dirty { OnTrue result (is_dirty_held (held self.now.items.items (block + past)) ≡ true) }
        ensures bound { OnTrue result (block + past < 2 ^ 32) }
        ensures end { OnFalse result (IsRunEnd (held self.now.items.items) (block + past)) }
    {
        let Some(next) = block.checked_add(past) else {
            return false;
        };
        match self.find(next, &mut Steps::new()) {
            Some(at) => self.get(at).state.is_dirty(),
            None => false,
        }
    }

    /// How many neighbouring blocks from this one on, whose slot is dirty, have dirty slots: `most` at most.
    pub fn dirty_from(&self, block: u32, most: u32) -> u32
        requires some { 0 < most }
        requires first { is_dirty_held (held self.now.items.items block) ≡ true }
        requires bound { block < 2 ^ 32 }
        ensures some { 0 < result }
        ensures few { result ≤ most }
        ensures dirty { AreDirty (held self.now.items.items) block result }
        ensures bound { block + result ≤ 2 ^ 32 }
        ensures end { (result ≡ most) ⊎ IsRunEnd (held self.now.items.items) (block + result) }
    {
        for count in 1..most {
            if !self.is_dirty_past(block, count) {
                return count;
            }
        }
        most
    }

    /// Where a block stands that has a dirty slot.
    fn dirty_at(&self, block: u32) -> usize
        requires { is_dirty_held (held self.now.items.items block) ≡ true }
        ensures { IsAt self.now.items.items result block }
    {
        match self.find(block, &mut Steps::new()) {
            Some(at) => at,
            None => unreachable!(),
        }
    }

    /// Copies the bytes of a block that has a dirty slot to this place.
    fn copy(&self, block: u32, size: usize, to: &mut [u8; 4096], from: usize)
        requires dirty { is_dirty_held (held self.now.items.items block) ≡ true }
        requires within { from + size ≤ 4096 }
        ensures copied { IsCopied (held self.now.items.items block) size from to.old to.new }
    {
        let slot = self.get(self.dirty_at(block));
        put(to, from, &slot.bytes[..size]);
    }

    /// Copies the bytes of so many neighbouring blocks from this one on, which have dirty slots, to the front of `into`, one block after the
    /// other.
    pub fn gather(&self, block: u32, count: u32, size: u32, into: &mut [u8; 4096])
        requires dirty { AreDirty (held self.now.items.items) block count }
        requires bound { block + count ≤ 2 ^ 32 }
        requires fits { count * size ≤ 4096 }
        ensures { AreGathered (held self.now.items.items) block count size into.new }
    {
        let mut from = 0;
        for past in 0..count {
            self.copy(block + past, size as usize, into, from);
            from += size as usize;
        }
    }

    /// The writes of so many neighbouring blocks from this one on, which have dirty slots, are begun under this ticket.
    pub fn set_writing(&mut self, block: u32, count: u32, ticket: Ticket)
        requires dirty { AreDirty (held self.old.items.items) block count }
        requires bound { block + count ≤ 2 ^ 32 }
        ensures begun { AreBegun block count ticket (held self.old.items.items) (held self.new.items.items) }
        ensures leaves { Leaves self.old.items.items self.new.items.items }
        ensures uses { self.new.uses ≡ self.old.uses }
    {
        for past in 0..count {
            let at = self.dirty_at(block + past);
            self.set_state(at, State::Writing(ticket));
        }
        self.raise();
    }

    /// The write of the slot there is begun under this ticket.
    pub fn begin_write(&mut self, at: usize, ticket: Ticket)
        requires { at < length self.old.items.items }
        ensures set { IsSetAt self.old.items.items self.new.items.items at (λ s. record s { state = State.Writing ticket }) }
        ensures uses { self.new.uses ≡ self.old.uses }
    {
        let begun = State::Writing(ticket);
        self.set_state(at, begun);
        self.raise();
    }

    /// The search for a dirty slot begins at the lowest block that has one.
    fn raise(&mut self)
        ensures items { self.new.items.items ≡ self.old.items.items }
        ensures uses { self.new.uses ≡ self.old.uses }
    {
        self.search_from = self.lowest_block().unwrap_or(u32::MAX);
    }

    /// A slot is used now.
    #[inline]
    pub fn touch(&mut self, at: usize)
        requires { at < length self.old.items.items }
        ensures items { self.new.items.items ≡ self.old.items.items }
        ensures used { IsUsedLast self.old.uses.numbers.items self.new.uses.numbers.items at }
        ensures limit { self.new.uses.limit ≡ self.old.uses.limit }
    {
        if !self.uses.is_newest(at) {
            use_now(&mut self.uses, &mut self.winners, &self.items, at);
        }
    }

    /// The slot at this place.
    #[inline]
    pub fn get(&self, at: usize) -> &Slot
        requires { at < length self.now.items.items }
        ensures { slice_get self.now.items.items at ≡ Some result.now }
    {
        &self.items[at]
    }

    /// Gives the bytes there another state.
    pub fn set_state(&mut self, at: usize, state: State)
        requires { at < length self.old.items.items }
        ensures set { IsSetAt self.old.items.items self.new.items.items at (λ s. record s { state = state }) }
        ensures uses { self.new.uses ≡ self.old.uses }
        ensures spare { self.new.spare ≡ self.old.spare }
    {
        let slot = &mut self.items[at];
        slot.state = state;
        self.search_from = lowered(self.search_from, slot.dirty_block());
        slot.widen(at, &mut self.open_from, &mut self.open_to);
        let key = slot.eviction_rank(self.uses.number(at));
        self.winners.set(at, key);
    }

    /// The write with this ticket was answered good.
    pub fn settle(&mut self, ticket: Ticket)
        ensures written { IsWritten ticket self.old.items.items self.new.items.items }
        ensures stay { AllStay self.old self.new }
        ensures spare { self.new.spare ≡ self.old.spare }
    {
        let mut from = usize::MAX;
        let mut to = 0;
        for at in self.open_from..self.open_to {
            self.settle_at(at, ticket);
            self.get(at).widen(at, &mut from, &mut to);
        }
        self.open_from = from;
        self.open_to = to;
    }

    /// The write with this ticket was answered good: what becomes of the slot there.
    fn settle_at(&mut self, at: usize, ticket: Ticket)
        requires { at < length self.old.items.items }
        ensures set { IsSetAt self.old.items.items self.new.items.items at (after_write ticket) }
        ensures uses { self.new.uses ≡ self.old.uses }
        ensures spare { self.new.spare ≡ self.old.spare }
    {
        let slot = self.get(at);
        if slot.is_under(ticket) {
            let state = slot.state;
            self.set_state(at, state.written());
        }
    }

    /// Takes the block out of a slot.
    pub fn vacate(&mut self, at: usize)
        requires { at < length self.old.items.items }
        ensures set { IsSetAt self.old.items.items self.new.items.items at (λ s. record s { block = None }) }
        ensures uses { self.new.uses ≡ self.old.uses }
        ensures count { length self.new.items.items ≡ length self.old.items.items }
        ensures spare { self.new.spare ≡ self.old.spare }
    {
        let slot = &mut self.items[at];
        let Some(block) = slot.block else {
            return;
        };
        slot.block = None;
        let key = slot.eviction_rank(self.uses.number(at));
        self.index.remove(block);
        self.winners.set(at, key);
    }

    /// Makes the bytes of the spare room zero, where they lie.
    pub fn clear_spare(&mut self)
        ensures zero { (o : ℕ) → slice_index self.new.spare.value o ≡ 0 }
        ensures rest { self.new ≡ record self.old { spare = self.new.spare } }
    {
        clear(&mut self.spare);
    }

    /// Gives a slot to a block that has none: the spare room goes into it, and the room that it had is spare then. No byte is copied.
    pub fn fill(&mut self, at: usize, block: u32, state: State)
        requires at { at < length self.old.items.items }
        requires free { held self.old.items.items block ≡ None }
        ensures filled { IsFilledAt self.old.items.items self.new.items.items at block self.old.spare.value state }
        ensures used { IsUsedLast self.old.uses.numbers.items self.new.uses.numbers.items at }
        ensures count { length self.new.items.items ≡ length self.old.items.items }
        ensures limit { self.new.uses.limit ≡ self.old.uses.limit }
    {
        self.vacate(at);
        self.index.insert(block, at as u32);
        let slot = &mut self.items[at];
        slot.hold(block, &mut self.spare, state);
        self.search_from = lowered(self.search_from, slot.dirty_block());
        slot.widen(at, &mut self.open_from, &mut self.open_to);
        use_now(&mut self.uses, &mut self.winners, &self.items, at);
    }

    /// Gives a slot zero bytes.
    pub fn blank(&mut self, at: usize)
        requires { at < length self.old.items.items }
        ensures blanked { IsBlankedAt self.old.items.items self.new.items.items at }
        ensures used { IsUsedLast self.old.uses.numbers.items self.new.uses.numbers.items at }
        ensures count { length self.new.items.items ≡ length self.old.items.items }
        ensures limit { self.new.uses.limit ≡ self.old.uses.limit }
    {
        let slot = &mut self.items[at];
        // Of a change a clean slot alone becomes dirty.
        self.search_from = lowered(self.search_from, slot.clean_block());
        slot.clear();
        use_now(&mut self.uses, &mut self.winners, &self.items, at);
    }

    /// Changes some bytes of a slot.
    #[inline]
    pub fn change(&mut self, at: usize, from: usize, bytes: &[u8])
        requires at { at < length self.old.items.items }
        requires within { from + length bytes.now ≤ 4096 }
        ensures changed { IsChangedAt self.old.items.items self.new.items.items at from bytes.now }
        ensures uses { self.new.uses ≡ self.old.uses }
        ensures count { length self.new.items.items ≡ length self.old.items.items }
    {
        let slot = &mut self.items[at];
        // Of a change a clean slot alone becomes dirty.
        self.search_from = lowered(self.search_from, slot.clean_block());
        slot.change(from, bytes);
        let key = slot.eviction_rank(self.uses.number(at));
        self.winners.set(at, key);
    }
}
