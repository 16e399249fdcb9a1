//! An index of places by their blocks.

ghost use Rattle.std.specs.Prelude.{◌≡◌, ◌≢◌, ◌<◌, ◌≤◌, ◌+◌, ◌^◌, ℕ, IfOk, IfErr, OnOk, [], Some, None, length, slice_get};
ghost use Rattle.std.specs.VecDeque.{deque_capacity};
ghost use Rattle.cache.specs.Index.{place_in, place_there, IsRising, IsEntryOf, IsGapFor, IsStartOf};

use std::alloc::{AllocError, Global};
use std::collections::VecDeque;
use step_count::Steps;

/// A block and its place: 8 bytes, since an entry more or less moves those on its shorter side.
#[derive(Clone, Copy)]
pub(crate) struct Entry {
    block: u32,
    place: u32,
}

/// The places of blocks, sorted by block. A step is an entry that is compared.
#[derive(Drop)]
pub(crate) struct Index {
    entries: VecDeque<Entry>,
    ghost rising: { IsRising entries.items },
}

impl Index {
    /// An index of no block, with room for so many.
    pub(crate) fn new(alloc: Global, count: usize) -> Result<Index, AllocError>
        ensures none { IfOk result (λ i. i.entries.items ≡ []) }
        ensures room { IfOk result (λ i. deque_capacity i.entries ≡ count) }
    {
        Ok(Index {
            entries: VecDeque::with_capacity(alloc, count)?,
        })
    }

    /// Sees to it that there is room for so many more blocks than it has.
    pub(crate) fn reserve(&mut self, more: usize) -> Result<(), AllocError>
        ensures entries { self.new.entries.items ≡ self.old.entries.items }
        ensures room { deque_capacity self.old.entries ≤ deque_capacity self.new.entries }
        ensures enough { OnOk result (length self.new.entries.items + more ≤ deque_capacity self.new.entries) }
    {
        self.entries.reserve(more)
    }

    /// Where the entry of a block stands, or else where it would.
    fn look(&self, block: u32, steps: &mut Steps) -> Result<usize, usize>
        ensures found { IfOk result (λ at. IsEntryOf self.now.entries.items at block) }
        ensures missing { IfErr result (λ at. IsGapFor self.now.entries.items at block) }
        ensures cost { (k : ℕ) → length self.now.entries.items < 2 ^ k → steps.new ≤ steps.old + k }
    {
        let mut low = 0;
        let mut high = self.entries.len();
        'halves: while low < high {
            let middle = low + (high - low) / 2;
            let entry = self.entries[middle];
            steps.tick();
            if entry.block == block {
                return Ok(middle);
            }
            if entry.block < block {
                low = middle + 1;
            } else {
                high = middle;
            }
        }
        Err(low)
    }

    /// The place of a block.
    pub(crate) fn find(&self, block: u32, steps: &mut Steps) -> Option<usize>
        ensures place { result ≡ place_in self.now.entries.items block }
        ensures cost { (k : ℕ) → length self.now.entries.items < 2 ^ k → steps.new ≤ steps.old + k }
    {
        match self.look(block, steps) {
            Ok(at) => Some(self.entries[at].place as usize),
            Err(_) => None,
        }
    }

    /// How many entries there are.
    pub(crate) fn len(&self) -> usize
        ensures { result ≡ length self.now.entries.items }
    {
        self.entries.len()
    }

    /// Where the entries begin whose blocks aren't below this one.
    pub(crate) fn start(&self, block: u32) -> usize
        ensures { IsStartOf self.now.entries.items result block }
    {
        match self.look(block, &mut Steps::new()) {
            Ok(at) => at,
            Err(at) => at,
        }
    }

    /// The place in the entry there.
    #[inline]
    pub(crate) fn place(&self, at: usize) -> usize
        requires { at < length self.now.entries.items }
        ensures { place_there (slice_get self.now.entries.items at) ≡ Some result }
    {
        self.entries[at].place as usize
    }

    /// Gives a block that has none its place.
    pub(crate) fn insert(&mut self, block: u32, place: u32)
        requires missing { place_in self.old.entries.items block ≡ None }
        requires room { length self.old.entries.items < deque_capacity self.old.entries }
        ensures this { place_in self.new.entries.items block ≡ Some place }
        ensures others { (b : ℕ) → b ≢ block → place_in self.new.entries.items b ≡ place_in self.old.entries.items b }
        ensures count { length self.new.entries.items ≡ length self.old.entries.items + 1 }
        ensures room { deque_capacity self.old.entries ≤ deque_capacity self.new.entries }
    {
        let at = match self.look(block, &mut Steps::new()) {
            Ok(_) => unreachable!(),
            Err(at) => at,
        };
        match self.entries.insert(at, Entry { block, place }) {
            Ok(()) => {}
            Err(_) => unreachable!(),
        }
    }

    /// Takes the place of a block out.
    pub(crate) fn remove(&mut self, block: u32)
        requires { place_in self.old.entries.items block ≢ None }
        ensures this { place_in self.new.entries.items block ≡ None }
        ensures others { (b : ℕ) → b ≢ block → place_in self.new.entries.items b ≡ place_in self.old.entries.items b }
        ensures count { length self.new.entries.items + 1 ≡ length self.old.entries.items }
        ensures room { deque_capacity self.new.entries ≡ deque_capacity self.old.entries }
    {
        let at = match self.look(block, &mut Steps::new()) {
            Ok(at) => at,
            Err(_) => unreachable!(),
        };
        self.entries.remove(at);
    }
}
