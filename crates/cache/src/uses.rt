//! The order in which places were used last.

ghost use Rattle.std.specs.Prelude.{◌≡◌, ◌<◌, ◌≤◌, ◌+◌, ◌^◌, IfOk, length, slice_index};
ghost use Rattle.std.specs.Bool.{OnTrue, OnFalse};
ghost use Rattle.cache.specs.Uses.{AllBelow, IsNewest, IsLonger, IsUsedLast, KeepsOrder, OthersKeep, rank};

use std::alloc::{AllocError, Global};
use std::mem;

/// 2 to the power of 62: each use has a lower number.
pub(crate) const MOST_USES: u64 = 0x4000_0000_0000_0000;

/// Places that each have the number of their last use: a lower one was used longer ago.
#[derive(Drop)]
pub(crate) struct Uses {
    /// The number of each place's last use.
    pub numbers: Vec<u64>,
    /// How many places there may be: 4096 at most.
    pub limit: usize,
    // Where the numbers are made anew.
    spare: Vec<u64>,
    // The number of the next use.
    next: u64,
    // The place that was used last.
    newest: usize,
    ghost below: { AllBelow numbers.items next },
    ghost bound: { next ≤ 2 ^ 62 },
    ghost few: { length numbers.items ≤ limit },
    ghost most: { limit ≤ 4096 },
    ghost paired: { length spare.items ≡ length numbers.items },
    ghost last: { IsNewest numbers.items newest },
}

/// How many of these numbers are lower.
fn rank(numbers: &[u64], number: u64) -> u64
    ensures { result ≡ rank number numbers.now }
{
    numbers.iter().filter(|other| **other < number).count() as u64
}

impl Uses {
    /// So many places, of as many as `limit`, as if each was used after the one below it.
    pub(crate) fn new(alloc: Global, count: usize, limit: usize) -> Result<Uses, AllocError>
        requires few { count ≤ limit }
        requires most { limit ≤ 4096 }
        ensures count { IfOk result (λ u. length u.numbers.items ≡ count) }
        ensures limit { IfOk result (λ u. u.limit ≡ limit) }
    {
        let mut numbers = vec![in alloc; 0; count]?;
        for at in 0..count {
            numbers[at] = at as u64;
        }
        Ok(Uses {
            numbers,
            limit,
            spare: vec![in alloc; 0; count]?,
            next: count as u64,
            newest: count.saturating_sub(1),
        })
    }

    /// The same places, and behind them others, so many in all: those were never used, and have the number 0.
    pub(crate) fn longer(&self, alloc: Global, count: usize) -> Result<Uses, AllocError>
        requires some { 1 < length self.now.numbers.items }
        requires more { length self.now.numbers.items ≤ count }
        requires few { count ≤ self.now.limit }
        ensures numbers { IfOk result (λ u. IsLonger self.now.numbers.items u.numbers.items count) }
        ensures limit { IfOk result (λ u. u.limit ≡ self.now.limit) }
    {
        let mut numbers = Vec::from_slice(alloc, &self.numbers)?;
        numbers.resize(count, 0)?;
        Ok(Uses {
            numbers,
            limit: self.limit,
            spare: vec![in alloc; 0; count]?,
            next: self.next,
            newest: self.newest,
        })
    }

    /// The number of a place's last use.
    #[inline]
    pub(crate) fn number(&self, at: usize) -> u64
        requires { at < length self.now.numbers.items }
        ensures number { slice_index self.now.numbers.items at ≡ result }
        ensures bound { result < 2 ^ 62 }
    {
        self.numbers[at]
    }

    /// Whether this place was used after all others.
    #[inline]
    pub(crate) fn is_newest(&self, at: usize) -> bool
        ensures { OnTrue result (IsUsedLast self.now.numbers.items self.now.numbers.items at) }
    {
        at == self.newest
    }

    /// This place is used now. True where all places were numbered anew.
    #[inline]
    pub(crate) fn touch(&mut self, at: usize) -> bool
        requires { at < length self.old.numbers.items }
        ensures used { IsUsedLast self.old.numbers.items self.new.numbers.items at }
        ensures limit { self.new.limit ≡ self.old.limit }
        ensures others { OnFalse result (OthersKeep self.old.numbers.items self.new.numbers.items at) }
    {
        let anew = self.next == MOST_USES;
        if anew {
            self.renumber();
        }
        self.numbers[at] = self.next;
        self.next += 1;
        self.newest = at;
        anew
    }

    /// Numbers all places anew, in their order.
    #[inline(never)]
    fn renumber(&mut self)
        ensures order { KeepsOrder self.old.numbers.items self.new.numbers.items }
        ensures next { self.new.next ≡ length self.old.numbers.items + 1 }
        ensures limit { self.new.limit ≡ self.old.limit }
    {
        for at in 0..self.numbers.len() {
            self.spare[at] = rank(&self.numbers, self.numbers[at]) + 1;
        }
        mem::swap(&mut self.numbers, &mut self.spare);
        self.next = self.numbers.len() as u64 + 1;
    }
}
