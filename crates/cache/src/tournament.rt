//! Which of many places has the lowest key.

ghost use Rattle.std.specs.Prelude.{◌≡◌, ◌+◌, ◌*◌, ◌<◌, ◌≤◌, ◌==◌, ◌&&◌, nat_lt, IfOk, length, slice_index, slice_set, if◌then◌else◌};
ghost use Rattle.std.specs.Bool.{OnTrue, OnFalse};
ghost use Rattle.cache.specs.Winners.{winner, is_late, late_count, IsBest, IsTree, WasTree, IsLowest, IsNoneLate, IsSomeLate};

use std::alloc::{AllocError, Global};

/// 2 to the power of 63: keys from here on are late.
const LATE: u64 = 0x8000_0000_0000_0000;

/// Places that each have a key, and what comes of a tournament of them, where the lower key wins. With n places each node, from 1 on and
/// below n, has two children, of twice its number and one more: a number from n on is the leaf of the place that is so many past n.
#[derive(Drop)]
pub(crate) struct Tournament {
    /// The key of each place.
    pub keys: Vec<u64>,
    // The place that wins at each node; the first of these numbers has no meaning.
    nodes: Vec<usize>,
    // How many keys are late.
    late: usize,
    ghost tree: { IsTree keys.items nodes.items },
    ghost counted: { late ≡ late_count keys.items },
}

/// 1 for a late key, else 0.
#[inline]
fn late(key: u64) -> usize
    ensures { result ≡ (if is_late key then 1 else 0) }
{
    if key < LATE { 0 } else { 1 }
}

/// The place that wins at a node or a leaf.
#[inline]
fn winner(nodes: &[usize], child: usize) -> usize
    requires { child < 2 * length nodes.now }
    ensures { result ≡ winner nodes.now child }
{
    if child < nodes.len() {
        nodes[child]
    } else {
        child - nodes.len()
    }
}

/// The place that is to win at a node, by the winners at its children.
#[inline]
fn best(nodes: &[usize], keys: &[u64], node: usize) -> usize
    requires node { node < length nodes.now }
    requires left { winner nodes.now (2 * node) < length keys.now }
    requires right { winner nodes.now (2 * node + 1) < length keys.now }
    ensures { IsBest keys.now nodes.now node result }
{
    let left = winner(nodes, 2 * node);
    let right = winner(nodes, 2 * node + 1);
    if keys[left] <= keys[right] {
        left
    } else {
        right
    }
}

/// Finds anew who wins, from the leaf of a place up, after its key was changed: where another place goes on winning at a node, those above
/// it stay.
fn play(nodes: &mut [usize], keys: &[u64], at: usize)
    requires at { at < length keys.now }
    requires was { WasTree at keys.now nodes.old }
    ensures { IsTree keys.now nodes.new }
{
    let mut node = (nodes.len() + at) / 2;
    'up: while 0 < node {
        let place = best(nodes, keys, node);
        if place == nodes[node] && place != at {
            return;
        }
        nodes[node] = place;
        node /= 2;
    }
}

impl Tournament {
    /// So many places, each with the key 0.
    pub(crate) fn new(alloc: Global, count: usize) -> Result<Tournament, AllocError>
        ensures { IfOk result (λ w. length w.keys.items ≡ count) }
    {
        let keys = vec![in alloc; 0; count]?;
        let mut nodes = vec![in alloc; 0; count]?;
        for past in 1..count {
            let node = count - past;
            nodes[node] = winner(&nodes, 2 * node);
        }
        Ok(Tournament {
            keys,
            nodes,
            late: 0,
        })
    }

    /// The place with the lowest key.
    #[inline]
    pub(crate) fn first(&self) -> usize
        requires { 0 < length self.now.keys.items }
        ensures { IsLowest self.now.keys.items result }
    {
        winner(&self.nodes, 1)
    }

    /// Whether a key is late.
    #[inline]
    pub(crate) fn any_late(&self) -> bool
        ensures some { OnTrue result (IsSomeLate self.now.keys.items) }
        ensures none { OnFalse result (IsNoneLate self.now.keys.items) }
    {
        0 < self.late
    }

    /// Whether this key is lower than the one of the place, which wins at the root: it then wins where it did.
    #[inline]
    fn lowers_first(&self, at: usize, key: u64) -> bool
        requires { at < length self.now.keys.items }
        ensures { result ≡ (nat_lt key (slice_index self.now.keys.items at) && (winner self.now.nodes.items 1 == at)) }
    {
        key < self.keys[at] && winner(&self.nodes, 1) == at
    }

    /// Gives a place this key.
    #[inline]
    pub(crate) fn set(&mut self, at: usize, key: u64)
        requires { at < length self.old.keys.items }
        ensures { self.new.keys.items ≡ slice_set self.old.keys.items at key }
    {
        let old = self.keys[at];
        if old == key {
            return;
        }
        let stays = self.lowers_first(at, key);
        self.late = self.late - late(old) + late(key);
        self.keys[at] = key;
        if !stays {
            play(&mut self.nodes, &self.keys, at);
        }
    }
}
