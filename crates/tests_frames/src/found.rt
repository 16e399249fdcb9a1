//! Where a block's frame is found, and how many entries of the index are compared.
ghost use Rattle.cache.specs.Calls.{caching};
ghost use Rattle.fixtures.specs.Caches.{IsOfBlocks};

use crate::caches::{Given, cache_over};
use cache::Cache;
use fixtures::frames::{fetch_each, fresh_each};
use reissue::Link;
use std::alloc::Global;
use std::test::Fail;
use step_count::Steps;

/// What is done with a cache.
enum Step {
    /// These blocks are fetched, and each is given.
    Fetch(&'static [u32]),
    /// Blocks, from the first one up to another one, get frames of zero bytes, and each is given.
    Fresh(u32, u32),
    /// A block is forgotten.
    Forget(u32),
    /// A block is looked up: whether it has a frame, and how many entries are compared.
    Find(u32, bool, u64),
    /// Blocks, from the first one up to another one, are looked up, and each has a frame: how many entries are compared for one at most.
    FindEach(u32, u32, u64),
}

/// Whether a block has a frame, which is its own, and how many entries were compared.
fn found<L: Link>(cache: &Cache<L>, block: u32) -> (bool, u64) {
    let mut steps = Steps::new();
    let is_there = match cache.find(block, &mut steps) {
        Some(frame) => frame.block == block,
        None => false,
    };
    (is_there, steps.count())
}

/// How many entries were compared at most for one of these blocks; none where one has no frame.
fn most_compared<L: Link>(cache: &Cache<L>, first: u32, end: u32) -> Option<u64> {
    let mut most = 0;
    for block in first..end {
        let (is_there, compared) = found(cache, block);
        if !is_there {
            return None;
        }
        most = compared.max(most);
    }
    Some(most)
}

/// Does a step; whether it came out as it says.
fn does<L: Link>(cache: &mut Cache<L>, step: &Step) -> bool
    requires { IsOfBlocks 512 (caching L.Link cache.old) }
    ensures { IsOfBlocks 512 (caching L.Link cache.new) }
{
    match step {
        Step::Fetch(blocks) => fetch_each(cache, blocks) as usize == blocks.len(),
        Step::Fresh(first, end) => fresh_each(cache, *first, *end) == end.saturating_sub(*first),
        Step::Forget(block) => {
            cache.forget(*block);
            true
        }
        Step::Find(block, is_there, compared) => found(cache, *block) == (*is_there, *compared),
        Step::FindEach(first, end, most) => most_compared(cache, *first, *end) == Some(*most),
    }
}

/// Does these steps, up to the first that comes out otherwise.
fn first_other<L: Link>(cache: &mut Cache<L>, steps: &[Step]) -> Option<usize>
    requires { IsOfBlocks 512 (caching L.Link cache.old) }
{
    let mut done = 0usize;
    for step in steps {
        if !does(cache, step) {
            return Some(done);
        }
        done = done.saturating_add(1);
    }
    None
}

/// A cache's frames, what its link gives, and what is done with it.
type Row = (u32, Given, &'static [Step]);

static ROWS: [Row; 3] = [
    // blocks out of order, in an index of 0 to 3 entries; one is forgotten, one that was changed isn't
    (
        16,
        (true, &[Some(0); 3]),
        &[
            Step::Find(5, false, 0),
            Step::Fetch(&[5]),
            Step::Find(5, true, 1),
            Step::Find(4, false, 1),
            Step::Find(6, false, 1),
            Step::Fetch(&[3]),
            Step::Find(5, true, 1),
            Step::Find(3, true, 2),
            Step::Find(4, false, 2),
            Step::Find(6, false, 1),
            Step::Fetch(&[4294967295]),
            Step::Find(5, true, 1),
            Step::Find(3, true, 2),
            Step::Find(4294967295, true, 2),
            Step::Find(9, false, 2),
            Step::Forget(9),
            Step::Forget(5),
            Step::Find(5, false, 2),
            Step::Find(4294967295, true, 1),
            Step::Find(3, true, 2),
            Step::Fresh(4, 5),
            Step::Forget(4),
            Step::Find(4, true, 1),
        ],
    ),
    // all frames are in use, and what was used longest ago goes; a look-up is no use
    (
        16,
        (true, &[Some(0); 18]),
        &[
            Step::Fetch(&[14, 30, 2, 26, 10, 22, 6, 18, 0, 28, 4, 24, 8, 20, 12, 16]),
            Step::Find(16, true, 1),
            Step::Find(0, true, 5),
            Step::Find(30, true, 4),
            Step::Find(14, true, 4),
            Step::Find(17, false, 4),
            Step::Find(31, false, 4),
            Step::Fetch(&[17]),
            Step::Find(14, false, 4),
            Step::Find(17, true, 1),
            Step::Find(16, true, 4),
            Step::Fetch(&[1]),
            Step::Find(30, false, 4),
            Step::Find(1, true, 4),
        ],
    ),
    // the most frames, of which 256 are in use
    (
        4096,
        (false, &[]),
        &[
            Step::Fresh(2, 258),
            Step::Find(130, true, 1),
            Step::Find(2, true, 9),
            Step::Find(257, true, 8),
            Step::Find(258, false, 8),
            Step::FindEach(2, 258, 9),
        ],
    ),
];

#[test]
fn blocks_are_found_by_halves(rt: HostRuntime) -> Result<(), Fail> {
    for (number, (frames, given, steps)) in ROWS.iter().enumerate() {
        let mut cache = cache_over(rt.alloc(), *frames, given)??;
        if let Some(step) = first_other(&mut cache, steps) {
            return Err(Fail::new(format_args!("step {step} of row {number}")));
        }
    }
    Ok(())
}
