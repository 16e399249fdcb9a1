//! Which blocks are read and written, and when.
ghost use Rattle.std.specs.Prelude.{◌≡◌};
ghost use Rattle.cache.specs.Calls.{caching};
ghost use Rattle.fixtures.specs.Caches.{IsOfBlocks};

use crate::caches::{Given, cache_over, is_done};
use cache::{Cache, CacheRefusal};
use fixtures::frames::{fetch_each, fill, fresh_each};
use fixtures::lists::{posts_at_first, started};
use flusher::{flush_some, sync};
use reissue::Link;
use std::alloc::Global;
use std::test::Fail;

/// What is done with a cache.
enum Step {
    /// These blocks are fetched; how many were given.
    Fetch(&'static [u32]),
    /// Blocks, from the first one up to another one, get frames of zero bytes; how many were given.
    Fresh(u32, u32),
    /// A block is filled with this byte; 1 where it was given.
    Fill(u32, u8),
    /// Some of what was changed is written.
    Flush,
    /// All that was changed is written; 1 where that was done.
    Sync,
    /// Whether nothing has to be written; 1 where it is so.
    Clean,
}

/// Does a step; the number that it gives.
fn does<L: Link>(cache: &mut Cache<L>, step: &Step) -> u32
    requires volume { IsOfBlocks 512 (caching L.Link cache.old) }
    requires size { cache.old.shape.block_size ≡ 4096 }
    ensures volume { IsOfBlocks 512 (caching L.Link cache.new) }
    ensures size { cache.new.shape.block_size ≡ 4096 }
{
    match step {
        Step::Fetch(blocks) => fetch_each(cache, blocks),
        Step::Fresh(first, end) => fresh_each(cache, *first, *end),
        Step::Fill(block, byte) => fill(cache, *block, *byte) as u32,
        Step::Flush => {
            flush_some(cache);
            0
        }
        Step::Sync => sync(cache).is_ok() as u32,
        Step::Clean => cache.is_clean() as u32,
    }
}

/// Does these steps, up to the first that gives another number than it says.
fn first_other<L: Link>(cache: &mut Cache<L>, steps: &[(Step, u32)]) -> Option<usize>
    requires volume { IsOfBlocks 512 (caching L.Link cache.old) }
    requires size { cache.old.shape.block_size ≡ 4096 }
{
    let mut done = 0usize;
    for step in steps {
        if does(cache, &step.0) != step.1 {
            return Some(done);
        }
        done = done.saturating_add(1);
    }
    None
}

/// A cache's frames, whether the driver's start is handed over at first, what its link gives, what is done with it, how many requests the
/// link was posted before it gave the first message, and what it was told.
type Row = (
    u32,
    bool,
    Given,
    &'static [(Step, u32)],
    usize,
    &'static str,
);

static ROWS: [Row; 5] = [
    // the frame used longest ago goes
    (
        16,
        false,
        (true, &[Some(0); 18]),
        &[
            (
                Step::Fetch(&[0, 1, 2, 3, 4, 5, 6, 7, 8, 9, 10, 11, 12, 13, 14, 15]),
                16,
            ),
            (Step::Fetch(&[0, 16, 0, 1]), 4),
        ],
        0,
        "read 1 0 4096
read 2 4096 4096
read 3 8192 4096
read 4 12288 4096
read 5 16384 4096
read 6 20480 4096
read 7 24576 4096
read 8 28672 4096
read 9 32768 4096
read 10 36864 4096
read 11 40960 4096
read 12 45056 4096
read 13 49152 4096
read 14 53248 4096
read 15 57344 4096
read 16 61440 4096
read 17 65536 4096
read 18 4096 4096
",
    ),
    // sixteen are written
    (
        32,
        true,
        (false, &[]),
        &[
            (Step::Fresh(10, 30), 20),
            (Step::Flush, 0),
            (Step::Flush, 0),
        ],
        16,
        "write 1 40960 4096 0
write 2 45056 4096 0
write 3 49152 4096 0
write 4 53248 4096 0
write 5 57344 4096 0
write 6 61440 4096 0
write 7 65536 4096 0
write 8 69632 4096 0
write 9 73728 4096 0
write 10 77824 4096 0
write 11 81920 4096 0
write 12 86016 4096 0
write 13 90112 4096 0
write 14 94208 4096 0
write 15 98304 4096 0
write 16 102400 4096 0
",
    ),
    // sixteen are begun before the first take, and then the other four
    (
        32,
        true,
        (false, &[Some(0); 20]),
        &[(Step::Fresh(10, 30), 20), (Step::Sync, 1)],
        16,
        "write 1 40960 4096 0
write 2 45056 4096 0
write 3 49152 4096 0
write 4 53248 4096 0
write 5 57344 4096 0
write 6 61440 4096 0
write 7 65536 4096 0
write 8 69632 4096 0
write 9 73728 4096 0
write 10 77824 4096 0
write 11 81920 4096 0
write 12 86016 4096 0
write 13 90112 4096 0
write 14 94208 4096 0
write 15 98304 4096 0
write 16 102400 4096 0
write 17 106496 4096 0
write 18 110592 4096 0
write 19 114688 4096 0
write 20 118784 4096 0
",
    ),
    // what was changed is written again
    (
        16,
        false,
        (true, &[Some(0); 3]),
        &[
            (Step::Fill(5, 0x31), 1),
            (Step::Flush, 0),
            (Step::Fill(5, 0x32), 1),
            (Step::Sync, 1),
            (Step::Clean, 1),
        ],
        0,
        "read 1 20480 4096\nwrite 2 20480 4096 49\nwrite 3 20480 4096 50\n",
    ),
    // no frame goes while there are fewer than there may be
    (
        300,
        false,
        (true, &[Some(0)]),
        &[
            (Step::Fresh(5, 305), 300),
            (Step::Fetch(&[5, 68, 69, 304]), 4),
            (Step::Fresh(305, 306), 1),
        ],
        0,
        "write 1 24576 4096 0\n",
    ),
];

/// A row comes out as it says.
fn comes_out(alloc: Global, number: usize, row: &Row) -> Result<(), Fail> {
    let (frames, is_handed_over, given, steps, first, lines) = row;
    let mut cache = cache_over(alloc, *frames, given)??;
    if *is_handed_over {
        cache.absorb(started(1));
    }
    let other = first_other(&mut cache, steps);
    is_done(alloc, number, other, cache.link(), lines)?;
    let posts = posts_at_first(cache.link());
    if posts == *first {
        return Ok(());
    }
    Err(Fail::new(format_args!("row {number}: {posts} at first")))
}

/// Numbers of frames, and whether they are refused.
static FRAMES: [(u32, bool); 4] = [(15, true), (16, false), (4096, false), (4097, true)];

/// So many frames are refused, or they aren't.
fn are_counted(alloc: Global) -> Result<(), Fail> {
    for (frames, is_refused) in &FRAMES {
        let made = cache_over(alloc, *frames, &(false, &[]))?;
        if matches!(made, Err(CacheRefusal::BadFrames)) != *is_refused {
            return Err(Fail::new(format_args!("{frames} frames")));
        }
    }
    Ok(())
}

#[test]
fn frames_are_counted_used_and_written(rt: HostRuntime) -> Result<(), Fail> {
    are_counted(rt.alloc())?;
    for (number, row) in ROWS.iter().enumerate() {
        comes_out(rt.alloc(), number, row)?;
    }
    Ok(())
}
