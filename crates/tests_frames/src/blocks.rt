//! What blocks give, and when they are read and written.
ghost use Rattle.std.specs.Prelude.{◌≡◌, ◌<◌, ◌≤◌, ◌+◌, ℕ, length};
ghost use Rattle.fixtures.specs.Caches.{IsOfBlocks};
ghost use Rattle.cached_blocks.specs.World.{stored_caching};

use crate::caches::{Given, cache_over, is_done};
use block_store::words::{clear, read_byte, write_bytes};
use block_store::{Blocks, Cut};
use cached_blocks::{Caches, Stored};
use fixtures::frames::may_change;
use fixtures::lists::started;
use reissue::Link;
use std::alloc::Global;
use std::test::Fail;

/// What is done with blocks.
enum Step {
    /// The byte at a place of a block is read.
    Read(u32, usize),
    /// Three bytes are put into a block, from a place on.
    Put(u32, usize, &'static [u8; 3]),
    /// Each byte of a block becomes this one.
    Replace(u32, u8),
    /// So many blocks are made zero, from the first on; how many were.
    Clear(u32, u32),
    /// All that was changed is written.
    Sync,
    /// It is asked for whether calls go on.
    Live,
    /// What a Flush asks for is begun.
    Flush,
}

/// Makes so many blocks zero, from the first on; how many were: none that may not be changed.
fn clear_run<B: Blocks>(blocks: &mut B, first: u32, count: u32) -> u32
    requires ready { B.world.ready blocks.old }
    requires size { B.world.size blocks.old ≡ 4096 }
    requires inside { (block : ℕ) → 2 ≤ block → block < 512 → B.world.writable blocks.old block }
    ensures ready { B.world.ready blocks.new }
    ensures size { B.world.size blocks.new ≡ 4096 }
    ensures inside { (block : ℕ) → 2 ≤ block → block < 512 → B.world.writable blocks.new block }
{
    let mut cleared = 0u32;
    for nth in 0..count {
        let block = first.saturating_add(nth);
        if may_change(block) && clear(blocks, block).is_ok() {
            cleared = cleared.saturating_add(1);
        }
    }
    cleared
}

/// Puts these bytes into a block, from a place on: 0, and 1 where it may not be changed.
fn put<B: Blocks>(blocks: &mut B, block: u32, from: usize, bytes: &[u8]) -> Result<u32, Cut>
    requires ready { B.world.ready blocks.old }
    requires within { from + length bytes.now ≤ B.world.size blocks.old }
    requires inside { (block : ℕ) → 2 ≤ block → block < 512 → B.world.writable blocks.old block }
    ensures { B.world.leads blocks.old blocks.new }
{
    if !may_change(block) {
        return Ok(1);
    }
    write_bytes(blocks, block, from, bytes)?;
    Ok(0)
}

/// Does a step; the number that it gives. No byte is read or put past a block's end.
fn does<L: Link>(blocks: &mut Stored<L>, step: &Step) -> Result<u32, Cut>
    requires volume { IsOfBlocks 512 (stored_caching L.Link blocks.old) }
    requires size { blocks.old.cache.shape.block_size ≡ 4096 }
    ensures volume { IsOfBlocks 512 (stored_caching L.Link blocks.new) }
    ensures size { blocks.new.cache.shape.block_size ≡ 4096 }
{
    match step {
        Step::Read(block, at) => Ok(read_byte(blocks, *block, at % 4096)? as u32),
        Step::Put(block, from, bytes) => put(blocks, *block, from % 4000, *bytes),
        Step::Replace(block, byte) => put(blocks, *block, 0, &[*byte; 4096]),
        Step::Clear(first, count) => Ok(clear_run(blocks, *first, *count)),
        Step::Sync => {
            blocks.sync()?;
            Ok(0)
        }
        Step::Live => {
            blocks.live()?;
            Ok(0)
        }
        Step::Flush => {
            blocks.flush_wanted();
            Ok(0)
        }
    }
}

/// Does these steps, up to the first that gives another number than it says.
fn first_other<L: Link>(blocks: &mut Stored<L>, steps: &[(Step, Result<u32, Cut>)]) -> Option<usize>
    requires volume { IsOfBlocks 512 (stored_caching L.Link blocks.old) }
    requires size { blocks.old.cache.shape.block_size ≡ 4096 }
{
    let mut done = 0usize;
    for step in steps {
        if does(blocks, &step.0) != step.1 {
            return Some(done);
        }
        done = done.saturating_add(1);
    }
    None
}

/// Whether the driver's start is handed over at first, what the link gives, what is done with blocks in 32 frames, and what the link was
/// told.
type Row = (
    bool,
    Given,
    &'static [(Step, Result<u32, Cut>)],
    &'static str,
);

static ROWS: [Row; 6] = [
    // blocks are read, changed, cleared and written; then the link ends
    (
        false,
        (true, &[Some(7), Some(0), Some(0)]),
        &[
            (Step::Read(5, 4095), Ok(7)),
            (Step::Put(5, 10, b"abc"), Ok(0)),
            (Step::Clear(6, 1), Ok(1)),
            (Step::Read(5, 9), Ok(7)),
            (Step::Read(5, 12), Ok(99)),
            (Step::Read(5, 13), Ok(7)),
            (Step::Read(6, 0), Ok(0)),
            (Step::Sync, Ok(0)),
            (Step::Live, Ok(0)),
            (Step::Read(7, 0), Err(Cut::LinkEnded)),
            (Step::Read(5, 10), Ok(97)),
        ],
        "read 1 20480 4096\nwrite 2 20480 4096 7\nwrite 3 24576 4096 0\nread 4 28672 4096\n",
    ),
    // a block that gets all its bytes isn't read, at hand or not; one that gets some is
    (
        false,
        (true, &[Some(0), Some(7), Some(0), Some(0)]),
        &[
            (Step::Replace(5, 8), Ok(0)),
            (Step::Read(5, 4095), Ok(8)),
            (Step::Sync, Ok(0)),
            (Step::Replace(5, 9), Ok(0)),
            (Step::Read(5, 0), Ok(9)),
            (Step::Put(6, 0, b"abc"), Ok(0)),
            (Step::Read(6, 3), Ok(7)),
            (Step::Replace(6, 1), Ok(0)),
            (Step::Read(6, 3), Ok(1)),
            (Step::Sync, Ok(0)),
        ],
        "write 1 20480 4096 8\nread 2 24576 4096\nwrite 3 20480 4096 9\nwrite 4 24576 4096 1\n",
    ),
    // no Flush came
    (
        false,
        (true, &[Some(0), None, Some(0)]),
        &[
            (Step::Read(5, 0), Ok(0)),
            (Step::Clear(10, 20), Ok(20)),
            (Step::Flush, Ok(0)),
        ],
        "read 1 20480 4096\n",
    ),
    // a Flush that came in the next read begins sixteen writes
    (
        false,
        (true, &[Some(0), None, Some(0)]),
        &[
            (Step::Read(5, 0), Ok(0)),
            (Step::Clear(10, 20), Ok(20)),
            (Step::Flush, Ok(0)),
            (Step::Read(6, 0), Ok(0)),
            (Step::Flush, Ok(0)),
            (Step::Flush, Ok(0)),
        ],
        "read 1 20480 4096
read 2 24576 4096
write 3 40960 4096 0
write 4 45056 4096 0
write 5 49152 4096 0
write 6 53248 4096 0
write 7 57344 4096 0
write 8 61440 4096 0
write 9 65536 4096 0
write 10 69632 4096 0
write 11 73728 4096 0
write 12 77824 4096 0
write 13 81920 4096 0
write 14 86016 4096 0
write 15 90112 4096 0
write 16 94208 4096 0
write 17 98304 4096 0
write 18 102400 4096 0
",
    ),
    // the frame that goes is dirty: sixteen writes are begun, and the next frame that goes is clean
    (
        false,
        (
            true,
            &[
                Some(0),
                Some(0),
                Some(0),
                Some(0),
                Some(0),
                Some(0),
                Some(0),
                Some(0),
                Some(0),
                Some(0),
                Some(0),
                Some(0),
                Some(0),
                Some(0),
                Some(0),
                Some(0),
                Some(7),
                Some(8),
            ],
        ),
        &[
            (Step::Clear(10, 32), Ok(32)),
            (Step::Read(50, 0), Ok(7)),
            (Step::Read(51, 0), Ok(8)),
        ],
        "write 1 40960 4096 0
write 2 45056 4096 0
write 3 49152 4096 0
write 4 53248 4096 0
write 5 57344 4096 0
write 6 61440 4096 0
write 7 65536 4096 0
write 8 69632 4096 0
write 9 73728 4096 0
write 10 77824 4096 0
write 11 81920 4096 0
write 12 86016 4096 0
write 13 90112 4096 0
write 14 94208 4096 0
write 15 98304 4096 0
write 16 102400 4096 0
read 17 204800 4096
read 18 208896 4096
",
    ),
    // a start that was handed over
    (
        true,
        (false, &[Some(9)]),
        &[(Step::Read(5, 0), Ok(9))],
        "read 1 20480 4096\n",
    ),
];

/// A row comes out as it says.
fn comes_out(alloc: Global, number: usize, row: &Row) -> Result<(), Fail> {
    let (is_handed_over, given, steps, lines) = row;
    let mut blocks = Stored::new(cache_over(alloc, 32, given)??);
    if *is_handed_over {
        blocks.absorb(started(1));
    }
    let other = first_other(&mut blocks, steps);
    is_done(alloc, number, other, blocks.link(), lines)
}

#[test]
fn blocks_are_read_and_written(rt: HostRuntime) -> Result<(), Fail> {
    for (number, row) in ROWS.iter().enumerate() {
        comes_out(rt.alloc(), number, row)?;
    }
    Ok(())
}
