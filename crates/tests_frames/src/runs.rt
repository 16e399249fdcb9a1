//! Runs: neighbouring changed blocks, which a flush or a sync writes by one request.
ghost use Rattle.std.specs.Prelude.{◌≤◌, IfOk};
ghost use Rattle.cache.specs.Calls.{caching};
ghost use Rattle.fixtures.specs.Caches.{IsOfBlocks};
ghost use Rattle.reissue.specs.Transfers.{link_of, table_of};

use cache::{Cache, CacheRefusal};
use fixtures::frames::{VOLUME, fresh_each, may_change};
use fixtures::lists::{moved, started, told};
use flusher::{flush_some, sync};
use layout::Geometry;
use message::Incoming;
use reissue::list_link::ListLink;
use reissue::{Link, Transfers};
use std::alloc::{AllocError, Global};
use std::test::Fail;
use tests_texts::row_is_told;

/// What a link gives.
enum Given {
    /// The driver of this generation is started.
    Started(u32),
    /// The driver of this generation answers the request of this id: so many bytes were moved.
    Moved(u32, u64, u32),
}

/// What is done with a cache.
enum Step {
    /// Blocks, from the first one up to another one, get frames of zero bytes.
    Fresh(u32, u32),
    /// A block is filled with this byte.
    Fill(u32, u8),
    /// Some of what was changed is written.
    Flush,
    /// All that was changed is written.
    Sync,
}

/// These messages.
fn messages(alloc: Global, given: &[Given]) -> Result<Vec<Incoming>, AllocError> {
    let mut messages = Vec::new(alloc);
    for message in given {
        match message {
            Given::Started(generation) => messages.push(started(*generation))?,
            Given::Moved(generation, id, count) => messages.push(moved(
                *generation,
                *id,
                *count,
                0,
            ))?,
        }
    }
    Ok(messages)
}

/// The size of blocks of a volume.
enum Size {
    Of1024,
    Of4096,
}

/// A volume of 512 small blocks.
const SMALL: Geometry = Geometry {
    block_size: 1024,
    inodes: 32,
    zones: 512,
    inode_map_blocks: 1,
    zone_map_blocks: 1,
    first_zone: 6,
};

/// A cache of 32 frames for blocks of this size over a link that gives these messages; none where it is refused.
fn cache_over(
    alloc: Global,
    size: &Size,
    given: &[Given],
) -> Result<Result<Cache<ListLink>, CacheRefusal>, AllocError>
    ensures volume { IfOk result (λ r. IfOk r (λ c. IsOfBlocks 512 (caching ⟦<ListLink as Link>⟧ c))) }
    ensures size { IfOk result (λ r. IfOk r (λ c. 1024 ≤ c.shape.block_size)) }
{
    let transfers = Transfers::new(alloc, ListLink::new(alloc, messages(alloc, given)?)?)?;
    Ok(match size {
        Size::Of1024 => Cache::new(alloc, transfers, 0, &SMALL, 32),
        Size::Of4096 => Cache::new(alloc, transfers, 0, &VOLUME, 32),
    })
}

/// Fills the first 1024 bytes of a block with this byte, if it may be changed.
fn fill<L: Link>(cache: &mut Cache<L>, block: u32, byte: u8)
    requires volume { IsOfBlocks 512 (caching L.Link cache.old) }
    requires size { 1024 ≤ cache.old.shape.block_size }
    ensures volume { IsOfBlocks 512 (caching L.Link cache.new) }
    ensures size { 1024 ≤ cache.new.shape.block_size }
{
    if !may_change(block) {
        return;
    }
    match cache.fetch(block) {
        Ok(frame) => cache.change(frame, 0, &[byte; 1024]),
        Err(_) => {}
    }
}

/// Does a step.
fn does<L: Link>(cache: &mut Cache<L>, step: &Step)
    requires volume { IsOfBlocks 512 (caching L.Link cache.old) }
    requires size { 1024 ≤ cache.old.shape.block_size }
    ensures volume { IsOfBlocks 512 (caching L.Link cache.new) }
    ensures size { 1024 ≤ cache.new.shape.block_size }
{
    match step {
        Step::Fresh(first, end) => {
            fresh_each(cache, *first, *end);
        }
        Step::Fill(block, byte) => fill(cache, *block, *byte),
        Step::Flush => flush_some(cache),
        Step::Sync => {
            let _done = sync(cache).is_ok();
        }
    }
}

/// Does these steps.
fn do_each<L: Link>(cache: &mut Cache<L>, steps: &[Step])
    requires volume { IsOfBlocks 512 (caching L.Link cache.old) }
    requires size { 1024 ≤ cache.old.shape.block_size }
{
    for step in steps {
        does(cache, step);
    }
}

/// The size of blocks, what a link gives, what is done with a cache over it, and what the link was told.
type Row = (Size, &'static [Given], &'static [Step], &'static str);

static ROWS: [Row; 6] = [
    // two runs; a rest, which goes to the next driver behind the other run; what was changed in flight is written again
    (
        Size::Of1024,
        &[
            Given::Started(1),
            Given::Moved(1, 1, 1024),
            Given::Moved(1, 2, 1536),
            Given::Started(2),
            Given::Moved(2, 3, 2048),
            Given::Moved(2, 4, 1536),
            Given::Moved(2, 5, 1024),
        ],
        &[
            Step::Fresh(100, 101),
            Step::Sync,
            Step::Fresh(2, 5),
            Step::Fresh(6, 8),
            Step::Flush,
            Step::Fill(3, 49),
            Step::Sync,
        ],
        "write 1 102400 1024 0
write 2 2048 3072 0
write 3 6144 2048 0
write 4 3584 1536 0
write 3 6144 2048 0
write 4 3584 1536 0
write 5 3072 1024 49
",
    ),
    // as many as one request takes
    (
        Size::Of1024,
        &[Given::Started(1), Given::Moved(1, 1, 1024)],
        &[
            Step::Fresh(100, 101),
            Step::Sync,
            Step::Fresh(10, 20),
            Step::Flush,
        ],
        "write 1 102400 1024 0
write 2 10240 4096 0
write 3 14336 4096 0
write 4 18432 2048 0
",
    ),
    // none whose write is under way
    (
        Size::Of1024,
        &[Given::Started(1), Given::Moved(1, 1, 1024)],
        &[
            Step::Fresh(100, 101),
            Step::Sync,
            Step::Fresh(11, 12),
            Step::Flush,
            Step::Fresh(10, 13),
            Step::Flush,
        ],
        "write 1 102400 1024 0
write 2 11264 1024 0
write 3 10240 1024 0
write 4 12288 1024 0
",
    ),
    // sixteen frames at most
    (
        Size::Of1024,
        &[Given::Started(1), Given::Moved(1, 1, 1024)],
        &[
            Step::Fresh(100, 101),
            Step::Sync,
            Step::Fresh(9, 11),
            Step::Fresh(12, 29),
            Step::Flush,
            Step::Flush,
        ],
        "write 1 102400 1024 0
write 2 9216 2048 0
write 3 12288 4096 0
write 4 16384 4096 0
write 5 20480 4096 0
write 6 24576 2048 0
write 7 26624 3072 0
",
    ),
    // a sync writes neighbours by one request, as many as fit
    (
        Size::Of1024,
        &[
            Given::Started(1),
            Given::Moved(1, 1, 4096),
            Given::Moved(1, 2, 1024),
            Given::Moved(1, 3, 2048),
        ],
        &[Step::Fresh(2, 7), Step::Fresh(8, 10), Step::Sync],
        "write 1 2048 4096 0
write 2 6144 1024 0
write 3 8192 2048 0
",
    ),
    // a block that is as large as a request goes alone
    (
        Size::Of4096,
        &[Given::Started(1), Given::Moved(1, 1, 4096)],
        &[
            Step::Fresh(100, 101),
            Step::Sync,
            Step::Fresh(10, 12),
            Step::Flush,
        ],
        "write 1 409600 4096 0
write 2 40960 4096 0
write 3 45056 4096 0
",
    ),
];

/// A row comes out as it says.
fn comes_out(alloc: Global, number: usize, row: &Row) -> Result<(), Fail> {
    let (size, given, steps, lines) = row;
    let mut cache = cache_over(alloc, size, given)??;
    do_each(&mut cache, steps);
    row_is_told(number, told(alloc, cache.link())?.as_str(), lines)
}

#[test]
fn neighbours_are_written_together(rt: HostRuntime) -> Result<(), Fail> {
    for (number, row) in ROWS.iter().enumerate() {
        comes_out(rt.alloc(), number, row)?;
    }
    Ok(())
}
