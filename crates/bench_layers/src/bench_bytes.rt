//! Measures reads and writes of 64 KiB of a file from and to blocks at hand, beside a plain copy of as many bytes in the same run.

mod at_hand;
mod work;

ghost use Rattle.std.specs.Prelude.{◌≡◌, ◌≤◌, ◌<◌, ◌+◌, length};
ghost use Rattle.layout.specs.Places.{IsGeometry};
ghost use Rattle.block_store.specs.Volume.{IsOn};

use crate::sizes::{large_blocks, middle_blocks, small_blocks};
use crate::timing::{micros_since, say};
use at_hand::{fill, frames, memory};
use block_store::Blocks;
use layout::Geometry;
use std::io;
use std::time::Instant;
use work::{copy_again, read_again, write_again};

/// How many such rows are measured, of which the shortest one is told.
const ROUNDS: u32 = 40;

/// Places at which the first page, and the first of each range of indirect blocks, begins: pages of 1024 bytes.
const SMALL_PLACES: [u32; 4] = [0, 7168, 269312, 67378176];

/// The same of 2048 bytes.
const MIDDLE_PLACES: [u32; 4] = [0, 14336, 1062912, 537933824];

/// And of 4096 bytes; no file is so long that it comes to the last range.
const LARGE_PLACES: [u32; 3] = [0, 28672, 4222976];

/// How long rows of work took, in microseconds.
#[derive(Clone, Copy)]
struct Times {
    copy: u128,
    read: u128,
    write: u128,
}

impl Times {
    /// The shorter of both, for each kind of work.
    fn least(self, other: Times) -> Times {
        Times {
            copy: self.copy.min(other.copy),
            read: self.read.min(other.read),
            write: self.write.min(other.write),
        }
    }
}

/// Measures one row of each kind of work.
fn measure_once<B: Blocks>(
    rt: &HostRuntime,
    blocks: &mut B,
    geometry: &Geometry,
    at: u32,
    from: &[u8],
    to: &mut [u8],
) -> io::Result<Times>
    requires on { IsOn B.world geometry.now blocks.old }
    requires some { 0 < length from.now }
    requires end { at + length from.now ≤ 2147483647 }
    ensures { IsOn B.world geometry.now blocks.new }
{
    let start = Instant::now(rt)?;
    copy_again(from, to);
    let copy = micros_since(rt, start)?;
    let start = Instant::now(rt)?;
    read_again(blocks, geometry, at, to);
    let read = micros_since(rt, start)?;
    let start = Instant::now(rt)?;
    write_again(blocks, geometry, at, from);
    let write = micros_since(rt, start)?;
    Ok(Times { copy, read, write })
}

/// Fills a file of a volume from a place on, and tells the shortest of several rows of work on it.
fn measure<B: Blocks>(
    rt: &HostRuntime,
    what: &str,
    blocks: &mut B,
    geometry: &Geometry,
    at: u32,
    from: &[u8],
    to: &mut [u8],
) -> io::Result<()>
    requires on { IsOn B.world geometry.now blocks.old }
    requires some { 0 < length from.now }
    requires end { at + length from.now ≤ 2147483647 }
{
    if fill(blocks, geometry, at, from).is_err() {
        return eprintln!(*rt; "{what}: not filled");
    }
    let mut least = measure_once(rt, blocks, geometry, at, from, to)?;
    for _ in 0..ROUNDS {
        let times = measure_once(rt, blocks, geometry, at, from, to)?;
        least = least.least(times);
    }
    let Times { copy, read, write } = least;
    eprintln!(*rt; "{what}, from {at}: copy {copy}, read {read}, write {write}")
}

/// Measures the ranges of a file's pages, over frames and over memory.
fn measure_volume(
    rt: &HostRuntime,
    geometry: &Geometry,
    count: u32,
    places: &[u32],
    from: &[u8],
    to: &mut [u8],
) -> io::Result<()>
    requires geometry { IsGeometry geometry.now }
    requires some { 0 < length from.now }
    requires end { length from.now ≤ 65536 }
{
    for at in places {
        let at = (*at).min(2147000000);
        let Some(mut blocks) = frames(rt.alloc(), geometry, count) else {
            return say(rt, "no memory");
        };
        measure(rt, "frames", &mut blocks, geometry, at, from, to)?;
        let Some(mut blocks) = memory(rt.alloc(), geometry) else {
            return say(rt, "no memory");
        };
        measure(rt, "memory", &mut blocks, geometry, at, from, to)?;
    }
    Ok(())
}

/// Measures a volume of each size of blocks, over as many frames as all its blocks need.
pub fn run(rt: &HostRuntime) -> io::Result<()> {
    let from = vec![in rt.alloc(); 0x61u8; 65536]?;
    let mut to = vec![in rt.alloc(); 0u8; 65536]?;
    measure_volume(rt, &small_blocks(96), 128, &SMALL_PLACES, &from, &mut to)?;
    measure_volume(rt, &middle_blocks(60), 64, &MIDDLE_PLACES, &from, &mut to)?;
    measure_volume(rt, &large_blocks(40), 64, &LARGE_PLACES, &from, &mut to)
}
