//! Measures the count of the free zones, which each write makes once: maps in memory in which every number is free.

ghost use Rattle.std.specs.Prelude.{◌≡◌};
ghost use Rattle.layout.specs.Places.{IsGeometry};
ghost use Rattle.block_store.specs.Volume.{IsOn};

use crate::sizes::{large_blocks, small_blocks};
use bitmap::{Map, count_free};
use block_store::Blocks;
use block_store::memory::Memory;
use layout::Geometry;
use std::io;
use std::time::Instant;

/// How often the zones are counted; the least time is told.
const ROUNDS: u32 = 1000;

/// A volume of 32 inodes and 65536 blocks of 1024 bytes, the most blocks that there may be.
fn most_blocks() -> Geometry
    ensures { IsGeometry result }
{
    Geometry {
        block_size: 1024,
        inodes: 32,
        zones: 65536,
        inode_map_blocks: 1,
        zone_map_blocks: 8,
        first_zone: 13,
    }
}

/// The blocks of a volume in memory up to its tables, all zero.
#[derive(Drop)]
struct Maps {
    blocks: Memory,
    geometry: Geometry,
    ghost sizes: { IsGeometry geometry },
    ghost same: { blocks.block_size ≡ geometry.block_size },
}

/// How many zones are free; 0 where the map isn't there.
fn count<B: Blocks>(blocks: &mut B, geometry: &Geometry) -> u32
    requires on { IsOn B.world geometry.now blocks.old }
    ensures { IsOn B.world geometry.now blocks.new }
{
    count_free(blocks, geometry, Map::Zones).unwrap_or(0)
}

/// The least time of a count of the free zones, in nanoseconds, and the sum of all counts.
fn counted(rt: &HostRuntime, maps: &mut Maps) -> io::Result<(u128, u64)> {
    let mut least = u128::MAX;
    let mut sum = 0u64;
    for _ in 0..ROUNDS {
        let start = Instant::now(rt)?;
        let free = count(&mut maps.blocks, &maps.geometry);
        least = least.min(start.elapsed(rt)?.as_nanos());
        sum = sum.saturating_add(u64::from(free));
    }
    Ok((least, sum))
}

/// Measures the map of a volume of these sizes.
fn measure(rt: &HostRuntime, geometry: Geometry) -> io::Result<()>
    requires { IsGeometry geometry }
{
    let (zones, block) = (geometry.zones, geometry.block_size);
    let image = vec![in rt.alloc(); 0; 65536]?;
    let blocks = Memory::new(block, image);
    let mut maps = Maps { blocks, geometry };
    let (nanos, sum) = counted(rt, &mut maps)?;
    eprintln!(*rt;
        "{zones} blocks of {block}, the free zones: counted in {nanos} nanoseconds, {sum} in {ROUNDS} counts"
    )
}

/// Measures maps of 4096 zones and of 65536.
pub fn run(rt: &HostRuntime) -> io::Result<()> {
    measure(rt, small_blocks(4096))?;
    measure(rt, large_blocks(4096))?;
    measure(rt, most_blocks())
}
