//! Free numbers of a map, looked for and counted a word of 64 bits at a time. A step is one word that is looked at.

ghost use Rattle.std.specs.Prelude.{◌≡◌, ◌≤◌, ◌<◌, ◌+◌, ◌*◌, ◌/◌, ◌%◌, IfOk, IfErr, IfSome};
ghost use Rattle.layout.specs.Places.{IsGeometry};
ghost use Rattle.volume.specs.Pieces.{pieces};
ghost use Rattle.block_store.specs.World.{Reads};
ghost use Rattle.block_store.specs.Volume.{IsOn};
ghost use Rattle.bitmap.specs.Numbers.{IsLowestFree, count_free_in, words_for};
ghost use Rattle.bitmap.specs.Maps.{numbers_in, last_number, first_block, reach};

use crate::Map;
use crate::row::{count_clear, first_clear};
use block_store::{Blocks, Cut};
use layout::Geometry;
use step_count::Steps;

/// The part of a map that stands in one of its blocks: `first` is the number of the block's bit 0, and its bits `from` to before
/// `end` count.
#[derive(Clone, Copy)]
struct Part {
    block: u32,
    first: u32,
    from: u32,
    end: u32,
}

fn part_of(geometry: &Geometry, map: Map, k: u32) -> Part
    requires geometry { IsGeometry geometry.now }
    requires block { k * (8 * geometry.now.block_size) ≤ last_number map geometry.now }
    ensures block { result.block ≡ first_block map geometry.now + k }
    ensures first { result.first ≡ k * (8 * geometry.now.block_size) }
    ensures from { result.first + result.from ≡ reach map geometry.now k }
    ensures end { result.first + result.end ≡ reach map geometry.now (k + 1) }
    ensures some { result.from ≤ result.end }
    ensures within { result.end ≤ 8 * geometry.now.block_size }
    ensures words { result.first % 64 ≡ 0 }
{
    let width = 8 * geometry.block_size;
    let first = k * width;
    Part {
        block: map.first_block(geometry) + k,
        first,
        from: if k == 0 { 1 } else { 0 },
        end: width.min(map.last(geometry) + 1 - first),
    }
}

/// The lowest free number of those in one block of a map.
fn lowest_in<B: Blocks>(
    blocks: &mut B,
    geometry: &Geometry,
    map: Map,
    k: u32,
    steps: &mut Steps,
) -> Result<Option<u32>, Cut>
    requires on { IsOn B.world geometry.now blocks.old }
    requires block { k * (8 * geometry.now.block_size) ≤ last_number map geometry.now }
    ensures reads { Reads B.world blocks.old blocks.new (λ d. IfOk result (λ x.
        IsLowestFree x (numbers_in map (pieces geometry.now d)) (reach map geometry.now k) (reach map geometry.now (k + 1)))) }
    ensures within { IfOk result (λ x. IfSome x (λ n. (1 ≤ n) × (n ≤ last_number map geometry.now))) }
    ensures cut { IfErr result (λ c. B.world.over blocks.new c) }
    ensures cost { steps.new + words_for (k * (8 * geometry.now.block_size)) ≤ steps.old + words_for (reach map geometry.now (k + 1)) }
{
    let part = part_of(geometry, map, k);
    let frame = blocks.fetch(part.block)?;
    match first_clear(blocks.bytes(frame), part.from, part.end, steps) {
        Some(bit) => Ok(Some(part.first + bit)),
        None => Ok(None),
    }
}

/// The lowest free number of a map, from 1 to its last: the least that isn't in it. None where each is in it.
pub fn lowest_free<B: Blocks>(
    blocks: &mut B,
    geometry: &Geometry,
    map: Map,
    steps: &mut Steps,
) -> Result<Option<u32>, Cut>
    requires on { IsOn B.world geometry.now blocks.old }
    ensures reads { Reads B.world blocks.old blocks.new (λ d. IfOk result (λ x.
        IsLowestFree x (numbers_in map (pieces geometry.now d)) 1 (last_number map geometry.now + 1))) }
    ensures within { IfOk result (λ x. IfSome x (λ n. (1 ≤ n) × (n ≤ last_number map geometry.now))) }
    ensures cut { IfErr result (λ c. B.world.over blocks.new c) }
    ensures cost { steps.new ≤ steps.old + words_for (last_number map geometry.now + 1) }
{
    let width = 8 * geometry.block_size;
    for k in 0..map.last(geometry) / width + 1 {
        if let Some(number) = lowest_in(blocks, geometry, map, k, steps)? {
            return Ok(Some(number));
        }
    }
    Ok(None)
}

/// How many numbers are free of those in one block of a map.
fn count_in<B: Blocks>(
    blocks: &mut B,
    geometry: &Geometry,
    map: Map,
    k: u32,
    steps: &mut Steps,
) -> Result<u32, Cut>
    requires on { IsOn B.world geometry.now blocks.old }
    requires block { k * (8 * geometry.now.block_size) ≤ last_number map geometry.now }
    ensures reads { Reads B.world blocks.old blocks.new (λ d. IfOk result (λ x.
        x ≡ count_free_in (numbers_in map (pieces geometry.now d)) (reach map geometry.now k) (reach map geometry.now (k + 1)))) }
    ensures within { IfOk result (λ x. x + reach map geometry.now k ≤ reach map geometry.now (k + 1)) }
    ensures cut { IfErr result (λ c. B.world.over blocks.new c) }
    ensures cost { steps.new + words_for (k * (8 * geometry.now.block_size)) ≤ steps.old + words_for (reach map geometry.now (k + 1)) }
{
    let part = part_of(geometry, map, k);
    let frame = blocks.fetch(part.block)?;
    Ok(count_clear(blocks.bytes(frame), part.from, part.end, steps))
}

/// How many numbers of a map are free, from 1 to its last.
pub fn count_free<B: Blocks>(
    blocks: &mut B,
    geometry: &Geometry,
    map: Map,
    steps: &mut Steps,
) -> Result<u32, Cut>
    requires on { IsOn B.world geometry.now blocks.old }
    ensures reads { Reads B.world blocks.old blocks.new (λ d. IfOk result (λ x.
        x ≡ count_free_in (numbers_in map (pieces geometry.now d)) 1 (last_number map geometry.now + 1))) }
    ensures within { IfOk result (λ x. x ≤ last_number map geometry.now) }
    ensures cut { IfErr result (λ c. B.world.over blocks.new c) }
    ensures cost { steps.new ≤ steps.old + words_for (last_number map geometry.now + 1) }
{
    let width = 8 * geometry.block_size;
    let mut free = 0;
    for k in 0..map.last(geometry) / width + 1 {
        free += count_in(blocks, geometry, map, k, steps)?;
    }
    Ok(free)
}
