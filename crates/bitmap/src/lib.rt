//! The inode map and the zone map of a volume, each a set of numbers. Number n of the inode map stands for inode n, number n of the
//! zone map for the n-th data zone, zone `first_zone + n - 1`. Number 0 of either stands for nothing, and isn't looked at.
#![tactic(auto)]

pub mod laws;
mod row;
pub mod search;

ghost use Rattle.std.specs.Prelude.{◌≡◌, ◌≤◌, ◌<◌, ◌+◌, ◌-◌, ◌*◌, ◌/◌, ◌%◌, OnOk, IfOk, IfErr, IfSome, true, false};
ghost use Rattle.layout.specs.Places.{IsGeometry};
ghost use Rattle.volume.specs.Pieces.{pieces};
ghost use Rattle.block_store.specs.World.{Turns, Reads};
ghost use Rattle.block_store.specs.Volume.{IsOn, Alters};
ghost use Rattle.bitmap.specs.Numbers.{IsLowestFree, count_free_in};
ghost use Rattle.bitmap.specs.Maps.{numbers_in, with_number, last_number, first_block};

use crate::row::{has_bit, with_bit};
use block_store::words::{read_byte, write_bytes};
use block_store::{Blocks, Cut};
use layout::Geometry;
use step_count::Steps;

/// A map of a volume.
#[derive(Clone, Copy, Debug, PartialEq, Eq)]
pub enum Map {
    /// The inodes that are in use, from block 2 on.
    Inodes,
    /// The data zones that are in use, behind the inode map.
    Zones,
}

impl Map {
    /// Its last number.
    pub fn last(self, geometry: &Geometry) -> u32
        requires { IsGeometry geometry.now }
        ensures { result ≡ last_number self geometry.now }
    {
        match self {
            Map::Inodes => geometry.inodes,
            Map::Zones => geometry.zones - geometry.first_zone,
        }
    }

    /// The block in which it begins.
    fn first_block(self, geometry: &Geometry) -> u32
        requires { IsGeometry geometry.now }
        ensures { result ≡ first_block self geometry.now }
    {
        match self {
            Map::Inodes => 2,
            Map::Zones => 2 + geometry.inode_map_blocks,
        }
    }
}

/// Where a number's bit stands.
#[derive(Clone, Copy)]
struct Place {
    block: u32,
    byte: usize,
    bit: u32,
}

fn place_of(geometry: &Geometry, map: Map, number: u32) -> Place
    requires geometry { IsGeometry geometry.now }
    requires number { number ≤ last_number map geometry.now }
    ensures block { result.block ≡ first_block map geometry.now + number / (8 * geometry.now.block_size) }
    ensures byte { result.byte ≡ number % (8 * geometry.now.block_size) / 8 }
    ensures bit { result.bit ≡ number % (8 * geometry.now.block_size) % 8 }
    ensures within { result.byte < geometry.now.block_size }
{
    let width = 8 * geometry.block_size;
    Place {
        block: map.first_block(geometry) + number / width,
        byte: (number % width / 8) as usize,
        bit: number % width % 8,
    }
}

/// Puts a number into a map, or takes it out.
fn put<B: Blocks>(
    blocks: &mut B,
    geometry: &Geometry,
    map: Map,
    number: u32,
    inside: bool,
) -> Result<(), Cut>
    requires on { IsOn B.world geometry.now blocks.old }
    requires number { number ≤ last_number map geometry.now }
    ensures turns { Turns B.world blocks.old blocks.new
        (λ d e. OnOk result (Alters geometry.now (with_number map (pieces geometry.now d) number inside) d e)) }
    ensures cut { IfErr result (λ c. B.world.over blocks.new c) }
{
    let place = place_of(geometry, map, number);
    let byte = read_byte(blocks, place.block, place.byte)?;
    let changed = with_bit(byte, place.bit, inside);
    write_bytes(blocks, place.block, place.byte, &[changed])
}

/// Puts a number, 0 to the last, into a map.
pub fn set<B: Blocks>(blocks: &mut B, geometry: &Geometry, map: Map, number: u32) -> Result<(), Cut>
    requires on { IsOn B.world geometry.now blocks.old }
    requires number { number ≤ last_number map geometry.now }
    ensures turns { Turns B.world blocks.old blocks.new
        (λ d e. OnOk result (Alters geometry.now (with_number map (pieces geometry.now d) number true) d e)) }
    ensures cut { IfErr result (λ c. B.world.over blocks.new c) }
{
    put(blocks, geometry, map, number, true)
}

/// Takes a number, 0 to the last, out of a map.
pub fn clear<B: Blocks>(
    blocks: &mut B,
    geometry: &Geometry,
    map: Map,
    number: u32,
) -> Result<(), Cut>
    requires on { IsOn B.world geometry.now blocks.old }
    requires number { number ≤ last_number map geometry.now }
    ensures turns { Turns B.world blocks.old blocks.new
        (λ d e. OnOk result (Alters geometry.now (with_number map (pieces geometry.now d) number false) d e)) }
    ensures cut { IfErr result (λ c. B.world.over blocks.new c) }
{
    put(blocks, geometry, map, number, false)
}

/// Whether a number, 0 to the last, is in a map.
pub fn is_set<B: Blocks>(
    blocks: &mut B,
    geometry: &Geometry,
    map: Map,
    number: u32,
) -> Result<bool, Cut>
    requires on { IsOn B.world geometry.now blocks.old }
    requires number { number ≤ last_number map geometry.now }
    ensures reads { Reads B.world blocks.old blocks.new (λ d. IfOk result (λ x. x ≡ numbers_in map (pieces geometry.now d) number)) }
    ensures cut { IfErr result (λ c. B.world.over blocks.new c) }
{
    let place = place_of(geometry, map, number);
    let byte = read_byte(blocks, place.block, place.byte)?;
    Ok(has_bit(byte, place.bit))
}

/// The lowest free number of a map, from 1 to its last: the least that isn't in it. None where each is in it.
pub fn lowest_free<B: Blocks>(
    blocks: &mut B,
    geometry: &Geometry,
    map: Map,
) -> Result<Option<u32>, Cut>
    requires on { IsOn B.world geometry.now blocks.old }
    ensures reads { Reads B.world blocks.old blocks.new (λ d. IfOk result (λ x.
        IsLowestFree x (numbers_in map (pieces geometry.now d)) 1 (last_number map geometry.now + 1))) }
    ensures within { IfOk result (λ x. IfSome x (λ n. (1 ≤ n) × (n ≤ last_number map geometry.now))) }
    ensures cut { IfErr result (λ c. B.world.over blocks.new c) }
{
    search::lowest_free(blocks, geometry, map, &mut Steps::new())
}

/// How many numbers of a map are free, from 1 to its last.
pub fn count_free<B: Blocks>(blocks: &mut B, geometry: &Geometry, map: Map) -> Result<u32, Cut>
    requires on { IsOn B.world geometry.now blocks.old }
    ensures reads { Reads B.world blocks.old blocks.new (λ d. IfOk result (λ x.
        x ≡ count_free_in (numbers_in map (pieces geometry.now d)) 1 (last_number map geometry.now + 1))) }
    ensures within { IfOk result (λ x. x ≤ last_number map geometry.now) }
    ensures cut { IfErr result (λ c. B.world.over blocks.new c) }
{
    search::count_free(blocks, geometry, map, &mut Steps::new())
}
