//! Writing the tree of an old volume into a new one.

ghost use Rattle.std.specs.Prelude.{◌≡◌, ◌≤◌, ◌<◌, ◌+◌, ◌-◌, ◌*◌, ◌/◌, ◌&&◌, ◌==◌, ◌++◌, ℕ, IfOk, OnOk, length, slice_index};
ghost use Rattle.std.specs.Prelude.{take, drop, nat_le, true};
ghost use Rattle.layout.specs.Places.{IsGeometry};
ghost use Rattle.volume.specs.Nodes.{is_marked};
ghost use Rattle.volume.specs.Entries.{is_directory_inode};
ghost use Rattle.volume.specs.Reading.{inode_in};
ghost use Rattle.image.specs.Contents.{contents};
ghost use Rattle.lemmas.specs.Sums.{sum_below};
ghost use Rattle.tree.specs.Space.{zones_of};
ghost use Rattle.new_volume.specs.Image.{filled_image};
ghost use Rattle.fsck.specs.Form.{version_2};
ghost use Rattle.fsck.specs.Nodes.{nodes_of};
ghost use Rattle.migrate.specs.Holds.{IsSound};
ghost use Rattle.migrate.specs.Used.{SizesAreGood, zones_of_all};
ghost use Rattle.migrate.specs.Written.{IsWrittenImage};
ghost use Rattle.migrate.specs.Tables.{IsBegun, IsNewInode, Marks};
ghost use Rattle.migrate.specs.Zones.{Takes, zone_bytes};
ghost use Rattle.migrate.specs.Laws.{HasPlace, WrittenIsConfirmed, WrittenIsSound};

use crate::moving::moved;
use crate::new_zones::NewZones;
use crate::volume_blocks::{BLOCK, VolumeBlocks};
use image::Image;
use inode::encode;
use layout::Geometry;
use new_volume::NewVolume;
use std::alloc::{AllocError, Global};

/// The image of the new volume that is begun, with the old one's inodes. All zones are fresh ones.
pub(crate) fn written(
    alloc: Global,
    old: &VolumeBlocks,
    empty: NewVolume,
) -> Result<Vec<u8>, AllocError>
    requires place { HasPlace old.now.image empty.volume }
    requires root { is_directory_inode old.now.image.geometry (contents old.now.image) 1 ≡ true }
    requires begun { IsBegun empty.volume empty.front.items }
    ensures { IfOk result (λ image. IsWrittenImage old.now.image.geometry (contents old.now.image) empty.volume image.items) }
{
    let geometry = empty.volume;
    let mut zones = tables_of(empty)?;
    let inodes = moved_inodes(alloc, old, &mut zones)?;
    let limit = zones.limit;
    let mut image = zones.image;
    put_bytes(&mut image, inode_table(&geometry), &inodes);
    mark_inodes(&mut image, &old.image);
    mark_zones(&mut image, &geometry);
    image.resize(limit, 0)?;
    Ok(image)
}

/// The tables of a new volume, with no data zone taken, and room for all of them.
fn tables_of(empty: NewVolume) -> Result<NewZones, AllocError>
    requires sizes { IsGeometry empty.volume }
    requires block { empty.volume.block_size ≡ 1024 }
    ensures limit { IfOk result (λ zones. zones.limit ≡ 1024 * empty.volume.zones) }
    ensures tables { IfOk result (λ zones. length zones.image.items ≡ 1024 * empty.volume.first_zone) }
    ensures bytes { IfOk result (λ zones. (p : ℕ) → p < 1024 * empty.volume.first_zone
        → slice_index zones.image.items p ≡ slice_index (filled_image empty.volume empty.front.items) p) }
{
    let size = BLOCK * empty.volume.first_zone as usize;
    let limit = BLOCK * empty.volume.zones as usize;
    let mut image = empty.front;
    image.truncate(size);
    image.resize(size, 0)?;
    image.reserve(limit - size)?;
    Ok(NewZones { image, limit })
}

/// The inode table of the new volume, whose nodes are moved to fresh zones.
fn moved_inodes(
    alloc: Global,
    old: &VolumeBlocks,
    zones: &mut NewZones,
) -> Result<Vec<u8>, AllocError>
    requires sound { IsSound version_2 old.now.image.geometry (contents old.now.image) }
    requires sizes { SizesAreGood old.now.image }
    requires room { length zones.old.image.items + 1024 * zones_of_all old.now.image.geometry
        (nodes_of version_2 old.now.image.geometry (contents old.now.image)) ≤ zones.old.limit }
    ensures size { IfOk result (λ table. length table.items ≡ 64 * old.now.image.geometry.inodes) }
    ensures takes { OnOk result (Takes (zones_of_all old.now.image.geometry
        (nodes_of version_2 old.now.image.geometry (contents old.now.image)))
        zones.old.limit zones.new.limit zones.old.image.items zones.new.image.items) }
    ensures inodes { IfOk result (λ table. (n : ℕ) → 1 ≤ n → n ≤ old.now.image.geometry.inodes
        → IsNewInode old.now.image.geometry (contents old.now.image) (zone_bytes zones.new.image.items)
        (length zones.old.image.items / 1024 + sum_below (λ m. zones_of old.now.image.geometry
        (nodes_of version_2 old.now.image.geometry (contents old.now.image) m)) n) n
        (inode_in (slice_index table.items) (64 * (n - 1)))) }
{
    let inodes = old.image.geometry().inodes;
    let mut table = Vec::with_capacity(alloc, 64 * inodes as usize)?;
    for n in 1..inodes + 1 {
        let bytes = moved_inode(alloc, old, n, zones)?;
        table.extend_from_slice(&bytes)?;
    }
    Ok(table)
}

/// The 64 bytes of inode n in that table.
fn moved_inode(
    alloc: Global,
    old: &VolumeBlocks,
    n: u32,
    zones: &mut NewZones,
) -> Result<[u8; 64], AllocError>
    requires sound { IsSound version_2 old.now.image.geometry (contents old.now.image) }
    requires sizes { SizesAreGood old.now.image }
    requires room { length zones.old.image.items
        + 1024 * zones_of old.now.image.geometry (nodes_of version_2 old.now.image.geometry (contents old.now.image) n) ≤ zones.old.limit }
    ensures takes { OnOk result (Takes
        (zones_of old.now.image.geometry (nodes_of version_2 old.now.image.geometry (contents old.now.image) n))
        zones.old.limit zones.new.limit zones.old.image.items zones.new.image.items) }
    ensures size { IfOk result (λ bytes. length bytes ≡ 64) }
    ensures inode { IfOk result (λ bytes. IsNewInode old.now.image.geometry (contents old.now.image) (zone_bytes zones.new.image.items)
        (length zones.old.image.items / 1024) n (inode_in (slice_index bytes) 0)) }
{
    if !old.image.is_marked(n) {
        return Ok([0; 64]);
    }
    let inode = moved(alloc, old, n, zones)?;
    Ok(encode(&inode))
}

/// The place of the inode table.
fn inode_table(geometry: &Geometry) -> usize
    requires { IsGeometry geometry.now }
    ensures { result ≡ 1024 * (2 + geometry.now.inode_map_blocks + geometry.now.zone_map_blocks) }
{
    BLOCK * (2 + geometry.inode_map_blocks as usize + geometry.zone_map_blocks as usize)
}

/// Puts bytes at a place.
fn put_bytes(image: &mut [u8], at: usize, bytes: &[u8])
    requires { at + length bytes.now ≤ length image.old }
    ensures { image.new ≡ take at image.old ++ bytes.now ++ drop (at + length bytes.now) image.old }
{
    image[at..at + bytes.len()].copy_from_slice(bytes);
}

/// Marks the old volume's inodes.
fn mark_inodes(image: &mut [u8], old: &Image)
    requires { 2048 + old.now.geometry.inodes / 8 < length image.old }
    ensures { Marks 2 (is_marked old.now.geometry (contents old.now)) old.now.geometry.inodes image.old image.new }
{
    for n in 1..old.geometry().inodes + 1 {
        if !old.is_marked(n) {
            continue;
        }
        set_bit(image, 2, n);
    }
}

/// Marks the data zones that were taken: those of an image that ends with the last of them.
fn mark_zones(image: &mut [u8], geometry: &Geometry)
    requires sizes { IsGeometry geometry.now }
    requires block { geometry.now.block_size ≡ 1024 }
    requires some { geometry.now.first_zone ≤ length image.old / 1024 }
    requires most { length image.old / 1024 ≤ geometry.now.zones }
    ensures { Marks (2 + geometry.now.inode_map_blocks)
        (λ k. nat_le 1 k && nat_le k (length image.old / 1024 - geometry.now.first_zone))
        (length image.old / 1024 - geometry.now.first_zone) image.old image.new }
{
    let end = (image.len() / BLOCK) as u32;
    let map = 2 + geometry.inode_map_blocks as usize;
    for k in 1..end - geometry.first_zone + 1 {
        set_bit(image, map, k);
    }
}

/// Sets a bit of the map that begins at a block.
fn set_bit(image: &mut [u8], block: usize, bit: u32)
    requires low { block ≤ 65536 }
    requires there { 1024 * block + bit / 8 < length image.old }
    ensures { Marks block (λ b. b == bit) bit image.old image.new }
{
    image[BLOCK * block + bit as usize / 8] |= 1 << (bit % 8);
}

/// A volume that is written so keeps the rules of the format that a tree doesn't show.
fn written_is_sound()
    ensures { WrittenIsSound }
{}

/// The image of a clean old volume that is written so is clean, and holds a tree with the old one's nodes.
fn written_is_confirmed()
    ensures { WrittenIsConfirmed }
{}
