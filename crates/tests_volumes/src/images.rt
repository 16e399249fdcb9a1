//! Images, byte by byte, and texts that are looked at.
use layout::Geometry;
use std::alloc::{AllocError, Global};

/// An image: how many bytes it has, and what isn't zero: from a place on these bytes, and behind them all bits up to another place.
pub(crate) type Image = (usize, &'static [(usize, &'static [u8], usize)]);

/// Puts bytes at a place of an image.
pub(crate) fn put(image: &mut [u8], at: usize, bytes: &[u8]) {
    for (place, byte) in image.iter_mut().skip(at).zip(bytes) {
        *place = *byte;
    }
}

/// Sets all bits of the bytes from a place up to another one.
fn fill(image: &mut [u8], from: usize, end: usize) {
    for place in image.iter_mut().take(end).skip(from) {
        *place = 0xff;
    }
}

/// Makes an image.
pub(crate) fn image_of(alloc: Global, (length, parts): &Image) -> Result<Vec<u8>, AllocError> {
    let mut image = vec![in alloc; 0u8; *length]?;
    for (at, bytes, end) in *parts {
        put(&mut image, *at, bytes);
        fill(&mut image, at.saturating_add(bytes.len()), *end);
    }
    Ok(image)
}

/// The sizes that an image's superblock says, or the number and the name of why it is refused.
pub(crate) fn read_of(alloc: Global, image: &[u8]) -> Result<String, AllocError> {
    match Geometry::parse(image) {
        Ok(volume) => {
            let (block, inodes, zones) = (volume.block_size, volume.inodes, volume.zones);
            let (first, second) = (volume.inode_map_blocks, volume.zone_map_blocks);
            let data = volume.first_zone;
            format!(in alloc;
                "block {block} inodes {inodes} zones {zones} maps {first} {second} first {data}"
            )
        }
        Err(refusal) => {
            let number = refusal.number();
            format!(in alloc; "{number} {refusal}")
        }
    }
}
