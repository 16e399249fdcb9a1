//! Images, byte by byte.
use crate::images::put;
use std::alloc::{AllocError, Global};

/// An image: how many bytes it has, and what isn't zero: from a place on these bytes, and behind them all bits up to another place.
pub(crate) type Image = (usize, &'static [(usize, &'static [u8], usize)]);

/// Sets all bits of the bytes from a place up to another one.
fn fill(image: &mut [u8], from: usize, end: usize) {
    for place in image.iter_mut().take(end).skip(from) {
        *place = 0xff;
    }
}

/// Makes an image.
pub(crate) fn image_of(alloc: Global, (length, parts): &Image) -> Result<Vec<u8>, AllocError> {
    let mut image = vec![in alloc; 0u8; *length]?;
    for (at, bytes, end) in *parts {
        put(&mut image, *at, bytes);
        fill(&mut image, at.saturating_add(bytes.len()), *end);
    }
    Ok(image)
}
