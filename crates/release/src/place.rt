//! Where the volume of a minor lies in an image.

ghost use Rattle.std.specs.Prelude.{◌≡◌, ◌*◌, ◌+◌, ◌≤◌, IfSome, length};
ghost use Rattle.release.specs.Place.{place_in};

use media::partition::volume_place;
use media::{MOST_BYTES, SECTOR};

/// The volume of this minor in an image: its first byte, and how many it has. With minor 0 it is all of the image, with another one a
/// partition. None where the image isn't whole sectors of 512 bytes, or has over 67108864 bytes, or no such partition: then no server
/// starts on it.
pub(crate) fn place_of(image: &[u8], minor: u8) -> Option<(usize, usize)>
    ensures place { result ≡ place_in image.now minor }
    ensures inside { IfSome result (λ place. place.0 + place.1 ≤ length image.now) }
{
    let (sectors, rest) = image.as_chunks::<SECTOR>();
    if !rest.is_empty() {
        return None;
    }
    if image.len() > MOST_BYTES {
        return None;
    }
    match volume_place(sectors, minor) {
        Ok((first, count)) => Some((SECTOR * first as usize, SECTOR * count as usize)),
        Err(_) => None,
    }
}
