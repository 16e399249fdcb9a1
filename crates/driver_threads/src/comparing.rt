//! How bytes are beside those that a range of media has.

ghost use Rattle.std.specs.Prelude.{◌≡◌, ◌≤◌, ◌+◌, ◌*◌, ◌↔◌, length, take, drop, true};
ghost use Rattle.driver_threads.specs.Watched.{IsAt, IsThere};

use crate::watch::Likeness;
use board::counting::parameters::ServiceParameters;
use shared_media::confined::Confined;

/// Whether an image has all sectors of a range: its first one, and how many there are.
pub fn has_range(first: u32, count: u32, image: &[u8]) -> bool
    ensures { (result ≡ true) ↔ (512 * (first + count) ≤ length image.now) }
{
    (first as usize + count as usize) * 512 <= image.len()
}

/// Such a range of an image.
fn range_of(first: u32, count: u32, image: &[u8]) -> &[u8]
    requires { 512 * (first + count) ≤ length image.now }
    ensures { result.now ≡ take (512 * count) (drop (512 * first) image.now) }
{
    let from = first as usize * 512;
    &image[from..from + count as usize * 512]
}

/// Whether a range has these bytes from this place on.
fn is_at(range: &[u8], start: usize, bytes: &[u8]) -> bool
    requires { start + length bytes.now ≤ length range.now }
    ensures { (result ≡ true) ↔ IsAt range.now start bytes.now }
{
    range[start..].starts_with(bytes)
}

/// How bytes are beside those that a range has from this place on: Unsure where it hasn't so many.
fn beside(range: &[u8], start: u64, bytes: &[u8]) -> Likeness
    ensures same { result ≡ Likeness.Same → IsAt range.now start bytes.now }
    ensures differs { result ≡ Likeness.Differs → IsAt range.now start bytes.now → ⊥ }
{
    let size = range.len() as u64;
    if start > size || bytes.len() as u64 > size - start {
        return Likeness::Unsure;
    }
    if is_at(range, start as usize, bytes) {
        Likeness::Same
    } else {
        Likeness::Differs
    }
}

/// How bytes are beside those that the volume's range of the media has from this place on: Unsure where it hasn't so many, or the media
/// haven't the whole range.
pub(crate) fn beside_media<N: ServiceParameters>(
    media: &Confined<N>,
    start: u64,
    bytes: &[u8],
) -> Likeness
    ensures same { result ≡ Likeness.Same → IsThere N.opening media.now.media.sectors start bytes.now }
    ensures differs { result ≡ Likeness.Differs → IsThere N.opening media.now.media.sectors start bytes.now → ⊥ }
{
    let (first, count) = media.range();
    let image = media.as_sectors().as_flattened();
    if !has_range(first, count, image) {
        return Likeness::Unsure;
    }
    beside(range_of(first, count, image), start, bytes)
}
