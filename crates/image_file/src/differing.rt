//! The units in which an image file differs from an image.

ghost use Rattle.std.specs.Prelude.{◌≡◌, ◌<◌, ◌^◌, ℕ, List, [], length, IfOk};
ghost use Rattle.std.specs.Str.{bytes_eq};
ghost use Rattle.stable.specs.Disk.{put};
ghost use Rattle.stable.specs.Runs.{Happens, Knows};
ghost use Rattle.changes.specs.Units.{unit_of, units_in};
ghost use Rattle.image_file.specs.Images.{ShowsImage, units_of, with_image};

use changes::unit_at;
use stable::{Storage, UNIT, Which};
use std::alloc::Global;
use std::io;

/// How many units an image has. InvalidInput where that is no number of 32 bits, as the units of a log have.
fn count_units(image: &[u8]) -> io::Result<u32>
    ensures { IfOk result (λ count. count ≡ units_in image.now) }
{
    match u32::try_from((image.len() + UNIT - 1) / UNIT) {
        Ok(count) => Ok(count),
        Err(_) => Err(io::Error::from(io::ErrorKind::InvalidInput)),
    }
}

/// Whether two units have the same bytes.
fn is_same(a: &[u8; UNIT], b: &[u8; UNIT]) -> bool
    ensures { result ≡ bytes_eq a.now b.now }
{
    *a == *b
}

/// Whether a unit of an image has these bytes. It is copied only where the image ends in it.
fn has_bytes(image: &[u8], n: u32, held: &[u8; UNIT]) -> bool
    ensures { result ≡ bytes_eq held.now (unit_of image.now n) }
{
    let first = (n as usize * UNIT).min(image.len());
    match image[first..].first_chunk::<UNIT>() {
        Some(unit) => is_same(held, unit),
        None => is_same(held, &unit_at(image, n)),
    }
}

/// The numbers of an image's units that the image file doesn't show. It takes memory for these alone.
pub(crate) fn differing<S: Storage>(
    alloc: Global,
    storage: &mut S,
    image: &[u8],
) -> io::Result<Vec<u32>>
    ensures same { Happens [] (S.known storage.old) (S.known storage.new) }
    ensures few { IfOk result (λ numbers. length numbers.items < 2 ^ 32) }
    ensures differ { (c : ℕ → List ℕ) → Knows (ShowsImage c) (S.known storage.old)
        → IfOk result (λ numbers. (n : ℕ) → put (units_of image.now numbers.items) c n ≡ with_image image.now c n) }
{
    let mut numbers = Vec::new(alloc);
    for n in 0..count_units(image)? {
        let held = storage.read(Which::Image, n as u64)?;
        if !has_bytes(image, n, &held) {
            numbers.push(n)?;
        }
    }
    Ok(numbers)
}
