//! What is said of nodes that were given back.

ghost use Rattle.std.specs.Prelude.{◌≡◌, ℕ, None, Some};
ghost use Rattle.release.specs.Telling.{Starts, released_text};

use crate::release;
use output::tell;
use std::alloc::Global;
use std::fmt;
use std::io::Write;

/// So many nodes without a link were given back. It prints as `released 3 files without a name`.
#[derive(Clone, Copy, Debug, PartialEq, Eq)]
pub struct Released {
    pub count: u32,
}

impl fmt::Display for Released {
    ghost output = { λ released. Some (released_text released.count) };

    fn fmt<W: fmt::Write>(&self, f: &mut fmt::Formatter<W>) -> fmt::Result {
        write!(f, "released {} files without a name", self.count)
    }
}

/// Gives back the nodes without a link as `release` does, and says on `err` how many there were, where there were any: of a release that is
/// refused nothing, since the start on that image is then refused too.
fn release_and_tell<E: Write>(alloc: Global, image: &mut [u8], minor: u8, err: &mut E)
    ensures { Starts minor image.old image.new E.contents err.old err.new }
{
    let Ok(count) = release(alloc, image, minor) else {
        return;
    };
    if count > 0 {
        tell(alloc, err, &Released { count });
    }
}

/// The image that a program starts on: that of a file, if it could be read, without the nodes that have no link, where `release` gives
/// them back. A line on `err` says how many they were.
pub fn start_on<E: Write>(
    alloc: Global,
    image: Option<Vec<u8>>,
    minor: u8,
    err: &mut E,
) -> Option<Vec<u8>>
    ensures none { image ≡ None → (result ≡ None) × (err.new ≡ err.old) }
    ensures some { (old : _) → image ≡ Some old → (new : _) × (result ≡ Some new)
        × Starts minor old.items new.items E.contents err.old err.new }
{
    let mut image = image?;
    release_and_tell(alloc, &mut image, minor, err);
    Some(image)
}
