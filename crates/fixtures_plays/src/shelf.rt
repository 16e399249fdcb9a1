//! A place of an image in memory.

ghost use Rattle.std.specs.Prelude.{◌≡◌, if◌then◌else◌};

use std::alloc::Global;
use volume_commands::handing::ImagePlace;

/// A place of an image in memory, which takes one or refuses it.
#[derive(Drop)]
pub struct Shelf {
    /// Whether it takes one.
    pub takes: bool,
    /// The bytes of the image there; none at first.
    pub image: Vec<u8>,
    alloc: Global,
}

impl Shelf {
    /// An empty one.
    pub fn new(alloc: Global, takes: bool) -> Shelf {
        Shelf {
            takes,
            image: Vec::new(alloc),
            alloc,
        }
    }
}

impl ImagePlace for Shelf {
    ghost puts = { λ s image put t. t.image.items ≡ (if put then image else s.image.items) };

    fn put(&mut self, image: &[u8]) -> bool {
        if !self.takes {
            return false;
        }
        match Vec::from_slice(self.alloc, image) {
            Ok(bytes) => {
                self.image = bytes;
                true
            }
            Err(_) => false,
        }
    }
}
