//! What was taken of an image.

ghost use Rattle.std.specs.Prelude.{◌≡◌, ◌<◌, ◌^◌, length};

use stable::UNIT;

/// Units of an image: their numbers, and the bytes of each. `redo` logs just these.
#[derive(Drop)]
pub struct Changes {
    /// The numbers of the units.
    pub numbers: Vec<u32>,
    /// The bytes of each, in the order of the numbers.
    pub units: Vec<[u8; UNIT]>,
    ghost same: { length numbers.items ≡ length units.items },
    ghost few: { length numbers.items < 2 ^ 32 },
}
