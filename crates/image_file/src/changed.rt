//! Changes that are put: copies of units, or units of an image where it lies.

ghost use Rattle.std.specs.Prelude.{◌<◌, ◌^◌, length};

use changes::{Changes, unit_at};
use redo::Puts;
use stable::UNIT;

/// Changes with a copy of each unit.
#[derive(Clone, Copy, Drop)]
pub struct Copies<'a> {
    /// The changes.
    pub changes: &'a Changes,
}

impl<'a> Puts for Copies<'a> {
    ghost use Rattle.changes.specs.Units.{puts_of};

    ghost puts = { λ c. puts_of c.changes.now };

    fn numbers(&self) -> &[u32] {
        &self.changes.numbers
    }

    fn unit(&self, at: usize) -> [u8; UNIT] {
        self.changes.units[at]
    }
}

/// Units of an image, where it lies: zeros follow where it ends.
#[derive(Clone, Copy, Drop)]
pub struct InPlace<'a> {
    /// The numbers of the units.
    pub numbers: &'a [u32],
    /// The image's bytes.
    pub image: &'a [u8],
    ghost few: { length numbers.now < 2 ^ 32 },
}

impl<'a> Puts for InPlace<'a> {
    ghost use Rattle.image_file.specs.Images.{units_of};

    ghost puts = { λ c. units_of c.image.now c.numbers.now };

    fn numbers(&self) -> &[u32] {
        self.numbers
    }

    fn unit(&self, at: usize) -> [u8; UNIT] {
        unit_at(self.image, self.numbers[at])
    }
}
