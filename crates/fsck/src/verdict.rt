//! What a check answers.

ghost use Rattle.std.specs.Prelude.{◌≡◌};

use layout::Geometry;
use std::alloc::AllocError;
use thiserror::Error;
use volume::Finding;

/// That an image is clean, with its sizes. Only a check makes one.
#[derive(Clone, Copy, Debug, PartialEq, Eq)]
pub struct Clean {
    geometry: Geometry,
}

impl Clean {
    /// Of a volume of these sizes.
    pub(crate) fn of(geometry: Geometry) -> Clean
        ensures { result.geometry ≡ geometry }
    {
        Clean { geometry }
    }

    /// The volume's sizes.
    pub fn geometry(&self) -> Geometry
        ensures { result ≡ self.now.geometry }
    {
        self.geometry
    }
}

/// What a check says of an image.
#[derive(Clone, Copy, Debug, PartialEq, Eq)]
pub enum Verdict {
    /// No rule is broken: it holds a tree without an open file.
    Clean(Clean),
    /// The first rule that is broken, and where.
    Found(Finding),
}

/// No memory was found for the check.
#[derive(Clone, Copy, Debug, Drop, Error, PartialEq, Eq)]
#[error("OutOfMemory")]
pub struct OutOfMemory;

impl From<AllocError> for OutOfMemory {
    fn from(_error: AllocError) -> OutOfMemory {
        OutOfMemory
    }
}
