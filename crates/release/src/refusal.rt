//! Why nothing is released.

ghost use Rattle.release.specs.declared.refusal.ReleaseRefusal.TheVariants.{Halted as WasHalted, OutOfMemory as NoMemory};
ghost use Rattle.std.specs.Prelude.{◌≡◌};

use block_store::Halt;
use fsck::OutOfMemory;
use std::alloc::AllocError;
use thiserror::Error;

/// Why nothing is released. The image is as it was.
#[derive(Clone, Copy, Debug, Drop, PartialEq, Eq, Error)]
pub enum ReleaseRefusal {
    /// No memory was found. It takes as much as the volume has bytes, beside what the check takes.
    #[error("OutOfMemory")]
    OutOfMemory,
    /// The steps were cut. Blocks in memory are all at hand, so no image is known with which it comes to this; that there is none is tested,
    /// and not proved.
    #[error("Halted")]
    Halted,
}

impl From<AllocError> for ReleaseRefusal {
    ghost from_gives = { λ _ e. e ≡ NoMemory };

    fn from(_error: AllocError) -> ReleaseRefusal {
        ReleaseRefusal::OutOfMemory
    }
}

impl From<OutOfMemory> for ReleaseRefusal {
    ghost from_gives = { λ _ e. e ≡ NoMemory };

    fn from(_error: OutOfMemory) -> ReleaseRefusal {
        ReleaseRefusal::OutOfMemory
    }
}

impl From<Halt> for ReleaseRefusal {
    ghost from_gives = { λ _ e. e ≡ WasHalted };

    fn from(_halt: Halt) -> ReleaseRefusal {
        ReleaseRefusal::Halted
    }
}
