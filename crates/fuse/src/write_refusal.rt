//! Why an answer isn't written.

ghost use Rattle.std.specs.Prelude.{◌≡◌};
ghost use Rattle.fuse.specs.declared.write_refusal.WriteRefusal.TheVariants.{OutOfMemory};

use std::alloc::AllocError;

/// Why an answer isn't written.
#[derive(Clone, Copy, Debug, Drop, PartialEq, Eq)]
pub enum WriteRefusal {
    /// It has more bytes than a length of 32 bits tells.
    TooLong,
    /// No memory was found.
    OutOfMemory,
}

impl From<AllocError> for WriteRefusal {
    ghost from_gives = { λ _ e. e ≡ OutOfMemory };

    fn from(_error: AllocError) -> WriteRefusal {
        WriteRefusal::OutOfMemory
    }
}
