//! Why no cache was made.

ghost use Rattle.std.specs.Prelude.{◌≡◌};
ghost use Rattle.cache.specs.Refusals.{cache_refusal_number};

use thiserror::Error;

/// Why no cache was made.
#[derive(Clone, Copy, Debug, PartialEq, Eq, Error)]
pub enum CacheRefusal {
    /// The number of frames isn't 16 to 4096. Looked at first.
    #[error("BadFrames")]
    BadFrames,
    /// There is no memory for the frames.
    #[error("OutOfMemory")]
    OutOfMemory,
}

impl CacheRefusal {
    /// Its number: 1 or 2.
    pub fn number(self) -> u32
        ensures { result ≡ cache_refusal_number self }
    {
        match self {
            CacheRefusal::BadFrames => 1,
            CacheRefusal::OutOfMemory => 2,
        }
    }
}
