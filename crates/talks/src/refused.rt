//! Why a request is refused.

ghost use Rattle.std.specs.Prelude.{◌≡◌};
ghost use Rattle.talks.specs.Numbers.{number_of};
ghost use Rattle.talks.specs.Refusals.{by_errno, by_memory, by_entering};

use crate::sessions::EnterRefusal;
use errno::Errno;
use std::alloc::AllocError;

/// Why a request is refused.
#[derive(Clone, Copy, Debug, PartialEq, Eq)]
pub enum Refused {
    /// The file server refuses it, or would.
    By(Errno),
    /// A file has lost its name, by which it was known, and isn't open.
    Stale,
    /// There is no such thing on a MINIX volume, or the server has no call for it.
    Unsupported,
}

impl Refused {
    /// The number of the error, as Linux has it.
    pub fn number(&self) -> u32
        ensures { result ≡ number_of self.now }
    {
        match self {
            Refused::By(errno) => errno.number(),
            Refused::Stale => 116,
            Refused::Unsupported => 95,
        }
    }
}

impl From<Errno> for Refused {
    ghost from_gives = { by_errno };

    fn from(errno: Errno) -> Refused {
        Refused::By(errno)
    }
}

impl From<AllocError> for Refused {
    ghost from_gives = { by_memory };

    fn from(_error: AllocError) -> Refused {
        Refused::By(Errno::ENOMEM)
    }
}

impl From<EnterRefusal> for Refused {
    ghost from_gives = { by_entering };

    fn from(refusal: EnterRefusal) -> Refused {
        match refusal {
            EnterRefusal::TooMany => Refused::By(Errno::ENFILE),
            EnterRefusal::Stopped => Refused::By(Errno::EIO),
            EnterRefusal::OutOfMemory => Refused::By(Errno::ENOMEM),
        }
    }
}
