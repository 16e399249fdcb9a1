//! Why a call on a tree ends early.

ghost use Rattle.std.specs.Prelude.{◌≡◌};

use block_store::{Cut, Halt};
use errno::Errno;
use thiserror::Error;

/// Why a call on a tree ended early.
#[derive(Clone, Copy, Debug, PartialEq, Eq, Error)]
pub enum Stop {
    /// The call is refused; nothing was changed.
    #[error("{0}")]
    Refused(Errno),
    /// It was cut, or the volume isn't sound.
    #[error("{0}")]
    Halted(Halt),
}

impl From<Errno> for Stop {
    ghost use Rattle.path.specs.Stops.{refused};

    ghost from_gives = { λ errno stop. stop ≡ refused errno };

    fn from(errno: Errno) -> Stop {
        Stop::Refused(errno)
    }
}

impl From<Halt> for Stop {
    ghost use Rattle.path.specs.Stops.{halted};

    ghost from_gives = { λ halt stop. stop ≡ halted halt };

    fn from(halt: Halt) -> Stop {
        Stop::Halted(halt)
    }
}

impl From<Cut> for Stop {
    ghost use Rattle.block_store.specs.Halts.{cut_off};
    ghost use Rattle.path.specs.Stops.{halted};

    ghost from_gives = { λ cut stop. stop ≡ halted (cut_off cut) };

    fn from(cut: Cut) -> Stop {
        Stop::Halted(Halt::Cut(cut))
    }
}
