//! Blocks in frames, as the layers of a file server see them: a trait, and the numbers and bytes in a block.
#![tactic(auto)]

pub mod blocks;
pub mod laws;
pub mod memory;
pub mod regions;
pub mod words;

ghost use Rattle.std.specs.Prelude.{◌≡◌};
ghost use Rattle.block_store.specs.Halts.{cut_number};

pub use blocks::Blocks;
use thiserror::Error;

/// Why a call was cut. What would be read back after it isn't known, but where a call's own clause says so.
#[derive(Clone, Copy, Debug, PartialEq, Eq, Error)]
pub enum Cut {
    /// The device was given up.
    #[error("Eio")]
    Eio,
    /// The link gives no message any more.
    #[error("LinkEnded")]
    LinkEnded,
}

impl Cut {
    /// Its number: 1 or 2.
    pub fn number(self) -> u32
        ensures { result ≡ cut_number self }
    {
        match self {
            Cut::Eio => 1,
            Cut::LinkEnded => 2,
        }
    }
}

/// Why a call on a volume ended early.
#[derive(Clone, Copy, Debug, PartialEq, Eq, Error)]
pub enum Halt {
    /// It was cut.
    #[error("{0}")]
    Cut(Cut),
    /// The volume isn't sound, or the call's own condition on it doesn't hold: a number that is no data zone's, an inode out of range,
    /// a map without a free bit where one is due, and what each call names.
    #[error("Unsound")]
    Unsound,
}

impl From<Cut> for Halt {
    ghost use Rattle.block_store.specs.Halts.{cut_off};

    ghost from_gives = { λ cut halt. halt ≡ cut_off cut };

    fn from(cut: Cut) -> Halt {
        Halt::Cut(cut)
    }
}
