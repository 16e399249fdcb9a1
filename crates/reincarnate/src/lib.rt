//! The reincarnation server: when a disk driver is started, when the next one is, and when the device is given up.
//!
//! It decides and does nothing else: whoever runs it tells it each exit, tick and complaint, and does what it answers.
#![tactic(auto)]

pub mod policy;
mod reincarnation;
mod watch;

ghost use Rattle.std.specs.Prelude.{◌≡◌};
ghost use Rattle.reincarnate.specs.Follows.{EveryListIsDecided};
ghost use Rattle.reincarnate.specs.Supply.{refusal_number};

use message::endpoint::Endpoint;
pub use reincarnation::Reincarnation;
use thiserror::Error;

/// What is to be done at an event.
#[derive(Drop)]
pub enum Action<D> {
    /// Nothing.
    Nothing,
    /// The driver that ran is at fault: the next one is started at the first tick not before this one.
    WaitUntil(u64),
    /// This driver is started at this endpoint: the next of the supply, which it leaves.
    Start(Endpoint, D),
    /// The driver that ran is at fault, and no other is started any more.
    GiveUp,
}

/// Why there is no reincarnation server.
#[derive(Clone, Copy, Debug, PartialEq, Eq, Error)]
pub enum SupplyRefusal {
    /// A number of the policy isn't in its range.
    #[error("BadPolicy")]
    BadPolicy,
    /// There is no driver.
    #[error("NoDriver")]
    NoDriver,
    /// No memory was found for the supply.
    #[error("OutOfMemory")]
    OutOfMemory,
}

impl SupplyRefusal {
    /// Its number: 1 to 3.
    pub fn number(self) -> u32
        ensures { result ≡ refusal_number self }
    {
        match self {
            SupplyRefusal::BadPolicy => 1,
            SupplyRefusal::NoDriver => 2,
            SupplyRefusal::OutOfMemory => 3,
        }
    }
}

/// What is decided at each of a list of events is what the restart policy does at them, and the drivers are started in their order.
#[tactic(auto, using(crate::proofs::FollowLaws::every_list_is_decided))]
pub fn every_list_is_decided<D>()
    ensures { EveryListIsDecided D }
{}
