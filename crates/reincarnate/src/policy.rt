//! When a disk driver is replaced: what a fault is, how long the next start waits, when the device is given up.
//!
//! Faults, starts and their spacing are those of MINIX's reincarnation server; the numbers are this project's own.

ghost use Rattle.std.specs.Prelude.{◌≡◌, ◌↔◌, IsTrue};
ghost use Rattle.reincarnate.specs.Laws.{TickIsFault, WatchFollowsFaults};

use message::endpoint::Endpoint;

/// How faults are counted and how long a start waits.
#[derive(Clone, Copy, Debug, PartialEq, Eq)]
pub struct Policy {
    /// The greatest number of a fault after which a driver is still started: 0 to 32.
    pub max_faults: u32,
    /// The most ticks that a start waits after its fault: 1 to 1024.
    pub cap: u32,
    /// A fault this many ticks after the one before it counts as a first one: 1 to 65535.
    pub calm: u32,
    /// So many missed heartbeats in a row are a fault: 1 to 16.
    pub misses: u32,
}

/// What a service or a run of a schedule is set up with.
#[derive(Clone, Copy, Debug, PartialEq, Eq)]
pub struct Setup {
    /// Where the volume lies: 0 is the whole media, 1 to 4 are the entries of its partition table.
    pub minor: u8,
    /// How many blocks the server's cache holds: 16 to 4096.
    pub frames: usize,
    /// When drivers are replaced.
    pub policy: Policy,
}

/// What the reincarnation server is told. Ticks never fall from one event to the next.
#[derive(Clone, Copy, Debug, PartialEq, Eq)]
pub enum Event {
    /// The driver at this endpoint ended, at this tick.
    Exit(Endpoint, u64),
    /// A tick, with the pulse: the generation that beat last and its count of beats.
    Tick(u64, (u32, u32)),
    /// The file server complains of an answer of the driver at this endpoint, at this tick.
    Complaint(Endpoint, u64),
}

impl Policy {
    ghost use Rattle.reincarnate.specs.Policy.{IsAllowed};

    /// Whether each number is in its range.
    pub fn is_allowed(&self) -> bool
        ensures { IsTrue result ↔ IsAllowed self.now }
    {
        let waits = 1 <= self.cap && self.cap <= 1024;
        let calms = 1 <= self.calm && self.calm <= 65535;
        let beats = 1 <= self.misses && self.misses <= 16;
        self.max_faults <= 32 && waits && calms && beats
    }
}

impl Default for Policy {
    ghost use Rattle.reincarnate.specs.Policy.{default_policy};

    ghost is_default = { λ policy. policy ≡ default_policy };

    /// Five faults in a row, a wait of at most 32 ticks, calm after 64, three missed heartbeats.
    fn default() -> Self {
        Policy {
            max_faults: 5,
            cap: 32,
            calm: 64,
            misses: 3,
        }
    }
}

/// What the reincarnation server remembers of its faults is what the list of their ticks says.
#[tactic(auto, using(crate::proofs::WatchLaws::watch_follows_faults))]
pub fn watch_follows_faults()
    ensures { WatchFollowsFaults }
{}

/// A tick is a fault exactly where it is the last of enough misses in a row.
#[tactic(auto, using(crate::proofs::PulseLaws::tick_is_fault))]
pub fn tick_is_fault()
    ensures { TickIsFault }
{}
