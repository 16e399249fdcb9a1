//! Why a file server isn't started.

ghost use Rattle.std.specs.Prelude.{◌≡◌, Some};
ghost use Rattle.volume_mount.specs.StartupRefusals.{start_refusal_number, start_refusal_text};

use crate::MountRefusal;
use media::MediaRefusal;
use media::partition::{PartitionRefusal, PlaceRefusal};
use std::alloc::AllocError;
use std::{error, fmt};

/// Why a server isn't started. Nothing is left running, and the image is as it was.
#[derive(Clone, Copy, Debug, Drop, PartialEq, Eq)]
pub enum StartRefusal {
    /// The image makes no media.
    Media(MediaRefusal),
    /// The media's partition table is refused.
    Partition(PartitionRefusal),
    /// The media have no partition of this minor, or it isn't of MINIX's type.
    NoPartition,
    /// The volume isn't mounted.
    Mount(MountRefusal),
    /// A number of the setup isn't in its range, or some driver isn't ready for the range of the media that the volume lies in.
    BadSetup,
    /// There is no driver.
    NoDriver,
    /// No memory was found.
    OutOfMemory,
}

/// Writes the name, and what it carries.
impl fmt::Display for StartRefusal {
    ghost output = { λ refusal. Some (start_refusal_text refusal) };

    fn fmt<W: fmt::Write>(&self, f: &mut fmt::Formatter<W>) -> fmt::Result {
        match self {
            StartRefusal::Media(refusal) => write!(f, "Media {refusal}"),
            StartRefusal::Partition(refusal) => write!(f, "Partition {refusal}"),
            StartRefusal::NoPartition => f.write_str("Partition"),
            StartRefusal::Mount(refusal) => write!(f, "Mount {refusal}"),
            StartRefusal::BadSetup => f.write_str("BadSetup"),
            StartRefusal::NoDriver => f.write_str("NoDriver"),
            StartRefusal::OutOfMemory => f.write_str("OutOfMemory"),
        }
    }
}

impl error::Error for StartRefusal {}

impl StartRefusal {
    /// Its number: 1 to 6.
    pub fn number(&self) -> u32
        ensures { result ≡ start_refusal_number self.now }
    {
        match self {
            StartRefusal::Media(_) => 1,
            StartRefusal::Partition(_) => 2,
            StartRefusal::NoPartition => 2,
            StartRefusal::Mount(_) => 3,
            StartRefusal::BadSetup => 4,
            StartRefusal::NoDriver => 5,
            StartRefusal::OutOfMemory => 6,
        }
    }
}

impl From<AllocError> for StartRefusal {
    ghost use Rattle.volume_mount.specs.declared.refusal.StartRefusal.TheVariants.{OutOfMemory};

    ghost from_gives = { λ _ e. e ≡ OutOfMemory };

    fn from(_error: AllocError) -> StartRefusal {
        StartRefusal::OutOfMemory
    }
}

impl From<PlaceRefusal> for StartRefusal {
    ghost use Rattle.volume_mount.specs.StartupRefusals.{refusal_of_place};

    ghost from_gives = { λ refusal e. e ≡ refusal_of_place refusal };

    fn from(refusal: PlaceRefusal) -> StartRefusal {
        match refusal {
            PlaceRefusal::Table(refusal) => StartRefusal::Partition(refusal),
            PlaceRefusal::NoPartition => StartRefusal::NoPartition,
        }
    }
}
