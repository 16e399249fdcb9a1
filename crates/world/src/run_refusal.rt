//! Why no run is begun.

ghost use Rattle.std.specs.Prelude.{◌≡◌, Some};
ghost use Rattle.world.specs.Reasons.{number_of_refusal, refusal_text};

use media::MediaRefusal;
use media::partition::PlaceRefusal;
use std::{error, fmt};
use volume::Finding;

/// Why there is no transcript. The image is as it was, and the drivers are let go. Nothing was run, but where memory ended within a run.
#[derive(Clone, Copy, Debug, Drop, PartialEq, Eq)]
pub enum RunRefusal {
    /// The image makes no media: it isn't whole sectors, or has too many.
    Media(MediaRefusal),
    /// The media's partition table is refused, or has no partition of MINIX's type for this minor.
    Partition(PlaceRefusal),
    /// The volume breaks a rule of the format.
    NotClean(Finding),
    /// A number of the setup isn't in its range, or some driver isn't ready for the range of the media that the volume lies in.
    BadSetup,
    /// There is no driver.
    NoDriver,
    /// No memory was found.
    OutOfMemory,
}

/// Writes the name, and what it carries.
impl fmt::Display for RunRefusal {
    ghost output = { λ refusal. Some (refusal_text refusal) };

    fn fmt<W: fmt::Write>(&self, f: &mut fmt::Formatter<W>) -> fmt::Result {
        match self {
            RunRefusal::Media(refusal) => write!(f, "Media {refusal}"),
            RunRefusal::Partition(PlaceRefusal::Table(refusal)) => {
                write!(f, "Partition {refusal}")
            }
            RunRefusal::Partition(PlaceRefusal::NoPartition) => f.write_str("Partition"),
            RunRefusal::NotClean(finding) => write!(f, "NotClean {finding}"),
            RunRefusal::BadSetup => f.write_str("BadSetup"),
            RunRefusal::NoDriver => f.write_str("NoDriver"),
            RunRefusal::OutOfMemory => f.write_str("OutOfMemory"),
        }
    }
}

impl error::Error for RunRefusal {}

impl RunRefusal {
    /// Its number: 1 to 6.
    pub fn number(&self) -> u32
        ensures { result ≡ number_of_refusal self.now }
    {
        match self {
            RunRefusal::Media(_) => 1,
            RunRefusal::Partition(_) => 2,
            RunRefusal::NotClean(_) => 3,
            RunRefusal::BadSetup => 4,
            RunRefusal::NoDriver => 5,
            RunRefusal::OutOfMemory => 6,
        }
    }
}
