//! Why a volume isn't migrated.

ghost use Rattle.std.specs.Prelude.{◌≡◌, Some};
ghost use Rattle.migrate.specs.Migrated.{refusal_text};
ghost use Rattle.migrate.specs.declared.refusal.MigrateRefusal.TheVariants.{OutOfMemory as NoMemory};

use crate::old_volume::OldRefusal;
use fsck::OutOfMemory;
use std::alloc::AllocError;
use std::error::Error;
use std::fmt;
use volume::Finding;

/// Why a volume isn't migrated: the first of these that holds, in this order. No memory may be found at any time.
#[derive(Clone, Copy, Debug, Drop, PartialEq, Eq)]
pub enum MigrateRefusal {
    /// The superblock of the old volume is refused.
    OldLayout(OldRefusal),
    /// The old volume breaks a rule of its format.
    Found(Finding),
    /// Over 65536 blocks are wanted.
    TooManyBlocks,
    /// The new volume has fewer data zones than the tree uses, or none.
    DoesNotFit,
    /// No memory was found.
    OutOfMemory,
}

/// Writes `migrate refusal 1 at N`, `migrate refusal 2 finding N at P`, or the number alone.
impl fmt::Display for MigrateRefusal {
    ghost output = { λ refusal. Some (refusal_text refusal) };

    fn fmt<W: fmt::Write>(&self, f: &mut fmt::Formatter<W>) -> fmt::Result {
        match self {
            MigrateRefusal::OldLayout(refusal) => {
                write!(f, "migrate refusal 1 at {}", refusal.number())
            }
            MigrateRefusal::Found(finding) => write!(f, "migrate refusal 2 {finding}"),
            MigrateRefusal::TooManyBlocks => f.write_str("migrate refusal 3"),
            MigrateRefusal::DoesNotFit => f.write_str("migrate refusal 4"),
            MigrateRefusal::OutOfMemory => f.write_str("migrate refusal 5"),
        }
    }
}

impl Error for MigrateRefusal {}

impl From<AllocError> for MigrateRefusal {
    ghost from_gives = { λ _ e. e ≡ NoMemory };

    fn from(_error: AllocError) -> MigrateRefusal {
        MigrateRefusal::OutOfMemory
    }
}

impl From<OutOfMemory> for MigrateRefusal {
    ghost from_gives = { λ _ e. e ≡ NoMemory };

    fn from(_error: OutOfMemory) -> MigrateRefusal {
        MigrateRefusal::OutOfMemory
    }
}
