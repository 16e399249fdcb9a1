//! Where the volume of a minor lies.

ghost use Rattle.std.specs.Prelude.{◌≡◌, ◌+◌, ◌<◌, ◌≤◌, ◌^◌, IfOk, length};
ghost use Rattle.media.specs.Refusals.{table_of};
ghost use Rattle.media.specs.Places.{minix_range, minix_range_or, volume_place};

use crate::partition::{PartitionRefusal, Table, parse};

/// The type of MINIX's partitions.
const MINIX: u8 = 0x81;

/// Why a disk has no volume of a minor.
#[derive(Clone, Copy, Debug, Drop, PartialEq, Eq)]
pub enum PlaceRefusal {
    /// The disk's partition table is refused.
    Table(PartitionRefusal),
    /// The disk has no partition of this minor, or it isn't of MINIX's type.
    NoPartition,
}

/// Where the volume of a minor lies on a disk of these sectors: its first sector, and how many there are. Minor 0 is all of the disk, and
/// another one a partition of MINIX's type, 0x81, by the table in the first sector. A disk without sectors has no signature.
pub fn volume_place(sectors: &[[u8; 512]], minor: u8) -> Result<(u32, u32), PlaceRefusal>
    requires { length sectors.now < 2 ^ 32 }
    ensures place { result ≡ volume_place sectors.now minor }
    ensures inside { IfOk result (λ range. range.0 + range.1 ≤ length sectors.now) }
{
    let count = sectors.len() as u32;
    if minor == 0 {
        return Ok((0, count));
    }
    match sectors.first() {
        Some(first) => partition_by(first, count, minor),
        None => Err(PlaceRefusal::Table(PartitionRefusal::NoSignature)),
    }
}

/// Where a partition of MINIX's type lies, by the table in the first of so many sectors.
fn partition_by(first: &[u8; 512], sectors: u32, minor: u8) -> Result<(u32, u32), PlaceRefusal>
    ensures place { result ≡ minix_range_or (table_of first.now sectors) minor }
    ensures inside { IfOk result (λ range. range.0 + range.1 ≤ sectors) }
{
    match parse(first, sectors) {
        Ok(table) => partition_in(&table, minor),
        Err(refusal) => Err(PlaceRefusal::Table(refusal)),
    }
}

/// Where a table has a partition of MINIX's type.
fn partition_in(table: &Table, minor: u8) -> Result<(u32, u32), PlaceRefusal>
    ensures place { result ≡ minix_range table.now minor }
    ensures inside { IfOk result (λ range. range.0 + range.1 ≤ table.now.sectors) }
{
    match table.kind(minor) {
        Some(MINIX) => table.range(minor).ok_or(PlaceRefusal::NoPartition),
        _ => Err(PlaceRefusal::NoPartition),
    }
}
