//! What a program hands to a server beside an image: the partition table that its drivers go by, the drivers, and the setup.

pub mod driver;

ghost use Rattle.std.specs.Prelude.{◌≡◌, ◌+◌, All, IfOk, length};
ghost use Rattle.reincarnate.specs.Policy.{default_policy};
ghost use Rattle.modeldisk.specs.Supply.{count_of, table_of_image, table_by, IsNew};

use crate::{ModelDriver, RamDriver};
pub use driver::DiskDriver;
use media::partition::{Table, parse};
use reincarnate::policy::{Policy, Setup};
use std::alloc::{AllocError, Global};

/// How many blocks the server's cache may hold (own).
const FRAMES: usize = 64;

/// The bytes of a sector.
const SECTOR: usize = 512;

/// The partition table in the first sector of an image, where there is one; else the whole image alone. An end of the image that is no
/// whole sector isn't looked at; an image of 2^32 sectors or more counts as one of 2^32 - 1.
pub fn table_in(image: &[u8]) -> Table
    ensures { result ≡ table_of_image image.now }
{
    let (sectors, _) = image.as_chunks::<SECTOR>();
    table_for(sectors)
}

/// How many sectors there are, as far as 32 bits count.
fn count_of(sectors: &[[u8; 512]]) -> u32
    ensures { result ≡ count_of sectors.now }
{
    sectors.len().min(u32::MAX as usize) as u32
}

/// The same of its sectors.
fn table_for(sectors: &[[u8; 512]]) -> Table
    ensures { result ≡ table_by sectors.now }
{
    let count = count_of(sectors);
    let Some(first) = sectors.first() else {
        return Table::whole(count);
    };
    match parse(first, count) {
        Ok(table) => table,
        Err(_) => Table::whole(count),
    }
}

/// So many drivers and one more, each new, with the ranges of this table: in memory, or with an arm over the sectors that stands at sector
/// 0.
pub fn drivers_for(
    alloc: Global,
    spares: u8,
    model: bool,
    table: Table,
) -> Result<Vec<DiskDriver>, AllocError>
    ensures count { IfOk result (λ drivers. length drivers.items ≡ spares + 1) }
    ensures each { IfOk result (λ drivers. All (IsNew model table) drivers.items) }
{
    let mut drivers = Vec::new(alloc);
    for spare in 0..u32::from(spares) + 1 {
        drivers.push(new_driver(model, table))?;
    }
    Ok(drivers)
}

/// A new driver with the ranges of this table.
fn new_driver(model: bool, table: Table) -> DiskDriver
    ensures { IsNew model table result }
{
    if model {
        DiskDriver::Arm(ModelDriver::new(table, 0))
    } else {
        DiskDriver::Ram(RamDriver::new(table))
    }
}

/// The setup of a program: this minor, 64 frames, and the default policy.
pub fn setup_for(minor: u8) -> Setup
    ensures { result ≡ record { minor = minor; frames = 64; policy = default_policy } }
{
    Setup {
        minor,
        frames: FRAMES,
        policy: Policy::default(),
    }
}
