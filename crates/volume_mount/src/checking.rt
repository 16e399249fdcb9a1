//! Reading a whole volume through a link, and checking it.

ghost use Rattle.std.specs.Prelude.{◌≡◌, ◌+◌, ◌-◌, ◌*◌, ◌<◌, ◌≤◌, ◌^◌, ◌%◌, ℕ, [], false, length, slice_index, OnOk, Err};
ghost use Rattle.records.specs.Told.{took_end};
ghost use Rattle.reissue.specs.Posts.{HasRoom};
ghost use Rattle.reissue.specs.Transfers.{link_of, table_of};
ghost use Rattle.volume_mount.specs.Whole.{HasSizes};
ghost use Rattle.volume_mount.specs.Mounts.{IsChecked, ReadsRest, ReadsVolume, StandsIdle};

use crate::whole::{MountRefusal, sizes};
use fsck::{Clean, Verdict, check};
use layout::Geometry;
use reissue::{Link, Transfers};
use std::alloc::Global;
use volume_reading::{Stop, read_range};

/// Checks the bytes of a volume.
pub(crate) fn checked(alloc: Global, bytes: &[u8]) -> Result<Clean, MountRefusal>
    ensures { IsChecked bytes.now result }
{
    match check(alloc, bytes) {
        Ok(Verdict::Clean(clean)) => Ok(clean),
        Ok(Verdict::Found(finding)) => Err(MountRefusal::Inconsistent(finding)),
        Err(_) => Err(MountRefusal::OutOfMemory),
    }
}

/// How many bytes a volume of these sizes has: 3072 to 2^28, a multiple of 512.
fn volume_size(geometry: &Geometry) -> usize
    requires { HasSizes geometry.now }
    ensures size { result ≡ geometry.now.zones * geometry.now.block_size }
    ensures least { 3072 ≤ result }
    ensures most { result ≤ 2 ^ 28 }
    ensures whole { result % 512 ≡ 0 }
{
    geometry.zones as usize * geometry.block_size as usize
}

/// Puts the head of a volume at the front of its bytes.
fn put_head(bytes: &mut [u8], head: &[u8; 2048])
    requires least { 2048 ≤ length bytes.old }
    ensures same_length { length bytes.new ≡ length bytes.old }
    ensures low { (k : ℕ) → k < 2048 → slice_index bytes.new k ≡ slice_index head.now k }
{
    bytes[0..2048].copy_from_slice(head);
}

/// Reads the bytes of a volume from 2048 on into their places.
fn read_rest<L: Link>(
    alloc: Global,
    transfers: &mut Transfers<L>,
    minor: u8,
    bytes: &mut [u8],
) -> Result<(), Stop>
    requires least { 3072 ≤ length bytes.old }
    requires most { length bytes.old ≤ 2 ^ 28 }
    requires whole { length bytes.old % 512 ≡ 0 }
    requires idle { (table_of transfers.old).pending ≡ [] }
    requires live { (table_of transfers.old).given_up ≡ false }
    requires unended { took_end (L.history (link_of transfers.old)) ≡ false }
    requires room { HasRoom (table_of transfers.old) (L.room (link_of transfers.old)) }
    requires ids { (table_of transfers.old).ids + 2 * L.budget_left (link_of transfers.old) ≤ 2 ^ 59 + 4096 }
    ensures same_length { length bytes.new ≡ length bytes.old }
    ensures reads { ReadsRest result minor (length bytes.old - 2048) bytes.old bytes.new (table_of transfers.old) (table_of transfers.new)
        (L.history (link_of transfers.old)) (L.history (link_of transfers.new)) (L.truth (link_of transfers.old))
        (L.truth (link_of transfers.new)) }
    ensures goes { L.goes_on (link_of transfers.old) (link_of transfers.new) }
    ensures room { OnOk result (HasRoom (table_of transfers.new) (L.room (link_of transfers.new))) }
    ensures ids { OnOk result ((table_of transfers.new).ids + 2 * L.budget_left (link_of transfers.new)
        ≤ (table_of transfers.old).ids + 2 * L.budget_left (link_of transfers.old) + (length bytes.old - 2048)) }
    ensures refused { result ≡ Err Stop.OutOfMemory → transfers.new ≡ transfers.old }
{
    let size = bytes.len();
    read_range(alloc, transfers, minor, 2048, &mut bytes[2048..size])
}

/// Puts the head of a volume at the front of its bytes, and reads the others into their places.
fn read_behind<L: Link>(
    alloc: Global,
    transfers: &mut Transfers<L>,
    minor: u8,
    head: &[u8; 2048],
    bytes: &mut [u8],
) -> Result<(), Stop>
    requires least { 3072 ≤ length bytes.old }
    requires most { length bytes.old ≤ 2 ^ 28 }
    requires whole { length bytes.old % 512 ≡ 0 }
    requires idle { (table_of transfers.old).pending ≡ [] }
    requires live { (table_of transfers.old).given_up ≡ false }
    requires unended { took_end (L.history (link_of transfers.old)) ≡ false }
    requires room { HasRoom (table_of transfers.old) (L.room (link_of transfers.old)) }
    requires ids { (table_of transfers.old).ids + 2 * L.budget_left (link_of transfers.old) ≤ 2 ^ 59 + 4096 }
    ensures same_length { length bytes.new ≡ length bytes.old }
    ensures reads { ReadsRest result minor (length bytes.old - 2048) head.now bytes.new (table_of transfers.old) (table_of transfers.new)
        (L.history (link_of transfers.old)) (L.history (link_of transfers.new)) (L.truth (link_of transfers.old))
        (L.truth (link_of transfers.new)) }
    ensures goes { L.goes_on (link_of transfers.old) (link_of transfers.new) }
    ensures room { OnOk result (HasRoom (table_of transfers.new) (L.room (link_of transfers.new))) }
    ensures ids { OnOk result ((table_of transfers.new).ids + 2 * L.budget_left (link_of transfers.new)
        ≤ (table_of transfers.old).ids + 2 * L.budget_left (link_of transfers.old) + (length bytes.old - 2048)) }
    ensures refused { result ≡ Err Stop.OutOfMemory → transfers.new ≡ transfers.old }
{
    put_head(bytes, head);
    read_rest(alloc, transfers, minor, bytes)
}

/// Reads the boot block and the superblock of a volume, then all its other bytes, and checks what was read: it is clean, or why not. It
/// takes messages until all has come. `Layout` where the superblock is refused, which is looked at before the rest is read;
/// `Inconsistent` with the check's finding; `Eio` and `LinkEnded` where not all was read; `OutOfMemory`, and then nothing is pending, the
/// device wasn't given up, and the link hasn't ended and has room: so the volume may be read again.
pub fn read_volume<L: Link>(
    alloc: Global,
    transfers: &mut Transfers<L>,
    minor: u8,
) -> Result<Clean, MountRefusal>
    requires idle { (table_of transfers.old).pending ≡ [] }
    requires live { (table_of transfers.old).given_up ≡ false }
    requires unended { took_end (L.history (link_of transfers.old)) ≡ false }
    requires room { HasRoom (table_of transfers.old) (L.room (link_of transfers.old)) }
    requires ids { (table_of transfers.old).ids + 2 * L.budget_left (link_of transfers.old) ≤ 2 ^ 59 }
    ensures reads { ReadsVolume result minor (table_of transfers.old) (table_of transfers.new)
        (L.history (link_of transfers.old)) (L.history (link_of transfers.new)) (L.truth (link_of transfers.old))
        (L.truth (link_of transfers.new)) }
    ensures goes { L.goes_on (link_of transfers.old) (link_of transfers.new) }
    ensures room { OnOk result (HasRoom (table_of transfers.new) (L.room (link_of transfers.new))) }
    ensures ids { OnOk result ((table_of transfers.new).ids + 2 * L.budget_left (link_of transfers.new)
        ≤ (table_of transfers.old).ids + 2 * L.budget_left (link_of transfers.old) + 2 ^ 28) }
    ensures refused { result ≡ Err MountRefusal.OutOfMemory → StandsIdle L.Link (table_of transfers.old).ids
        (L.budget_left (link_of transfers.old)) transfers.new }
{
    let mut head = [0; 2048];
    if let Err(stop) = read_range(alloc, transfers, minor, 0, &mut head) {
        return Err(MountRefusal::from(stop));
    }
    let geometry = match sizes(&head) {
        Ok(geometry) => geometry,
        Err(refusal) => return Err(MountRefusal::Layout(refusal)),
    };
    let mut bytes = match vec![in alloc; 0; volume_size(&geometry)] {
        Ok(bytes) => bytes,
        Err(_) => return Err(MountRefusal::OutOfMemory),
    };
    if let Err(stop) = read_behind(alloc, transfers, minor, &head, &mut bytes) {
        return Err(MountRefusal::from(stop));
    }
    checked(alloc, &bytes)
}
