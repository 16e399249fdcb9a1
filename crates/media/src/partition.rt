//! The DOS partition table in the first sector of a disk, and where the volume of a minor lies.

pub mod place;

ghost use Rattle.std.specs.Prelude.{◌≡◌, ◌+◌, ◌≤◌, [], ◌∷◌, IfOk, IfSome, Some, get_or};
ghost use Rattle.std.specs.List.{list_any};
ghost use Rattle.media.specs.Entries.{entry_at, unless_empty, entries_of, has_overlap, has_signature, holds_sector_0, meets, overlap};
ghost use Rattle.media.specs.Entries.{passes};
ghost use Rattle.media.specs.Table.{IsTable, kind_at, range_at, range_of_entry};
ghost use Rattle.media.specs.Refusals.{partition_refusal_name, partition_refusal_number, checked, table_of};

use byteorder::{ByteOrder, LittleEndian};
pub use place::{PlaceRefusal, volume_place};
use std::marker::Model;
use std::{error, fmt};

/// Why a partition table is refused: the first of these that holds.
#[derive(Clone, Copy, Debug, Drop, PartialEq, Eq)]
pub enum PartitionRefusal {
    /// The bytes 0x55 and 0xaa don't end the sector.
    NoSignature,
    /// An entry ends past the media.
    PastMedia,
    /// Two entries share a sector, or one holds sector 0, where the table itself stands.
    Overlap,
}

impl PartitionRefusal {
    /// Its number.
    pub fn number(&self) -> u32
        ensures { result ≡ partition_refusal_number self.now }
    {
        match self {
            PartitionRefusal::NoSignature => 1,
            PartitionRefusal::PastMedia => 2,
            PartitionRefusal::Overlap => 3,
        }
    }
}

/// Writes the name.
impl fmt::Display for PartitionRefusal {
    ghost output = { λ refusal. Some (partition_refusal_name refusal) };

    fn fmt<W: fmt::Write>(&self, f: &mut fmt::Formatter<W>) -> fmt::Result {
        f.write_str(match self {
            PartitionRefusal::NoSignature => "NoSignature",
            PartitionRefusal::PastMedia => "PastMedia",
            PartitionRefusal::Overlap => "Overlap",
        })
    }
}

impl error::Error for PartitionRefusal {}

/// An entry of a table.
#[derive(Clone, Copy)]
pub struct PartitionEntry {
    /// The type of the partition; MINIX's is 0x81.
    pub kind: u8,
    /// Its first sector.
    pub first: u32,
    /// How many sectors it has.
    pub count: u32,
}

/// The ranges of a media by minor: 0 is the whole media, 1 to 4 are the entries of its table.
#[derive(Clone, Copy)]
pub struct Table {
    sectors: u32,
    entries: [Option<PartitionEntry>; 4],
}

impl Model for Table {
    ghost use Rattle.media.specs.Table.{TableState, IsTable};

    ghost Value = { TableState };

    ghost view = { λ t. record { sectors = t.sectors; entries = t.entries } };

    ghost invariant = { λ t. IsTable (record { sectors = t.sectors; entries = t.entries }) };

    ghost inverse = { λ v. record { sectors = v.sectors; entries = v.entries } };
}

impl Table {
    /// The ranges of media without partitions: minor 0 alone.
    pub fn whole(sectors: u32) -> Table
        ensures { result ≡ record { sectors = sectors; entries = None ∷ None ∷ None ∷ None ∷ [] } }
    {
        Table {
            sectors,
            entries: [None; 4],
        }
    }

    /// The first sector of a minor's range and how many there are: of the whole media for minor 0, of
    /// an entry that isn't empty for minors 1 to 4.
    pub fn range(&self, minor: u8) -> Option<(u32, u32)>
        ensures value { result ≡ range_at self.now minor }
        ensures inside { IfSome result (λ r. r.0 + r.1 ≤ self.now.sectors) }
        ensures table { IsTable self.now }
    {
        if minor == 0 {
            return Some((0, self.sectors));
        }
        range_of(self.entry(minor))
    }

    /// The type of a minor's entry: for minors 1 to 4 whose entry isn't empty.
    pub fn kind(&self, minor: u8) -> Option<u8>
        ensures { result ≡ kind_at self.now minor }
    {
        let entry = self.entry(minor)?;
        Some(entry.kind)
    }

    /// The entry of a minor.
    fn entry(&self, minor: u8) -> Option<PartitionEntry>
        ensures { result ≡ get_or (None ∷ self.now.entries) minor None }
    {
        match minor {
            1..=4 => self.entries[minor as usize - 1],
            _ => None,
        }
    }
}

/// Reads the table in the first sector of media of so many sectors. An entry of type 0 or of no
/// sectors is empty.
pub fn parse(sector: &[u8; 512], sectors: u32) -> Result<Table, PartitionRefusal>
    ensures value { result ≡ table_of sector.now sectors }
    ensures table { IfOk result IsTable }
{
    if !has_signature(sector) {
        return Err(PartitionRefusal::NoSignature);
    }
    checked(sectors, entries_in(sector))
}

/// The table of these entries, unless some passes the media, meets another or holds sector 0.
fn checked(sectors: u32, entries: [Option<PartitionEntry>; 4]) -> Result<Table, PartitionRefusal>
    ensures value { result ≡ checked (record { sectors = sectors; entries = entries }) }
    ensures table { IfOk result IsTable }
{
    if passes_media(&entries, sectors) {
        return Err(PartitionRefusal::PastMedia);
    }
    if has_overlap(&entries) {
        return Err(PartitionRefusal::Overlap);
    }
    Ok(Table { sectors, entries })
}

/// Whether some entry holds sector 0, or some two have a sector in common.
fn has_overlap(entries: &[Option<PartitionEntry>]) -> bool
    ensures { result ≡ has_overlap entries.now }
{
    hold_sector_0(entries) || overlap(entries)
}

/// Whether some entry ends past media of so many sectors.
fn passes_media(entries: &[Option<PartitionEntry>], sectors: u32) -> bool
    ensures { result ≡ list_any (passes sectors) entries.now }
{
    entries.iter().any(|entry| passes(*entry, sectors))
}

/// Whether some entry holds sector 0.
fn hold_sector_0(entries: &[Option<PartitionEntry>]) -> bool
    ensures { result ≡ list_any holds_sector_0 entries.now }
{
    entries.iter().any(|entry| holds_sector_0(*entry))
}

/// Whether an entry has a sector in common with some of the others.
fn meets_some(entry: Option<PartitionEntry>, others: &[Option<PartitionEntry>]) -> bool
    ensures { result ≡ list_any (meets entry) others.now }
{
    others.iter().any(|other| meets(entry, *other))
}

/// Whether the signature ends the sector.
fn has_signature(sector: &[u8; 512]) -> bool
    ensures { result ≡ has_signature sector.now }
{
    sector[510] == 0x55 && sector[511] == 0xaa
}

/// The four entries.
fn entries_in(sector: &[u8; 512]) -> [Option<PartitionEntry>; 4]
    ensures { result ≡ entries_of sector.now }
{
    [
        entry_in(sector, 446),
        entry_in(sector, 462),
        entry_in(sector, 478),
        entry_in(sector, 494),
    ]
}

/// The entry in the 16 bytes at `at`, unless it is empty.
fn entry_in(sector: &[u8; 512], at: usize) -> Option<PartitionEntry>
    requires { at + 16 ≤ 512 }
    ensures { result ≡ unless_empty (entry_at sector.now at) }
{
    let entry = PartitionEntry {
        kind: sector[at + 4],
        first: LittleEndian::read_u32(&sector[at + 8..]),
        count: LittleEndian::read_u32(&sector[at + 12..]),
    };
    if entry.kind == 0 || entry.count == 0 {
        return None;
    }
    Some(entry)
}

/// Where an entry lies.
fn range_of(entry: Option<PartitionEntry>) -> Option<(u32, u32)>
    ensures { result ≡ range_of_entry entry }
{
    match entry {
        None => None,
        Some(entry) => Some((entry.first, entry.count)),
    }
}

/// Whether an entry ends past media of so many sectors.
fn passes(entry: Option<PartitionEntry>, sectors: u32) -> bool
    ensures { result ≡ passes sectors entry }
{
    match entry {
        None => false,
        Some(entry) => u64::from(sectors) < entry.first as u64 + entry.count as u64,
    }
}

/// Whether an entry holds sector 0.
fn holds_sector_0(entry: Option<PartitionEntry>) -> bool
    ensures { result ≡ holds_sector_0 entry }
{
    match entry {
        None => false,
        Some(entry) => entry.first == 0,
    }
}

/// Whether two entries have a sector in common.
fn meets(a: Option<PartitionEntry>, b: Option<PartitionEntry>) -> bool
    ensures { result ≡ meets a b }
{
    match (a, b) {
        (Some(a), Some(b)) => {
            (a.first as u64) < b.first as u64 + b.count as u64
                && (b.first as u64) < a.first as u64 + a.count as u64
        }
        _ => false,
    }
}

/// Whether some two of the entries have a sector in common.
fn overlap(entries: &[Option<PartitionEntry>]) -> bool
    ensures { result ≡ overlap entries.now }
{
    match entries.split_first() {
        None => false,
        Some((first, rest)) => meets_some(*first, rest) || overlap(rest),
    }
}
