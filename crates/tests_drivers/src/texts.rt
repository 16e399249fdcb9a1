//! Errors as text: each is told by its name.
use media::partition::PartitionRefusal;
use media::{MediaRefusal, SectorRefusal};
use message::endpoint::SlotRefusal;
use reincarnate::SupplyRefusal;
use std::test::Fail;
use tests_texts::are_told;

/// Why bytes make no media.
static MEDIA: [(MediaRefusal, &str); 3] = [
    (MediaRefusal::NotWholeSectors, "NotWholeSectors"),
    (MediaRefusal::TooLarge, "TooLarge"),
    (MediaRefusal::OutOfMemory, "OutOfMemory"),
];

/// Why a sector isn't moved.
static SECTORS: [(SectorRefusal, &str); 2] = [
    (SectorRefusal::Revoked, "Revoked"),
    (SectorRefusal::PastEnd, "PastEnd"),
];

/// Why a partition table is refused.
static TABLES: [(PartitionRefusal, &str); 3] = [
    (PartitionRefusal::NoSignature, "NoSignature"),
    (PartitionRefusal::PastMedia, "PastMedia"),
    (PartitionRefusal::Overlap, "Overlap"),
];

/// Why nothing starts in a slot.
static SLOTS: [(SlotRefusal, &str); 2] = [
    (SlotRefusal::NoSuchSlot, "NoSuchSlot"),
    (SlotRefusal::GenerationsSpent, "GenerationsSpent"),
];

/// Why a supply of drivers is refused.
static SUPPLIES: [(SupplyRefusal, &str); 3] = [
    (SupplyRefusal::BadPolicy, "BadPolicy"),
    (SupplyRefusal::NoDriver, "NoDriver"),
    (SupplyRefusal::OutOfMemory, "OutOfMemory"),
];

#[test]
fn errors_are_named(rt: HostRuntime) -> Result<(), Fail> {
    are_told(rt.alloc(), &MEDIA)?;
    are_told(rt.alloc(), &SECTORS)?;
    are_told(rt.alloc(), &TABLES)?;
    are_told(rt.alloc(), &SLOTS)?;
    are_told(rt.alloc(), &SUPPLIES)
}
