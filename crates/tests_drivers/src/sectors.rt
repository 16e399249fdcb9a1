//! What media and partition tables answer.
use media::partition::{PartitionRefusal, parse};
use media::{Media, MediaRefusal, SectorRefusal};
use std::alloc::{AllocError, Global};
use std::test::Fail;
use tests_texts::step_is_told;

/// Media of three sectors, whose k-th one holds 512 times the byte k.
fn numbered(alloc: Global) -> Result<Media, MediaRefusal> {
    let mut bytes = Vec::new(alloc);
    for sector in 0..3u8 {
        bytes.extend_from_slice(&[sector; 512])?;
    }
    Media::from_vec(bytes)
}

/// The first sector of a disk with one entry, of type 0x81, from sector 1 on for so many sectors.
fn table_sector(count: u8) -> [u8; 512] {
    let mut sector = [0; 512];
    sector[450] = 0x81;
    sector[454] = 1;
    sector[458] = count;
    sector[510] = 0x55;
    sector[511] = 0xaa;
    sector
}

/// So many zeros.
fn zeros(alloc: Global, count: usize) -> Result<Vec<u8>, AllocError> {
    vec![in alloc; 0; count]
}

/// Partitions are within the media.
fn partitions_are_within(alloc: Global) -> Result<(), Fail> {
    let table = parse(&table_sector(128), 129)?;
    let refused = parse(&table_sector(129), 129).err();
    let (range, none) = (table.range(1), table.range(2));
    let given = format!(in alloc; "{range:?} {none:?} {:?} {refused:?}", table.kind(1))?;
    step_is_told(
        0,
        0,
        given.as_str(),
        "Some((1, 128)) None Some(129) Some(PastMedia)",
    )
}

/// A generation that was revoked moves nothing.
fn generations_fence(alloc: Global) -> Result<(), Fail> {
    let mut media = numbered(alloc)?;
    let sectors = media.sectors();
    media.adopt(2);
    let revoked = media.write_sector(1, 999999, &[9; 512]);
    let past = media.tear(2, 3, &[9; 512]);
    media.adopt(1);
    let wrote = media.write_sector(2, 0, &[9; 512]);
    let tore = media.tear(2, 2, &[8; 512]);
    let given = format!(in alloc; "{sectors} {revoked:?} {past:?} {wrote:?} {tore:?}")?;
    step_is_told(
        1,
        0,
        given.as_str(),
        "3 Err(Revoked) Err(PastEnd) Ok(()) Ok(())",
    )?;
    let image = media.image(alloc)?;
    let (last, next, torn) = (image.get(511), image.get(512), image.get(1024));
    let is_same = image.as_slice() == media.into_image().as_slice();
    let given = format!(in alloc; "{} {last:?} {next:?} {torn:?} {is_same}", image.len())?;
    step_is_told(1, 1, given.as_str(), "1536 Some(9) Some(1) Some(8) true")
}

/// How many bytes of an image there are, and why they are refused, if they are.
static IMAGES: [(usize, &str); 5] = [
    (1, "Some(NotWholeSectors)"),
    (67108865, "Some(NotWholeSectors)"),
    (67109376, "Some(TooLarge)"),
    (67108864, "None"),
    (0, "None"),
];

/// Images that are too large or end within a sector are refused; so is one whose bytes are handed over.
fn images_are_refused(alloc: Global) -> Result<(), Fail> {
    let large = zeros(alloc, 67109376)?;
    for (step, (count, wanted)) in IMAGES.iter().enumerate() {
        let Some(bytes) = large.get(..*count) else {
            return Err(Fail::from("too few bytes"));
        };
        let refusal = Media::from_bytes(alloc, bytes).err();
        let given = format!(in alloc; "{refusal:?}")?;
        step_is_told(2, step, given.as_str(), wanted)?;
    }
    let refusal = Media::from_vec(large).err();
    let given = format!(in alloc; "{refusal:?}")?;
    step_is_told(2, IMAGES.len(), given.as_str(), "Some(TooLarge)")
}

/// Refusals by their names and their numbers.
fn refusals(alloc: Global) -> Result<(), Fail> {
    let given = format!(in alloc;
        "{} {} {} {}",
        MediaRefusal::TooLarge,
        SectorRefusal::PastEnd,
        PartitionRefusal::NoSignature,
        MediaRefusal::OutOfMemory.number()
            + SectorRefusal::PastEnd.number()
            + PartitionRefusal::Overlap.number()
    )?;
    step_is_told(3, 0, given.as_str(), "TooLarge PastEnd NoSignature 8")
}

#[test]
fn sectors_are_bounded(rt: HostRuntime) -> Result<(), Fail> {
    partitions_are_within(rt.alloc())?;
    generations_fence(rt.alloc())?;
    images_are_refused(rt.alloc())?;
    refusals(rt.alloc())
}
