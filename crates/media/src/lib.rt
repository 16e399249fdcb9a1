//! The media of a disk: sectors of 512 bytes behind a fence of generations.
//!
//! A driver moves sectors under the generation that it was started with. Once a later generation is
//! adopted, every call under an earlier one is refused and changes nothing: a driver that was
//! replaced can't write any more, however late it wakes up.
#![tactic(auto)]

pub mod partition;

ghost use Rattle.std.specs.Prelude.{◌≡◌, ◌≢◌, ◌≤◌, ◌<◌, ◌*◌, ◌%◌, ◌/◌, ◌↔◌, length, IsTrue, IsNone, IfSome, IfOk, IfErr, Some};
ghost use Rattle.std.specs.Prelude.{[], slice_set};
ghost use Rattle.std.proofs.Common.{get_or};
ghost use Rattle.std.specs.List.{concat};
ghost use Rattle.media.specs.Contents.{IsWhole, Adopt, Write, Tear, accepts, media_after, sectors_of, written};
ghost use Rattle.media.specs.Laws.{ContentsFollow, RevokedForEver, ChangesOneSector, IsSameImage};
ghost use Rattle.media.specs.Answers.{media_refusal_name, media_refusal_number, sector_refusal_number, refusal_of, read_answer};
ghost use Rattle.media.specs.Answers.{write_answer};

use std::alloc::{AllocError, Global};
use std::marker::Model;
use std::{error, fmt};
use thiserror::Error;

/// The bytes of a sector.
pub const SECTOR: usize = 512;

/// The most bytes of a media (own): 64 MiB, which is 131072 sectors.
pub const MOST_BYTES: usize = 67108864;

/// Why bytes don't make a media, or a media gives no image.
#[derive(Clone, Copy, Debug, Drop, PartialEq, Eq)]
pub enum MediaRefusal {
    /// The number of bytes is no multiple of 512.
    NotWholeSectors,
    /// There are more than 67108864 bytes.
    TooLarge,
    /// No memory was found.
    OutOfMemory,
}

impl MediaRefusal {
    /// Its number.
    pub fn number(&self) -> u32
        ensures { result ≡ media_refusal_number self.now }
    {
        match self {
            MediaRefusal::NotWholeSectors => 1,
            MediaRefusal::TooLarge => 2,
            MediaRefusal::OutOfMemory => 3,
        }
    }
}

/// Writes the name.
impl fmt::Display for MediaRefusal {
    ghost output = { λ refusal. Some (media_refusal_name refusal) };

    fn fmt<W: fmt::Write>(&self, f: &mut fmt::Formatter<W>) -> fmt::Result {
        f.write_str(match self {
            MediaRefusal::NotWholeSectors => "NotWholeSectors",
            MediaRefusal::TooLarge => "TooLarge",
            MediaRefusal::OutOfMemory => "OutOfMemory",
        })
    }
}

impl error::Error for MediaRefusal {}

impl From<AllocError> for MediaRefusal {
    ghost use Rattle.media.specs.declared.MediaRefusal.TheVariants.{OutOfMemory};

    ghost from_gives = { λ _ e. e ≡ OutOfMemory };

    fn from(_error: AllocError) -> MediaRefusal {
        MediaRefusal::OutOfMemory
    }
}

/// Why a sector isn't moved. The generation is looked at first.
#[derive(Clone, Copy, Debug, Drop, Error, PartialEq, Eq)]
pub enum SectorRefusal {
    /// The generation isn't the current one.
    #[error("Revoked")]
    Revoked,
    /// There is no sector of this number.
    #[error("PastEnd")]
    PastEnd,
}

impl SectorRefusal {
    /// Its number.
    pub fn number(&self) -> u32
        ensures { result ≡ sector_refusal_number self.now }
    {
        match self {
            SectorRefusal::Revoked => 1,
            SectorRefusal::PastEnd => 2,
        }
    }
}

/// Whether so many bytes make media. It takes no memory.
fn check_length(bytes: usize) -> Result<(), MediaRefusal>
    ensures not_whole { (result ≡ Err MediaRefusal.NotWholeSectors) ↔ (bytes % 512 ≢ 0) }
    ensures too_large { (result ≡ Err MediaRefusal.TooLarge) ↔ ((bytes % 512 ≡ 0) × (67108864 < bytes)) }
    ensures never { result ≢ Err MediaRefusal.OutOfMemory }
{
    if bytes % SECTOR != 0 {
        Err(MediaRefusal::NotWholeSectors)
    } else if bytes > MOST_BYTES {
        Err(MediaRefusal::TooLarge)
    } else {
        Ok(())
    }
}

/// Puts these bytes into sector `n`.
fn put_sector(bytes: &mut [u8], n: usize, sector: &[u8; SECTOR])
    requires { n < length bytes.old / 512 }
    ensures { sectors_of bytes.new ≡ slice_set (sectors_of bytes.old) n sector.now }
{
    bytes[SECTOR * n..SECTOR * n + SECTOR].copy_from_slice(sector);
}

/// Sectors, and the generation that may move them: the greatest one adopted so far, 0 at first.
#[derive(Drop)]
pub struct Media {
    // All sectors, one after another.
    bytes: Vec<u8>,
    generation: u32,
}

impl Model for Media {
    ghost use Rattle.std.specs.Prelude.{◌≡◌, ◌≤◌, ◌%◌, length};
    ghost use Rattle.media.specs.Contents.{MediaState, sectors_of};

    ghost Value = { MediaState };

    ghost view = { λ m. record { sectors = sectors_of m.bytes.items; generation = m.generation } };

    ghost invariant = { λ m. (length m.bytes.items % 512 ≡ 0) × (length m.bytes.items ≤ 67108864) };
}

impl Media {
    /// The media that hold these bytes, 512 in each sector, in order. The current generation is 0.
    pub fn from_bytes(alloc: Global, bytes: &[u8]) -> Result<Media, MediaRefusal>
        ensures not_whole { (result ≡ Err MediaRefusal.NotWholeSectors) ↔ (length bytes.now % 512 ≢ 0) }
        ensures too_large { (result ≡ Err MediaRefusal.TooLarge) ↔ ((length bytes.now % 512 ≡ 0) × (67108864 < length bytes.now)) }
        ensures ok { IfOk result (λ m. m ≡ record { sectors = sectors_of bytes.now; generation = 0 }) }
    {
        check_length(bytes.len())?;
        Ok(Media {
            bytes: Vec::from_slice(alloc, bytes)?,
            generation: 0,
        })
    }

    /// The media whose bytes are those of this vector, 512 in each sector, in order: none is copied, and no memory is taken. The current
    /// generation is 0. A refusal lets the vector go.
    #[tactic(auto, using(crate::proofs::SectorLaws::same_image))]
    pub fn from_vec(bytes: Vec<u8>) -> Result<Media, MediaRefusal>
        ensures not_whole { (result ≡ Err MediaRefusal.NotWholeSectors) ↔ (length bytes.items % 512 ≢ 0) }
        ensures too_large { (result ≡ Err MediaRefusal.TooLarge) ↔ ((length bytes.items % 512 ≡ 0) × (67108864 < length bytes.items)) }
        ensures never { result ≢ Err MediaRefusal.OutOfMemory }
        ensures ok { IfOk result (λ m. m ≡ record { sectors = sectors_of bytes.items; generation = 0 }) }
        ensures image { IfOk result (λ m. concat m.sectors ≡ bytes.items) }
    {
        check_length(bytes.len())?;
        Ok(Media {
            bytes,
            generation: 0,
        })
    }

    /// How many sectors there are: at most 131072.
    #[tactic(auto, using(crate::proofs::SectorLaws::sector_count, crate::proofs::SectorLaws::whole_sectors))]
    pub fn sectors(&self) -> u32
        ensures value { result ≡ length self.now.sectors }
        ensures whole { IsWhole self.now.sectors }
    {
        (self.bytes.len() / SECTOR) as u32
    }

    /// All sectors, in order, where they lie.
    pub fn as_sectors(&self) -> &[[u8; SECTOR]]
        ensures { result.now ≡ self.now.sectors }
    {
        let (sectors, _) = self.bytes.as_chunks::<SECTOR>();
        sectors
    }

    /// The bytes of all sectors, in order, copied.
    #[tactic(auto, using(crate::proofs::SectorLaws::same_image))]
    pub fn image(&self, alloc: Global) -> Result<Vec<u8>, MediaRefusal>
        ensures ok { IfOk result (λ v. v.items ≡ concat self.now.sectors) }
        ensures err { IfErr result (λ e. e ≡ MediaRefusal.OutOfMemory) }
    {
        Ok(Vec::from_slice(alloc, &self.bytes)?)
    }

    /// The bytes of all sectors, in order: they are what the media held, so none is copied, and no memory is taken.
    #[tactic(auto, using(crate::proofs::SectorLaws::same_image))]
    pub fn into_image(self) -> Vec<u8>
        ensures { result.items ≡ concat self.sectors }
    {
        let Media { bytes, .. } = self;
        bytes
    }

    /// Makes a greater generation the current one; one that isn't greater changes nothing.
    pub fn adopt(&mut self, generation: u32)
        ensures { self.new ≡ media_after self.old (Adopt generation) }
    {
        self.generation = self.generation.max(generation);
    }

    /// Whether a generation may move sector `n`: it is the current one, and there is such a sector.
    pub fn accepts(&self, generation: u32, n: u32) -> bool
        ensures { result ≡ accepts self.now generation n }
    {
        generation == self.generation && n < self.sectors()
    }

    /// The bytes of sector `n`, read under a generation.
    #[tactic(auto, using(crate::proofs::SectorLaws::sector_count, crate::proofs::WrittenLaws::accepts_exists))]
    pub fn read_sector(&self, generation: u32, n: u32) -> Result<[u8; SECTOR], SectorRefusal>
        ensures { result ≡ read_answer self.now generation n }
    {
        match self.refusal(generation, n) {
            None => Ok(self.as_sectors()[n as usize]),
            Some(refusal) => Err(refusal),
        }
    }

    /// Writes sector `n` under a generation. A refused write changes nothing.
    pub fn write_sector(
        &mut self,
        generation: u32,
        n: u32,
        bytes: &[u8; SECTOR],
    ) -> Result<(), SectorRefusal>
        ensures after { self.new ≡ media_after self.old (Write generation n bytes.now) }
        ensures answer { result ≡ write_answer self.old generation n }
    {
        self.put(generation, n, bytes)
    }

    /// Puts into sector `n` the bytes that a driver which died in the middle of a write left there. A refused tear changes nothing.
    pub fn tear(
        &mut self,
        generation: u32,
        n: u32,
        left: &[u8; SECTOR],
    ) -> Result<(), SectorRefusal>
        ensures after { self.new ≡ media_after self.old (Tear generation n left.now) }
        ensures answer { result ≡ write_answer self.old generation n }
    {
        self.put(generation, n, left)
    }

    /// Why generation `generation` may not move sector `n`, if it may not.
    fn refusal(&self, generation: u32, n: u32) -> Option<SectorRefusal>
        ensures moves { IsNone result ↔ IsTrue (accepts self.now generation n) }
        ensures why { IfSome result (λ e. e ≡ refusal_of self.now generation) }
    {
        if generation != self.generation {
            Some(SectorRefusal::Revoked)
        } else if n >= self.sectors() {
            Some(SectorRefusal::PastEnd)
        } else {
            None
        }
    }

    /// Puts bytes into sector `n` under a generation.
    #[tactic(auto, using(crate::proofs::SectorLaws::sector_count, crate::proofs::WrittenLaws::accepts_exists))]
    fn put(&mut self, generation: u32, n: u32, bytes: &[u8; SECTOR]) -> Result<(), SectorRefusal>
        ensures after { self.new ≡ written self.old generation n bytes.now }
        ensures answer { result ≡ write_answer self.old generation n }
    {
        if let Some(refusal) = self.refusal(generation, n) {
            return Err(refusal);
        }
        put_sector(&mut self.bytes, n as usize, bytes);
        Ok(())
    }
}

/// The contents of new media after any calls are the first ones, changed in order by each write and
/// tear whose sector exists and whose generation is the greatest adopted before it.
#[tactic(auto, using(crate::proofs::CallLaws::contents_follow))]
pub fn contents_follow_calls()
    ensures { ContentsFollow }
{}

/// Once a later generation was adopted, no call under an earlier one ever changes anything.
#[tactic(auto, using(crate::proofs::CallLaws::revoked_for_ever))]
pub fn stays_revoked()
    ensures { RevokedForEver }
{}

/// A write changes its own sector at most.
#[tactic(auto, using(crate::proofs::WrittenLaws::changes_one_sector))]
pub fn changes_its_sector()
    ensures { ChangesOneSector }
{}

/// The image of media made from bytes is those bytes, and its sectors are those of the media.
#[tactic(auto, using(crate::proofs::SectorLaws::is_same_image))]
pub fn keeps_the_image()
    ensures { IsSameImage }
{}
