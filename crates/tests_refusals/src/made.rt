//! Calls that make something: they make it, or say that no memory was found, and that only where a request was refused. (Where room for
//! many is refused, a list may still find room for one after the other. Where the link had no memory, a mount says that it ended.)

use crate::trials::{Trial, each_refused};
use cache::{Cache, CacheRefusal};
use cached_blocks::Stored;
use fixtures::frames::VOLUME;
use fixtures::lists::{driver, started};
use fixtures::supply_of;
use fsck::{OutOfMemory, Verdict, check};
use media::{Media, MediaRefusal};
use message::{BlockReply, Incoming};
use modeldisk::ScriptedDriver;
use new_volume::{MkfsRefusal, mkfs};
use reincarnate::policy::Policy;
use reincarnate::{Reincarnation, SupplyRefusal};
use reissue::Transfers;
use reissue::list_link::ListLink;
use std::alloc::{AllocError, Global};
use std::test::Fail;
use vfs::Server;
use volume_mount::MountRefusal;
use volume_mount::mounted::mount;

/// A new volume of 64 blocks and 32 inodes, and its bytes.
#[derive(Drop)]
struct Mkfs(Vec<u8>);

impl Trial for Mkfs {
    type Came = Result<Vec<u8>, MkfsRefusal>;

    fn run(&self, alloc: Global) -> Result<Vec<u8>, MkfsRefusal> {
        mkfs(alloc, 64, 1024, 32, 50)
    }

    fn is_right(
        &self,
        _alloc: Global,
        came: &Result<Vec<u8>, MkfsRefusal>,
        refused: bool,
    ) -> Result<bool, AllocError> {
        Ok(match came {
            Ok(image) => image.as_slice() == self.0.as_slice(),
            Err(refusal) => refused && *refusal == MkfsRefusal::OutOfMemory,
        })
    }
}

/// The check of an image that is clean.
#[derive(Drop)]
struct Check(Vec<u8>);

impl Trial for Check {
    type Came = Result<Verdict, OutOfMemory>;

    fn run(&self, alloc: Global) -> Result<Verdict, OutOfMemory> {
        check(alloc, &self.0)
    }

    fn is_right(
        &self,
        _alloc: Global,
        came: &Result<Verdict, OutOfMemory>,
        refused: bool,
    ) -> Result<bool, AllocError> {
        Ok(match came {
            Ok(verdict) => matches!(verdict, Verdict::Clean(_)),
            Err(_) => refused,
        })
    }
}

/// The media of an image.
#[derive(Drop)]
struct FromBytes(Vec<u8>);

impl Trial for FromBytes {
    type Came = Result<Media, MediaRefusal>;

    fn run(&self, alloc: Global) -> Result<Media, MediaRefusal> {
        Media::from_bytes(alloc, &self.0)
    }

    fn is_right(
        &self,
        alloc: Global,
        came: &Result<Media, MediaRefusal>,
        refused: bool,
    ) -> Result<bool, AllocError> {
        Ok(match came {
            Ok(media) => match media.image(alloc) {
                Ok(image) => image.as_slice() == self.0.as_slice(),
                Err(_) => false,
            },
            Err(refusal) => refused && *refusal == MediaRefusal::OutOfMemory,
        })
    }
}

/// A reincarnation server over one driver.
#[derive(Clone, Copy)]
struct Drivers;

/// What comes of it; nothing where there was no memory for the list of drivers.
type Supplied = Option<Result<Reincarnation<ScriptedDriver>, SupplyRefusal>>;

impl Trial for Drivers {
    type Came = Supplied;

    fn run(&self, alloc: Global) -> Supplied {
        let drivers = supply_of(alloc, 128, &[None]).ok()?;
        Some(Reincarnation::new(alloc, Policy::default(), drivers))
    }

    fn is_right(&self, _alloc: Global, came: &Supplied, refused: bool) -> Result<bool, AllocError> {
        Ok(match came {
            None => refused,
            Some(Ok(_)) => true,
            Some(Err(refusal)) => refused && *refusal == SupplyRefusal::OutOfMemory,
        })
    }
}

/// How many spare drivers are added.
const SPARES: u32 = 20;

/// Spare drivers are added, each of which is handed in once more where it comes back.
#[derive(Clone, Copy)]
struct Spares;

/// Adds a spare driver, and once more where it comes back: how often it came back, and whether it was added.
fn add_spare(server: &mut Reincarnation<Box<u32>>, spare: Box<u32>) -> (u32, bool) {
    match server.add_spare(spare) {
        Ok(()) => (0, true),
        Err(back) => (1, server.add_spare(back).is_ok()),
    }
}

impl Trial for Spares {
    type Came = Option<(u32, u32)>;

    /// How many drivers came back, and how many were added.
    fn run(&self, alloc: Global) -> Option<(u32, u32)> {
        let mut drivers = Vec::new(alloc);
        drivers.push(Box::new(alloc, 1u32).ok()?).ok()?;
        let mut server = Reincarnation::new(alloc, Policy::default(), drivers).ok()?;
        let (mut back, mut added) = (0u32, 0u32);
        for number in 0..SPARES {
            let spare = Box::new(alloc, number).ok()?;
            let (more, is_added) = add_spare(&mut server, spare);
            back = back.saturating_add(more);
            added = added.saturating_add(u32::from(is_added));
        }
        Some((back, added))
    }

    fn is_right(
        &self,
        _alloc: Global,
        came: &Option<(u32, u32)>,
        refused: bool,
    ) -> Result<bool, AllocError> {
        Ok(match came {
            None => refused,
            Some((back, added)) => *back <= u32::from(refused) && *added == SPARES,
        })
    }
}

/// A cache of 64 frames over a link that gives nothing; an error where there was no memory for the link.
fn cache_over(alloc: Global) -> Result<Result<Cache<ListLink>, CacheRefusal>, AllocError> {
    let transfers = Transfers::new(alloc, ListLink::new(alloc, Vec::new(alloc))?)?;
    Ok(Cache::new(alloc, transfers, 0, &VOLUME, 64))
}

/// A cache of 64 frames.
#[derive(Clone, Copy)]
struct Frames;

impl Trial for Frames {
    type Came = Option<Result<Cache<ListLink>, CacheRefusal>>;

    fn run(&self, alloc: Global) -> Option<Result<Cache<ListLink>, CacheRefusal>> {
        cache_over(alloc).ok()
    }

    fn is_right(
        &self,
        _alloc: Global,
        came: &Option<Result<Cache<ListLink>, CacheRefusal>>,
        refused: bool,
    ) -> Result<bool, AllocError> {
        Ok(match came {
            None => refused,
            Some(Ok(_)) => true,
            Some(Err(refusal)) => refused && *refusal == CacheRefusal::OutOfMemory,
        })
    }
}

/// A mount of the volume in an image, over a link that answers from a list.
#[derive(Drop)]
struct Mount(Vec<u8>);

/// What comes of it; nothing where there was no memory for the list.
type Mounted = Option<Result<Server<Stored<ListLink>>, MountRefusal>>;

/// The first driver's answer to this request: all these bytes were moved.
fn gives(id: u64, piece: &[u8]) -> Incoming {
    let mut bytes = [0; 4096];
    for (place, byte) in bytes.iter_mut().zip(piece) {
        *place = *byte;
    }
    Incoming::Reply(BlockReply {
        from: driver(1),
        id,
        outcome: Ok(u32::try_from(piece.len()).unwrap_or(0)),
        bytes,
    })
}

/// The first driver is started, and answers the requests for the first 2048 bytes and then for all others, 4096 at a time.
fn reads_of(alloc: Global, image: &[u8]) -> Result<Vec<Incoming>, AllocError> {
    let mut messages = vec![in alloc; started(1); 1]?;
    let (head, rest) = image.split_at(2048.min(image.len()));
    messages.push(gives(1, head))?;
    for piece in rest.chunks(4096) {
        let id = messages.len() as u64;
        messages.push(gives(id, piece))?;
    }
    Ok(messages)
}

/// What a mount comes to over a link that gives these messages; an error where there was no memory for the link.
fn mounted_over(
    alloc: Global,
    messages: Vec<Incoming>,
) -> Result<Result<Server<Stored<ListLink>>, MountRefusal>, AllocError> {
    Ok(mount(alloc, ListLink::new(alloc, messages)?, 0, 64))
}

/// Whether a mount is refused for want of memory, its own or its link's: a link that keeps a list of what was done there ends then.
fn is_for_memory(refusal: &MountRefusal) -> bool {
    *refusal == MountRefusal::OutOfMemory || *refusal == MountRefusal::LinkEnded
}

impl Trial for Mount {
    type Came = Mounted;

    fn run(&self, alloc: Global) -> Mounted {
        let messages = reads_of(alloc, &self.0).ok()?;
        mounted_over(alloc, messages).ok()
    }

    fn is_right(&self, _alloc: Global, came: &Mounted, refused: bool) -> Result<bool, AllocError> {
        Ok(match came {
            None => refused,
            Some(Ok(_)) => true,
            Some(Err(refusal)) => refused && is_for_memory(refusal),
        })
    }
}

#[test]
fn what_reads_or_makes_an_image(rt: HostRuntime) -> Result<(), Fail> {
    let alloc = rt.alloc();
    each_refused(alloc, 1, &Mkfs(fixtures::new_volume(alloc, 1024)?))?;
    each_refused(alloc, 2, &Check(fixtures::new_volume(alloc, 1024)?))?;
    each_refused(alloc, 3, &FromBytes(fixtures::new_volume(alloc, 1024)?))
}

#[test]
fn what_a_service_is_made_of(rt: HostRuntime) -> Result<(), Fail> {
    let alloc = rt.alloc();
    each_refused(alloc, 4, &Drivers)?;
    each_refused(alloc, 5, &Spares)?;
    each_refused(alloc, 6, &Frames)?;
    each_refused(alloc, 7, &Mount(fixtures::new_volume(alloc, 1024)?))
}
