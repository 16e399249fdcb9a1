//! Changes behind a sync whose put is refused: many of them, 4290000 bytes in a volume of 8 MiB, which are put from where they lie, and few.

ghost use Rattle.std.specs.Prelude.{⊤};

use crate::mounted::{Came, Fixed, put};
use crate::sessions::{ATTACH, CLONE, CREATE, VERSION};
use archive::Archive;
use errno::Errno;
use fixtures::gates::Ticking;
use fixtures::{patient, supply_of};
use mount_service::mount::{Ended, MountStatus, mount};
use mount_service::program::Streams;
use new_volume::mkfs;
use ninep_server::connection::Connection;
use redo::Puts;
use std::alloc::Global;
use std::sync::{Arc, Wait};
use std::test::Fail;
use std::thread::Threads;
use std::time::Clock;

/// How many bytes a message writes.
const SIZE: u32 = 65000;

/// An image in memory into which changes are put; the first put is refused. How many units each had.
#[derive(Drop)]
struct Kept {
    image: Vec<u8>,
    puts: Vec<usize>,
}

/// Puts changes into an image of whole units.
fn put_all<P: Puts>(image: &mut [u8], changes: &P) {
    let (units, _) = image.as_chunks_mut::<4096>();
    for at in 0..changes.numbers().len() {
        let number = changes.numbers()[at] as usize;
        if let Some(unit) = units.get_mut(number) {
            *unit = changes.unit(at);
        }
    }
}

impl Archive for Kept {
    ghost puts = { λ _ _ _ _. ⊤ };

    ghost ends = { λ _ _ _ _. ⊤ };

    fn put<P: Puts>(&mut self, changes: &P) -> Result<(), Errno> {
        let is_first = self.puts.is_empty();
        if self.puts.push(changes.numbers().len()).is_err() {
            return Err(Errno::ENOMEM);
        }
        if is_first {
            return Err(Errno::ENOSPC);
        }
        put_all(&mut self.image, changes);
        Ok(())
    }

    fn finish(&mut self, _image: &[u8]) -> Result<(), Errno> {
        Ok(())
    }
}

/// Fid 1 writes these bytes at a place.
fn write(alloc: Global, out: &mut Vec<u8>, at: u32, bytes: &[u8]) -> Result<(), Fail> {
    let mut message = b"\x76\x04\0\x01\0\0\0".to_vec(alloc)?;
    message.extend_from_slice(&u64::from(at).to_le_bytes())?;
    message.extend_from_slice(&SIZE.to_le_bytes())?;
    message.extend_from_slice(bytes)?;
    put(out, &message)
}

/// The messages: a file is made and written so many times, and synced twice.
fn messages(alloc: Global, writes: u32) -> Result<Vec<u8>, Fail> {
    let mut asked = Vec::new(alloc);
    for (message, _) in [VERSION, ATTACH, CLONE, CREATE] {
        put(&mut asked, message)?;
    }
    let bytes = vec![in alloc; b'x'; SIZE as usize]?;
    for i in 0..writes {
        let at = i.checked_mul(SIZE).ok_or("too many writes")?;
        write(alloc, &mut asked, at, &bytes)?;
    }
    for _ in 0..2 {
        put(&mut asked, b"\x32\x05\0\x01\0\0\0\0\0\0\0")?;
    }
    Ok(asked)
}

/// What comes of a new volume of 8 MiB that is mounted over a copy of it, and is sent these messages.
fn mounted_over<R: Threads + Wait + Clock + Copy + Send + Sync + 'static>(
    alloc: Global,
    rt: R,
    asked: &[u8],
) -> Result<Came<'_, Kept>, Fail> {
    let image = mkfs(alloc, 2048, 4096, 32, 50).map_err(|_| "no volume")?;
    let archive = Kept {
        image: Vec::from_slice(alloc, &image)?,
        puts: Vec::new(alloc),
    };
    let streams = Streams {
        input: asked,
        output: Vec::new(alloc),
        answerer: Connection::new(alloc),
        clock: Fixed,
        archive: Some(archive),
        sync_every: 0,
    };
    let supply = supply_of(alloc, 16384, &[None; 8])?;
    let gate = Arc::new(alloc, Ticking::new(rt, 100))?;
    let mut err: Vec<u8> = Vec::new(alloc);
    Ok(mount(
        alloc,
        rt,
        "v.img",
        Some(image),
        &patient(),
        supply,
        gate,
        streams,
        &mut err,
    ))
}

/// How many units the two puts of a file had that was written so many times and synced twice, where the copy is the image then.
fn units_put<R: Threads + Wait + Clock + Copy + Send + Sync + 'static>(
    alloc: Global,
    rt: R,
    writes: u32,
) -> Result<(usize, usize), Fail> {
    let asked = messages(alloc, writes)?;
    let Ended { status, came } = mounted_over(alloc, rt, &asked)?;
    let mount_service::program::Came { streams, image, .. } = came.ok_or("not mounted")?;
    let Streams { archive, .. } = streams;
    let kept = archive.ok_or("no archive")?;
    let [refused, again] = kept.puts.as_slice() else {
        return Err(Fail::from("not two puts"));
    };
    if status == MountStatus::Done && kept.image.as_slice() == image.as_slice() {
        return Ok((*refused, *again));
    }
    Err(Fail::from("the copy isn't the image"))
}

/// A put of many units that is refused has the next one put them again: no unit is copied for it.
#[test]
fn many_refused_units_are_put_again(rt: HostRuntime) -> Result<(), Fail> {
    let (refused, again) = units_put(rt.alloc(), rt, 66)?;
    if refused > 1024 && again >= refused {
        return Ok(());
    }
    Err(Fail::from("not many units, or fewer again"))
}

/// And so has one of few, which are copied for it.
#[test]
fn few_refused_units_are_put_again(rt: HostRuntime) -> Result<(), Fail> {
    let (refused, again) = units_put(rt.alloc(), rt, 1)?;
    if (16..=1024).contains(&refused) && again >= refused {
        return Ok(());
    }
    Err(Fail::from("not few units, or fewer again"))
}
