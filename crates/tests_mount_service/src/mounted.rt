//! A small volume that is mounted, and messages that it is sent.

ghost use Rattle.std.specs.Prelude.{⊤};

use archive::Archive;
use errno::Errno;
use fixtures::gates::Ticking;
use fixtures::{new_volume, patient, supply_of};
use fsck::{Verdict, check};
use mount_service::mount::{Ended, MountStatus, mount};
use mount_service::program::Streams;
use ninep_server::connection::Connection;
use redo::Puts;
use std::alloc::Global;
use std::io;
use std::sync::{Arc, Wait};
use std::test::Fail;
use std::thread::Threads;
use std::time::{Clock, Duration};

/// How long a tick is, in milliseconds.
const PACE: u64 = 100;

/// A clock that stands.
#[derive(Drop)]
pub(crate) struct Fixed;

impl Clock for Fixed {
    fn monotonic(&self) -> io::Result<Duration> {
        Ok(Duration::from_secs(100))
    }

    fn since_1970(&self) -> io::Result<Duration> {
        Ok(Duration::from_secs(100))
    }
}

/// Where nothing is kept.
#[derive(Drop)]
struct Nowhere;

impl Archive for Nowhere {
    ghost puts = { λ _ _ _ _. ⊤ };

    ghost ends = { λ _ _ _ _. ⊤ };

    fn put<P: Puts>(&mut self, _changes: &P) -> Result<(), Errno> {
        Ok(())
    }

    fn finish(&mut self, _image: &[u8]) -> Result<(), Errno> {
        Ok(())
    }
}

/// A message and its answer, without the four bytes of their sizes.
pub(crate) type Exchange = (&'static [u8], &'static [u8]);

/// Puts a message, or an answer, behind the size of both.
pub(crate) fn put(out: &mut Vec<u8>, message: &[u8]) -> Result<(), Fail> {
    let size = u32::try_from(message.len())?.saturating_add(4);
    out.extend_from_slice(&size.to_le_bytes())?;
    out.extend_from_slice(message)?;
    Ok(())
}

/// A new volume is mounted, is sent these messages one after the other, and gives these answers; then the stream ends, and the image that
/// is left is that of a clean volume.
pub(crate) fn answers<R: Threads + Wait + Clock + Copy + Send + Sync + 'static>(
    alloc: Global,
    rt: R,
    talk: &[Exchange],
) -> Result<(), Fail> {
    let (mut asked, mut told) = (Vec::new(alloc), Vec::new(alloc));
    for (message, answer) in talk {
        put(&mut asked, message)?;
        put(&mut told, answer)?;
    }
    answers_by(alloc, rt, &asked, &told)
}

/// What came of a mount over this archive that was sent these messages.
pub(crate) type Came<'m, A> = Ended<&'m [u8], Vec<u8>, Fixed, A, Connection>;

/// A new volume is mounted, over an archive or none, and is sent these messages; then the stream ends.
pub(crate) fn mounted<
    'm,
    R: Threads + Wait + Clock + Copy + Send + Sync + 'static,
    A: Archive + Drop + Send + 'static,
>(alloc: Global, rt: R, asked: &'m [u8], archive: Option<A>) -> Result<Came<'m, A>, Fail> {
    let streams = Streams {
        input: asked,
        output: Vec::new(alloc),
        answerer: Connection::new(alloc),
        clock: Fixed,
        archive,
        sync_every: 0,
    };
    let image = new_volume(alloc, 1024)?;
    let supply = supply_of(alloc, 128, &[None; 8])?;
    let gate = Arc::new(alloc, Ticking::new(rt, PACE))?;
    let mut err: Vec<u8> = Vec::new(alloc);
    Ok(mount(
        alloc,
        rt,
        "v.img",
        Some(image),
        &patient(),
        supply,
        gate,
        streams,
        &mut err,
    ))
}

/// The same of messages and answers as they are sent.
pub(crate) fn answers_by<R: Threads + Wait + Clock + Copy + Send + Sync + 'static>(
    alloc: Global,
    rt: R,
    asked: &[u8],
    told: &[u8],
) -> Result<(), Fail> {
    let Ended { status, came } = mounted(alloc, rt, asked, None::<Nowhere>)?;
    let came = came.ok_or("not mounted")?;
    if status != MountStatus::Done || came.streams.output.as_slice() != told {
        let answered = came.streams.output.as_slice();
        return Err(Fail::new(format_args!("{status:?}: {answered:?}")));
    }
    match check(alloc, &came.image) {
        Ok(Verdict::Clean(_)) => Ok(()),
        _ => Err(Fail::from("the image that is left isn't clean")),
    }
}
