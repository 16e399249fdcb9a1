//! Media, drivers and a link for each test, and what all of them are set up with.

ghost use Rattle.std.specs.Prelude.{◌≡◌, ◌≢◌, []};
ghost use Rattle.std.specs.Arc.{arc_value};

use crate::watch::Watch;
use bdev::{BlockDriver, Driver};
use board::counting::parameters::ServiceParameters;
use board::{Board, Seat};
use channel_link::link::ChannelLink;
use driver_threads::running::{Running, start_drivers};
use media::Media;
use media::partition::Table;
use message::{BlockRequest, Kind};
use modeldisk::RamDriver;
use reincarnate::Reincarnation;
use reincarnate::policy::Policy;
use std::alloc::{AllocError, Global};
use std::marker::Brand;
use std::sync::{Arc, Wait};
use std::thread::Threads;
use std::time::Clock;

/// How many sectors the media have.
pub(crate) const SECTORS: u32 = 128;

/// How many drivers are handed in.
pub(crate) const DRIVERS: usize = 33;

/// A driver that isn't scheduled for a while on a loaded machine is no fault under it, and no number of faults gives the device up while
/// there are drivers.
pub(crate) const POLICY: Policy = Policy {
    max_faults: 32,
    cap: 1,
    calm: 1,
    misses: 16,
};

/// What a test does at the link, before the link is let go.
pub(crate) trait Plan<R: Wait + Copy>: Drop {
    type Came: Drop;

    fn play(&mut self, link: &mut ChannelLink<R>) -> Self::Came;
}

/// How a test ends.
#[derive(Clone, Copy, PartialEq, Eq)]
pub(crate) enum Ending {
    /// The threads are stopped.
    Stopped,
    /// They are let go.
    LetGo,
}

/// A write of two sectors, from sector 8 on.
pub(crate) fn write_of(id: u64, byte: u8) -> BlockRequest {
    request_at(id, 4096, 1024, byte)
}

/// A write of these bytes at this position.
pub(crate) fn request_at(id: u64, position: u64, count: u32, byte: u8) -> BlockRequest {
    BlockRequest {
        id,
        kind: Kind::Write,
        minor: 0,
        position,
        count,
        bytes: [byte; 4096],
    }
}

/// Adds RAM drivers of all sectors until there are as many as are handed in.
pub(crate) fn filled_up(alloc: Global, drivers: Vec<Driver>) -> Result<Vec<Driver>, AllocError> {
    let mut all = drivers;
    for _ in 0..DRIVERS {
        if all.len() < DRIVERS {
            all.push(Box::new(alloc, RamDriver::new(Table::whole(SECTORS)))?)?;
        }
    }
    Ok(all)
}

// The threads are stopped, or let go; the media's bytes after a stop.
fn ended<N: ServiceParameters, R: Threads + Wait + Copy>(
    alloc: Global,
    rt: R,
    running: Running<N>,
    ending: Ending,
) -> Option<Vec<u8>> {
    match ending {
        Ending::LetGo => Some(Vec::new(alloc)),
        Ending::Stopped => {
            let (media, _) = running.stop(&rt);
            media.image(alloc).ok()
        }
    }
}

/// The link and the threads behind it, over media of these bytes, of which the volume has the first sectors. None where they are no media.
pub(crate) fn started<
    N: ServiceParameters + Send + Sync + 'static,
    R: Threads + Wait + Clock + Copy + Send + Sync + 'static,
    D: BlockDriver + 'static,
>(
    alloc: Global,
    rt: R,
    image: &[u8],
    sectors: u32,
    reincarnation: Reincarnation<D>,
    board: Board,
    seat: Seat,
    gate: &Arc<Watch<R>>,
) -> Result<Option<(ChannelLink<R>, Running<N>)>, AllocError>
    requires board { board ≡ N.table }
    requires range { (N.opening.first ≡ 0) × (N.opening.count ≡ sectors) }
    requires image { N.opening.media ≡ image.now }
    requires seat { seat.table ≡ board }
{
    let Ok(media) = Media::from_bytes(alloc, image) else {
        return Ok(None);
    };
    let board = Arc::new(alloc, board)?;
    let gate = Arc::try_clone(gate)?;
    let made = start_drivers::<N, D, Watch<R>, R>(
        alloc,
        rt,
        media,
        (0, sectors),
        reincarnation,
        &board,
        seat,
        gate,
    )?;
    Ok(Some(made))
}

// The caller picks the volume.
fn play_on<
    N: ServiceParameters + Send + Sync + 'static,
    R: Threads + Wait + Clock + Copy + Send + Sync + 'static,
    D: BlockDriver + 'static,
    P: Plan<R>,
>(
    alloc: Global,
    rt: R,
    image: &[u8],
    sectors: u32,
    reincarnation: Reincarnation<D>,
    board: Board,
    seat: Seat,
    gate: &Arc<Watch<R>>,
    plan: P,
    ending: Ending,
) -> Result<Option<(P::Came, Vec<u8>)>, AllocError>
    requires board { board ≡ N.table }
    requires range { (N.opening.first ≡ 0) × (N.opening.count ≡ sectors) }
    requires image { N.opening.media ≡ image.now }
    requires seat { seat.table ≡ board }
{
    let made = started::<N, R, D>(alloc, rt, image, sectors, reincarnation, board, seat, gate)?;
    let Some((mut link, running)) = made else {
        return Ok(None);
    };
    let mut plan = plan;
    let came = plan.play(&mut link);
    drop(link);
    match ended(alloc, rt, running, ending) {
        Some(image) => Ok(Some((came, image))),
        None => Ok(None),
    }
}

/// Plays on media of zeros, of which the volume has this many sectors, over these drivers. What came of it, and the media's bytes.
pub(crate) fn play<
    R: Threads + Wait + Clock + Copy + Send + Sync + 'static,
    D: BlockDriver + 'static,
    P: Plan<R>,
>(
    alloc: Global,
    rt: R,
    sectors: u32,
    drivers: Vec<D>,
    gate: &Arc<Watch<R>>,
    plan: P,
    ending: Ending,
) -> Option<(P::Came, Vec<u8>)> {
    let image = vec![in alloc; 0u8; 512 * SECTORS as usize].ok()?;
    let reincarnation = Reincarnation::new(alloc, POLICY, drivers).ok()?;
    let (board, seat) = Board::new(alloc).ok()?;
    play_on::<Brand, R, D, P>(
        alloc,
        rt,
        &image,
        sectors,
        reincarnation,
        board,
        seat,
        gate,
        plan,
        ending,
    )
    .ok()?
}
