//! Measures a cache over a driver in a thread of its own.
ghost use Rattle.std.specs.Prelude.{◌≡◌};
ghost use Rattle.layout.specs.Places.{IsGeometry};
ghost use Rattle.cache.specs.Calls.{caching, IsReady, AreWritable};

use crate::bench_frames::BLOCKS;
use crate::bench_frames::work::{driver, fetch_again, fetch_run, write_run};
use bench_layers::timing::{say, tell};
use board::counting::parameters::ServiceParameters;
use board::{Board, Seat};
use cache::Cache;
use driver_threads::running::start_drivers;
use gate::paced_gate::Paced;
use layout::Geometry;
use media::Media;
use modeldisk::RamDriver;
use reincarnate::Reincarnation;
use reincarnate::policy::Policy;
use reissue::{Link, Transfers};
use std::alloc::Global;
use std::io;
use std::marker::Brand;
use std::sync::{Arc, Wait};
use std::thread::Threads;
use std::time::Instant;

/// The sectors of the media, which hold 4096 blocks of 4096 bytes.
const SECTORS: u32 = 32768;

/// Media of zero bytes.
pub(crate) fn zeros(alloc: Global) -> Option<Media> {
    let bytes = vec![in alloc; 0; 16777216].ok()?;
    Media::from_bytes(alloc, &bytes).ok()
}

/// Measures fetches and writes of a cache over any link, of a volume of so many blocks.
fn measure_cache<L: Link>(rt: &HostRuntime, cache: &mut Cache<L>, zones: u32) -> io::Result<()>
    requires ready { IsReady (caching L.Link cache.old) }
    requires inside { AreWritable zones (caching L.Link cache.old) }
{
    let start = Instant::now(rt)?;
    let missed = fetch_run(cache, 16, BLOCKS, zones);
    tell(rt, "fetches that miss", missed, "blocks", start)?;
    let _ = fetch_run(cache, 0, 16, zones);
    let start = Instant::now(rt)?;
    let hit = fetch_again(cache, BLOCKS, zones);
    tell(rt, "fetches that hit", hit, "blocks", start)?;
    let start = Instant::now(rt)?;
    let written = write_run(cache, BLOCKS / 16, zones);
    tell(rt, "made anew and written back", written, "blocks", start)
}

/// Measures a cache of so many frames for a volume, over a link that may give 2^40 messages.
fn measure_over<L: Link + Drop>(
    rt: &HostRuntime,
    link: L,
    volume: &Geometry,
    frames: u32,
) -> io::Result<()>
    requires budget { L.budget_left link ≡ 1099511627776 }
    requires sizes { IsGeometry volume.now }
{
    let Ok(transfers) = Transfers::new(rt.alloc(), link) else {
        return say(rt, "no memory");
    };
    let Ok(mut cache) = Cache::new(rt.alloc(), transfers, 0, volume, frames) else {
        return say(rt, "no memory");
    };
    measure_cache(rt, &mut cache, volume.zones)
}

/// Starts a driver of media with these bytes in a thread of its own, measures a cache over it, and ends it.
fn measure_on<
    N: ServiceParameters + Send + Sync + 'static,
    R: Threads + Wait + Copy + Send + Sync + 'static,
>(
    rt: &HostRuntime,
    waits: R,
    image: &[u8],
    reincarnation: Reincarnation<RamDriver>,
    board: Board,
    seat: Seat,
    volume: &Geometry,
    frames: u32,
) -> io::Result<()>
    requires range { (N.opening.first ≡ 0) × (N.opening.count ≡ 32768) }
    requires image { N.opening.media ≡ image.now }
    requires board { board ≡ N.table }
    requires seat { seat.table ≡ board }
    requires sizes { IsGeometry volume.now }
{
    let alloc = rt.alloc();
    let Ok(media) = Media::from_bytes(alloc, image) else {
        return say(rt, "no memory");
    };
    let board = Arc::new(alloc, board)?;
    let gate = Arc::new(alloc, Paced::new(waits))?;
    let (link, running) = start_drivers::<N, RamDriver, Paced<R>, R>(
        alloc,
        waits,
        media,
        (0, SECTORS),
        reincarnation,
        &board,
        seat,
        gate,
    )?;
    let measured = measure_over(rt, link, volume, frames);
    let _ = running.stop(&waits);
    measured
}

/// Measures a cache over a driver of media with these bytes.
fn measure_image<R: Threads + Wait + Copy + Send + Sync + 'static>(
    rt: &HostRuntime,
    waits: R,
    image: &[u8],
    volume: &Geometry,
    frames: u32,
) -> io::Result<()>
    requires { IsGeometry volume.now }
{
    let alloc = rt.alloc();
    let supply = vec![in alloc; driver()]?;
    let Ok(reincarnation) = Reincarnation::new(alloc, Policy::default(), supply) else {
        return say(rt, "no memory");
    };
    let (board, seat) = Board::new(alloc)?;
    measure_on::<Brand, R>(rt, waits, image, reincarnation, board, seat, volume, frames)
}

/// Measures a cache of so many frames for a volume of at most 16 MiB.
pub(crate) fn measure_frames<R: Threads + Wait + Copy + Send + Sync + 'static>(
    rt: &HostRuntime,
    waits: R,
    volume: &Geometry,
    frames: u32,
) -> io::Result<()>
    requires { IsGeometry volume.now }
{
    eprintln!(*rt; "{frames} frames of {} bytes", volume.block_size)?;
    let image = vec![in rt.alloc(); 0u8; 16777216]?;
    measure_image(rt, waits, &image, volume, frames)
}
