//! Measures the drivers over 2048 blocks of 4096 bytes, which is 8 MiB, and the frames over 2048 blocks of each size. The frames' driver runs in
//! a thread of its own, as those of a service do.

mod caches;
mod work;

use bench_layers::sizes::{large_blocks, middle_blocks, small_blocks};
use bench_layers::timing::{copy, micros_since, say, tell};
use caches::{measure_frames, zeros};
use media::Media;
use message::Kind;
use std::io;
use std::sync::Wait;
use std::thread::Threads;
use std::time::Instant;
use work::drive;

/// How many blocks a piece of work goes over.
pub(crate) const BLOCKS: u32 = 2048;

/// How many rounds.
const ROUNDS: u32 = 3;

/// Measures a driver alone.
fn measure_driver(rt: &HostRuntime) -> io::Result<()> {
    let Some(mut media) = zeros(rt.alloc()) else {
        return say(rt, "no memory");
    };
    media.adopt(1);
    measure_on(rt, &mut media)
}

/// The same, on these media.
fn measure_on(rt: &HostRuntime, media: &mut Media) -> io::Result<()> {
    for (what, kind) in [
        ("driver, writes", Kind::Write),
        ("driver, reads", Kind::Read),
    ] {
        let start = Instant::now(rt)?;
        let blocks = drive(media, kind, BLOCKS);
        tell(rt, what, blocks, "blocks", start)?;
    }
    Ok(())
}

/// Measures a plain copy of as many bytes, into memory that was used before, and tells the last byte that was copied.
fn measure_copy(rt: &HostRuntime, from: &[u8], to: &mut [u8]) -> io::Result<()> {
    let start = Instant::now(rt)?;
    let count = copy(from, to);
    let took = micros_since(rt, start)?;
    let last = to.last().copied();
    eprintln!(*rt; "a plain copy of {count} bytes: {took} microseconds, last {last:?}")
}

/// Measures a plain copy, a driver, caches of three sizes for blocks of 4096 bytes, and those of 256 frames for smaller blocks, in several
/// rounds.
pub fn run<R: Threads + Wait + Copy + Send + Sync + 'static>(
    rt: &HostRuntime,
    waits: R,
) -> io::Result<()> {
    let from = vec![in rt.alloc(); 1u8; 8388608]?;
    let mut to = vec![in rt.alloc(); 0u8; 8388608]?;
    for _ in 0..ROUNDS {
        measure_copy(rt, &from, &mut to)?;
        measure_driver(rt)?;
        for frames in [16, 256, 1024] {
            measure_frames(rt, waits, &large_blocks(4096), frames)?;
        }
        measure_frames(rt, waits, &middle_blocks(4096), 256)?;
        measure_frames(rt, waits, &small_blocks(4096), 256)?;
    }
    Ok(())
}
