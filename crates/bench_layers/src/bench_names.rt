//! Measures look-ups in a directory of 1000 names whose blocks are in memory, beside plain scans of the same bytes.

pub(crate) mod directories;
pub(crate) mod scans;

ghost use Rattle.layout.specs.Places.{IsGeometry};

use crate::sizes::{large_blocks, small_blocks};
use crate::timing::micros_since;
use directories::Directory;
use layout::Geometry;
use scans::{look_ups, scans, scans_of_fields};
use std::io;
use std::time::Instant;

/// How often each piece of work is measured; its least time is told.
const ROUNDS: u32 = 50;

/// How many blocks each directory's volume has.
const ZONES: u32 = 128;

/// The three ways to look for names.
const WORK: [&str; 3] = [
    "find",
    "a scan by as many bytes as the name has",
    "a scan by whole fields of 60 bytes",
];

/// The least time of a piece of work so far, in microseconds, and how many names it found the last time.
#[derive(Clone, Copy)]
struct Least {
    micros: u128,
    found: u32,
}

impl Least {
    /// Notes one time more, since the work began.
    fn note(&mut self, rt: &HostRuntime, start: Instant, found: u32) -> io::Result<()> {
        self.micros = self.micros.min(micros_since(rt, start)?);
        self.found = found;
        Ok(())
    }
}

/// Measures the three ways to look for 1000 names, from the one of a number on: the times of each, the least.
fn measured(rt: &HostRuntime, directory: &mut Directory, first: u32) -> io::Result<[Least; 3]> {
    let mut times = [Least {
        micros: u128::MAX,
        found: 0,
    }; 3];
    for _ in 0..ROUNDS {
        let start = Instant::now(rt)?;
        let found = look_ups(directory, first);
        times[0].note(rt, start, found)?;
        let start = Instant::now(rt)?;
        let found = scans(directory.entries(), first);
        times[1].note(rt, start, found)?;
        let start = Instant::now(rt)?;
        let found = scans_of_fields(directory.entries(), first);
        times[2].note(rt, start, found)?;
    }
    Ok(times)
}

/// Measures one directory: each of its names looked up once, and as many that are missing.
fn measure(rt: &HostRuntime, geometry: Geometry) -> io::Result<()>
    requires { IsGeometry geometry }
{
    let mut directory = Directory::new(rt.alloc(), geometry)?;
    let block = geometry.block_size;
    for (what, first) in [("names that are there", 0), ("missing names", 1000)] {
        let times = measured(rt, &mut directory, first)?;
        tell_each(rt, block, what, times)?;
    }
    Ok(())
}

/// Tells the times of the three ways.
fn tell_each(rt: &HostRuntime, block: u32, what: &str, times: [Least; 3]) -> io::Result<()> {
    for (work, Least { micros, found }) in WORK.iter().zip(times) {
        eprintln!(*rt; "blocks of {block}, {what}, {work}: {micros} microseconds, {found} found")?;
    }
    Ok(())
}

/// Measures a directory in blocks of 1024 bytes, and one in blocks of 4096.
pub fn run(rt: &HostRuntime) -> io::Result<()> {
    measure(rt, small_blocks(ZONES))?;
    measure(rt, large_blocks(ZONES))
}
