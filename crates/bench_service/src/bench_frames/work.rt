//! The work that is measured. Each piece tells how many blocks it went over: fewer where a request wasn't taken or a call was cut. What a
//! driver answers isn't looked at.
ghost use Rattle.cache.specs.Calls.{caching, IsReady, AreWritable};

use bdev::{Accept, BlockDriver};
use cache::Cache;
use flusher::sync;
use media::Media;
use media::partition::Table;
use message::{BlockRequest, Kind};
use modeldisk::RamDriver;
use reissue::Link;

/// The sectors of the volume.
const SECTORS: u32 = 32768;

/// A driver of the whole volume.
pub(crate) fn driver() -> RamDriver {
    RamDriver::new(Table::whole(SECTORS))
}

/// Fetches each of so many blocks once, from the first on, as far as the volume has them.
pub(crate) fn fetch_run<L: Link>(cache: &mut Cache<L>, first: u32, count: u32, zones: u32) -> u32
    requires ready { IsReady (caching L.Link cache.old) }
    requires inside { AreWritable zones (caching L.Link cache.old) }
    ensures ready { IsReady (caching L.Link cache.new) }
    ensures inside { AreWritable zones (caching L.Link cache.new) }
{
    let mut given = 0u32;
    for block in first..first.saturating_add(count).min(zones) {
        if cache.fetch(block).is_ok() {
            given = given.saturating_add(1);
        }
    }
    given
}

/// Fetches so often, at most once for each block of the volume, one of the first 16 blocks.
pub(crate) fn fetch_again<L: Link>(cache: &mut Cache<L>, count: u32, zones: u32) -> u32
    requires ready { IsReady (caching L.Link cache.old) }
    requires inside { AreWritable zones (caching L.Link cache.old) }
    ensures ready { IsReady (caching L.Link cache.new) }
    ensures inside { AreWritable zones (caching L.Link cache.new) }
{
    let mut given = 0u32;
    for turn in 0..count.min(zones) {
        if cache.fetch(turn % 16).is_ok() {
            given = given.saturating_add(1);
        }
    }
    given
}

/// Makes 16 blocks anew, and writes them back, in runs of neighbours. Each is one of the volume, but not of its first two.
fn write_16<L: Link>(cache: &mut Cache<L>, first: u32, zones: u32) -> u32
    requires ready { IsReady (caching L.Link cache.old) }
    requires inside { AreWritable zones (caching L.Link cache.old) }
    ensures ready { IsReady (caching L.Link cache.new) }
    ensures inside { AreWritable zones (caching L.Link cache.new) }
{
    for nth in 0..16 {
        let block = first.saturating_add(nth);
        if block < 2 || zones <= block || cache.fresh(block).is_err() {
            return 0;
        }
    }
    match sync(cache) {
        Ok(()) => 16,
        Err(_) => 0,
    }
}

/// Makes so many times 16 blocks anew, from the 17th on, and writes each 16 of them back.
pub(crate) fn write_run<L: Link>(cache: &mut Cache<L>, times: u32, zones: u32) -> u32
    requires ready { IsReady (caching L.Link cache.old) }
    requires inside { AreWritable zones (caching L.Link cache.old) }
    ensures { IsReady (caching L.Link cache.new) }
{
    let mut written = 0u32;
    for turn in 1..times.saturating_add(1) {
        written = written.saturating_add(write_16(cache, turn.saturating_mul(16), zones));
    }
    written
}

/// Hands a request for a block over to a driver, and lets it take its eight steps; false where it isn't taken.
fn drive_block(driver: &mut RamDriver, media: &mut Media, kind: Kind, number: u32) -> bool {
    let request = BlockRequest {
        id: u64::from(number) + 1,
        kind,
        minor: 0,
        position: u64::from(number) * 4096,
        count: 4096,
        bytes: [0; 4096],
    };
    if !matches!(driver.accept(request), Accept::Taken) {
        return false;
    }
    for _ in 0..8 {
        let _ = driver.step(media, 1);
    }
    true
}

/// Lets a driver of its own read or write each of so many blocks.
pub(crate) fn drive(media: &mut Media, kind: Kind, count: u32) -> u32 {
    let mut driver = driver();
    let mut taken = 0u32;
    for number in 0..count {
        if drive_block(&mut driver, media, kind, number) {
            taken = taken.saturating_add(1);
        }
    }
    taken
}
