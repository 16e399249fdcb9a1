//! Drivers that note what they write, and are counted when they are dropped.

use bdev::{Accept, BlockDriver, Step};
use media::Media;
use media::partition::Table;
use message::BlockRequest;
use modeldisk::{Fault, Inner, RamDriver, ScriptedDriver};
use std::alloc::{AllocError, Global};
use std::sync::atomic::{AtomicBool, AtomicU64, Ordering};
use std::sync::{Arc, Mutex, Wait};

/// How many drivers a service has at least.
const DRIVERS: usize = 33;

/// A sector that a driver wrote.
#[derive(Clone, Copy)]
struct Written {
    /// The driver's generation.
    generation: u32,
    /// The number of the sector on the media.
    sector: u32,
    /// Its bytes, as the request has them.
    bytes: [u8; 512],
}

/// What all drivers of a test did.
pub struct Notes<R: Wait + Copy> {
    rt: R,
    writes: Mutex<Vec<Written>>,
    // Whether there was no memory for a note.
    is_short: AtomicBool,
    gone: AtomicU64,
}

impl<R: Wait + Copy> Drop for Notes<R> {
    fn drop(self) {
        let Self {
            rt: _,
            writes: _,
            is_short: _,
            gone: _,
        } = self;
    }
}

impl<R: Wait + Copy> Notes<R> {
    /// Nothing was done.
    pub(crate) fn new(alloc: Global, rt: R) -> Notes<R> {
        Notes {
            rt,
            writes: Mutex::new(Vec::new(alloc)),
            is_short: AtomicBool::new(false),
            gone: AtomicU64::new(0),
        }
    }

    // A sector was written.
    fn note(&self, written: Written) {
        let mut writes = self.writes.lock(&self.rt);
        if writes.push(written).is_err() {
            self.is_short.store(true, Ordering::SeqCst);
        }
    }

    /// How many drivers were dropped.
    pub fn gone(&self) -> &AtomicU64 {
        &self.gone
    }

    /// Whether the driver of this generation wrote a sector.
    pub fn has_written(&self, generation: u32) -> bool {
        let writes = self.writes.lock(&self.rt);
        writes
            .iter()
            .any(|written| written.generation == generation)
    }

    /// How many sectors were written.
    pub fn count(&self) -> usize {
        self.writes.lock(&self.rt).len()
    }

    /// An image, changed by the writes in their order. None where there was no memory for a note.
    pub fn changed(&self, alloc: Global, image: &[u8]) -> Result<Option<Vec<u8>>, AllocError> {
        if self.is_short.load(Ordering::SeqCst) {
            return Ok(None);
        }
        let mut changed = image.to_vec(alloc)?;
        let writes = self.writes.lock(&self.rt);
        for written in writes.iter() {
            let from = (written.sector as usize).saturating_mul(512);
            let at = from.min(changed.len());
            let (_, rest) = changed.split_at_mut(at);
            for (place, byte) in rest.iter_mut().zip(written.bytes.iter()) {
                *place = *byte;
            }
        }
        Ok(Some(changed))
    }
}

/// A driver that notes each sector that it writes.
pub struct RecordingDriver<R: Wait + Copy> {
    driver: ScriptedDriver,
    request: Option<BlockRequest>,
    notes: Arc<Notes<R>>,
}

impl<R: Wait + Copy> RecordingDriver<R> {
    /// A driver of so many sectors, with these faults.
    pub(crate) fn new(
        sectors: u32,
        faults: Vec<Fault>,
        notes: Arc<Notes<R>>,
    ) -> RecordingDriver<R> {
        let inner = Inner::Ram(RamDriver::new(Table::whole(sectors)));
        RecordingDriver {
            driver: ScriptedDriver::new(inner, faults),
            request: None,
            notes,
        }
    }

    // The bytes that the request in work has for a sector of the media, of which the volume has the first ones.
    fn bytes_of(&self, sector: u32) -> Option<[u8; 512]> {
        let request = self.request?;
        let at = u64::from(sector)
            .saturating_mul(512)
            .checked_sub(request.position)?;
        let from = usize::try_from(at).ok()?;
        let mut bytes = [0u8; 512];
        for (place, byte) in bytes.iter_mut().zip(request.bytes.iter().skip(from)) {
            *place = *byte;
        }
        Some(bytes)
    }
}

impl<R: Wait + Copy> Drop for RecordingDriver<R> {
    fn drop(self) {
        let Self {
            driver: _,
            request: _,
            notes,
        } = self;
        notes.gone.fetch_add(1, Ordering::SeqCst);
    }
}

impl<R: Wait + Copy + Send + Sync> BlockDriver for RecordingDriver<R> {
    ghost use Rattle.modeldisk.specs.Script.{scripted_state};

    ghost state = { λ n. scripted_state n.driver };

    fn accept(&mut self, request: BlockRequest) -> Accept {
        let accept = self.driver.accept(request);
        if accept == Accept::Taken {
            self.request = Some(request);
        }
        accept
    }

    fn in_work(&self) -> Option<u32> {
        self.driver.in_work()
    }

    fn ready(&self, minor: u8) -> Option<(u32, u32)> {
        self.driver.ready(minor)
    }

    fn bad(&self) -> u64 {
        self.driver.bad()
    }

    /// A write that doesn't fail has moved the sector that was named.
    fn step(&mut self, media: &mut Media, generation: u32) -> Step {
        let named = self.driver.in_work();
        let step = self.driver.step(media, generation);
        if let (Some(sector), false) = (named, matches!(step, Step::Failed)) {
            if let Some(bytes) = self.bytes_of(sector) {
                self.notes.note(Written {
                    generation,
                    sector,
                    bytes,
                });
            }
        }
        step
    }
}

/// Drivers of so many sectors, the first ones each with its fault in this list, 33 in all or as many as there are faults.
pub(crate) fn drivers<R: Wait + Copy>(
    alloc: Global,
    sectors: u32,
    faults: &[Fault],
    notes: &Arc<Notes<R>>,
) -> Result<Vec<RecordingDriver<R>>, AllocError> {
    let mut all: Vec<RecordingDriver<R>> = Vec::new(alloc);
    for at in 0..faults.len().max(DRIVERS) {
        let mut script = Vec::new(alloc);
        if let Some(fault) = faults.get(at) {
            script.push(*fault)?;
        }
        all.push(RecordingDriver::new(sectors, script, Arc::try_clone(notes)?))?;
    }
    Ok(all)
}
