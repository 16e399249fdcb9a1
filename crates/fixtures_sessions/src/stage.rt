//! What a test of a service's threads runs on: an image, a gate, drivers that note what they write, and a service over them.

use crate::recording_driver::{Notes, RecordingDriver, drivers};
use crate::watch::{Holds, PACE, Watch};
use fixtures::whole;
use modeldisk::Fault;
use reincarnate::policy::{Policy, Setup};
use service_start::program::Program;
use service_start::start::serve;
use std::alloc::{AllocError, Global};
use std::sync::{Arc, Wait};
use std::test::Fail;
use std::thread::Threads;
use std::time::Clock;

/// The whole image is the volume. A driver that isn't scheduled for a while on a loaded machine is no fault under it, and no number of
/// faults gives the device up while there are drivers.
pub fn patient() -> Setup {
    Setup {
        policy: Policy {
            max_faults: 32,
            cap: 1,
            calm: 1,
            misses: 16,
        },
        ..whole()
    }
}

/// What a test runs on.
#[derive(Drop)]
pub struct Stage<R: Wait + Clock + Copy> {
    pub alloc: Global,
    pub rt: R,
    /// The image that is handed in.
    pub image: Vec<u8>,
    /// The gate of the service.
    pub gate: Arc<Watch<R>>,
    /// What the drivers did.
    pub notes: Arc<Notes<R>>,
}

impl<R: Wait + Clock + Copy> Stage<R> {
    /// On the volume in an image, with a gate that can hold these threads.
    pub fn new(alloc: Global, rt: R, image: Vec<u8>, holds: Holds) -> Result<Stage<R>, AllocError> {
        Stage::paced(alloc, rt, image, holds, PACE)
    }

    /// The same, where a tick takes so many milliseconds.
    pub fn paced(
        alloc: Global,
        rt: R,
        image: Vec<u8>,
        holds: Holds,
        pace: u64,
    ) -> Result<Stage<R>, AllocError> {
        let gate = Arc::new(alloc, Watch::new(rt, holds, pace))?;
        let notes = Arc::new(alloc, Notes::new(alloc, rt))?;
        Ok(Stage {
            alloc,
            rt,
            image,
            gate,
            notes,
        })
    }

    /// Drivers of the image's sectors, the first ones each with its fault in this list.
    pub fn supply(&self, faults: &[Fault]) -> Result<Vec<RecordingDriver<R>>, AllocError> {
        let sectors = u32::try_from(self.image.len() / 512).unwrap_or(0);
        drivers(self.alloc, sectors, faults, &self.notes)
    }

    /// What comes of a program over a service on the volume, with drivers of these faults.
    pub fn served<P: Program<R>>(&self, faults: &[Fault], program: P) -> Result<P::Output, Fail>
    where
        R: Threads + Send + Sync + 'static,
    {
        let supply = self.supply(faults)?;
        let gate = Arc::try_clone(&self.gate)?;
        let image = Vec::from_slice(self.alloc, &self.image)?;
        match serve(
            self.alloc,
            self.rt,
            image,
            &patient(),
            supply,
            gate,
            program,
        ) {
            Ok(came) => Ok(came),
            Err(refusal) => Err(Fail::new(format_args!("{refusal}"))),
        }
    }

    /// An image that is left is the one that was handed in, changed by the drivers' writes in their order.
    pub fn check_left(&self, left: &[u8]) -> Result<(), Fail> {
        let changed = self
            .notes
            .changed(self.alloc, &self.image)?
            .ok_or("no memory for notes")?;
        if left == changed.as_slice() {
            return Ok(());
        }
        Err(Fail::new(format_args!("another image after {} writes", self.notes.count())))
    }
}
