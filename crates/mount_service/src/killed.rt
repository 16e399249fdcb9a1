//! Drivers that are killed while a service runs, whatever they do then.

ghost use Rattle.std.specs.Prelude.{◌≡◌, false, true, IfOk, map};
ghost use Rattle.bdev.specs.Promises.{IsDriver, StepKeeps};
ghost use Rattle.modeldisk.specs.Dying.{failed_if};
ghost use Rattle.mount_service.specs.Killed.{killed_state};

use bdev::{Accept, BlockDriver, Step};
use gate::bell::Bell;
use media::Media;
use message::BlockRequest;
use std::alloc::{AllocError, Global};
use std::sync::atomic::{AtomicBool, Ordering};
use std::sync::{Arc, Wait};
use std::thread;
use std::thread::{JoinHandle, Threads};
use std::time::Duration;

/// Tells drivers to die: the one that makes the next step does.
#[derive(Drop)]
pub struct Killer {
    told: AtomicBool,
}

impl Killer {
    /// None is told.
    fn new() -> Killer {
        Killer {
            told: AtomicBool::new(false),
        }
    }

    /// The driver that makes the next step dies in it.
    fn kill(&self) {
        self.told.store(true, Ordering::SeqCst);
    }

    /// Whether a driver that makes a step dies in it. No other one does for the same telling.
    fn takes(&self) -> bool {
        self.told.load(Ordering::SeqCst) && self.told.swap(false, Ordering::SeqCst)
    }
}

/// A driver that works as the one in it until it is told to die. That step answers `Failed`, and so does each later one.
#[derive(Drop)]
pub struct KilledDriver<D: BlockDriver> {
    driver: D,
    killer: Arc<Killer>,
    // It was told to die.
    dead: bool,
}

impl<D: BlockDriver> BlockDriver for KilledDriver<D> {
    ghost state = { λ d. killed_state D.state d };

    fn accept(&mut self, request: BlockRequest) -> Accept {
        self.driver.accept(request)
    }

    fn in_work(&self) -> Option<u32> {
        self.driver.in_work()
    }

    #[tactic(auto, using(modeldisk::proofs::FailLaws::driver_if))]
    fn ready(&self, minor: u8) -> Option<(u32, u32)> {
        let range = self.driver.ready(minor);
        if self.dead { None } else { range }
    }

    fn bad(&self) -> u64 {
        self.driver.bad()
    }

    /// Works as the driver in it, until it is told to die.
    #[tactic(auto, using(bdev::proofs::FailLaws::is_driver))]
    fn step(&mut self, media: &mut Media, generation: u32) -> Step
        ensures keeps { StepKeeps (failed_if self.old.dead (D.state self.old.driver)) media.old generation result
            (failed_if self.new.dead (D.state self.new.driver)) media.new }
        ensures driver { IsDriver (failed_if self.new.dead (D.state self.new.driver)) }
        ensures stays { self.old.dead ≡ true → result ≡ Step.Failed }
    {
        if self.dead || self.killer.takes() {
            // what is known of a driver comes with a call
            let _sector = self.driver.in_work();
            self.dead = true;
            return Step::Failed;
        }
        self.driver.step(media, generation)
    }
}

/// A thread that tells drivers to die, one every so many milliseconds. Where it is let go, it is told to end, and ends by itself.
pub struct Killing {
    killer: Arc<Killer>,
    ending: Arc<Bell>,
    thread: Option<JoinHandle<()>>,
}

impl Drop for Killing {
    fn drop(self) {
        let Self {
            killer: _,
            ending,
            thread: _,
        } = self;
        ending.ring();
    }
}

impl Killing {
    /// Starts it, 1 millisecond at least; with 0 there is no thread, and no driver is told. Refused where no memory or no thread was found.
    pub fn start<R: Threads + Wait + Copy + Send + 'static>(
        alloc: Global,
        rt: &R,
        every: u32,
    ) -> Result<Killing, AllocError> {
        let killer = Arc::new(alloc, Killer::new())?;
        let ending = Arc::new(alloc, Bell::new())?;
        let thread = match every {
            0 => None,
            _ => {
                let told = Arc::try_clone(&killer)?;
                let bell = Arc::try_clone(&ending)?;
                let mine = *rt;
                Some(thread::spawn(rt, move || kill_on(&mine, &*told, every, &*bell))?)
            }
        };
        Ok(Killing {
            killer,
            ending,
            thread,
        })
    }

    /// These drivers, each of which dies where it is told to.
    pub fn drivers<D: BlockDriver>(
        &self,
        alloc: Global,
        drivers: Vec<D>,
    ) -> Result<Vec<KilledDriver<D>>, AllocError>
        ensures { IfOk result (λ killed. map (killed_state D.state) killed.items ≡ map D.state drivers.items) }
    {
        let mut killed = Vec::with_capacity(alloc, drivers.len())?;
        for driver in drivers {
            killed.push(KilledDriver {
                driver,
                killer: Arc::try_clone(&self.killer)?,
                dead: false,
            })?;
        }
        Ok(killed)
    }

    /// Ends it, and waits until it has.
    pub fn end<R: Threads>(self, rt: &R) {
        let Killing {
            killer: _,
            ending,
            thread,
        } = self;
        ending.ring();
        if let Some(thread) = thread {
            thread.join(rt);
        }
    }
}

/// Tells a driver to die every so many milliseconds, until the bell is rung.
fn kill_on<R: Wait>(rt: &R, killer: &Killer, every: u32, bell: &Bell) {
    for _ in rt.forever() {
        bell.rest(rt, Duration::from_millis(u64::from(every)));
        if bell.is_rung() {
            break;
        }
        killer.kill();
    }
}
