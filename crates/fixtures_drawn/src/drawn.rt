//! A gate at which each thread stands until it is chosen.

use crate::chooser::{CLOCK, Chooser, FLUSHER, Note, PLACES, Told, Watching, place_of};
use gate::bell::Bell;
use gate::{Gate, Point};
use std::alloc::{AllocError, Global};
use std::sync::atomic::{AtomicBool, Ordering};
use std::sync::{Mutex, Wait};
use std::thread::Parker;
use std::time::Duration;

/// How long a thread rests at once that somebody will wake before, in seconds.
const REST: u64 = 1;

/// How many seconds without a choice count as no end: a choice takes some microseconds.
const MOST_IDLE: u32 = 60;

/// Where one thread waits until it may go on.
#[derive(Drop)]
struct Spot {
    goes_on: AtomicBool,
    parker: Parker,
}

impl Spot {
    fn new() -> Spot {
        Spot {
            goes_on: AtomicBool::new(false),
            parker: Parker::new(),
        }
    }

    fn wake(&self) {
        self.goes_on.store(true, Ordering::SeqCst);
        self.parker.unpark();
    }

    fn wait<R: Wait>(&self, rt: &R) {
        for _ in rt.forever() {
            if self.goes_on.swap(false, Ordering::SeqCst) {
                return;
            }
            self.parker.park(rt);
        }
    }

    // Waits for a second at most. Whether it may go on.
    fn rest<R: Wait>(&self, rt: &R) -> bool {
        if self.goes_on.swap(false, Ordering::SeqCst) {
            return true;
        }
        self.parker.park_timeout(rt, Duration::from_secs(REST));
        self.goes_on.swap(false, Ordering::SeqCst)
    }
}

/// A gate under which one thread at a time goes on, which is drawn. A session stands there before each of its calls, and whoever waits for
/// a message of a driver before that; so it knows who runs, and chooses only once nobody does.
pub struct Drawn<R: Wait + Copy> {
    rt: R,
    chooser: Mutex<Chooser>,
    spots: Vec<Spot>,
    // The end of all, for which the test waits.
    end: Spot,
}

impl<R: Wait + Copy> Drop for Drawn<R> {
    fn drop(self) {
        let Self {
            rt: _,
            chooser: _,
            spots: _,
            end: _,
        } = self;
    }
}

impl<R: Wait + Copy> Drawn<R> {
    /// Nobody has come.
    pub fn new(alloc: Global, rt: R, chooser: Chooser) -> Result<Drawn<R>, AllocError> {
        let mut spots = Vec::new(alloc);
        for _ in 0..PLACES {
            spots.push(Spot::new())?;
        }
        Ok(Drawn {
            rt,
            chooser: Mutex::new(chooser),
            spots,
            end: Spot::new(),
        })
    }

    /// The handle by which threads wait.
    pub fn handle(&self) -> R {
        self.rt
    }

    fn wake(&self, at: usize) {
        if let Some(spot) = self.spots.get(at) {
            spot.wake();
        }
    }

    // The threads of drivers that have ended go on.
    fn free(&self, chooser: &mut Chooser) {
        for (at, spot) in self.spots.iter().enumerate() {
            if chooser.frees(at) {
                spot.wake();
            }
        }
    }

    // Who was chosen goes on; with the reincarnation server those whom it joins.
    fn let_on(&self, chooser: &mut Chooser, at: usize) {
        if at == CLOCK {
            self.free(chooser);
        }
        self.wake(at);
    }

    /// Tells the gate something. Then whoever is to go on does.
    pub fn tell(&self, note: Note) -> bool {
        let mut guard = self.chooser.lock(&self.rt);
        let chooser = &mut *guard;
        let given = chooser.note(note);
        if let Some(at) = chooser.choose() {
            self.let_on(chooser, at);
        }
        if chooser.told().is_stuck {
            self.end.wake();
        }
        given
    }

    // Tells the gate something, and waits at a place if that has to be.
    fn tell_at(&self, at: usize, note: Note) {
        if self.tell(note) {
            if let Some(spot) = self.spots.get(at) {
                spot.wait(&self.rt);
            }
        }
    }

    /// Stands at a place until it is chosen.
    pub fn stand(&self, at: usize) {
        self.tell_at(at, Note::Comes(at));
    }

    /// A driver has ended: its thread waits until it is joined.
    pub fn end_driver(&self, generation: u32) {
        self.tell_at(place_of(generation), Note::Gone(generation));
    }

    // Rests until a bell is rung, if all that this thread does any more is to end.
    fn rest(&self, at: usize, bell: &Bell) {
        let rests = self.tell(Note::Rests(at));
        for _ in self.rt.forever() {
            if !rests || bell.is_rung() {
                return;
            }
            bell.rest(&self.rt, Duration::from_secs(REST));
        }
    }

    /// The service's board is known from now on.
    pub fn watch(&self, watching: Watching) {
        let mut guard = self.chooser.lock(&self.rt);
        (&mut *guard).watch(watching);
    }

    /// The service is about to be stopped.
    pub fn close(&self) {
        self.tell(Note::Close);
        self.wake(FLUSHER);
    }

    /// The link was let go: all that stand go on, to end.
    pub fn open(&self) {
        self.tell(Note::Open);
        for spot in self.spots.iter() {
            spot.wake();
        }
    }

    /// All is done: the test goes on.
    pub fn finish(&self) {
        self.end.wake();
    }

    // What the choices came to so far.
    fn told(&self) -> Told {
        let guard = self.chooser.lock(&self.rt);
        (&*guard).told()
    }

    // Somebody doesn't come: nobody is chosen any more.
    fn give_up(&self) {
        let mut guard = self.chooser.lock(&self.rt);
        (&mut *guard).give_up();
    }

    /// Waits until all is done, or nobody can go on any more: what the choices came to.
    pub fn await_end(&self) -> Told {
        let mut idle = 0u32;
        let mut choices = 0;
        for _ in self.rt.forever() {
            if self.end.rest(&self.rt) {
                break;
            }
            let now = self.told().choices;
            idle = if now == choices {
                idle.saturating_add(1)
            } else {
                0
            };
            choices = now;
            if idle >= MOST_IDLE {
                self.give_up();
                break;
            }
        }
        self.told()
    }
}

impl<R: Wait + Copy + Send + Sync> Gate for Drawn<R> {
    fn pass(&self, at: Point) {
        self.pass_or_end(at, &Bell::new());
    }

    fn pass_or_end(&self, at: Point, end: &Bell) {
        match at {
            Point::DriverStep(generation) => self.stand(place_of(generation)),
            Point::FlusherTurn => {
                self.stand(FLUSHER);
                self.rest(FLUSHER, end);
            }
            Point::Tick => {
                self.stand(CLOCK);
                self.rest(CLOCK, end);
            }
        }
    }
}
