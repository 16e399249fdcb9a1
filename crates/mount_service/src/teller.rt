//! A thread that tells which drivers take the place of others. Nobody waits for it while the service runs.

use crate::telling_gate::Telling;
use gate::bell::Bell;
use std::alloc::{AllocError, Global};
use std::sync::atomic::{AtomicU32, Ordering};
use std::sync::{Arc, Wait};
use std::thread;
use std::thread::{JoinHandle, Threads};
use std::time::Duration;

/// How long the thread rests before it looks for news again, in milliseconds (own).
const PACE: u64 = 100;

/// After how many rests without a line the end of the program lets go of the thread (own).
const RESTS: u32 = 10;

/// Which drivers were noted, and how far they were told.
pub(crate) struct News {
    // The newest generation that was noted, at first that of the first driver.
    newest: AtomicU32,
    // The newest generation that was told, at first that of the first driver. The thread alone changes it.
    told: AtomicU32,
    // Rung once the thread is to tell what was noted, and end.
    ending: Bell,
    // Rung once it has.
    ended: Bell,
}

impl Drop for News {
    fn drop(self) {
        let Self {
            newest: _,
            told: _,
            ending: _,
            ended: _,
        } = self;
    }
}

impl News {
    /// The first driver alone was noted, and needs no telling.
    fn new() -> News {
        News {
            newest: AtomicU32::new(1),
            told: AtomicU32::new(1),
            ending: Bell::new(),
            ended: Bell::new(),
        }
    }

    /// Notes the driver of this generation, and with it all earlier ones. It waits for nobody.
    pub(crate) fn note(&self, generation: u32) {
        if self.newest.load(Ordering::SeqCst) < generation {
            self.newest.fetch_max(generation, Ordering::SeqCst);
        }
    }

    /// Tells each driver that was noted and not yet told, in the order of their generations. A line that isn't taken counts as told.
    fn tell<E: Eprint>(&self, to: &E) {
        let told = self.told.load(Ordering::SeqCst);
        for before in told..self.newest.load(Ordering::SeqCst) {
            let generation = before + 1;
            let _ = to.eprintln(format_args!("started 1.{generation}"));
            self.told.store(generation, Ordering::SeqCst);
        }
    }

    /// Tells what is noted, until the thread is to end: what was noted before that is told, too.
    fn tell_on<R: Wait, E: Eprint>(&self, rt: &R, to: &E) {
        for _ in rt.forever() {
            let is_last = self.ending.is_rung();
            self.tell(to);
            if is_last {
                break;
            }
            self.ending.rest(rt, Duration::from_millis(PACE));
        }
        self.ended.ring();
    }

    /// Waits until the thread has told all, and then is true; or until it has told nothing for a second.
    fn is_told<R: Wait>(&self, rt: &R) -> bool {
        let mut told = 0;
        let mut rests = 0;
        for _ in rt.forever() {
            if self.ended.is_rung() {
                return true;
            }
            if rests >= RESTS {
                return false;
            }
            self.ended.rest(rt, Duration::from_millis(PACE));
            let now = self.told.load(Ordering::SeqCst);
            rests = if now == told { rests + 1 } else { 0 };
            told = now;
        }
        unreachable!()
    }
}

/// A thread that tells the drivers of a service on standard error: a line `started 1.G` for each generation G after the first one, in their
/// order, up to the newest driver that took a step. It alone waits where standard error takes no line.
#[derive(Drop)]
pub struct Teller {
    news: Arc<News>,
    thread: JoinHandle<()>,
}

impl Teller {
    /// Starts it. Refused where no memory or no thread was found.
    pub fn start<R: Threads + Wait + Copy + Send + 'static, E: Eprint + Send + Drop + 'static>(
        alloc: Global,
        rt: &R,
        to: E,
    ) -> Result<Teller, AllocError> {
        let news = Arc::new(alloc, News::new())?;
        let noted = Arc::try_clone(&news)?;
        let mine = *rt;
        let thread = thread::spawn(rt, move || noted.tell_on(&mine, &to))?;
        Ok(Teller { news, thread })
    }

    /// A gate of the service that does as this one does, and notes the drivers.
    pub fn gate<G: Drop>(&self, gate: G) -> Result<Telling<G>, AllocError> {
        Ok(Telling::new(gate, Arc::try_clone(&self.news)?))
    }

    /// Waits until all drivers that were noted are told. Where no line goes out for a second, the thread is let go: it may still wait for
    /// standard error, and then ends with the program.
    pub fn end<R: Threads + Wait>(self, rt: &R) {
        let Teller { news, thread } = self;
        news.ending.ring();
        if news.is_told(rt) {
            thread.join(rt);
        }
    }
}
