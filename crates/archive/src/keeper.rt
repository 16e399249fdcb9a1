//! The keeper: a thread that makes a sync every few seconds, so that little is lost where the program is killed.

use crate::puts::Archive;
use crate::shared_archive::{Begins, SharedArchive};
use board::counting::parameters::ServiceParameters;
use board::counting::recorder::Recorder;
use file_server::FileServer;
use gate::bell::Bell;
use serve::service::{Service, Shared};
use serve::session::Session;
use shared_server::refusal::SessionRefusal;
use std::alloc::{AllocError, Global};
use std::sync::{Arc, Wait};
use std::thread;
use std::thread::{JoinHandle, Threads};
use std::time::Duration;

/// The time of the keeper's syncs (own): a sync writes no time.
const NEVER: u32 = 0;

/// A keeper's thread. Where it is let go, it is told to end, and ends by itself.
pub struct Keeper {
    thread: JoinHandle<()>,
    ending: Arc<Bell>,
}

impl Drop for Keeper {
    fn drop(self) {
        let Self { thread: _, ending } = self;
        ending.ring();
    }
}

impl Keeper {
    /// Starts the keeper of a service: it makes a sync every so many seconds, and has its changes put into the archive. None where that is
    /// 0, or where the link to the drivers has ended. Refused where no memory or no thread was found.
    pub fn start<
        N: ServiceParameters + Send + Sync + 'static,
        R: Threads + Wait + Copy + Send + Sync + 'static,
        L: Recorder<N> + Send + 'static,
        S: FileServer<L> + Send + 'static,
        F: Begins<A> + Send + Sync + 'static,
        A: Archive + Drop + Send + 'static,
    >(
        alloc: Global,
        rt: &R,
        service: &Service<N, R, L, S>,
        shared: &Arc<SharedArchive<N, R, F, A>>,
        every: u32,
    ) -> Result<Option<Keeper>, AllocError> {
        if every == 0 {
            return Ok(None);
        }
        match service.session(0, 0) {
            Ok(session) => {
                let shared = Arc::try_clone(shared)?;
                Ok(Some(Keeper::spawn(alloc, rt, shared, session, every)?))
            }
            Err(SessionRefusal::OutOfMemory) => Err(AllocError),
            Err(_) => Ok(None),
        }
    }

    /// Starts it: it makes a sync by this session every so many seconds, 1 at least. What a refused put had is in the next one.
    fn spawn<
        N: ServiceParameters + Send + Sync + 'static,
        R: Threads + Wait + Copy + Send + Sync + 'static,
        L: Recorder<N> + Send + 'static,
        S: FileServer<L> + Send + 'static,
        F: Begins<A> + Send + Sync + 'static,
        A: Archive + Drop + Send + 'static,
    >(
        alloc: Global,
        rt: &R,
        shared: Arc<SharedArchive<N, R, F, A>>,
        session: Session<N, Shared<N, R, L, S>>,
        every: u32,
    ) -> Result<Keeper, AllocError> {
        let ending = Arc::new(alloc, Bell::new())?;
        let bell = Arc::try_clone(&ending)?;
        let mine = *rt;
        let thread = thread::spawn(rt, move || {
            keep_on(&mine, &*shared, session, every, &*bell)
        })?;
        Ok(Keeper { thread, ending })
    }

    /// Ends it, and waits until it has.
    pub fn end<R: Threads>(self, rt: &R) {
        let Keeper { thread, ending } = self;
        ending.ring();
        thread.join(rt);
    }
}

/// Makes syncs until the bell is rung; then the session ends.
fn keep_on<
    N: ServiceParameters,
    R: Threads + Wait + Copy,
    L: Recorder<N>,
    S: FileServer<L>,
    F: Begins<A>,
    A: Archive + Drop,
>(
    rt: &R,
    shared: &SharedArchive<N, R, F, A>,
    session: Session<N, Shared<N, R, L, S>>,
    every: u32,
    bell: &Bell,
) {
    let mut session = session;
    for _ in rt.forever() {
        bell.rest(rt, Duration::from_secs(u64::from(every)));
        if bell.is_rung() {
            break;
        }
        shared.sync(&mut session, NEVER);
    }
    session.end();
}
