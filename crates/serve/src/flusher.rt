//! The flusher's thread.

use crate::service::Shared;
use board::counting::parameters::ServiceParameters;
use board::counting::recorder::Recorder;
use file_server::FileServer;
use gate::bell::Bell;
use gate::{Gate, Point};
use std::alloc::{AllocError, Global};
use std::sync::{Arc, Wait};
use std::thread;
use std::thread::{JoinHandle, Threads};

/// A thread's bell, which is rung once this is let go: then the thread ends.
pub(crate) struct Ends(Arc<Bell>);

impl Drop for Ends {
    fn drop(self) {
        let Self(bell) = self;
        bell.ring();
    }
}

impl Ends {
    /// Of the thread that listens for this bell.
    pub(crate) fn new(bell: Arc<Bell>) -> Ends {
        Ends(bell)
    }
}

/// The flusher's thread. It is told to end once this is let go.
#[derive(Drop)]
pub(crate) struct Flusher {
    end: Ends,
    handle: JoinHandle<()>,
}

impl Flusher {
    /// Starts it over what the sessions of a service share. Where no memory or no thread was found, it lets go of all.
    pub(crate) fn start<
        N: ServiceParameters + Send + Sync + 'static,
        R: Threads + Wait + Copy + Send + Sync + 'static,
        L: Recorder<N> + Send + 'static,
        S: FileServer<L> + Send + 'static,
        G: Gate + 'static,
    >(
        alloc: Global,
        rt: &R,
        shared: Arc<Shared<N, R, L, S>>,
        gate: Arc<G>,
    ) -> Result<Flusher, AllocError> {
        let bell = Arc::new(alloc, Bell::new())?;
        let end = Ends::new(Arc::try_clone(&bell)?);
        let mine = *rt;
        match thread::spawn(rt, move || flush_on(&mine, &*shared, &*gate, &*bell)) {
            Ok(handle) => Ok(Flusher { end, handle }),
            Err(_) => Err(AllocError),
        }
    }

    /// Ends it, and waits until it has.
    pub(crate) fn stop<R: Threads>(self, rt: &R) {
        let Flusher { end, handle } = self;
        drop(end);
        handle.join(rt);
    }
}

/// Has the server take what has come, and a Flush, at each turn that the gate passes, until it is to end.
fn flush_on<N: ServiceParameters, R: Wait + Copy, L: Recorder<N>, S: FileServer<L>, G: Gate>(
    rt: &R,
    shared: &Shared<N, R, L, S>,
    gate: &G,
    bell: &Bell,
) {
    for _ in rt.forever() {
        gate.pass_or_end(Point::FlusherTurn, bell);
        if bell.is_rung() {
            break;
        }
        shared.flush();
    }
}
