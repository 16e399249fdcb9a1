//! Sessions and services of `serve` whose changes go into an archive behind each sync.

use crate::files::Files;
use crate::served::Served;
use archive::{Archive, Begins, SharedArchive};
use board::Device;
use board::counting::parameters::ServiceParameters;
use board::counting::recorder::Recorder;
use file_server::FileServer;
use serve::service::{Service, Shared};
use serve::session::Session;
use serve::stopping::NoImage;
use shared_server::locked::LastSync;
use shared_server::refusal::SessionRefusal;
use std::alloc::{AllocError, Global};
use std::sync::{Arc, Wait};
use std::thread::Threads;
use tree::{Call, Outcome};

/// A session of a service, and the archive that it shares with the others.
#[derive(Drop)]
pub(crate) struct KeptSession<
    N: ServiceParameters,
    R: Wait + Copy,
    L: Recorder<N>,
    S: FileServer<L>,
    F: Begins<A>,
    A: Archive + Drop,
> {
    session: Session<N, Shared<N, R, L, S>>,
    shared: Arc<SharedArchive<N, R, F, A>>,
}

impl<
    N: ServiceParameters,
    R: Wait + Copy,
    L: Recorder<N>,
    S: FileServer<L>,
    F: Begins<A>,
    A: Archive + Drop,
> Files for KeptSession<N, R, L, S, F, A> {
    ghost use Rattle.archive.specs.Behind.{IsArchived};

    ghost state = { λ s. s.session };

    ghost sizes = { N.geometry };

    ghost opening = { N.opening };

    ghost Line = { L };

    ghost words = { L.Link };

    ghost marks = { L.marks };

    ghost put = { IsArchived A.puts N.opening };

    /// A call between syncs of others. A sync that was done is told as what came of its changes.
    fn call(&mut self, now: u32, call: &Call<'_>) -> Outcome {
        self.shared.call(&mut self.session, now, call)
    }

    fn device(&mut self) -> Device {
        Session::device(&mut self.session)
    }

    fn seen(&self) -> u64 {
        Session::seen(&self.session)
    }

    /// Ends the session between syncs of others: what it left open is closed, which changes the volume.
    fn end(self) {
        let KeptSession { session, shared } = self;
        let _turn = shared.turn();
        session.end();
    }
}

/// A service, and the archive that its sessions share.
#[derive(Drop)]
pub(crate) struct KeptService<
    N: ServiceParameters,
    R: Wait + Copy,
    L: Recorder<N>,
    S: FileServer<L>,
    F: Begins<A>,
    A: Archive + Drop,
> {
    pub(crate) service: Service<N, R, L, S>,
    pub(crate) shared: Arc<SharedArchive<N, R, F, A>>,
}

impl<
    N: ServiceParameters + Send + Sync + 'static,
    R: Threads + Wait + Copy + Send + Sync + 'static,
    L: Recorder<N> + Send + 'static,
    S: FileServer<L> + Send + 'static,
    F: Begins<A> + Send + Sync + 'static,
    A: Archive + Drop + Send + 'static,
> Served for KeptService<N, R, L, S, F, A> {
    type Session = KeptSession<N, R, L, S, F, A>;

    fn session(&self, uid: u16, gid: u16) -> Result<KeptSession<N, R, L, S, F, A>, SessionRefusal> {
        let Ok(shared) = Arc::try_clone(&self.shared) else {
            return Err(SessionRefusal::OutOfMemory);
        };
        let session = Served::session(&self.service, uid, gid)?;
        Ok(KeptSession { session, shared })
    }

    fn image(&self, alloc: Global) -> Result<Vec<u8>, AllocError> {
        Served::image(&self.service, alloc)
    }

    /// The archive, which has a handle of the media, is let go first.
    fn stop(self) -> Result<(LastSync, Vec<u8>), NoImage> {
        let KeptService { service, shared } = self;
        drop(shared);
        Served::stop(service)
    }
}
