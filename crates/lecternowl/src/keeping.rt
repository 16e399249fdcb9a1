//! Tasks over a service whose changes are kept, if they are, in an archive.

ghost use Rattle.std.specs.Prelude.{◌≡◌, IfErr, IfOk, Some};
ghost use Rattle.shared_server.specs.Held.{HasEnded};
ghost use Rattle.lecternowl.specs.Serving.{AreKept, IsNotDone};

use crate::kept_sessions::KeptService;
use crate::refusal::ServeRefusal;
use crate::tasks::{Came, Task, do_all, do_each, stop_with};
use archive::{Archive, Begins, Keeper, SharedArchive};
use board::counting::parameters::ServiceParameters;
use board::counting::recorder::Recorder;
use errno::Errno;
use file_server::FileServer;
use image_file::Puts;
use serve::service::Service;
use std::alloc::{AllocError, Global};
use std::marker::Brand;
use std::sync::{Arc, Wait};
use std::thread::Threads;

/// What came of tasks whose changes were kept.
#[derive(Drop)]
pub struct Kept<O: Drop, A> {
    /// What came of the tasks.
    pub came: Came<O>,
    /// Where the changes were put; none where a thread still has it, which by the code none has.
    pub archive: Option<A>,
}

/// Where the changes of tasks are put, if anywhere.
#[derive(Drop)]
pub(crate) struct Keeping<A> {
    /// Into this archive, behind each sync that was done.
    pub(crate) archive: Option<A>,
    /// After how many seconds a sync is made beside those of the tasks where there is an archive; 0: none is.
    pub(crate) sync_every: u32,
}

/// What stands for the archive of a service whose changes are kept nowhere. It would take none.
#[derive(Drop)]
pub(crate) struct NoArchive;

impl Archive for NoArchive {
    ghost use Rattle.std.specs.Prelude.{Err};
    ghost use Rattle.errno.specs.declared.Errno.TheVariants.{ENOSPC};

    ghost puts = { λ _ _ answer _. answer ≡ Err ENOSPC };

    ghost ends = { λ _ _ answer _. answer ≡ Err ENOSPC };

    fn put<P: Puts>(&mut self, _changes: &P) -> Result<(), Errno> {
        Err(Errno::ENOSPC)
    }

    fn finish(&mut self, _image: &[u8]) -> Result<(), Errno> {
        Err(Errno::ENOSPC)
    }
}

/// Does each task in a session and a thread of its own, and stops the service. Where there is an archive, changes go into it behind each
/// sync, and behind those of a keeper, if there is to be one. Where no memory or no thread was found for that, no task is done.
pub(crate) fn do_on<
    N: ServiceParameters + Send + Sync + 'static,
    R: Threads + Wait + Copy + Send + Sync + 'static,
    L: Recorder<N> + Send + 'static,
    S: FileServer<L> + Send + 'static,
    A: Archive + Drop + Send + 'static,
    T: Task,
>(
    alloc: Global,
    rt: R,
    service: Service<N, R, L, S>,
    tasks: Vec<T>,
    keeping: Keeping<A>,
) -> Result<Result<Kept<T::Output, A>, ServeRefusal>, AllocError>
    ensures done { IfOk result (λ o. IfOk o (AreKept (HasEnded L.Link N.opening) A.puts N.geometry N.opening tasks.items
        keeping.archive)) }
    ensures undone { IfOk result (λ o. IfErr o (IsNotDone (HasEnded L.Link N.opening))) }
{
    let Keeping {
        archive,
        sync_every,
    } = keeping;
    match archive {
        Some(archive) => {
            do_and_keep::<N, R, L, S, Brand, A, T>(alloc, rt, service, tasks, archive, sync_every)
        }
        None => match do_all(alloc, &rt, service, tasks) {
            Ok(came) => Ok(Ok(Kept {
                came,
                archive: None,
            })),
            Err(refusal) => Ok(Err(refusal)),
        },
    }
}

/// The same with an archive.
#[tactic(auto, using(crate::proofs::ServedLaws::kept_of))]
fn do_and_keep<
    N: ServiceParameters + Send + Sync + 'static,
    R: Threads + Wait + Copy + Send + Sync + 'static,
    L: Recorder<N> + Send + 'static,
    S: FileServer<L> + Send + 'static,
    F: Begins<A> + Send + Sync + 'static,
    A: Archive + Drop + Send + 'static,
    T: Task,
>(
    alloc: Global,
    rt: R,
    service: Service<N, R, L, S>,
    tasks: Vec<T>,
    archive: A,
    sync_every: u32,
) -> Result<Result<Kept<T::Output, A>, ServeRefusal>, AllocError>
    requires { F.first ≡ Some archive }
    ensures done { IfOk result (λ o. IfOk o (AreKept (HasEnded L.Link N.opening) A.puts N.geometry N.opening tasks.items
        (Some archive))) }
    ensures undone { IfOk result (λ o. IfErr o (IsNotDone (HasEnded L.Link N.opening))) }
{
    let shared = SharedArchive::<N, R, F, A>::new(alloc, rt, service.media()?, archive);
    let shared = Arc::new(alloc, shared)?;
    let keeper = Keeper::start(alloc, &rt, &service, &shared, sync_every)?;
    let kept = KeptService { service, shared };
    let outputs = do_each(alloc, &rt, &kept, tasks);
    if let Some(keeper) = keeper {
        keeper.end(&rt);
    }
    let KeptService { service, shared } = kept;
    let archive = SharedArchive::into_archive(shared);
    let outputs = match outputs {
        Ok(outputs) => outputs,
        Err(refusal) => return Ok(Err(ServeRefusal::NoSession(refusal))),
    };
    match stop_with(service, outputs) {
        Ok(came) => Ok(Ok(Kept { came, archive })),
        Err(refusal) => Ok(Err(refusal)),
    }
}
