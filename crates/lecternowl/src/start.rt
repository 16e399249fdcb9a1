//! Starting a service on the volume of an image, for tasks.

ghost use Rattle.std.specs.Prelude.{◌≡◌, IfErr, IfOk, Some, map};
ghost use Rattle.std.specs.Arc.{arc_value};
ghost use Rattle.shared_server.specs.Held.{HasEnded};
ghost use Rattle.service_start.specs.Servable.{HasServed, IsClean, IsNotServable};
ghost use Rattle.service_start.specs.Spent.{IsSpent};
ghost use Rattle.service_start.specs.Started.{IsAtHand, IsStarted};
ghost use Rattle.lecternowl.specs.Serving.{AreDone, AreKept, IsNotDone, IsNotServed};

use crate::keeping::{Keeping, Kept, NoArchive, do_on};
use crate::refusal::ServeRefusal;
use crate::tasks::{Came, Task};
use archive::Archive;
use bdev::BlockDriver;
use board::counting::parameters::ServiceParameters;
use board::counting::recorder::Recorder;
use board::{Board, Seat};
use driver_threads::running::Running;
use gate::Gate;
use gate::paced_gate::Paced;
use reincarnate::policy::Setup;
use serve::service::Service;
use service_start::checked::{CheckedImage, prepare_checked};
use service_start::ending::cut_once_spent;
use service_start::opened::opened_server;
use service_start::start::started_link;
use service_start::volume_mount::{Clean, StartRefusal};
use std::alloc::{AllocError, Global};
use std::marker::Brand;
use std::sync::{Arc, Wait};
use std::thread::Threads;

/// Does tasks in sessions of a service of the volume, which was checked, over this link, and stops the service. Where no memory or no
/// thread was found no task is done, and all threads are ended.
fn open_and_do<
    N: ServiceParameters + Send + Sync + 'static,
    R: Threads + Wait + Copy + Send + Sync + 'static,
    L: Recorder<N> + Send + 'static,
    G: Gate + 'static,
    A: Archive + Drop + Send + 'static,
    T: Task,
>(
    alloc: Global,
    rt: R,
    board: Arc<Board>,
    link: L,
    clean: Clean,
    minor: u8,
    frames: u32,
    running: Running<N>,
    gate: Arc<G>,
    tasks: Vec<T>,
    keeping: Keeping<A>,
) -> Result<Result<Kept<T::Output, A>, ServeRefusal>, AllocError>
    requires started { IsStarted N.ServiceParameters L.Link L.runs_on L.marks (arc_value board) link minor frames }
    requires clean { IsClean N.ServiceParameters clean.geometry }
    ensures done { IfOk result (λ o. IfOk o (AreKept (HasEnded L.Link N.opening) A.puts N.geometry N.opening tasks.items
        keeping.archive)) }
    ensures undone { IfOk result (λ o. IfErr o (IsNotDone (HasEnded L.Link N.opening))) }
{
    match opened_server::<N, L>(alloc, link, minor, clean, frames) {
        Ok(server) => {
            let service = Service::over(alloc, rt, board, server, running, gate)?;
            do_on(alloc, rt, service, tasks, keeping)
        }
        Err(error) => {
            let _ = running.stop(&rt);
            Err(error)
        }
    }
}

// The caller picks `N` from what it hands over.
fn start_and_do<
    N: ServiceParameters + Send + Sync + 'static,
    R: Threads + Wait + Copy + Send + Sync + 'static,
    D: BlockDriver + 'static,
    A: Archive + Drop + Send + 'static,
    T: Task,
>(
    alloc: Global,
    rt: R,
    board: Board,
    seat: Seat,
    checked: CheckedImage,
    setup: &Setup,
    supply: Vec<D>,
    tasks: Vec<T>,
    keeping: Keeping<A>,
) -> Result<Result<Kept<T::Output, A>, ServeRefusal>, AllocError>
    requires at_hand { IsAtHand N.ServiceParameters board seat setup.now (map D.state supply.items) checked.prepared.media
        checked.prepared.range }
    requires clean { IsClean N.ServiceParameters checked.clean.geometry }
    ensures done { IfOk result (λ o. HasServed N.opening.media setup.now (map D.state supply.items) (λ g v. IfOk o (AreKept IsSpent A.puts
        g v tasks.items keeping.archive))) }
    ensures undone { IfOk result (λ o. IfErr o (IsNotDone IsSpent)) }
{
    let CheckedImage { prepared, clean } = checked;
    let gate = Arc::new(alloc, Paced::new(rt))?;
    let asked = Arc::try_clone(&gate)?;
    let (board, link, running) = started_link::<N, R, D, Paced<R>>(
        alloc, rt, board, seat, prepared, setup, supply, asked,
    )?;
    cut_once_spent::<N, R>();
    open_and_do(
        alloc,
        rt,
        board,
        link,
        clean,
        setup.minor,
        setup.frames as u32,
        running,
        gate,
        tasks,
        keeping,
    )
}

/// Starts a service on the volume in an image, does these tasks at one time, each in a session and a thread of its own, and stops the
/// service. What each gave comes back, with the image that is left.
///
/// The first driver of the supply is started at once; where it fails, the next is started by the setup's policy. A tick of the policy is a
/// tenth of a second. The drivers, what starts them and what writes back changed blocks run in threads of their own.
///
/// It is refused as [`ServeRefusal`] says, and then no image comes. That the last sync was cut, or a session was refused as `Stopped`, is
/// told only once the link to the drivers had ended (`do_all`); here no link is named any more.
#[tactic(auto, using(crate::proofs::ServedLaws::served_done))]
pub fn serve<R: Threads + Wait + Copy + Send + Sync + 'static, D: BlockDriver + 'static, T: Task>(
    alloc: Global,
    rt: R,
    image: Vec<u8>,
    setup: &Setup,
    supply: Vec<D>,
    tasks: Vec<T>,
) -> Result<Came<T::Output>, ServeRefusal>
    ensures done { IfOk result (λ came.
        HasServed image.items setup.now (map D.state supply.items) (λ g v. AreDone IsSpent g v tasks.items came)) }
    ensures refused { IfErr result (IsNotServed IsSpent image.items setup.now (map D.state supply.items)) }
{
    let keeping = Keeping::<NoArchive> {
        archive: None,
        sync_every: 0,
    };
    match serve_on(alloc, rt, image, setup, supply, tasks, keeping) {
        Ok(kept) => Ok(kept.came),
        Err(refusal) => Err(refusal),
    }
}

/// The same, and what the tasks change goes into an archive: behind each sync of theirs that was done, and every so many seconds, by a
/// session more; 0: behind theirs alone. A sync answers once the archive took the changes, and is refused as the archive refuses them. What
/// changed behind the last of these syncs stands in the image alone that is left.
///
/// Where it is refused the archive is let go. What was put into it before is there.
pub fn serve_kept<
    R: Threads + Wait + Copy + Send + Sync + 'static,
    D: BlockDriver + 'static,
    T: Task,
    A: Archive + Drop + Send + 'static,
>(
    alloc: Global,
    rt: R,
    image: Vec<u8>,
    setup: &Setup,
    supply: Vec<D>,
    tasks: Vec<T>,
    archive: A,
    sync_every: u32,
) -> Result<Kept<T::Output, A>, ServeRefusal>
    ensures done { IfOk result (λ kept. HasServed image.items setup.now (map D.state supply.items)
        (λ g v. AreKept IsSpent A.puts g v tasks.items (Some archive) kept)) }
    ensures refused { IfErr result (IsNotServed IsSpent image.items setup.now (map D.state supply.items)) }
{
    let keeping = Keeping {
        archive: Some(archive),
        sync_every,
    };
    serve_on(alloc, rt, image, setup, supply, tasks, keeping)
}

/// The same with an archive or without one.
fn serve_on<
    R: Threads + Wait + Copy + Send + Sync + 'static,
    D: BlockDriver + 'static,
    T: Task,
    A: Archive + Drop + Send + 'static,
>(
    alloc: Global,
    rt: R,
    image: Vec<u8>,
    setup: &Setup,
    supply: Vec<D>,
    tasks: Vec<T>,
    keeping: Keeping<A>,
) -> Result<Kept<T::Output, A>, ServeRefusal>
    ensures done { IfOk result (λ kept. HasServed image.items setup.now (map D.state supply.items)
        (λ g v. AreKept IsSpent A.puts g v tasks.items keeping.archive kept)) }
    ensures refused { IfErr result (IsNotServed IsSpent image.items setup.now (map D.state supply.items)) }
{
    match start(alloc, rt, image, setup, supply, tasks, keeping) {
        Ok(came) => came,
        Err(refusal) => Err(ServeRefusal::Start(refusal)),
    }
}

/// The same, a start that was refused apart.
fn start<
    R: Threads + Wait + Copy + Send + Sync + 'static,
    D: BlockDriver + 'static,
    T: Task,
    A: Archive + Drop + Send + 'static,
>(
    alloc: Global,
    rt: R,
    image: Vec<u8>,
    setup: &Setup,
    supply: Vec<D>,
    tasks: Vec<T>,
    keeping: Keeping<A>,
) -> Result<Result<Kept<T::Output, A>, ServeRefusal>, StartRefusal>
    ensures done { IfOk result (λ o. HasServed image.items setup.now (map D.state supply.items) (λ g v. IfOk o (AreKept IsSpent A.puts g v
        tasks.items keeping.archive))) }
    ensures undone { IfOk result (λ o. IfErr o (IsNotDone IsSpent)) }
    ensures refused { IfErr result (IsNotServable image.items setup.now (map D.state supply.items)) }
{
    let checked = prepare_checked(alloc, image, setup, &supply)?;
    let (board, seat) = Board::new(alloc)?;
    Ok(start_and_do::<Brand, R, D, A, T>(
        alloc, rt, board, seat, checked, setup, supply, tasks, keeping,
    )?)
}
