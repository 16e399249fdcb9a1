//! A service of the file server over a link, and the threads behind it.

ghost use Rattle.std.specs.Prelude.{◌≡◌, ◌≤◌, ◌^◌, [], true, IfErr, IfOk, OnOk};
ghost use Rattle.std.specs.Arc.{arc_value};
ghost use Rattle.layout.specs.Places.{IsGeometry};
ghost use Rattle.tree.specs.Tree.{Tree};
ghost use Rattle.records.specs.Opening.{contents_at};
ghost use Rattle.records.specs.Legal.{IsAtFirst};
ghost use Rattle.records.specs.Mount.{is_frame_count};
ghost use Rattle.shared_server.specs.Held.{IsHeld};
ghost use Rattle.volume_mount.specs.OverLink.{IsReadyOver, line_of, serving_over};
ghost use Rattle.service_start.specs.Servable.{IsClean};
ghost use Rattle.service_start.specs.Started.{IsFreshLink, IsStarted};
ghost use Rattle.service_start.specs.Stopped.{IsMountedTruly, IsStopped, refusal_of as start_refusal_of};

use board::Board;
use board::counting::parameters::ServiceParameters;
use board::counting::recorder::Recorder;
use cached_blocks::Stored;
use driver_threads::running::Running;
use gate::Gate;
use layout::Geometry;
use serve::service::Service;
use std::alloc::{AllocError, Global};
use std::sync::{Arc, Wait};
use std::thread::Threads;
use volume_mount::mounted::{mount, open as open_checked};
use volume_mount::opening::open;
use volume_mount::{Clean, MountRefusal, Server, StartRefusal};

/// A service of a server of all calls, with so many frames, for its volume in a range of the media, over a link that was told nothing yet,
/// keeps an empty record on the service's board, and runs on the service's drivers under its policy. The link gives at most 2^58 messages.
/// The volume as it was handed in holds a tree.
///
/// Where no memory or no thread was found, the link is let go, and all threads are ended.
pub fn over<
    N: ServiceParameters + Send + Sync + 'static,
    R: Threads + Wait + Copy + Send + Sync + 'static,
    L: Recorder<N> + Send + 'static,
    G: Gate + 'static,
>(
    alloc: Global,
    rt: R,
    board: Arc<Board>,
    link: L,
    minor: u8,
    geometry: Geometry,
    frames: u32,
    running: Running<N>,
    gate: Arc<G>,
) -> Result<Service<N, R, L, Server<Stored<L>>>, AllocError>
    requires board { arc_value board ≡ N.table }
    requires marks { L.marks link ≡ [] }
    requires told { L.Link.history link ≡ [] }
    requires geometry { IsGeometry geometry × (geometry ≡ N.geometry) }
    requires tree { (tree : Tree) × IsAtFirst N.geometry (contents_at N.opening) tree }
    requires minor { minor ≡ N.opening.minor }
    requires frames { is_frame_count frames ≡ true }
    requires budget { L.Link.budget_left link ≤ 2 ^ 58 }
    requires truth { L.Link.truth link N.opening [] }
    requires drivers { L.runs_on link N.policy N.supply }
{
    match open(alloc, link, minor, geometry, frames) {
        Ok(server) => Service::over(alloc, rt, board, server, running, gate),
        Err(_) => {
            let _ = running.stop(&rt);
            Err(AllocError)
        }
    }
}

/// A server of all calls, with so many frames, for the service's volume, which was checked, as this minor, over a link that was told
/// nothing yet. A service may hold it. Nothing is done at the link. Where no memory was found, the link is let go.
pub fn opened_server<N: ServiceParameters + Send + Sync + 'static, L: Recorder<N> + Send + 'static>(
    alloc: Global,
    link: L,
    minor: u8,
    clean: Clean,
    frames: u32,
) -> Result<Server<Stored<L>>, AllocError>
    requires fresh { IsFreshLink N.ServiceParameters L.Link L.runs_on L.marks link minor frames }
    requires clean { IsClean N.ServiceParameters clean.geometry }
    ensures held { IfOk result (IsHeld N.ServiceParameters L.Link (serving_over L.Link) line_of (IsReadyOver L.Link) (λ call. Unit {0})
        L.runs_on L.marks) }
    ensures none_absorbed { IfOk result (λ s. s.absorbed ≡ 0) }
{
    match open_checked(alloc, link, minor, clean, frames) {
        Ok(server) => Ok(server),
        Err(_) => Err(AllocError),
    }
}

/// The refusal of a mount, as a start has it: memory that is wanting is wanting to the start.
pub fn refusal_of(refusal: MountRefusal) -> StartRefusal
    ensures { result ≡ start_refusal_of refusal }
{
    match refusal {
        MountRefusal::OutOfMemory => StartRefusal::OutOfMemory,
        refusal => StartRefusal::Mount(refusal),
    }
}

/// A server of all calls, mounted with so many frames on the service's volume, as this minor, over a link that was told nothing yet and
/// gives at most 2^57 messages. A service may hold it. Where the link's replies were true, the volume holds a tree.
///
/// It is refused as a mount is, and the link is let go then.
pub fn mounted_server<
    N: ServiceParameters + Send + Sync + 'static,
    L: Recorder<N> + Send + 'static,
>(alloc: Global, link: L, minor: u8, frames: u32) -> Result<Server<Stored<L>>, StartRefusal>
    requires { IsFreshLink N.ServiceParameters L.Link L.runs_on L.marks link minor frames }
    ensures held { IfOk result (IsHeld N.ServiceParameters L.Link (serving_over L.Link) line_of (IsReadyOver L.Link) (λ call. Unit {0})
        L.runs_on L.marks) }
    ensures none_absorbed { IfOk result (λ s. s.absorbed ≡ 0) }
    ensures holds { OnOk result (IsMountedTruly L.truth N.geometry N.opening) }
    ensures refused { IfErr result (IsStopped N.opening frames) }
{
    match mount(alloc, link, minor, frames) {
        Ok(server) => Ok(server),
        Err(refusal) => Err(refusal_of(refusal)),
    }
}

/// A service of a server of all calls, mounted with so many frames on its volume in a range of the media, over a link as `over` takes it;
/// it gives at most 2^57 messages. Where its replies were true, the volume then holds a tree.
///
/// It is refused as a mount is; and where no memory or no thread was found. The link is let go then, and all threads are ended.
pub fn mounted<
    N: ServiceParameters + Send + Sync + 'static,
    R: Threads + Wait + Copy + Send + Sync + 'static,
    L: Recorder<N> + Send + 'static,
    G: Gate + 'static,
>(
    alloc: Global,
    rt: R,
    board: Arc<Board>,
    link: L,
    minor: u8,
    frames: u32,
    running: Running<N>,
    gate: Arc<G>,
) -> Result<Service<N, R, L, Server<Stored<L>>>, StartRefusal>
    requires { IsStarted N.ServiceParameters L.Link L.runs_on L.marks (arc_value board) link minor frames }
    ensures holds { OnOk result (IsMountedTruly L.truth N.geometry N.opening) }
    ensures refused { IfErr result (IsStopped N.opening frames) }
{
    match mounted_server::<N, L>(alloc, link, minor, frames) {
        Ok(server) => Ok(Service::over(alloc, rt, board, server, running, gate)?),
        Err(refusal) => {
            let _ = running.stop(&rt);
            Err(refusal)
        }
    }
}
