//! What is done with a service that is mounted.

ghost use Rattle.std.specs.Prelude.{IfErr, IfOk, OnOk};
ghost use Rattle.std.specs.Arc.{arc_value};
ghost use Rattle.layout.specs.declared.Geometry.{Geometry as Sizes};
ghost use Rattle.records.specs.Opening.{Opening};
ghost use Rattle.service_start.specs.Started.{IsStarted};
ghost use Rattle.service_start.specs.Stopped.{IsMountedTruly, IsStopped};

use crate::opened::mounted;
use board::Board;
use board::counting::parameters::ServiceParameters;
use board::counting::recorder::Recorder;
use driver_threads::running::Running;
use file_server::FileServer;
use gate::Gate;
use serve::service::Service;
use std::alloc::Global;
use std::sync::{Arc, Wait};
use std::thread::Threads;
use volume_mount::StartRefusal;

/// What is done with a service, whichever it is.
///
/// Contracts see one thing of it: `gives` is what it gives back, by the sizes of the service's volume and the volume as it was handed in.
pub trait Program<R: Threads + Wait + Copy + Send + Sync + 'static>: Drop {
    /// What it gives back.
    type Output: Drop;

    ghost gives: { Self → Sizes → Opening → Self.Output → Type 0 };

    /// Does it. What it doesn't stop ends with it.
    fn run<N: ServiceParameters, L: Recorder<N>, S: FileServer<L>>(
        self,
        service: Service<N, R, L, S>,
    ) -> Self::Output
        ensures { gives self N.geometry N.opening result };
}

/// Mounts the volume over this link, and runs a program over the service of it. It is refused as `mounted` is, and then nothing runs.
pub fn run_over<
    N: ServiceParameters + Send + Sync + 'static,
    R: Threads + Wait + Copy + Send + Sync + 'static,
    L: Recorder<N> + Send + 'static,
    G: Gate + 'static,
    P: Program<R>,
>(
    alloc: Global,
    rt: R,
    board: Arc<Board>,
    link: L,
    minor: u8,
    frames: u32,
    running: Running<N>,
    gate: Arc<G>,
    program: P,
) -> Result<P::Output, StartRefusal>
    requires { IsStarted N.ServiceParameters L.Link L.runs_on L.marks (arc_value board) link minor frames }
    ensures ran { IfOk result (λ o. P.gives program N.geometry N.opening o) }
    ensures holds { OnOk result (IsMountedTruly L.truth N.geometry N.opening) }
    ensures refused { IfErr result (IsStopped N.opening frames) }
{
    match mounted(alloc, rt, board, link, minor, frames, running, gate) {
        Ok(service) => Ok(program.run(service)),
        Err(refusal) => Err(refusal),
    }
}
