//! What is done in sessions that are in threads of their own.
//!
//! It isn't a `Program` of `launch`, whose `run` knows in one thread alone what its types keep; so the service is started here.

ghost use Rattle.std.specs.Prelude.{map};
ghost use Rattle.std.specs.Arc.{arc_value};
ghost use Rattle.service_start.specs.Started.{IsAtHand, IsStarted};

use crate::many::{has_all, write_all};
use crate::no_wait::{Looked, look_meanwhile};
use bdev::BlockDriver;
use board::counting::parameters::ServiceParameters;
use board::counting::recorder::Recorder;
use board::{Board, Seat};
use driver_threads::running::Running;
use file_server::FileServer;
use fixtures_sessions::recording_driver::RecordingDriver;
use fixtures_sessions::services::two_in_threads;
use fixtures_sessions::stage::{Stage, patient};
use fixtures_sessions::watch::Watch;
use modeldisk::Fault;
use reincarnate::policy::Setup;
use serve::service::Service;
use service_start::opened::mounted;
use service_start::start::started_link;
use std::marker::Brand;
use std::sync::{Arc, Wait};
use std::test::Fail;
use std::thread::Threads;
use std::time::Clock;
use volume_mount::{Prepared, prepare};

/// What sessions do, each in a thread of its own.
#[derive(Clone, Copy, PartialEq, Eq)]
pub(crate) enum What {
    /// Two ask for the root.
    Ask,
    /// One asks for the root while drivers are held; two others look meanwhile.
    Look,
    /// Each of sixty-four writes its file.
    Write,
    /// One reads all these files.
    Read,
}

/// What came of it.
#[derive(Drop)]
pub(crate) enum Came {
    /// The lines of both.
    Asked(String, String),
    /// The lines of the one, and what the others saw meanwhile, if it was held then.
    Looked(String, Option<Looked>),
    /// Whether all was answered as it should be.
    Files(bool),
}

/// It is done in sessions of a service: what came of it. None where a session or memory was wanting.
fn came_of<
    N: ServiceParameters + Send + Sync,
    R: Threads + Wait + Clock + Copy + Send + Sync + 'static,
    L: Recorder<N> + Send,
    S: FileServer<L> + Send,
>(stage: &Stage<R>, what: What, service: &Service<N, R, L, S>) -> Option<Came> {
    match what {
        What::Ask => {
            let (one, two) = two_in_threads(stage.alloc, &stage.rt, service)?;
            Some(Came::Asked(one, two))
        }
        What::Look => {
            let (lines, looked) = look_meanwhile(stage.alloc, &stage.rt, &stage.gate, service)?;
            Some(Came::Looked(lines, looked))
        }
        What::Write => Some(Came::Files(write_all(stage.alloc, &stage.rt, service)?)),
        What::Read => Some(Came::Files(has_all(service)?)),
    }
}

/// It is done, and the service is stopped: what came of it, and the image. None where a session, memory or an image was wanting.
fn done<
    N: ServiceParameters + Send + Sync,
    R: Threads + Wait + Clock + Copy + Send + Sync + 'static,
    L: Recorder<N> + Send,
    S: FileServer<L> + Send,
>(stage: &Stage<R>, what: What, service: Service<N, R, L, S>) -> Option<(Came, Vec<u8>)> {
    let came = came_of(stage, what, &service)?;
    let left = service.stop().ok()?;
    Some((came, left))
}

/// Mounts the volume over this link, does it on the service of it, and stops the service: what came of it, and the image that is left.
fn mount_and_do<
    N: ServiceParameters + Send + Sync + 'static,
    R: Threads + Wait + Clock + Copy + Send + Sync + 'static,
    L: Recorder<N> + Send + 'static,
>(
    stage: &Stage<R>,
    board: Arc<Board>,
    link: L,
    setup: &Setup,
    running: Running<N>,
    what: What,
) -> Result<(Came, Vec<u8>), Fail>
    requires { IsStarted N.ServiceParameters L.Link L.runs_on L.marks (arc_value board) link setup.now.minor setup.now.frames }
{
    let (alloc, rt) = (stage.alloc, stage.rt);
    let gate = Arc::try_clone(&stage.gate)?;
    let frames = setup.frames as u32;
    let Ok(service) = mounted(alloc, rt, board, link, setup.minor, frames, running, gate) else {
        return Err(Fail::from("not mounted"));
    };
    match done(stage, what, service) {
        Some(came) => Ok(came),
        None => Err(Fail::from("not done")),
    }
}

// The caller picks `N` from what it hands over.
fn start_and_do<
    N: ServiceParameters + Send + Sync + 'static,
    R: Threads + Wait + Clock + Copy + Send + Sync + 'static,
>(
    stage: &Stage<R>,
    board: Board,
    seat: Seat,
    prepared: Prepared,
    setup: &Setup,
    supply: Vec<RecordingDriver<R>>,
    what: What,
) -> Result<(Came, Vec<u8>), Fail>
    requires { IsAtHand N.ServiceParameters board seat setup.now (map ⟦<RecordingDriver<R> as BlockDriver>⟧.state supply.items)
        prepared.media prepared.range }
{
    let asked = Arc::try_clone(&stage.gate)?;
    let (board, link, running) = started_link::<N, R, RecordingDriver<R>, Watch<R>>(
        stage.alloc,
        stage.rt,
        board,
        seat,
        prepared,
        setup,
        supply,
        asked,
    )?;
    mount_and_do(stage, board, link, setup, running, what)
}

/// What comes of it on a stage, with drivers of these faults, and the image that is left.
pub(crate) fn at_once<R: Threads + Wait + Clock + Copy + Send + Sync + 'static>(
    stage: &Stage<R>,
    faults: &[Fault],
    what: What,
) -> Result<(Came, Vec<u8>), Fail> {
    let setup = patient();
    let supply = stage.supply(faults)?;
    let image = Vec::from_slice(stage.alloc, &stage.image)?;
    let Ok(prepared) = prepare(image, &setup, &supply) else {
        return Err(Fail::from("not prepared"));
    };
    let (board, seat) = Board::new(stage.alloc)?;
    start_and_do::<Brand, R>(stage, board, seat, prepared, &setup, supply, what)
}
