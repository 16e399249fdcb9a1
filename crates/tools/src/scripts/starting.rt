//! Starting the service on which scripts are played.
//!
//! It isn't a `Program` of `launch`: what is known of the types that a program's `run` takes is known in one thread alone, and scripts are
//! played in several.

ghost use Rattle.std.specs.Prelude.{◌≡◌, IfErr, IfOk, map};
ghost use Rattle.std.specs.Arc.{arc_value};
ghost use Rattle.call_text.specs.Said.{said};
ghost use Rattle.service_start.specs.Started.{IsAtHand, IsStarted};
ghost use Rattle.service_start.specs.Servable.{HasServed, IsClean, IsNotServable};
ghost use Rattle.service_start.specs.Spent.{IsSpent};
ghost use Rattle.shared_server.specs.Held.{HasEnded};
ghost use Rattle.tools.specs.Served.{AreServed, IsUnserved, IsUnservedBy};

use crate::scripts::players::{Came, ServiceRefusal, play_on};
use bdev::BlockDriver;
use board::counting::parameters::ServiceParameters;
use board::counting::recorder::Recorder;
use board::{Board, Seat};
use call_text::scripts::script::Script;
use driver_threads::running::Running;
use gate::Gate;
use reincarnate::policy::Setup;
use serve::service::Service;
use service_start::checked::{CheckedImage, prepare_checked};
use service_start::ending::cut_once_spent;
use service_start::opened::opened_server;
use service_start::start::started_link;
use service_start::volume_mount::{Clean, StartRefusal};
use std::alloc::{AllocError, Global};
use std::marker::Brand;
use std::sync::{Arc, Wait};
use std::thread::Threads;

/// Plays scripts on a service of the volume, which was checked, over this link, and stops the service. Where no memory or no thread was
/// found nothing is played, and all threads are ended.
fn open_and_play<
    N: ServiceParameters + Send + Sync + 'static,
    R: Threads + Wait + Copy + Send + Sync + 'static,
    L: Recorder<N> + Send + 'static,
    G: Gate + 'static,
>(
    alloc: Global,
    rt: R,
    board: Arc<Board>,
    link: L,
    clean: Clean,
    minor: u8,
    frames: u32,
    running: Running<N>,
    gate: Arc<G>,
    scripts: &[Script<'_>],
) -> Result<Result<Came, ServiceRefusal>, AllocError>
    requires started { IsStarted N.ServiceParameters L.Link L.runs_on L.marks (arc_value board) link minor frames }
    requires clean { IsClean N.ServiceParameters clean.geometry }
    ensures played { IfOk result (λ o. IfOk o (λ came. AreServed (HasEnded L.Link N.opening) N.geometry N.opening (map said scripts.now)
        came.sessions.items came.last_sync came.image.items)) }
    ensures unserved { IfOk result (λ o. IfErr o (IsUnservedBy L.Link L.numbers N.opening)) }
{
    match opened_server::<N, L>(alloc, link, minor, clean, frames) {
        Ok(server) => {
            let service = Service::over(alloc, rt, board, server, running, gate)?;
            Ok(play_on(alloc, &rt, service, scripts))
        }
        Err(error) => {
            let _ = running.stop(&rt);
            Err(error)
        }
    }
}

// The caller picks `N` from what it hands over.
fn start_and_play<
    N: ServiceParameters + Send + Sync + 'static,
    R: Threads + Wait + Copy + Send + Sync + 'static,
    D: BlockDriver + 'static,
    G: Gate + 'static,
>(
    alloc: Global,
    rt: R,
    board: Board,
    seat: Seat,
    checked: CheckedImage,
    setup: &Setup,
    supply: Vec<D>,
    gate: Arc<G>,
    scripts: &[Script<'_>],
) -> Result<Result<Came, ServiceRefusal>, AllocError>
    requires at_hand { IsAtHand N.ServiceParameters board seat setup.now (map D.state supply.items) checked.prepared.media
        checked.prepared.range }
    requires clean { IsClean N.ServiceParameters checked.clean.geometry }
    ensures played { IfOk result (λ o. HasServed N.opening.media setup.now (map D.state supply.items) (λ g v. IfOk o (λ came.
        AreServed IsSpent g v (map said scripts.now) came.sessions.items came.last_sync came.image.items))) }
    ensures unserved { IfOk result (λ o. IfErr o (IsUnserved IsSpent)) }
{
    let CheckedImage { prepared, clean } = checked;
    let asked = Arc::try_clone(&gate)?;
    let (board, link, running) = started_link::<N, R, D, G>(
        alloc, rt, board, seat, prepared, setup, supply, asked,
    )?;
    cut_once_spent::<N, R>();
    open_and_play(
        alloc,
        rt,
        board,
        link,
        clean,
        setup.minor,
        setup.frames as u32,
        running,
        gate,
        scripts,
    )
}

/// Starts a service on the volume in an image, whose threads ask this gate, plays scripts at one time, each in a session and a thread of
/// its own, and stops the service.
///
/// It is refused as `prepare_checked` of `service_start` refuses the image, and then nothing is played; or for want of memory, also where a
/// thread is refused, but that of a later driver. Of a service that started no image may come.
/// A call is told as cut, or the last sync, only once the link to the drivers had ended (`play_on`); here no link is named any more.
pub fn play_scripts<
    R: Threads + Wait + Copy + Send + Sync + 'static,
    D: BlockDriver + 'static,
    G: Gate + 'static,
>(
    alloc: Global,
    rt: R,
    image: Vec<u8>,
    scripts: Vec<Script<'_>>,
    setup: &Setup,
    supply: Vec<D>,
    gate: Arc<G>,
) -> Result<Result<Came, ServiceRefusal>, StartRefusal>
    ensures refusal { IfErr result (IsNotServable image.items setup.now (map D.state supply.items)) }
    ensures played { IfOk result (λ o. HasServed image.items setup.now (map D.state supply.items) (λ g v. IfOk o (λ came.
        AreServed IsSpent g v (map said scripts.entry.items) came.sessions.items came.last_sync came.image.items))) }
    ensures unserved { IfOk result (λ o. IfErr o (IsUnserved IsSpent)) }
{
    let checked = prepare_checked(alloc, image, setup, &supply)?;
    let (board, seat) = Board::new(alloc)?;
    Ok(start_and_play::<Brand, R, D, G>(
        alloc,
        rt,
        board,
        seat,
        checked,
        setup,
        supply,
        gate,
        scripts.as_slice(),
    )?)
}
