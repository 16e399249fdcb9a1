//! Starting the service whose sessions answer messages.
//!
//! It isn't a `Program` of `launch`: what is known of the types that a program's `run` takes is known in one thread alone.

ghost use Rattle.std.specs.Prelude.{◌≡◌, IfErr, IfOk, map};
ghost use Rattle.std.specs.Arc.{arc_value};
ghost use Rattle.service_start.specs.Started.{IsAtHand, IsStarted};
ghost use Rattle.service_start.specs.Servable.{HasServed, IsClean, IsNotServable};
ghost use Rattle.mount_service.specs.Left.{IsLeftBy};

use crate::program::{Came, Streams, answer_on};
use archive::Archive;
use bdev::BlockDriver;
use board::counting::parameters::ServiceParameters;
use board::counting::recorder::Recorder;
use board::{Board, Seat};
use driver_threads::running::Running;
use gate::Gate;
use reincarnate::policy::Setup;
use serve::service::Service;
use serve::stopping::NoImage;
use service_start::checked::{CheckedImage, prepare_checked};
use service_start::opened::opened_server;
use service_start::start::started_link;
use service_start::volume_mount::{Clean, StartRefusal};
use std::alloc::{AllocError, Global};
use std::io::{BufRead, Write};
use std::marker::Brand;
use std::sync::{Arc, Wait};
use std::thread::Threads;
use std::time::Clock;
use talks::answers::Answers;

/// Answers messages by the sessions of a service of the volume, which was checked, over this link, and stops the service. Where no memory
/// or no thread was found nothing is answered, and all threads are ended.
fn open_and_answer<
    N: ServiceParameters + Send + Sync + 'static,
    R: Threads + Wait + Copy + Send + Sync + 'static,
    L: Recorder<N> + Send + 'static,
    G: Gate + 'static,
    I: BufRead + Drop,
    O: Write + Drop,
    C: Clock + Drop,
    A: Archive + Drop + Send + 'static,
    W: Answers + Drop,
>(
    alloc: Global,
    rt: R,
    board: Arc<Board>,
    link: L,
    clean: Clean,
    minor: u8,
    frames: u32,
    running: Running<N>,
    gate: Arc<G>,
    streams: Streams<I, O, C, A, W>,
) -> Result<Result<Came<I, O, C, A, W>, NoImage>, AllocError>
    requires started { IsStarted N.ServiceParameters L.Link L.runs_on L.marks (arc_value board) link minor frames }
    requires clean { IsClean N.ServiceParameters clean.geometry }
    ensures played { IfOk result (λ o. IfOk o (λ came.
        IsLeftBy A.puts W.fewest W.answers streams.answerer N.geometry N.opening (I.Read.remaining streams.input)
        (O.contents streams.output) (O.contents came.streams.output) streams.archive came.streams.archive came.answered came.last_sync
        came.image.items)) }
{
    match opened_server::<N, L>(alloc, link, minor, clean, frames) {
        Ok(server) => {
            let service = Service::over(alloc, rt, board, server, running, gate)?;
            answer_on(alloc, rt, service, streams)
        }
        Err(error) => {
            let _ = running.stop(&rt);
            Err(error)
        }
    }
}

// The caller picks `N` from what it hands over.
fn start_and_answer<
    N: ServiceParameters + Send + Sync + 'static,
    R: Threads + Wait + Copy + Send + Sync + 'static,
    D: BlockDriver + 'static,
    G: Gate + 'static,
    I: BufRead + Drop,
    O: Write + Drop,
    C: Clock + Drop,
    A: Archive + Drop + Send + 'static,
    W: Answers + Drop,
>(
    alloc: Global,
    rt: R,
    board: Board,
    seat: Seat,
    checked: CheckedImage,
    setup: &Setup,
    supply: Vec<D>,
    gate: Arc<G>,
    streams: Streams<I, O, C, A, W>,
) -> Result<Result<Came<I, O, C, A, W>, NoImage>, AllocError>
    requires at_hand { IsAtHand N.ServiceParameters board seat setup.now (map D.state supply.items) checked.prepared.media
        checked.prepared.range }
    requires clean { IsClean N.ServiceParameters checked.clean.geometry }
    ensures played { IfOk result (λ o. HasServed N.opening.media setup.now (map D.state supply.items) (λ g v. IfOk o (λ came.
        IsLeftBy A.puts W.fewest W.answers streams.answerer g v (I.Read.remaining streams.input) (O.contents streams.output)
        (O.contents came.streams.output) streams.archive came.streams.archive came.answered came.last_sync came.image.items))) }
{
    let CheckedImage { prepared, clean } = checked;
    let asked = Arc::try_clone(&gate)?;
    let (board, link, running) = started_link::<N, R, D, G>(
        alloc, rt, board, seat, prepared, setup, supply, asked,
    )?;
    open_and_answer(
        alloc,
        rt,
        board,
        link,
        clean,
        setup.minor,
        setup.frames as u32,
        running,
        gate,
        streams,
    )
}

/// Starts a service on the volume in an image, whose threads ask this gate, answers messages by its sessions until their
/// stream ends, and stops the service.
///
/// It is refused as `prepare_checked` of `service_start` refuses the image, and then nothing is answered; or for want of memory, also where
/// a thread is refused, but that of a later driver. Of a service that started no image may come.
pub fn answer_messages<
    R: Threads + Wait + Copy + Send + Sync + 'static,
    D: BlockDriver + 'static,
    G: Gate + 'static,
    I: BufRead + Drop,
    O: Write + Drop,
    C: Clock + Drop,
    A: Archive + Drop + Send + 'static,
    W: Answers + Drop,
>(
    alloc: Global,
    rt: R,
    image: Vec<u8>,
    setup: &Setup,
    supply: Vec<D>,
    gate: Arc<G>,
    streams: Streams<I, O, C, A, W>,
) -> Result<Result<Came<I, O, C, A, W>, NoImage>, StartRefusal>
    ensures refusal { IfErr result (IsNotServable image.items setup.now (map D.state supply.items)) }
    ensures played { IfOk result (λ o. HasServed image.items setup.now (map D.state supply.items) (λ g v. IfOk o (λ came.
        IsLeftBy A.puts W.fewest W.answers streams.answerer g v (I.Read.remaining streams.input) (O.contents streams.output)
        (O.contents came.streams.output) streams.archive came.streams.archive came.answered came.last_sync came.image.items))) }
{
    let checked = prepare_checked(alloc, image, setup, &supply)?;
    let (board, seat) = Board::new(alloc)?;
    Ok(start_and_answer::<Brand, R, D, G, I, O, C, A, W>(
        alloc, rt, board, seat, checked, setup, supply, gate, streams,
    )?)
}
