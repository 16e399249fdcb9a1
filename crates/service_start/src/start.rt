//! Starting a service on the volume of an image, whose drivers, flusher and reincarnation server run in threads of their own.

ghost use Rattle.std.specs.Prelude.{◌≡◌, ◌≢◌, [], IfErr, IfOk, map};
ghost use Rattle.std.specs.Arc.{arc_value};
ghost use Rattle.records.specs.Opening.{Opening};
ghost use Rattle.reincarnate.specs.Policy.{IsAllowed};
ghost use Rattle.reincarnate.specs.Supply.{new_state};
ghost use Rattle.true_replies.specs.Events.{opening_media};
ghost use Rattle.board.specs.View.{IsKeeper, opener};
ghost use Rattle.service_start.specs.Started.{IsAtHand, IsStarted};
ghost use Rattle.service_start.specs.Stopped.{IsStopped};
ghost use Rattle.service_start.specs.Ran.{HasRun, IsNotStarted};

use crate::program::run_over;
use bdev::BlockDriver;
use board::counting::RecordingLink;
use board::counting::parameters::ServiceParameters;
use board::counting::recorder::Recorder;
use board::counting::steady::Supplied;
use board::{Board, Seat};
use channel_link::link::ChannelLink;
use driver_threads::running::{Running, start_drivers};
use gate::Gate;
use media::Media;
use reincarnate::policy::{Policy, Setup};
use reincarnate::{Reincarnation, SupplyRefusal};
use reissue::link::Link;
use std::alloc::{AllocError, Global};
use std::marker::Brand;
use std::sync::{Arc, Wait};
use std::thread::Threads;
use volume_mount::{Prepared, StartRefusal, prepare};

// passed on: what is done with a service
use crate::program::Program;

/// The reincarnation server of an allowed policy and these drivers, none of which was started.
fn reincarnation_of<D: BlockDriver>(
    alloc: Global,
    policy: Policy,
    supply: Vec<D>,
) -> Result<Reincarnation<D>, AllocError>
    requires allowed { IsAllowed policy }
    requires some { supply.items ≢ [] }
    ensures { IfOk result (λ r. r ≡ new_state policy supply.items) }
{
    match Reincarnation::new(alloc, policy, supply) {
        Ok(reincarnation) => Ok(reincarnation),
        Err(SupplyRefusal::OutOfMemory) => Err(AllocError),
        Err(_) => unreachable!(),
    }
}

/// The link of a service to drivers of an allowed policy, in threads of their own, which write in this range of these media alone; and the
/// service's board, on which the link counts: it has the record's seat of that board, which is new. Where no memory or no thread was found,
/// all of it is let go, and all threads are ended.
pub fn counted_drivers<
    N: ServiceParameters + Send + Sync + 'static,
    R: Threads + Wait + Copy + Send + Sync + 'static,
    D: BlockDriver + 'static,
    G: Gate + 'static,
>(
    alloc: Global,
    rt: R,
    board: Board,
    seat: Seat,
    media: Media,
    range: (u32, u32),
    policy: Policy,
    supply: Vec<D>,
    gate: Arc<G>,
) -> Result<(Arc<Board>, RecordingLink<N, ChannelLink<R>>, Running<N>), AllocError>
    requires board { board ≡ N.table }
    requires seat { IsKeeper N.table seat × (seat.view ≡ opener) }
    requires range { (range.0 ≡ N.opening.first) × (range.1 ≡ N.opening.count) }
    requires media { media ≡ opening_media N.opening }
    requires allowed { IsAllowed policy }
    requires some { supply.items ≢ [] }
    ensures board { IfOk result (λ made. arc_value made.0 ≡ N.table) }
    ensures marks { IfOk result (λ made. ⟦<RecordingLink<N, ChannelLink<R>> as Recorder<N>>⟧.marks made.1 ≡ []) }
    ensures numbers { IfOk result (λ made. ⟦<RecordingLink<N, ChannelLink<R>> as Recorder<N>>⟧.numbers made.1 ≡ []) }
    ensures history { IfOk result (λ made. ⟦<RecordingLink<N, ChannelLink<R>> as Link>⟧.history made.1 ≡ []) }
    ensures budget { IfOk result (λ made. ⟦<RecordingLink<N, ChannelLink<R>> as Link>⟧.budget_left made.1 ≡ 1099511627776) }
    ensures truth { IfOk result (λ made. (v : Opening) → ⟦<RecordingLink<N, ChannelLink<R>> as Link>⟧.truth made.1 v []) }
{
    let mut seat = seat;
    let theirs = board.split(&mut seat, None)?;
    let board = Arc::new(alloc, board)?;
    let counted = Arc::try_clone(&board)?;
    let reincarnation = reincarnation_of(alloc, policy, supply)?;
    let (link, running) = start_drivers::<N, D, G, R>(
        alloc,
        rt,
        media,
        range,
        reincarnation,
        &board,
        theirs,
        gate,
    )?;
    match RecordingLink::new(alloc, link, counted, seat) {
        Ok(noting) => Ok((board, noting, running)),
        Err(error) => {
            let _ = running.stop(&rt);
            Err(error)
        }
    }
}

/// The board, the link and the threads of a service, from all that is at hand, as `counted_drivers` makes them: over this link the volume
/// may be mounted, with as many frames as the setup asks for.
pub fn started_link<
    N: ServiceParameters + Send + Sync + 'static,
    R: Threads + Wait + Copy + Send + Sync + 'static,
    D: BlockDriver + 'static,
    G: Gate + 'static,
>(
    alloc: Global,
    rt: R,
    board: Board,
    seat: Seat,
    prepared: Prepared,
    setup: &Setup,
    supply: Vec<D>,
    gate: Arc<G>,
) -> Result<(Arc<Board>, RecordingLink<N, ChannelLink<R>>, Running<N>), AllocError>
    requires { IsAtHand N.ServiceParameters board seat setup.now (map D.state supply.items) prepared.media prepared.range }
    ensures { IfOk result (λ made. IsStarted N.ServiceParameters ⟦<RecordingLink<N, ChannelLink<R>> as Link>⟧
        ⟦<RecordingLink<N, ChannelLink<R>> as Supplied>⟧.runs_on ⟦<RecordingLink<N, ChannelLink<R>> as Recorder<N>>⟧.marks
        (arc_value made.0) made.1 setup.now.minor setup.now.frames) }
{
    let Prepared { media, range } = prepared;
    counted_drivers::<N, R, D, G>(
        alloc,
        rt,
        board,
        seat,
        media,
        range,
        setup.policy,
        supply,
        gate,
    )
}

// The caller picks `N` from what it hands over.
fn start_and_run<
    N: ServiceParameters + Send + Sync + 'static,
    R: Threads + Wait + Copy + Send + Sync + 'static,
    D: BlockDriver + 'static,
    G: Gate + 'static,
    P: Program<R>,
>(
    alloc: Global,
    rt: R,
    board: Board,
    seat: Seat,
    prepared: Prepared,
    setup: &Setup,
    supply: Vec<D>,
    gate: Arc<G>,
    program: P,
) -> Result<Result<P::Output, StartRefusal>, AllocError>
    requires { IsAtHand N.ServiceParameters board seat setup.now (map D.state supply.items) prepared.media prepared.range }
    ensures ran { IfOk result (λ came. IfOk came (λ o.
        HasRun N.opening.media setup.now (map D.state supply.items) (λ g opening. P.gives program g opening o))) }
    ensures refused { IfOk result (λ came. IfErr came (IsStopped N.opening setup.now.frames)) }
{
    let asked = Arc::try_clone(&gate)?;
    let (board, link, running) = started_link::<N, R, D, G>(
        alloc, rt, board, seat, prepared, setup, supply, asked,
    )?;
    Ok(run_over(
        alloc,
        rt,
        board,
        link,
        setup.minor,
        setup.frames as u32,
        running,
        gate,
        program,
    ))
}

/// Starts a service on the volume in an image and runs a program over it: the volume is mounted through the drivers, which run in threads
/// of their own, as the flusher and the reincarnation server do; each asks this gate before it goes on. When the program ends, the service
/// does. The first driver is started at the gate's first tick.
///
/// It is refused as `prepare` is, which is looked at first; `Mount` as a mount is, by the volume as the drivers give it, or since the
/// device was given up or the link to the drivers ended before all of it was read; and `OutOfMemory`, also where a thread is refused, but
/// that of a later driver, which is a fault of the driver. Then nothing runs, and the image's bytes are let go.
pub fn serve<
    R: Threads + Wait + Copy + Send + Sync + 'static,
    D: BlockDriver + 'static,
    G: Gate + 'static,
    P: Program<R>,
>(
    alloc: Global,
    rt: R,
    image: Vec<u8>,
    setup: &Setup,
    supply: Vec<D>,
    gate: Arc<G>,
    program: P,
) -> Result<P::Output, StartRefusal>
    ensures refusal { IfErr result (IsNotStarted image.items setup.now (map D.state supply.items)) }
    ensures ran { IfOk result (λ o. HasRun image.items setup.now (map D.state supply.items) (λ g opening. P.gives program g opening o)) }
{
    let prepared = prepare(image, setup, &supply)?;
    let (board, seat) = Board::new(alloc)?;
    start_and_run::<Brand, R, D, G, P>(
        alloc, rt, board, seat, prepared, setup, supply, gate, program,
    )?
}
