//! A service under a drawn gate: two sessions act on it, each in a thread of its own, or one looks what is there.

ghost use Rattle.std.specs.Prelude.{◌≡◌, [], IfOk, map};
ghost use Rattle.std.specs.Arc.{arc_value};
ghost use Rattle.records.specs.Opening.{Opening};
ghost use Rattle.true_replies.specs.Events.{opening_media};
ghost use Rattle.board.specs.View.{IsKeeper, opener};
ghost use Rattle.service_start.specs.Started.{IsAtHand, IsStarted};

use crate::plan::Plan;
use crate::trial::Wrong;
use crate::watched::{Telling, Watched};
use bdev::BlockDriver;
use board::counting::RecordingLink;
use board::counting::parameters::ServiceParameters;
use board::counting::recorder::Recorder;
use board::counting::steady::Supplied;
use board::{Board, Seat};
use channel_link::link::ChannelLink;
use driver_threads::running::{Running, start_drivers};
use file_server::FileServer;
use fixtures_drawn::chooser::{MAIN, Note, Watching};
use fixtures_drawn::deed::Deed;
use fixtures_drawn::deeds::{Acted, Acting, COMMON, Caller, do_all, drawn_deeds, own_of};
use fixtures_drawn::drawn::Drawn;
use fixtures_drawn::held::Held;
use media::Media;
use reincarnate::Reincarnation;
use reincarnate::policy::{Policy, Setup};
use reissue::link::Link;
use serve::service::{Service, Shared};
use serve::session::Session;
use service_start::opened::mounted_server;
use std::alloc::{AllocError, Global};
use std::marker::Brand;
use std::sync::{Arc, Wait};
use std::thread::{Threads, join};
use tree::{Call, Outcome};
use volume_mount::{Prepared, prepare};

/// How many deeds each session does.
const DEEDS: usize = 16;

/// What is done.
#[derive(Clone, Copy)]
pub(crate) enum What {
    /// Two sessions do what is drawn.
    Act,
    /// One session looks whether the directories hold this.
    Look([Held; 2]),
}

/// What came of it.
#[derive(Drop)]
pub(crate) enum Came {
    /// Of both sessions.
    Acted(Acted, Acted),
    /// Which names the shared directory has; none where another directory doesn't hold what it has to.
    Looked(Option<u16>),
}

/// What is to be done on a service, and on what.
pub(crate) struct Job<R: Wait + Copy> {
    pub(crate) alloc: Global,
    pub(crate) rt: R,
    /// The image that is handed in.
    pub(crate) image: Vec<u8>,
    pub(crate) plan: Plan,
    pub(crate) gate: Arc<Drawn<R>>,
    pub(crate) what: What,
}

impl<R: Wait + Copy> Drop for Job<R> {
    fn drop(self) {
        let Self {
            alloc: _,
            rt: _,
            image: _,
            plan: _,
            gate: _,
            what: _,
        } = self;
    }
}

/// A session of a service.
#[derive(Drop)]
struct Called<N: ServiceParameters, R: Wait + Copy, L: Recorder<N>, S: FileServer<L>> {
    session: Session<N, Shared<N, R, L, S>>,
}

impl<N: ServiceParameters, R: Wait + Copy, L: Recorder<N>, S: FileServer<L>> Caller
    for Called<N, R, L, S> {
    fn make(&mut self, call: &Call<'_>) -> Outcome {
        self.session.call(100, call)
    }
}

/// A session does its deeds, and ends.
fn acts<N: ServiceParameters, R: Wait + Copy, L: Recorder<N>, S: FileServer<L>>(
    alloc: Global,
    gate: &Drawn<R>,
    at: usize,
    session: Session<N, Shared<N, R, L, S>>,
    deeds: &[Deed],
) -> Acted {
    let mut called = Called { session };
    let own = own_of(at);
    let came = do_all(
        alloc,
        &mut Acting::new(&mut called, gate, Some(at), own),
        deeds,
    );
    gate.stand(at);
    called.session.end();
    gate.tell(Note::Leaves(at));
    came
}

/// A session makes the directories, and ends.
fn prepare_in<N: ServiceParameters, R: Threads + Wait + Copy, L: Recorder<N>, S: FileServer<L>>(
    gate: &Drawn<R>,
    service: &Service<N, R, L, S>,
) -> Option<()> {
    let session = service.session(0, 0).ok()?;
    let mut called = Called { session };
    let is_right = Acting::new(&mut called, gate, None, COMMON).prepares();
    called.session.end();
    is_right.then_some(())
}

/// Two sessions do their deeds, each in a thread of its own.
fn act<
    N: ServiceParameters + Send + Sync,
    R: Threads + Wait + Copy + Send + Sync + 'static,
    L: Recorder<N> + Send,
    S: FileServer<L> + Send,
>(job: &Job<R>, service: &Service<N, R, L, S>) -> Option<Came> {
    let alloc = job.alloc;
    let [first, second] = job.plan.deeds;
    let first = drawn_deeds(alloc, first, DEEDS).ok()?;
    let second = drawn_deeds(alloc, second, DEEDS).ok()?;
    prepare_in(&job.gate, service)?;
    let one = service.session(0, 0).ok()?;
    let two = service.session(0, 0).ok()?;
    let gate = &*job.gate;
    gate.tell(Note::Begin);
    let (one, two) = join(
        &job.rt,
        move || acts(alloc, gate, 0, one, &first),
        move || acts(alloc, gate, 1, two, &second),
    );
    gate.stand(MAIN);
    Some(Came::Acted(one, two))
}

/// A session looks whether the directories hold this, and which names the shared one has; and ends.
fn look<N: ServiceParameters, R: Threads + Wait + Copy, L: Recorder<N>, S: FileServer<L>>(
    gate: &Drawn<R>,
    service: &Service<N, R, L, S>,
    held: &[Held; 2],
) -> Option<Came> {
    let session = service.session(0, 0).ok()?;
    let mut called = Called { session };
    let [first, second] = held;
    let is_first = Acting::new(&mut called, gate, None, own_of(0)).finds(first);
    let is_second = Acting::new(&mut called, gate, None, own_of(1)).finds(second);
    let shared = Acting::new(&mut called, gate, None, COMMON).finds_shared();
    called.session.end();
    Some(Came::Looked(shared.filter(|_| is_first && is_second)))
}

/// It is done, and the service is stopped: what came of it, and the image.
fn done<
    N: ServiceParameters + Send + Sync,
    R: Threads + Wait + Copy + Send + Sync + 'static,
    L: Recorder<N> + Send,
    S: FileServer<L> + Send,
>(job: &Job<R>, service: Service<N, R, L, S>) -> Result<(Came, Vec<u8>), Wrong> {
    let came = match &job.what {
        What::Act => act(job, &service),
        What::Look(held) => look(&job.gate, &service, held),
    };
    let came = came.ok_or(Wrong::NotPrepared)?;
    job.gate.close();
    match service.stop() {
        Ok(image) => Ok((came, image)),
        Err(_) => Err(Wrong::NotStopped),
    }
}

/// Mounts the volume over this link, does it on the service of it, and stops that.
fn mount_and_do<
    N: ServiceParameters + Send + Sync + 'static,
    R: Threads + Wait + Copy + Send + Sync + 'static,
    L: Recorder<N> + Send + 'static,
>(
    job: &Job<R>,
    board: Arc<Board>,
    link: L,
    setup: &Setup,
    running: Running<N>,
) -> Result<(Came, Vec<u8>), Wrong>
    requires { IsStarted N.ServiceParameters L.Link L.runs_on L.marks (arc_value board) link setup.now.minor setup.now.frames }
{
    let gate = Arc::try_clone(&job.gate)?;
    let frames = setup.frames as u32;
    let (alloc, rt) = (job.alloc, job.rt);
    match mounted_server::<N, L>(alloc, link, setup.minor, frames) {
        Ok(server) => {
            let service = Service::over(alloc, rt, board, server, running, gate)?;
            done(job, service)
        }
        Err(_) => {
            let _ = running.stop(&rt);
            Err(Wrong::NotStarted)
        }
    }
}

/// The link to drivers in threads, which tells the gate what goes over it, and the service's board, as `counted_drivers` of `service_start`
/// makes them.
fn counted_drivers<
    N: ServiceParameters + Send + Sync + 'static,
    R: Threads + Wait + Copy + Send + Sync + 'static,
>(
    job: &Job<R>,
    board: Board,
    seat: Seat,
    media: Media,
    range: (u32, u32),
    policy: Policy,
    supply: Vec<Telling<R>>,
) -> Result<
    (
        Arc<Board>,
        RecordingLink<N, Watched<ChannelLink<R>, R>>,
        Running<N>,
    ),
    AllocError,
>
    requires board { board ≡ N.table }
    requires seat { IsKeeper N.table seat × (seat.view ≡ opener) }
    requires range { (range.0 ≡ N.opening.first) × (range.1 ≡ N.opening.count) }
    requires media { media ≡ opening_media N.opening }
    ensures board { IfOk result (λ made. arc_value made.0 ≡ N.table) }
    ensures marks { IfOk result (λ made. ⟦<RecordingLink<N, Watched<ChannelLink<R>, R>> as Recorder<N>>⟧.marks made.1 ≡ []) }
    ensures history { IfOk result (λ made. ⟦<RecordingLink<N, Watched<ChannelLink<R>, R>> as Link>⟧.history made.1 ≡ []) }
    ensures budget { IfOk result (λ made. ⟦<RecordingLink<N, Watched<ChannelLink<R>, R>> as Link>⟧.budget_left made.1 ≡ 1099511627776) }
    ensures truth { IfOk result (λ made. (v : Opening) → ⟦<RecordingLink<N, Watched<ChannelLink<R>, R>> as Link>⟧.truth made.1 v []) }
{
    let alloc = job.alloc;
    let mut seat = seat;
    let theirs = board.split(&mut seat, None)?;
    let looks = board.split(&mut seat, None)?;
    let board = Arc::new(alloc, board)?;
    let counted = Arc::try_clone(&board)?;
    job.gate
        .watch(Watching::new(Arc::try_clone(&board)?, looks));
    let Ok(reincarnation) = Reincarnation::new(alloc, policy, supply) else {
        return Err(AllocError);
    };
    let (link, running) = start_drivers::<N, Telling<R>, Drawn<R>, R>(
        alloc,
        job.rt,
        media,
        range,
        reincarnation,
        &board,
        theirs,
        Arc::try_clone(&job.gate)?,
    )?;
    let link = Watched::new(link, Arc::try_clone(&job.gate)?);
    let recording = RecordingLink::new(alloc, link, counted, seat)?;
    Ok((board, recording, running))
}

/// All of it from what is at hand: over this link the volume may be mounted.
fn watched_link<
    N: ServiceParameters + Send + Sync + 'static,
    R: Threads + Wait + Copy + Send + Sync + 'static,
>(
    job: &Job<R>,
    board: Board,
    seat: Seat,
    prepared: Prepared,
    setup: &Setup,
    supply: Vec<Telling<R>>,
) -> Result<
    (
        Arc<Board>,
        RecordingLink<N, Watched<ChannelLink<R>, R>>,
        Running<N>,
    ),
    AllocError,
>
    requires { IsAtHand N.ServiceParameters board seat setup.now (map ⟦<Telling<R> as BlockDriver>⟧.state supply.items)
        prepared.media prepared.range }
    ensures { IfOk result (λ made. IsStarted N.ServiceParameters ⟦<RecordingLink<N, Watched<ChannelLink<R>, R>> as Link>⟧
        ⟦<RecordingLink<N, Watched<ChannelLink<R>, R>> as Supplied>⟧.runs_on
        ⟦<RecordingLink<N, Watched<ChannelLink<R>, R>> as Recorder<N>>⟧.marks (arc_value made.0) made.1 setup.now.minor setup.now.frames) }
{
    let Prepared { media, range } = prepared;
    counted_drivers::<N, R>(job, board, seat, media, range, setup.policy, supply)
}

// The caller picks `N` from what it hands over.
fn start_and_do<
    N: ServiceParameters + Send + Sync + 'static,
    R: Threads + Wait + Copy + Send + Sync + 'static,
>(
    job: &Job<R>,
    board: Board,
    seat: Seat,
    prepared: Prepared,
    setup: &Setup,
    supply: Vec<Telling<R>>,
) -> Result<(Came, Vec<u8>), Wrong>
    requires { IsAtHand N.ServiceParameters board seat setup.now (map ⟦<Telling<R> as BlockDriver>⟧.state supply.items)
        prepared.media prepared.range }
{
    let (board, link, running) = watched_link::<N, R>(job, board, seat, prepared, setup, supply)?;
    mount_and_do(job, board, link, setup, running)
}

/// What comes of it, and the image that is left.
pub(crate) fn served<R: Threads + Wait + Copy + Send + Sync + 'static>(
    job: &Job<R>,
) -> Result<(Came, Vec<u8>), Wrong> {
    let setup = job.plan.setup();
    let sectors = u32::try_from(job.image.len() / 512).unwrap_or(0);
    let supply = job.plan.supply(job.alloc, sectors, &job.gate)?;
    let image = Vec::from_slice(job.alloc, &job.image)?;
    let Ok(prepared) = prepare(image, &setup, &supply) else {
        return Err(Wrong::NotStarted);
    };
    let (board, seat) = Board::new(job.alloc)?;
    start_and_do::<Brand, R>(job, board, seat, prepared, &setup, supply)
}
