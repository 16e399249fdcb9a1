//! Measures what threads cost: a bare round trip between two of them by a pair of channels, and a tick of the reincarnation server.
ghost use Rattle.std.specs.Prelude.{◌≡◌};

use bench_layers::timing::{say, tell};
use board::counting::parameters::ServiceParameters;
use board::{Board, Seat};
use channel_link::channel::{Receiver, Sender, bounded};
use driver_threads::running::start_drivers;
use gate::{Gate, Point};
use media::Media;
use media::partition::Table;
use message::endpoint::{DISK_DRIVER, Endpoint};
use message::{BlockReply, BlockRequest, Kind};
use modeldisk::RamDriver;
use reincarnate::Reincarnation;
use reincarnate::policy::Policy;
use std::marker::Brand;
use std::sync::atomic::{AtomicU64, Ordering};
use std::sync::{Arc, Wait};
use std::thread::Threads;
use std::time::{Duration, Instant};
use std::{io, thread};

/// How many round trips are made.
const TRIPS: u32 = 20_000;

/// For how long ticks are timed, in milliseconds.
const COUNTED: u64 = 300;

/// Answers each request with its bytes, until nobody asks any more.
fn answer_all<R: Wait>(rt: &R, mut asked: Receiver<BlockRequest>, mut answers: Sender<BlockReply>) {
    for _ in rt.forever() {
        let Some(request) = asked.receive(rt) else {
            return;
        };
        let bytes = request.bytes;
        let reply = BlockReply {
            from: Endpoint {
                slot: DISK_DRIVER,
                generation: 1,
            },
            id: request.id,
            outcome: Ok(request.count),
            bytes,
        };
        if !answers.send(rt, reply) {
            return;
        }
    }
}

/// Asks for so many answers, one after the other; how many came.
fn ask_all<R: Wait>(
    rt: &R,
    asks: &mut Sender<BlockRequest>,
    answers: &mut Receiver<BlockReply>,
) -> u32 {
    let mut came = 0u32;
    for id in 0..TRIPS {
        let request = BlockRequest {
            id: u64::from(id),
            kind: Kind::Write,
            minor: 0,
            position: 0,
            count: 4096,
            bytes: [1; 4096],
        };
        if asks.send(rt, request) && answers.receive(rt).is_some() {
            came = came.saturating_add(1);
        }
    }
    came
}

/// Measures how long it takes to ask for all answers.
fn measure_trips<R: Wait>(
    rt: &HostRuntime,
    waits: &R,
    asks: &mut Sender<BlockRequest>,
    answered: &mut Receiver<BlockReply>,
) -> io::Result<()> {
    let start = Instant::now(rt)?;
    let came = ask_all(waits, asks, answered);
    tell(rt, "bare round trips", came, "trips", start)
}

/// Measures round trips of a request and a reply between two threads, with nothing else done.
fn round_trips<R: Threads + Wait + Copy + Send + 'static>(
    rt: &HostRuntime,
    waits: R,
) -> io::Result<()> {
    let (mut asks, asked) = bounded::<BlockRequest>(rt.alloc(), 32)?;
    let (answers, mut answered) = bounded::<BlockReply>(rt.alloc(), 64)?;
    let Ok(handle) = thread::spawn(&waits, move || answer_all(&waits, asked, answers)) else {
        return say(rt, "no thread");
    };
    let measured = measure_trips(rt, &waits, &mut asks, &mut answered);
    drop(asks);
    handle.join(&waits);
    measured
}

/// Lets a tick pass each millisecond, and adds up how long the ticks take, from where the gate is passed to where it is asked again.
#[derive(Drop)]
struct TimesTicks {
    rt: HostRuntime,
    start: Instant,
    ticks: AtomicU64,
    // How long they took, and when the last one began, in nanoseconds.
    took: AtomicU64,
    began: AtomicU64,
}

impl TimesTicks {
    /// No tick has begun.
    fn new(rt: &HostRuntime) -> io::Result<TimesTicks> {
        Ok(TimesTicks {
            rt: *rt,
            start: Instant::now(rt)?,
            ticks: AtomicU64::new(0),
            took: AtomicU64::new(0),
            began: AtomicU64::new(0),
        })
    }

    /// How many ticks there were, and how long they took, in nanoseconds.
    fn counts(&self) -> (u64, u64) {
        let ticks = self.ticks.load(Ordering::SeqCst);
        (ticks, self.took.load(Ordering::SeqCst))
    }

    /// Nanoseconds since the start.
    fn now(&self) -> u64 {
        match self.start.elapsed(&self.rt) {
            Ok(since) => u64::try_from(since.as_nanos()).unwrap_or(0),
            Err(_) => 0,
        }
    }

    /// A tick ends, and the next one begins a millisecond later.
    fn tick(&self) {
        let began = self.began.load(Ordering::SeqCst);
        if began > 0 {
            self.took
                .fetch_add(self.now().saturating_sub(began), Ordering::SeqCst);
            self.ticks.fetch_add(1, Ordering::SeqCst);
        }
        thread::sleep(&self.rt, Duration::from_millis(1));
        self.began.store(self.now(), Ordering::SeqCst);
    }
}

impl Gate for TimesTicks {
    fn pass(&self, at: Point) {
        if at == Point::Tick {
            self.tick();
        }
    }
}

/// The default policy, but that a driver may miss 16 heartbeats.
fn patient() -> Policy {
    Policy {
        misses: 16,
        ..Policy::default()
    }
}

/// Times the ticks over an idle driver of one sector.
fn time_ticks<
    N: ServiceParameters + Send + Sync + 'static,
    R: Threads + Wait + Copy + Send + Sync + 'static,
>(
    rt: &HostRuntime,
    waits: R,
    image: &[u8],
    reincarnation: Reincarnation<RamDriver>,
    board: Board,
    seat: Seat,
    gate: Arc<TimesTicks>,
    timing: &TimesTicks,
) -> io::Result<()>
    requires range { (N.opening.first ≡ 0) × (N.opening.count ≡ 1) }
    requires image { N.opening.media ≡ image.now }
    requires board { board ≡ N.table }
    requires seat { seat.table ≡ board }
{
    let alloc = rt.alloc();
    let Ok(media) = Media::from_bytes(alloc, image) else {
        return say(rt, "no memory");
    };
    let board = Arc::new(alloc, board)?;
    let (link, running) = start_drivers::<N, RamDriver, TimesTicks, R>(
        alloc,
        waits,
        media,
        (0, 1),
        reincarnation,
        &board,
        seat,
        gate,
    )?;
    thread::sleep(rt, Duration::from_millis(COUNTED));
    let (ticks, took) = timing.counts();
    drop(link);
    let _ = running.stop(&waits);
    eprintln!(*rt; "ticks over an idle driver: {ticks} in {took} nanoseconds")
}

/// Times the ticks by which these drivers are started.
fn ticks_over<R: Threads + Wait + Copy + Send + Sync + 'static>(
    rt: &HostRuntime,
    waits: R,
    reincarnation: Reincarnation<RamDriver>,
) -> io::Result<()> {
    let gate = Arc::new(rt.alloc(), TimesTicks::new(rt)?)?;
    let asked = Arc::try_clone(&gate)?;
    let (board, seat) = Board::new(rt.alloc())?;
    time_ticks::<Brand, R>(
        rt,
        waits,
        &[0; 512],
        reincarnation,
        board,
        seat,
        asked,
        &gate,
    )
}

/// Measures ticks.
fn ticks<R: Threads + Wait + Copy + Send + Sync + 'static>(
    rt: &HostRuntime,
    waits: R,
) -> io::Result<()> {
    let alloc = rt.alloc();
    let supply = vec![in alloc; RamDriver::new(Table::whole(1))]?;
    let Ok(reincarnation) = Reincarnation::new(alloc, patient(), supply) else {
        return say(rt, "no memory");
    };
    ticks_over(rt, waits, reincarnation)
}

/// Measures both.
pub fn run<R: Threads + Wait + Copy + Send + Sync + 'static>(
    rt: &HostRuntime,
    waits: R,
) -> io::Result<()> {
    round_trips(rt, waits)?;
    ticks(rt, waits)
}
