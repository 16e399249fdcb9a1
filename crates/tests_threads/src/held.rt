//! Drivers and a flusher that are held run beside the server: it goes on without them.

use board::counting::parameters::ServiceParameters;
use board::counting::recorder::Recorder;
use file_server::FileServer;
use fixtures::{ROOT, new_volume};
use fixtures_sessions::callers::{Caller, told};
use fixtures_sessions::stage::Stage;
use fixtures_sessions::watch::{Holds, Watch};
use serve::service::Service;
use service_start::program::Program;
use std::alloc::Global;
use std::sync::{Arc, Wait};
use std::test::*;
use std::thread::Threads;
use std::time::Clock;
use tests_texts::is_told;
use tree::{Call, PathFrom};

/// Who is held, and what is called meanwhile.
#[derive(Clone, Copy)]
enum What {
    /// The first driver, while the root's attributes are read.
    Read,
    /// The first driver, while what was changed is written, twice.
    Write,
    /// The flusher.
    Flusher,
}

impl What {
    // Who is held.
    fn holds(self) -> Holds {
        match self {
            What::Read | What::Write => Holds::FirstDriver,
            What::Flusher => Holds::Flusher,
        }
    }
}

/// A service whose first driver or flusher is held while a session calls.
#[derive(Drop)]
struct Held<R: Clock + Copy> {
    alloc: Global,
    what: What,
    gate: Arc<Watch<R>>,
}

/// What came of it.
#[derive(Drop)]
struct Came {
    /// A line for each answer.
    lines: String,
    /// Whether who was held had passed before it was let go.
    is_early: bool,
    /// The image that is left.
    image: Vec<u8>,
}

/// Changes the root's permissions and has them written, twice. Its inode is at hand.
fn changes<C: Caller>(session: &mut C, lines: &mut String) {
    let path = PathFrom::root(b"/");
    for mode in [0o700, 0o755] {
        told(session, 100, &Call::Chmod { path, mode }, lines);
        told(session, 100, &Call::Sync, lines);
    }
}

/// Calls while one of the service's threads is held, which then goes on and passes. Whether it had passed before.
fn calls<R: Clock + Copy, C: Caller>(
    what: What,
    gate: &Watch<R>,
    session: &mut C,
    lines: &mut String,
) -> bool {
    let stat = Call::Stat {
        path: PathFrom::root(b"/"),
    };
    match what {
        What::Read => {
            gate.hold();
            told(session, 100, &stat, lines);
        }
        What::Write => {
            told(session, 100, &stat, lines);
            gate.hold();
            changes(session, lines);
        }
        What::Flusher => {
            gate.awaits_flusher();
            told(session, 100, &stat, lines);
        }
    }
    let is_early = gate.passed() > 0 || what.holds() == Holds::Flusher && gate.flusher_passed() > 0;
    gate.let_go();
    match what.holds() {
        Holds::Flusher => gate.awaits_flush(),
        _ => gate.awaits_passed(),
    }
    is_early
}

impl<R: Threads + Wait + Clock + Copy + Send + Sync + 'static> Program<R> for Held<R> {
    type Output = Option<Came>;

    ghost gives = { λ program geometry opening output. Unit {0} };

    fn run<N: ServiceParameters, L: Recorder<N>, S: FileServer<L>>(
        self,
        service: Service<N, R, L, S>,
    ) -> Option<Came>
        ensures { Unit {0} }
    {
        let mut lines = String::new(self.alloc);
        let is_early = self.calls_in(&service, &mut lines)?;
        let image = service.stop().ok()?;
        Some(Came {
            lines,
            is_early,
            image,
        })
    }
}

impl<R: Clock + Copy> Held<R> {
    /// Calls in a session of a service, which then ends. Whether who was held had passed before it was let go.
    fn calls_in<N: ServiceParameters, L: Recorder<N>, S: FileServer<L>>(
        &self,
        service: &Service<N, R, L, S>,
        lines: &mut String,
    ) -> Option<bool>
    where
        R: Threads + Wait,
    {
        let mut session = service.session(0, 0).ok()?;
        let came = calls(self.what, &self.gate, &mut session, lines);
        session.end();
        Some(came)
    }
}

/// What comes of a session that calls while what is held is held.
fn came_of<R: Threads + Wait + Clock + Copy + Send + Sync + 'static>(
    stage: &Stage<R>,
    what: What,
) -> Result<Came, Fail> {
    if matches!(what, What::Flusher) {
        stage.gate.hold();
    }
    let program = Held {
        alloc: stage.alloc,
        what,
        gate: Arc::try_clone(&stage.gate)?,
    };
    Ok(stage.served(&[], program)?.ok_or("not stopped")?)
}

/// These lines, and an image that is the volume changed by what drivers but the first wrote.
fn is_right<R: Wait + Clock + Copy>(
    stage: &Stage<R>,
    came: &Came,
    lines: &str,
) -> Result<(), Fail> {
    is_told(came.lines.as_str(), lines)?;
    if came.is_early || stage.notes.has_written(1) {
        return Err(Fail::from("early, or written by the first driver"));
    }
    stage.check_left(&came.image)
}

/// What comes of it over the small volume: these lines, and an image that is the volume changed by what drivers but the first wrote.
fn comes_out<R: Threads + Wait + Clock + Copy + Send + Sync + 'static>(
    alloc: Global,
    rt: R,
    what: What,
    lines: &str,
) -> Result<(), Fail> {
    let image = new_volume(alloc, 1024)?;
    let stage = Stage::new(alloc, rt, image, what.holds())?;
    let came = came_of(&stage, what)?;
    is_right(&stage, &came, lines)
}

/// The first driver is held before its first step after the start until a later one has answered. The step that it takes then writes
/// nothing.
#[test]
fn held_driver(rt: HostRuntime) -> Result<(), Fail> {
    comes_out(rt.alloc(), rt, What::Read, ROOT)
}

/// The same, while the first driver has a write in work: what it would write by its next step is old by then.
#[test]
fn held_writer(rt: HostRuntime) -> Result<(), Fail> {
    let mut lines = String::new(rt.alloc());
    write!(lines, "{ROOT}ok\nok\nok\nok\n")?;
    comes_out(rt.alloc(), rt, What::Write, lines.as_str())
}

/// The flusher is held before its first turn until a call was answered.
#[test]
fn held_flusher(rt: HostRuntime) -> Result<(), Fail> {
    comes_out(rt.alloc(), rt, What::Flusher, ROOT)
}
