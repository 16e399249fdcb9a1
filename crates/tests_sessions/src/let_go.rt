//! Sessions that are let go without their end: the service ends them, so no file without a name is left, and their numbers are free again.

use board::counting::parameters::ServiceParameters;
use board::counting::recorder::Recorder;
use file_server::FileServer;
use fixtures::new_volume;
use fixtures_sessions::callers::told;
use fixtures_sessions::stage::Stage;
use fixtures_sessions::watch::Holds;
use fsck::{Verdict, check};
use serve::service::{Service, Shared};
use serve::session::Session;
use serve::stopping::StopRefusal;
use service_start::program::Program;
use std::alloc::Global;
use std::sync::Wait;
use std::test::*;
use std::thread::Threads;
use std::time::Clock;
use tests_texts::is_told;
use tree::{Call, OpenFlags, PathFrom};

/// The name of the file that loses it while it is open.
const NAME: &[u8] = b"/f";

/// So many sessions open a file, the last one removes it, and all are let go.
fn opened_and_let_go<
    N: ServiceParameters,
    R: Threads + Wait + Copy,
    L: Recorder<N>,
    S: FileServer<L>,
>(alloc: Global, service: &Service<N, R, L, S>, count: usize, lines: &mut String) -> Option<()> {
    let path = PathFrom::root(NAME);
    let open = Call::Open {
        path,
        flags: OpenFlags::WRITE | OpenFlags::CREATE,
        mode: 0o644,
    };
    let mut sessions: Vec<Session<N, Shared<N, R, L, S>>> = Vec::new(alloc);
    for _ in 0..count {
        let mut session = service.session(0, 0).ok()?;
        told(&mut session, 100, &open, lines);
        sessions.push(session).ok()?;
    }
    let mut last = sessions.pop()?;
    told(&mut last, 100, &Call::Unlink { path }, lines);
    Some(())
}

/// How a service ends of which sessions were let go.
#[derive(Clone, Copy, PartialEq, Eq)]
enum Ending {
    /// It is stopped.
    Stopped,
    /// It is stopped with the end of a further session.
    StoppedAfter,
    /// A handle of its media is left at a first stop.
    StoppedTwice,
}

/// So many sessions are let go with an open file that has no name, and the service ends so.
#[derive(Drop)]
struct LetsGo {
    alloc: Global,
    count: usize,
    ending: Ending,
}

impl LetsGo {
    /// Stops the service so. The image; none where a stop is refused otherwise.
    fn stop<N: ServiceParameters, R: Threads + Wait + Copy, L: Recorder<N>, S: FileServer<L>>(
        &self,
        service: Service<N, R, L, S>,
        lines: &mut String,
    ) -> Option<Vec<u8>> {
        match self.ending {
            Ending::Stopped => service.stop().ok(),
            Ending::StoppedAfter => {
                let last = service.session(0, 0).ok()?;
                let _ = writeln!(lines, "{}", last.number());
                service.stop_after(last).ok()
            }
            Ending::StoppedTwice => stopped_twice(service, lines),
        }
    }
}

/// A stop is refused since a handle of the media is left; a session makes a call, the handle is let go, and a second stop gives the image.
fn stopped_twice<N: ServiceParameters, R: Threads + Wait + Copy, L: Recorder<N>, S: FileServer<L>>(
    service: Service<N, R, L, S>,
    lines: &mut String,
) -> Option<Vec<u8>> {
    let handle = service.media().ok()?;
    let Err(StopRefusal::OutOfMemory(service)) = service.stop() else {
        return None;
    };
    let mut session = service.session(0, 0).ok()?;
    let mkdir = Call::Mkdir {
        path: PathFrom::root(b"/d"),
        mode: 0o755,
    };
    told(&mut session, 100, &mkdir, lines);
    session.end();
    drop(handle);
    service.stop().ok()
}

impl<R: Threads + Wait + Clock + Copy + Send + Sync + 'static> Program<R> for LetsGo {
    /// A line for each answer, and the image. None where a stop is refused otherwise.
    type Output = Option<(String, Vec<u8>)>;

    ghost gives = { λ program geometry opening output. Unit {0} };

    fn run<N: ServiceParameters, L: Recorder<N>, S: FileServer<L>>(
        self,
        service: Service<N, R, L, S>,
    ) -> Option<(String, Vec<u8>)>
        ensures { Unit {0} }
    {
        let mut lines = String::new(self.alloc);
        opened_and_let_go(self.alloc, &service, self.count, &mut lines)?;
        let image = self.stop(service, &mut lines)?;
        Some((lines, image))
    }
}

/// So many sessions are let go, and the service ends so: what a line says of each answer behind those of the openings and the removal, and
/// that the volume which is left is clean.
fn is_left<R: Threads + Wait + Clock + Copy + Send + Sync + 'static>(
    alloc: Global,
    rt: R,
    count: usize,
    ending: Ending,
    last: &str,
) -> Result<(), Fail> {
    let stage = Stage::new(alloc, rt, new_volume(alloc, 1024)?, Holds::Flusher)?;
    let program = LetsGo {
        alloc,
        count,
        ending,
    };
    let came = stage.served(&[], program)?;
    let (lines, left) = came.ok_or("not stopped")?;
    let mut wanted = String::new(alloc);
    for _ in 0..count {
        wanted.push_str("fd 0\n")?;
    }
    write!(wanted, "ok\n{last}")?;
    is_told(lines.as_str(), wanted.as_str())?;
    match check(alloc, &left) {
        Ok(Verdict::Clean(_)) => Ok(()),
        _ => Err(Fail::from("not clean")),
    }
}

/// A session is let go whose open file has lost its name: a stop ends it.
#[test]
fn session_let_go(rt: HostRuntime) -> Result<(), Fail> {
    is_left(rt.alloc(), rt, 1, Ending::Stopped, "")
}

/// All sessions are let go: a further one gets the lowest number, and the service can be stopped with its end.
#[test]
fn all_sessions_let_go(rt: HostRuntime) -> Result<(), Fail> {
    is_left(rt.alloc(), rt, 64, Ending::StoppedAfter, "0\n")
}

/// A handle of the media is left at a stop: the service is handed back, goes on, and is stopped once the handle was let go.
#[test]
fn service_that_is_stopped_twice(rt: HostRuntime) -> Result<(), Fail> {
    is_left(rt.alloc(), rt, 2, Ending::StoppedTwice, "ok\n")
}
