//! A service on which no call is made writes back what was changed, by itself.

use board::counting::parameters::ServiceParameters;
use board::counting::recorder::Recorder;
use file_server::FileServer;
use fixtures::gates::{Ticking, until};
use fixtures_sessions::callers::Caller;
use fixtures_sessions::stage::{Stage, patient};
use fixtures_sessions::watch::Holds;
use gate::bell::Bell;
use gate::{Gate, Point};
use new_volume::mkfs;
use reincarnate::policy::Setup;
use serve::service::{Service, Shared};
use serve::session::Session;
use serve::stopping::StopRefusal;
use service_start::program::Program;
use service_start::start::serve;
use std::alloc::{AllocError, Global};
use std::sync::atomic::{AtomicBool, Ordering};
use std::sync::{Arc, Wait};
use std::test::*;
use std::thread;
use std::thread::Threads;
use std::time::{Clock, Duration};
use tree::{Call, OpenFlags, Outcome, PathFrom, Reply};

/// How many blocks the volume has.
const BLOCKS: u32 = 512;

/// How many blocks the cache may hold: all of them.
const FRAMES: usize = 512;

/// How many bytes a block has.
const BLOCK: usize = 1024;

/// How many pages the file gets, each of a block.
const PAGES: usize = 200;

/// Each byte of them.
const BYTE: u8 = 0xa5;

/// How long a tick is, and a turn of the flusher, in milliseconds. A turn begins to write sixteen blocks.
const PACE: u64 = 20;

/// Whether a block is another one once the file is there: both maps and the first inodes, the root's entries, the pages, and the block of
/// numbers that they take from the eighth on.
fn is_changed(block: usize) -> bool {
    matches!(block, 2..=4) || matches!(block, 6..=207)
}

/// Whether just these blocks of an image are others than they were, and all pages of the file are among them.
fn is_written(image: &[u8], opening: &[u8]) -> bool {
    let (blocks, _) = image.as_chunks::<BLOCK>();
    let (before, _) = opening.as_chunks::<BLOCK>();
    let are_changed = blocks
        .iter()
        .zip(before.iter())
        .enumerate()
        .all(|(number, (is, was))| (is != was) == is_changed(number));
    let pages = blocks
        .iter()
        .filter(|block| block.iter().all(|byte| *byte == BYTE))
        .count();
    blocks.len() == before.len() && are_changed && pages == PAGES
}

/// Makes a file, and writes its pages. Whether each call was answered so.
fn writes<C: Caller>(session: &mut C) -> bool {
    let open = Call::Open {
        path: PathFrom::root(b"/f"),
        flags: OpenFlags::WRITE | OpenFlags::CREATE,
        mode: 0o644,
    };
    let mut is_right = session.make(100, &open) == Outcome::Reply(Reply::Descriptor(0));
    let page = [BYTE; BLOCK];
    for _ in 0..PAGES {
        let write = Call::Write {
            fd: 0,
            bytes: &page,
        };
        let written = session.make(100, &write);
        is_right = is_right && written == Outcome::Reply(Reply::Wrote(BLOCK as u32));
    }
    is_right
}

/// A gate under which the flusher takes no turn before it is let go.
#[derive(Drop)]
struct Late<R: Clock + Copy> {
    ticking: Ticking<R>,
    let_go: AtomicBool,
}

impl<R: Clock + Copy + Send + Sync> Gate for Late<R> {
    fn pass(&self, at: Point) {
        self.pass_or_end(at, &Bell::new());
    }

    fn pass_or_end(&self, at: Point, end: &Bell) {
        if at == Point::FlusherTurn {
            until(&self.let_go);
        }
        self.ticking.pass_or_end(at, end);
    }
}

/// Which stop is refused before the service is left idle.
#[derive(Clone, Copy, PartialEq, Eq)]
enum Refused {
    /// None is asked for.
    None,
    /// One while the session is left.
    WithSession,
    /// One while a handle of the media is left, when the session has ended.
    WithMedia,
}

/// A service whose flusher is held until a file was written. Then nothing is called any more.
#[derive(Drop)]
struct Idle<R: Clock + Copy> {
    alloc: Global,
    rt: R,
    gate: Arc<Late<R>>,
    /// The image that was handed in.
    opening: Vec<u8>,
    refused: Refused,
}

/// The service, whose stop was refused while a handle of its media was left.
fn kept_with_media<
    N: ServiceParameters,
    R: Threads + Wait + Copy,
    L: Recorder<N>,
    S: FileServer<L>,
>(service: Service<N, R, L, S>) -> Option<Service<N, R, L, S>> {
    let handle = service.media().ok()?;
    let stopped = service.stop();
    drop(handle);
    match stopped {
        Err(StopRefusal::OutOfMemory(service)) => Some(service),
        _ => None,
    }
}

/// What came of it.
#[derive(Drop)]
struct Came {
    /// Whether each call was answered as it should be.
    is_answered: bool,
    /// The image of the idle service.
    idle: Vec<u8>,
    /// The image that is left.
    left: Vec<u8>,
}

impl<R: Clock + Copy> Idle<R> {
    /// The service, of which a stop may have been refused, and the session, if it is left.
    fn kept<N: ServiceParameters, L: Recorder<N>, S: FileServer<L>>(
        &self,
        service: Service<N, R, L, S>,
        session: Session<N, Shared<N, R, L, S>>,
    ) -> Option<(Service<N, R, L, S>, Option<Session<N, Shared<N, R, L, S>>>)>
    where
        R: Threads + Wait,
    {
        match self.refused {
            Refused::None => Some((service, Some(session))),
            Refused::WithSession => match service.stop() {
                Err(StopRefusal::SessionsLeft(service)) => Some((service, Some(session))),
                _ => None,
            },
            Refused::WithMedia => {
                session.end();
                Some((kept_with_media(service)?, None))
            }
        }
    }

    /// The image of the media once all is there. Where that is never so, the test's limit ends it.
    fn image<N: ServiceParameters, L: Recorder<N>, S: FileServer<L>>(
        &self,
        service: &Service<N, R, L, S>,
    ) -> Option<Vec<u8>>
    where
        R: Threads + Wait,
    {
        for _ in 0..u64::MAX {
            let image = service.image(self.alloc).ok()?;
            if is_written(&image, &self.opening) {
                return Some(image);
            }
            thread::sleep(&self.rt, Duration::from_millis(PACE));
        }
        service.image(self.alloc).ok()
    }
}

impl<R: Threads + Wait + Clock + Copy + Send + Sync + 'static> Program<R> for Idle<R> {
    type Output = Option<Came>;

    ghost gives = { λ program geometry opening output. Unit {0} };

    fn run<N: ServiceParameters, L: Recorder<N>, S: FileServer<L>>(
        self,
        service: Service<N, R, L, S>,
    ) -> Option<Came>
        ensures { Unit {0} }
    {
        let mut session = service.session(0, 0).ok()?;
        let is_answered = writes(&mut session);
        self.gate.let_go.store(true, Ordering::SeqCst);
        let (service, session) = self.kept(service, session)?;
        let idle = self.image(&service)?;
        if let Some(session) = session {
            session.end();
        }
        let left = service.stop().ok()?;
        Some(Came {
            is_answered,
            idle,
            left,
        })
    }
}

/// It, on a stage.
fn idle_on<R: Wait + Clock + Copy>(
    stage: &Stage<R>,
    refused: Refused,
) -> Result<Idle<R>, AllocError> {
    let gate = Late {
        ticking: Ticking::new(stage.rt, PACE),
        let_go: AtomicBool::new(false),
    };
    Ok(Idle {
        alloc: stage.alloc,
        rt: stage.rt,
        gate: Arc::new(stage.alloc, gate)?,
        opening: Vec::from_slice(stage.alloc, &stage.image)?,
        refused,
    })
}

/// What comes of it on a stage.
fn came_of<R: Threads + Wait + Clock + Copy + Send + Sync + 'static>(
    stage: &Stage<R>,
    refused: Refused,
) -> Result<Came, Fail> {
    let program = idle_on(stage, refused)?;
    let gate = Arc::try_clone(&program.gate)?;
    let setup = Setup {
        frames: FRAMES,
        ..patient()
    };
    let supply = stage.supply(&[])?;
    let image = Vec::from_slice(stage.alloc, &stage.image)?;
    match serve(stage.alloc, stage.rt, image, &setup, supply, gate, program) {
        Ok(Some(came)) => Ok(came),
        _ => Err(Fail::from("not started, or not stopped")),
    }
}

/// Each call was answered, all was written to the idle service's media, and no more.
fn is_right<R: Wait + Clock + Copy>(stage: &Stage<R>, came: &Came) -> Result<(), Fail> {
    let is_idle = is_written(&came.idle, &stage.image);
    if !came.is_answered || !is_idle || came.left.as_slice() != came.idle.as_slice() {
        return Err(Fail::from("not answered, not written, or written later"));
    }
    stage.check_left(&came.left)
}

/// All that was changed is on the media of the idle service, and a last sync writes nothing more.
fn is_written_back<R: Threads + Wait + Clock + Copy + Send + Sync + 'static>(
    alloc: Global,
    rt: R,
    refused: Refused,
) -> Result<(), Fail> {
    let image = mkfs(alloc, BLOCKS, BLOCK as u32, 32, 50)?;
    let stage = Stage::new(alloc, rt, image, Holds::Flusher)?;
    let came = came_of(&stage, refused)?;
    is_right(&stage, &came)
}

/// Two hundred pages and what leads to them are written by the flusher alone.
#[test]
fn idle_service(rt: HostRuntime) -> Result<(), Fail> {
    is_written_back(rt.alloc(), rt, Refused::None)
}

/// The same of a service whose stop was refused since a session is left: its flusher goes on.
#[test]
fn service_that_was_kept(rt: HostRuntime) -> Result<(), Fail> {
    is_written_back(rt.alloc(), rt, Refused::WithSession)
}

/// The same of one whose stop was refused since a handle of its media was left.
#[test]
fn service_that_was_kept_for_its_media(rt: HostRuntime) -> Result<(), Fail> {
    is_written_back(rt.alloc(), rt, Refused::WithMedia)
}
