//! Sixty-four sessions write files of their own, in threads of their own, while drivers die.

use crate::at_once::{Came, What, at_once};
use board::counting::parameters::ServiceParameters;
use board::counting::recorder::Recorder;
use file_server::FileServer;
use fixtures_sessions::callers::Caller;
use fixtures_sessions::stage::Stage;
use fixtures_sessions::watch::Holds;
use modeldisk::{Fault, FaultKind};
use new_volume::mkfs;
use serve::service::{Service, Shared};
use serve::session::Session;
use std::alloc::Global;
use std::sync::Wait;
use std::test::*;
use std::thread;
use std::thread::Threads;
use std::time::Clock;
use tree::{Call, OpenFlags, Outcome, PathFrom, Reply};

/// How many sessions there are.
const SESSIONS: u8 = 64;

/// How many bytes a write has, and how many writes each session makes.
const PIECE: usize = 1500;

const PIECES: u8 = 2;

/// How many blocks of 4096 bytes the volume has.
const BLOCKS: u32 = 96;

/// Each driver dies in its 26th request, when those before it have moved 200 sectors, eight each.
const FAULT: Fault = Fault {
    request: 26,
    after: 0,
    kind: FaultKind::Die,
};

/// How many drivers there are: more than die, so that some may be replaced which only wait for a processor.
const DRIVERS: usize = 150;

/// How many milliseconds a tick takes: few, since a driver is started at the tick behind a death.
const PACE: u64 = 20;

/// The path of a session's file.
fn path(number: u8) -> [u8; 3] {
    [b'/', b'a' + number / 16, b'a' + number % 16]
}

/// The byte that a session writes in its so-manieth piece.
fn byte(number: u8, piece: u8) -> u8 {
    number.wrapping_mul(PIECES).wrapping_add(piece)
}

/// Opens a session's file.
fn opened<C: Caller>(session: &mut C, number: u8, flags: OpenFlags) -> bool {
    let name = path(number);
    let open = Call::Open {
        path: PathFrom::root(&name),
        flags,
        mode: 0o644,
    };
    session.make(100, &open) == Outcome::Reply(Reply::Descriptor(0))
}

/// A session makes its file and writes its pieces there. Whether each call was answered so.
fn has_written<C: Caller>(session: &mut C, number: u8) -> bool {
    let flags = OpenFlags::READ | OpenFlags::WRITE | OpenFlags::CREATE;
    let mut is_right = opened(session, number, flags);
    for piece in 0..PIECES {
        let bytes = [byte(number, piece); PIECE];
        let written = session.make(
            100,
            &Call::Write {
                fd: 0,
                bytes: &bytes,
            },
        );
        is_right = is_right && written == Outcome::Reply(Reply::Wrote(PIECE as u32));
    }
    is_right
}

/// Whether a session's file has its bytes and no more.
fn has_bytes<C: Caller>(session: &mut C, number: u8) -> bool {
    let mut is_right = opened(session, number, OpenFlags::READ);
    for piece in 0..PIECES {
        let read = Call::Read {
            fd: 0,
            count: PIECE as u32,
        };
        is_right = is_right
            && match session.make(200, &read) {
                Outcome::Reply(Reply::Bytes(bytes)) => bytes.as_slice()
                    == [byte(number, piece); PIECE].as_slice(),
                _other => false,
            };
    }
    let end = session.make(200, &Call::Read { fd: 0, count: 1 });
    let is_end = match end {
        Outcome::Reply(Reply::Bytes(bytes)) => bytes.is_empty(),
        _other => false,
    };
    let closed = session.make(200, &Call::Close { fd: 0 });
    is_right && is_end && closed == Outcome::Reply(Reply::Done)
}

/// A session writes its file, and ends. Whether all was done.
fn writes<N: ServiceParameters, R: Threads + Wait + Copy, L: Recorder<N>, S: FileServer<L>>(
    number: u8,
    mut session: Session<N, Shared<N, R, L, S>>,
) -> bool {
    let is_right = has_written(&mut session, number);
    session.end();
    is_right
}

/// As many sessions as there are numbers, with their numbers.
fn sessions<N: ServiceParameters, R: Threads + Wait + Copy, L: Recorder<N>, S: FileServer<L>>(
    alloc: Global,
    service: &Service<N, R, L, S>,
) -> Option<Vec<(u8, Session<N, Shared<N, R, L, S>>)>> {
    let mut all = Vec::new(alloc);
    for number in 0..SESSIONS {
        all.push((number, service.session(0, 0).ok()?)).ok()?;
    }
    Some(all)
}

/// Each session writes its file in a thread of its own. Whether all was done by each.
pub(crate) fn write_all<
    N: ServiceParameters + Send + Sync,
    R: Threads + Wait + Copy + Send + Sync,
    L: Recorder<N> + Send,
    S: FileServer<L> + Send,
>(alloc: Global, rt: &R, service: &Service<N, R, L, S>) -> Option<bool> {
    let jobs = sessions(alloc, service)?;
    let done = thread::map_vec(
        rt,
        jobs,
        &|job: (u8, Session<N, Shared<N, R, L, S>>)| -> bool { writes(job.0, job.1) },
    )
    .ok()?;
    Some(done.iter().all(|is_right| *is_right))
}

/// One session reads all files, and ends. Whether each has its bytes.
pub(crate) fn has_all<
    N: ServiceParameters,
    R: Threads + Wait + Copy,
    L: Recorder<N>,
    S: FileServer<L>,
>(service: &Service<N, R, L, S>) -> Option<bool> {
    let mut session = service.session(0, 0).ok()?;
    let mut is_right = true;
    for number in 0..SESSIONS {
        is_right = has_bytes(&mut session, number) && is_right;
    }
    session.end();
    Some(is_right)
}

/// It is done over the volume in an image, while drivers die. The image that is left.
fn done<R: Threads + Wait + Clock + Copy + Send + Sync + 'static>(
    alloc: Global,
    rt: R,
    image: Vec<u8>,
    what: What,
) -> Result<Vec<u8>, Fail> {
    let stage = Stage::paced(alloc, rt, image, Holds::Flusher, PACE)?;
    let (came, left) = at_once(&stage, &[FAULT; DRIVERS], what)?;
    if !matches!(came, Came::Files(true)) || stage.gate.later() == 0 {
        return Err(Fail::from("not all was answered, or no driver died"));
    }
    stage.check_left(&left)?;
    Ok(left)
}

/// Each session's file has its bytes, as another service finds them.
#[test]
fn many_sessions(rt: HostRuntime) -> Result<(), Fail> {
    let alloc = rt.alloc();
    let image = mkfs(alloc, BLOCKS, 4096, 128, 50)?;
    let left = done(alloc, rt, image, What::Write)?;
    let again = done(alloc, rt, Vec::from_slice(alloc, &left)?, What::Read)?;
    assert!(rt; again.as_slice() == left.as_slice());
    Ok(())
}
