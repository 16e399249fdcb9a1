//! What waits for nobody: it comes back while another session's call waits under the server's lock.

ghost use Rattle.std.specs.Prelude.{◌≡◌};

use crate::at_once::{Came, What, at_once};
use board::counting::parameters::ServiceParameters;
use board::counting::recorder::Recorder;
use board::{Board, Device, Seat};
use file_server::FileServer;
use fixtures::{MOUNT_READS, ROOT, new_volume};
use fixtures_sessions::callers::told;
use fixtures_sessions::stage::Stage;
use fixtures_sessions::watch::{Holds, Watch};
use serve::service::{Service, Shared};
use serve::session::Session;
use std::alloc::Global;
use std::process::Abort;
use std::sync::{Arc, Wait};
use std::test::*;
use std::thread::{Threads, join};
use std::time::Clock;
use tests_texts::is_told;
use tree::{Call, PathFrom};

/// A beat, and how many marks there are, which driver was started last, and the greatest beat, by this seat.
fn felt(board: &Board, seat: &mut Seat) -> (u64, u32, (u32, u32))
    requires { seat.old.table ≡ board.now }
{
    board.beat(seat, 3, 7);
    (board.tally(seat), board.current(seat), board.pulse(seat))
}

/// Two sessions meet: how many marks each has seen then, and whether the device was given up. It is handed nothing that may wait.
fn looked_at<N: ServiceParameters, S>(one: &mut Session<N, S>, two: &mut Session<N, S>) -> Looked {
    one.meet(two);
    (one.seen(), two.seen(), one.device())
}

/// How many marks each of two sessions that met has seen, and the device's state.
pub(crate) type Looked = (u64, u64, Device);

/// A session asks for the root, and ends.
fn calls<N: ServiceParameters, R: Threads + Wait + Copy, L: Recorder<N>, S: FileServer<L>>(
    alloc: Global,
    mut session: Session<N, Shared<N, R, L, S>>,
) -> String {
    let mut lines = String::new(alloc);
    let path = PathFrom::root(b"/");
    told(&mut session, 100, &Call::Stat { path }, &mut lines);
    session.end();
    lines
}

/// Two sessions look while a driver is held, which is then let go, and end.
fn look<N: ServiceParameters, R: Threads + Wait + Clock + Copy, L: Recorder<N>, S: FileServer<L>>(
    gate: &Watch<R>,
    mut one: Session<N, Shared<N, R, L, S>>,
    mut two: Session<N, Shared<N, R, L, S>>,
) -> Option<Looked> {
    gate.awaits_held();
    let seen = looked_at(&mut one, &mut two);
    let is_still_held = gate.passed() == 0;
    gate.let_go();
    one.end();
    two.end();
    if is_still_held { Some(seen) } else { None }
}

/// Two sessions of user 0.
fn two_sessions<N: ServiceParameters, R: Threads + Wait + Copy, L: Recorder<N>, S: FileServer<L>>(
    service: &Service<N, R, L, S>,
) -> Option<
    (
        Session<N, Shared<N, R, L, S>>,
        Session<N, Shared<N, R, L, S>>,
    ),
> {
    let one = service.session(0, 0).ok()?;
    let two = service.session(0, 0).ok()?;
    Some((one, two))
}

/// One session calls while drivers are held, and two others look meanwhile; all three end. What the first is answered, and what the others
/// saw, if the call was held then.
pub(crate) fn look_meanwhile<
    N: ServiceParameters + Send + Sync,
    R: Threads + Wait + Clock + Copy + Send + Sync,
    L: Recorder<N> + Send,
    S: FileServer<L> + Send,
>(
    alloc: Global,
    rt: &R,
    watch: &Arc<Watch<R>>,
    service: &Service<N, R, L, S>,
) -> Option<(String, Option<Looked>)> {
    let gate: &Watch<R> = watch;
    let one = service.session(0, 0).ok()?;
    let (two, three) = two_sessions(service)?;
    gate.hold();
    Some(join(
        rt,
        move || calls(alloc, one),
        move || look(gate, two, three),
    ))
}

/// What comes of it over the small volume: the lines of the one, and what the others saw.
fn looked<R: Threads + Wait + Clock + Copy + Send + Sync + 'static>(
    stage: &Stage<R>,
) -> Result<(String, Looked), Fail> {
    let (came, _) = at_once(stage, &[], What::Look)?;
    match came {
        Came::Looked(lines, seen) => Ok((lines, seen.ok_or("no driver was held")?)),
        _other => Err(Fail::from("not looked")),
    }
}

/// The board's calls come back, of a board of its own.
#[test]
fn board_waits_for_nobody(rt: HostRuntime) -> Result<(), Fail> {
    let (board, mut seat) = Board::new(rt.alloc())?;
    assert_eq!(rt; felt(&board, &mut seat), (0, 0, (3, 7)));
    Ok(())
}

/// The marks of both, and the device.
fn are_seen(rt: &impl Abort, (one, two, device): Looked) {
    assert!(rt; one == two && one >= u64::from(MOUNT_READS) + 1);
    assert_eq!(rt; device, Device::Live);
}

/// The marks at the start are the first driver's start and its answers to the mount's reads; of more drivers there are more.
#[test]
fn no_wait(rt: HostRuntime) -> Result<(), Fail> {
    let image = new_volume(rt.alloc(), 1024)?;
    let stage = Stage::new(rt.alloc(), rt, image, Holds::Drivers)?;
    let (lines, seen) = looked(&stage)?;
    are_seen(&rt, seen);
    is_told(lines.as_str(), ROOT)
}
