//! The ends of services: the threads behind one end, whatever their drivers do, and what was written is left.

use board::counting::parameters::ServiceParameters;
use board::counting::recorder::Recorder;
use file_server::FileServer;
use fixtures::{ROOT, new_volume};
use fixtures_sessions::callers::told;
use fixtures_sessions::stage::Stage;
use fixtures_sessions::watch::{Holds, await_alone, await_count};
use fsck::{Verdict, check};
use modeldisk::{Fault, FaultKind};
use serve::service::Service;
use service_start::program::Program;
use std::alloc::Global;
use std::sync::{Arc, Wait};
use std::test::*;
use std::thread;
use std::thread::Threads;
use std::time::Clock;
use tests_texts::is_told;
use tree::{Call, PathFrom};

/// How a service ends.
#[derive(Clone, Copy, PartialEq, Eq)]
enum Ending {
    /// It is stopped.
    Stopped,
    /// It is stopped while its first driver hangs, which goes on once drivers are dropped.
    StoppedAtHang,
    /// It is let go while its first driver hangs, which goes on then.
    LetGo,
}

/// Lets the held driver go once it is held and some driver is dropped, in a thread of its own. Whether there is one.
fn lets_go_later<R: Threads + Wait + Clock + Copy + Send + Sync + 'static>(
    stage: &Stage<R>,
) -> Option<()> {
    let gate = Arc::try_clone(&stage.gate).ok()?;
    let notes = Arc::try_clone(&stage.notes).ok()?;
    let waits = move || {
        gate.awaits_held();
        await_count(notes.gone(), 1);
        gate.let_go();
    };
    thread::spawn(&stage.rt, waits).ok()?;
    Some(())
}

/// A session asks for the root, and changes its permissions while the first driver is held: its inode is at hand. A line for each answer.
fn changed_by<
    N: ServiceParameters,
    R: Threads + Wait + Clock + Copy,
    L: Recorder<N>,
    S: FileServer<L>,
>(stage: &Stage<R>, ending: Ending, service: &Service<N, R, L, S>) -> Option<String> {
    let mut lines = String::new(stage.alloc);
    let mut session = service.session(0, 0).ok()?;
    let path = PathFrom::root(b"/");
    told(&mut session, 100, &Call::Stat { path }, &mut lines);
    if ending != Ending::Stopped {
        stage.gate.hold();
    }
    let chmod = Call::Chmod { path, mode: 0o700 };
    told(&mut session, 100, &chmod, &mut lines);
    session.end();
    Some(lines)
}

/// A session changes the root, and the service ends so. A line for each answer, and the image, or no bytes where the service was let go.
fn end<N: ServiceParameters, R: Threads + Wait + Clock + Copy, L: Recorder<N>, S: FileServer<L>>(
    stage: &Stage<R>,
    ending: Ending,
    service: Service<N, R, L, S>,
) -> Option<(String, Vec<u8>)> {
    let lines = changed_by(stage, ending, &service)?;
    if ending == Ending::LetGo {
        stage.gate.awaits_held();
        drop(service);
        stage.gate.let_go();
        return Some((lines, Vec::new(stage.alloc)));
    }
    let image = service.stop().ok()?;
    Some((lines, image))
}

/// A session changes the root, and the service ends so.
#[derive(Drop)]
struct Ends<'s, R: Wait + Clock + Copy> {
    stage: &'s Stage<R>,
    ending: Ending,
}

impl<R: Threads + Wait + Clock + Copy + Send + Sync + 'static> Program<R> for Ends<'_, R> {
    /// A line for each answer, and the image, or no bytes where the service was let go.
    type Output = Option<(String, Vec<u8>)>;

    ghost gives = { λ program geometry opening output. Unit {0} };

    fn run<N: ServiceParameters, L: Recorder<N>, S: FileServer<L>>(
        self,
        service: Service<N, R, L, S>,
    ) -> Option<(String, Vec<u8>)>
        ensures { Unit {0} }
    {
        end(self.stage, self.ending, service)
    }
}

/// Where a service's first driver may hang: a new volume with blocks of this size.
fn stage_of<R: Wait + Clock + Copy>(alloc: Global, rt: R, block: usize) -> Result<Stage<R>, Fail> {
    let image = new_volume(alloc, block)?;
    Ok(Stage::new(alloc, rt, image, Holds::FirstDriver)?)
}

/// The lines of a session are those of `end`.
fn is_changed(alloc: Global, lines: &str) -> Result<(), Fail> {
    let mut wanted = String::new(alloc);
    write!(wanted, "{ROOT}ok\n")?;
    is_told(lines, wanted.as_str())
}

/// The image that a service leaves which ends so, over these drivers' faults. By then all its threads have ended, and all its drivers are
/// dropped.
fn ended<R: Threads + Wait + Clock + Copy + Send + Sync + 'static>(
    stage: &Stage<R>,
    faults: &[Fault],
    ending: Ending,
) -> Result<Vec<u8>, Fail> {
    if ending == Ending::StoppedAtHang {
        lets_go_later(stage).ok_or("no thread")?;
    }
    let came = stage.served(faults, Ends { stage, ending })?;
    let (lines, left) = came.ok_or("not ended")?;
    is_changed(stage.alloc, lines.as_str())?;
    await_alone(&stage.gate);
    await_count(stage.notes.gone(), 33);
    Ok(left)
}

/// The image that is left is a sound volume, and the one that was handed in, changed by the drivers' writes, of which there are so many at
/// least.
fn is_left<R: Wait + Clock + Copy>(
    stage: &Stage<R>,
    left: &[u8],
    least: usize,
) -> Result<(), Fail> {
    let is_clean = matches!(check(stage.alloc, left), Ok(Verdict::Clean(_)));
    if !is_clean || stage.notes.count() < least {
        return Err(Fail::from("not clean, or too few writes"));
    }
    stage.check_left(left)
}

/// A service is stopped while its first driver hangs: the next driver writes what the last sync is for, the first one writes nothing, and
/// all threads are joined.
#[test]
fn stopped_while_held(rt: HostRuntime) -> Result<(), Fail> {
    let stage = stage_of(rt.alloc(), rt, 1024)?;
    let left = ended(&stage, &[], Ending::StoppedAtHang)?;
    assert!(rt; !stage.notes.has_written(1));
    is_left(&stage, &left, 2)
}

/// A service is let go while its first driver hangs, which is then let go: all threads end by themselves.
#[test]
fn let_go(rt: HostRuntime) -> Result<(), Fail> {
    let stage = stage_of(rt.alloc(), rt, 1024)?;
    let _ = ended(&stage, &[], Ending::LetGo)?;
    assert!(rt; !stage.notes.has_written(1));
    Ok(())
}

/// The k-th driver dies in this request once k sectors less one are moved.
fn deaths(first: u32) -> [Fault; 8] {
    let mut faults = [Fault {
        request: 1,
        after: 0,
        kind: FaultKind::Die,
    }; 8];
    for (place, after) in faults.iter_mut().zip(0u32..) {
        place.after = after;
    }
    faults[0].request = first;
    faults
}

/// How many requests a mount of a volume of 64 blocks of 4096 bytes makes: one for its first 2048 bytes, and 64 for the others.
const READS: u32 = 65;

/// Eight drivers die in a write of eight sectors, the first one in its second request after the mount, each before another sector; the
/// ninth one writes all of them. Without those of spurious faults they are 0 to 7, and eight.
#[test]
fn dies_in_each_step(rt: HostRuntime) -> Result<(), Fail> {
    let stage = stage_of(rt.alloc(), rt, 4096)?;
    let left = ended(&stage, &deaths(READS + 2), Ending::Stopped)?;
    is_left(&stage, &left, 36)
}
