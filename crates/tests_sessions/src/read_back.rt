//! What one session writes while its driver dies, another one reads, and a further service.

use board::counting::parameters::ServiceParameters;
use board::counting::recorder::Recorder;
use file_server::FileServer;
use fixtures::{MOUNT_READS, new_volume};
use fixtures_sessions::callers::{Caller, told};
use fixtures_sessions::stage::Stage;
use fixtures_sessions::watch::{Holds, Watch};
use fsck::{Verdict, check};
use modeldisk::{Fault, FaultKind};
use serve::service::Service;
use service_start::program::Program;
use std::alloc::Global;
use std::sync::{Arc, Wait};
use std::test::*;
use std::thread::Threads;
use std::time::Clock;
use tests_texts::is_told;
use tree::{Call, OpenFlags, PathFrom};

/// The flags of the first session's open: what it writes goes to the end of a file that it may make.
fn rwac() -> OpenFlags {
    OpenFlags::READ | OpenFlags::WRITE | OpenFlags::APPEND | OpenFlags::CREATE
}

/// In which request after those of the mount the first driver dies: the first session's open reads the inode table, the root's entries and
/// the map of inodes; its write then reads the map of zones.
const DIES_IN: u32 = MOUNT_READS + 4;

/// Opens the file, by these flags.
fn opening(flags: OpenFlags) -> Call<'static> {
    Call::Open {
        path: PathFrom::root(b"/f"),
        flags,
        mode: 0o644,
    }
}

/// Two sessions: one writes, the other reads.
#[derive(Drop)]
struct WritesAndReads<R: Clock + Copy> {
    alloc: Global,
    gate: Arc<Watch<R>>,
}

/// What came of it: a line for each answer, and whether the sessions had seen equally many marks once they met; whether a later driver
/// had taken a step before the write's end; and the image that is left.
#[derive(Drop)]
struct Came {
    lines: String,
    is_equal: bool,
    has_died: bool,
    image: Vec<u8>,
}

/// The first session writes, they meet, and the second one reads. Whether both then gave the same number of marks, and whether the driver
/// had died by then.
fn write_and_read<R: Clock + Copy, C: Caller>(
    gate: &Watch<R>,
    one: &mut C,
    two: &mut C,
    lines: &mut String,
) -> (bool, bool) {
    told(one, 100, &opening(rwac()), lines);
    told(two, 100, &opening(OpenFlags::READ), lines);
    told(one, 101, &Call::Write { fd: 0, bytes: b"a" }, lines);
    let has_died = gate.later() > 0;
    one.meets(two);
    let is_equal = one.marks() == two.marks();
    told(two, 102, &Call::Read { fd: 0, count: 9 }, lines);
    let path = PathFrom::root(b"/f");
    told(two, 102, &Call::Stat { path }, lines);
    (is_equal, has_died)
}

impl<R: Threads + Wait + Clock + Copy + Send + Sync + 'static> Program<R> for WritesAndReads<R> {
    type Output = Option<Came>;

    ghost gives = { λ program geometry opening output. Unit {0} };

    fn run<N: ServiceParameters, L: Recorder<N>, S: FileServer<L>>(
        self,
        service: Service<N, R, L, S>,
    ) -> Option<Came>
        ensures { Unit {0} }
    {
        let mut lines = String::new(self.alloc);
        let (is_equal, has_died) = self.calls_in(&service, &mut lines)?;
        self.gate.let_go();
        let image = service.stop().ok()?;
        Some(Came {
            lines,
            is_equal,
            has_died,
            image,
        })
    }
}

impl<R: Clock + Copy> WritesAndReads<R> {
    /// Calls in two sessions of a service, which then end. Whether both gave the same number of marks, and whether the driver had died.
    fn calls_in<N: ServiceParameters, L: Recorder<N>, S: FileServer<L>>(
        &self,
        service: &Service<N, R, L, S>,
        lines: &mut String,
    ) -> Option<(bool, bool)>
    where
        R: Threads + Wait,
    {
        let mut one = service.session(0, 0).ok()?;
        let mut two = service.session(0, 0).ok()?;
        let came = write_and_read(&self.gate, &mut one, &mut two, lines);
        one.end();
        two.end();
        Some(came)
    }
}

/// A session of a further service, which reads.
#[derive(Drop)]
struct Reads {
    alloc: Global,
}

impl<R: Threads + Wait + Clock + Copy + Send + Sync + 'static> Program<R> for Reads {
    type Output = Option<String>;

    ghost gives = { λ program geometry opening output. Unit {0} };

    fn run<N: ServiceParameters, L: Recorder<N>, S: FileServer<L>>(
        self,
        service: Service<N, R, L, S>,
    ) -> Option<String>
        ensures { Unit {0} }
    {
        let mut lines = String::new(self.alloc);
        let mut session = service.session(0, 0).ok()?;
        told(&mut session, 200, &opening(OpenFlags::READ), &mut lines);
        told(
            &mut session,
            200,
            &Call::Read { fd: 0, count: 9 },
            &mut lines,
        );
        session.end();
        service.stop().ok()?;
        Some(lines)
    }
}

/// What a further service over an image reads from the file.
fn is_read<R: Threads + Wait + Clock + Copy + Send + Sync + 'static>(
    alloc: Global,
    rt: R,
    image: Vec<u8>,
) -> Result<(), Fail> {
    let stage = Stage::new(alloc, rt, image, Holds::Flusher)?;
    let lines = stage.served(&[], Reads { alloc })?.ok_or("not stopped")?;
    is_told(lines.as_str(), "fd 0\nbytes 61\n")
}

/// The first driver's fault.
const DEATH: Fault = Fault {
    request: DIES_IN,
    after: 1,
    kind: FaultKind::Die,
};

/// What comes of two sessions of which one writes while the first driver dies, and the other reads.
fn came_of<R: Threads + Wait + Clock + Copy + Send + Sync + 'static>(
    stage: &Stage<R>,
) -> Result<Came, Fail> {
    stage.gate.hold();
    let program = WritesAndReads {
        alloc: stage.alloc,
        gate: Arc::try_clone(&stage.gate)?,
    };
    Ok(stage.served(&[DEATH], program)?.ok_or("not stopped")?)
}

/// The lines of both sessions.
const LINES: &str = "fd 0
fd 0
wrote 1
bytes 61
inode 2 mode 0100644 links 1 uid 0 gid 0 size 1 times 100 101 101
";

/// So it came, with a sound volume.
fn is_right(alloc: Global, came: &Came) -> Result<(), Fail> {
    is_told(came.lines.as_str(), LINES)?;
    let is_clean = matches!(check(alloc, &came.image), Ok(Verdict::Clean(_)));
    if came.is_equal && came.has_died && is_clean {
        return Ok(());
    }
    Err(Fail::from("not equal, not died, or not clean"))
}

/// What the first session writes while the first driver dies, the second one reads. The image that is left is a sound volume, and the one
/// handed in, changed by what the drivers wrote; a further service reads the file there.
#[test]
fn read_back(rt: HostRuntime) -> Result<(), Fail> {
    let alloc = rt.alloc();
    let image = new_volume(alloc, 1024)?;
    let stage = Stage::new(alloc, rt, image, Holds::Flusher)?;
    let came = came_of(&stage)?;
    is_right(alloc, &came)?;
    stage.check_left(&came.image)?;
    is_read(alloc, rt, came.image)
}
