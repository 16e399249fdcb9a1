//! A service that is stopped while a session is left.

use board::counting::parameters::ServiceParameters;
use board::counting::recorder::Recorder;
use file_server::FileServer;
use fixtures::new_volume;
use fixtures_sessions::callers::told;
use fixtures_sessions::stage::Stage;
use fixtures_sessions::watch::Holds;
use fsck::{Verdict, check};
use serve::service::Service;
use serve::stopping::StopRefusal;
use service_start::program::Program;
use std::alloc::Global;
use std::sync::Wait;
use std::test::*;
use std::thread::Threads;
use std::time::Clock;
use tests_texts::is_told;
use tree::{Call, PathFrom};

/// A session makes a directory, the service is stopped, and once more when the session has ended.
#[derive(Drop)]
struct StopsTwice {
    alloc: Global,
}

impl<R: Threads + Wait + Clock + Copy + Send + Sync + 'static> Program<R> for StopsTwice {
    /// A line for the answer, and the image. None where the first stop isn't refused since a session is left, or the second one is.
    type Output = Option<(String, Vec<u8>)>;

    ghost gives = { λ program geometry opening output. Unit {0} };

    fn run<N: ServiceParameters, L: Recorder<N>, S: FileServer<L>>(
        self,
        service: Service<N, R, L, S>,
    ) -> Option<(String, Vec<u8>)>
        ensures { Unit {0} }
    {
        let mut lines = String::new(self.alloc);
        let mut session = service.session(0, 0).ok()?;
        let mkdir = Call::Mkdir {
            path: PathFrom::root(b"/d"),
            mode: 0o755,
        };
        told(&mut session, 100, &mkdir, &mut lines);
        let Err(StopRefusal::SessionsLeft(service)) = service.stop() else {
            return None;
        };
        session.end();
        let image = service.stop().ok()?;
        Some((lines, image))
    }
}

/// What comes of it over the volume in an image.
fn came_of<R: Threads + Wait + Clock + Copy + Send + Sync + 'static>(
    alloc: Global,
    rt: R,
    image: &[u8],
) -> Result<(String, Vec<u8>), Fail> {
    let stage = Stage::new(alloc, rt, Vec::from_slice(alloc, image)?, Holds::Flusher)?;
    let came = stage.served(&[], StopsTwice { alloc })?;
    Ok(came.ok_or("not refused, or not stopped")?)
}

/// The volume that is left is sound, and another one than it was.
fn is_sound(alloc: Global, image: &[u8], left: &[u8]) -> Result<(), Fail> {
    if matches!(check(alloc, left), Ok(Verdict::Clean(_))) && left != image {
        return Ok(());
    }
    Err(Fail::from("not clean, or nothing was written"))
}

/// A stop with a session is refused, and the service goes on; once the session has ended it gives a sound volume, to which the directory
/// was written.
#[test]
fn left(rt: HostRuntime) -> Result<(), Fail> {
    let image = new_volume(rt.alloc(), 1024)?;
    let (lines, left) = came_of(rt.alloc(), rt, &image)?;
    is_told(lines.as_str(), "ok\n")?;
    is_sound(rt.alloc(), &image, &left)
}
