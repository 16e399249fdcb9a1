//! The changes of a service, taken behind syncs and put into a copy of the image.

use board::counting::parameters::ServiceParameters;
use board::counting::recorder::Recorder;
use changes::Changes;
use file_server::FileServer;
use fixtures::new_volume;
use fixtures_sessions::callers::{Caller, told};
use fixtures_sessions::stage::Stage;
use fixtures_sessions::watch::Holds;
use serve::service::Service;
use service_start::program::Program;
use std::alloc::Global;
use std::sync::Wait;
use std::test::*;
use std::thread::Threads;
use std::time::Clock;
use tests_texts::is_told;
use tree::{Call, PathFrom};

/// What is to be told: a directory is made and synced, and what changed makes the copy the image; then nothing has changed. Another one is
/// made and synced: the copy is behind. The changes are marked again, and taken again: the same units, which make the copy the image.
const TOLD: &str = "ok\nok\nsame\n0 units\nok\nok\nbehind\ntrue\nsame\n";

/// Makes a directory, and syncs.
fn made<C: Caller>(caller: &mut C, path: &[u8], lines: &mut String) {
    let path = PathFrom::root(path);
    told(caller, 100, &Call::Mkdir { path, mode: 0o755 }, lines);
    told(caller, 100, &Call::Sync, lines);
}

/// Puts a unit's bytes at a place of an image, as far as the image goes.
fn put_unit(image: &mut [u8], at: usize, unit: &[u8]) {
    for (place, byte) in image.iter_mut().skip(at).zip(unit) {
        *place = *byte;
    }
}

/// Puts changes into an image.
fn put(image: &mut [u8], changes: &Changes) {
    for (number, unit) in changes.numbers.iter().zip(&changes.units) {
        put_unit(image, *number as usize * 4096, unit);
    }
}

/// A copy of the image that a service was made of.
#[derive(Drop)]
struct Copies {
    alloc: Global,
    copy: Vec<u8>,
}

impl Copies {
    /// Adds a line: whether the copy is the image of the service.
    fn compare<N: ServiceParameters, R: Threads + Wait + Copy, L: Recorder<N>, S: FileServer<L>>(
        &self,
        service: &Service<N, R, L, S>,
        lines: &mut String,
    ) -> Option<()> {
        let image = service.image(self.alloc).ok()?;
        let how = if image.as_slice() == self.copy.as_slice() {
            "same"
        } else {
            "behind"
        };
        writeln!(lines, "{how}").ok()
    }

    /// The first directory: its changes are put, and then there are none.
    fn first<N: ServiceParameters, R: Threads + Wait + Copy, L: Recorder<N>, S: FileServer<L>>(
        &mut self,
        service: &Service<N, R, L, S>,
        lines: &mut String,
    ) -> Option<()> {
        put(&mut self.copy, &service.changes(self.alloc).ok()?);
        self.compare(service, lines)?;
        let none = service.changes(self.alloc).ok()?;
        let count = none.numbers.len();
        writeln!(lines, "{count} units").ok()
    }

    /// The second one: its changes aren't put at first.
    fn second<N: ServiceParameters, R: Threads + Wait + Copy, L: Recorder<N>, S: FileServer<L>>(
        &mut self,
        service: &Service<N, R, L, S>,
        lines: &mut String,
    ) -> Option<()> {
        let failed = service.changes(self.alloc).ok()?;
        self.compare(service, lines)?;
        service.mark_again(&failed);
        let again = service.changes(self.alloc).ok()?;
        let is_same = failed.numbers.as_slice() == again.numbers.as_slice();
        writeln!(lines, "{is_same}").ok()?;
        put(&mut self.copy, &again);
        self.compare(service, lines)
    }
}

impl<R: Threads + Wait + Clock + Copy + Send + Sync + 'static> Program<R> for Copies {
    type Output = Option<String>;

    ghost gives = { λ program geometry opening output. Unit {0} };

    fn run<N: ServiceParameters, L: Recorder<N>, S: FileServer<L>>(
        self,
        service: Service<N, R, L, S>,
    ) -> Option<String>
        ensures { Unit {0} }
    {
        let mut copies = self;
        let mut lines = String::new(copies.alloc);
        let mut session = service.session(0, 0).ok()?;
        made(&mut session, b"/d", &mut lines);
        copies.first(&service, &mut lines)?;
        made(&mut session, b"/e", &mut lines);
        copies.second(&service, &mut lines)?;
        session.end();
        service.stop().ok()?;
        Some(lines)
    }
}

/// What is told of it on a stage.
fn told_of<R: Threads + Wait + Clock + Copy + Send + Sync + 'static>(
    stage: &Stage<R>,
) -> Result<String, Fail> {
    let copies = Copies {
        alloc: stage.alloc,
        copy: Vec::from_slice(stage.alloc, &stage.image)?,
    };
    let lines = stage.served(&[], copies)?;
    Ok(lines.ok_or("no memory, or not stopped")?)
}

#[test]
fn taken(rt: HostRuntime) -> Result<(), Fail> {
    let image = new_volume(rt.alloc(), 1024)?;
    let stage = Stage::new(rt.alloc(), rt, image, Holds::Flusher)?;
    is_told(told_of(&stage)?.as_str(), TOLD)
}
