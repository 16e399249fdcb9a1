//! A service over drivers of two kinds, in boxes.

use bdev::Driver;
use board::counting::parameters::ServiceParameters;
use board::counting::recorder::Recorder;
use file_server::FileServer;
use fixtures::{MOUNT_READS, ROOT, new_volume};
use fixtures_sessions::callers::told;
use fixtures_sessions::stage::patient;
use gate::paced_gate::Paced;
use media::partition::Table;
use modeldisk::{Fault, FaultKind, Inner, ModelDriver, RamDriver, ScriptedDriver};
use serve::service::Service;
use service_start::program::Program;
use service_start::start::serve;
use std::alloc::{AllocError, Global};
use std::sync::{Arc, Wait};
use std::test::*;
use std::thread::Threads;
use tests_texts::is_told;
use tree::{Call, PathFrom};

/// Asks for the root.
#[derive(Clone, Copy, Drop)]
struct Asks {
    alloc: Global,
}

impl<R: Threads + Wait + Copy + Send + Sync + 'static> Program<R> for Asks {
    type Output = Option<(String, Vec<u8>)>;

    ghost gives = { λ program geometry opening output. Unit {0} };

    fn run<N: ServiceParameters, L: Recorder<N>, S: FileServer<L>>(
        self,
        service: Service<N, R, L, S>,
    ) -> Option<(String, Vec<u8>)>
        ensures { Unit {0} }
    {
        let mut lines = String::new(self.alloc);
        let mut session = service.session(0, 0).ok()?;
        let path = PathFrom::root(b"/");
        told(&mut session, 100, &Call::Stat { path }, &mut lines);
        session.end();
        let image = service.stop().ok()?;
        Some((lines, image))
    }
}

/// A driver that dies in the first request behind the mount, and one of another kind.
fn drivers(alloc: Global) -> Result<Vec<Driver>, AllocError> {
    let table = Table::whole(128);
    let mut faults = Vec::new(alloc);
    faults.push(Fault {
        request: MOUNT_READS.saturating_add(1),
        after: 1,
        kind: FaultKind::Die,
    })?;
    let first = ScriptedDriver::new(Inner::Ram(RamDriver::new(table)), faults);
    let mut drivers: Vec<Driver> = Vec::new(alloc);
    drivers.push(Box::new(alloc, first)?)?;
    drivers.push(Box::new(alloc, ModelDriver::new(table, 0))?)?;
    Ok(drivers)
}

/// What comes of it over the volume in an image.
fn came_of<R: Threads + Wait + Copy + Send + Sync + 'static>(
    alloc: Global,
    rt: R,
    image: &[u8],
) -> Result<(String, Vec<u8>), Fail> {
    let drivers = drivers(alloc)?;
    let gate = Arc::new(alloc, Paced::new(rt))?;
    let image = Vec::from_slice(alloc, image)?;
    match serve(alloc, rt, image, &patient(), drivers, gate, Asks { alloc }) {
        Ok(Some(came)) => Ok(came),
        _ => Err(Fail::from("not started, or not stopped")),
    }
}

#[test]
fn drivers_in_boxes(rt: HostRuntime) -> Result<(), Fail> {
    let image = new_volume(rt.alloc(), 1024)?;
    let (lines, left) = came_of(rt.alloc(), rt, &image)?;
    assert!(rt; left.as_slice() == image.as_slice());
    is_told(lines.as_str(), ROOT)
}
