//! What is done with a service on the small volume.

use board::counting::parameters::ServiceParameters;
use board::counting::recorder::Recorder;
use file_server::FileServer;
use fixtures::{MOUNT_READS, patient, supply_at};
use fixtures_sessions::services::{many, stopped, two_in_turn};
use fixtures_sessions::watch::{Holds, PACE, Watch};
use modeldisk::FaultKind;
use serve::service::Service;
use service_start::program::Program;
use service_start::start::serve;
use std::alloc::{AllocError, Global};
use std::sync::{Arc, Wait};
use std::thread::Threads;
use std::time::Clock;
use tree::Call;

/// What is done.
pub(crate) enum What {
    /// Two sessions call in turn.
    InTurn,
    /// As many sessions are made as there are numbers, and one more.
    Many,
    /// A call is made, after which the service is stopped: when the last session has ended, or with its end.
    Stops(Call<'static>, bool),
}

/// What came of it: lines, where there was memory for them, and the image of a service that was stopped, or no bytes.
#[derive(Drop)]
pub(crate) struct Came {
    /// The lines.
    pub(crate) lines: String,
    /// The image.
    pub(crate) image: Vec<u8>,
}

/// One of these is done.
#[derive(Drop)]
struct Does<R: Clock + Copy> {
    alloc: Global,
    what: &'static What,
    gate: Arc<Watch<R>>,
}

impl<R: Threads + Wait + Clock + Copy + Send + Sync + 'static> Program<R> for Does<R> {
    type Output = Option<Came>;

    ghost gives = { λ program geometry opening output. Unit {0} };

    fn run<N: ServiceParameters, L: Recorder<N>, S: FileServer<L>>(
        self,
        service: Service<N, R, L, S>,
    ) -> Option<Came>
        ensures { Unit {0} }
    {
        let alloc = self.alloc;
        let mut lines = String::new(alloc);
        let image = match self.what {
            What::InTurn => two_in_turn(alloc, service, &mut lines)?,
            What::Many => many(alloc, service, &mut lines)?,
            What::Stops(call, has_ended) => {
                self.gate.let_go();
                stopped(service, call, *has_ended, &mut lines)?
            }
        };
        Some(Came { lines, image })
    }
}

/// What comes of it over a service of the volume in an image, whose driver has this fault in its first request after those of the mount.
pub(crate) fn served<R: Threads + Wait + Clock + Copy + Send + Sync + 'static>(
    alloc: Global,
    rt: R,
    image: &[u8],
    fault: Option<(u32, FaultKind)>,
    what: &'static What,
) -> Result<Option<Came>, AllocError> {
    let supply = supply_at(alloc, 128, MOUNT_READS + 1, &[fault])?;
    let gate = Arc::new(alloc, Watch::new(rt, Holds::Flusher, PACE))?;
    gate.hold();
    let does = Does {
        alloc,
        what,
        gate: Arc::try_clone(&gate)?,
    };
    let image = Vec::from_slice(alloc, image)?;
    match serve(alloc, rt, image, &patient(), supply, gate, does) {
        Ok(came) => Ok(came),
        Err(_) => Ok(None),
    }
}
