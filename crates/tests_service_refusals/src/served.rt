//! Sessions that are asked for where memory is refused, and a service that is stopped where none is granted.

use board::counting::parameters::ServiceParameters;
use board::counting::recorder::Recorder;
use file_server::FileServer;
use fixtures::orders::{refuse, was_refused};
use fixtures::{new_volume, patient};
use gate::paced_gate::Paced;
use modeldisk::supply::{drivers_for, table_in};
use serve::service::Service;
use serve::stopping::image_left;
use service_start::program::Program;
use service_start::start::serve;
use shared_server::refusal::SessionRefusal;
use std::alloc::Global;
use std::sync::{Arc, Wait};
use std::test::Fail;
use std::thread::Threads;

/// Asks for a session with the first request refused, then with the second, until none is.
#[derive(Drop)]
struct Asks(Global);

/// How many requests a session takes, at most.
const MOST: u32 = 100;

impl<R: Threads + Wait + Copy + Send + Sync + 'static> Program<R> for Asks {
    /// Whether each was refused for want of memory exactly where a request was, and the last one, with number 0, was made.
    type Output = bool;

    ghost gives = { λ program geometry opening output. Unit {0} };

    fn run<N: ServiceParameters, L: Recorder<N>, S: FileServer<L>>(
        self,
        service: Service<N, R, L, S>,
    ) -> bool
        ensures { Unit {0} }
    {
        for request in 1..=MOST {
            match self.asks(&service, request) {
                Some(is_last) if is_last => return true,
                Some(_) => {}
                None => return false,
            }
        }
        false
    }
}

impl Asks {
    /// Asks for a session with this request refused: whether it was made, with number 0, where no request was refused. None where it was
    /// refused or made otherwise.
    fn asks<N: ServiceParameters, R: Threads + Wait + Copy, L: Recorder<N>, S: FileServer<L>>(
        &self,
        service: &Service<N, R, L, S>,
        request: u32,
    ) -> Option<bool> {
        refuse(self.0, 8, request);
        let session = service.session(0, 0);
        let refused = was_refused(self.0);
        match session {
            Ok(session) if !refused && session.number() == 0 => Some(true),
            Err(SessionRefusal::OutOfMemory) if refused => Some(false),
            _other => None,
        }
    }
}

/// What comes of a program over a service on the volume in an image.
fn served<R: Threads + Wait + Copy + Send + Sync + 'static, P: Program<R>>(
    alloc: Global,
    rt: R,
    image: Vec<u8>,
    program: P,
) -> Result<P::Output, Fail> {
    let supply = drivers_for(alloc, 0, false, table_in(&image))?;
    let gate = Arc::new(alloc, Paced::new(rt))?;
    match serve(alloc, rt, image, &patient(), supply, gate, program) {
        Ok(came) => Ok(came),
        Err(_) => Err(Fail::from("not served")),
    }
}

#[test]
fn sessions_that_are_asked_for(rt: HostRuntime) -> Result<(), Fail> {
    let image = new_volume(rt.alloc(), 1024)?;
    if served(rt.alloc(), rt, image, Asks(rt.alloc()))? {
        return Ok(());
    }
    Err(Fail::from("a session"))
}

/// Stops the service while no request is granted.
#[derive(Drop)]
struct Stops(Global);

impl<R: Threads + Wait + Copy + Send + Sync + 'static> Program<R> for Stops {
    /// The image; none where there is none.
    type Output = Option<Vec<u8>>;

    ghost gives = { λ program geometry opening output. Unit {0} };

    fn run<N: ServiceParameters, L: Recorder<N>, S: FileServer<L>>(
        self,
        service: Service<N, R, L, S>,
    ) -> Option<Vec<u8>>
        ensures { Unit {0} }
    {
        refuse(self.0, 26, 0);
        let stopped = service.stop();
        was_refused(self.0);
        let (_, image) = image_left(stopped).ok()?;
        Some(image)
    }
}

/// A stop without memory leaves an image all the same: what was handed in, since no call was made.
#[test]
fn a_service_that_is_stopped(rt: HostRuntime) -> Result<(), Fail> {
    let image = new_volume(rt.alloc(), 1024)?;
    let handed = Vec::from_slice(rt.alloc(), &image)?;
    let left = served(rt.alloc(), rt, handed, Stops(rt.alloc()))?;
    if left.as_deref() == Some(image.as_slice()) {
        return Ok(());
    }
    Err(Fail::from("not stopped, or another image"))
}
