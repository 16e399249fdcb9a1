//! Sessions and services of `serve`, as an application has them.

ghost use Rattle.std.specs.Prelude.{◌≡◌, Ok};

use crate::files::Files;
use crate::served::Served;
use board::Device;
use board::counting::parameters::ServiceParameters;
use board::counting::recorder::Recorder;
use file_server::FileServer;
use serve::service::{Service, Shared};
use serve::session::Session;
use serve::stopping::{NoImage, image_left};
use shared_server::locked::LastSync;
use shared_server::refusal::SessionRefusal;
use std::alloc::{AllocError, Global};
use std::sync::Wait;
use std::thread::Threads;
use tree::{Call, Outcome};

impl<N: ServiceParameters, R: Wait + Copy, L: Recorder<N>, S: FileServer<L>> Files
    for Session<N, Shared<N, R, L, S>> {
    ghost state = { λ s. s };

    ghost sizes = { N.geometry };

    ghost opening = { N.opening };

    ghost Line = { L };

    ghost words = { L.Link };

    ghost marks = { L.marks };

    ghost put = { λ r. r ≡ Ok tt };

    fn call(&mut self, now: u32, call: &Call<'_>) -> Outcome {
        Session::call(self, now, call)
    }

    fn device(&mut self) -> Device {
        Session::device(self)
    }

    fn seen(&self) -> u64 {
        Session::seen(self)
    }

    fn end(self) {
        Session::end(self);
    }
}

impl<
    N: ServiceParameters + Send + Sync,
    R: Threads + Wait + Copy + Send + Sync,
    L: Recorder<N> + Send,
    S: FileServer<L> + Send,
> Served for Service<N, R, L, S> {
    type Session = Session<N, Shared<N, R, L, S>>;

    fn session(
        &self,
        uid: u16,
        gid: u16,
    ) -> Result<Session<N, Shared<N, R, L, S>>, SessionRefusal> {
        Service::session(self, uid, gid)
    }

    fn image(&self, alloc: Global) -> Result<Vec<u8>, AllocError> {
        Service::image(self, alloc)
    }

    fn stop(self) -> Result<(LastSync, Vec<u8>), NoImage> {
        image_left(Service::stop(self))
    }
}
