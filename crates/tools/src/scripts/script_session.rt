//! A session of a service, as one who plays a script needs it.

ghost use Rattle.std.specs.Prelude.{◌≡◌};

use crate::scripts::client::Client;
use board::counting::parameters::ServiceParameters;
use board::counting::recorder::Recorder;
use file_server::FileServer;
use serve::service::Shared;
use serve::session::Session;
use std::sync::Wait;
use tree::{Call, Outcome};

/// A session of a service, in which a script is played.
#[derive(Drop)]
pub struct ScriptSession<N: ServiceParameters, R: Wait + Copy, L: Recorder<N>, S: FileServer<L>>(
    pub(crate) Session<N, Shared<N, R, L, S>>,
);

impl<N: ServiceParameters, R: Wait + Copy, L: Recorder<N>, S: FileServer<L>> ScriptSession<
    N,
    R,
    L,
    S,
> {
    /// The session itself.
    pub fn session(self) -> Session<N, Shared<N, R, L, S>>
        ensures { result ≡ self.0 }
    {
        let ScriptSession(session) = self;
        session
    }
}

impl<
    N: ServiceParameters + Send + Sync,
    R: Wait + Copy + Send + Sync,
    L: Recorder<N> + Send,
    S: FileServer<L> + Send,
> Client for ScriptSession<N, R, L, S> {
    ghost use Rattle.tools.specs.Vouched.{Vouched};
    ghost use Rattle.shared_server.specs.Held.{HasEnded};

    ghost state = { λ s. s.0 };

    ghost vouches = { λ seen. Vouched L.truth N.geometry N.opening seen };

    ghost ended = { λ seen. HasEnded L.Link N.opening seen };

    fn number(&self) -> u8 {
        self.0.number()
    }

    fn call(&mut self, now: u32, call: &Call<'_>) -> Outcome {
        self.0.call(now, call)
    }

    fn meet(&mut self, other: &mut Self) {
        self.0.meet(&mut other.0);
    }

    fn end(self) {
        let ScriptSession(session) = self;
        session.end();
    }
}
