//! Scripts played at one time, each in a session of one service, which is stopped then.

ghost use Rattle.std.specs.Prelude.{Some, IfErr, IfOk, map};
ghost use Rattle.std.specs.Option.{option_map};
ghost use Rattle.shared_server.specs.Held.{HasEnded};
ghost use Rattle.serve.specs.Stopping.{IsLastImage};
ghost use Rattle.shared_server.specs.Finishing.{sync_of};
ghost use Rattle.call_text.specs.Said.{said};
ghost use Rattle.tools.specs.Turns.{ArePlayed, seen_by};
ghost use Rattle.tools.specs.Vouched.{Vouched};
ghost use Rattle.tools.specs.Served.{AreServed, IsUnservedBy, service_text};

use crate::scripts::admitting::admit_all;
use crate::scripts::script_session::ScriptSession;
use crate::scripts::turns::play_together;
use board::counting::parameters::ServiceParameters;
use board::counting::recorder::Recorder;
use call_text::scripts::script::Script;
use file_server::FileServer;
use reply_text::answers::Played;
use serve::service::Service;
use serve::stopping::{NoImage, image_left};
use shared_server::locked::LastSync;
use shared_server::refusal::SessionRefusal;
use std::alloc::Global;
use std::fmt;
use std::sync::Wait;
use std::thread::Threads;

/// Why no image comes of a service that started.
#[derive(Clone, Copy)]
pub enum ServiceRefusal {
    /// The service makes no session for a script, or no memory was found for its answers.
    NoSession(SessionRefusal),
    /// The service leaves no image.
    NoImage(NoImage),
}

impl fmt::Display for ServiceRefusal {
    ghost output = { λ r. Some (service_text r) };

    fn fmt<W: fmt::Write>(&self, f: &mut fmt::Formatter<W>) -> fmt::Result {
        match self {
            ServiceRefusal::NoSession(refusal) => write!(f, "{refusal}"),
            ServiceRefusal::NoImage(why) => write!(f, "{why}"),
        }
    }
}

/// What came of scripts.
#[derive(Drop)]
pub struct Came {
    /// Their sessions, in the order of the scripts.
    pub sessions: Vec<Played>,
    /// How the last sync went.
    pub last_sync: LastSync,
    /// The bytes of the image as the media stand once the service was stopped.
    pub image: Vec<u8>,
}

/// Plays scripts on a service at one time, each in a session and a thread of its own, and stops the service. The service's refusal of a
/// session is told as it is.
pub fn play_on<
    N: ServiceParameters + Send + Sync,
    R: Threads + Wait + Copy + Send + Sync,
    L: Recorder<N> + Send,
    S: FileServer<L> + Send,
>(
    alloc: Global,
    rt: &R,
    service: Service<N, R, L, S>,
    scripts: &[Script<'_>],
) -> Result<Came, ServiceRefusal>
    ensures served { IfOk result (λ came. AreServed (HasEnded L.Link N.opening) N.geometry N.opening (map said scripts.now)
        came.sessions.items came.last_sync came.image.items) }
    ensures unserved { IfErr result (IsUnservedBy L.Link L.numbers N.opening) }
{
    let (sessions, last) = play_all(alloc, rt, &service, scripts)?;
    match stop(service, last) {
        Ok((last_sync, image)) => Ok(Came {
            sessions,
            last_sync,
            image,
        }),
        Err(why) => Err(ServiceRefusal::NoImage(why)),
    }
}

/// Plays scripts, each in a session and a thread of its own; all sessions are made before a call is. What came of them, and the last
/// session, which goes on.
fn play_all<
    N: ServiceParameters + Send + Sync,
    R: Threads + Wait + Copy + Send + Sync,
    L: Recorder<N> + Send,
    S: FileServer<L> + Send,
>(
    alloc: Global,
    rt: &R,
    service: &Service<N, R, L, S>,
    scripts: &[Script<'_>],
) -> Result<(Vec<Played>, Option<ScriptSession<N, R, L, S>>), ServiceRefusal>
    ensures played { IfOk result (λ came. ArePlayed (Vouched L.truth N.geometry N.opening) (HasEnded L.Link N.opening)
        (map said scripts.now) came.0.items (seen_by (option_map (λ s. s.0) came.1))) }
    ensures unserved { IfErr result (IsUnservedBy L.Link L.numbers N.opening) }
{
    let turns = match admit_all(alloc, service, scripts) {
        Ok(turns) => turns,
        Err(refusal) => return Err(ServiceRefusal::NoSession(refusal)),
    };
    match play_together(rt, alloc, turns) {
        Ok(came) => Ok(came),
        Err(_) => Err(ServiceRefusal::NoSession(SessionRefusal::OutOfMemory)),
    }
}

/// Stops a service once this session has ended, if there was one. What came of its last sync, and the image as the media stand.
fn stop<N: ServiceParameters, R: Threads + Wait + Copy, L: Recorder<N>, S: FileServer<L>>(
    service: Service<N, R, L, S>,
    last: Option<ScriptSession<N, R, L, S>>,
) -> Result<(LastSync, Vec<u8>), NoImage>
    ensures { IfOk result (λ came.
        IsLastImage L.Link N.geometry N.opening (seen_by (option_map (λ s. s.0) last)) (sync_of came.0) came.1.items) }
{
    let Some(session) = last else {
        return image_left(service.stop());
    };
    image_left(service.stop_after(session.session()))
}
