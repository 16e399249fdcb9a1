//! Making the sessions of scripts.

ghost use Rattle.std.specs.Prelude.{◌≡◌, All, IfErr, IfOk, map};
ghost use Rattle.shared_server.specs.Held.{IsNotAdmitted};
ghost use Rattle.call_text.specs.Said.{said};
ghost use Rattle.tools.specs.Turns.{IsUnplayed, asked};
ghost use Rattle.tools.specs.Vouched.{Vouched};
ghost use Rattle.tools.specs.Admitted.{IsAdmittedFor};

use crate::scripts::script_session::ScriptSession;
use crate::scripts::turns::Turn;
use board::counting::parameters::ServiceParameters;
use board::counting::recorder::Recorder;
use call_text::scripts::script::Script;
use file_server::FileServer;
use serve::service::Service;
use shared_server::refusal::SessionRefusal;
use std::alloc::Global;
use std::sync::Wait;
use std::thread::Threads;

/// A session for the script's user and group, and its calls. It is refused as the service's session is.
pub fn admit<
    's,
    N: ServiceParameters + Send + Sync,
    R: Threads + Wait + Copy + Send + Sync,
    L: Recorder<N> + Send,
    S: FileServer<L> + Send,
>(
    alloc: Global,
    service: &Service<N, R, L, S>,
    script: &'s Script<'_>,
) -> Result<Turn<'s, ScriptSession<N, R, L, S>>, SessionRefusal>
    ensures admitted { IfOk result (λ turn. IsAdmittedFor (Vouched L.truth N.geometry N.opening) (λ s. s.0) (said script.now) turn) }
    ensures refused { IfErr result (IsNotAdmitted L.Link L.numbers N.opening) }
{
    let session = service.session(script.uid, script.gid)?;
    let calls = script.calls(alloc)?;
    Ok(Turn {
        client: ScriptSession(session),
        calls,
    })
}

/// A session for each script, in their order: all are made before a call is. The first that is refused is told.
pub fn admit_all<
    's,
    N: ServiceParameters + Send + Sync,
    R: Threads + Wait + Copy + Send + Sync,
    L: Recorder<N> + Send,
    S: FileServer<L> + Send,
>(
    alloc: Global,
    service: &Service<N, R, L, S>,
    scripts: &'s [Script<'_>],
) -> Result<Vec<Turn<'s, ScriptSession<N, R, L, S>>>, SessionRefusal>
    ensures unplayed { IfOk result (λ turns. All (λ turn. IsUnplayed (Vouched L.truth N.geometry N.opening) turn.client.0) turns.items) }
    ensures asked { IfOk result (λ turns. map (asked (λ s. s.0)) turns.items ≡ map said scripts.now) }
    ensures refused { IfErr result (IsNotAdmitted L.Link L.numbers N.opening) }
{
    let mut turns = Vec::new(alloc);
    for script in scripts {
        let turn = admit(alloc, service, script)?;
        if turns.push(turn).is_err() {
            return Err(SessionRefusal::OutOfMemory);
        }
    }
    Ok(turns)
}
