//! The sessions of a service by which messages are answered, one for each user who is attached, and the changes behind each sync.

ghost use Rattle.std.specs.Prelude.{◌≡◌, ◌≢◌, ◌↔◌, ℕ, [], IfNone, IfSome, IsTrue, Some, is_some, slice_get};
ghost use Rattle.records.specs.Marks.{IsBeginning};
ghost use Rattle.records.specs.Session.{SessionState};
ghost use Rattle.mount_service.specs.Spoken.{HaveSeen, IsAnswered};
ghost use Rattle.talks.specs.declared.ask.Leaving.{Leaving};

use archive::{Archive, Begins, SharedArchive};
use board::counting::parameters::ServiceParameters;
use board::counting::recorder::Recorder;
use errno::Errno;
use file_server::FileServer;
use serve::service::{Service, Shared};
use serve::session::Session;
use shared_server::refusal::SessionRefusal;
use std::alloc::Global;
use std::marker::Model;
use std::sync::{Arc, Wait};
use std::thread::Threads;
use talks::ask::Leaving;
use talks::sessions::{EnterRefusal, Sessions};
use tree::{Call, Outcome, Reply};

/// Sessions of a service, which were made one after the other, one of the mount's own, and the archive into which changes are put behind a
/// sync, if there is one.
#[derive(Drop)]
pub struct ServiceSessions<
    's,
    N: ServiceParameters,
    R: Wait + Copy,
    L: Recorder<N>,
    S: FileServer<L>,
    F: Begins<A>,
    A: Archive + Drop,
> {
    service: &'s Service<N, R, L, S>,
    sessions: Vec<Session<N, Shared<N, R, L, S>>>,
    // It makes no call, and meets each session that ends: so what any of them had seen, it has.
    own: Session<N, Shared<N, R, L, S>>,
    shared: Option<Arc<SharedArchive<N, R, F, A>>>,
}

impl<
    's,
    N: ServiceParameters,
    R: Wait + Copy,
    L: Recorder<N>,
    S: FileServer<L>,
    F: Begins<A>,
    A: Archive + Drop,
> Model for ServiceSessions<'s, N, R, L, S, F, A> {
    ghost use Rattle.std.specs.Prelude.{is_some};
    ghost use Rattle.mount_service.specs.Spoken.{Users, users};

    ghost Value = { Users };

    ghost view = { λ s. users s.sessions.items s.own.knows.seen (is_some s.shared) };
}

impl<
    's,
    N: ServiceParameters,
    R: Threads + Wait + Copy,
    L: Recorder<N>,
    S: FileServer<L>,
    F: Begins<A>,
    A: Archive + Drop,
> ServiceSessions<'s, N, R, L, S, F, A> {
    ghost use Rattle.std.specs.Prelude.{is_some};
    ghost use Rattle.records.specs.Marks.{IsBeginning};
    ghost use Rattle.mount_service.specs.Spoken.{users, AreAllGone, HaveLeft, HaveSeen};

    /// None of this service but the mount's own. Its changes go to this archive.
    pub(crate) fn new(
        alloc: Global,
        service: &'s Service<N, R, L, S>,
        own: Session<N, Shared<N, R, L, S>>,
        shared: Option<Arc<SharedArchive<N, R, F, A>>>,
    ) -> ServiceSessions<'s, N, R, L, S, F, A>
        ensures { result ≡ users [] own.knows.seen (is_some shared) }
    {
        ServiceSessions {
            service,
            sessions: Vec::new(alloc),
            own,
            shared,
        }
    }

    /// Ends all sessions but the mount's own, which has then seen all that they had.
    pub(crate) fn end(mut self) -> Session<N, Shared<N, R, L, S>>
        ensures more { IsBeginning self.entry.met result.knows.seen }
        ensures met { HaveSeen self.entry.sessions result.knows.seen }
    {
        self.end_in_turn();
        let ServiceSessions { own, .. } = self;
        own
    }

    /// Ends the session of this number, if there is one, between syncs of the keeper.
    fn end_one(&mut self, number: u8)
        ensures { HaveLeft self.old (Leaving.One number) self.new }
    {
        let Some(place) = place_of(self.sessions.as_slice(), number) else {
            return;
        };
        let mut session = self.sessions.remove(place);
        self.own.meet(&mut session);
        match &self.shared {
            Some(shared) => {
                let _turn = shared.turn();
                session.end();
            }
            None => session.end(),
        }
    }

    /// Ends all sessions, between syncs of the keeper: what they left open is closed, which changes the volume.
    fn end_in_turn(&mut self)
        ensures { AreAllGone self.old self.new }
    {
        match &self.shared {
            Some(shared) => {
                let _turn = shared.turn();
                end_all(&mut self.sessions, &mut self.own);
            }
            None => end_all(&mut self.sessions, &mut self.own),
        }
    }
}

impl<
    N: ServiceParameters + Send + Sync + 'static,
    R: Threads + Wait + Copy + Send + Sync + 'static,
    L: Recorder<N> + Send + 'static,
    S: FileServer<L> + Send + 'static,
    F: Begins<A> + Send + Sync + 'static,
    A: Archive + Drop + Send + 'static,
> Sessions for ServiceSessions<'_, N, R, L, S, F, A> {
    ghost use Rattle.mount_service.specs.Spoken.{MayAnswer, IsEntered, HaveLeft};

    ghost called = { MayAnswer A.puts N.geometry N.opening };

    ghost entered = { IsEntered };

    ghost left = { HaveLeft };

    /// A session of the service, as it makes one.
    fn enter(&mut self, uid: u16, gid: u16) -> Result<u8, EnterRefusal> {
        if self.sessions.try_reserve(1).is_err() {
            return Err(EnterRefusal::OutOfMemory);
        }
        match self.service.session(uid, gid) {
            Ok(session) => {
                let number = session.number();
                self.sessions.push_reserved(session);
                Ok(number)
            }
            Err(refusal) => Err(refusal_of(refusal)),
        }
    }

    /// A call of the session of this number; EINVAL where there is none. Behind a sync that was done the changes are put into the archive,
    /// and where that is refused, so is the sync.
    fn call(&mut self, session: u8, now: u32, call: &Call<'_>) -> Outcome {
        let Some(place) = place_of(self.sessions.as_slice(), session) else {
            return Outcome::Reply(Reply::Refused(Errno::EINVAL));
        };
        let session = &mut self.sessions[place];
        call_and_keep(&self.shared, session, now, call)
    }

    /// Ends all sessions, the last one first, or the one of this number, if there is one.
    fn leave(&mut self, who: Leaving) {
        match who {
            Leaving::All => self.end_in_turn(),
            Leaving::One(number) => self.end_one(number),
        }
    }
}

/// A call of this session, and what becomes of the changes behind a sync that was done: they are put into the archive, if there is one.
fn call_and_keep<
    N: ServiceParameters,
    R: Wait + Copy,
    L: Recorder<N>,
    S: FileServer<L>,
    F: Begins<A>,
    A: Archive + Drop,
>(
    shared: &Option<Arc<SharedArchive<N, R, F, A>>>,
    session: &mut Session<N, Shared<N, R, L, S>>,
    now: u32,
    call: &Call<'_>,
) -> Outcome
    ensures { IsAnswered A.puts N.geometry N.opening (is_some shared.now) session.old now call.now result session.new }
{
    let Some(shared) = shared else {
        return session.call(now, call);
    };
    shared.call(session, now, call)
}

/// The place of the session of this number.
fn place_of<N: ServiceParameters, S>(sessions: &[Session<N, S>], number: u8) -> Option<usize>
    ensures some { IfSome result (λ place. (it : SessionState) × (slice_get sessions.now place ≡ Some it) × (it.knows.number ≡ number)) }
    ensures none { IfNone result ((place : ℕ) (it : SessionState) → slice_get sessions.now place ≡ Some it → it.knows.number ≢ number) }
{
    for place in 0..sessions.len() {
        if sessions[place].number() == number {
            return Some(place);
        }
    }
    None
}

/// Ends all sessions, the last one first, once the mount's own has met each.
fn end_all<N: ServiceParameters, R: Wait + Copy, L: Recorder<N>, S: FileServer<L>>(
    sessions: &mut Vec<Session<N, Shared<N, R, L, S>>>,
    own: &mut Session<N, Shared<N, R, L, S>>,
)
    ensures none { sessions.new.items ≡ [] }
    ensures more { IsBeginning own.old.knows.seen own.new.knows.seen }
    ensures met { HaveSeen sessions.old.items own.new.knows.seen }
{
    while let Some(mut session) = sessions.pop() {
        own.meet(&mut session);
        session.end();
    }
}

/// Why a service made no session, as a connection has it.
fn refusal_of(refusal: SessionRefusal) -> EnterRefusal {
    match refusal {
        SessionRefusal::TooMany => EnterRefusal::TooMany,
        SessionRefusal::Stopped => EnterRefusal::Stopped,
        SessionRefusal::OutOfMemory => EnterRefusal::OutOfMemory,
    }
}
