//! What is done with a service: its sessions answer the messages of a stream until that ends; then the service is stopped.

ghost use Rattle.std.specs.Prelude.{◌≡◌, IfOk, OnOk, Some, is_some};
ghost use Rattle.serve.specs.Stopping.{IsLastImage};
ghost use Rattle.shared_server.specs.Finishing.{sync_of};
ghost use Rattle.mount_service.specs.Left.{IsLeftBy};
ghost use Rattle.mount_service.specs.Spoken.{IsSpoken};

use crate::sessions::ServiceSessions;
use archive::{Archive, Begins, Keeper, SharedArchive};
use board::counting::parameters::ServiceParameters;
use board::counting::recorder::Recorder;
use file_server::FileServer;
use message_stream::answering::{StreamRefusal, answer_all};
use serve::service::{Service, Shared};
use serve::session::Session;
use serve::stopping::{NoImage, image_left};
use std::alloc::{AllocError, Global};
use std::io::{BufRead, Write};
use std::marker::Brand;
use std::sync::{Arc, Wait};
use std::thread::Threads;
use std::time::Clock;
use talks::answers::Answers;

// passed on, for who hands an image on
pub use shared_server::locked::LastSync;

/// The streams of messages and answers, who answers, the clock that says when calls are made, and where changes are put.
#[derive(Drop)]
pub struct Streams<I, O, C, A, W> {
    /// Where messages come from.
    pub input: I,
    /// Where answers go.
    pub output: O,
    /// Who answers the messages, by calls of sessions.
    pub answerer: W,
    /// What the time of a call is.
    pub clock: C,
    /// Where the changes are put behind each sync that was done, if anywhere.
    pub archive: Option<A>,
    /// After how many seconds the mount makes a sync of its own where there is an archive; 0: it makes none.
    pub sync_every: u32,
}

/// What came of the messages of a stream.
#[derive(Drop)]
pub struct Came<I, O, C, A, W> {
    /// The streams, as far as they were read and written.
    pub streams: Streams<I, O, C, A, W>,
    /// Whether all messages were answered, and why not.
    pub answered: Result<(), StreamRefusal>,
    /// How the last sync went.
    pub last_sync: LastSync,
    /// The bytes of the image as the media stand once the service was stopped.
    pub image: Vec<u8>,
}

/// Answers the messages of a stream by sessions of this service, and stops it. What came of it. Where there is an archive, changes go into
/// it behind each sync, and behind those of a keeper, if there is to be one. Refused where no memory or no thread was found, or the service
/// makes no session (a new one does while its link goes on): then nothing is answered.
pub(crate) fn answer_on<
    N: ServiceParameters + Send + Sync + 'static,
    R: Threads + Wait + Copy + Send + Sync + 'static,
    L: Recorder<N> + Send + 'static,
    S: FileServer<L> + Send + 'static,
    I: BufRead + Drop,
    O: Write + Drop,
    C: Clock + Drop,
    A: Archive + Drop + Send + 'static,
    W: Answers + Drop,
>(
    alloc: Global,
    rt: R,
    service: Service<N, R, L, S>,
    streams: Streams<I, O, C, A, W>,
) -> Result<Result<Came<I, O, C, A, W>, NoImage>, AllocError>
    ensures { IfOk result (λ o. IfOk o (λ came. IsLeftBy A.puts W.fewest W.answers streams.answerer N.geometry N.opening
        (I.Read.remaining streams.input) (O.contents streams.output) (O.contents came.streams.output) streams.archive
        came.streams.archive came.answered came.last_sync came.image.items)) }
{
    let mut streams = streams;
    let own = own_session(&service)?;
    match streams.archive.take() {
        Some(archive) => {
            answer_and_keep::<N, R, L, S, Brand, I, O, C, A, W>(
                alloc, rt, service, own, streams, archive,
            )
        }
        None => {
            let (answered, own) = answer_by::<N, R, L, S, Brand, I, O, C, A, W>(
                alloc,
                &service,
                own,
                &mut streams,
                None,
            );
            Ok(came_of(service, own, streams, answered))
        }
    }
}

/// The mount's own session, which makes no call.
fn own_session<
    N: ServiceParameters + Send + Sync + 'static,
    R: Threads + Wait + Copy + Send + Sync + 'static,
    L: Recorder<N> + Send + 'static,
    S: FileServer<L> + Send + 'static,
>(service: &Service<N, R, L, S>) -> Result<Session<N, Shared<N, R, L, S>>, AllocError> {
    match service.session(0, 0) {
        Ok(session) => Ok(session),
        Err(_) => Err(AllocError),
    }
}

/// The same with an archive, which takes its place among the streams again.
fn answer_and_keep<
    N: ServiceParameters + Send + Sync + 'static,
    R: Threads + Wait + Copy + Send + Sync + 'static,
    L: Recorder<N> + Send + 'static,
    S: FileServer<L> + Send + 'static,
    F: Begins<A> + Send + Sync + 'static,
    I: BufRead + Drop,
    O: Write + Drop,
    C: Clock + Drop,
    A: Archive + Drop + Send + 'static,
    W: Answers + Drop,
>(
    alloc: Global,
    rt: R,
    service: Service<N, R, L, S>,
    own: Session<N, Shared<N, R, L, S>>,
    streams: Streams<I, O, C, A, W>,
    archive: A,
) -> Result<Result<Came<I, O, C, A, W>, NoImage>, AllocError>
    requires { F.first ≡ Some archive }
    ensures { IfOk result (λ o. IfOk o (λ came. IsLeftBy A.puts W.fewest W.answers streams.answerer N.geometry N.opening
        (I.Read.remaining streams.input) (O.contents streams.output) (O.contents came.streams.output) (Some archive)
        came.streams.archive came.answered came.last_sync came.image.items)) }
{
    let mut streams = streams;
    let shared = SharedArchive::<N, R, F, A>::new(alloc, rt, service.media()?, archive);
    let shared = Arc::new(alloc, shared)?;
    let asked = Arc::try_clone(&shared)?;
    let keeper = Keeper::start(alloc, &rt, &service, &shared, streams.sync_every)?;
    let (answered, own) = answer_by(alloc, &service, own, &mut streams, Some(asked));
    if let Some(keeper) = keeper {
        keeper.end(&rt);
    }
    streams.archive = SharedArchive::into_archive(shared);
    Ok(came_of(service, own, streams, answered))
}

/// Answers the messages of a stream by sessions of this service, which end then; the mount's own goes on, and has seen all that they had.
fn answer_by<
    N: ServiceParameters + Send + Sync + 'static,
    R: Threads + Wait + Copy + Send + Sync + 'static,
    L: Recorder<N> + Send + 'static,
    S: FileServer<L> + Send + 'static,
    F: Begins<A> + Send + Sync + 'static,
    I: BufRead,
    O: Write,
    C: Clock,
    A: Archive + Drop + Send + 'static,
    W: Answers + Drop,
>(
    alloc: Global,
    service: &Service<N, R, L, S>,
    own: Session<N, Shared<N, R, L, S>>,
    streams: &mut Streams<I, O, C, A, W>,
    shared: Option<Arc<SharedArchive<N, R, F, A>>>,
) -> (Result<(), StreamRefusal>, Session<N, Shared<N, R, L, S>>)
    ensures spoken { OnOk result.0 (IsSpoken A.puts W.fewest W.answers streams.old.answerer N.geometry N.opening
        (I.Read.remaining streams.old.input) (O.contents streams.old.output) (O.contents streams.new.output) (is_some shared)
        result.1.knows.seen) }
    ensures archive { streams.new.archive ≡ streams.old.archive }
{
    let mut sessions = ServiceSessions::new(alloc, service, own, shared);
    let answered = answer_all(
        alloc,
        &mut streams.input,
        &mut streams.output,
        &streams.clock,
        &mut sessions,
        &mut streams.answerer,
    );
    (answered, sessions.end())
}

/// Stops the service, whose only session is the mount's own, and gives what came of the messages of its streams.
fn came_of<
    N: ServiceParameters + Send + Sync + 'static,
    R: Threads + Wait + Copy + Send + Sync + 'static,
    L: Recorder<N> + Send + 'static,
    S: FileServer<L> + Send + 'static,
    I: BufRead + Drop,
    O: Write + Drop,
    C: Clock + Drop,
    A: Archive + Drop,
    W: Answers + Drop,
>(
    service: Service<N, R, L, S>,
    own: Session<N, Shared<N, R, L, S>>,
    streams: Streams<I, O, C, A, W>,
    answered: Result<(), StreamRefusal>,
) -> Result<Came<I, O, C, A, W>, NoImage>
    ensures came { IfOk result (λ came. (came.streams ≡ streams) × (came.answered ≡ answered)) }
    ensures image { IfOk result (λ came.
        IsLastImage L.Link N.geometry N.opening own.knows.seen (sync_of came.last_sync) came.image.items) }
{
    let (last_sync, image) = image_left(service.stop_after(own))?;
    Ok(Came {
        streams,
        answered,
        last_sync,
        image,
    })
}
