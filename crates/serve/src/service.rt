//! A service: a server that several sessions share, and the threads that it runs on.

ghost use Rattle.std.specs.Prelude.{◌≡◌, ◌<◌, [], IfErr, IfOk, None, Some};
ghost use Rattle.std.specs.Arc.{arc_value};
ghost use Rattle.std.specs.Bool.{OnFalse, OnTrue};
ghost use Rattle.records.specs.Opening.{contents_at};
ghost use Rattle.tree.specs.Tree.{Tree};
ghost use Rattle.records.specs.Legal.{IsAtFirst};
ghost use Rattle.shared_server.specs.Stopping.{Went};
ghost use Rattle.records.specs.Session.{SessionState};
ghost use Rattle.board.specs.View.{without};
ghost use Rattle.board.specs.Keeper.{AreAllFree, IsOneUsed};
ghost use Rattle.shared_media.specs.Confined.{IsImageOutside};
ghost use Rattle.changes.specs.Units.{puts_of};
ghost use Rattle.shared_media.specs.Marking.{AreChangesOutside};
ghost use Rattle.serve.specs.Closing.{HasClosed};
ghost use Rattle.serve.specs.Stopping.{IsLastImage, WhoIsLeft, WhyNotSynced};
ghost use Rattle.shared_server.specs.Held.{HoldsIfTrue, IsAdmitted, IsGood, IsGuaranteed, IsHeld, IsNotAdmitted};

use crate::comparer::Comparer;
use crate::flusher::Flusher;
use crate::let_go::LetGo;
use crate::session::Session;
use crate::stopping::{StopRefusal, image_of};
use board::counting::parameters::ServiceParameters;
use board::counting::recorder::Recorder;
use board::{Board, Seat};
use changes::Changes;
use driver_threads::alone::once_alone;
use driver_threads::running::{MediaHandle, Running};
use file_server::FileServer;
use gate::Gate;
use shared_server::left_open::LeftOpen;
use shared_server::locked::Locked;
use shared_server::refusal::SessionRefusal;
use std::alloc::{AllocError, Global};
use std::marker::PhantomData;
use std::sync::{Arc, Mutex, MutexGuard, Wait};
use std::thread::{Threads, yield_now};
use tree::{Call, MAX_SESSIONS, Who};

/// How often a session looks whether the server is free before it sleeps.
const LOOKS: u32 = 10;

/// Lets other threads run, so many times.
fn step_aside(times: u32) {
    for _ in 0..times {
        yield_now();
    }
}

/// What the sessions of a service share: the server under its lock, and the handle by which they wait for it.
#[derive(Drop)]
pub struct Shared<N: ServiceParameters, R: Wait + Copy, L: Recorder<N>, S: FileServer<L>> {
    pub(crate) rt: R,
    pub(crate) server: Mutex<Locked<N, L, S>>,
}

impl<N: ServiceParameters, R: Wait + Copy, L: Recorder<N>, S: FileServer<L>> Shared<N, R, L, S> {
    /// The server takes what has come from drivers, and a Flush. It may wait for the calls of sessions, and for no driver.
    pub(crate) fn flush(&self) {
        self.server.lock(&self.rt).flush();
    }

    /// The server, once no other thread has it. A thread that finds it taken lets others run and looks again before it sleeps: most calls
    /// take less time than waking a thread. Each time it lets others run twice as often as before, so where many sessions call, whoever has
    /// the server makes many calls one after the other, over memory that stays at that thread's processor.
    pub(crate) fn locked(&self) -> MutexGuard<'_, Locked<N, L, S>> {
        for look in 0..LOOKS {
            if let Some(server) = self.server.try_lock() {
                return server;
            }
            step_aside(1 << look);
        }
        self.server.lock(&self.rt)
    }
}

/// A service: a server under its lock, the thread of its flusher, and those of its drivers with their reincarnation server. It stays in the
/// thread that it was made in; its sessions needn't.
///
/// Where it is let go without `stop`, all its threads are told to end, and end by themselves. A session may outlive it, but a call that
/// needs a driver then waits for ever.
#[derive(Drop)]
pub struct Service<N: ServiceParameters, R: Wait + Copy, L: Recorder<N>, S: FileServer<L>> {
    alloc: Global,
    rt: R,
    board: Arc<Board>,
    shared: Arc<Shared<N, R, L, S>>,
    let_go: Arc<LetGo<N>>,
    flusher: Flusher,
    running: Running<N>,
    of: PhantomData<N>,
    ghost named: { arc_value board ≡ N.table },
}

impl<
    N: ServiceParameters + Send + Sync + 'static,
    R: Threads + Wait + Copy + Send + Sync + 'static,
    L: Recorder<N> + Send + 'static,
    S: FileServer<L> + Send + 'static,
> Service<N, R, L, S> {
    /// A service of this server, which stands with what its link keeps as the record on the service's board, over these threads of drivers.
    /// Its flusher gets a thread of its own, which asks this gate.
    ///
    /// Where no memory or no thread was found, the server is let go, and all threads are ended.
    pub fn over<G: Gate + 'static>(
        alloc: Global,
        rt: R,
        board: Arc<Board>,
        server: S,
        running: Running<N>,
        gate: Arc<G>,
    ) -> Result<Service<N, R, L, S>, AllocError>
        requires board { arc_value board ≡ N.table }
        requires held { IsHeld N.ServiceParameters L.Link S.Serve.serving S.line S.is_ready S.knows L.runs_on L.marks server }
        requires none_absorbed { S.absorbed server ≡ 0 }
    {
        let Ok(let_go) = Arc::new(alloc, LetGo::new()) else {
            drop(server);
            let _ = running.stop(&rt);
            return Err(AllocError);
        };
        match shared_with_flusher(alloc, rt, server, gate) {
            Ok((shared, flusher)) => Ok(Service {
                alloc,
                rt,
                board,
                shared,
                let_go,
                flusher,
                running,
                of: PhantomData,
            }),
            Err(error) => {
                let _ = running.stop(&rt);
                Err(error)
            }
        }
    }
}

/// What the sessions of a service of this server share, and its flusher.
fn shared_with_flusher<
    N: ServiceParameters + Send + Sync + 'static,
    R: Threads + Wait + Copy + Send + Sync + 'static,
    L: Recorder<N> + Send + 'static,
    S: FileServer<L> + Send + 'static,
    G: Gate + 'static,
>(
    alloc: Global,
    rt: R,
    server: S,
    gate: Arc<G>,
) -> Result<(Arc<Shared<N, R, L, S>>, Flusher), AllocError>
    requires held { IsHeld N.ServiceParameters L.Link S.Serve.serving S.line S.is_ready S.knows L.runs_on L.marks server }
    requires none_absorbed { S.absorbed server ≡ 0 }
{
    let shared = Arc::new(
        alloc,
        Shared {
            rt,
            server: Mutex::new(Locked::new(server)),
        },
    )?;
    let flusher = Flusher::start(alloc, &rt, Arc::try_clone(&shared)?, gate)?;
    Ok((shared, flusher))
}

impl<N: ServiceParameters, R: Threads + Wait + Copy, L: Recorder<N>, S: FileServer<L>> Service<
    N,
    R,
    L,
    S,
> {
    /// A session for this user and group, with the lowest number that is free. It has seen the whole record, and made no call. It may wait
    /// for the calls of other sessions. Sessions that were let go without `end` are ended before.
    ///
    /// It is refused: 1 TooMany where there are 64 sessions, 2 Stopped where the link to the drivers has ended, 3 OutOfMemory, which
    /// may come whatever else holds.
    pub fn session(
        &self,
        uid: u16,
        gid: u16,
    ) -> Result<Session<N, Shared<N, R, L, S>>, SessionRefusal>
        ensures made { IfOk result (λ s. IsAdmitted L.runs_on L.marks L.numbers N.policy N.supply uid gid s) }
        ensures refused { IfErr result (IsNotAdmitted L.Link L.numbers N.opening) }
        ensures guaranteed { IfOk result (λ s. IsGuaranteed L.truth N.opening s.knows.seen) }
        ensures volume { IfOk result (λ s. HoldsIfTrue N.geometry N.opening s.knows.seen) }
        ensures sound { (tree : Tree) → IsAtFirst N.geometry (contents_at N.opening) tree
            → IfOk result (λ s. IsGood N.geometry N.opening tree s.knows.seen) }
    {
        self.end_let_go();
        let board = Arc::try_clone(&self.board)?;
        let let_go = Arc::try_clone(&self.let_go)?;
        let shared = Arc::try_clone(&self.shared)?;
        let (session, seat, seen) = shared.server.lock(&shared.rt).admit()?;
        Ok(Session {
            board,
            seat,
            who: Who { session, uid, gid },
            seen,
            left_open: LeftOpen::new(),
            let_go,
            shared,
            of: PhantomData,
        })
    }

    /// A session that was let go without `end`, as it was then. None where there is none, or no further handle of what it shares.
    fn let_go_session(&self) -> Option<Session<N, Shared<N, R, L, S>>> {
        let board = Arc::try_clone(&self.board).ok()?;
        let let_go = Arc::try_clone(&self.let_go).ok()?;
        let shared = Arc::try_clone(&self.shared).ok()?;
        let gone = self.let_go.take()?;
        Some(Session {
            board,
            seat: gone.seat,
            who: gone.who,
            seen: gone.seen,
            left_open: gone.left_open,
            let_go,
            shared,
            of: PhantomData,
        })
    }

    /// Ends each session that was let go without `end`, as that would have.
    fn end_let_go(&self) {
        for _ in 0..MAX_SESSIONS {
            let Some(session) = self.let_go_session() else {
                return;
            };
            session.end();
        }
    }

    /// The image of the media as they stand: the bytes of as many sectors as were handed in, each of 512 bytes, and outside of the volume
    /// each as it was handed in. Behind a sync that was done, and before a further call is made, that is the volume as it was synced. It
    /// waits for the step of a driver, and for no call. Refused where no memory was found for it; the service goes on in each case.
    pub fn image(&self, alloc: Global) -> Result<Vec<u8>, AllocError>
        ensures { IfOk result (λ image. IsImageOutside N.opening image.items) }
    {
        self.running.image(&self.rt, alloc)
    }

    /// Takes the changes of the media since they were last taken, since the service was made at first: the units of 4096 bytes that drivers
    /// may have written since, in ascending order, with their bytes as they stand. They are units of an image as `image` gives one. Behind
    /// a sync that was done, and before a further call is made, they make the image of the changes taken before the volume as it was
    /// synced. It waits for the step of a driver, and for no call. Refused where no memory was found for these units: the next call takes
    /// them. The service goes on in each case.
    pub fn changes(&self, alloc: Global) -> Result<Changes, AllocError>
        ensures { IfOk result (λ changes. AreChangesOutside N.opening (puts_of changes)) }
    {
        self.running.media().changes(&self.rt, alloc)
    }

    /// Says that changes which were taken were not kept, as where an image file could not be written: the next call of `changes` takes
    /// their units again. It waits for the step of a driver, and for no call.
    pub fn mark_again(&self, changes: &Changes) {
        self.running.media().mark_again(&self.rt, changes);
    }

    /// The media, for another thread that takes their changes. It is to be let go before the service is stopped. Refused where no memory
    /// was found.
    pub fn media(&self) -> Result<MediaHandle<N>, AllocError> {
        self.running.media().another()
    }

    /// Whether a session has a number, but for this one. It may wait for the calls of sessions.
    fn has_sessions(&self, but: Option<u8>) -> bool
        ensures some { OnTrue result ((line : L) × IsOneUsed (without but (L.numbers line))) }
        ensures none { OnFalse result ((line : L) × AreAllFree (without but (L.numbers line))) }
    {
        self.shared.server.lock(&self.rt).has_sessions(but)
    }

    /// Makes a sync by a session of its own, if it gets one. So the last sync finds nothing to write, and no driver writes while what was
    /// written is read back and compared with the media.
    fn sync_first(&self) {
        if let Ok(mut session) = self.session(0, 0) {
            session.call(0, &Call::Sync);
            session.end();
        }
    }

    /// Stops the service: sessions that were let go without `end` are ended, then the flusher; a last sync is made, and what was written of
    /// the volume's range read back, in units of 4096 bytes, and compared with the media as it comes; the drivers are ended, and the media
    /// are given back as an image: the bytes of all sectors, as they stand. The media become the image; what is read back takes 1 MiB. At the
    /// last sync no session has a number.
    ///
    /// It is refused: 1 SessionsLeft, where some session neither ended nor was let go, and 3 OutOfMemory, where a handle of the media is
    /// left, which both hand back the service as it was, its flusher and its drivers going on; 2 GivenUp and 4 LinkEnded, where the last
    /// sync wasn't made, or not all was read; 5 NotAsRead, where the media aren't as they were read; 6 NotRead, where they weren't read
    /// back for want of memory, or a driver may have written elsewhere: these four with the image as the media stand.
    pub fn stop(self) -> Result<Vec<u8>, StopRefusal<Service<N, R, L, S>>>
        ensures image { IfOk result (λ image. IsLastImage L.Link N.geometry N.opening [] Went image.items) }
        ensures refused { IfErr result (WhyNotSynced L.Link N.geometry N.opening [] (λ left. left ≡ self)) }
        ensures sessions { WhoIsLeft L.Link L.numbers N.geometry N.opening [] None result }
    {
        self.end_let_go();
        if self.has_sessions(None) {
            return Err(StopRefusal::SessionsLeft(self));
        }
        if self.running.is_shared() {
            return Err(StopRefusal::OutOfMemory(self));
        }
        self.sync_first();
        let alloc = self.alloc;
        let (rt, locked, running) = self.alone(None);
        let mut comparer = Comparer {
            watch: running.watch(rt),
        };
        let range = comparer.watch.range();
        let finish = locked.finish(alloc, range.1 as u64 * 512, &mut comparer);
        let Comparer { watch } = comparer;
        let (media, written, likeness) = watch.stop();
        image_of::<N, Service<N, R, L, S>>(finish, media, written, range, likeness)
    }

    /// What lies under the lock, and the threads of drivers, once the flusher has ended, nobody shares what lies there, and no session has
    /// a number but for this one. It waits until then: a session that has just ended or was let go may still share it.
    fn alone(self, but: Option<u8>) -> (R, Locked<N, L, S>, Running<N>)
        ensures { AreAllFree (without but (L.numbers result.1)) }
    {
        let Service {
            alloc: _,
            rt,
            board: _,
            shared,
            let_go: _,
            flusher,
            running,
            of: _,
        } = self;
        flusher.stop(&rt);
        let Shared { rt: _, server } = once_alone(&rt, shared);
        let locked = server.into_inner();
        for _ in rt.forever() {
            if !locked.has_sessions(but) {
                return (rt, locked, running);
            }
            yield_now();
        }
        unreachable!()
    }

    /// Stops the service once this session, which is one of its, has ended: its descriptors are closed first, as `end` does. What `stop`
    /// says of the image and of each refusal holds then, and the last record goes on from what the session had seen at its end.
    pub fn stop_after(
        self,
        mut last: Session<N, Shared<N, R, L, S>>,
    ) -> Result<Vec<u8>, StopRefusal<Service<N, R, L, S>>>
        ensures image { IfOk result (λ image. IsLastImage L.Link N.geometry N.opening last.knows.seen Went image.items) }
        ensures refused { IfErr result (WhyNotSynced L.Link N.geometry N.opening last.knows.seen (λ left. left ≡ self)) }
        ensures sessions { WhoIsLeft L.Link L.numbers N.geometry N.opening last.knows.seen (Some last.knows.number) result }
        ensures closed { (closed : SessionState) × HasClosed L.Link N.opening last closed
            × IfOk result (λ image. IsLastImage L.Link N.geometry N.opening closed.knows.seen Went image.items) }
    {
        last.close_all();
        let (number, seat) = last.into_seat();
        self.end_let_go();
        if self.has_sessions(Some(number)) {
            self.release(number, seat);
            return Err(StopRefusal::SessionsLeft(self));
        }
        if self.running.is_shared() {
            self.release(number, seat);
            return Err(StopRefusal::OutOfMemory(self));
        }
        self.sync_first();
        let alloc = self.alloc;
        let (rt, locked, running) = self.alone(Some(number));
        let mut comparer = Comparer {
            watch: running.watch(rt),
        };
        let range = comparer.watch.range();
        let finish = locked.finish_after(number, seat, alloc, range.1 as u64 * 512, &mut comparer);
        let Comparer { watch } = comparer;
        let (media, written, likeness) = watch.stop();
        image_of::<N, Service<N, R, L, S>>(finish, media, written, range, likeness)
    }

    /// The session of this seat has ended: its number is free again.
    fn release(&self, number: u8, seat: Seat)
        requires { (seat.table ≡ N.table) × (seat.view.number ≡ Some number) × (number < 64) }
    {
        self.shared.server.lock(&self.rt).release(number, seat);
    }
}
