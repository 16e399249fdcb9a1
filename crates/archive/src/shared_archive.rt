//! The archive of a service, which its sessions and the keeper share.

ghost use Rattle.std.specs.Prelude.{◌≡◌, ◌↔◌, IfOk, IfSome, IsTrue, None, Option, Some};
ghost use Rattle.tree.specs.declared.Call.TheVariants.{Sync};
ghost use Rattle.records.specs.Session.{SessionState};
ghost use Rattle.shared_media.specs.Marking.{AreChangesOutside};
ghost use Rattle.changes.specs.Units.{puts_of};
ghost use Rattle.archive.specs.Kept.{IsKeptAfter, IsKeptFrom, IsSyncDone};
ghost use Rattle.archive.specs.Behind.{IsArchived, IsKeptCall, outcome_then};

use crate::puts::Archive;
use board::counting::parameters::ServiceParameters;
use board::counting::recorder::Recorder;
use changes::Changes;
use driver_threads::running::MediaHandle;
use errno::Errno;
use file_server::FileServer;
use image_file::{Copies, InPlace};
use redo::Puts;
use serve::service::Shared;
use serve::session::Session;
use std::alloc::{AllocError, Global};
use std::marker::{Brand, PhantomData};
use std::sync::{Arc, Mutex, MutexGuard, Wait};
use tree::{Call, Outcome, Reply};

/// How many changed units are copied at most, so that drivers and calls go on while they are put (own): 4 MiB.
const FEW: usize = 1024;

/// What an archive begins as, before anything is put into it: a name that stands in proofs alone.
pub trait Begins<A> {
    ghost first: { Option A };
}

impl<A> Begins<A> for Brand {
    ghost first = { None };
}

/// An archive under its lock. It came from what it began as by puts behind syncs that were done, and by nothing else.
#[derive(Drop)]
struct Stored<N: ServiceParameters, F: Begins<A>, A: Archive + Drop> {
    archive: A,
    of: PhantomData<(N, F)>,
    ghost kept: { ∥ IsKeptFrom A.puts N.geometry N.opening F.first archive ∥₁ },
}

impl<N: ServiceParameters, F: Begins<A>, A: Archive + Drop> Stored<N, F, A> {
    /// Puts changes of the media behind a sync that was done.
    fn put<P: Puts>(&mut self, changes: &P) -> Result<(), Errno>
        requires synced { IsSyncDone N.geometry N.opening }
        requires outside { AreChangesOutside N.opening (P.puts changes.now) }
        ensures { IsArchived A.puts N.opening result }
    {
        self.archive.put(changes)
    }
}

/// An archive, and the media whose changes are put into it.
///
/// No call of these sessions is made between a sync and the taking of its changes: so these are of the volume as it was synced.
#[derive(Drop)]
pub struct SharedArchive<N: ServiceParameters, R: Wait + Copy, F: Begins<A>, A: Archive + Drop> {
    rt: R,
    alloc: Global,
    media: MediaHandle<N>,
    // Held for each call of the sessions, and for a sync with the taking of its changes.
    turn: Mutex<()>,
    // Locked before the turn.
    stored: Mutex<Stored<N, F, A>>,
}

impl<N: ServiceParameters, R: Wait + Copy, F: Begins<A>, A: Archive + Drop> SharedArchive<
    N,
    R,
    F,
    A,
> {
    /// An archive into which nothing was put yet.
    pub fn new(alloc: Global, rt: R, media: MediaHandle<N>, archive: A) -> SharedArchive<N, R, F, A>
        requires { F.first ≡ Some archive }
    {
        SharedArchive {
            rt,
            alloc,
            media,
            turn: Mutex::new(()),
            stored: Mutex::new(Stored {
                archive,
                of: PhantomData,
            }),
        }
    }

    /// The turn: while it is held the keeper makes no sync and takes no changes.
    pub fn turn(&self) -> MutexGuard<'_, ()> {
        self.turn.lock(&self.rt)
    }

    /// A call of a session, between syncs of others. Behind a sync that was done the changes of the media are put into the archive, and
    /// where that is refused, so is the sync: the next changes have them again. ENOMEM where no memory was found for them.
    pub fn call<L: Recorder<N>, S: FileServer<L>>(
        &self,
        session: &mut Session<N, Shared<N, R, L, S>>,
        now: u32,
        call: &Call<'_>,
    ) -> Outcome
        ensures { IsKeptCall A.puts L.Link L.marks N.geometry N.opening session.old now call.now result session.new }
    {
        if is_sync(call) {
            return self.sync(session, now);
        }
        let _turn = self.turn();
        session.call(now, call)
    }

    /// A sync by a session, and what becomes of the changes behind it.
    pub(crate) fn sync<L: Recorder<N>, S: FileServer<L>>(
        &self,
        session: &mut Session<N, Shared<N, R, L, S>>,
        now: u32,
    ) -> Outcome
        ensures { IsKeptCall A.puts L.Link L.marks N.geometry N.opening session.old now Sync result session.new }
    {
        let mut stored = self.stored.lock(&self.rt);
        let turn = self.turn();
        let outcome = session.call(now, &Call::Sync);
        match outcome {
            Outcome::Reply(Reply::Done) => outcome_of(self.keep(&mut *stored, turn)),
            outcome => outcome,
        }
    }

    /// Puts the changes behind a sync that was done. Few are copied, and put once the turn is given back: so calls go on meanwhile. Of many
    /// no unit is copied.
    fn keep(&self, stored: &mut Stored<N, F, A>, turn: MutexGuard<'_, ()>) -> Result<(), Errno>
        requires { IsSyncDone N.geometry N.opening }
        ensures { IsArchived A.puts N.opening result }
    {
        match self.few_changes() {
            Ok(Some(changes)) => {
                drop(turn);
                self.put_copies(stored, &changes)
            }
            Ok(None) => self.put_in_place(stored),
            Err(_) => Err(Errno::ENOMEM),
        }
    }

    /// The changes of the media, copied; none where they are more than few.
    fn few_changes(&self) -> Result<Option<Changes>, AllocError>
        ensures { IfOk result (λ few. IfSome few (λ changes. AreChangesOutside N.opening (puts_of changes))) }
    {
        let mut media = self.media.lock(&self.rt);
        let numbers = (&*media).marked(self.alloc)?;
        if numbers.len() > FEW {
            return Ok(None);
        }
        let changes = (&mut *media).take_changes(self.alloc)?;
        Ok(Some(changes))
    }

    /// Puts changes that were taken. Where that is refused, the next changes have their units again.
    fn put_copies(&self, stored: &mut Stored<N, F, A>, changes: &Changes) -> Result<(), Errno>
        requires synced { IsSyncDone N.geometry N.opening }
        requires outside { AreChangesOutside N.opening (puts_of changes.now) }
        ensures { IsArchived A.puts N.opening result }
    {
        let put = stored.put(&Copies { changes });
        if put.is_err() {
            self.media.mark_again(&self.rt, changes);
        }
        put
    }

    /// Puts the changes from where they lie, while drivers wait. Where that is refused, they stay marked.
    fn put_in_place(&self, stored: &mut Stored<N, F, A>) -> Result<(), Errno>
        requires synced { IsSyncDone N.geometry N.opening }
        ensures { IsArchived A.puts N.opening result }
    {
        let mut media = self.media.lock(&self.rt);
        let Ok(numbers) = (&*media).marked(self.alloc) else {
            return Err(Errno::ENOMEM);
        };
        let put = stored.put(&InPlace {
            numbers: &numbers,
            image: (&*media).as_sectors().as_flattened(),
        });
        if put.is_ok() {
            (&mut *media).unmark();
        }
        put
    }

    /// The archive; none where a thread still has it, which by the code none has.
    pub fn into_archive(shared: Arc<SharedArchive<N, R, F, A>>) -> Option<A>
        ensures { IsKeptAfter A.puts N.geometry N.opening F.first result }
    {
        match Arc::try_unwrap(shared) {
            Ok(shared) => {
                let SharedArchive { stored, .. } = shared;
                let Stored { archive, .. } = stored.into_inner();
                Some(archive)
            }
            Err(_) => None,
        }
    }
}

/// Whether a call is a sync.
fn is_sync(call: &Call<'_>) -> bool
    ensures { IsTrue result ↔ (call.now ≡ Sync) }
{
    matches!(call, Call::Sync)
}

/// What a sync is answered for what came of its changes.
fn outcome_of(put: Result<(), Errno>) -> Outcome
    ensures { result ≡ outcome_then put }
{
    match put {
        Ok(()) => Outcome::Reply(Reply::Done),
        Err(errno) => Outcome::Reply(Reply::Refused(errno)),
    }
}
