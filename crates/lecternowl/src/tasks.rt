//! Tasks over a service, each in a session and a thread of its own.

ghost use Rattle.std.specs.Prelude.{◌≡◌, IfErr, IfOk, vec_len};
ghost use Rattle.shared_server.specs.Held.{HasEnded};
ghost use Rattle.lecternowl.specs.Serving.{AreDone, IsNotDone, IsNotOpened};

use crate::files::Files;
use crate::refusal::ServeRefusal;
use crate::served::Served;
use shared_server::locked::LastSync;
use shared_server::refusal::SessionRefusal;
use std::alloc::{AllocError, Global};
use std::thread;
use std::thread::Threads;
use tree::User;

/// What is done in a session, in a thread of its own.
pub trait Task: Send + Drop {
    /// What it gives back.
    type Output: Send + Drop;

    /// The user and the group that it asks for; user 0, who may do all, and group 0 unless a task says another.
    fn user(&self) -> User {
        User { uid: 0, gid: 0 }
    }

    /// Does it. The session is ended then.
    fn run<F: Files>(self, session: &mut F) -> Self::Output;
}

/// What came of tasks.
#[derive(Drop)]
pub struct Came<O: Drop> {
    /// What each gave, in their order.
    pub outputs: Vec<O>,
    /// How the last sync went, which is made once all tasks are done.
    pub last_sync: LastSync,
    /// The bytes of the image as the media stand once the service was stopped.
    pub image: Vec<u8>,
}

/// A task and its session.
#[derive(Drop)]
struct Turn<F: Files, T: Task> {
    session: F,
    task: T,
}

/// Does it, and ends the session.
fn take<F: Files, T: Task>(turn: Turn<F, T>) -> T::Output {
    let Turn { mut session, task } = turn;
    let output = task.run(&mut session);
    session.end();
    output
}

/// A session for each task, in their order: all are made before a task is begun.
fn admit_all<S: Served, T: Task>(
    alloc: Global,
    service: &S,
    tasks: Vec<T>,
) -> Result<Vec<Turn<S::Session, T>>, SessionRefusal>
    ensures each { IfOk result (λ turns. vec_len turns ≡ vec_len tasks) }
    ensures refused { IfErr result (IsNotOpened S.Session.words S.Session.opening) }
{
    let mut turns = Vec::new(alloc);
    for task in tasks {
        let User { uid, gid } = task.user();
        let session = service.session(uid, gid)?;
        if turns.push(Turn { session, task }).is_err() {
            return Err(SessionRefusal::OutOfMemory);
        }
    }
    Ok(turns)
}

/// Does each, in a thread of its own.
fn run_each<R: Threads + Sync, F: Files + Send, T: Task>(
    rt: &R,
    turns: Vec<Turn<F, T>>,
) -> Result<Vec<T::Output>, AllocError>
    ensures { IfOk result (λ outputs. vec_len outputs ≡ vec_len turns) }
{
    thread::map_vec(rt, turns, &|turn: Turn<F, T>| -> T::Output { take(turn) })
}

/// Does each task in a session and a thread of its own: what each gave, in their order. Refused before any is begun: a session is refused,
/// or no memory or no thread was found.
pub(crate) fn do_each<R: Threads + Sync, S: Served, T: Task>(
    alloc: Global,
    rt: &R,
    service: &S,
    tasks: Vec<T>,
) -> Result<Vec<T::Output>, SessionRefusal>
    ensures each { IfOk result (λ outputs. vec_len outputs ≡ vec_len tasks) }
    ensures refused { IfErr result (IsNotOpened S.Session.words S.Session.opening) }
{
    let turns = admit_all(alloc, service, tasks)?;
    match run_each(rt, turns) {
        Ok(outputs) => Ok(outputs),
        Err(_) => Err(SessionRefusal::OutOfMemory),
    }
}

/// Stops a service whose tasks gave these outputs.
pub(crate) fn stop_with<S: Served, O: Drop>(
    service: S,
    outputs: Vec<O>,
) -> Result<Came<O>, ServeRefusal>
    ensures done { IfOk result (AreDone (HasEnded S.Session.words S.Session.opening) S.Session.sizes S.Session.opening outputs.items) }
    ensures undone { IfErr result (IsNotDone (HasEnded S.Session.words S.Session.opening)) }
{
    match service.stop() {
        Ok((last_sync, image)) => Ok(Came {
            outputs,
            last_sync,
            image,
        }),
        Err(why) => Err(ServeRefusal::NoImage(why)),
    }
}

/// Does each task in a session and a thread of its own, and stops the service.
#[tactic(auto, using(crate::proofs::ServedLaws::done_of))]
pub(crate) fn do_all<R: Threads + Sync, S: Served, T: Task>(
    alloc: Global,
    rt: &R,
    service: S,
    tasks: Vec<T>,
) -> Result<Came<T::Output>, ServeRefusal>
    ensures done { IfOk result (AreDone (HasEnded S.Session.words S.Session.opening) S.Session.sizes S.Session.opening tasks.items) }
    ensures undone { IfErr result (IsNotDone (HasEnded S.Session.words S.Session.opening)) }
{
    match do_each(alloc, rt, &service, tasks) {
        Ok(outputs) => stop_with(service, outputs),
        Err(refusal) => Err(ServeRefusal::NoSession(refusal)),
    }
}
