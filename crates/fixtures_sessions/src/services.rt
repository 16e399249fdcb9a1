//! Services, and what is done in their sessions.

use crate::callers::{in_turn, told};
use board::counting::parameters::ServiceParameters;
use board::counting::recorder::Recorder;
use file_server::FileServer;
use serve::service::{Service, Shared};
use serve::session::Session;
use serve::stopping::StopRefusal;
use std::alloc::Global;
use std::sync::Wait;
use std::thread::{Threads, join};
use tree::{Call, PathFrom};

/// Two sessions, of user 0 and of user 7, call in turn, and end. No image.
pub fn two_in_turn<
    N: ServiceParameters,
    R: Threads + Wait + Copy,
    L: Recorder<N>,
    S: FileServer<L>,
>(alloc: Global, service: Service<N, R, L, S>, lines: &mut String) -> Option<Vec<u8>> {
    let mut one = service.session(0, 0).ok()?;
    let mut two = service.session(7, 8).ok()?;
    in_turn(&mut one, &mut two, lines);
    one.end();
    two.end();
    Some(Vec::new(alloc))
}

/// A session asks for the root three times, and ends. A line for each answer.
fn three_calls<N: ServiceParameters, R: Threads + Wait + Copy, L: Recorder<N>, S: FileServer<L>>(
    alloc: Global,
    mut session: Session<N, Shared<N, R, L, S>>,
) -> String {
    let mut lines = String::new(alloc);
    for now in [100, 101, 102] {
        told(
            &mut session,
            now,
            &Call::Stat {
                path: PathFrom::root(b"/"),
            },
            &mut lines,
        );
    }
    session.end();
    lines
}

/// Two sessions call in threads of their own. The lines of each.
pub fn two_in_threads<
    N: ServiceParameters + Send + Sync,
    R: Threads + Wait + Copy + Send + Sync,
    L: Recorder<N> + Send,
    S: FileServer<L> + Send,
>(alloc: Global, rt: &R, service: &Service<N, R, L, S>) -> Option<(String, String)> {
    let one = service.session(0, 0).ok()?;
    let two = service.session(7, 8).ok()?;
    Some(join(
        rt,
        move || three_calls(alloc, one),
        move || three_calls(alloc, two),
    ))
}

/// Makes as many sessions as there are numbers.
fn fill<N: ServiceParameters, R: Threads + Wait + Copy, L: Recorder<N>, S: FileServer<L>>(
    service: &Service<N, R, L, S>,
    sessions: &mut Vec<Session<N, Shared<N, R, L, S>>>,
) -> Option<()> {
    for _ in 0..64 {
        sessions.push(service.session(0, 0).ok()?).ok()?;
    }
    Some(())
}

/// As many sessions are made as there are numbers, and one more is asked for before and after one of them ends: why there was none more,
/// before and after, and how many are left. No image.
pub fn many<N: ServiceParameters, R: Threads + Wait + Copy, L: Recorder<N>, S: FileServer<L>>(
    alloc: Global,
    service: Service<N, R, L, S>,
    lines: &mut String,
) -> Option<Vec<u8>> {
    let mut sessions: Vec<Session<N, Shared<N, R, L, S>>> = Vec::new(alloc);
    fill(&service, &mut sessions)?;
    let before = service.session(0, 0).err();
    sessions.pop()?.end();
    let after = service.session(0, 0).err();
    let left = sessions.len();
    let _ = writeln!(lines, "{before:?} {after:?} {left}");
    Some(Vec::new(alloc))
}

/// The service that wasn't stopped since a session is left.
fn still_open<S: Drop>(stopped: Result<Vec<u8>, StopRefusal<S>>) -> Option<S> {
    match stopped {
        Err(StopRefusal::SessionsLeft(service)) => Some(service),
        _ => None,
    }
}

/// Whether the last sync of a service that was stopped was made, and its image is as it was read back; and the image.
fn last_sync<S: Drop>(stopped: Result<Vec<u8>, StopRefusal<S>>) -> Option<(&'static str, Vec<u8>)> {
    match stopped {
        Ok(image) => Some(("synced", image)),
        Err(StopRefusal::GivenUp(image)) => Some(("given up", image)),
        Err(StopRefusal::NotAsRead(image)) => Some(("not as read", image)),
        Err(StopRefusal::NotRead(image)) => Some(("not read", image)),
        Err(_) => None,
    }
}

/// The image of a service that was stopped, whose link has ended.
fn cut_off<S: Drop>(stopped: Result<Vec<u8>, StopRefusal<S>>) -> Option<Vec<u8>> {
    match stopped {
        Err(StopRefusal::LinkEnded(image)) => Some(image),
        _ => None,
    }
}

/// Stops a service with the end of a session, and at once, which are both refused since another session is left.
fn refused<N: ServiceParameters, R: Threads + Wait + Copy, L: Recorder<N>, S: FileServer<L>>(
    service: Service<N, R, L, S>,
    session: Session<N, Shared<N, R, L, S>>,
) -> Option<Service<N, R, L, S>> {
    let service = still_open(service.stop_after(session))?;
    still_open(service.stop())
}

/// Makes a call in one of two sessions, and stops the service three times: with the end of the other session, at once, which are refused
/// since the first session is left, and when that one has ended, or with its end. The image.
pub fn stopped<N: ServiceParameters, R: Threads + Wait + Copy, L: Recorder<N>, S: FileServer<L>>(
    service: Service<N, R, L, S>,
    call: &Call<'_>,
    has_ended: bool,
    lines: &mut String,
) -> Option<Vec<u8>> {
    let mut one = service.session(0, 0).ok()?;
    let two = service.session(0, 0).ok()?;
    told(&mut one, 100, call, lines);
    let service = refused(service, two)?;
    let (synced, image) = stopped_at_last(service, one, has_ended)?;
    let _ = writeln!(lines, "{synced}");
    Some(image)
}

/// Stops a service when its last session has ended, or with its end. Whether the last sync was made, and the image.
fn stopped_at_last<
    N: ServiceParameters,
    R: Threads + Wait + Copy,
    L: Recorder<N>,
    S: FileServer<L>,
>(
    service: Service<N, R, L, S>,
    last: Session<N, Shared<N, R, L, S>>,
    has_ended: bool,
) -> Option<(&'static str, Vec<u8>)> {
    if has_ended {
        last.end();
        last_sync(service.stop())
    } else {
        last_sync(service.stop_after(last))
    }
}

/// A session calls, another one is asked for, and the service is stopped, whose link has ended. The image.
pub fn asked_and_stopped<
    N: ServiceParameters,
    R: Threads + Wait + Copy,
    L: Recorder<N>,
    S: FileServer<L>,
>(service: Service<N, R, L, S>, lines: &mut String) -> Option<Vec<u8>> {
    let mut session = service.session(0, 0).ok()?;
    told(
        &mut session,
        100,
        &Call::Stat {
            path: PathFrom::root(b"/"),
        },
        lines,
    );
    let refusal = service.session(0, 0).err();
    let _ = writeln!(lines, "{refusal:?}");
    session.end();
    cut_off(service.stop())
}
