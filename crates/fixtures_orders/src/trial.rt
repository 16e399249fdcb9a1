//! An order is tried: what a number draws is run, and what came of it is compared with what has to come.

use crate::plan::Plan;
use crate::served::{Came, Job, What, served};
use fixtures::new_volume;
use fixtures_drawn::chooser::Chooser;
pub use fixtures_drawn::chooser::Told;
use fixtures_drawn::deeds::Acted;
use fixtures_drawn::drawn::Drawn;
use fixtures_drawn::held::Held;
use fixtures_drawn::shared::fits;
use fsck::{Verdict, check};
use std::alloc::{AllocError, Global};
use std::sync::{Arc, Wait};
use std::thread::Threads;
use std::{fmt, io, thread};

/// What is wrong with an order.
#[derive(Clone, Copy)]
pub enum Wrong {
    /// The service didn't start.
    NotStarted,
    /// The directories weren't made, or there was no session.
    NotPrepared,
    /// The last sync wasn't made, or the service wasn't stopped.
    NotStopped,
    /// It has no end: somebody waits for ever.
    NoEnd,
    /// This deed of this session was answered otherwise than it has to be. Both are counted from 0.
    Reply(usize, usize),
    /// No order of both sessions' deeds in the shared directory gives their answers and what is left there.
    Shared,
    /// The image that is left isn't clean.
    NotClean,
    /// The last sync had something to write behind a flusher that had found nothing to write.
    NotFlushed,
    /// A second start finds other files in it.
    OtherFiles,
    /// No memory was found.
    OutOfMemory,
}

impl From<AllocError> for Wrong {
    fn from(_: AllocError) -> Wrong {
        Wrong::OutOfMemory
    }
}

impl fmt::Display for Wrong {
    fn fmt<W: fmt::Write>(&self, f: &mut fmt::Formatter<W>) -> fmt::Result {
        match self {
            Wrong::NotStarted => f.write_str("not started"),
            Wrong::NotPrepared => f.write_str("not prepared"),
            Wrong::NotStopped => f.write_str("not stopped"),
            Wrong::NoEnd => f.write_str("no end"),
            Wrong::Reply(session, deed) => write!(
                f,
                "session {session}: the answer to deed {deed}"
            ),
            Wrong::Shared => f.write_str("the shared directory"),
            Wrong::NotClean => f.write_str("the image isn't clean"),
            Wrong::NotFlushed => f.write_str("the flusher left something to write"),
            Wrong::OtherFiles => f.write_str("a second start finds other files"),
            Wrong::OutOfMemory => f.write_str("no memory"),
        }
    }
}

/// What came of an order: what the choices came to, and what is wrong, if anything is.
#[derive(Clone, Copy)]
pub struct Tried {
    pub told: Told,
    pub wrong: Option<Wrong>,
}

/// It is done in a thread of its own, under a gate whose threads this one lets go on.
fn run<R: Threads + Wait + AllocGlobal + Copy + Send + Sync + 'static>(
    rt: R,
    plan: &Plan,
    image: Vec<u8>,
    what: What,
) -> io::Result<(Told, Result<(Came, Vec<u8>), Wrong>)> {
    let alloc = rt.alloc();
    let chooser = Chooser::new(plan.temper, plan.choices);
    let gate = Arc::new(alloc, Drawn::new(alloc, rt, chooser)?)?;
    let job = Job {
        alloc,
        rt,
        image,
        plan: *plan,
        gate: Arc::try_clone(&gate)?,
        what,
    };
    let working = thread::spawn(&rt, move || -> Result<(Came, Vec<u8>), Wrong> {
        let came = served(&job);
        job.gate.finish();
        came
    });
    let Ok(handle) = working else {
        return Err(io::Error::from(AllocError));
    };
    let told = gate.await_end();
    if told.is_stuck {
        Ok((told, Err(Wrong::NoEnd)))
    } else {
        Ok((told, handle.join(&rt)))
    }
}

/// Whether the image is clean.
fn is_clean(alloc: Global, image: &[u8]) -> bool {
    matches!(check(alloc, image), Ok(Verdict::Clean(..)))
}

/// What both sessions did.
fn both(came: Came) -> Result<(Acted, Acted), Wrong> {
    let Came::Acted(first, second) = came else {
        return Err(Wrong::NotPrepared);
    };
    match (first.wrong, second.wrong) {
        (Some(deed), _) => Err(Wrong::Reply(0, deed)),
        (_, Some(deed)) => Err(Wrong::Reply(1, deed)),
        (None, None) => Ok((first, second)),
    }
}

/// What a second start finds: the names of the shared directory.
fn found(came: Came) -> Result<u16, Wrong> {
    match came {
        Came::Looked(Some(set)) => Ok(set),
        _ => Err(Wrong::OtherFiles),
    }
}

/// Starts once more, without a fault, on an image that was left: the names that the shared directory then has, if the others hold this.
fn look_again<R: Threads + Wait + AllocGlobal + Copy + Send + Sync + 'static>(
    rt: R,
    plan: &Plan,
    image: Vec<u8>,
    held: [Held; 2],
) -> io::Result<Result<u16, Wrong>> {
    let (_, again) = run(rt, &plan.calm(), image, What::Look(held))?;
    Ok(match again {
        Ok((came, left)) => {
            drop(left);
            found(came)
        }
        Err(wrong) => Err(wrong),
    })
}

/// Tries the order of a number on a new volume of 64 blocks of 1024 bytes: what came of it.
pub fn try_order<R: Threads + Wait + AllocGlobal + Copy + Send + Sync + 'static>(
    rt: R,
    number: u64,
) -> io::Result<Tried> {
    let plan = Plan::of(number);
    let image = new_volume(rt.alloc(), 1024)?;
    let (told, came) = run(rt, &plan, image, What::Act)?;
    let wrong = match came {
        Ok((came, image)) => wrong_in(rt, &plan, &told, came, image)?,
        Err(wrong) => Some(wrong),
    };
    Ok(Tried { told, wrong })
}

/// What is wrong with what came of an order, if anything is.
fn wrong_in<R: Threads + Wait + AllocGlobal + Copy + Send + Sync + 'static>(
    rt: R,
    plan: &Plan,
    told: &Told,
    came: Came,
    image: Vec<u8>,
) -> io::Result<Option<Wrong>> {
    match both(came) {
        Ok((first, second)) => wrong_behind(rt, plan, told, &first, &second, image),
        Err(wrong) => Ok(Some(wrong)),
    }
}

/// What is wrong with the image that is left behind right replies, if anything is.
fn wrong_behind<R: Threads + Wait + AllocGlobal + Copy + Send + Sync + 'static>(
    rt: R,
    plan: &Plan,
    told: &Told,
    first: &Acted,
    second: &Acted,
    image: Vec<u8>,
) -> io::Result<Option<Wrong>> {
    if !is_clean(rt.alloc(), &image) {
        return Ok(Some(Wrong::NotClean));
    }
    if told.was_left {
        return Ok(Some(Wrong::NotFlushed));
    }
    let held = [first.held, second.held];
    Ok(match look_again(rt, plan, image, held)? {
        Ok(set) if fits(&first.shared, &second.shared, set) => None,
        Ok(_) => Some(Wrong::Shared),
        Err(wrong) => Some(wrong),
    })
}
