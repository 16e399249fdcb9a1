//! Runs of schedules of which each request for memory is refused in turn. What they are handed is made before, and what comes is looked at
//! behind, with memory.

ghost use Rattle.std.specs.Prelude.{◌<◌, ◌^◌, length};

use crate::plays::SCHEDULES;
use crate::told::Said;
use bdev::BlockDriver;
use fixtures::orders::{MOST, is_last, refuse, was_refused};
use fixtures::{new_volume, whole};
use modeldisk::supply::{drivers_for, table_in};
use reply_text::mark::MarkRef;
use schedule::Event;
use schedule_text::reading::read_schedule;
use simulation::show::show;
use simulation::transcript::Transcript;
use simulation::world::{RunRefusal, World};
use std::alloc::{AllocError, Global};
use std::test::Fail;

/// What is shown of a run: its transcript, or the refusal's name; and the bytes that its media have then.
type Shown = (Said, Option<Vec<u8>>);

/// What is said of a run with these marks and so many calls without a reply.
fn said_of(alloc: Global, marks: &[MarkRef<'_>], unanswered: u64) -> Said {
    let mut out = Vec::new(alloc);
    let mut err = Vec::new(alloc);
    let status = show(alloc, marks, unanswered, &mut out, &mut err).number();
    Said { status, out, err }
}

/// What is shown of a transcript.
fn shown<D: BlockDriver>(
    alloc: Global,
    transcript: &Transcript<'_, D>,
) -> Result<Shown, AllocError> {
    let marks = transcript.marks(alloc)?;
    let said = said_of(alloc, marks.as_slice(), transcript.unanswered);
    Ok((said, Some(transcript.image(alloc)?)))
}

/// What is shown of a refusal.
fn refused(alloc: Global, refusal: &RunRefusal) -> Result<Shown, AllocError> {
    let out = Vec::new(alloc);
    let err = format!(in alloc; "{refusal}\n")?.into_bytes();
    Ok((
        Said {
            status: 1,
            out,
            err,
        },
        None,
    ))
}

/// Whether a request was refused, and what is shown of a run that was begun.
fn shown_behind<D: BlockDriver>(
    alloc: Global,
    transcript: &Transcript<'_, D>,
) -> Result<(Shown, bool), AllocError> {
    let was_refused = was_refused(alloc);
    Ok((shown(alloc, transcript)?, was_refused))
}

/// The same of a run that was refused.
fn refused_behind(alloc: Global, refusal: &RunRefusal) -> Result<(Shown, bool), AllocError> {
    let was_refused = was_refused(alloc);
    Ok((refused(alloc, refusal)?, was_refused))
}

/// Runs events on an image, over drivers that were made before the order: which of its requests is refused, or 0 for none. What is shown
/// of the run, and whether a request was refused.
fn ran_over<D: BlockDriver>(
    alloc: Global,
    image: &[u8],
    supply: Vec<D>,
    events: &[Event<'_>],
    number: u16,
    request: u32,
) -> Result<(Shown, bool), AllocError>
    requires few { length events.now < 2 ^ 32 }
{
    let setup = whole();
    if request > 0 {
        refuse(alloc, number, request);
    }
    match World::run(alloc, image, &setup, supply, events) {
        Ok(transcript) => shown_behind(alloc, &transcript),
        Err(refusal) => refused_behind(alloc, &refusal),
    }
}

/// The same over six drivers.
fn ran(
    alloc: Global,
    image: &[u8],
    events: &[Event<'_>],
    number: u16,
    request: u32,
) -> Result<(Shown, bool), AllocError>
    requires few { length events.now < 2 ^ 32 }
{
    let supply = drivers_for(alloc, 5, false, table_in(image))?;
    ran_over(alloc, image, supply, events, number, request)
}

/// Whether a run is right of which a request was refused, or none was, beside the undisturbed one: it is refused for want of memory, and
/// nothing goes out; or all is as it was there, but for reads that had no memory, and the media hold the same.
fn is_right(came: &Shown, undisturbed: &Shown, refused: bool) -> bool {
    let is_left = came.1.is_none() || came.1 == undisturbed.1;
    let is_whole_or_none = came.0.status == 0 || came.0.out.is_empty();
    is_left && is_whole_or_none && came.0.is_right(&undisturbed.0.out, refused)
}

/// Whether this was the last request of a run on an image, which is refused and comes out right beside the undisturbed one.
fn is_last_run(
    alloc: Global,
    image: &[u8],
    events: &[Event<'_>],
    number: u16,
    request: u32,
    undisturbed: &Shown,
) -> Result<bool, Fail>
    requires few { length events.now < 2 ^ 32 }
{
    let (came, refused) = ran(alloc, image, events, number, request)?;
    is_last(
        number,
        request,
        refused,
        is_right(&came, undisturbed, refused),
    )
}

/// Runs events on an image with the first request refused, then with the second, until none is. It comes out right each time.
fn runs_each_refused(
    alloc: Global,
    image: &[u8],
    events: &[Event<'_>],
    number: u16,
) -> Result<(), Fail>
    requires few { length events.now < 2 ^ 32 }
{
    let (undisturbed, _) = ran(alloc, image, events, number, 0)?;
    for request in 1..=MOST {
        if is_last_run(alloc, image, events, number, request, &undisturbed)? {
            return Ok(());
        }
    }
    Err(Fail::from("no end"))
}

/// The same of a schedule on a new volume.
fn run_each_refused(alloc: Global, number: u16, schedule: &str) -> Result<(), Fail> {
    let image = new_volume(alloc, 1024)?;
    let schedule = read_schedule(alloc, schedule.as_bytes())?;
    let events = schedule.events(alloc)?;
    runs_each_refused(alloc, &image, events.as_slice(), number)
}

#[test]
fn runs_of_schedules(rt: HostRuntime) -> Result<(), Fail> {
    let mut number = 22u16;
    for schedule in &SCHEDULES {
        run_each_refused(rt.alloc(), number, *schedule)?;
        number = number.saturating_add(1);
    }
    Ok(())
}
