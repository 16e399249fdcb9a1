//! Schedules that are run out: events are added, and all are run again, until nothing is left to do.

ghost use Rattle.std.specs.Prelude.{◌<◌, ◌^◌, length};

use crate::requests::Requests;
use crate::schedules::twice;
use crate::settings::Setting;
use crate::standing::{Standing, standing_after};
use fixtures::whole;
use modeldisk::supply::{DiskDriver, drivers_for, table_in};
use reply_text::mark::MarkRef;
use schedule::Event;
use simulation::transcript::Transcript;
use simulation::world::World;
use std::alloc::{AllocError, Global};
use tree::Reply;

/// What became of a schedule that was run out: the bytes of the media, or what is wrong.
#[derive(Drop)]
pub enum RanOut {
    Image(Vec<u8>),
    Wrong(&'static str),
}

/// What comes after a run.
#[derive(Drop)]
enum After {
    /// More events.
    More(Vec<Event<'static>>),
    /// All was done, and these events come once more.
    Again(Vec<Event<'static>>),
    End(RanOut),
}

/// How often a schedule is run, at most.
const ROUNDS: u32 = 200;

/// How many events a schedule has, at most.
const EVENTS: usize = 100_000;

/// Whether this is the reply of this number to a client of this session: a file of 2048 bytes of its own is made, synced and read.
fn is_wanted(session: u8, number: u32, reply: &Reply) -> bool {
    let own = session.saturating_add(0x61);
    match (number, reply) {
        (0, Reply::Descriptor(0)) | (1, Reply::Wrote(2048)) | (2, Reply::Done) => true,
        (3, Reply::At(0)) => true,
        (4, Reply::Bytes(bytes)) => bytes.len() == 2048 && bytes.iter().all(|byte| *byte == own),
        _ => false,
    }
}

/// Whether each call of a session has the reply that is wanted, and all five have one.
fn are_wanted(marks: &[MarkRef<'_>], session: u8) -> bool {
    let mut number = 0u32;
    for mark in marks {
        if let MarkRef::Took(who, _, _, reply) = mark
            && who.session == session
        {
            if !is_wanted(session, number, reply) {
                return false;
            }
            number = number.saturating_add(1);
        }
    }
    number == 5
}

/// Whether no request was open when a sync was answered, which no other call is as.
fn are_synced(marks: &[MarkRef<'_>]) -> bool {
    let mut requests = Requests::NONE;
    for mark in marks {
        requests.see(mark);
        if let MarkRef::Took(_, _, _, Reply::Done) = mark
            && requests.open() > 0
        {
            return false;
        }
    }
    true
}

/// What is wrong with these marks of a run with which all is done, if anything is.
fn wrong_in(setting: &Setting, marks: &[MarkRef<'_>]) -> Option<&'static str> {
    for session in 0..setting.clients() {
        if !are_wanted(marks, session) {
            return Some("replies");
        }
    }
    if are_synced(marks) {
        None
    } else {
        Some("sync")
    }
}

/// What is wrong with a run with which all is done, if anything is.
fn wrong_with(
    alloc: Global,
    setting: &Setting,
    transcript: &Transcript<'_, DiskDriver>,
) -> Result<Option<&'static str>, AllocError> {
    if transcript.unanswered != 0 {
        return Ok(Some("unanswered"));
    }
    let marks = transcript.marks(alloc)?;
    Ok(wrong_in(setting, marks.as_slice()))
}

/// What became of a run with which all is done.
fn judged(
    alloc: Global,
    setting: &Setting,
    transcript: &Transcript<'_, DiskDriver>,
) -> Result<RanOut, AllocError> {
    match wrong_with(alloc, setting, transcript)? {
        Some(why) => Ok(RanOut::Wrong(why)),
        None => Ok(RanOut::Image(transcript.image(alloc)?)),
    }
}

/// What comes after a run that stands so, where anything is left to do; `again` where what was done came once more already.
fn next_of(
    alloc: Global,
    setting: &Setting,
    standing: &Standing,
    again: bool,
) -> Result<Option<After>, AllocError> {
    let next = standing.next_events(alloc, setting.sectors())?;
    if !next.is_empty() {
        return Ok(Some(After::More(next)));
    }
    let last = standing.last_events(alloc, setting.twice)?;
    if last.is_empty() || again {
        return Ok(None);
    }
    Ok(Some(After::Again(last)))
}

/// What comes after a run of events.
fn come_of(
    alloc: Global,
    setting: &Setting,
    transcript: &Transcript<'_, DiskDriver>,
    events: &[Event<'_>],
    again: bool,
) -> Result<After, AllocError> {
    let standing = standing_after(alloc, transcript, events)?;
    match next_of(alloc, setting, &standing, again)? {
        Some(after) => Ok(after),
        None => Ok(After::End(judged(alloc, setting, transcript)?)),
    }
}

/// Runs events on an image, over drivers of the setting, and says what comes then.
fn run_once(
    alloc: Global,
    setting: &Setting,
    image: &[u8],
    events: &[Event<'_>],
    again: bool,
) -> Result<After, AllocError>
    requires few { length events.now < 2 ^ 32 }
{
    let supply = drivers_for(alloc, 5, setting.arms, table_in(image))?;
    match World::run(alloc, image, &whole(), supply, events) {
        Ok(transcript) => come_of(alloc, setting, &transcript, events, again),
        Err(_) => Ok(After::End(RanOut::Wrong("no run"))),
    }
}

/// Adds events to a schedule: as they are, or each reply twice.
fn add<'t>(
    alloc: Global,
    setting: &Setting,
    events: &mut Vec<Event<'t>>,
    more: &[Event<'t>],
) -> Result<(), AllocError> {
    if setting.twice {
        events.extend_from_slice(twice(alloc, more)?.as_slice())
    } else {
        events.extend_from_slice(more)
    }
}

/// Adds what comes after a run to its events; what became of it, where nothing comes. `again` is set where what was done comes once more.
fn go_on(
    alloc: Global,
    setting: &Setting,
    after: After,
    events: &mut Vec<Event<'_>>,
    again: &mut bool,
) -> Result<Option<RanOut>, AllocError> {
    match after {
        After::End(end) => return Ok(Some(end)),
        After::More(more) => add(alloc, setting, events, more.as_slice())?,
        After::Again(more) => {
            *again = true;
            events.extend_from_slice(more.as_slice())?;
        }
    }
    Ok(None)
}

/// Runs a schedule out on an image.
pub fn run_out(
    alloc: Global,
    setting: &Setting,
    image: &[u8],
    schedule: Vec<Event<'_>>,
) -> Result<RanOut, AllocError> {
    let (mut events, mut again) = (schedule, false);
    for _ in 0..ROUNDS {
        if events.len() > EVENTS {
            break;
        }
        let after = run_once(alloc, setting, image, events.as_slice(), again)?;
        if let Some(end) = go_on(alloc, setting, after, &mut events, &mut again)? {
            return Ok(end);
        }
    }
    Ok(RanOut::Wrong("no end"))
}
