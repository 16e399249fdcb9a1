//! Schedules, from their text to their events.

ghost use Rattle.std.specs.Prelude.{◌≡◌, ◌<◌, ◌^◌, IfOk, IfErr, OnErr, flat_map, length, map};
ghost use Rattle.schedule_text.specs.Events.{line_bytes, line_event, plain_event, schedule_in};
ghost use Rattle.schedule_text.specs.Refusals.{IsRefused};

use crate::line::{Line, read_numbered};
use call_text::words::cut;
use schedule::Event;
use std::alloc::{AllocError, Global};
use thiserror::Error;

/// Why a schedule isn't read.
#[derive(Clone, Copy, Debug, PartialEq, Eq, Error)]
pub enum ScheduleRefusal {
    /// The line of this number, counted from 1, is the first that can't be read.
    #[error("bad line {0}")]
    BadLine(u64),
    /// No memory was found for an event, or for the bytes of its call.
    #[error("OutOfMemory")]
    OutOfMemory,
}

/// Reads the lines of a schedule, each ended by a newline. Memory is sought only once a line was read.
fn read_lines(alloc: Global, text: &[u8]) -> Result<Vec<Line<'_>>, ScheduleRefusal>
    ensures ok { IfOk result (λ lines. schedule_in text.now ≡ Ok (map line_event lines.items)) }
    ensures few { IfOk result (λ lines. length lines.items < 2 ^ 32) }
    ensures err { IfErr result (IsRefused text.now) }
{
    let mut lines = Vec::new(alloc);
    let mut rest = text;
    while !rest.is_empty() {
        // A line was read for each that is kept.
        let number = lines.len() as u64 + 1;
        let Some((line, after)) = cut(rest, b'\n') else {
            return Err(ScheduleRefusal::BadLine(number));
        };
        rest = after;
        let Some(read) = read_numbered(number, line) else {
            return Err(ScheduleRefusal::BadLine(number));
        };
        if lines.push(read).is_err() {
            return Err(ScheduleRefusal::OutOfMemory);
        }
    }
    Ok(lines)
}

/// The bytes that are decoded for the lines' calls, one call's after the other's.
fn decode_lines(alloc: Global, lines: &[Line<'_>]) -> Result<Vec<u8>, AllocError>
    ensures bytes { IfOk result (λ bytes. bytes.items ≡ flat_map line_bytes lines.now) }
    ensures some { OnErr result (0 < length lines.now) }
{
    let mut bytes = Vec::new(alloc);
    for line in lines {
        line.decode(&mut bytes)?;
    }
    Ok(bytes)
}

/// The lines' events, with the bytes that were decoded for their calls.
fn events_of<'t>(
    alloc: Global,
    lines: &[Line<'t>],
    bytes: &'t [u8],
) -> Result<Vec<Event<'t>>, AllocError>
    requires { bytes.now ≡ flat_map line_bytes lines.now }
    ensures events { IfOk result (λ events. map plain_event events.items ≡ map line_event lines.now) }
    ensures some { OnErr result (0 < length lines.now) }
{
    let mut events = Vec::new(alloc);
    let mut rest = bytes;
    for line in lines {
        let (own, after) = rest.split_at(line.decoded_len());
        events.push(line.event(own))?;
        rest = after;
    }
    Ok(events)
}

/// A schedule that was read: its lines, and the bytes of its calls.
#[derive(Drop)]
pub struct Schedule<'t> {
    lines: Vec<Line<'t>>,
    bytes: Vec<u8>,
    ghost whole: { bytes.items ≡ flat_map line_bytes lines.items },
    ghost few: { length lines.items < 2 ^ 32 },
}

/// Reads a schedule: a line for each event, ended by a newline. No bytes are a schedule without events.
///
/// A bad line is the first that can't be read; line 4294967296 and later ones can't. Memory is sought only once a line was read.
pub fn read_schedule(alloc: Global, text: &[u8]) -> Result<Schedule<'_>, ScheduleRefusal>
    ensures ok { IfOk result (λ schedule. schedule_in text.now ≡ Ok (map line_event schedule.lines.items)) }
    ensures err { IfErr result (IsRefused text.now) }
{
    let lines = read_lines(alloc, text)?;
    match decode_lines(alloc, lines.as_slice()) {
        Ok(bytes) => Ok(Schedule { lines, bytes }),
        Err(_) => Err(ScheduleRefusal::OutOfMemory),
    }
}

impl Schedule<'_> {
    /// Its events, in the order of the lines, fewer than 2 to the 32nd. The calls' paths and bytes stand in the schedule and in its text.
    /// An error: no memory was found for an event.
    pub fn events(&self, alloc: Global) -> Result<Vec<Event<'_>>, AllocError>
        ensures events { IfOk result (λ events. map plain_event events.items ≡ map line_event self.now.lines.items) }
        ensures few { IfOk result (λ events. length events.items < 2 ^ 32) }
        ensures some { OnErr result (0 < length self.now.lines.items) }
    {
        events_of(alloc, self.lines.as_slice(), self.bytes.as_slice())
    }
}
