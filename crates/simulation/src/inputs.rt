//! The files of a run.

ghost use Rattle.std.specs.Prelude.{◌≡◌, IfOk, IfErr, Some, map};
ghost use Rattle.schedule_text.specs.Events.{line_event};
ghost use Rattle.simulation.specs.Inputs.{HasSchedule, IsNoInput, IsNoSchedule, refusal_text};

use schedule_text::reading::{Schedule, ScheduleRefusal, read_schedule};
use std::alloc::Global;
use std::fmt;

/// A file that the command line names, and its bytes if it could be read.
#[derive(Clone, Copy)]
pub struct File<'n, 'b> {
    /// The name as it was given.
    pub name: &'n str,
    /// All its bytes; none where it couldn't be read.
    pub bytes: Option<&'b [u8]>,
}

/// Why the files of a run aren't read. Nothing is run.
#[derive(Clone, Copy)]
pub enum InputRefusal<'n> {
    /// The file of this name can't be read.
    CannotRead(&'n str),
    /// The line of this number, from 1, of the schedule of this name can't be read.
    BadLine(u64, &'n str),
    /// No memory was found for the schedule.
    OutOfMemory,
}

impl fmt::Display for InputRefusal<'_> {
    ghost output = { λ r. Some (refusal_text r) };

    fn fmt<W: fmt::Write>(&self, f: &mut fmt::Formatter<W>) -> fmt::Result {
        match self {
            InputRefusal::CannotRead(name) => write!(f, "cannot read {name}"),
            InputRefusal::BadLine(number, name) => write!(f, "bad line {number} of {name}"),
            InputRefusal::OutOfMemory => f.write_str("OutOfMemory"),
        }
    }
}

/// The bytes of a file.
fn readable<'n, 'b>(file: File<'n, 'b>) -> Result<&'b [u8], InputRefusal<'n>>
    ensures ok { IfOk result (λ bytes. file.entry.bytes ≡ Some bytes) }
    ensures err { IfErr result (λ refusal. (file.entry.bytes ≡ None) × (refusal ≡ InputRefusal.CannotRead file.entry.name)) }
{
    match file.bytes {
        Some(bytes) => Ok(bytes),
        None => Err(InputRefusal::CannotRead(file.name)),
    }
}

/// The schedule that a file holds.
fn schedule_of<'n, 'b>(alloc: Global, file: File<'n, 'b>) -> Result<Schedule<'b>, InputRefusal<'n>>
    ensures ok { IfOk result (λ schedule. HasSchedule file.entry (map line_event schedule.lines.items)) }
    ensures err { IfErr result (IsNoSchedule file.entry) }
{
    let text = readable(file)?;
    match read_schedule(alloc, text) {
        Ok(schedule) => Ok(schedule),
        Err(ScheduleRefusal::BadLine(number)) => Err(InputRefusal::BadLine(number, file.name)),
        Err(ScheduleRefusal::OutOfMemory) => Err(InputRefusal::OutOfMemory),
    }
}

/// The bytes of an image, and the schedule that a file holds. Faults are looked for in this order: reading the image, reading the
/// schedule, its lines.
pub fn read_inputs<'n, 'b>(
    alloc: Global,
    image: File<'n, 'b>,
    schedule: File<'n, 'b>,
) -> Result<(&'b [u8], Schedule<'b>), InputRefusal<'n>>
    ensures ok { IfOk result (λ inputs. (image.entry.bytes ≡ Some inputs.0)
        × HasSchedule schedule.entry (map line_event inputs.1.lines.items)) }
    ensures err { IfErr result (IsNoInput image.entry schedule.entry) }
{
    let image = readable(image)?;
    let schedule = schedule_of(alloc, schedule)?;
    Ok((image, schedule))
}
