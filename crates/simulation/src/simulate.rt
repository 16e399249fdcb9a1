//! A run of a schedule, from the bytes of its two files to the lines of its transcript.

ghost use Rattle.std.specs.Prelude.{◌≡◌, ◌<◌, ◌^◌, length, map};
ghost use Rattle.world.specs.ShownTranscript.{transcript_of};
ghost use Rattle.simulation.specs.Simulated.{Runs, ShowsRun, Simulates};

use crate::inputs::{File, InputRefusal, read_inputs};
use crate::show::{NotShown, SimulationStatus, refuse, show};
use output::OutputRefusal;
use reincarnate::policy::Setup;
use schedule::Event;
use std::alloc::Global;
use std::io::Write;
use synchronous_driver::local::LocalDriver;
use world::World;
use world::transcript::Transcript;

/// Runs the schedule in a file on the image in another, and writes the transcript on `out`: a line for each mark, the oldest first, and
/// last `unanswered N`.
///
/// Faults are looked for in this order: reading the image, reading the schedule, its lines, and what the run is refused for. For the first
/// of them a line goes to `err`, nothing is run and nothing goes out. Where the transcript can't be written, or no memory is found for it,
/// a beginning of it went out, and a line on `err` says why.
pub fn simulate<D: LocalDriver, W: Write, E: Write>(
    alloc: Global,
    image: File<'_, '_>,
    schedule: File<'_, '_>,
    setup: &Setup,
    supply: Vec<D>,
    out: &mut W,
    err: &mut E,
) -> SimulationStatus
    ensures { Simulates image.entry schedule.entry setup.now (map D.state supply.items) (out.new ≡ out.old) result
        (W.contents out.old) (W.contents out.new) (E.contents err.old) (E.contents err.new) }
{
    let (image, schedule) = match read_inputs(alloc, image, schedule) {
        Ok(inputs) => inputs,
        Err(refusal) => return refuse(alloc, &refusal, err),
    };
    match schedule.events(alloc) {
        Ok(events) => run(alloc, image, events.as_slice(), setup, supply, out, err),
        Err(_) => refuse(alloc, &InputRefusal::OutOfMemory, err),
    }
}

/// Runs these events, and writes the transcript.
fn run<D: LocalDriver, W: Write, E: Write>(
    alloc: Global,
    image: &[u8],
    events: &[Event<'_>],
    setup: &Setup,
    supply: Vec<D>,
    out: &mut W,
    err: &mut E,
) -> SimulationStatus
    requires few { length events.now < 2 ^ 32 }
    ensures { Runs image.now setup.now (map D.state supply.items) events.now (out.new ≡ out.old) result
        (W.contents out.old) (W.contents out.new) (E.contents err.old) (E.contents err.new) }
{
    match World::run(alloc, image, setup, supply, events) {
        Ok(transcript) => show_run(alloc, &transcript, out, err),
        Err(refusal) => refuse(alloc, &refusal, err),
    }
}

/// Writes the transcript of a run.
fn show_run<D: LocalDriver, W: Write, E: Write>(
    alloc: Global,
    transcript: &Transcript<'_, D>,
    out: &mut W,
    err: &mut E,
) -> SimulationStatus
    ensures { ShowsRun (transcript_of D.state transcript.now) result (W.contents out.old) (W.contents out.new) (E.contents err.old)
        (E.contents err.new) }
{
    match transcript.marks(alloc) {
        Ok(marks) => show(alloc, marks.as_slice(), transcript.unanswered, out, err),
        Err(_) => refuse(alloc, &NotShown(OutputRefusal::OutOfMemory), err),
    }
}
