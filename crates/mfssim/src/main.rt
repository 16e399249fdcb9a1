//! Runs a file server over the image of a volume while a schedule moves its drivers, and prints the transcript.
#![tactic(auto)]

use host::command_line::{line_of, status_for};
use host::play_words::mfssim::{MfssimWords, read as read_words};
use host::whole_file::read;
use locked_image::reading::read_image;
use locked_image::reasons::why;
use modeldisk::supply::{drivers_for, setup_for, table_in};
use output::tell;
use simulation::inputs::File;
use simulation::simulate::simulate;
use std::io;
use std::process::ExitCode;

/// Runs a schedule, whose file has this name, on the image that the words name.
fn run_on(
    rt: HostRuntime,
    words: &MfssimWords<'_>,
    image: &[u8],
    name: &str,
    schedule: Option<&[u8]>,
) -> io::Result<ExitCode> {
    let alloc = rt.alloc();
    let supply = drivers_for(alloc, words.spares, false, table_in(image))?;
    let setup = setup_for(words.minor);
    let image = File {
        name: words.image,
        bytes: Some(image),
    };
    let schedule = File {
        name,
        bytes: schedule,
    };
    let (mut out, mut err) = (io::writer(&rt), rt.stderr());
    let status = simulate(alloc, image, schedule, &setup, supply, &mut out, &mut err);
    Ok(ExitCode::from(status.number()))
}

/// Runs the schedule that the words name on an image. Where it can't be read, why stands behind its name.
fn run_schedule(rt: HostRuntime, words: &MfssimWords<'_>, image: &[u8]) -> io::Result<ExitCode> {
    let name = words.schedule;
    match read(&rt, name) {
        Ok(schedule) => run_on(rt, words, image, name, Some(schedule.as_slice())),
        Err(error) => {
            let name = format!(in rt.alloc(); "{name}: {}", why(&error))?;
            run_on(rt, words, image, name.as_str(), None)
        }
    }
}

/// The same on the image that the words name, with what its log asks for. Where it is refused a line on standard error says why.
fn run_files(rt: HostRuntime, words: &MfssimWords<'_>) -> io::Result<ExitCode> {
    match read_image(&rt, words.image) {
        Ok(image) => run_schedule(rt, words, image.as_slice()),
        Err(refusal) => {
            tell(rt.alloc(), &mut rt.stderr(), &refusal);
            Ok(ExitCode::from(1))
        }
    }
}

fn main(rt: HostRuntime) -> io::Result<ExitCode> {
    let Some(line) = line_of(&rt)? else {
        return Ok(ExitCode::from(2));
    };
    match read_words(rt.alloc(), line.as_slice()) {
        Ok(words) => run_files(rt, &words),
        Err(error) => {
            error.print(&rt)?;
            Ok(ExitCode::from(status_for(&error)))
        }
    }
}
