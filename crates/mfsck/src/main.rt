//! Checks the volume in an image.
#![tactic(auto)]

use host::command_line::{line_of, status_for};
use host::volume_words::mfsck::{MfsckWords, read as read_words};
use locked_image::reading::read_image;
use output::tell;
use std::io;
use std::process::ExitCode;
use volume_commands::verify::{Verified, verify};

/// Checks the volume in the file that the words name.
fn check_file(rt: HostRuntime, words: &MfsckWords<'_>) -> io::Result<ExitCode> {
    let alloc = rt.alloc();
    let (mut out, mut err) = (io::writer(&rt), rt.stderr());
    let verified = match read_image(&rt, words.image) {
        Ok(image) => verify(
            alloc,
            words.image,
            Some(image.as_slice()),
            words.minor,
            &mut out,
            &mut err,
        ),
        Err(refusal) => Verified::Refused(tell(alloc, &mut err, &refusal)),
    };
    Ok(ExitCode::from(verified.number()))
}

fn main(rt: HostRuntime) -> io::Result<ExitCode> {
    let Some(line) = line_of(&rt)? else {
        return Ok(ExitCode::from(2));
    };
    match read_words(rt.alloc(), line.as_slice()) {
        Ok(words) => check_file(rt, &words),
        Err(error) => {
            error.print(&rt)?;
            Ok(ExitCode::from(status_for(&error)))
        }
    }
}
