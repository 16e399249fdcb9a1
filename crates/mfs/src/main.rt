//! Plays scripts of client calls against a file server over the image of a volume.
#![tactic(auto)]

mod files;

use crate::files::{files, read_all, write_left};
use gate::paced_gate::Paced;
use host::command_line::{line_of, status_for};
use host::frames::frames_for;
use host::play_words::mfs::{MfsWords, read as read_words};
use host::whole_file::{read_front, try_replace};
use locked_image::FilesRefusal;
use locked_image::locked::{LockedImage, open};
use locked_image::reading::read_image;
use locked_image::reasons::why;
use modeldisk::supply::{drivers_for, setup_for, table_in};
use output::tell;
use release::start_on;
use std::io;
use std::process::ExitCode;
use std::sync::{Arc, Wait};
use std::thread::Threads;
use tools::handing::let_go;
use tools::play::{Ended, ImageFile, PlayStatus, play};

/// Plays the scripts that the words name on an image. The service has threads of its own, and a tick of it takes a tenth of a second.
fn play_files<W: Threads + Wait + Copy + Send + Sync + 'static>(
    rt: HostRuntime,
    waits: W,
    words: &MfsWords<'_>,
    image: Vec<u8>,
) -> io::Result<Ended> {
    let alloc = rt.alloc();
    let image = start_on(alloc, Some(image), words.minor, &mut rt.stderr());
    let read = read_all(&rt, &words.scripts)?;
    let scripts = files(alloc, &read)?;
    let bytes = image.as_deref().unwrap_or(&[]);
    let table = table_in(bytes);
    let frames = frames_for(words.frames, bytes.len());
    let supply = drivers_for(alloc, words.spares, words.model, table)?;
    let mut setup = setup_for(words.minor);
    setup.frames = frames;
    let gate = Arc::new(alloc, Paced::new(waits))?;
    let image = ImageFile {
        name: words.image,
        bytes: image,
    };
    let (mut out, mut err) = (io::writer(&rt), rt.stderr());
    Ok(play(
        alloc,
        waits,
        image,
        scripts.as_slice(),
        &setup,
        supply,
        gate,
        &mut out,
        &mut err,
    ))
}

/// Plays the scripts, and leaves no image.
fn play_only<W: Threads + Wait + Copy + Send + Sync + 'static>(
    rt: HostRuntime,
    waits: W,
    words: &MfsWords<'_>,
) -> io::Result<PlayStatus> {
    match read_image(&rt, words.image) {
        Ok(image) => {
            let played = play_files(rt, waits, words, image)?;
            Ok(let_go(rt.alloc(), played, &mut rt.stderr()))
        }
        Err(refusal) => Ok(refused(rt, &refusal)),
    }
}

/// Plays the scripts, and puts the image that is left in the place of the locked one, which has this name.
fn play_into<W: Threads + Wait + Copy + Send + Sync + 'static>(
    rt: HostRuntime,
    waits: W,
    words: &MfsWords<'_>,
    locked: &mut LockedImage,
    name: &str,
) -> io::Result<PlayStatus> {
    match image_beside(rt, words, locked, name) {
        Ok(image) => {
            let played = play_files(rt, waits, words, image)?;
            Ok(write_left(rt, words, locked, name, played))
        }
        Err(refusal) => Ok(refused(rt, &refusal)),
    }
}

/// The image that the words name, where another one, or the same, is locked and is to be replaced; that one's log is settled. A script isn't
/// replaced.
fn image_beside<'n>(
    rt: HostRuntime,
    words: &MfsWords<'n>,
    locked: &LockedImage,
    name: &'n str,
) -> Result<Vec<u8>, FilesRefusal<'n>> {
    if words.scripts.iter().any(|it| locked.is_image(&rt, it)) {
        return Err(FilesRefusal::CannotWrite(name, "it is one of the scripts"));
    }
    locked.settle(&rt, name)?;
    if let Err(error) = try_replace(&rt, name) {
        return Err(FilesRefusal::CannotWrite(name, why(&error)));
    }
    if locked.is_image(&rt, words.image) {
        read_front(&rt, words.image).map_err(|error| FilesRefusal::CannotRead(
            words.image,
            why(&error),
        ))
    } else {
        read_image(&rt, words.image)
    }
}

/// How a play ended that was refused, as a line on standard error says.
fn refused(rt: HostRuntime, refusal: &FilesRefusal<'_>) -> PlayStatus {
    PlayStatus::Refused(tell(rt.alloc(), &mut rt.stderr(), refusal))
}

/// Plays what the words say. The image that is to be written is locked meanwhile.
fn run<W: Threads + Wait + Copy + Send + Sync + 'static>(
    rt: HostRuntime,
    waits: W,
    words: &MfsWords<'_>,
) -> io::Result<PlayStatus> {
    let Some(name) = words.out else {
        return play_only(rt, waits, words);
    };
    match open(&rt, name) {
        Ok(locked) => {
            let mut locked = locked;
            let played = play_into(rt, waits, words, &mut locked, name);
            locked.close(&rt);
            played
        }
        Err(refusal) => Ok(refused(rt, &refusal)),
    }
}

fn main(rt: HostRuntime) -> io::Result<ExitCode> {
    let Some(line) = line_of(&rt)? else {
        return Ok(ExitCode::from(2));
    };
    match read_words(rt.alloc(), line.as_slice()) {
        Ok(words) => Ok(ExitCode::from(run(rt, rt, &words)?.number())),
        Err(error) => {
            error.print(&rt)?;
            Ok(ExitCode::from(status_for(&error)))
        }
    }
}
