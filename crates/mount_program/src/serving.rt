//! Serving an image as the words of the command line say.

use crate::keeping::{Begun, KeptImage, begin, begin_to_keep, finished, refused};
use gate::paced_gate::Paced;
use host::command_line::{line_of, status_for};
use host::frames::frames_for;
use host::play_words::mount::{MountProgram, MountWords, read as read_words};
use locked_image::locked::{LockedImage, open};
use modeldisk::supply::table_in;
use mount_service::handing::let_go;
use mount_service::killed::Killing;
use mount_service::mortal::{Mortality, mortal_drivers, mortal_setup};
use mount_service::mount::{Ended, MountStatus, mount};
use mount_service::program::Streams;
use mount_service::teller::Teller;
use std::alloc::{AllocError, Global};
use std::io::{self, BufRead, Write};
use std::process::ExitCode;
use std::sync::{Arc, Wait};
use std::thread::Threads;
use talks::answers::Answers;

/// How long the lines of a mount's end are at most, beside the names of files in them.
const LINES: usize = 256;

/// The streams of messages and answers, and who answers.
#[derive(Drop)]
pub struct Messages<I, O, W> {
    /// Where messages come from.
    pub input: I,
    /// Where answers go.
    pub output: O,
    /// Who answers the messages.
    pub answerer: W,
}

/// When drivers die: in the request of this number that they take, or when they are told to, which they are every so many milliseconds;
/// with 0 for both they don't.
fn mortality(die_every: u32, kill_every: u32) -> Mortality {
    match (die_every, kill_every) {
        (0, 0) => Mortality::Never,
        (0, _) => Mortality::WhenTold,
        (request, _) => Mortality::InRequest(request),
    }
}

/// Mounts the volume in an image, whose bytes are none where it couldn't be read, with what the mount begins with. The service has threads of
/// its own, and ticks as the words say. Its drivers are told by this thread; the lines of its end go to `err`.
fn mount_image<
    R: Threads + Wait + Copy + Send + Sync + 'static,
    I: BufRead + Drop,
    O: Write + Drop,
    W: Answers + Drop,
    E: Write,
>(
    rt: HostRuntime,
    waits: R,
    words: &MountWords<'_>,
    messages: Messages<I, O, W>,
    begun: Begun,
    teller: &Teller,
    err: &mut E,
) -> io::Result<Ended<I, O, HostRuntime, KeptImage, W>> {
    let alloc = rt.alloc();
    let Begun { image, archive } = begun;
    let mortality = mortality(words.die_every, words.kill_every);
    let bytes = image.as_deref().unwrap_or(&[]);
    let table = table_in(bytes);
    let frames = frames_for(words.frames, bytes.len());
    let killing = Killing::start(alloc, &waits, words.kill_every)?;
    let drivers = mortal_drivers(alloc, words.spares, words.model, mortality, table)?;
    let supply = killing.drivers(alloc, drivers)?;
    let mut setup = mortal_setup(words.minor, mortality);
    setup.frames = frames;
    let gate = Arc::new(alloc, teller.gate(Paced::ticking(waits, words.tick))?)?;
    let Messages {
        input,
        output,
        answerer,
    } = messages;
    let streams = Streams {
        input,
        output,
        answerer,
        clock: rt,
        archive,
        sync_every: words.sync_every,
    };
    let ended = mount(
        alloc,
        waits,
        words.image,
        image,
        &setup,
        supply,
        gate,
        streams,
        err,
    );
    killing.end(&waits);
    Ok(ended)
}

/// Serves the image, and leaves none.
fn serve_only<
    R: Threads + Wait + Copy + Send + Sync + 'static,
    I: BufRead + Drop,
    O: Write + Drop,
    W: Answers + Drop,
    E: Write,
>(
    rt: HostRuntime,
    waits: R,
    words: &MountWords<'_>,
    messages: Messages<I, O, W>,
    teller: &Teller,
    err: &mut E,
) -> io::Result<MountStatus> {
    match begin(rt, words) {
        Ok(begun) => {
            let mounted = mount_image(rt, waits, words, messages, begun, teller, err)?;
            Ok(let_go(rt.alloc(), mounted, err))
        }
        Err(status) => Ok(status),
    }
}

/// Serves the image, and keeps the locked one, which has this name.
fn serve_and_keep<
    R: Threads + Wait + Copy + Send + Sync + 'static,
    I: BufRead + Drop,
    O: Write + Drop,
    W: Answers + Drop,
    E: Write,
>(
    rt: HostRuntime,
    waits: R,
    words: &MountWords<'_>,
    messages: Messages<I, O, W>,
    locked: &mut LockedImage,
    name: &str,
    teller: &Teller,
    err: &mut E,
) -> io::Result<MountStatus> {
    match begin_to_keep(rt, words, locked, name) {
        Ok(begun) => {
            let mounted = mount_image(rt, waits, words, messages, begun, teller, err)?;
            Ok(finished(rt, words, mounted, name, err))
        }
        Err(status) => Ok(status),
    }
}

/// Serves what the words say. The image that is kept is locked meanwhile.
fn serve_image<
    R: Threads + Wait + Copy + Send + Sync + 'static,
    I: BufRead + Drop,
    O: Write + Drop,
    W: Answers + Drop,
    E: Write,
>(
    rt: HostRuntime,
    waits: R,
    words: &MountWords<'_>,
    messages: Messages<I, O, W>,
    teller: &Teller,
    err: &mut E,
) -> io::Result<MountStatus> {
    let Some(name) = words.out else {
        return serve_only(rt, waits, words, messages, teller, err);
    };
    match open(&rt, name) {
        Ok(locked) => {
            let mut locked = locked;
            let served = serve_and_keep(rt, waits, words, messages, &mut locked, name, teller, err);
            locked.close(&rt);
            served
        }
        Err(refusal) => Ok(refused(rt, &refusal)),
    }
}

/// Room for the lines of a mount's end.
fn room_for_lines(alloc: Global, words: &MountWords<'_>) -> Result<Vec<u8>, AllocError> {
    let out = words.out.unwrap_or("");
    let names = words.image.len().saturating_add(out.len());
    Vec::with_capacity(alloc, names.saturating_add(LINES))
}

/// Serves as these words say. Standard error gets the lines of the end once the image is written and the drivers are told: so nothing but
/// the end of the program waits for whoever reads them.
fn serve_and_tell<
    R: Threads + Wait + Copy + Send + Sync + 'static,
    I: BufRead + Drop,
    O: Write + Drop,
    W: Answers + Drop,
>(
    rt: HostRuntime,
    waits: R,
    words: &MountWords<'_>,
    messages: Messages<I, O, W>,
) -> io::Result<ExitCode> {
    let mut lines = room_for_lines(rt.alloc(), words)?;
    let teller = Teller::start(rt.alloc(), &waits, rt)?;
    let status = serve_image(rt, waits, words, messages, &teller, &mut lines)?;
    teller.end(&waits);
    let _ = rt.stderr().write_all(&lines);
    Ok(ExitCode::from(status.number()))
}

/// Does what this program is for, as the words of the command line say: serves an image by these messages. The status of the process.
pub fn serve<
    R: Threads + Wait + Copy + Send + Sync + 'static,
    I: BufRead + Drop,
    O: Write + Drop,
    W: Answers + Drop,
>(
    rt: HostRuntime,
    waits: R,
    program: MountProgram,
    messages: Messages<I, O, W>,
) -> io::Result<ExitCode> {
    let Some(line) = line_of(&rt)? else {
        return Ok(ExitCode::from(2));
    };
    match read_words(rt.alloc(), program, line.as_slice()) {
        Ok(words) => serve_and_tell(rt, waits, &words, messages),
        Err(error) => {
            error.print(&rt)?;
            Ok(ExitCode::from(status_for(&error)))
        }
    }
}
