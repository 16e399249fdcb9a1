//! Schedules, scripts and boot sectors of drawn bytes: each is refused by name, or run.

use crate::replies::are_replies;
use fixtures::{new_volume, whole};
use fixtures_faults::damaged::put;
use fixtures_faults::draws::Draws;
use fixtures_plays::plays::Play;
use modeldisk::supply::{drivers_for, table_in};
use reincarnate::policy::Setup;
use simulation::inputs::File;
use simulation::simulate::simulate;
use std::alloc::{AllocError, Global};
use std::sync::Wait;
use std::test::Fail;
use std::thread::Threads;
use std::time::Clock;

/// How many of each are tried.
const COUNT: u32 = 1000;

/// A schedule with each kind of event.
const SCHEDULE: &str = "\
call 0 0 0 100 open /f rwc 644
call 1 5 7 100 write 0 61
call 0 0 0 100 sync
step 1
step 1
deliver 0
repeat 0
hang 1
tick
die 1
die 1 ee
tick
step 2
flush
";

/// A script with each kind of call.
const SCRIPT: &str = "\
user 5 7
100 open /f rwc 644
100 write 0 68656c6c6f
100 fill 0 9 61
100 read 0 9
100 seek 0 end -3
100 dup 0
100 close 1
100 stat /f
100 fstat 0
100 readdir 0
100 mkdir /d 755
100 rmdir /d
100 link /f /g
100 rename /g /h
100 unlink /h
100 chmod /f 600
100 chown /f 5 7
100 utime /f 1 2
100 truncate /f 3
100 symlink f /l
100 readlink /l
100 lstat /l
100 sync
100 statfs
";

/// Bytes that stand in texts.
static USUAL: [u8; 16] = *b" \n0123456789aef/";

/// A byte that is drawn, more often one that stands in texts.
fn byte(draws: &mut Draws) -> u8 {
    if draws.one_in(4) {
        return draws.byte();
    }
    let at = draws.place(USUAL.len());
    USUAL.get(at).copied().unwrap_or(0)
}

/// Up to 80 bytes, each of them drawn.
fn any_bytes(alloc: Global, draws: &mut Draws) -> Result<Vec<u8>, AllocError> {
    let mut bytes = Vec::new(alloc);
    for _ in 0..draws.below(81) {
        bytes.push(draws.byte())?;
    }
    Ok(bytes)
}

/// A text of which up to three bytes are drawn, and which may be cut; or bytes that are all drawn.
fn any_text(alloc: Global, draws: &mut Draws, text: &str) -> Result<Vec<u8>, AllocError> {
    if draws.one_in(4) {
        return any_bytes(alloc, draws);
    }
    let mut bytes = Vec::from_slice(alloc, text.as_bytes())?;
    for _ in 0..draws.below(4) {
        let (at, new) = (draws.place(bytes.len()), byte(draws));
        if let Some(place) = bytes.get_mut(at) {
            *place = new;
        }
    }
    if draws.one_in(8) {
        let length = draws.place(bytes.len());
        bytes.truncate(length);
    }
    Ok(bytes)
}

/// Whether a text is the refusal of a line of the file `s.txt` that has these bytes.
fn is_bad_line(text: &str, bytes: &[u8]) -> bool {
    let Some(rest) = text.strip_prefix("bad line ") else {
        return false;
    };
    let Some(number) = rest.strip_suffix(" of s.txt\n") else {
        return false;
    };
    let lines = bytes.iter().filter(|byte| **byte == b'\n').count();
    match number.parse::<usize>() {
        Ok(number) => number >= 1 && number <= lines.saturating_add(1),
        Err(_) => false,
    }
}

/// The status of a run, and what it wrote on standard output and on standard error.
type Said = (u8, Vec<u8>, Vec<u8>);

/// What a run of a schedule on an image says under a setup.
fn said(alloc: Global, image: &[u8], schedule: &[u8], setup: &Setup) -> Result<Said, AllocError> {
    let image_file = File {
        name: "v.img",
        bytes: Some(image),
    };
    let schedule_file = File {
        name: "s.txt",
        bytes: Some(schedule),
    };
    let supply = drivers_for(alloc, 5, false, table_in(image))?;
    let (mut out, mut err) = (Vec::new(alloc), Vec::new(alloc));
    let status = simulate(
        alloc,
        image_file,
        schedule_file,
        setup,
        supply,
        &mut out,
        &mut err,
    );
    Ok((status.number(), out, err))
}

/// Whether a text is a whole transcript.
fn is_transcript(text: &str) -> bool {
    match text.lines().last() {
        Some(line) => line.starts_with("unanswered ") && text.starts_with("started 1.1\n"),
        None => false,
    }
}

/// What became of an input.
#[derive(Clone, Copy, Debug, PartialEq, Eq)]
enum Became {
    Run,
    Refused,
    /// Neither, as it should be.
    Wrong,
}

/// Whether what is said is that of a run, or a refusal as it should be.
fn what_became(said: &Said, is_refusal: bool) -> Became {
    let (status, out, err) = said;
    let out = str::from_utf8(out.as_slice()).unwrap_or("");
    match *status {
        0 | 3 if err.is_empty() && is_transcript(out) => Became::Run,
        1 if out.is_empty() && is_refusal => Became::Refused,
        _ => Became::Wrong,
    }
}

/// How many inputs were run, and how many were refused.
#[derive(Clone, Copy)]
struct Counts {
    run: u32,
    refused: u32,
}

impl Counts {
    /// Counts one more; it is an error where it became neither.
    fn count(&mut self, became: Became) -> Result<(), Fail> {
        match became {
            Became::Run => self.run = self.run.saturating_add(1),
            Became::Refused => self.refused = self.refused.saturating_add(1),
            Became::Wrong => {
                let (run, refused) = (self.run, self.refused);
                return Err(Fail::new(format_args!("after {run} run, {refused} refused")));
            }
        }
        Ok(())
    }

    /// Some were run, some were refused, and so many in all.
    fn are_all(&self) -> Result<(), Fail> {
        let (run, refused) = (self.run, self.refused);
        if run > 0 && refused > 0 && run.saturating_add(refused) == COUNT {
            return Ok(());
        }
        Err(Fail::new(format_args!("{run} run, {refused} refused")))
    }
}

/// Nothing was counted.
const NONE: Counts = Counts { run: 0, refused: 0 };

/// What becomes of a schedule that is run on an image.
fn run_of(alloc: Global, image: &[u8], schedule: &[u8]) -> Result<Became, AllocError> {
    let said = said(alloc, image, schedule, &whole())?;
    let err = str::from_utf8(said.2.as_slice()).unwrap_or("");
    Ok(what_became(&said, is_bad_line(err, schedule)))
}

/// What becomes of a drawn one.
fn drawn_run(alloc: Global, image: &[u8], draws: &mut Draws) -> Result<Became, AllocError> {
    let schedule = any_text(alloc, draws, SCHEDULE)?;
    run_of(alloc, image, schedule.as_slice())
}

#[test]
fn schedules_of_drawn_bytes(rt: HostRuntime) -> Result<(), Fail> {
    let image = new_volume(rt.alloc(), 1024)?;
    let (mut draws, mut counts) = (Draws::new(1), NONE);
    for _ in 0..COUNT {
        counts.count(drawn_run(rt.alloc(), &image, &mut draws)?)?;
    }
    counts.are_all()
}

/// Whether these bytes are replies to the calls of a script.
fn answer(script: &[u8], out: &[u8]) -> bool {
    let lines = script.iter().filter(|byte| **byte == b'\n').count();
    let out = str::from_utf8(out).unwrap_or("");
    are_replies(out, lines.saturating_sub(1))
}

/// Whether these bytes refuse a line of a script.
fn refuse(script: &[u8], err: &[u8]) -> bool {
    let err = str::from_utf8(err).unwrap_or("");
    is_bad_line(err, script)
}

/// What became of a script, by the status of its play and what that wrote on both streams.
fn became_of_play(script: &[u8], status: u8, out: &[u8], err: &[u8]) -> Became {
    match status {
        0 if err.is_empty() && answer(script, out) => Became::Run,
        1 if out.is_empty() && refuse(script, err) => Became::Refused,
        _ => Became::Wrong,
    }
}

/// What becomes of a script that is played on a new volume.
fn play_of<R: Threads + Wait + Clock + Copy + Send + Sync + 'static>(
    alloc: Global,
    rt: R,
    script: &[u8],
) -> Result<Became, AllocError> {
    let image = new_volume(alloc, 1024)?;
    let scripts = [Some(script)];
    let played = Play::new(image.as_slice(), &scripts).played(alloc, rt)?;
    Ok(became_of_play(
        script,
        played.status,
        played.out.as_slice(),
        played.err.as_slice(),
    ))
}

/// What becomes of a drawn one.
fn drawn_play<R: Threads + Wait + Clock + Copy + Send + Sync + 'static>(
    alloc: Global,
    rt: R,
    draws: &mut Draws,
) -> Result<Became, AllocError> {
    let script = any_text(alloc, draws, SCRIPT)?;
    play_of(alloc, rt, script.as_slice())
}

#[test]
fn scripts_of_drawn_bytes(rt: HostRuntime) -> Result<(), Fail> {
    let (mut draws, mut counts) = (Draws::new(2), NONE);
    for _ in 0..COUNT {
        counts.count(drawn_play(rt.alloc(), rt, &mut draws)?)?;
    }
    counts.are_all()
}

/// An entry of a table, at a place: all zeros, one of MINIX's type that begins and ends near the volume, or the bytes that are there.
fn put_entry(image: &mut [u8], at: usize, draws: &mut Draws) {
    let first = u8::try_from(draws.below(4)).unwrap_or(0);
    let count = u8::try_from(draws.below(8).saturating_add(122)).unwrap_or(0);
    match draws.below(8) {
        0 => {}
        1 | 2 => put(
            image,
            at,
            &[0, 0, 0, 0, 0x81, 0, 0, 0, first, 0, 0, 0, count, 0, 0, 0],
        ),
        _ => put(image, at, &[0; 16]),
    }
}

/// A first sector of drawn bytes. It may have the signature of a table, and entries of MINIX's type that begin and end near the volume.
fn put_boot_sector(image: &mut [u8], draws: &mut Draws) {
    for place in image.iter_mut().take(512) {
        *place = draws.byte();
    }
    if draws.one_in(8) {
        return;
    }
    put(image, 510, &[0x55, 0xaa]);
    for entry in 0..4usize {
        put_entry(image, entry.saturating_mul(16).saturating_add(446), draws);
    }
}

/// Whether a line says why no run is begun on a volume in a partition.
fn is_place_refusal(line: &str) -> bool {
    let names = [
        "Partition\n",
        "Partition NoSignature\n",
        "Partition PastMedia\n",
        "Partition Overlap\n",
    ];
    names.iter().any(|name| *name == line) || line.starts_with("NotClean finding ")
}

/// What becomes of a run on the volume of a drawn minor of an image.
fn run_on(alloc: Global, image: &[u8], draws: &mut Draws) -> Result<Became, AllocError> {
    let setup = Setup {
        minor: u8::try_from(draws.below(6)).unwrap_or(0),
        ..whole()
    };
    let said = said(alloc, image, b"call 0 0 0 1 stat /\n", &setup)?;
    let err = str::from_utf8(said.2.as_slice()).unwrap_or("");
    Ok(what_became(&said, is_place_refusal(err)))
}

/// A sector of zeros, and a new volume.
fn disk(alloc: Global) -> Result<Vec<u8>, AllocError> {
    let mut image = vec![in alloc; 0; 512]?;
    let volume = new_volume(alloc, 1024)?;
    image.extend_from_slice(volume.as_slice())?;
    Ok(image)
}

#[test]
fn boot_sectors_of_drawn_bytes(rt: HostRuntime) -> Result<(), Fail> {
    let mut image = disk(rt.alloc())?;
    let (mut draws, mut counts) = (Draws::new(3), NONE);
    for _ in 0..COUNT {
        put_boot_sector(&mut image, &mut draws);
        counts.count(run_on(rt.alloc(), &image, &mut draws)?)?;
    }
    counts.are_all()
}
