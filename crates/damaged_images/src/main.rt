//! Sets bytes of the small volume to each value, one at a time: the check says of each image whether it is clean, and where it is `stat /`
//! is played on it.
#![tactic(auto)]

use fixtures::new_volume;
use fixtures_faults::damaged::{LOOKED_AT, clean_at, is_clean, put, stat_of};
use fixtures_plays::plays::Play;
use fsck::{Verdict, check};
use gate::paced_gate::Paced;
use host::command_line::line_of;
use std::alloc::{AllocError, Global};
use std::io;
use std::ops::Range;
use std::process::ExitCode;
use std::sync::{Arc, Wait};
use std::thread::Threads;
use std::time::Clock;

/// The bytes that the words ask for: all up to the end of the root's zone, or those from one to before another if they are
/// `--from A --to B`.
fn read_words(words: &[String]) -> Option<Range<usize>> {
    match words.get(1..)? {
        [] => Some(0..LOOKED_AT),
        [from, a, to, b] if from.as_str() == "--from" && to.as_str() == "--to" => {
            let (first, end): (usize, usize) = (a.parse().ok()?, b.parse().ok()?);
            Some(first..end.min(LOOKED_AT))
        }
        _ => None,
    }
}

/// What is played.
static SCRIPT: &[u8] = b"user 0 0\n100 stat /\n";

/// Whether a play of the script on a clean image, under the gate of `mfs`, prints what the image's bytes say, and nothing else.
fn is_told<R: Threads + Wait + Clock + Copy + Send + Sync + 'static>(
    alloc: Global,
    rt: R,
    image: &[u8],
) -> Result<bool, AllocError> {
    let wanted = stat_of(alloc, image)?;
    let scripts = [Some(SCRIPT)];
    let gate = Arc::new(alloc, Paced::new(rt))?;
    let played = Play::new(image, &scripts).played_at(alloc, rt, gate)?;
    let said = (played.out.as_slice(), played.err.as_slice());
    Ok(played.status == 0 && said == (wanted.as_bytes(), b"".as_slice()))
}

/// What is wrong with what comes of an image that has to be clean, or mustn't be; nothing if all is right.
fn wrong_with<R: Threads + Wait + Clock + Copy + Send + Sync + 'static>(
    alloc: Global,
    rt: R,
    image: &[u8],
    clean: bool,
) -> Result<Option<&'static str>, AllocError> {
    let Ok(verdict) = check(alloc, image) else {
        return Err(AllocError);
    };
    if matches!(verdict, Verdict::Clean(_)) != clean {
        return Ok(Some("the check"));
    }
    if clean && !is_told(alloc, rt, image)? {
        return Ok(Some("the play"));
    }
    Ok(None)
}

/// How many images were tried, how many of them have to be clean, and how many went wrong.
#[derive(Clone, Copy)]
struct Counts {
    runs: u32,
    clean: u32,
    wrong: u32,
}

impl Counts {
    /// Sets the byte at a place to each value, and prints a line for each that goes wrong.
    fn try_byte<R: Threads + Wait + Clock + Print + Copy + Send + Sync + 'static>(
        &mut self,
        alloc: Global,
        rt: R,
        image: &mut [u8],
        place: usize,
    ) -> io::Result<()> {
        let (own, values) = (image.get(place).copied().unwrap_or(0), clean_at(place));
        for value in 0..=255u8 {
            let clean = is_clean(values, value, own);
            put(image, place, &[value]);
            self.runs = self.runs.saturating_add(1);
            self.clean = self.clean.saturating_add(u32::from(clean));
            if let Some(why) = wrong_with(alloc, rt, image, clean)? {
                self.wrong = self.wrong.saturating_add(1);
                println!(rt; "{place} {value}: {why}")?;
            }
        }
        put(image, place, &[own]);
        Ok(())
    }
}

/// Tries these bytes of the small volume, one after the other.
fn try_all<R: Threads + Wait + Clock + Print + Copy + Send + Sync + 'static>(
    alloc: Global,
    rt: R,
    places: Range<usize>,
) -> io::Result<Counts> {
    let mut counts = Counts {
        runs: 0,
        clean: 0,
        wrong: 0,
    };
    let mut image = new_volume(alloc, 1024)?;
    for place in places {
        counts.try_byte(alloc, rt, &mut image, place)?;
    }
    Ok(counts)
}

fn main(rt: HostRuntime) -> io::Result<ExitCode> {
    let Some(line) = line_of(&rt)? else {
        return Ok(ExitCode::from(2));
    };
    let Some(places) = read_words(line.as_slice()) else {
        eprintln!(rt; "usage: damaged_images [--from A --to B]")?;
        return Ok(ExitCode::from(2));
    };
    let Counts { runs, clean, wrong } = try_all(rt.alloc(), rt, places)?;
    println!(rt; "{clean} clean")?;
    println!(rt; "{runs} runs, {wrong} wrong")?;
    Ok(ExitCode::from(if wrong == 0 { 0 } else { 1 }))
}
