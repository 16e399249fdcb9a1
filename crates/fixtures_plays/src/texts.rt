//! Plays of texts: the replies are those of the text, and so is the image that is left.
use crate::left::{has_left, other};
use crate::plays::{Play, Played};
use crate::said::{read, read_unchanged, repeated};
use fixtures::new_volume;
use std::alloc::{AllocError, Global};
use std::sync::Wait;
use std::test::Fail;
use std::thread::Threads;
use std::time::Clock;

/// Reads a volume: the root's names and attributes, and the volume's numbers.
const READS: &[u8] = b"user 0 0
100 open / r 0
100 readdir 0
100 stat /
100 statfs
";

/// What stands on standard output behind this text.
fn behind<'p>(played: &'p Played, text: &str) -> Option<&'p str> {
    match str::from_utf8(played.out.as_slice()) {
        Ok(out) => out.strip_prefix(text),
        Err(_) => None,
    }
}

/// Looks at whether the play of a text up to its line `unchanged`, if it has one, leaves this image; it is an error where it doesn't.
fn has_stayed<R: Threads + Wait + Clock + Copy + Send + Sync + 'static>(
    alloc: Global,
    rt: R,
    image: &[u8],
    text: &str,
    left: &[u8],
) -> Result<(), Fail> {
    let Some(before) = read_unchanged(alloc, text)? else {
        return Ok(());
    };
    let files = before.files(alloc, None)?;
    let earlier = Play::new(image, files.as_slice()).played_in_turn(alloc, rt)?;
    if earlier.left() == left {
        return Ok(());
    }
    Err(Fail::new(format_args!("changed: {text}")))
}

/// Plays a text on an image: the replies are those of the text, nothing is complained of, and the image that is left is as it says, and
/// clean; another server reads from it what a further session reads. It is an error where that isn't so.
fn are_played<R: Threads + Wait + Clock + Copy + Send + Sync + 'static>(
    alloc: Global,
    rt: R,
    image: &[u8],
    text: &str,
) -> Result<Played, Fail> {
    let mut said = read(alloc, text)?;
    said.begin_replies()?;
    let files = said.files(alloc, Some(READS))?;
    let first = Play::new(image, files.as_slice()).played_in_turn(alloc, rt)?;
    let again = Play::new(first.left(), &[Some(READS)]).played(alloc, rt)?;
    let told = behind(&first, said.replies.as_str());
    let is_read = told.is_some() && told == behind(&again, "session 0\n");
    let is_silent = first.status == 0 && first.err.is_empty();
    if !is_read || !is_silent || !first.is_clean(alloc) {
        return Err(other(first.status, said.replies.as_str(), first.out.as_slice()));
    }
    has_left(alloc, first.left(), text)?;
    has_stayed(alloc, rt, image, text, first.left())?;
    Ok(first)
}

/// A new volume of so many blocks: 64 of these bytes, or 9 or 10 of 1024.
fn volume(alloc: Global, block: usize, blocks: u8) -> Result<Vec<u8>, AllocError> {
    let mut image = new_volume(alloc, block)?;
    if blocks < 64 {
        // The map's bits behind those of the 3 or 4 zones are set.
        let bits = if blocks < 10 { 0xf3 } else { 0xe3 };
        for place in image.iter_mut().skip(1044).take(1) {
            *place = blocks;
        }
        for (place, byte) in image
            .iter_mut()
            .skip(3072)
            .zip([bits, 0xff, 0xff, 0xff, 0xff, 0xff, 0xff, 0xff])
        {
            *place = byte;
        }
        image.truncate(usize::from(blocks).saturating_mul(1024));
    }
    Ok(image)
}

/// The image of a new volume, as the first line of a play says it: `volume B N`, of N blocks of B bytes each. There are volumes of 64
/// blocks, and of 9 and of 10 blocks of 1024 bytes.
fn volume_of(alloc: Global, line: &str) -> Result<Vec<u8>, Fail> {
    let sizes = line.strip_prefix("volume ").unwrap_or("");
    let (block, blocks) = sizes.split_once(" ").unwrap_or(("", ""));
    match (block.parse::<usize>(), blocks.parse::<u8>()) {
        (Ok(block), Ok(64)) => Ok(volume(alloc, block, 64)?),
        (Ok(1024), Ok(blocks)) if blocks == 9 || blocks == 10 => Ok(volume(alloc, 1024, blocks)?),
        _ => Err(Fail::new(format_args!("no volume: {line}"))),
    }
}

/// Each play of a text is played on the volume that its first line says; a blank line stands between two of them. It is an error where
/// there are more or fewer of them than this.
pub fn all_are_played<R: Threads + Wait + Clock + Copy + Send + Sync + 'static>(
    alloc: Global,
    rt: R,
    text: &str,
    count: usize,
) -> Result<(), Fail> {
    let mut left = count;
    for play in text.split("\n\n") {
        if left == 0 {
            return Err(Fail::new(format_args!("more than {count} plays")));
        }
        left -= 1;
        let (first, rest) = play.split_once("\n").unwrap_or((play, ""));
        let image = volume_of(alloc, first)?;
        are_played(alloc, rt, &image, rest)?;
    }
    if left > 0 {
        return Err(Fail::new(format_args!("fewer than {count} plays")));
    }
    Ok(())
}

/// A text is played on a new volume of 64 blocks of 1024 bytes, and then another one by another service on the image that is left.
pub fn both_are_played<R: Threads + Wait + Clock + Copy + Send + Sync + 'static>(
    alloc: Global,
    rt: R,
    text: &str,
    then: &str,
) -> Result<(), Fail> {
    let image = new_volume(alloc, 1024)?;
    let played = are_played(alloc, rt, &image, text)?;
    are_played(alloc, rt, played.left(), then)?;
    Ok(())
}

/// Scripts of one call on a new volume: each has its session, and is answered by this line.
pub fn are_answered<R: Threads + Wait + Clock + Copy + Send + Sync + 'static>(
    alloc: Global,
    rt: R,
    scripts: &[Option<&[u8]>],
    reply: &str,
) -> Result<(), Fail> {
    let image = new_volume(alloc, 1024)?;
    let out = repeated(alloc, scripts.len(), reply)?;
    Play::new(&image, scripts).gives(alloc, rt, 0, out.as_str(), "")
}
