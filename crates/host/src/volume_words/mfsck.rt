//! The words that `mfsck` takes, and what they say.

use crate::words::{MINOR, VOLUME, Word, command_of};
use clap::{ArgMatches, Error};
use std::alloc::Global;

/// What the help says that it is for.
const ABOUT: &str =
    "Checks a MINIX 3 volume: prints `clean`, or the first rule that it breaks and where";

/// The words that `mfsck` knows.
static WORDS: [(Word, &str); 2] = [VOLUME, MINOR];

/// What the words say.
#[derive(Clone, Copy)]
pub struct MfsckWords<'a> {
    /// The image's file.
    pub image: &'a str,
    /// Where the volume lies: 0 is the whole image.
    pub minor: u8,
}

impl<'a> MfsckWords<'a> {
    /// What words that were taken say.
    fn of(matches: &ArgMatches<'a>) -> MfsckWords<'a> {
        MfsckWords {
            image: matches.get_str("IMAGE").unwrap_or(""),
            minor: matches.get_one::<u8>("minor").unwrap_or(0),
        }
    }
}

/// What the words of a line say, or why they aren't taken.
pub fn read<'a>(alloc: Global, line: &'a [String]) -> Result<MfsckWords<'a>, Error> {
    let command = command_of(alloc, "mfsck", ABOUT, &WORDS)?;
    let matches = command.try_get_matches_from(line)?;
    Ok(MfsckWords::of(&matches))
}
