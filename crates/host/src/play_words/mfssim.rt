//! The words that `mfssim` takes, and what they say.

use crate::words::{MINOR, SPARES, VOLUME, Word, command_of};
use clap::{ArgMatches, Error};
use std::alloc::Global;

/// What the help says that it is for.
const ABOUT: &str =
    "Runs a file server over the image of a volume while a schedule moves its drivers, and prints the transcript";

/// The words that `mfssim` knows.
static WORDS: [(Word, &str); 4] = [
    VOLUME,
    (
        Word::File("SCHEDULE"),
        "The file of a schedule: a line for each event, as a call, a driver's step, its death, a tick",
    ),
    MINOR,
    SPARES,
];

/// What the words say.
#[derive(Clone, Copy)]
pub struct MfssimWords<'a> {
    /// The image's file.
    pub image: &'a str,
    /// The schedule's file.
    pub schedule: &'a str,
    /// Where the volume lies: 0 is the whole image.
    pub minor: u8,
    /// How many drivers stand by, 0 to 63.
    pub spares: u8,
}

impl<'a> MfssimWords<'a> {
    /// What words that were taken say.
    fn of(matches: &ArgMatches<'a>) -> MfssimWords<'a> {
        MfssimWords {
            image: matches.get_str("IMAGE").unwrap_or(""),
            schedule: matches.get_str("SCHEDULE").unwrap_or(""),
            minor: matches.get_one::<u8>("minor").unwrap_or(0),
            spares: matches.get_one::<u8>("spares").unwrap_or(0),
        }
    }
}

/// What the words of a line say, or why they aren't taken.
pub fn read<'a>(alloc: Global, line: &'a [String]) -> Result<MfssimWords<'a>, Error> {
    let command = command_of(alloc, "mfssim", ABOUT, &WORDS)?;
    let matches = command.try_get_matches_from(line)?;
    Ok(MfssimWords::of(&matches))
}
