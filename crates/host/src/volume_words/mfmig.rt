//! The words that `mfmig` takes, and what they say.

use crate::words::{Absent, Word, command_of};
use clap::{ArgMatches, Error};
use std::alloc::Global;

/// The most that a number of the command line may be.
const MOST: u64 = 4294967295;

/// What the help says that it is for.
const ABOUT: &str = "Makes the image of a new MINIX 3 volume with the tree of a MINIX 2 volume";

/// The words that `mfmig` knows.
static WORDS: [(Word, &str); 3] = [
    (
        Word::File("OLD"),
        "The file of a MINIX 2 volume; it is read only",
    ),
    (
        Word::File("NEW"),
        "The file of the new volume; a file that is there is replaced",
    ),
    (
        Word::Number("blocks", "N", (0, MOST), Absent::Refused),
        "How many blocks of 1024 bytes the new volume has, at most 65536",
    ),
];

/// What the words say.
#[derive(Clone, Copy)]
pub struct MfmigWords<'a> {
    /// The old volume's file.
    pub old: &'a str,
    /// The new volume's file.
    pub new: &'a str,
    /// How many blocks the new volume has.
    pub blocks: u32,
}

impl<'a> MfmigWords<'a> {
    /// What words that were taken say.
    fn of(matches: &ArgMatches<'a>) -> MfmigWords<'a> {
        MfmigWords {
            old: matches.get_str("OLD").unwrap_or(""),
            new: matches.get_str("NEW").unwrap_or(""),
            blocks: matches.get_one::<u32>("blocks").unwrap_or(0),
        }
    }
}

/// What the words of a line say, or why they aren't taken.
pub fn read<'a>(alloc: Global, line: &'a [String]) -> Result<MfmigWords<'a>, Error> {
    let command = command_of(alloc, "mfmig", ABOUT, &WORDS)?;
    let matches = command.try_get_matches_from(line)?;
    Ok(MfmigWords::of(&matches))
}
