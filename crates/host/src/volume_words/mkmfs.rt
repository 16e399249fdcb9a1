//! The words that `mkmfs` takes, and what they say.

use crate::words::{Absent, Word, command_of};
use clap::{ArgMatches, Error};
use std::alloc::Global;

/// The most that a number of the command line may be.
const MOST: u64 = 4294967295;

/// The most that the number of a user or a group may be.
const MOST_OWNER: u64 = 65535;

/// What the help says that it is for.
const ABOUT: &str = "Makes the image of a new MINIX 3 volume, which holds an empty root alone";

/// The words that `mkmfs` knows.
static WORDS: [(Word, &str); 7] = [
    (
        Word::File("IMAGE"),
        "The file of the new volume; a file that is there is replaced",
    ),
    (
        Word::Number("blocks", "N", (0, MOST), Absent::Refused),
        "How many blocks the volume has, at most 65536, and at most 64 MiB of them",
    ),
    (
        Word::Number("inodes", "I", (0, MOST), Absent::Refused),
        "How many inodes it has, for as many files and directories: 1 to 65535",
    ),
    (
        Word::Number("block-size", "B", (0, MOST), Absent::Is("4096")),
        "How many bytes a block has: 1024, 2048 or 4096",
    ),
    (
        Word::Number("now", "T", (0, MOST), Absent::Is("0")),
        "The times of its root, in seconds since 1970",
    ),
    (
        Word::Number("uid", "U", (0, MOST_OWNER), Absent::Is("0")),
        "The user that its root belongs to, 0 to 65535",
    ),
    (
        Word::Number("gid", "G", (0, MOST_OWNER), Absent::Is("0")),
        "The group that its root belongs to, 0 to 65535",
    ),
];

/// What the words say.
#[derive(Clone, Copy)]
pub struct MkmfsWords<'a> {
    /// The image's file.
    pub image: &'a str,
    /// How many blocks the volume has.
    pub blocks: u32,
    /// How many bytes a block has.
    pub block_size: u32,
    /// How many inodes it has.
    pub inodes: u32,
    /// The times of its root.
    pub now: u32,
    /// The user that its root belongs to.
    pub uid: u16,
    /// The group that its root belongs to.
    pub gid: u16,
}

impl<'a> MkmfsWords<'a> {
    /// What words that were taken say.
    fn of(matches: &ArgMatches<'a>) -> MkmfsWords<'a> {
        let number = |name| matches.get_one::<u32>(name).unwrap_or(0);
        MkmfsWords {
            image: matches.get_str("IMAGE").unwrap_or(""),
            blocks: number("blocks"),
            block_size: number("block-size"),
            inodes: number("inodes"),
            now: number("now"),
            uid: matches.get_one::<u16>("uid").unwrap_or(0),
            gid: matches.get_one::<u16>("gid").unwrap_or(0),
        }
    }
}

/// What the words of a line say, or why they aren't taken.
pub fn read<'a>(alloc: Global, line: &'a [String]) -> Result<MkmfsWords<'a>, Error> {
    let command = command_of(alloc, "mkmfs", ABOUT, &WORDS)?;
    let matches = command.try_get_matches_from(line)?;
    Ok(MkmfsWords::of(&matches))
}
