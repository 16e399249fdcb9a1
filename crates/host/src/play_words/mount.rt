//! The words that `mfs9p` and `mfsfuse` take, and what they say.

use crate::words::{Absent, FRAMES, MINOR, MODEL, SERVED, Word, command_of};
use clap::{ArgMatches, Error};
use std::alloc::Global;

/// The most drivers that stand by (own).
const MOST_SPARES: u64 = 4095;

/// The most seconds between two writes of changes: a day (own).
const MOST_SECONDS: u64 = 86_400;

/// The most milliseconds between two kills: an hour (own).
const MOST_MILLISECONDS: u64 = 3_600_000;

/// The least and the most milliseconds of a tick (own): a driver that isn't scheduled for three ticks counts as hung.
const LEAST_TICK: u64 = 10;

const MOST_TICK: u64 = 1000;

/// What the help of `mfs9p` says of mounting.
const BY_NINEP: &str =
    "Messages of 9P2000.L are read from standard input, and answered on standard output, until the input ends. With socat, and as root:

socat -t 60 TCP-LISTEN:5640,bind=127.0.0.1,reuseaddr EXEC:\"mfs9p v.img --out v.img\"
mount -t 9p -o trans=tcp,port=5640,version=9p2000.L,access=any,msize=65536 127.0.0.1 /mnt

A line `started 1.G` on standard error tells of each driver that takes the place of an earlier one.";

/// What the help of `mfsfuse` says of mounting.
const BY_FUSE: &str =
    "Standard input and standard output are both the descriptor of /dev/fuse that is mounted: messages of FUSE are read from it, and
answered on it, until the volume is unmounted. The script `mount` mounts, starts the program so, and needs no root:

bin/mount v.img folder
bin/umount folder

A line `started 1.G` on standard error tells of each driver that takes the place of an earlier one.";

/// A program that serves a volume to Linux, so that it is mounted.
#[derive(Clone, Copy, Debug, PartialEq, Eq)]
pub enum MountProgram {
    /// `mfs9p`, by 9P.
    Ninep,
    /// `mfsfuse`, by FUSE.
    Fuse,
}

impl MountProgram {
    /// Its name.
    fn name<'a>(self) -> &'a str {
        match self {
            MountProgram::Ninep => "mfs9p",
            MountProgram::Fuse => "mfsfuse",
        }
    }

    /// What it is for.
    fn about<'a>(self) -> &'a str {
        match self {
            MountProgram::Ninep => {
                "Serves the image of a volume by 9P, so that Linux mounts it, while its drivers may die"
            }
            MountProgram::Fuse => {
                "Serves the image of a volume by FUSE, so that Linux mounts it, while its drivers may die"
            }
        }
    }

    /// How a volume is mounted by it.
    fn mounting<'a>(self) -> &'a str {
        match self {
            MountProgram::Ninep => BY_NINEP,
            MountProgram::Fuse => BY_FUSE,
        }
    }
}

/// The words that both programs know.
static WORDS: [(Word, &str); 10] = [
    SERVED,
    (
        Word::Out("out"),
        "Writes the image to this file at each fsync, and once the input has ended",
    ),
    MINOR,
    (
        Word::Number("spares", "K", (0, MOST_SPARES), Absent::Is("5")),
        "How many drivers stand by to take the place of one that fails",
    ),
    FRAMES,
    MODEL,
    (
        Word::Number("die-every", "N", (0, 4294967295), Absent::Is("0")),
        "Each driver dies in the N-th request that it takes; 0: none does",
    ),
    (
        Word::Number(
            "kill-every",
            "MILLISECONDS",
            (0, MOST_MILLISECONDS),
            Absent::Is("0"),
        ),
        "Kills the driver that works, every so many milliseconds; 0: never",
    ),
    (
        Word::Number("sync-every", "SECONDS", (0, MOST_SECONDS), Absent::Is("5")),
        "How often changes are written to --out's file without an fsync; 0: never",
    ),
    (
        Word::Number(
            "tick",
            "MILLISECONDS",
            (LEAST_TICK, MOST_TICK),
            Absent::Is("100"),
        ),
        "How long a tick of the restarts is, 10 to 1000: a driver that ended is seen at the next, one that is silent for three has failed",
    ),
];

/// What the words say.
#[derive(Drop)]
pub struct MountWords<'a> {
    /// The image's file.
    pub image: &'a str,
    /// The file that the image is written to at each fsync and in the end, if one is named.
    pub out: Option<&'a str>,
    /// Where the volume lies: 0 is the whole image.
    pub minor: u8,
    /// How many drivers stand by, 0 to 4095.
    pub spares: u16,
    /// How many blocks the server keeps in memory at a time, 16 to 4096, if the words say so.
    pub frames: Option<u32>,
    /// The drivers move an arm.
    pub model: bool,
    /// In which of the requests that it takes each driver dies, counted from 1; 0: none does.
    pub die_every: u32,
    /// After how many milliseconds the driver that works is killed, again and again, 1 to 3,600,000; 0: never.
    pub kill_every: u32,
    /// After how many seconds changes are written without an fsync, 1 to 86,400; 0: never.
    pub sync_every: u32,
    /// How many milliseconds a tick of the restart policy is, 10 to 1000.
    pub tick: u16,
}

impl<'a> MountWords<'a> {
    /// What words that were taken say.
    fn of(matches: &ArgMatches<'a>) -> MountWords<'a> {
        MountWords {
            image: matches.get_str("IMAGE").unwrap_or(""),
            out: matches.get_str("out"),
            minor: matches.get_one::<u8>("minor").unwrap_or(0),
            spares: matches.get_one::<u16>("spares").unwrap_or(0),
            frames: matches.get_one::<u32>("frames"),
            model: matches.get_flag("model"),
            die_every: matches.get_one::<u32>("die-every").unwrap_or(0),
            kill_every: matches.get_one::<u32>("kill-every").unwrap_or(0),
            sync_every: matches.get_one::<u32>("sync-every").unwrap_or(0),
            tick: matches.get_one::<u16>("tick").unwrap_or(100),
        }
    }
}

/// What the words of a line say to this program, or why they aren't taken.
pub fn read<'a>(
    alloc: Global,
    program: MountProgram,
    line: &'a [String],
) -> Result<MountWords<'a>, Error> {
    let command = command_of(alloc, program.name(), program.about(), &WORDS)?;
    let matches = command
        .after_help(program.mounting())
        .try_get_matches_from(line)?;
    Ok(MountWords::of(&matches))
}
