//! The words of a command line, as a table of each program has them.

use crate::version;
use clap::builder::ValueParser;
use clap::{Arg, ArgAction, Command};
use std::alloc::{AllocError, Global};

/// What holds where a word that takes a number is left out.
#[derive(Clone, Copy)]
pub(crate) enum Absent {
    /// The line is refused.
    Refused,
    /// The number is this one.
    Is(&'static str),
    /// No number is said.
    Unsaid,
}

/// A word of a command line. What the help calls it, or what stands behind two dashes, is its name.
#[derive(Clone, Copy)]
pub(crate) enum Word {
    /// A file that has to be named.
    File(&'static str),
    /// Files, of which one has to be named.
    Files(&'static str),
    /// A word that takes the name of a file, and may be left out.
    Out(&'static str),
    /// A word that is there or not.
    Flag(&'static str),
    /// A word that takes a number: what the help calls that, the least one and the most, and what holds where it is left out.
    Number(&'static str, &'static str, (u64, u64), Absent),
}

/// The word that says where the volume lies.
pub(crate) const MINOR: (Word, &str) = (
    Word::Number("minor", "M", (0, 255), Absent::Is("0")),
    "Where the volume lies: 0 is the whole image, 1 to 4 are the partitions of its table",
);

/// The word that says how many drivers stand by, at most 63 (own).
pub(crate) const SPARES: (Word, &str) = (
    Word::Number("spares", "K", (0, 63), Absent::Is("5")),
    "How many drivers stand by to take the place of one that fails",
);

/// The word that says how many blocks' frames the server has (a cache has 16 to 4096); else the image says it (`frames_for`).
pub(crate) const FRAMES: (Word, &str) = (
    Word::Number("frames", "F", (16, 4096), Absent::Unsaid),
    "How many blocks the server keeps in memory at a time, 16 to 4096; else one for each 4 KiB of IMAGE, 64 to 4096",
);

/// The word by which drivers move an arm.
pub(crate) const MODEL: (Word, &str) = (
    Word::Flag("model"),
    "The drivers move an arm over the sectors, from sector 0 on",
);

/// The file of a volume that is read.
pub(crate) const VOLUME: (Word, &str) = (
    Word::File("IMAGE"),
    "The file of a MINIX 3 volume; it is read only",
);

/// The same where `--out` may name it.
pub(crate) const SERVED: (Word, &str) = (
    Word::File("IMAGE"),
    "The file of a MINIX 3 volume; it is read only, unless --out names it",
);

/// A word that takes a number, for `clap`.
fn number<'a>(
    alloc: Global,
    name: &'static str,
    value: &'static str,
    range: (u64, u64),
    absent: Absent,
) -> Arg<'a> {
    let (least, most) = range;
    let arg = Arg::new(alloc, name)
        .long(name)
        .value_name(value)
        .value_parser(ValueParser::Unsigned(least, most));
    match absent {
        Absent::Refused => arg.required(true),
        Absent::Is(default) => arg.default_value(default),
        Absent::Unsaid => arg,
    }
}

/// A word for `clap`.
fn arg<'a>(alloc: Global, word: Word) -> Arg<'a> {
    match word {
        Word::File(name) => Arg::new(alloc, name).required(true),
        Word::Files(name) => Arg::new(alloc, name)
            .required(true)
            .num_args(1..)
            .action(ArgAction::Append),
        Word::Out(name) => Arg::new(alloc, name).long(name).value_name("FILE"),
        Word::Flag(name) => Arg::new(alloc, name).long(name).action(ArgAction::SetTrue),
        Word::Number(name, value, range, absent) => number(alloc, name, value, range, absent),
    }
}

/// Words for `clap`, in the order of the help, with what that says of each.
fn args_of<'a>(
    alloc: Global,
    words: &'static [(Word, &'static str)],
) -> Result<Vec<Arg<'a>>, AllocError> {
    let mut args = Vec::new(alloc);
    for (word, help) in words {
        args.push(arg(alloc, *word).help(*help))?;
    }
    Ok(args)
}

/// The command line of a program: its name, what it is for, and the words that it knows.
pub(crate) fn command_of<'a>(
    alloc: Global,
    name: &'a str,
    about: &'a str,
    words: &'static [(Word, &'static str)],
) -> Result<Command<'a>, AllocError> {
    let args = args_of(alloc, words)?;
    Command::new(alloc, name)
        .version(version::SHORT)
        .long_version(version::LONG)
        .about(about)
        .args(args)
}
