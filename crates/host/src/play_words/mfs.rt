//! The words that `mfs` takes, and what they say.

use crate::words::{FRAMES, MINOR, MODEL, SERVED, SPARES, Word, command_of};
use clap::{ArgMatches, Error};
use std::alloc::{AllocError, Global};

/// What the help says of scripts: their lines, and each call.
const SCRIPTS: &str =
    "A script is a line `user UID GID`, and then a line `NOW CALL` for each call: the time in seconds since 1970, and one of

  open PATH FLAGS MODE        a descriptor; FLAGS are letters of r w a c x t, or - for none
  close FD                    the descriptor is free again
  dup FD                      a second descriptor of the same open file
  read FD COUNT               bytes from the position on, up to the file's end
  write FD HEX                writes bytes, a pair of digits each, or - for none
  fill FD COUNT HH            writes COUNT bytes HH
  seek FD set|cur|end OFFSET  moves the position
  stat PATH                   the attributes of a file or directory
  fstat FD                    the same of an open one
  lstat PATH                  as stat, but a symbolic link that stands last isn't followed
  link OLD NEW                a further name for a file
  unlink PATH                 takes a file's name away
  symlink TARGET PATH         makes a symbolic link
  readlink PATH               the target of a symbolic link
  mkdir PATH MODE             makes a directory
  rmdir PATH                  takes an empty directory away
  rename OLD NEW              gives a file or directory another name
  chmod PATH MODE             sets the permissions
  chown PATH UID GID          sets user and group
  utime PATH ATIME MTIME      sets both times
  truncate PATH SIZE          sets a file's size
  readdir FD                  all names in an open directory
  sync                        writes what was changed to the disk
  statfs                      the volume's blocks and inodes, and how many are free

Modes are octal, bytes lower-case hexadecimal, other numbers decimal. One space stands between two words, and a newline ends each line.";

/// What the help says that it is for.
const ABOUT: &str =
    "Plays scripts of client calls against a file server over the image of a volume, and prints the replies";

/// The words that `mfs` knows.
static WORDS: [(Word, &str); 7] = [
    SERVED,
    (
        Word::Files("SCRIPT"),
        "The files of scripts, 64 at most; all are played at one time",
    ),
    (
        Word::Out("out"),
        "Writes the image as it is after the calls to this file",
    ),
    MINOR,
    SPARES,
    FRAMES,
    MODEL,
];

/// What the words say.
#[derive(Drop)]
pub struct MfsWords<'a> {
    /// The image's file.
    pub image: &'a str,
    /// The scripts' files, in the order of the words.
    pub scripts: Vec<&'a str>,
    /// The file that the image is written to in the end, if one is named.
    pub out: Option<&'a str>,
    /// Where the volume lies: 0 is the whole image.
    pub minor: u8,
    /// How many drivers stand by, 0 to 63.
    pub spares: u8,
    /// How many blocks the server keeps in memory at a time, 16 to 4096, if the words say so.
    pub frames: Option<u32>,
    /// The drivers move an arm.
    pub model: bool,
}

impl<'a> MfsWords<'a> {
    /// What words that were taken say.
    fn of(alloc: Global, matches: &ArgMatches<'a>) -> Result<MfsWords<'a>, AllocError> {
        Ok(MfsWords {
            image: matches.get_str("IMAGE").unwrap_or(""),
            scripts: matches.get_strs("SCRIPT").unwrap_or(&[]).to_vec(alloc)?,
            out: matches.get_str("out"),
            minor: matches.get_one::<u8>("minor").unwrap_or(0),
            spares: matches.get_one::<u8>("spares").unwrap_or(0),
            frames: matches.get_one::<u32>("frames"),
            model: matches.get_flag("model"),
        })
    }
}

/// What the words of a line say, or why they aren't taken.
pub fn read<'a>(alloc: Global, line: &'a [String]) -> Result<MfsWords<'a>, Error> {
    let command = command_of(alloc, "mfs", ABOUT, &WORDS)?.after_help(SCRIPTS);
    let matches = command.try_get_matches_from(line)?;
    Ok(MfsWords::of(alloc, &matches)?)
}
