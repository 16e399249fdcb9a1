//! What the programs have in common: the words of the command line, and the status for words that aren't taken.

ghost use Rattle.std.specs.Prelude.{◌≡◌, ◌⊎◌, ◌↔◌};
ghost use Rattle.clap.specs.Values.{kind_of};

use clap::Error;
use clap::error::ErrorKind;
use std::fs::File;
use std::rt::{Env, Files};
use std::{env, io, mem};

/// Opens the root folder as often as there are standard streams, and leaves it open. So it takes the place of each stream that is closed,
/// and can't be read or written there: else a file that is opened later would take that place, and what is written on the stream would go
/// into the file.
fn hold_streams<R: Files>(rt: &R) {
    for _ in 0..3 {
        if let Ok(folder) = File::open(rt, "/") {
            mem::forget(folder);
        }
    }
}

/// The words of the command line; none where one isn't UTF-8, and then a line says so. From here on no file that is opened takes the place
/// of a standard stream.
pub fn line_of<R: Env + Eprint + AllocGlobal + Files>(rt: &R) -> io::Result<Option<Vec<String>>> {
    hold_streams(rt);
    match env::args(rt) {
        Ok(line) => Ok(Some(line.collect(rt.alloc())?)),
        Err(error) if error.kind() == io::ErrorKind::InvalidData => {
            rt.eprintln("error: a word isn't UTF-8")?;
            Ok(None)
        }
        Err(error) => Err(error),
    }
}

/// The status for words that aren't taken: 0 where they ask for help or the version, else 2.
pub fn status_for(error: &Error) -> u8
    ensures asked { (result ≡ 0) ↔ ((kind_of error.now ≡ ErrorKind.DisplayHelp) ⊎ (kind_of error.now ≡ ErrorKind.DisplayVersion)) }
    ensures mistaken { (result ≡ 0) ⊎ (result ≡ 2) }
{
    if error.use_stderr() { 2 } else { 0 }
}
