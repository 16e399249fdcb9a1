//! The words of the command line.

use std::alloc::{AllocError, Global};

/// A kind of work that is measured.
#[derive(Clone, Copy)]
pub(crate) enum Work {
    /// What drivers and the frames of a cache do.
    Drivers,
    /// Making volumes, and checking them.
    Volumes,
    /// Migrating a volume of version 2.
    Migrate,
    /// Looking names up in a directory.
    Names,
    /// Walking a path of eight names.
    Paths,
    /// Counting the free zones.
    Maps,
    /// Reading and writing the bytes of a file.
    Bytes,
    /// Round trips between threads, and ticks.
    Threads,
    /// Client calls in sessions.
    Calls,
}

/// All of it, in turn.
const ALL: [Work; 9] = [
    Work::Drivers,
    Work::Volumes,
    Work::Migrate,
    Work::Names,
    Work::Paths,
    Work::Maps,
    Work::Bytes,
    Work::Threads,
    Work::Calls,
];

impl Work {
    /// Its word.
    fn word(self) -> &'static str {
        match self {
            Work::Drivers => "drivers",
            Work::Volumes => "volumes",
            Work::Migrate => "migrate",
            Work::Names => "names",
            Work::Paths => "paths",
            Work::Maps => "maps",
            Work::Bytes => "bytes",
            Work::Threads => "threads",
            Work::Calls => "calls",
        }
    }
}

/// The work of a word.
fn work_of(word: &str) -> Option<Work> {
    for work in ALL {
        if work.word() == word {
            return Some(work);
        }
    }
    None
}

/// The work that the words name, in their order, and all of it where there is no word; none where one of them names no work.
pub(crate) fn named(alloc: Global, words: &[String]) -> Result<Option<Vec<Work>>, AllocError> {
    if words.is_empty() {
        return Ok(Some(ALL.to_vec(alloc)?));
    }
    let mut named = Vec::new(alloc);
    for word in words {
        let Some(work) = work_of(word.as_str()) else {
            return Ok(None);
        };
        named.push(work)?;
    }
    Ok(Some(named))
}
