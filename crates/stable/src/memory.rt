//! Two files in memory, which keep the history of their writes and syncs.

ghost use Rattle.std.specs.Prelude.{◌≡◌, ◌∷◌, [], Some, IfOk};
ghost use Rattle.stable.specs.Disk.{Disk, happened, restarted};
ghost use Rattle.stable.specs.Runs.{file_of, now, Follows};
ghost use Rattle.stable.specs.Memory.{contents_of, known_of, step_of, event_of, same_file};

use crate::{Storage, UNIT, Which};
use std::alloc::{AllocError, Global};
use std::io;

/// What was asked of a file.
#[derive(Debug, Drop)]
pub enum Asked {
    /// These neighbouring units were to be written, from one on.
    Write(Which, u64, Vec<[u8; UNIT]>),
    /// All that was written to the file was to be kept.
    Sync(Which),
}

/// What happened: what was asked, and whether it was done or failed.
#[derive(Debug, Drop)]
pub struct Happening {
    /// What was asked.
    pub asked: Asked,
    /// Whether it was done.
    pub done: bool,
}

/// Whether two are the same file.
fn is_same(a: Which, b: Which) -> bool
    ensures { result ≡ same_file a b }
{
    matches!(
        (a, b),
        (Which::Log, Which::Log) | (Which::Image, Which::Image)
    )
}

impl Happening {
    /// What unit `n` of a file shows after it, if it shows `before` before it.
    fn after(&self, file: Which, n: u64, before: [u8; UNIT]) -> [u8; UNIT]
        ensures { (d : Disk) → before ≡ (file_of d file).shows n → result ≡ (file_of (happened d (event_of self.now)) file).shows n }
    {
        match &self.asked {
            Asked::Write(to, first, units) => {
                if !is_same(*to, file) {
                    return before;
                }
                if n < *first {
                    return before;
                }
                let place = n - *first;
                if place >= units.len() as u64 {
                    return before;
                }
                units[place as usize]
            }
            Asked::Sync(_) => before,
        }
    }
}

/// A unit of units in memory, with zeros behind them.
fn unit_of(units: &[[u8; UNIT]], n: u64) -> [u8; UNIT]
    ensures { result ≡ contents_of units.now n }
{
    if n < units.len() as u64 {
        units[n as usize]
    } else {
        [0; UNIT]
    }
}

/// A copy of units.
fn copied(alloc: Global, units: &[[u8; UNIT]]) -> Result<Vec<[u8; UNIT]>, AllocError>
    ensures { IfOk result (λ copy. copy.items ≡ units.now) }
{
    let mut copy = Vec::with_capacity(alloc, units.len())?;
    for unit in units {
        copy.push(*unit)?;
    }
    Ok(copy)
}

/// A log and an image in memory, and all that was asked of them. One step fails, where one is to fail.
#[derive(Drop)]
pub struct Memory {
    alloc: Global,
    // What the files hold at first.
    log: Vec<[u8; UNIT]>,
    image: Vec<[u8; UNIT]>,
    history: Vec<Happening>,
    // How many steps come before the one that fails.
    fails_at: usize,
}

impl Memory {
    /// Files that hold these units, on the disk, and zeros behind them. The write or sync that has so many before it fails.
    pub fn new(
        alloc: Global,
        log: Vec<[u8; UNIT]>,
        image: Vec<[u8; UNIT]>,
        fails_at: usize,
    ) -> Memory
        ensures { ⟦<Memory as Storage>⟧.known result ≡ Some (known_of log.items image.items []) }
    {
        Memory {
            alloc,
            log,
            image,
            history: Vec::new(alloc),
            fails_at,
        }
    }

    /// What was asked since, the first first.
    pub fn history(&self) -> &[Happening]
        ensures { ⟦<Memory as Storage>⟧.known self.now ≡ Some (known_of self.now.log.items self.now.image.items result.now) }
    {
        &self.history
    }

    /// What unit `n` of a file shows at first.
    fn at_first(&self, file: Which, n: u64) -> [u8; UNIT]
        ensures { result ≡ (file_of (restarted (contents_of self.now.log.items) (contents_of self.now.image.items)) file).shows n }
    {
        match file {
            Which::Log => unit_of(&self.log, n),
            Which::Image => unit_of(&self.image, n),
        }
    }

    /// What unit `n` of a file shows.
    fn shown(&self, file: Which, n: u64) -> [u8; UNIT]
        ensures { result ≡ (file_of (now (known_of self.now.log.items self.now.image.items self.now.history.items)) file).shows n }
    {
        let mut unit = self.at_first(file, n);
        for happening in &self.history {
            let next = happening.after(file, n, unit);
            unit = next;
        }
        unit
    }

    /// Notes what was asked: it is done, unless it is the step that fails. Without memory nothing happens.
    fn note(&mut self, asked: Asked) -> io::Result<()>
        ensures { Follows (step_of asked ∷ []) (Some (known_of self.old.log.items self.old.image.items self.old.history.items))
            (Some (known_of self.new.log.items self.new.image.items self.new.history.items)) result }
    {
        let done = self.history.len() != self.fails_at;
        self.history.reserve(1)?;
        self.history.push_reserved(Happening { asked, done });
        if done {
            Ok(())
        } else {
            Err(io::Error::from(io::ErrorKind::Other))
        }
    }
}

impl Storage for Memory {
    ghost use Rattle.std.specs.Prelude.{Some};
    ghost use Rattle.stable.specs.Memory.{known_of};

    ghost known = { λ m. Some (known_of m.log.items m.image.items m.history.items) };

    fn read(&mut self, file: Which, n: u64) -> io::Result<[u8; UNIT]> {
        Ok(self.shown(file, n))
    }

    fn write(&mut self, file: Which, first: u64, units: &[[u8; UNIT]]) -> io::Result<()> {
        self.note(Asked::Write(file, first, copied(self.alloc, units)?))
    }

    fn sync(&mut self, file: Which) -> io::Result<()> {
        self.note(Asked::Sync(file))
    }
}
