//! Files that are opened again and recovered, crash after crash.
use crate::files::{Choices, Held, Unit, crashed, note, shown, unsure};
use redo::{Recovered, recover};
use stable::memory::{Happening, Memory};
use stable::{Storage, UNIT, Which};
use std::alloc::{AllocError, Global};
use std::io;
use std::test::Fail;

/// The name of the image.
pub const NAME: u64 = 0x0123456789abcdef;

/// The two files, and how many times they were opened again.
#[derive(Drop)]
pub struct Files {
    /// The log.
    pub log: Vec<Unit>,
    /// The image.
    pub image: Vec<Unit>,
    /// How many crashes and ends there were.
    pub age: u32,
}

/// The image before a commit and after it.
#[derive(Drop)]
pub struct Wanted {
    /// Before it.
    pub before: Vec<[u8; UNIT]>,
    /// After it.
    pub after: Vec<[u8; UNIT]>,
}

impl Files {
    /// Files of these units, on the disk.
    pub fn new(alloc: Global, log: usize, image: &[[u8; UNIT]]) -> Result<Files, AllocError> {
        let mut files = Files {
            log: Vec::new(alloc),
            image: Vec::new(alloc),
            age: 0,
        };
        for _ in 0..log {
            files.log.push(Unit::kept([0; UNIT]))?;
        }
        files.fill(image)?;
        Ok(files)
    }

    /// Adds units to the image.
    fn fill(&mut self, image: &[[u8; UNIT]]) -> Result<(), AllocError> {
        for unit in image {
            self.image.push(Unit::kept(*unit))?;
        }
        Ok(())
    }

    /// A copy of these files, after these happenings.
    pub fn after(&self, happenings: &[Happening]) -> Result<Files, AllocError> {
        let mut files = Files {
            log: self.log.clone()?,
            image: self.image.clone()?,
            age: self.age.saturating_add(1),
        };
        for happening in happenings {
            note(&mut files.log, Which::Log, happening);
            note(&mut files.image, Which::Image, happening);
        }
        Ok(files)
    }

    /// What a crash leaves of them.
    fn crash(&self, alloc: Global, choices: &mut Choices) -> Result<Files, AllocError> {
        Ok(Files {
            log: crashed(alloc, &self.log, choices)?,
            image: crashed(alloc, &self.image, choices)?,
            age: self.age,
        })
    }

    /// They, opened by a program.
    pub fn open(&self, alloc: Global, fails_at: usize) -> Result<Memory, AllocError> {
        Ok(Memory::new(
            alloc,
            shown(alloc, &self.log)?,
            shown(alloc, &self.image)?,
            fails_at,
        ))
    }

    /// Whether a write of the log, which may be a gate's, or a sync of one has failed.
    fn has_stale_gate(&self) -> bool {
        self.log.iter().any(|unit| unit.held == Held::Stale)
    }

    /// In how many ways a crash may leave them, if those are few; else none. More are taken of the first crash than of later ones.
    fn ways(&self) -> u64 {
        match unsure(&self.log).saturating_add(unsure(&self.image)) {
            0 => 1,
            1 => 3,
            2 => 9,
            3 if self.age < 2 => 27,
            4 if self.age < 2 => 81,
            _ => 0,
        }
    }

    /// Adds what may be found of them when they are opened again: after each crash, or after one that is drawn where there are many or the
    /// files are old, and without one.
    fn found(self, alloc: Global, work: &mut Vec<Files>) -> Result<(), AllocError> {
        let ways = if self.age < 3 { self.ways() } else { 0 };
        for way in 0..ways.max(1) {
            let mut choices = Choices {
                code: way,
                are_drawn: ways == 0,
            };
            work.push(self.crash(alloc, &mut choices)?)?;
        }
        if self.age < 3 && !self.has_stale_gate() {
            work.push(self)?;
        }
        Ok(())
    }
}

/// Adds what may be found after each first steps of a history.
pub fn found_after(
    alloc: Global,
    files: &Files,
    history: &[Happening],
    work: &mut Vec<Files>,
) -> Result<(), AllocError> {
    for cut in 0..=history.len() {
        if let Some(first) = history.get(..cut) {
            files.after(first)?.found(alloc, work)?;
        }
    }
    Ok(())
}

/// Adds what may be found after a history that ended in a failure.
pub fn found_after_failure(
    alloc: Global,
    files: &Files,
    history: &[Happening],
    work: &mut Vec<Files>,
) -> Result<(), AllocError> {
    let mut left = files.after(history)?;
    left.age = left.age.saturating_add(1);
    left.found(alloc, work)
}

/// Whether an image is this one.
pub fn is_image(memory: &mut Memory, image: &[[u8; UNIT]]) -> io::Result<bool> {
    for (n, unit) in image.iter().enumerate() {
        if memory.read(Which::Image, n as u64)? != *unit {
            return Ok(false);
        }
    }
    Ok(true)
}

/// Recovers files: it is an error where the image isn't the one before or the one after.
fn recovers(
    alloc: Global,
    files: &Files,
    wanted: &Wanted,
    work: &mut Vec<Files>,
) -> Result<(), Fail> {
    let mut memory = files.open(alloc, usize::MAX)?;
    if recover(alloc, &mut memory, NAME)? == Recovered::Foreign {
        return Err(Fail::from("the log is another image's"));
    }
    if !is_image(&mut memory, &wanted.before)? && !is_image(&mut memory, &wanted.after)? {
        return Err(Fail::new(format_args!("a mixture after {} ends", files.age)));
    }
    if files.age < 3 {
        found_after(alloc, files, memory.history(), work)?;
    }
    Ok(())
}

/// Recovers files, where one step of the recovery fails, and adds what may be found after that.
fn recovers_not(alloc: Global, files: &Files, work: &mut Vec<Files>) -> Result<(), Fail> {
    for step in 0..6 {
        let mut memory = files.open(alloc, step)?;
        if recover(alloc, &mut memory, NAME).is_err() {
            found_after_failure(alloc, files, memory.history(), work)?;
        }
    }
    Ok(())
}

/// Recovers all of these files, and what crashes leave of them in turn.
pub fn all_recover(alloc: Global, work: &mut Vec<Files>, wanted: &Wanted) -> Result<(), Fail> {
    for _ in 0..u64::MAX {
        let Some(files) = work.pop() else {
            return Ok(());
        };
        recovers(alloc, &files, wanted, work)?;
        if files.age == 1 {
            recovers_not(alloc, &files, work)?;
        }
    }
    Ok(())
}
