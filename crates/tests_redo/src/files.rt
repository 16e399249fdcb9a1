//! Files as a program sees them and as a crash may leave them.
use stable::memory::{Asked, Happening};
use stable::{UNIT, Which};
use std::alloc::{AllocError, Global};

/// How sure the bytes of a unit are.
#[derive(Clone, Copy, Debug, Drop, PartialEq, Eq)]
pub enum Held {
    /// A crash leaves them.
    Kept,
    /// The next sync keeps them.
    Written,
    /// A write or a sync of them failed.
    Stale,
}

/// A unit of a file.
#[derive(Clone, Copy, Drop)]
pub struct Unit {
    /// The bytes that a reader sees.
    pub shows: [u8; UNIT],
    /// The bytes that it held when it was last sure.
    pub old: [u8; UNIT],
    /// How sure it is.
    pub held: Held,
}

impl Unit {
    /// A unit that holds these bytes, on the disk.
    pub fn kept(bytes: [u8; UNIT]) -> Unit {
        Unit {
            shows: bytes,
            old: bytes,
            held: Held::Kept,
        }
    }
}

/// What a crash leaves in units that aren't sure: in turn 0 for the old bytes, 1 for the new ones, 2 for others.
#[derive(Drop)]
pub struct Choices {
    /// The choices as digits to base 3, or the state of a generator.
    pub code: u64,
    /// Whether they are drawn.
    pub are_drawn: bool,
}

impl Choices {
    /// The next choice.
    fn next(&mut self) -> u64 {
        if self.are_drawn {
            self.code = self
                .code
                .wrapping_mul(6364136223846793005)
                .wrapping_add(1442695040888963407);
            return (self.code >> 33) % 3;
        }
        let choice = self.code % 3;
        self.code /= 3;
        choice
    }

    /// What a crash leaves of a unit.
    fn left(&mut self, unit: &Unit) -> Unit {
        if unit.held == Held::Kept {
            return *unit;
        }
        match self.next() {
            0 => Unit::kept(unit.old),
            1 => Unit::kept(unit.shows),
            _ => Unit::kept([0xa5; UNIT]),
        }
    }
}

/// The bytes that a reader sees.
pub fn shown(alloc: Global, file: &[Unit]) -> Result<Vec<[u8; UNIT]>, AllocError> {
    let mut units = Vec::new(alloc);
    for unit in file {
        units.push(unit.shows)?;
    }
    Ok(units)
}

/// What a crash leaves of a file.
pub fn crashed(
    alloc: Global,
    file: &[Unit],
    choices: &mut Choices,
) -> Result<Vec<Unit>, AllocError> {
    let mut left = Vec::new(alloc);
    for unit in file {
        left.push(choices.left(unit))?;
    }
    Ok(left)
}

/// How many units of a file aren't sure.
pub fn unsure(file: &[Unit]) -> u32 {
    let mut count: u32 = 0;
    for unit in file {
        if unit.held != Held::Kept {
            count = count.saturating_add(1);
        }
    }
    count
}

/// Notes a write.
fn write(file: &mut [Unit], first: u64, units: &[[u8; UNIT]], held: Held) {
    for (i, bytes) in units.iter().enumerate() {
        let place = (first as usize).wrapping_add(i);
        if let Some(unit) = file.get_mut(place) {
            unit.shows = *bytes;
            unit.held = held;
        }
    }
}

/// Notes a sync: what was written becomes so.
fn sync(file: &mut [Unit], held: Held) {
    for unit in file {
        if unit.held == Held::Written {
            unit.held = held;
            if held == Held::Kept {
                unit.old = unit.shows;
            }
        }
    }
}

/// How a file's units stand behind a call: so where it was done, else stale.
fn held_by(happening: &Happening, done: Held) -> Held {
    if happening.done { done } else { Held::Stale }
}

/// Notes what happened, where it is this file's.
pub fn note(file: &mut [Unit], which: Which, happening: &Happening) {
    match &happening.asked {
        Asked::Write(to, first, units) if *to == which => {
            write(file, *first, units, held_by(happening, Held::Written));
        }
        Asked::Sync(to) if *to == which => sync(file, held_by(happening, Held::Kept)),
        Asked::Write(..) | Asked::Sync(_) => {}
    }
}
