//! Which units of an image changed since they were last taken, and their bytes.
//!
//! A unit has 4096 bytes; unit `n` begins at byte 4096 · `n`. Where the image ends in a unit, zeros follow.
#![tactic(auto)]

mod taken;

ghost use Rattle.std.specs.Prelude.{◌≡◌, ◌<◌, ◌≤◌, ◌^◌, ◌++◌, ◌↔◌, IfOk, Bool, false, true, drop, length, map, replicate};
ghost use Rattle.std.specs.List.{concat};
ghost use Rattle.changes.specs.Units.{AreTaken, Covers, is_marked, marked, unit_of, with_mark, with_marks};
ghost use Rattle.changes.specs.Laws.{TakenIsAll, StaysUnchanged};

use stable::UNIT;
use std::alloc::{AllocError, Global};
use std::marker::Model;
pub use taken::Changes;

/// A mark for each unit of an image: whether it changed since its bytes were last taken. Contracts see them as the list of these.
#[derive(Drop)]
pub struct Marks {
    marks: Vec<bool>,
}

impl Model for Marks {
    ghost use Rattle.std.specs.Prelude.{◌<◌, ◌^◌, Bool, List, length};

    ghost Value = { List Bool };

    ghost view = { λ m. m.marks.items };

    ghost invariant = { λ m. length m.marks.items < 2 ^ 32 };
}

impl Marks {
    /// For an image of so many units: none is marked. Refused where no memory was found, a byte for each unit.
    pub fn new(alloc: Global, units: u32) -> Result<Marks, AllocError>
        ensures { IfOk result (λ marks. marks ≡ replicate units false) }
    {
        Ok(Marks {
            marks: Vec::from_elem(alloc, false, units as usize)?,
        })
    }

    /// Marks a unit. A number past the last unit changes nothing.
    pub fn mark(&mut self, unit: u32)
        ensures { self.new ≡ with_mark self.old unit }
    {
        if let Some(mark) = self.marks.get_mut(unit as usize) {
            *mark = true;
        }
    }

    /// Marks units. A number past the last unit changes nothing.
    pub fn mark_all(&mut self, numbers: &[u32])
        ensures { self.new ≡ with_marks self.old numbers.now }
    {
        for number in numbers {
            self.mark(*number);
        }
    }

    /// Whether a unit is marked: not one past the last.
    pub fn has(&self, unit: u32) -> bool
        ensures { result ≡ is_marked self.now unit }
    {
        match self.marks.get(unit as usize) {
            Some(mark) => *mark,
            None => false,
        }
    }

    /// The same marks once more. Refused where no memory was found.
    pub fn copied(&self, alloc: Global) -> Result<Marks, AllocError>
        ensures { IfOk result (λ copy. copy ≡ self.now) }
    {
        Ok(Marks {
            marks: Vec::from_slice(alloc, &self.marks)?,
        })
    }

    /// Whether each unit is marked that other marks have.
    pub fn covers(&self, other: &Marks) -> bool
        ensures { (result ≡ true) ↔ Covers self.now other.now }
    {
        for (unit, is_marked) in other.marks.iter().enumerate() {
            if *is_marked && !self.has(unit as u32) {
                return false;
            }
        }
        true
    }

    /// Takes all marks away.
    pub fn clear(&mut self)
        ensures { self.new ≡ replicate (length self.old) false }
    {
        self.marks.fill(false);
    }

    /// The marked units of the image that these sectors make, in ascending order, with their bytes. It takes memory for these units alone;
    /// refused where none was found.
    pub fn changes(&self, alloc: Global, sectors: &[[u8; 512]]) -> Result<Changes, AllocError>
        ensures { IfOk result (AreTaken self.now (concat sectors.now)) }
    {
        let numbers = self.numbers(alloc)?;
        let units = units_at(alloc, &numbers, sectors)?;
        Ok(Changes { numbers, units })
    }

    /// The numbers of the marked units, in ascending order.
    fn numbers(&self, alloc: Global) -> Result<Vec<u32>, AllocError>
        ensures is { IfOk result (λ numbers. numbers.items ≡ marked self.now) }
        ensures few { IfOk result (λ numbers. length numbers.items < 2 ^ 32) }
    {
        let mut numbers = Vec::new(alloc);
        for (number, is_marked) in self.marks.iter().enumerate() {
            if *is_marked {
                numbers.push(number as u32)?;
            }
        }
        Ok(numbers)
    }
}

/// Units of the image that these sectors make, in the order of their numbers.
fn units_at(
    alloc: Global,
    numbers: &[u32],
    sectors: &[[u8; 512]],
) -> Result<Vec<[u8; UNIT]>, AllocError>
    ensures { IfOk result (λ units. units.items ≡ map (unit_of (concat sectors.now)) numbers.now) }
{
    let image = sectors.as_flattened();
    let mut units = Vec::with_capacity(alloc, numbers.len())?;
    for number in numbers {
        units.push(unit_at(image, *number))?;
    }
    Ok(units)
}

/// Puts bytes at the front of a unit.
fn put_front(unit: &mut [u8; UNIT], bytes: &[u8])
    requires { length bytes.now ≤ 4096 }
    ensures { unit.new ≡ bytes.now ++ drop (length bytes.now) unit.old }
{
    unit[..bytes.len()].copy_from_slice(bytes);
}

/// A unit of an image: zeros where the image has ended.
pub fn unit_at(image: &[u8], number: u32) -> [u8; UNIT]
    ensures { result ≡ unit_of image.now number }
{
    let first = (number as usize * UNIT).min(image.len());
    let last = (first + UNIT).min(image.len());
    let mut unit = [0; UNIT];
    put_front(&mut unit, &image[first..last]);
    unit
}

/// Where an image agrees with another one in each unit that isn't marked, the changes taken of that one make it that one, unit for unit.
#[tactic(auto, using(crate::proofs::Taking::taken_is_all))]
pub fn taken_is_all()
    ensures { TakenIsAll }
{}

/// A unit none of whose sectors changed is as it was.
#[tactic(auto, using(crate::proofs::UnitBytes::stays_unchanged))]
pub fn unchanged_sectors_make_the_same_unit()
    ensures { StaysUnchanged }
{}
