//! Handing an image on: it goes to its place only where it is as it was read back, and the check finds its volume clean.

ghost use Rattle.std.specs.Prelude.{⊤, ◌≡◌, ℕ, Bool, true, List, Some, IfErr, OnOk};
ghost use Rattle.volume_commands.specs.Handing.{HoldsTreeIn, IsHandedOn, IsWhyNot, TellsHanding, handing_text, not_handed_number, not_handed_text};

use crate::verify::{NoVolume, text_of_missing, volume_in};
use fsck::{Verdict, check};
use output::{Told, tell};
use std::alloc::Global;
use std::fmt;
use std::io::Write;
use volume::Finding;

/// A place that takes an image. How is said by a relation of the implementation; contracts of those who hand an image on speak of this
/// relation alone, so that they say what was put where, and that nothing else was.
pub trait ImagePlace {
    /// How an image may be put there: the place before, the image's bytes, whether they are there then, and the place after.
    ghost puts: { Self → List ℕ → Bool → Self → Type 0 } = { λ _ _ _ _. ⊤ };

    /// Puts an image there, whole or not at all. Whether it is there.
    fn put(&mut self, image: &[u8]) -> bool
        ensures { puts self.old image.now result self.new };
}

/// Why an image isn't handed on.
#[derive(Clone, Copy, Debug, PartialEq, Eq)]
pub enum NotHanded {
    /// 1: its volume breaks a rule. It prints as `NotClean finding N at P`.
    NotClean(Finding),
    /// 2: it has no volume of the minor.
    Missing(NoVolume),
    /// 3: no memory was found for the check, so nothing is known of the volume.
    Unchecked,
    /// 4: what was read back through the drivers isn't what it has.
    NotAsRead,
}

impl NotHanded {
    /// Its number.
    pub fn number(self) -> u32
        ensures { result ≡ not_handed_number self }
    {
        match self {
            NotHanded::NotClean(_) => 1,
            NotHanded::Missing(_) => 2,
            NotHanded::Unchecked => 3,
            NotHanded::NotAsRead => 4,
        }
    }
}

impl fmt::Display for NotHanded {
    ghost output = { λ why. Some (not_handed_text why) };

    fn fmt<W: fmt::Write>(&self, f: &mut fmt::Formatter<W>) -> fmt::Result {
        match self {
            NotHanded::NotClean(finding) => write!(f, "NotClean {finding}"),
            NotHanded::Missing(refusal) => f.write_str(text_of_missing(*refusal)),
            NotHanded::Unchecked => f.write_str("Unchecked OutOfMemory"),
            NotHanded::NotAsRead => f.write_str("NotAsRead"),
        }
    }
}

/// What came of an image that was to be handed on.
#[derive(Clone, Copy, Debug, PartialEq, Eq)]
pub enum Handing {
    /// It is as it was read back, its volume is clean, and it is in its place.
    Put,
    /// It is as it was read back, its volume is clean, its place didn't take it, and it is beside.
    TakenBeside,
    /// It is as it was read back, its volume is clean, and neither its place nor the one beside took it.
    NotPut,
    /// It isn't handed on, and is beside. Its place is as it was.
    Beside(NotHanded),
    /// It isn't handed on, and couldn't be put beside either. Its place is as it was.
    Nowhere(NotHanded),
}

/// Whether an image may be handed on: it is as it was read back, and the check finds the volume of this minor in it clean. Else why not.
fn looked_at(alloc: Global, image: &[u8], minor: u8, as_read: bool) -> Result<(), NotHanded>
    ensures clean { OnOk result ((as_read ≡ true) × HoldsTreeIn image.now minor) }
    ensures refused { IfErr result (IsWhyNot image.now minor as_read) }
{
    if !as_read {
        return Err(NotHanded::NotAsRead);
    }
    let volume = match volume_in(image, minor) {
        Ok(volume) => volume,
        Err(refusal) => return Err(NotHanded::Missing(refusal)),
    };
    match check(alloc, volume) {
        Ok(Verdict::Clean(_)) => Ok(()),
        Ok(Verdict::Found(finding)) => Err(NotHanded::NotClean(finding)),
        Err(_) => Err(NotHanded::Unchecked),
    }
}

/// Puts an image in its place if it is as it was read back through the drivers, and the check finds the volume of this minor in it clean,
/// these bytes and no others; it goes beside where its place doesn't take it, and nothing does where it does. Else the place stays as it
/// is, and the image goes beside. So what is put in the place holds a file tree.
pub fn hand_on<P: ImagePlace, B: ImagePlace>(
    alloc: Global,
    image: &[u8],
    minor: u8,
    as_read: bool,
    place: &mut P,
    beside: &mut B,
) -> Handing
    ensures { IsHandedOn P.puts B.puts image.now minor as_read place.old beside.old result place.new beside.new }
{
    match looked_at(alloc, image, minor, as_read) {
        Ok(()) => {
            if place.put(image) {
                Handing::Put
            } else if beside.put(image) {
                Handing::TakenBeside
            } else {
                Handing::NotPut
            }
        }
        Err(why) => {
            if beside.put(image) {
                Handing::Beside(why)
            } else {
                Handing::Nowhere(why)
            }
        }
    }
}

/// What came of an image, as it is told where its place is the file of this name.
#[derive(Clone, Copy)]
struct ToldOf<'n> {
    name: &'n str,
    handing: Handing,
}

impl fmt::Display for ToldOf<'_> {
    ghost output = { λ told. Some (handing_text told.name.now told.handing) };

    fn fmt<W: fmt::Write>(&self, f: &mut fmt::Formatter<W>) -> fmt::Result {
        let name = self.name;
        match self.handing {
            Handing::Put => Ok(()),
            Handing::TakenBeside => write!(f, "cannot write {name}\nimage left in {name}.given-up"),
            Handing::NotPut => write!(f, "cannot write {name}\ncannot write {name}.given-up"),
            Handing::Beside(why) => write!(f, "{why}\nimage left in {name}.given-up"),
            Handing::Nowhere(why) => write!(f, "{why}\ncannot write {name}.given-up"),
        }
    }
}

/// Says on `err` what came of an image whose place is the file of this name: nothing where it is there; else that the file can't be
/// written, or why the image isn't handed on, and then that it is in the file of this name and `.given-up`, or that this can't be written
/// either. How that went out.
pub fn tell_handing<E: Write>(alloc: Global, name: &str, handing: Handing, err: &mut E) -> Told
    ensures { TellsHanding E.contents name.now handing result err.old err.new }
{
    match handing {
        Handing::Put => Told::Whole,
        _ => tell(alloc, err, &ToldOf { name, handing }),
    }
}
