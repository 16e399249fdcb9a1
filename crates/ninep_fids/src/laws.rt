//! Laws of the definitions, each a function whose contract is the law.

ghost use Rattle.ninep_fids.specs.Entries.{EntriesStandWhole, EachIsToldOnce};

/// Entries of a directory stand whole in an answer: as many as have room, from the first on, and no answer cuts one.
pub fn entries_stand_whole()
    ensures { EntriesStandWhole }
{}

/// Of entries that are kept each is told once, by answers that follow each other, whatever room each has for more than one.
pub fn each_is_told_once()
    ensures { EachIsToldOnce }
{}
