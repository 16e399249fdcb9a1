//! Laws of free numbers, each a function whose contract is the law.

ghost use Rattle.bitmap.specs.Laws.{FreeIsFound, FreeAndTaken};

/// Where some number is free, the lowest one is found.
pub fn free_is_found()
    ensures { FreeIsFound }
{}

/// Each number from 1 to the last is free, or it is in the set.
pub fn free_and_taken()
    ensures { FreeAndTaken }
{}
