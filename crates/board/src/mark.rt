//! What a step adds that no word holds.

use std::marker::Brand;

/// The mark that a step adds to the record. `note`, `issue` and `count` pick it from what they are given.
pub trait NewMark {
    ghost use Rattle.records.specs.Marks.{Mark};

    ghost mark: { Mark };
}

impl NewMark for Brand {
    ghost use Rattle.records.specs.Marks.{Flush};

    ghost mark = { Flush };
}

/// The number that a further seat gets. `split` picks it.
pub trait NewNumber {
    ghost use Rattle.std.specs.Prelude.{ℕ};

    ghost number: { ℕ };
}

impl NewNumber for Brand {
    ghost number = { 0 };
}

/// The sectors that a step gives a number. `publish` picks them from what it is given.
pub trait NewEdition {
    ghost use Rattle.std.specs.Prelude.{ℕ, List};

    ghost sectors: { List (List ℕ) };
}

impl NewEdition for Brand {
    ghost use Rattle.std.specs.Prelude.{[]};

    ghost sectors = { [] };
}
