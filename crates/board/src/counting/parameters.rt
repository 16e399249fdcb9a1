//! What all parts of one service agree on.

use std::marker::Brand;

/// What all parts of one service agree on: the board that they count on, the volume as it was handed in, the volume's sizes, the policy
/// by which its drivers are replaced, and the drivers, the first one first. It stands in types alone; a call picks it.
pub trait ServiceParameters {
    ghost use Rattle.std.specs.Prelude.{List};
    ghost use Rattle.atomic_table.specs.Seated.{TableId};
    ghost use Rattle.layout.specs.declared.Geometry.{Geometry};
    ghost use Rattle.records.specs.Opening.{Opening};
    ghost use Rattle.reincarnate.specs.declared.policy.Policy.{Policy};
    ghost use Rattle.bdev.specs.DriverState.{DriverState};

    ghost table: { TableId };

    ghost opening: { Opening };

    ghost geometry: { Geometry };

    ghost policy: { Policy };

    ghost supply: { List DriverState };
}

impl ServiceParameters for Brand {
    ghost use Rattle.std.specs.Prelude.{[]};
    ghost use Rattle.reincarnate.specs.Policy.{default_policy};
    ghost use Rattle.board.specs.Rooms.{no_table, no_opening, no_geometry};

    ghost table = { no_table };

    ghost opening = { no_opening };

    ghost geometry = { no_geometry };

    ghost policy = { default_policy };

    ghost supply = { [] };
}
