//! A seat at the board, and what it knows.

use std::marker::Model;

/// What a seat knows. No value of it is made: it stands in proofs alone.
pub struct Knowledge;

impl Model for Knowledge {
    ghost use Rattle.board.specs.View.{View, nobody};

    ghost Value = { View };

    ghost view = { λ _. nobody };
}

/// A seat at a board, by which a thread calls it. It has no bytes. Contracts see which board it is of and what it knows.
#[derive(Drop)]
pub struct Seat {
    pub(crate) inner: atomic_table::Seat<(), Knowledge>,
}

impl Model for Seat {
    ghost use Rattle.std.specs.Prelude.{◌≡◌, []};
    ghost use Rattle.board.specs.View.{SeatState};

    ghost Value = { SeatState };

    ghost view = { λ s. record { table = s.inner.table_id; view = s.inner.me.0 } };

    ghost invariant = { λ s. s.inner.me.1 ≡ [] };
}
