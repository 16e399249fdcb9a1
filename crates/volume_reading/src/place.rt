//! Places of a volume's range, and what takes the pieces that are read there.

ghost use Rattle.volume_reading.specs.Pieces.{Piece};

/// A place of a volume's range: where it begins in the range, and how many bytes it has.
#[derive(Clone, Copy)]
pub struct Place {
    /// Where it begins.
    pub start: u64,
    /// How many bytes it has.
    pub size: u32,
}

/// What takes pieces of a range as they are read.
pub trait Takes {
    /// How a piece may be taken: the state before, the piece, and the state after.
    ghost takes: { Self → Piece → Self → Type 0 };

    /// Takes the piece that begins here and has these bytes.
    fn take(&mut self, start: u64, bytes: &[u8])
        ensures { takes self.old (record { start = start; bytes = bytes.now }) self.new };
}
