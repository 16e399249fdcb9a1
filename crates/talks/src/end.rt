//! Why a message has no answer.

use std::fmt;

/// Why a message has no answer: the connection ends.
#[derive(Clone, Copy, Debug, PartialEq, Eq)]
pub enum End {
    /// The bytes are too few for a message: they name nothing by which it could be answered.
    NoMessage,
    /// No memory was found, not even for a refusal.
    OutOfMemory,
}

/// Writes the name.
impl fmt::Display for End {
    fn fmt<W: fmt::Write>(&self, f: &mut fmt::Formatter<W>) -> fmt::Result {
        match self {
            End::NoMessage => f.write_str("NoMessage"),
            End::OutOfMemory => f.write_str("OutOfMemory"),
        }
    }
}
