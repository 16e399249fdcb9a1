//! What a turn came to.

/// What a turn came to.
#[derive(Clone, Copy, PartialEq, Eq)]
pub enum Course {
    /// Something was done, and more may be left.
    More,
    /// Nothing was left to do: each event was run, and no call waits.
    Done,
    /// A call was cut: the schedule ended in it.
    Cut,
}
