//! Trials: each is run once for each of its requests for memory, which is refused.

use fixtures::orders::{MOST, is_last, refuse, was_refused};
use std::alloc::{AllocError, Global};
use std::test::Fail;

/// Something that takes memory.
pub(crate) trait Trial {
    /// What comes of it.
    type Came: Drop;

    /// Does it.
    fn run(&self, alloc: Global) -> Self::Came;

    /// Whether what came is right, where a request was refused or none was.
    fn is_right(&self, alloc: Global, came: &Self::Came, refused: bool) -> Result<bool, AllocError>;
}

/// Does a trial of this number, with its first request refused, then with its second, until none is refused. It comes out right each time.
pub(crate) fn each_refused<T: Trial>(alloc: Global, number: u16, trial: &T) -> Result<(), Fail> {
    for request in 1..=MOST {
        refuse(alloc, number, request);
        let came = trial.run(alloc);
        let refused = was_refused(alloc);
        if is_last(
            number,
            request,
            refused,
            trial.is_right(alloc, &came, refused)?,
        )? {
            return Ok(());
        }
    }
    Err(Fail::from("no end"))
}
