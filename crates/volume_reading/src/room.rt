//! Room for reads that are pending, and for the bytes of a place.

ghost use Rattle.std.specs.Prelude.{◌≡◌, ◌≤◌, [], length, vec_capacity, IfOk};

use crate::sought::Sought;
use std::alloc::{AllocError, Global};

/// How many reads of a range are pending at once at most: as many as may be.
pub(crate) const AT_ONCE: usize = 16;

/// How many bytes a place has at most.
const LONGEST: usize = 1048576;

/// Room for the reads of a range, of which sixteen are pending at once at most.
pub(crate) fn room_for_reads(alloc: Global) -> Result<Vec<Sought>, AllocError>
    ensures none { IfOk result (λ asked. asked.items ≡ []) }
    ensures wide { IfOk result (λ asked. 16 ≤ vec_capacity asked) }
{
    Vec::with_capacity(alloc, AT_ONCE)
}

/// Room for the reads of a range, of which sixteen are pending at once at most, and for the bytes of a place, at most 1 MiB. It serves one
/// place after another.
#[derive(Drop)]
pub struct ReadRoom {
    pub(crate) asked: Vec<Sought>,
    pub(crate) buffer: Vec<u8>,
    pub ghost none: { asked.items ≡ [] },
    pub ghost wide: { 16 ≤ vec_capacity asked },
    pub ghost long: { length buffer.items ≡ 1048576 },
}

impl ReadRoom {
    /// Room for sixteen reads, and for 1 MiB.
    pub fn new(alloc: Global) -> Result<ReadRoom, AllocError> {
        Ok(ReadRoom {
            asked: room_for_reads(alloc)?,
            buffer: vec![in alloc; 0; LONGEST]?,
        })
    }
}
