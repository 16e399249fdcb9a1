//! Calls that arrived.

use tree::{Call, Who};

/// A call that arrived: who calls, the time in seconds since 1970, and the call.
#[derive(Clone, Copy, Drop)]
pub struct Arrived<'a> {
    pub who: Who,
    pub now: u32,
    pub call: Call<'a>,
}
