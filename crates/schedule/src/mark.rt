//! The marks of a run's record.

use message::endpoint::Endpoint;
use message::{BlockReply, BlockRequest};
use records::marks::Cause;
use tree::{Call, Reply, Who};

/// A mark of a run's record. Issued requests and faults aren't counted as events of the file server.
#[derive(Drop)]
pub enum RunMark<'a> {
    /// A driver was started.
    Started(Endpoint),
    /// A reply was taken, one that counts: from the driver started last, to an open request.
    Answered(BlockReply),
    /// A flush was taken.
    Flush,
    /// The device was given up.
    GaveUp,
    /// A client's call was finished: who called, the time, the call and its reply.
    Took(Who, u32, Call<'a>, Reply),
    /// A request was posted to a driver.
    Issued(BlockRequest, Endpoint),
    /// A driver is at fault.
    Fault(Endpoint, Cause),
}
