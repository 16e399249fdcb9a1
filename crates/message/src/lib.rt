//! Messages of fixed size between the file server, its drivers and the reincarnation server.
#![tactic(auto)]

pub mod endpoint;

ghost use Rattle.std.specs.Prelude.{◌≡◌};
ghost use Rattle.message.specs.Good.{moved};

use crate::endpoint::Endpoint;
use errno::Errno;

/// What a block request does.
#[derive(Clone, Copy, Debug, PartialEq, Eq)]
pub enum Kind {
    Read,
    Write,
}

/// A request to a driver.
#[derive(Clone, Copy)]
pub struct BlockRequest {
    /// The server's number of the request; ids rise by one from 1.
    pub id: u64,
    /// Whether bytes are read or written.
    pub kind: Kind,
    /// The range of the media: 0 is the whole, 1 to 4 are the entries of the partition table.
    pub minor: u8,
    /// The first byte's place in the range; a multiple of 512.
    pub position: u64,
    /// How many bytes: a multiple of 512, 512 to 4096.
    pub count: u32,
    /// A write's bytes; those past the count have no meaning.
    pub bytes: [u8; 4096],
}

/// A driver's reply to a request.
#[derive(Clone, Copy)]
pub struct BlockReply {
    /// The driver that answered; stamped by whoever runs it.
    pub from: Endpoint,
    /// The id of the request that is answered.
    pub id: u64,
    /// How many bytes were moved, from the position on, or why none.
    pub outcome: Result<u32, Errno>,
    /// A read's bytes; those past the number that the outcome gives have no meaning.
    pub bytes: [u8; 4096],
}

/// What a file server takes from its link.
#[derive(Clone, Copy)]
pub enum Incoming {
    /// A driver's reply.
    Reply(BlockReply),
    /// A driver was started: it is the one to post to from now on.
    Started(Endpoint),
    /// No driver will be started any more.
    GaveUp,
    /// Dirty frames are to be written.
    Flush,
    /// Nothing comes any more.
    End,
}

/// How many bytes an outcome of a request for `count` bytes moved: its number, where that is a multiple of 512, above 0 and at most
/// the count. Any other outcome moved none that count.
pub fn moved_bytes(count: u32, outcome: &Result<u32, Errno>) -> Option<u32>
    ensures { result ≡ moved count outcome.now }
{
    match outcome {
        Ok(n) => {
            if *n % 512 == 0 && 0 < *n && *n <= count {
                Some(*n)
            } else {
                None
            }
        }
        Err(_) => None,
    }
}
