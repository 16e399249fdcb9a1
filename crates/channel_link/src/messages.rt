//! What the server, its drivers and the reincarnation server send each other. A message is a few words long, since whatever passes it on copies
//! it: the bytes of a request and of its answer stand in an exchange, to which messages point.

ghost use Rattle.std.specs.Prelude.{◌≡◌};
ghost use Rattle.channel_link.specs.Asked.{IsAsked};

use crate::order_line::OrderLine;
use errno::Errno;
use message::endpoint::{DISK_DRIVER, Endpoint};
use message::{BlockReply, BlockRequest, Kind};
use std::collections::LinkedList;

/// A request and the answer to it, in memory that goes to the driver with the order and comes back with the answer.
#[derive(Drop)]
pub struct Exchange {
    /// The request. Of a read the bytes have no meaning.
    pub request: BlockRequest,
    /// The answer, which has no meaning before the driver gave it.
    pub reply: BlockReply,
}

impl Exchange {
    /// An exchange in which nothing was asked or answered.
    pub fn new() -> Exchange {
        let nobody = Endpoint {
            slot: DISK_DRIVER,
            generation: 0,
        };
        Exchange {
            request: BlockRequest {
                id: 0,
                kind: Kind::Read,
                minor: 0,
                position: 0,
                count: 0,
                bytes: [0; 4096],
            },
            reply: BlockReply {
                from: nobody,
                id: 0,
                outcome: Err(Errno::EIO),
                bytes: [0; 4096],
            },
        }
    }

    /// Puts a request in the place of the one before it. Bytes are copied of a write alone.
    pub fn ask(&mut self, request: &BlockRequest)
        ensures request { IsAsked request.now self.new.request }
        ensures reply { self.new.reply ≡ self.old.reply }
    {
        self.request.id = request.id;
        self.request.kind = request.kind;
        self.request.minor = request.minor;
        self.request.position = request.position;
        self.request.count = request.count;
        if request.kind == Kind::Write {
            self.request.bytes = request.bytes;
        }
    }
}

/// What a driver is told, on its own channel.
#[derive(Drop)]
pub enum Order {
    /// A request.
    Ask(Box<Exchange>),
    /// It is to beat.
    Ping,
    /// It is to end.
    Stop,
}

/// What the reincarnation server is told.
#[derive(Clone, Copy)]
pub enum Report {
    /// This driver ended.
    Exit(Endpoint),
    /// An answer of this driver wasn't good.
    Complaint(Endpoint),
}

/// What the server's link is told.
#[derive(Drop)]
pub enum News {
    /// A driver answered: the exchange, with its answer.
    Answer(Box<Exchange>),
    /// A driver was started at this endpoint; it takes orders from this line.
    Started(Endpoint, OrderLine),
    /// The device was given up.
    GaveUp,
}

/// What a pass of the server's line knows: whether it sends and for which endpoint, what it sent, whether it receives, and what it received.
/// No value of it is made.
pub struct NewsView {
    pub drives: bool,
    pub endpoint: Endpoint,
    pub sent: LinkedList<News>,
    pub gets: bool,
    pub got: LinkedList<News>,
}
