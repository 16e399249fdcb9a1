//! Requests and replies whose bytes stand elsewhere, without the zeros at their end.
#![tactic(auto)]

ghost use Rattle.std.specs.Prelude.{◌≡◌, ◌≤◌, length, replicate, take, true};
ghost use Rattle.compact_message.specs.Padded.{head_of_reply, head_of_request, incoming_of, padded, reply_of, request_of};

use errno::Errno;
use message::endpoint::Endpoint;
use message::{BlockReply, BlockRequest, Incoming, Kind};

/// How many bytes a request or a reply has.
const BYTES: usize = 4096;

/// How many bytes are looked at together, whether they are all zero.
const PIECE: usize = 64;

/// A request without its bytes: the other fields of [`BlockRequest`].
#[derive(Clone, Copy)]
pub struct RequestHead {
    pub id: u64,
    pub kind: Kind,
    pub minor: u8,
    pub position: u64,
    pub count: u32,
}

/// A reply without its bytes: the other fields of [`BlockReply`].
#[derive(Clone, Copy)]
pub struct ReplyHead {
    pub from: Endpoint,
    pub id: u64,
    pub outcome: Result<u32, Errno>,
}

/// A request whose bytes stand elsewhere; behind those that stand there it has zeros.
#[derive(Clone, Copy)]
pub struct RequestRef<'b> {
    pub head: RequestHead,
    pub bytes: &'b [u8],
}

/// A reply whose bytes stand elsewhere; behind those that stand there it has zeros.
#[derive(Clone, Copy)]
pub struct ReplyRef<'b> {
    pub head: ReplyHead,
    pub bytes: &'b [u8],
}

/// What a file server takes from its link; a reply's bytes stand elsewhere.
#[derive(Clone, Copy)]
pub enum IncomingRef<'b> {
    /// A driver's reply.
    Reply(ReplyRef<'b>),
    /// A driver was started.
    Started(Endpoint),
    /// No driver will be started any more.
    GaveUp,
    /// Dirty frames are to be written.
    Flush,
    /// Nothing comes any more.
    End,
}

/// These bytes without the zeros at their end.
pub fn trimmed(bytes: &[u8; 4096]) -> &[u8]
    ensures padded { padded result.now ≡ bytes.now }
    ensures length { length result.now ≤ 4096 }
{
    let end = end_by_byte(bytes, end_by_piece(bytes));
    &bytes[..end]
}

/// Where the last piece ends that isn't all zero; 0 where each is.
fn end_by_piece(bytes: &[u8; 4096]) -> usize
    ensures end { result ≤ 4096 }
    ensures zeros { padded (take result bytes.now) ≡ bytes.now }
{
    let mut end = BYTES;
    while end >= PIECE && is_zero(&bytes[end - PIECE..end]) {
        end -= PIECE;
    }
    end
}

/// Where the last byte before this end stands that isn't zero, and one more; 0 where there is none.
fn end_by_byte(bytes: &[u8; 4096], before: usize) -> usize
    requires before { before ≤ 4096 }
    requires zeros { padded (take before bytes.now) ≡ bytes.now }
    ensures end { result ≤ 4096 }
    ensures zeros { padded (take result bytes.now) ≡ bytes.now }
{
    let mut end = before;
    while end > 0 && bytes[end - 1] == 0 {
        end -= 1;
    }
    end
}

/// Whether all of these bytes are zero.
fn is_zero(bytes: &[u8]) -> bool
    ensures { result ≡ true → bytes.now ≡ replicate (length bytes.now) 0 }
{
    let mut most: u8 = 0;
    for byte in bytes {
        most = most.max(*byte);
    }
    most == 0
}

/// These bytes, and zeros behind them; of more than 4096 the first ones.
fn with_zeros(bytes: &[u8]) -> [u8; 4096]
    ensures { result ≡ padded bytes.now }
{
    let mut all = [0; BYTES];
    let count = bytes.len().min(BYTES);
    all[..count].copy_from_slice(&bytes[..count]);
    all
}

impl RequestHead {
    /// What a request is without its bytes.
    pub fn of(request: &BlockRequest) -> RequestHead
        ensures { result ≡ head_of_request request.now }
    {
        RequestHead {
            id: request.id,
            kind: request.kind,
            minor: request.minor,
            position: request.position,
            count: request.count,
        }
    }
}

impl ReplyHead {
    /// What a reply is without its bytes.
    pub fn of(reply: &BlockReply) -> ReplyHead
        ensures { result ≡ head_of_reply reply.now }
    {
        ReplyHead {
            from: reply.from,
            id: reply.id,
            outcome: reply.outcome,
        }
    }
}

impl<'b> RequestRef<'b> {
    /// This request.
    pub fn of(request: &'b BlockRequest) -> RequestRef<'b>
        ensures { request_of result ≡ request.now }
    {
        RequestRef {
            head: RequestHead::of(request),
            bytes: trimmed(&request.bytes),
        }
    }

    /// The request, with all its bytes.
    pub fn request(&self) -> BlockRequest
        ensures { result ≡ request_of self.now }
    {
        BlockRequest {
            id: self.head.id,
            kind: self.head.kind,
            minor: self.head.minor,
            position: self.head.position,
            count: self.head.count,
            bytes: with_zeros(self.bytes),
        }
    }
}

impl<'b> ReplyRef<'b> {
    /// This reply.
    pub fn of(reply: &'b BlockReply) -> ReplyRef<'b>
        ensures { reply_of result ≡ reply.now }
    {
        ReplyRef {
            head: ReplyHead::of(reply),
            bytes: trimmed(&reply.bytes),
        }
    }

    /// The reply, with all its bytes.
    pub fn reply(&self) -> BlockReply
        ensures { result ≡ reply_of self.now }
    {
        BlockReply {
            from: self.head.from,
            id: self.head.id,
            outcome: self.head.outcome,
            bytes: with_zeros(self.bytes),
        }
    }
}

impl IncomingRef<'_> {
    /// The message, with all its bytes.
    pub fn incoming(&self) -> Incoming
        ensures { result ≡ incoming_of self.now }
    {
        match self {
            IncomingRef::Reply(reply) => Incoming::Reply(reply.reply()),
            IncomingRef::Started(endpoint) => Incoming::Started(*endpoint),
            IncomingRef::GaveUp => Incoming::GaveUp,
            IncomingRef::Flush => Incoming::Flush,
            IncomingRef::End => Incoming::End,
        }
    }
}
