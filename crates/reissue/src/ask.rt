//! What is asked of transfers, and what they answer.

ghost use Rattle.std.specs.Prelude.{◌≡◌, ◌+◌, ◌<◌, ◌≤◌, ◌^◌, ◌%◌, ℕ, length, slice_index, true};
ghost use Rattle.reissue.specs.BeginRefusals.{begin_refusal_number};

use message::Kind;
use std::marker::Model;
use thiserror::Error;

/// Stands for the bytes of a read, which have no meaning.
static NO_BYTES: [u8; 4096] = [0; 4096];

/// A request without its id: for whole sectors of 512 bytes, one to eight of them. A write's bytes stand where its caller has them.
#[derive(Clone, Copy)]
pub struct Ask<'b> {
    /// Whether bytes are read or written.
    pub kind: Kind,
    /// The range of the media: 0 is the whole, 1 to 4 are the entries of the partition table.
    pub minor: u8,
    /// The first byte's place in the range, a multiple of 512.
    pub position: u64,
    /// How many bytes: a multiple of 512, 512 to 4096.
    pub count: u32,
    /// A write's bytes; those past the count have no meaning, and of a read none has.
    pub bytes: &'b [u8; 4096],
    pub ghost whole_position: { position % 512 ≡ 0 },
    pub ghost whole_count: { count % 512 ≡ 0 },
    pub ghost least: { 512 ≤ count },
    pub ghost most: { count ≤ 4096 },
    pub ghost bound: { position + count < 2 ^ 63 },
    pub ghost full: { length bytes.now ≡ 4096 },
}

impl<'b> Ask<'b> {
    /// A read of `count` bytes from this place on.
    pub fn read(minor: u8, position: u64, count: u32) -> Ask<'b>
        requires whole_position { position % 512 ≡ 0 }
        requires whole_count { count % 512 ≡ 0 }
        requires least { 512 ≤ count }
        requires most { count ≤ 4096 }
        requires bound { position + count < 2 ^ 63 }
        ensures kind { result.kind ≡ Kind.Read }
        ensures minor { result.minor ≡ minor }
        ensures position { result.position ≡ position }
        ensures count { result.count ≡ count }
    {
        Ask {
            kind: Kind::Read,
            minor,
            position,
            count,
            bytes: &NO_BYTES,
        }
    }

    /// A write of the first `count` of these bytes from this place on. None is copied.
    pub fn write(minor: u8, position: u64, count: u32, bytes: &'b [u8; 4096]) -> Ask<'b>
        requires whole_position { position % 512 ≡ 0 }
        requires whole_count { count % 512 ≡ 0 }
        requires least { 512 ≤ count }
        requires most { count ≤ 4096 }
        requires bound { position + count < 2 ^ 63 }
        ensures kind { result.kind ≡ Kind.Write }
        ensures minor { result.minor ≡ minor }
        ensures position { result.position ≡ position }
        ensures count { result.count ≡ count }
        ensures bytes { result.bytes.now ≡ bytes.now }
    {
        Ask {
            kind: Kind::Write,
            minor,
            position,
            count,
            bytes,
        }
    }
}

/// Names a request that was begun, until it is settled and for ever after: no two have the same.
#[derive(Clone, Copy, Debug, PartialEq, Eq)]
pub struct Ticket {
    number: u64,
}

impl Model for Ticket {
    ghost Value = { ℕ };

    ghost view = { λ t. t.number };

    ghost inverse = { λ n. record { number = n } };
}

impl Ticket {
    /// The ticket of the request that was begun under this id.
    pub fn of_id(id: u64) -> Ticket
        ensures { result ≡ id }
    {
        Ticket { number: id }
    }
}

/// Why a request wasn't begun. Nothing was changed.
#[derive(Clone, Copy, Debug, PartialEq, Eq, Error)]
pub enum BeginRefusal {
    /// Sixteen requests are pending. Looked at first.
    #[error("TableFull")]
    TableFull,
    /// A byte of its range is pending.
    #[error("BlockPending")]
    BlockPending,
}

impl BeginRefusal {
    /// Its number: 1 or 2.
    pub fn number(self) -> u32
        ensures { result ≡ begin_refusal_number self }
    {
        match self {
            BeginRefusal::TableFull => 1,
            BeginRefusal::BlockPending => 2,
        }
    }
}

/// What a message came to.
#[derive(Clone, Copy, Debug, PartialEq, Eq)]
pub enum Settled {
    /// No request was settled.
    Nothing,
    /// This read was answered good over its whole range: its bytes were put where the caller had room, the first of its range first.
    Read(Ticket),
    /// This write was answered good over its whole range.
    Written(Ticket),
    /// Dirty frames are to be written.
    Flush,
    /// The device was given up: nothing is posted any more, and nothing settles.
    GaveUp,
    /// The link gives no message any more.
    End,
}
