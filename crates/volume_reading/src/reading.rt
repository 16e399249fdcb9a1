//! Reading a range of a volume through a link.

ghost use Rattle.std.specs.Prelude.{◌≡◌, ◌≢◌, ◌+◌, ◌-◌, ◌*◌, ◌<◌, ◌≤◌, ◌^◌, ◌%◌, [], false, length, vec_capacity, IfSome, IfNone, OnOk, Err};
ghost use Rattle.records.specs.Told.{took_end};
ghost use Rattle.reissue.specs.Posts.{HasRoom};
ghost use Rattle.reissue.specs.Transfers.{link_of, table_of};
ghost use Rattle.volume_reading.specs.Sought.{piece_size};
ghost use Rattle.volume_reading.specs.Reading.{BeginsNext, BeginsNothing, ReadsRange};

use crate::room::{AT_ONCE, room_for_reads};
use crate::sought::{Sought, piece_size, put_bytes};
use message::{Incoming, Kind};
use reissue::{Ask, Link, Settled, Transfers};
use std::alloc::Global;

/// Why a range wasn't read.
#[derive(Clone, Copy, Debug, PartialEq, Eq)]
pub enum Stop {
    /// No memory was found. Nothing was done at the link.
    OutOfMemory,
    /// The device was given up.
    GaveUp,
    /// The link gives no message any more.
    Ended,
}

/// The read of the next piece of a range that begins at `start`, after so many bytes of it.
fn ask_at(minor: u8, start: u64, at: usize, size: usize) -> Ask<'static>
    requires start { start % 512 ≡ 0 }
    requires place { at % 512 ≡ 0 }
    requires whole { size % 512 ≡ 0 }
    requires within { at < size }
    requires bound { start + size < 2 ^ 62 }
    ensures kind { result.kind ≡ Kind.Read }
    ensures minor { result.minor ≡ minor }
    ensures position { result.position ≡ start + at }
    ensures count { result.count ≡ piece_size size at }
{
    Ask::read(minor, start + at as u64, piece_size(size, at) as u32)
}

/// Begins the next read of a range of `size` bytes, after `next` of them, if there is one and sixteen aren't sought: how many bytes
/// were asked for then.
fn begin_next<L: Link>(
    transfers: &mut Transfers<L>,
    asked: &mut Vec<Sought>,
    minor: u8,
    start: u64,
    size: usize,
    next: usize,
) -> Option<usize>
    requires start { start % 512 ≡ 0 }
    requires place { next < size → next % 512 ≡ 0 }
    requires whole { size % 512 ≡ 0 }
    requires bound { start + size < 2 ^ 62 }
    requires capacity { 16 ≤ vec_capacity asked.old }
    requires ids { (table_of transfers.old).ids < 2 ^ 60 }
    requires room { HasRoom (table_of transfers.old) (L.room (link_of transfers.old)) }
    ensures begun { IfSome result (λ after. BeginsNext L.Link minor start size next after asked.old.items asked.new.items transfers.old
        transfers.new) }
    ensures none { IfNone result (BeginsNothing size next asked.old.items asked.new.items transfers.old transfers.new) }
    ensures capacity { vec_capacity asked.new ≡ vec_capacity asked.old }
    ensures budget { L.budget_left (link_of transfers.new) ≤ L.budget_left (link_of transfers.old) }
    ensures goes { L.goes_on (link_of transfers.old) (link_of transfers.new) }
    ensures room { HasRoom (table_of transfers.new) (L.room (link_of transfers.new)) }
{
    if size <= next || AT_ONCE <= asked.len() {
        return None;
    }
    match transfers.begin(&ask_at(minor, start, next, size)) {
        Ok(ticket) => {
            asked.push_reserved(Sought { ticket, at: next });
            Some(next + piece_size(size, next))
        }
        Err(_) => None,
    }
}

/// Reads the bytes of a range of the media that begins at `start`, as many as there is room for, a multiple of 512: so many reads are
/// pending at once as may be, each of at most 4096 bytes. It takes messages until all have come, the device is given up or the link ends. A
/// Flush asks for nothing here. Where it stops early, some byte of the range wasn't read. It takes no memory. The list is for the reads that are
/// pending.
pub(crate) fn read_in<L: Link>(
    transfers: &mut Transfers<L>,
    asked: &mut Vec<Sought>,
    minor: u8,
    start: u64,
    into: &mut [u8],
) -> Result<(), Stop>
    requires none { asked.old.items ≡ [] }
    requires wide { 16 ≤ vec_capacity asked.old }
    requires start { start % 512 ≡ 0 }
    requires whole { length into.old % 512 ≡ 0 }
    requires bound { start + length into.old < 2 ^ 62 }
    requires idle { (table_of transfers.old).pending ≡ [] }
    requires live { (table_of transfers.old).given_up ≡ false }
    requires unended { took_end (L.history (link_of transfers.old)) ≡ false }
    requires room { HasRoom (table_of transfers.old) (L.room (link_of transfers.old)) }
    requires ids { (table_of transfers.old).ids + L.budget_left (link_of transfers.old) + length into.old ≤ 2 ^ 60 - 4096 }
    ensures reads { ReadsRange result minor start (length into.old) into.new (table_of transfers.old) (table_of transfers.new)
        (L.history (link_of transfers.old)) (L.history (link_of transfers.new)) (L.truth (link_of transfers.old))
        (L.truth (link_of transfers.new)) }
    ensures same_length { length into.new ≡ length into.old }
    ensures goes { L.goes_on (link_of transfers.old) (link_of transfers.new) }
    ensures room { OnOk result (HasRoom (table_of transfers.new) (L.room (link_of transfers.new))) }
    ensures ids { OnOk result ((table_of transfers.new).ids + 2 * L.budget_left (link_of transfers.new)
        ≤ (table_of transfers.old).ids + 2 * L.budget_left (link_of transfers.old) + length into.old) }
    ensures fewer { OnOk result ((table_of transfers.new).ids + L.budget_left (link_of transfers.new)
        ≤ (table_of transfers.old).ids + L.budget_left (link_of transfers.old) + length into.old) }
    ensures none { OnOk result (asked.new.items ≡ []) }
    ensures wide { vec_capacity asked.new ≡ vec_capacity asked.old }
    ensures memory { result ≢ Err Stop.OutOfMemory }
{
    let size = into.len();
    let mut next = 0;
    let mut message = Incoming::End;
    let mut bytes = [0; 4096];
    'messages: loop {
        if let Some(after) = begin_next(transfers, asked, minor, start, size, next) {
            next = after;
            continue;
        }
        if asked.is_empty() {
            return Ok(());
        }
        match transfers.step(&mut message, &mut bytes) {
            Settled::Read(ticket) => put_bytes(asked, into, ticket, &bytes),
            Settled::GaveUp => return Err(Stop::GaveUp),
            Settled::End => return Err(Stop::Ended),
            Settled::Nothing => {}
            Settled::Written(_) => {}
            Settled::Flush => {}
        }
    }
}

/// The same with a list of its own. Where no memory was found, all is as it was.
pub fn read_range<L: Link>(
    alloc: Global,
    transfers: &mut Transfers<L>,
    minor: u8,
    start: u64,
    into: &mut [u8],
) -> Result<(), Stop>
    requires start { start % 512 ≡ 0 }
    requires whole { length into.old % 512 ≡ 0 }
    requires bound { start + length into.old < 2 ^ 62 }
    requires idle { (table_of transfers.old).pending ≡ [] }
    requires live { (table_of transfers.old).given_up ≡ false }
    requires unended { took_end (L.history (link_of transfers.old)) ≡ false }
    requires room { HasRoom (table_of transfers.old) (L.room (link_of transfers.old)) }
    requires ids { (table_of transfers.old).ids + L.budget_left (link_of transfers.old) + length into.old ≤ 2 ^ 60 - 4096 }
    ensures reads { ReadsRange result minor start (length into.old) into.new (table_of transfers.old) (table_of transfers.new)
        (L.history (link_of transfers.old)) (L.history (link_of transfers.new)) (L.truth (link_of transfers.old))
        (L.truth (link_of transfers.new)) }
    ensures same_length { length into.new ≡ length into.old }
    ensures goes { L.goes_on (link_of transfers.old) (link_of transfers.new) }
    ensures room { OnOk result (HasRoom (table_of transfers.new) (L.room (link_of transfers.new))) }
    ensures ids { OnOk result ((table_of transfers.new).ids + 2 * L.budget_left (link_of transfers.new)
        ≤ (table_of transfers.old).ids + 2 * L.budget_left (link_of transfers.old) + length into.old) }
    ensures refused { result ≡ Err Stop.OutOfMemory → (transfers.new ≡ transfers.old) × (into.new ≡ into.old) }
{
    match room_for_reads(alloc) {
        Ok(mut asked) => read_in(transfers, &mut asked, minor, start, into),
        Err(_) => Err(Stop::OutOfMemory),
    }
}
