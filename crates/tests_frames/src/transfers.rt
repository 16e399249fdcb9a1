//! Requests that are begun, answered in parts, and issued again.
ghost use Rattle.std.specs.Prelude.{◌≡◌, ◌<◌, ◌≤◌, ◌+◌, ◌^◌, IfOk, []};
ghost use Rattle.reissue.specs.Transfers.{table_of, link_of};
ghost use Rattle.reissue.specs.Posts.{HasRoom};

use fixtures::lists::{moved, started, told};
use message::Incoming;
use reissue::list_link::ListLink;
use reissue::{Ask, BeginRefusal, Link, Settled, Transfers};
use std::alloc::{AllocError, Global};
use std::test::Fail;
use tests_texts::row_is_told;

/// Transfers over a link that gives these messages.
fn over(alloc: Global, messages: &[Incoming]) -> Result<Transfers<ListLink>, AllocError>
    ensures pending { IfOk result (λ t. (table_of t).pending ≡ []) }
    ensures ids { IfOk result (λ t. (table_of t).ids ≡ 0) }
    ensures room { IfOk result (λ t. HasRoom (table_of t) (⟦<ListLink as Link>⟧.room (link_of t))) }
{
    let mut list = Vec::new(alloc);
    for message in messages {
        list.push(*message)?;
    }
    Transfers::new(alloc, ListLink::new(alloc, list)?)
}

/// Takes so many messages, 16 at most; what the last one came to, and the bytes of the read that was settled last.
fn take<L: Link>(transfers: &mut Transfers<L>, count: u8) -> (Settled, [u8; 4096])
    requires { (table_of transfers.old).ids < 2 ^ 50 }
    ensures { (table_of transfers.new).ids < 2 ^ 50 + 256 }
{
    let mut settled = Settled::Nothing;
    let mut message = Incoming::End;
    let mut bytes = [0; 4096];
    'messages: for _ in 0..count {
        settled = transfers.step(&mut message, &mut bytes);
    }
    (settled, bytes)
}

/// Begins the read of a block of 4096 bytes; why not, where it is refused.
fn begin<L: Link>(transfers: &mut Transfers<L>, block: u32) -> Option<BeginRefusal>
    requires ids { (table_of transfers.old).ids < 2 ^ 50 }
    requires room { HasRoom (table_of transfers.old) (L.room (link_of transfers.old)) }
    ensures ids { (table_of transfers.new).ids ≤ (table_of transfers.old).ids + 1 }
    ensures room { HasRoom (table_of transfers.new) (L.room (link_of transfers.new)) }
{
    match transfers.begin(&Ask::read(0, u64::from(block) * 4096, 4096)) {
        Ok(_) => None,
        Err(refusal) => Some(refusal),
    }
}

/// Begins the reads of so many blocks from the first one on; how many were begun.
fn begin_first<L: Link>(transfers: &mut Transfers<L>, count: u8) -> u32
    requires ids { (table_of transfers.old).ids < 2 ^ 40 }
    requires room { HasRoom (table_of transfers.old) (L.room (link_of transfers.old)) }
    ensures ids { (table_of transfers.new).ids < 2 ^ 41 }
    ensures room { HasRoom (table_of transfers.new) (L.room (link_of transfers.new)) }
{
    let mut begun = 0u32;
    'reads: for block in 0..count {
        if begin(transfers, u32::from(block)).is_none() {
            begun = begun.saturating_add(1);
        }
    }
    begun
}

/// Begins a write of so many sectors from this one on; why not, where it is refused.
fn begin_write<L: Link>(
    transfers: &mut Transfers<L>,
    first: u8,
    sectors: u8,
) -> Option<BeginRefusal>
    requires ids { (table_of transfers.old).ids < 2 ^ 50 }
    requires room { HasRoom (table_of transfers.old) (L.room (link_of transfers.old)) }
    requires some { 1 ≤ sectors }
    requires most { sectors ≤ 8 }
    ensures ids { (table_of transfers.new).ids ≤ (table_of transfers.old).ids + 1 }
    ensures room { HasRoom (table_of transfers.new) (L.room (link_of transfers.new)) }
{
    let (place, count) = (u64::from(first) * 512, u32::from(sectors) * 512);
    transfers
        .begin_run(&Ask::write(0, place, count, &[7; 4096]))
        .err()
}

/// Sixteen are pending at most, and one for each block.
fn sixteen_are_pending(alloc: Global) -> Result<(), Fail> {
    let mut one = over(alloc, &[])?;
    let begun = begin_first(&mut one, 1);
    let again = begin(&mut one, 0);
    let mut all = over(alloc, &[])?;
    let sixteen = begin_first(&mut all, 16);
    let (new, old) = (begin(&mut all, 16), begin(&mut all, 0));
    let given = format!(in alloc; "{begun} {again:?} {sixteen} {new:?} {old:?}")?;
    let wanted = "1 Some(BlockPending) 16 Some(TableFull) Some(TableFull)";
    row_is_told(0, given.as_str(), wanted)
}

/// A range is begun where no byte of it is pending.
fn ranges_never_meet(alloc: Global) -> Result<(), Fail> {
    let mut one = over(alloc, &[])?;
    let begun = begin_write(&mut one, 4, 6);
    let (same, inner) = (begin_write(&mut one, 4, 6), begin_write(&mut one, 6, 2));
    let (lower, upper) = (begin_write(&mut one, 2, 3), begin_write(&mut one, 9, 8));
    let (before, behind) = (begin_write(&mut one, 2, 2), begin_write(&mut one, 10, 1));
    let first = format!(in alloc; "{begun:?} {same:?} {inner:?}")?;
    row_is_told(
        3,
        first.as_str(),
        "None Some(BlockPending) Some(BlockPending)",
    )?;
    let sides = format!(in alloc; "{lower:?} {upper:?} {before:?} {behind:?}")?;
    row_is_told(
        4,
        sides.as_str(),
        "Some(BlockPending) Some(BlockPending) None None",
    )
}

/// A place of a block, and the byte that is read there.
static BYTES: [(usize, u8); 8] = [
    (0, 1),
    (511, 1),
    (512, 2),
    (1023, 2),
    (1024, 3),
    (2047, 3),
    (2048, 4),
    (4095, 4),
];

/// The bytes of a block that was read are those.
fn is_read(bytes: &[u8; 4096]) -> Result<(), Fail> {
    for (at, byte) in &BYTES {
        if bytes.get(*at) != Some(byte) {
            return Err(Fail::new(format_args!("another byte at {at}")));
        }
    }
    Ok(())
}

/// What a link is told in parts, and when a driver that moved nothing is complained about.
const RESTS: &str = "read 1 16384 4096
read 2 16896 3584
read 3 17408 3072
read 4 18432 2048
complaint 1
read 4 18432 2048
";

/// A rest goes on under a new id.
fn a_rest_goes_on(alloc: Global) -> Result<(), Fail> {
    let messages = [
        started(1),
        moved(1, 1, 512, 1),
        moved(1, 2, 512, 2),
        moved(1, 3, 1024, 3),
        moved(1, 4, 0, 0),
        started(2),
        moved(2, 4, 2048, 4),
    ];
    let mut transfers = over(alloc, &messages)?;
    let ticket = transfers.begin(&Ask::read(0, 16384, 4096));
    let (settled, bytes) = take(&mut transfers, 7);
    row_is_told(1, told(alloc, transfers.link())?.as_str(), RESTS)?;
    let read = match settled {
        Settled::Read(read) => Some(read),
        _ => None,
    };
    if ticket.ok() != read {
        return Err(Fail::from("another ticket was read"));
    }
    is_read(&bytes)
}

/// A write goes on as a whole.
fn a_whole_write_again(alloc: Global) -> Result<(), Fail> {
    let messages = [started(1), started(2), moved(2, 1, 4096, 0)];
    let mut transfers = over(alloc, &messages)?;
    let ticket = transfers.begin(&Ask::write(0, 40960, 4096, &[49; 4096]));
    let (settled, _) = take(&mut transfers, 3);
    let lines = "write 1 40960 4096 49\nwrite 1 40960 4096 49\n";
    row_is_told(2, told(alloc, transfers.link())?.as_str(), lines)?;
    let written = match settled {
        Settled::Written(written) => Some(written),
        _ => None,
    };
    if ticket.ok() == written {
        return Ok(());
    }
    Err(Fail::from("another ticket was written"))
}

#[test]
fn requests_are_issued_again(rt: HostRuntime) -> Result<(), Fail> {
    sixteen_are_pending(rt.alloc())?;
    ranges_never_meet(rt.alloc())?;
    a_rest_goes_on(rt.alloc())?;
    a_whole_write_again(rt.alloc())
}
