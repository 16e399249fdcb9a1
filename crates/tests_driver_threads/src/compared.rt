//! What is read back is compared with the media as it comes, while a driver may write.

ghost use Rattle.std.specs.Prelude.{◌≡◌};

use crate::setting::{POLICY, SECTORS, filled_up, started, write_of};
use crate::watch::Watch;
use bdev::Driver;
use board::counting::parameters::ServiceParameters;
use board::{Board, Seat};
use channel_link::link::ChannelLink;
use driver_threads::watch::Likeness;
use message::Incoming;
use message::endpoint::Endpoint;
use reincarnate::Reincarnation;
use reissue::link::Link;
use std::alloc::{AllocError, Global};
use std::marker::Brand;
use std::sync::{Arc, Wait};
use std::test::*;
use std::thread::Threads;
use std::time::Clock;

// Where the driver writes: the first byte of sector 8.
const WRITTEN: u64 = 4096;

/// When the driver writes the same bytes once more, if it does.
#[derive(Clone, Copy, PartialEq, Eq)]
enum Again {
    Never,
    BeforeTheComparison,
    BeforeTheEnd,
}

// Two sectors of the byte 0x11 are written, from sector 8 on, and the write is answered.
fn is_written<R: Wait + Copy>(link: &mut ChannelLink<R>, to: Endpoint, id: u64) -> bool {
    if link.post(to, &write_of(id, 0x11)).is_err() {
        return false;
    }
    match link.take() {
        Incoming::Reply(reply) => reply.outcome == Ok(1024),
        _ => false,
    }
}

// The first driver writes; bytes are compared from this byte on; and all is stopped. What came of it.
fn compared_on<
    N: ServiceParameters + Send + Sync + 'static,
    R: Threads + Wait + Clock + Copy + Send + Sync + 'static,
>(
    alloc: Global,
    rt: R,
    image: &[u8],
    reincarnation: Reincarnation<Driver>,
    board: Board,
    seat: Seat,
    start: u64,
    bytes: &[u8],
    again: Again,
) -> Result<Option<Likeness>, AllocError>
    requires board { board ≡ N.table }
    requires range { (N.opening.first ≡ 0) × (N.opening.count ≡ SECTORS) }
    requires image { N.opening.media ≡ image.now }
    requires seat { seat.table ≡ board }
{
    let gate = Arc::new(alloc, Watch::ticking(rt))?;
    let made = started::<N, R, Driver>(
        alloc,
        rt,
        image,
        SECTORS,
        reincarnation,
        board,
        seat,
        &gate,
    )?;
    let Some((mut link, running)) = made else {
        return Ok(None);
    };
    let Incoming::Started(to) = link.take() else {
        return Ok(None);
    };
    let mut is_all_written = is_written(&mut link, to, 1);
    let mut watch = running.watch(rt);
    if again == Again::BeforeTheComparison {
        is_all_written = is_written(&mut link, to, 2) && is_all_written;
    }
    watch.compare(start, bytes);
    if again == Again::BeforeTheEnd {
        is_all_written = is_written(&mut link, to, 2) && is_all_written;
    }
    drop(link);
    let (_, _, likeness) = watch.stop();
    Ok(is_all_written.then_some(likeness))
}

// On media of zeros.
fn likeness_of<R: Threads + Wait + Clock + Copy + Send + Sync + 'static>(
    alloc: Global,
    rt: R,
    start: u64,
    bytes: &[u8],
    again: Again,
) -> Option<Likeness> {
    let image = vec![in alloc; 0u8; 512 * SECTORS as usize].ok()?;
    let drivers = filled_up(alloc, Vec::new(alloc)).ok()?;
    let reincarnation = Reincarnation::new(alloc, POLICY, drivers).ok()?;
    let (board, seat) = Board::new(alloc).ok()?;
    compared_on::<Brand, R>(
        alloc,
        rt,
        &image,
        reincarnation,
        board,
        seat,
        start,
        bytes,
        again,
    )
    .ok()?
}

#[test]
fn the_same(rt: HostRuntime) -> Result<(), Fail> {
    let likeness = likeness_of(rt.alloc(), rt, WRITTEN, &[0x11; 1024], Again::Never).ok_or(
        "not compared",
    )?;
    assert_eq!(rt; likeness, Likeness::Same);
    Ok(())
}

#[test]
fn another_byte(rt: HostRuntime) -> Result<(), Fail> {
    let mut bytes = [0x11; 1024];
    bytes[1023] = 0x12;
    let likeness = likeness_of(rt.alloc(), rt, WRITTEN, &bytes, Again::Never).ok_or(
        "not compared",
    )?;
    assert_eq!(rt; likeness, Likeness::Differs);
    Ok(())
}

// What a driver writes is what stands there: so nobody can tell but by the numbers.
#[test]
fn written_meanwhile(rt: HostRuntime) -> Result<(), Fail> {
    let alloc = rt.alloc();
    let bytes = [0x11; 1024];
    let before = likeness_of(alloc, rt, WRITTEN, &bytes, Again::BeforeTheComparison).ok_or(
        "not compared",
    )?;
    assert_eq!(rt; before, Likeness::Unsure);
    let after = likeness_of(alloc, rt, WRITTEN, &bytes, Again::BeforeTheEnd).ok_or("not compared")?;
    assert_eq!(rt; after, Likeness::Unsure);
    Ok(())
}

// The volume ends after the first 512 of these bytes.
#[test]
fn past_the_end(rt: HostRuntime) -> Result<(), Fail> {
    let likeness = likeness_of(rt.alloc(), rt, 65024, &[0; 1024], Again::Never).ok_or(
        "not compared",
    )?;
    assert_eq!(rt; likeness, Likeness::Unsure);
    Ok(())
}
