//! Seats of a service's board: beats, in two threads too, what is seen when seats meet, the numbers of editions, and tallies from a
//! session's start to its end.
ghost use Rattle.std.specs.Prelude.{◌≡◌, ◌∷◌, [], None, Some, IfOk, MatchOption};
ghost use Rattle.records.specs.Marks.{Flush, GaveUp};

use board::{Board, Seat};
use message::endpoint::Endpoint;
use message::{BlockRequest, Incoming, Kind};
use std::alloc::{AllocError, Global};
use std::test::Fail;
use std::thread::join;
use tests_texts::is_told;
use tree::{Call, Reply, Who};

/// The pulse after one beat.
fn beaten(board: &Board, seat: &mut Seat, generation: u32, count: u32) -> (u32, u32)
    requires { seat.old.table ≡ board.now }
    ensures { seat.new.table ≡ board.now }
{
    board.beat(seat, generation, count);
    board.pulse(seat)
}

/// The pulses after each of four beats, each of a generation and a count.
fn pulses(alloc: Global, beats: &[(u32, u32); 4]) -> Result<[(u32, u32); 4], AllocError> {
    let (board, mut seat) = Board::new(alloc)?;
    let [first, second, third, fourth] = *beats;
    Ok([
        beaten(&board, &mut seat, first.0, first.1),
        beaten(&board, &mut seat, second.0, second.1),
        beaten(&board, &mut seat, third.0, third.1),
        beaten(&board, &mut seat, fourth.0, fourth.1),
    ])
}

/// Four beats, each of a generation and a count, and the pulses then: old ones change nothing, and a full count stays.
static BEATS: [([(u32, u32); 4], &str); 2] = [
    (
        [(1, 5), (1, 4), (2, 0), (1, 9)],
        "[(1, 5), (1, 5), (2, 0), (2, 0)]",
    ),
    (
        [(1, 4294967295), (1, 4294967295), (2, 0), (4294967295, 1)],
        "[(1, 4294967295), (1, 4294967295), (2, 0), (4294967295, 1)]",
    ),
];

/// Beats leave these pulses.
fn beats_are_felt(alloc: Global) -> Result<(), Fail> {
    for (beats, wanted) in &BEATS {
        let given = format!(in alloc; "{:?}", pulses(alloc, beats)?)?;
        is_told(given.as_str(), wanted)?;
    }
    Ok(())
}

/// One beat, with a seat that ends.
fn beats_once(board: &Board, mut seat: Seat, generation: u32, count: u32)
    requires { seat.table ≡ board.now }
{
    board.beat(&mut seat, generation, count);
}

#[test]
fn seats_beat_in_two_threads(rt: HostRuntime) -> Result<(), Fail> {
    let (board, mut keeper) = Board::new(rt.alloc())?;
    let old = board.split(&mut keeper, None)?;
    let new = board.split(&mut keeper, None)?;
    let words = &board;
    let _ = join(
        &rt,
        move || -> ()
            requires { old.table ≡ words.now }
        { beats_once(words, old, 1, 9) },
        move || -> ()
            requires { new.table ≡ words.now }
        { beats_once(words, new, 2, 0) },
    );
    let (generation, count) = board.pulse(&mut keeper);
    is_told(
        format!(in rt.alloc(); "{generation} {count}")?.as_str(),
        "2 0",
    )
}

/// One seat has seen nothing and another two marks more, and they meet. Both have then seen the longer record.
fn met(alloc: Global) -> Result<(Seat, Seat), AllocError>
    ensures { IfOk result (λ r. (r.0.view.seen ≡ GaveUp ∷ Flush ∷ []) × (r.1.view.seen ≡ GaveUp ∷ Flush ∷ [])) }
{
    let (board, mut keeper) = Board::new(alloc)?;
    let mut early = board.split(&mut keeper, Some(5))?;
    board.note(&mut keeper, &Incoming::Flush);
    board.note(&mut keeper, &Incoming::GaveUp);
    let mut late = board.split(&mut keeper, Some(6))?;
    board.meet(&mut early, &mut late);
    Ok((early, late))
}

/// Two seats publish sectors each, and their editions are compared. Each then knows its own by the number that it was given, and none
/// where it was given none.
fn published(
    alloc: Global,
    sectors: &[[u8; 512]],
    others: &[[u8; 512]],
) -> Result<(Seat, Option<u64>, Seat, Option<u64>), AllocError>
    ensures first { IfOk result (λ r. MatchOption r.1 (r.0.view.edition ≡ None) (λ n. r.0.view.edition ≡ Some (n, sectors.now))) }
    ensures second { IfOk result (λ r. MatchOption r.3 (r.2.view.edition ≡ None) (λ n. r.2.view.edition ≡ Some (n, others.now))) }
{
    let (board, mut keeper) = Board::new(alloc)?;
    let mut other = board.split(&mut keeper, None)?;
    let first = board.publish(&mut keeper, sectors);
    let second = board.publish(&mut other, others);
    board.same_edition(&mut keeper, &mut other);
    Ok((keeper, first, other, second))
}

#[test]
fn editions_have_numbers(rt: HostRuntime) -> Result<(), Fail> {
    let sectors = [[0; 512]];
    let others = [[1; 512], [0; 512]];
    let (_keeper, first, _other, second) = published(rt.alloc(), &sectors, &others)?;
    is_told(
        format!(in rt.alloc(); "{first:?} {second:?}")?.as_str(),
        "Some(0) Some(1)",
    )
}

/// A request of the first sector.
fn request() -> BlockRequest {
    BlockRequest {
        id: 1,
        kind: Kind::Read,
        minor: 0,
        position: 0,
        count: 512,
        bytes: [0; 4096],
    }
}

/// A session from its start to its end: the generation, the tallies, whether the device was given up, and the tallies after that.
fn session(alloc: Global) -> Result<String, AllocError> {
    let (board, mut keeper) = Board::new(alloc)?;
    let mut driver = board.split(&mut keeper, None)?;
    let mut client = board.split(&mut keeper, Some(7))?;
    board.started(&mut driver, 3);
    board.started(&mut driver, 2);
    let current = board.current(&mut client);
    let endpoint = Endpoint {
        slot: 1,
        generation: 3,
    };
    board.note(&mut keeper, &Incoming::Started(endpoint));
    board.issue(&mut keeper, &request(), endpoint);
    let noted = board.tally(&mut driver);
    let who = Who {
        session: 7,
        uid: 0,
        gid: 0,
    };
    board.count(
        &mut keeper,
        &mut client,
        who,
        1000,
        &Call::Sync,
        &Reply::Done,
    );
    let called = board.tally(&mut driver);
    let before = board.device(&mut client);
    board.note(&mut keeper, &Incoming::GaveUp);
    board.give_up(&mut keeper);
    let after = board.device(&mut client);
    let ended = board.tally(&mut client);
    board.spend(&mut keeper, client);
    let mut again = board.split(&mut keeper, Some(7))?;
    let found = board.tally(&mut again);
    format!(in alloc; "{current} {noted} {called} {before:?} {after:?} {ended} {found}")
}

#[test]
fn seats_see_the_record(rt: HostRuntime) -> Result<(), Fail> {
    beats_are_felt(rt.alloc())?;
    let (_early, _late) = met(rt.alloc())?;
    is_told(session(rt.alloc())?.as_str(), "3 1 2 Live GivenUp 3 3")
}
