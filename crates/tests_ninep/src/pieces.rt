//! Messages that come in pieces, are cut short, or whose answers can't be written.

use crate::streams::{
    Fixed, Held, Idle, Interrupted, Narrow, Piecemeal, Shut, Silent, Standing, Timed,
};
use message_stream::answering::{StreamRefusal, answer_all};
use message_stream::framing::InputRefusal;
use ninep_server::connection::Connection;
use std::alloc::Global;
use std::io::BufReader;
use std::test::Fail;

/// A version, and its answer; they differ in the type.
const ASKED: &[u8] = b"\x15\0\0\0\x64\xff\xff\0\0\x01\0\x08\09P2000.L";

const TOLD: &[u8] = b"\x15\0\0\0\x65\xff\xff\0\0\x01\0\x08\09P2000.L";

/// How the messages of these bytes are answered, which come in pieces of so many, where so many bytes of answers are taken: how it ends,
/// and what went out.
fn ends(
    alloc: Global,
    bytes: &[u8],
    piece: usize,
    room: usize,
) -> Result<(Result<(), StreamRefusal>, Vec<u8>), Fail> {
    let mut input = BufReader::with_capacity(alloc, 16, Piecemeal { bytes, piece })?;
    let mut output = Narrow::new(alloc, room);
    let mut answerer = Connection::new(alloc);
    let ended = answer_all(
        alloc,
        &mut input,
        &mut output,
        &Fixed,
        &mut Idle,
        &mut answerer,
    );
    Ok((ended, output.taken))
}

/// It is an error, with the name of the row, where messages are answered otherwise.
fn is_answered(
    alloc: Global,
    what: &'static str,
    bytes: &[u8],
    piece: usize,
    room: usize,
    wanted: (Result<(), StreamRefusal>, &[u8]),
) -> Result<(), Fail> {
    let (ended, taken) = ends(alloc, bytes, piece, room)?;
    if ended == wanted.0 && taken.as_slice() == wanted.1 {
        return Ok(());
    }
    Err(Fail::from(what))
}

/// Two messages are answered, in pieces of any size; without one nothing is.
#[test]
fn messages_are_answered(rt: HostRuntime) -> Result<(), Fail> {
    let alloc = rt.alloc();
    let (mut two, mut told) = (ASKED.to_vec(alloc)?, TOLD.to_vec(alloc)?);
    two.extend_from_slice(ASKED)?;
    told.extend_from_slice(TOLD)?;
    for piece in [1, 3, 21, 64] {
        let piece: usize = piece;
        is_answered(alloc, "two", &two, piece, 1000, (Ok(()), told.as_slice()))?;
    }
    is_answered(alloc, "none", b"", 1, 1000, (Ok(()), b""))
}

/// A stream that ends within a message, after each of its bytes; what came before is answered.
#[test]
fn streams_are_cut_short(rt: HostRuntime) -> Result<(), Fail> {
    let alloc = rt.alloc();
    let cut = Err(StreamRefusal::Input(InputRefusal::CutShort));
    for most in 1..21 {
        let most: usize = most;
        is_answered(alloc, "first", &ASKED[..most], 5, 1000, (cut, b""))?;
        let mut bytes = ASKED.to_vec(alloc)?;
        bytes.extend_from_slice(&ASKED[..most])?;
        is_answered(alloc, "second", &bytes, 5, 1000, (cut, TOLD))?;
    }
    Ok(())
}

/// Sizes below 7, and above the most that is taken: 65560 at first, what was settled from a version on.
#[test]
fn sizes_are_refused(rt: HostRuntime) -> Result<(), Fail> {
    let alloc = rt.alloc();
    let bad = |size: u32| Err(StreamRefusal::Input(InputRefusal::BadSize(size)));
    is_answered(alloc, "six", b"\x06\0\0\0\x64\xff", 9, 1000, (bad(6), b""))?;
    is_answered(
        alloc,
        "large",
        b"\x19\0\x01\0\x64",
        9,
        1000,
        (bad(65561), b""),
    )?;
    let mut bytes = b"\x15\0\0\0\x64\xff\xff\0\x10\0\0\x08\09P2000.L".to_vec(alloc)?;
    bytes.extend_from_slice(b"\x01\x10\0\0\x64")?;
    let told = b"\x15\0\0\0\x65\xff\xff\0\x10\0\0\x08\09P2000.L";
    is_answered(alloc, "settled", &bytes, 9, 1000, (bad(4097), told))
}

/// Answers that are refused after each of their bytes: a beginning went out.
#[test]
fn answers_are_refused(rt: HostRuntime) -> Result<(), Fail> {
    for room in 0..21 {
        let room: usize = room;
        let wanted = (Err(StreamRefusal::NotWritten), &TOLD[..room]);
        is_answered(rt.alloc(), "refused", ASKED, 64, room, wanted)?;
    }
    is_answered(rt.alloc(), "taken", ASKED, 64, 21, (Ok(()), TOLD))
}

/// It is an error where the one message wasn't answered, or another answer came out.
fn is_whole(ended: Result<(), StreamRefusal>, told: &[u8]) -> Result<(), Fail> {
    if ended == Ok(()) && told == TOLD {
        return Ok(());
    }
    Err(Fail::new(format_args!("{ended:?}: {told:?}")))
}

/// A message is answered though reads are interrupted, at each of its bytes.
#[test]
fn reads_are_interrupted(rt: HostRuntime) -> Result<(), Fail> {
    let alloc = rt.alloc();
    let rest = Piecemeal {
        bytes: ASKED,
        piece: 1,
    };
    let interrupted = Interrupted {
        rest,
        is_late: false,
    };
    let mut input = BufReader::with_capacity(alloc, 16, interrupted)?;
    let mut output = Narrow::new(alloc, 1000);
    let mut answerer = Connection::new(alloc);
    let ended = answer_all(
        alloc,
        &mut input,
        &mut output,
        &Fixed,
        &mut Idle,
        &mut answerer,
    );
    is_whole(ended, output.taken.as_slice())
}

/// An answer is flushed.
#[test]
fn answers_are_flushed(rt: HostRuntime) -> Result<(), Fail> {
    let alloc = rt.alloc();
    let mut input = ASKED;
    let mut output = Held::new(alloc);
    let mut answerer = Connection::new(alloc);
    let ended = answer_all(
        alloc,
        &mut input,
        &mut output,
        &Fixed,
        &mut Idle,
        &mut answerer,
    );
    is_whole(ended, output.flushed.as_slice())
}

/// What a clock tells, and the time of a call then: before and behind the middle of what 32 bits count, and at and behind its end.
const TIMES: [(Option<u64>, u32); 6] = [
    (Some(0), 0),
    (Some(0x7fff_ffff), 0x7fff_ffff),
    (Some(0x8000_0000), 0x8000_0000),
    (Some(0xffff_ffff), 0xffff_ffff),
    (Some(0x1_0000_0000), 0xffff_ffff),
    (None, 0),
];

/// A version, and user 0 attaches, for whom the root is looked at.
const ATTACHED: &[u8] = b"\x15\0\0\0\x64\xff\xff\0\0\x01\0\x08\09P2000.L\
      \x17\0\0\0\x68\x01\0\0\0\0\0\xff\xff\xff\xff\0\0\0\0\0\0\0\0";

#[test]
fn calls_have_the_time_of_the_clock(rt: HostRuntime) -> Result<(), Fail> {
    let alloc = rt.alloc();
    for (told, now) in &TIMES {
        let mut input = ATTACHED;
        let mut output = Narrow::new(alloc, 1000);
        let mut sessions = Timed { now: None };
        let ended = answer_all(
            alloc,
            &mut input,
            &mut output,
            &Standing(*told),
            &mut sessions,
            &mut Connection::new(alloc),
        );
        if ended != Ok(()) || sessions.now != Some(*now) {
            return Err(Fail::new(format_args!("{told:?}")));
        }
    }
    Ok(())
}

/// Messages of two sizes that have no answer, to a stream that takes none; and ones of a size that this answerer doesn't take.
#[test]
fn messages_have_no_answer(rt: HostRuntime) -> Result<(), Fail> {
    let alloc = rt.alloc();
    let bad = |size: u32| Err(StreamRefusal::Input(InputRefusal::BadSize(size)));
    let rows: [(&[u8], Result<(), StreamRefusal>, u32); 4] = [
        (b"\x05\0\0\0a\x09\0\0\0abcde", Ok(()), 2),
        (b"", Ok(()), 0),
        (b"\x05\0\0\0a\x04\0\0\0", bad(4), 1),
        (b"\x0a\0\0\0abcdef", bad(10), 0),
    ];
    for (bytes, wanted, count) in &rows {
        let mut input = *bytes;
        let mut answerer = Silent { count: 0 };
        let ended = answer_all(
            alloc,
            &mut input,
            &mut Shut,
            &Fixed,
            &mut Idle,
            &mut answerer,
        );
        if ended != *wanted || answerer.count != *count {
            return Err(Fail::new(format_args!("{bytes:?}: {ended:?}")));
        }
    }
    Ok(())
}
