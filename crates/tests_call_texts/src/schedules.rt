//! Schedules, line by line.
use schedule::Event;
use schedule_text::reading::{ScheduleRefusal, read_schedule};
use std::alloc::Global;
use std::test::Fail;
use tree::{Call, PathFrom, Start, Who};

/// Whether two events are one.
fn is_same(read: &Event<'_>, event: &Event<'_>) -> bool {
    match (read, event) {
        (Event::Arrive(a, b, c), Event::Arrive(d, e, f)) => a == d && b == e && c == f,
        (Event::Flush, Event::Flush) | (Event::Tick, Event::Tick) => true,
        (Event::Step(a), Event::Step(b)) => a == b,
        (Event::Die(a, c), Event::Die(b, d)) => a == b && c == d,
        (Event::Hang(a), Event::Hang(b)) => a == b,
        (Event::Deliver(a), Event::Deliver(b)) => a == b,
        (Event::Repeat(a), Event::Repeat(b)) => a == b,
        _ => false,
    }
}

/// Whether two lists of events are one.
fn are_same(read: &[Event<'_>], events: &[Event<'_>]) -> bool {
    for (read, event) in read.iter().zip(events) {
        if !is_same(read, event) {
            return false;
        }
    }
    read.len() == events.len()
}

/// Who calls.
const WHO: Who = Who {
    session: 255,
    uid: 65535,
    gid: 7,
};

/// User 0.
const ROOT: Who = Who {
    session: 0,
    uid: 0,
    gid: 0,
};

/// The path of a call.
const TOP: PathFrom<'static> = PathFrom {
    start: Start::Root,
    bytes: b"/",
};

/// Schedules, and the events of their lines.
static SCHEDULES: [(&[u8], &[Event<'static>]); 15] = [
    // each kind of line
    (b"flush\n", &[Event::Flush]),
    (b"tick\n", &[Event::Tick]),
    (b"step 1\n", &[Event::Step(1)]),
    (b"step 4294967295\n", &[Event::Step(4294967295)]),
    (b"die 1\n", &[Event::Die(1, None)]),
    (b"die 1 ee\n", &[Event::Die(1, Some([0xee; 512]))]),
    (b"hang 2\n", &[Event::Hang(2)]),
    (b"deliver 0\n", &[Event::Deliver(0)]),
    (b"repeat 00\n", &[Event::Repeat(0)]),
    // calls that arrive, also with bytes that are decoded
    (
        b"call 255 65535 7 100 stat /\n",
        &[Event::Arrive(WHO, 100, Call::Stat { path: TOP })],
    ),
    (
        b"call 255 65535 7 100 write 0 00ff1a\n",
        &[Event::Arrive(
            WHO,
            100,
            Call::Write {
                fd: 0,
                bytes: b"\x00\xff\x1a",
            },
        )],
    ),
    (
        b"call 255 65535 7 100 write 0 -\n",
        &[Event::Arrive(WHO, 100, Call::Write { fd: 0, bytes: b"" })],
    ),
    (
        b"call 255 65535 7 100 fill 3 2 61\n",
        &[Event::Arrive(
            WHO,
            100,
            Call::Write {
                fd: 3,
                bytes: b"aa",
            },
        )],
    ),
    (
        b"call 255 65535 7 100 fill 3 0 61\n",
        &[Event::Arrive(WHO, 100, Call::Write { fd: 3, bytes: b"" })],
    ),
    // the bytes of each call are its own
    (
        b"call 0 0 0 1 fill 0 3 61\ntick\ncall 0 0 0 1 write 0 6263\ncall 0 0 0 1 sync\ncall 0 0 0 1 write 1 64\n",
        &[
            Event::Arrive(
                ROOT,
                1,
                Call::Write {
                    fd: 0,
                    bytes: b"aaa",
                },
            ),
            Event::Tick,
            Event::Arrive(
                ROOT,
                1,
                Call::Write {
                    fd: 0,
                    bytes: b"bc",
                },
            ),
            Event::Arrive(ROOT, 1, Call::Sync),
            Event::Arrive(ROOT, 1, Call::Write { fd: 1, bytes: b"d" }),
        ],
    ),
];

/// A schedule of a death: seven events.
const DEATH: &[u8] = b"call 0 0 0 100 stat /\nstep 1\ndie 1\ntick\nstep 2\nstep 2\ndeliver 0\n";

/// Texts, and the first bad line of each; 0 where it is read.
static BAD_LINES: [(&[u8], u64); 46] = [
    (b"", 0),
    (b"\n", 1),
    (b"tick", 1),
    (b"tick\n\n", 2),
    (b"tick\n\ntick\n", 2),
    (b"tick\nstep 1", 2),
    (b"tick\ntock\nstep\n", 2),
    (b"# a remark\ntick\n", 1),
    (b"tick # a remark\n", 1),
    (b"tick\r\n", 1),
    // lines that are none: words too few or too many, two spaces, numbers out of their ranges, torn bytes of no two digits
    (b"flush 1\n", 1),
    (b"Tick\n", 1),
    (b"tick \n", 1),
    (b" tick\n", 1),
    (b"step\n", 1),
    (b"step \n", 1),
    (b"step  1\n", 1),
    (b"step 1 1\n", 1),
    (b"step -1\n", 1),
    (b"step 0x1\n", 1),
    (b"step 4294967296\n", 1),
    (b"die\n", 1),
    (b"die 1 e\n", 1),
    (b"die 1 eee\n", 1),
    (b"die 1 EE\n", 1),
    (b"die 1 eg\n", 1),
    (b"die 1 ee ee\n", 1),
    (b"die 4294967296 ee\n", 1),
    (b"hang 1 2\n", 1),
    (b"hang a\n", 1),
    (b"deliver 4294967296\n", 1),
    (b"deliver\n", 1),
    (b"repeat 1 ee\n", 1),
    (b"repeat 4294967296\n", 1),
    (b"call\n", 1),
    (b"call 0 0 0 100\n", 1),
    (b"call 0 0 0 stat /\n", 1),
    (b"call 256 0 0 100 stat /\n", 1),
    (b"call 0 65536 0 100 stat /\n", 1),
    (b"call 0 0 65536 100 stat /\n", 1),
    (b"call 0 0 0 4294967296 stat /\n", 1),
    (b"call 0 0 0 100 stat / /\n", 1),
    (b"call 0 0 0 100 fill 0 131073 00\n", 1),
    (b"call 0 0 0 100 fill 0 1 0\n", 1),
    (b"100 stat /\n", 1),
    (b"user 0 0\n", 1),
];

/// How many events a text is.
fn count(alloc: Global, text: &[u8]) -> Result<usize, Fail> {
    let schedule = read_schedule(alloc, text)?;
    let events = schedule.events(alloc)?;
    Ok(events.len())
}

/// Whether a text is read as a schedule of these events.
fn is_read(alloc: Global, text: &[u8], events: &[Event<'_>]) -> Result<bool, Fail> {
    let schedule = read_schedule(alloc, text)?;
    let read = schedule.events(alloc)?;
    Ok(are_same(read.as_slice(), events))
}

/// The first bad line of a text; 0 where it is read, or no memory was found.
fn bad_line(alloc: Global, text: &[u8]) -> u64 {
    match read_schedule(alloc, text) {
        Ok(_) | Err(ScheduleRefusal::OutOfMemory) => 0,
        Err(ScheduleRefusal::BadLine(number)) => number,
    }
}

/// The first of the rows whose text isn't read as its events.
fn misread(alloc: Global, rows: &[(&[u8], &[Event<'_>])]) -> Result<Option<usize>, Fail> {
    for (number, (text, events)) in rows.iter().enumerate() {
        if !is_read(alloc, text, events)? {
            return Ok(Some(number));
        }
    }
    Ok(None)
}

/// The first of the rows of whose text another line is the first bad one.
fn misplaced(alloc: Global, rows: &[(&[u8], u64)]) -> Option<usize> {
    for (number, (text, line)) in rows.iter().enumerate() {
        if bad_line(alloc, text) != *line {
            return Some(number);
        }
    }
    None
}

/// No row of a table is a wrong one, and the schedule of a death has seven events.
#[test]
fn lines_are_events_or_bad(rt: HostRuntime) -> Result<(), Fail> {
    let wrong = misread(rt.alloc(), &SCHEDULES)?;
    let events = count(rt.alloc(), DEATH)?;
    let misplaced = misplaced(rt.alloc(), &BAD_LINES);
    assert_eq!(rt; (wrong, events, misplaced), (None, 7, None));
    Ok(())
}
