//! Scripts, line by line.
use call_text::scripts::reading::{ScriptRefusal, read_script};
use call_text::scripts::timed::TimedCall;
use std::alloc::Global;
use std::test::Fail;
use tree::{Call, PathFrom, Start};

/// The path of most calls.
const PATH: PathFrom<'static> = PathFrom {
    start: Start::Root,
    bytes: b"/f",
};

/// The root, and a name that is a byte of none.
const TOP: PathFrom<'static> = PathFrom {
    start: Start::Root,
    bytes: b"/",
};

const RETURN: PathFrom<'static> = PathFrom {
    start: Start::Root,
    bytes: b"/\r",
};

/// The paths of a rename.
const OLD: PathFrom<'static> = PathFrom {
    start: Start::Root,
    bytes: b"/d/e",
};

const NEW: PathFrom<'static> = PathFrom {
    start: Start::Root,
    bytes: b"/g",
};

/// A time, and the call at it.
type Timed = (u32, Call<'static>);

/// Scripts, the user and group of each, and its calls.
static SCRIPTS: [(&[u8], (u16, u16), &[Timed]); 8] = [
    (b"user 0 0\n", (0, 0), &[]),
    // A path holds any bytes but a space and a newline.
    (
        b"user 0 0\n1 stat /\r\n",
        (0, 0),
        &[(1, Call::Stat { path: RETURN })],
    ),
    (
        b"user 0 0\n100 stat /f\n",
        (0, 0),
        &[(100, Call::Stat { path: PATH })],
    ),
    (
        b"user 65535 007\n4294967295 rename /d/e /g\n0 sync\n",
        (65535, 7),
        &[
            (4294967295, Call::Rename { old: OLD, new: NEW }),
            (0, Call::Sync),
        ],
    ),
    (
        b"user 5 7\n1 close 0\n1 dup 3\n",
        (5, 7),
        &[(1, Call::Close { fd: 0 }), (1, Call::Dup { fd: 3 })],
    ),
    (
        b"user 9 8\n100 mkdir /f 755\n007 readdir 31\n",
        (9, 8),
        &[
            (
                100,
                Call::Mkdir {
                    path: PATH,
                    mode: 0o755,
                },
            ),
            (7, Call::Readdir { fd: 31 }),
        ],
    ),
    (
        b"user 0 1\n50 statfs\n50 read 0 131072\n",
        (0, 1),
        &[
            (50, Call::Statfs),
            (
                50,
                Call::Read {
                    fd: 0,
                    count: 131072,
                },
            ),
        ],
    ),
    // The bytes of each write are its own.
    (
        b"user 0 0\n1 fill 0 3 61\n2 stat /\n3 write 0 6263\n4 write 1 -\n5 fill 0 0 ff\n6 write 2 00ff\n",
        (0, 0),
        &[
            (
                1,
                Call::Write {
                    fd: 0,
                    bytes: b"aaa",
                },
            ),
            (2, Call::Stat { path: TOP }),
            (
                3,
                Call::Write {
                    fd: 0,
                    bytes: b"bc",
                },
            ),
            (4, Call::Write { fd: 1, bytes: b"" }),
            (5, Call::Write { fd: 0, bytes: b"" }),
            (
                6,
                Call::Write {
                    fd: 2,
                    bytes: b"\x00\xff",
                },
            ),
        ],
    ),
];

/// Texts, and the first bad line of each; 0 where it is read. The user's is line 1, and each line ends with a newline.
static BAD_LINES: [(&[u8], u64); 39] = [
    (b"user 0 0\n100 stat /\n", 0),
    (b"user 0 0\n", 0),
    (b"", 1),
    (b"\n", 1),
    (b"user 0 0", 1),
    (b"user 0\n", 1),
    (b"user 0 0 0\n", 1),
    (b"User 0 0\n", 1),
    (b"user  0 0\n", 1),
    (b"user 0 0 \n", 1),
    (b"user 65536 0\n", 1),
    (b"user 1 65536\n", 1),
    (b"user 1 -1\n", 1),
    (b"user 0 0\r\n100 stat /\n", 1),
    (b"100 stat /\n", 1),
    (b"# a remark\nuser 0 0\n", 1),
    (b"user 0 0\n100 stat\n", 2),
    (b"user 0 0\n\n100 stat /\n", 2),
    (b"user 0 0\n100 stat /\n100 stat /", 3),
    (b"user 0 0\n100 stat /\n100 read /\n\n", 3),
    (b"user 0 0\n100 stat /\nuser 0 0\n", 3),
    // lines of calls that are none
    (b"user 0 0\n4294967296 stat /\n", 2),
    (b"user 0 0\n+1 stat /\n", 2),
    (b"user 0 0\n-1 stat /\n", 2),
    (b"user 0 0\nstat /\n", 2),
    (b"user 0 0\n100\n", 2),
    (b"user 0 0\n100 \n", 2),
    (b"user 0 0\n 100 stat /\n", 2),
    (b"user 0 0\n100  stat /\n", 2),
    (b"user 0 0\n100 stat  /\n", 2),
    (b"user 0 0\n100 stat \n", 2),
    (b"user 0 0\n100 stat / \n", 2),
    (b"user 0 0\n100 sync\r\n", 2),
    (b"user 0 0\n100 stat / # a remark\n", 2),
    (b"user 0 0\n100 fill 0 131073 00\n", 2),
    (b"user 0 0\n100 write 0\n", 2),
    (b"user 0 0\n100 write 0 6\n", 2),
    (b"user 0 0\n100 flush\n", 2),
    (b"user 0 0\n100 call 0 0 0 100 stat /\n", 2),
];

/// Whether these are the calls, at their times.
fn are_same(read: &[TimedCall<'_>], calls: &[Timed]) -> bool {
    for (read, call) in read.iter().zip(calls) {
        if (read.time, read.call) != *call {
            return false;
        }
    }
    read.len() == calls.len()
}

/// Whether a text is read as a script of this user and group with these calls.
fn is_read(alloc: Global, text: &[u8], user: (u16, u16), calls: &[Timed]) -> Result<bool, Fail> {
    let script = read_script(alloc, text)?;
    let read = script.calls(alloc)?;
    Ok((script.uid, script.gid) == user && are_same(read.as_slice(), calls))
}

/// The first bad line of a text; 0 where it is read, or no memory was found.
fn bad_line(alloc: Global, text: &[u8]) -> u64 {
    match read_script(alloc, text) {
        Ok(_) | Err(ScriptRefusal::OutOfMemory) => 0,
        Err(ScriptRefusal::BadLine(number)) => number,
    }
}

/// The first of the rows whose text isn't read as its calls.
fn misread(alloc: Global, rows: &[(&[u8], (u16, u16), &[Timed])]) -> Result<Option<usize>, Fail> {
    for (number, (text, user, calls)) in rows.iter().enumerate() {
        if !is_read(alloc, text, *user, calls)? {
            return Ok(Some(number));
        }
    }
    Ok(None)
}

/// The first of the rows of whose text another line is the first bad one.
fn misplaced(alloc: Global, rows: &[(&[u8], u64)]) -> Option<usize> {
    for (number, (text, line)) in rows.iter().enumerate() {
        if bad_line(alloc, text) != *line {
            return Some(number);
        }
    }
    None
}

/// No row of a table is a wrong one.
#[test]
fn lines_are_calls_or_bad(rt: HostRuntime) -> Result<(), Fail> {
    let misread = misread(rt.alloc(), &SCRIPTS)?;
    let misplaced = misplaced(rt.alloc(), &BAD_LINES);
    assert_eq!(rt; (misread, misplaced), (None, None));
    Ok(())
}
