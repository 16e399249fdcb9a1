//! Calls by their words.
use bitflags::Flags;
use call_text::call::read_call;
use call_text::written_call::call::WrittenCall;
use tree::{Call, OpenFlags, PathFrom, Start, Whence};

/// The path of most calls.
const PATH: PathFrom<'static> = PathFrom {
    start: Start::Root,
    bytes: b"/f",
};

/// The paths of calls that have two.
const OLD: PathFrom<'static> = PathFrom {
    start: Start::Root,
    bytes: b"/d/e",
};

const NEW: PathFrom<'static> = PathFrom {
    start: Start::Root,
    bytes: b"/g",
};

/// The greatest descriptor.
const LAST: u32 = 4294967295;

/// Words, and the call that they are.
static CALLS: [(&[u8], Call<'static>); 28] = [
    // descriptors, paths and numbers
    (b"close 0", Call::Close { fd: 0 }),
    (b"dup 31", Call::Dup { fd: 31 }),
    (b"fstat 007", Call::Fstat { fd: 7 }),
    (b"readdir 4294967295", Call::Readdir { fd: LAST }),
    (b"stat /f", Call::Stat { path: PATH }),
    (b"unlink /f", Call::Unlink { path: PATH }),
    (b"rmdir /f", Call::Rmdir { path: PATH }),
    (
        b"read 4294967295 131072",
        Call::Read {
            fd: LAST,
            count: 131072,
        },
    ),
    (b"link /d/e /g", Call::Link { old: OLD, new: NEW }),
    (b"rename /d/e /g", Call::Rename { old: OLD, new: NEW }),
    (b"readlink /f", Call::Readlink { path: PATH }),
    (b"lstat /f", Call::Lstat { path: PATH }),
    // a target is any bytes of a word, as a path is
    (
        b"symlink ../d\r /f",
        Call::Symlink {
            target: b"../d\r",
            path: PATH,
        },
    ),
    (
        b"symlink - /f",
        Call::Symlink {
            target: b"-",
            path: PATH,
        },
    ),
    (
        b"mkdir /f 755",
        Call::Mkdir {
            path: PATH,
            mode: 0o755,
        },
    ),
    (
        b"chmod /f 177777",
        Call::Chmod {
            path: PATH,
            mode: 65535,
        },
    ),
    (
        b"truncate /f 0",
        Call::Truncate {
            path: PATH,
            size: 0,
        },
    ),
    (b"sync", Call::Sync),
    (b"statfs", Call::Statfs),
    // three words
    (
        b"seek 9 set 0",
        Call::Seek {
            fd: 9,
            whence: Whence::Set,
            offset: 0,
        },
    ),
    (
        b"seek 9 cur 0",
        Call::Seek {
            fd: 9,
            whence: Whence::Cur,
            offset: 0,
        },
    ),
    (
        b"seek 9 end 0",
        Call::Seek {
            fd: 9,
            whence: Whence::End,
            offset: 0,
        },
    ),
    (
        b"chown /f 65535 0",
        Call::Chown {
            path: PATH,
            uid: 65535,
            gid: 0,
        },
    ),
    (
        b"utime /f 0 4294967295",
        Call::Utime {
            path: PATH,
            atime: 0,
            mtime: 4294967295,
        },
    ),
    // offsets: 64 bits with a sign, and `-` before a negative one alone
    (
        b"seek 0 cur 67378176",
        Call::Seek {
            fd: 0,
            whence: Whence::Cur,
            offset: 67378176,
        },
    ),
    (
        b"seek 0 cur -1",
        Call::Seek {
            fd: 0,
            whence: Whence::Cur,
            offset: -1,
        },
    ),
    (
        b"seek 0 cur 9223372036854775807",
        Call::Seek {
            fd: 0,
            whence: Whence::Cur,
            offset: 9223372036854775807,
        },
    ),
    (
        b"seek 0 cur -9223372036854775808",
        Call::Seek {
            fd: 0,
            whence: Whence::Cur,
            offset: -9223372036854775808,
        },
    ),
];

/// Flags by their letters, each at most once and in any order: words of an open of `/` with mode 644, and the bits of its flags.
static FLAGS: [(&[u8], u8); 6] = [
    (b"open / - 644", 0),
    (b"open / r 644", 1),
    (b"open / rwc 644", 11),
    (b"open / cwr 644", 11),
    (b"open / rwacxt 644", 63),
    (b"open / t 644", 32),
];

/// Words that are no call.
static REFUSED: [&[u8]; 56] = [
    // offsets
    b"seek 0 cur 9223372036854775808",
    b"seek 0 cur -9223372036854775809",
    b"seek 0 cur -0",
    b"seek 0 cur -",
    b"seek 0 cur +1",
    b"seek 0 Cur 1",
    // flags
    b"open / rr 644",
    b"open / rz 644",
    b"open / R 644",
    b"open / r- 644",
    b"open / -- 644",
    b"open /  644",
    // a name that is none, words too few or too many, two spaces, numbers out of their ranges, digits of none
    b"",
    b"statt /",
    b"Stat /",
    b"stat",
    b"stat ",
    b"stat / /",
    b"stat  /",
    b" stat /",
    b"sync ",
    b"sync 1",
    b"close 4294967296",
    b"close -1",
    b"close",
    b"read 0 131073",
    b"read 0",
    b"mkdir /d 200000",
    b"mkdir /d 8",
    b"mkdir /d",
    b"chown / 65536 0",
    b"chown / 0 65536",
    b"link  /a",
    b"link /a ",
    b"symlink  /a",
    b"symlink a ",
    b"symlink /a",
    b"symlink a /b /c",
    b"readlink",
    b"readlink ",
    b"readlink /a /b",
    b"lstat",
    b"lstats /a",
    b"truncate / 4294967296",
    b"utime / 0 0 0",
    b"write 0 0",
    b"write 0 AA",
    b"write 0 0g",
    b"write 0 ",
    b"write 0 --",
    b"write 0",
    b"fill 0 131073 00",
    b"fill 0 1 0",
    b"fill 0 1 000",
    b"fill 0 1 FF",
    b"fill 0 1 -",
];

/// Whether words are read as this call, whose bytes needn't be decoded.
fn is_read(words: &[u8], call: &Call<'_>) -> bool {
    match read_call(words) {
        Some(WrittenCall::Whole(read)) => read == *call,
        _ => false,
    }
}

/// The first of the rows whose words aren't read as its call.
fn misread(rows: &[(&[u8], Call<'_>)]) -> Option<usize> {
    for (number, (words, call)) in rows.iter().enumerate() {
        if !is_read(words, call) {
            return Some(number);
        }
    }
    None
}

/// The first of the rows whose words aren't read as an open with its flags.
fn misopened(rows: &[(&[u8], u8)]) -> Option<usize> {
    for (number, (words, bits)) in rows.iter().enumerate() {
        let open = Call::Open {
            path: PathFrom::root(b"/"),
            flags: OpenFlags::from_bits_retain(*bits),
            mode: 0o644,
        };
        if !is_read(words, &open) {
            return Some(number);
        }
    }
    None
}

/// The first of these words that are read as a call.
fn taken(rows: &[&[u8]]) -> Option<usize> {
    for (number, words) in rows.iter().enumerate() {
        if read_call(words).is_some() {
            return Some(number);
        }
    }
    None
}

/// No row of a table is a wrong one.
#[test]
fn words_are_calls_or_none(rt: HostRuntime) {
    let wrong = (misread(&CALLS), misopened(&FLAGS), taken(&REFUSED));
    assert_eq!(rt; wrong, (None, None, None));
}
