//! Standard output that is refused at each call of its writer in turn.

use crate::plays::{CLEAN, MADE, WANTED, play_script, run_schedule};
use fixtures::new_volume;
use std::alloc::{AllocError, Global};
use std::io::{self, ErrorKind, Write};
use std::sync::Wait;
use std::test::Fail;
use std::thread::Threads;
use std::time::Clock;
use volume_commands::make::make;
use volume_commands::verify::verify;

/// A writer that takes up to so many bytes at each of some calls, and is refused at the next, or interrupted.
#[derive(Drop)]
struct Failing {
    calls: u32,
    most: usize,
    kind: ErrorKind,
    taken: Vec<u8>,
}

impl Write for Failing {
    fn write(&mut self, bytes: &[u8]) -> io::Result<usize> {
        if self.calls == 0 {
            return Err(io::Error::from(self.kind));
        }
        self.calls -= 1;
        let count = bytes.len().min(self.most);
        self.taken.extend_from_slice(&bytes[..count])?;
        Ok(count)
    }

    fn flush(&mut self) -> io::Result<()> {
        Ok(())
    }
}

/// A script, and what is written of it.
const SCRIPT: &str = "user 0 0\n100 stat /\n100 open / r 0\n100 readdir 0\n";

const ANSWERS: &[u8] =
    b"session 0\ninode 1 mode 0040755 links 2 uid 0 gid 0 size 128 times 50 50 50\nfd 0\nnames 0\n";

/// A short script, and what is written of it: each play is a service of its own.
const SYNC: &str = "user 0 0\n100 sync\n";

const OK: &[u8] = b"session 0\nok\n";

/// A schedule, and its transcript.
const SCHEDULE: &str = "call 0 0 0 100 stat /\n";

const TRANSCRIPT: &[u8] = b"started 1.1\nissue 1 read 4096 1024 to 1.1\nunanswered 1\n";

/// What a function of a program writes.
#[derive(Clone, Copy)]
enum Text {
    /// A new volume is made.
    Made,
    /// The volume in an image is checked.
    Verified,
    /// A script is played on it.
    Played(&'static str),
    /// The schedule is run on it.
    Run,
}

/// Writes it, of the volume in this image: the status of the process.
fn write<R: Threads + Wait + Clock + Copy + Send + Sync + 'static>(
    alloc: Global,
    rt: R,
    text: Text,
    image: &[u8],
    out: &mut Failing,
    err: &mut Vec<u8>,
) -> Result<u8, AllocError> {
    match text {
        Text::Made => Ok(make(alloc, &WANTED, out, err).status.number()),
        Text::Verified => Ok(verify(alloc, "v.img", Some(image), 0, out, err).number()),
        Text::Played(script) => Ok(play_script(alloc, rt, image, script, out, err)?.0),
        Text::Run => run_schedule(alloc, image, SCHEDULE, out, err),
    }
}

/// How many calls a writer takes, at most.
const MOST: u32 = 1000;

/// Whether a text went out, up to where its writer was refused, which it says. Whether it was refused.
fn is_cut(status: u8, whole: &[u8], out: &Failing, err: &[u8]) -> Result<bool, Fail> {
    let is_whole = status == 0 && err.is_empty() && out.taken.as_slice() == whole;
    let is_cut = status == 1
        && err == b"cannot write standard output\n".as_slice()
        && out.calls == 0
        && whole.starts_with(out.taken.as_slice());
    if is_whole || is_cut {
        return Ok(is_cut);
    }
    Err(Fail::new(format_args!("status {status} after {} bytes", out.taken.len())))
}

/// A text goes out up to its writer's first call, its second and so on, which takes so many bytes, until none is refused.
fn at_each_call<R: Threads + Wait + Clock + Copy + Send + Sync + 'static>(
    alloc: Global,
    rt: R,
    text: Text,
    whole: &[u8],
    most: usize,
    kind: ErrorKind,
) -> Result<(), Fail> {
    let image = new_volume(alloc, 1024)?;
    for calls in 0..MOST {
        let mut out = Failing {
            calls,
            most,
            kind,
            taken: Vec::new(alloc),
        };
        let mut err = Vec::new(alloc);
        let status = write(alloc, rt, text, &image, &mut out, &mut err)?;
        if !is_cut(status, whole, &out, &err)? {
            return Ok(());
        }
    }
    Err(Fail::from("no end"))
}

/// The same for writers that take as many bytes, and are refused or interrupted.
fn over_both<R: Threads + Wait + Clock + Copy + Send + Sync + 'static>(
    alloc: Global,
    rt: R,
    text: Text,
    whole: &[u8],
    most: usize,
) -> Result<(), Fail> {
    at_each_call(alloc, rt, text, whole, most, ErrorKind::WriteZero)?;
    at_each_call(alloc, rt, text, whole, most, ErrorKind::Interrupted)
}

/// The same for writers that take all that they are handed, or one byte.
fn over_each<R: Threads + Wait + Clock + Copy + Send + Sync + 'static>(
    alloc: Global,
    rt: R,
    text: Text,
    whole: &[u8],
) -> Result<(), Fail> {
    over_both(alloc, rt, text, whole, usize::MAX)?;
    over_both(alloc, rt, text, whole, 1)
}

#[test]
fn output_at_each_call(rt: HostRuntime) -> Result<(), Fail> {
    let alloc = rt.alloc();
    over_each(alloc, rt, Text::Made, MADE)?;
    over_each(alloc, rt, Text::Verified, CLEAN)?;
    over_both(alloc, rt, Text::Played(SCRIPT), ANSWERS, usize::MAX)?;
    over_both(alloc, rt, Text::Played(SYNC), OK, 1)?;
    over_each(alloc, rt, Text::Run, TRANSCRIPT)
}
