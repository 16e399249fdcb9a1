//! Work that is measured: calls, made again and again.

use crate::bench_calls::steps::{Row, calls_of};
use bench_layers::timing::{copy, micros_since, tell};
use board::counting::parameters::ServiceParameters;
use board::counting::recorder::Recorder;
use file_server::FileServer;
use serve::service::Shared;
use serve::session::Session;
use std::io;
use std::sync::Wait;
use std::time::Instant;
use tree::{Call, Outcome, Reply};

/// Who makes calls.
pub(crate) trait Caller {
    /// Makes a call; whether it was done.
    fn make(&mut self, call: &Call<'_>) -> bool;
}

impl<N: ServiceParameters, R: Wait + Copy, L: Recorder<N>, S: FileServer<L>> Caller
    for Session<N, Shared<N, R, L, S>> {
    fn make(&mut self, call: &Call<'_>) -> bool {
        !matches!(
            self.call(100, call),
            Outcome::Cut | Outcome::Reply(Reply::Refused(_))
        )
    }
}

/// Makes these calls, one after the other; how many were done.
pub(crate) fn once<C: Caller>(caller: &mut C, calls: &[Call<'_>]) -> u32 {
    let mut done = 0u32;
    for call in calls {
        done = done.wrapping_add(u32::from(caller.make(call)));
    }
    done
}

/// Makes these calls so many times; how many were done.
pub(crate) fn repeat<C: Caller>(caller: &mut C, times: u32, calls: &[Call<'_>]) -> u32 {
    let mut done = 0u32;
    for _ in 0..times {
        done = done.wrapping_add(once(caller, calls));
    }
    done
}

/// Measures these calls, made so many times.
fn measure<C: Caller>(
    rt: &HostRuntime,
    caller: &mut C,
    what: &str,
    times: u32,
    calls: &[Call<'_>],
) -> io::Result<()> {
    let start = Instant::now(rt)?;
    let done = repeat(caller, times, calls);
    tell(rt, what, done, "calls", start)
}

/// Makes the calls of rows, which write from these bytes, and measures those that are to be measured.
pub(crate) fn rows<C: Caller>(
    rt: &HostRuntime,
    caller: &mut C,
    bytes: &[u8],
    rows: &[Row],
) -> io::Result<()> {
    for (measured, steps) in rows {
        let calls = calls_of(rt.alloc(), steps, bytes)?;
        match *measured {
            Some((what, times)) => measure(rt, caller, what, times, &calls)?,
            None => {
                let _ = once(caller, &calls);
            }
        }
    }
    Ok(())
}

/// Measures a plain copy of these bytes, so many times.
pub(crate) fn copies(rt: &HostRuntime, from: &[u8], to: &mut [u8], times: u32) -> io::Result<()> {
    let mut count = 0usize;
    let start = Instant::now(rt)?;
    let mut last = 0u8;
    for _ in 0..times {
        count = copy(from, to);
        last ^= to.last().copied().unwrap_or(0);
    }
    let micros = micros_since(rt, start)?;
    eprintln!(*rt;
        "a plain copy of {count} bytes: {times} times in {micros} microseconds, last {last}"
    )
}
