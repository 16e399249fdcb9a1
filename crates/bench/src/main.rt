//! Measures how long work takes: the words of the command line say which. What it measured goes to standard error.
#![tactic(auto)]

mod words;

use host::command_line::line_of;
use std::io;
use std::process::ExitCode;
use words::{Work, named};

fn main(rt: HostRuntime) -> io::Result<ExitCode> {
    let Some(line) = line_of(&rt)? else {
        return Ok(ExitCode::from(2));
    };
    let words = line.as_slice().get(1..).unwrap_or(&[]);
    let Some(named) = named(rt.alloc(), words)? else {
        eprintln!(rt;
            "usage: bench [drivers|volumes|migrate|names|paths|maps|bytes|threads|calls].."
        )?;
        return Ok(ExitCode::from(2));
    };
    for work in named {
        match work {
            Work::Drivers => bench_service::bench_frames::run(&rt, rt)?,
            Work::Volumes => bench_layers::bench_volumes::run(&rt)?,
            Work::Migrate => bench_layers::bench_migration::run(&rt)?,
            Work::Names => bench_layers::bench_names::run(&rt)?,
            Work::Paths => bench_layers::bench_paths::run(&rt)?,
            Work::Maps => bench_layers::bench_maps::run(&rt)?,
            Work::Bytes => bench_layers::bench_bytes::run(&rt)?,
            Work::Threads => bench_service::bench_threads::run(&rt, rt)?,
            Work::Calls => bench_service::bench_calls::run(&rt, rt)?,
        }
    }
    Ok(ExitCode::SUCCESS)
}
