//! Embeds a file server that keeps what it writes: each run appends a line to `/log` of the volume in the file `app.img`.
#![tactic(auto)]

use lecternowl::{
    CallError, DiesAfter, Files, OpenFlags, OpenImage, RamDriver, Task, mkfs, setup_for, table_in,
};
use std::process::ExitCode;
use std::sync::Wait;
use std::thread::Threads;
use std::{fs, io};

/// Appends a line to the log, and syncs: how many bytes the log has then.
#[derive(Drop)]
struct AppendLine;

impl Task for AppendLine {
    type Output = Result<u32, CallError>;

    fn run<F: Files>(self, session: &mut F) -> Result<u32, CallError> {
        let flags = OpenFlags::WRITE | OpenFlags::CREATE | OpenFlags::APPEND;
        let fd = session.open(100, b"/log", flags, 0o644)?;
        session.write(101, fd, b"a line\n")?;
        session.sync(102)?;
        Ok(session.fstat(103, fd)?.size)
    }
}

/// Makes the image file of this name where there is none.
fn make(rt: HostRuntime, name: &str) -> io::Result<()> {
    match (fs::metadata(&rt, name), mkfs(rt.alloc(), 256, 1024, 64, 50)) {
        (Err(_), Ok(image)) => fs::write(&rt, name, image),
        _ => Ok(()),
    }
}

/// Does it in the image file of this name, and says what came of it, and whether the file has the image.
fn append<R>(rt: HostRuntime, waits: R, name: &str) -> io::Result<()>
where
    R: Threads + Wait + Copy + Send + Sync + 'static,
{
    let file = match OpenImage::open(&rt, name, 0) {
        Ok(file) => file,
        Err(refusal) => return eprintln!(rt; "{refusal}"),
    };
    let first = DiesAfter::new(RamDriver::new(table_in(file.image())), 5);
    let next = DiesAfter::new(RamDriver::new(table_in(file.image())), u64::MAX);
    let drivers = vec![in rt.alloc(); first, next]?;
    let tasks = vec![in rt.alloc(); AppendLine]?;
    match file.serve(waits, &setup_for(0), drivers, tasks, 5) {
        Ok(left) => println!(rt; "{:?} {:?}", left.came.outputs, left.handing),
        Err(refusal) => eprintln!(rt; "{refusal}"),
    }
}

fn main(rt: HostRuntime) -> io::Result<ExitCode> {
    make(rt, "app.img")?;
    append(rt, rt, "app.img")?;
    Ok(ExitCode::from(0))
}
