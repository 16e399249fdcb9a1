//! Embeds a file server: a volume on two drivers, of which the first dies; a session writes a file and reads it back.
#![tactic(auto)]

use lecternowl::{
    CallError, DiesAfter, Files, OpenFlags, RamDriver, Task, Verdict, Whence, check, mkfs, serve,
    setup_for, table_in,
};
use std::alloc::Global;
use std::io;
use std::process::ExitCode;
use std::sync::Wait;
use std::thread::Threads;

/// Writes these bytes to a file, and reads them back.
#[derive(Drop)]
struct WriteFile {
    bytes: Vec<u8>,
}

impl Task for WriteFile {
    type Output = Result<bool, CallError>;

    fn run<F: Files>(self, session: &mut F) -> Result<bool, CallError> {
        session.mkdir(100, b"/d", 0o755)?;
        let flags = OpenFlags::READ | OpenFlags::WRITE | OpenFlags::CREATE;
        let fd = session.open(101, b"/d/f", flags, 0o644)?;
        let wrote = session.write(102, fd, self.bytes.as_slice())?;
        session.seek(103, fd, Whence::Set, 0)?;
        let read = session.read(104, fd, wrote)?;
        session.sync(105)?;
        Ok(read.as_slice() == self.bytes.as_slice())
    }
}

/// Makes a volume, does this on it, and checks the image: what came of the calls, and whether the image is clean.
fn embed<R: Threads + Wait + Copy + Send + Sync + 'static>(
    alloc: Global,
    rt: R,
) -> Option<(Result<bool, CallError>, bool)> {
    let image = mkfs(alloc, 256, 1024, 64, 50).ok()?;
    let table = table_in(image.as_slice());
    let mut drivers = Vec::new(alloc);
    drivers.push(DiesAfter::new(RamDriver::new(table), 5)).ok()?;
    drivers
        .push(DiesAfter::new(RamDriver::new(table), u64::MAX))
        .ok()?;
    let bytes = vec![in alloc; 7; 10000].ok()?;
    let tasks = vec![in alloc; WriteFile { bytes }].ok()?;
    let mut came = serve(alloc, rt, image, &setup_for(0), drivers, tasks).ok()?;
    let clean = matches!(check(alloc, came.image.as_slice()), Ok(Verdict::Clean(_)));
    Some((came.outputs.pop()?, clean))
}

fn main(rt: HostRuntime) -> io::Result<ExitCode> {
    println!(rt; "{:?}", embed(rt.alloc(), rt))?;
    Ok(ExitCode::from(0))
}
