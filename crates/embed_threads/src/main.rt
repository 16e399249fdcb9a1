//! Embeds a file server: sessions of one service write files at one time, each in a thread of its own.
#![tactic(auto)]

mod counting;

use crate::counting::CountingDriver;
use lecternowl::{
    CallError, Files, OpenFlags, RamDriver, Task, User, mkfs, serve, setup_for, table_in,
};
use std::alloc::Global;
use std::io;
use std::process::ExitCode;
use std::sync::atomic::{AtomicU64, Ordering};
use std::sync::{Arc, Wait};
use std::thread::Threads;

/// Writes these bytes to a file of this path, as this user.
#[derive(Drop)]
struct WriteFile {
    uid: u16,
    path: &'static [u8],
    bytes: &'static [u8],
}

impl Task for WriteFile {
    type Output = Result<u32, CallError>;

    fn user(&self) -> User {
        User {
            uid: self.uid,
            gid: 0,
        }
    }

    fn run<F: Files>(self, session: &mut F) -> Result<u32, CallError> {
        let flags = OpenFlags::WRITE | OpenFlags::CREATE;
        let fd = session.open(100, self.path, flags, 0o644)?;
        session.write(101, fd, self.bytes)
    }
}

/// A task for each file. The root of a new volume is user 0's, with mode 755, so user 7 may not write into it.
fn tasks(alloc: Global) -> Option<Vec<WriteFile>> {
    let mut tasks = Vec::new(alloc);
    for (uid, path, bytes) in [
        (0, b"/one", b"first "),
        (0, b"/two", b"second"),
        (7, b"/six", b"never."),
    ] {
        tasks.push(WriteFile { uid, path, bytes }).ok()?;
    }
    Some(tasks)
}

/// How many drivers there are: another one takes the place of one that waits for a processor so long that it counts as hung.
const DRIVERS: u32 = 6;

/// Makes a volume, and writes files on it at one time: what came of each, and whether the drivers took requests.
fn embed<R: Threads + Wait + Copy + Send + Sync + 'static>(
    alloc: Global,
    rt: R,
) -> Option<(Vec<Result<u32, CallError>>, bool)> {
    let image = mkfs(alloc, 256, 1024, 64, 50).ok()?;
    let taken = Arc::new(alloc, AtomicU64::new(0)).ok()?;
    let mut drivers = Vec::new(alloc);
    for _ in 0..DRIVERS {
        let driver = RamDriver::new(table_in(image.as_slice()));
        drivers
            .push(CountingDriver::new(driver, Arc::try_clone(&taken).ok()?))
            .ok()?;
    }
    let came = serve(alloc, rt, image, &setup_for(0), drivers, tasks(alloc)?).ok()?;
    Some((came.outputs, taken.load(Ordering::SeqCst) > 0))
}

fn main(rt: HostRuntime) -> io::Result<ExitCode> {
    println!(rt; "{:?}", embed(rt.alloc(), rt))?;
    Ok(ExitCode::from(0))
}
