//! Long supplies of drivers.

use crate::compared::shown::faults_show;
use std::alloc::{AllocError, Global};
use std::test::Fail;

/// How many drivers there are.
const DRIVERS: u32 = 40;

/// A schedule, and what is shown of it.
type Run = (String, String);

/// Each driver but the last one dies, and 64 ticks pass: then the next death counts as a first one, and the start after it comes with the
/// next tick. The call's request goes to each driver in turn.
fn deaths(alloc: Global) -> Result<Run, AllocError> {
    let (mut schedule, mut shown) = (String::new(alloc), String::new(alloc));
    let ticks = "tick\n".repeat(alloc, 64)?;
    for generation in 1..DRIVERS {
        let next = generation.saturating_add(1);
        write!(schedule, "die {generation}\n{ticks}")?;
        write!(
            shown,
            "fault 1.{generation} exit\nstarted 1.{next}\nissue 1 read 4096 1024 to 1.{next}\n"
        )?;
    }
    Ok((schedule, shown))
}

/// The last driver answers the call; when it dies too, none is left.
#[test]
fn forty_drivers_are_started(rt: HostRuntime) -> Result<(), Fail> {
    let (deaths, starts) = deaths(rt.alloc())?;
    let schedule = [
        "call 0 0 0 100 stat /\n",
        &deaths,
        "step 40\nstep 40\ndeliver 0\ndie 40\ncall 0 0 0 100 stat /\n",
    ];
    let shown = [
        "started 1.1\nissue 1 read 4096 1024 to 1.1\n",
        &starts,
        "answer 1 1024 from 1.40\nreply 0 inode 1 mode 0040755 links 2 uid 0 gid 0 size 128 times 50 50 50\n",
        "fault 1.40 exit\ngiven up\nreply 0 EIO\nunanswered 0\n",
    ];
    let schedule = schedule.concat(rt.alloc())?;
    let shown = shown.concat(rt.alloc())?;
    faults_show(rt.alloc(), &[None; DRIVERS as usize], &schedule, &shown, 3)
}
