//! A file server that is opened over the link of a run.

ghost use Rattle.std.specs.Prelude.{◌≡◌, ◌≤◌, ◌<◌, ◌+◌, ◌^◌, IfOk, false};
ghost use Rattle.layout.specs.Places.{IsGeometry};
ghost use Rattle.records.specs.Told.{took_end};
ghost use Rattle.simulated_link.specs.StateView.{work_left};
ghost use Rattle.world.specs.Starts.{IsBeforeFirst};
ghost use Rattle.world.specs.ServerRuns.{RunsFrom};

use crate::run_loop::WorldLink;
use crate::run_loop::run::run_all;
use cached_blocks::Stored;
use fsck::Clean;
use std::alloc::{AllocError, Global};
use volume_mount::Server;
use volume_mount::mounted::open;

/// A server is opened over this link, which has noted the first start alone, and runs the schedule out: the server then, and how many
/// calls have no answer. An error: no memory was found.
pub fn run_over<L: WorldLink>(
    alloc: Global,
    link: L,
    minor: u8,
    clean: Clean,
    frames: u32,
) -> Result<(Server<Stored<L>>, u64), AllocError>
    requires sizes { IsGeometry clean.geometry }
    requires live { took_end (L.Link.history link) ≡ false }
    requires budget { L.Link.budget_left link ≤ 2 ^ 58 }
    requires room { 33 ≤ L.Link.room link }
    requires few { work_left (L.Ran.run link) + 1 < 2 ^ 48 }
    requires first { IsBeforeFirst (L.Ran.run link) }
    ensures { IfOk result (λ r. RunsFrom L.Link L.Ran.run link minor clean.geometry frames r.0 r.1) }
{
    let Ok(opened) = open(alloc, link, minor, clean, frames) else {
        return Err(AllocError);
    };
    let mut server = opened;
    let unanswered = run_all(&mut server)?;
    Ok((server, unanswered))
}
