//! A run from its start to its end.

ghost use Rattle.std.specs.Prelude.{◌≡◌, ◌≤◌, ◌<◌, ◌+◌, ◌^◌, true, false, IfOk, OnErr};
ghost use Rattle.tree.specs.declared.Call.{Call};
ghost use Rattle.simulated_link.specs.StateView.{work_left};
ghost use Rattle.world.specs.Starts.{IsBeforeFirst, RunsAll};

use crate::run_loop::WorldLink;
use crate::run_loop::turns::run_out;
use file_server::FileServer;
use message::Incoming;
use message::endpoint::{DISK_DRIVER, Endpoint};
use std::alloc::AllocError;

/// The driver that is started before the first event.
const FIRST: Endpoint = Endpoint {
    slot: DISK_DRIVER,
    generation: 1,
};

/// A whole run: the server, which was asked nothing yet, is handed the start of the first driver, which its link has noted, and then runs
/// the schedule out; how many calls of those that arrived have no answer. An error: no memory was found.
pub fn run_all<L: WorldLink, S: FileServer<L>>(server: &mut S) -> Result<u64, AllocError>
    requires ready { S.is_ready server.old }
    requires few { S.absorbed server.old + work_left (L.Ran.run (S.line server.old)) + 1 < 2 ^ 48 }
    requires room { 33 ≤ L.Link.room (S.line server.old) }
    requires knows { (call : Call) → S.knows call }
    requires live { (S.Serve.serving server.old).ended ≡ false }
    requires idle { S.is_idle server.old }
    requires first { IsBeforeFirst (L.Ran.run (S.line server.old)) }
    ensures plays { IfOk result (λ unanswered. RunsAll (S.Serve.serving server.old) (S.Serve.serving server.new)
        (L.Link.truth (S.line server.old)) (L.Ran.run (S.line server.old)) (L.Ran.run (S.line server.new)) unanswered) }
    ensures starved { OnErr result ((L.Ran.run (S.line server.new)).starved ≡ true) }
{
    server.absorb(Incoming::Started(FIRST));
    let unanswered = run_out(server)?;
    Ok(unanswered)
}
