//! Measures client calls in a session of a service, on a volume of 4096 blocks of 4096 bytes (16 MiB) with 64 frames, over a driver in
//! memory.

ghost use Rattle.std.specs.Prelude.{◌≡◌, ◌≤◌, ◌^◌, [], true, map};
ghost use Rattle.std.specs.Arc.{arc_value};
ghost use Rattle.records.specs.Opening.{contents_at};
ghost use Rattle.records.specs.Mount.{is_frame_count};
ghost use Rattle.service_start.specs.Laws.{sizes_in};
ghost use Rattle.service_start.specs.Starting.{opening_of, IsPrepared};
ghost use Rattle.true_replies.specs.Events.{opening_media};
ghost use Rattle.board.specs.View.{IsKeeper, opener};

mod measures;
mod steps;
mod work;

use bdev::BlockDriver;
use bench_layers::timing::say;
use board::counting::parameters::ServiceParameters;
use board::counting::recorder::Recorder;
use board::{Board, Seat};
use driver_threads::running::Running;
use gate::Gate;
use gate::paced_gate::Paced;
use measures::measure_all;
use modeldisk::supply::{drivers_for, setup_for, table_in};
use new_volume::mkfs;
use reincarnate::policy::Setup;
use serve::service::Service;
use service_start::start::counted_drivers;
use service_start::volume_mount::mounted::mount;
use service_start::volume_mount::{Prepared, prepare};
use std::io;
use std::marker::Brand;
use std::sync::{Arc, Wait};
use std::thread::Threads;

/// Mounts the volume over this link, and measures calls on the service of it.
fn mount_and_measure<
    N: ServiceParameters + Send + Sync + 'static,
    R: Threads + Wait + Copy + Send + Sync + 'static,
    L: Recorder<N> + Send + 'static,
    G: Gate + 'static,
>(
    rt: &HostRuntime,
    waits: R,
    board: Arc<Board>,
    link: L,
    minor: u8,
    frames: u32,
    running: Running<N>,
    gate: Arc<G>,
) -> io::Result<()>
    requires board { arc_value board ≡ N.table }
    requires marks { L.marks link ≡ [] }
    requires told { L.Link.history link ≡ [] }
    requires geometry { N.geometry ≡ sizes_in (contents_at N.opening) }
    requires minor { minor ≡ N.opening.minor }
    requires frames { is_frame_count frames ≡ true }
    requires budget { L.Link.budget_left link ≤ 2 ^ 57 }
    requires truth { L.Link.truth link N.opening [] }
    requires drivers { L.runs_on link N.policy N.supply }
{
    let alloc = rt.alloc();
    match mount(alloc, link, minor, frames) {
        Ok(server) => {
            let service = Service::over(alloc, waits, board, server, running, gate)?;
            measure_all(rt, &waits, &service)
        }
        Err(refusal) => {
            let _ = running.stop(&waits);
            eprintln!(*rt; "{refusal}")
        }
    }
}

// The caller picks `N` from what it hands over.
fn start_and_measure<
    N: ServiceParameters + Send + Sync + 'static,
    R: Threads + Wait + Copy + Send + Sync + 'static,
    D: BlockDriver + 'static,
    G: Gate + 'static,
>(
    rt: &HostRuntime,
    waits: R,
    board: Board,
    seat: Seat,
    prepared: Prepared,
    setup: &Setup,
    supply: Vec<D>,
    gate: Arc<G>,
) -> io::Result<()>
    requires board { board ≡ N.table }
    requires seat { IsKeeper N.table seat × (seat.view ≡ opener) }
    requires opening { N.opening ≡ opening_of N.opening.media setup.now.minor prepared.range }
    requires geometry { N.geometry ≡ sizes_in (contents_at N.opening) }
    requires prepared { IsPrepared N.opening.media setup.now (map D.state supply.items) prepared.range }
    requires contents { prepared.media ≡ opening_media N.opening }
{
    let Prepared { media, range } = prepared;
    let asked = Arc::try_clone(&gate)?;
    let (board, link, running) = counted_drivers::<N, R, D, G>(
        rt.alloc(),
        waits,
        board,
        seat,
        media,
        range,
        setup.policy,
        supply,
        asked,
    )?;
    let frames = setup.frames as u32;
    mount_and_measure(rt, waits, board, link, setup.minor, frames, running, gate)
}

/// Starts the service, whose sessions wait by a handle, and measures calls in one of them, and in eight at one time.
pub fn run<R: Threads + Wait + Copy + Send + Sync + 'static>(
    rt: &HostRuntime,
    waits: R,
) -> io::Result<()> {
    let alloc = rt.alloc();
    let Ok(image) = mkfs(alloc, 4096, 4096, 4096, 50) else {
        return say(rt, "no volume");
    };
    let supply = drivers_for(alloc, 0, false, table_in(&image))?;
    let setup = setup_for(0);
    let gate = Arc::new(alloc, Paced::new(waits))?;
    let prepared = match prepare(image, &setup, &supply) {
        Ok(prepared) => prepared,
        Err(refusal) => return eprintln!(*rt; "{refusal}"),
    };
    let (board, seat) = Board::new(alloc)?;
    start_and_measure::<Brand, R, _, _>(rt, waits, board, seat, prepared, &setup, supply, gate)
}
