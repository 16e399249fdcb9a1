//! Over a link that has ended a session's call is cut, no further session is made, and the service stops with the image as the media stand.
ghost use Rattle.std.specs.Prelude.{◌≡◌};
ghost use Rattle.layout.specs.Places.{IsGeometry};
ghost use Rattle.tree.specs.Tree.{Tree};
ghost use Rattle.records.specs.Opening.{contents_at};
ghost use Rattle.records.specs.Legal.{IsAtFirst};
ghost use Rattle.volume_mount.specs.Starting.{opening_of};
ghost use Rattle.board.specs.View.{IsKeeper, opener};
ghost use Rattle.true_replies.specs.Events.{opening_media};

use board::counting::RecordingLink;
use board::counting::parameters::ServiceParameters;
use board::{Board, Seat};
use driver_threads::running::start_drivers;
use fixtures::{new_volume, supply_of};
use fixtures_sessions::services::asked_and_stopped;
use fixtures_sessions::silent::Silent;
use fsck::{Verdict, check};
use gate::paced_gate::Paced;
use layout::Geometry;
use modeldisk::ScriptedDriver;
use reincarnate::Reincarnation;
use reincarnate::policy::{Policy, Setup};
use service_start::opened::over;
use std::alloc::{AllocError, Global};
use std::marker::Brand;
use std::sync::{Arc, Wait};
use std::test::Fail;
use std::thread::Threads;
use tests_texts::is_told;
use volume_mount::{Prepared, prepare};

/// On the volume in an image a session calls, another one is asked for, and the service is stopped. The image.
fn ask_and_stop<
    N: ServiceParameters + Send + Sync + 'static,
    R: Threads + Wait + Copy + Send + Sync + 'static,
>(
    alloc: Global,
    rt: R,
    board: Board,
    seat: Seat,
    prepared: Prepared,
    image: &[u8],
    geometry: Geometry,
    reincarnation: Reincarnation<ScriptedDriver>,
    lines: &mut String,
) -> Result<Option<Vec<u8>>, AllocError>
    requires board { board ≡ N.table }
    requires seat { IsKeeper N.table seat × (seat.view ≡ opener) }
    requires geometry { IsGeometry geometry × (geometry ≡ N.geometry) }
    requires tree { (tree : Tree) × IsAtFirst N.geometry (contents_at N.opening) tree }
    requires opening { N.opening ≡ opening_of image.now 0 prepared.range }
    requires media { prepared.media ≡ opening_media N.opening }
{
    let Prepared { media, range } = prepared;
    let mut seat = seat;
    let theirs = board.split(&mut seat, None)?;
    let board = Arc::new(alloc, board)?;
    let counted = Arc::try_clone(&board)?;
    let gate = Arc::new(alloc, Paced::new(rt))?;
    let asked = Arc::try_clone(&gate)?;
    let noting = RecordingLink::<N, Silent>::new(alloc, Silent::new(alloc)?, counted, seat)?;
    let (link, running) = start_drivers::<N, ScriptedDriver, Paced<R>, R>(
        alloc,
        rt,
        media,
        range,
        reincarnation,
        &board,
        theirs,
        asked,
    )?;
    drop(link);
    let service = over(alloc, rt, board, noting, 0, geometry, 16, running, gate)?;
    Ok(asked_and_stopped(service, lines))
}

/// The same, over a service on the volume in an image.
fn asked_of<R: Threads + Wait + Copy + Send + Sync + 'static>(
    alloc: Global,
    rt: R,
    image: &[u8],
    lines: &mut String,
) -> Result<Option<Vec<u8>>, AllocError> {
    let Ok(Verdict::Clean(clean)) = check(alloc, image) else {
        return Ok(None);
    };
    let supply = supply_of(alloc, image.len() / 512, &[None])?;
    let setup = Setup {
        minor: 0,
        frames: 16,
        policy: Policy::default(),
    };
    let Ok(prepared) = prepare(Vec::from_slice(alloc, image)?, &setup, &supply) else {
        return Ok(None);
    };
    let Ok(reincarnation) = Reincarnation::new(alloc, Policy::default(), supply) else {
        return Ok(None);
    };
    let (board, seat) = Board::new(alloc)?;
    ask_and_stop::<Brand, R>(
        alloc,
        rt,
        board,
        seat,
        prepared,
        image,
        clean.geometry(),
        reincarnation,
        lines,
    )
}

/// The lines that come of it, and the image as it was.
fn is_right(image: &[u8], left: Option<&[u8]>, lines: &str) -> Result<(), Fail> {
    is_told(lines, "cut\nSome(Stopped)\n")?;
    if left == Some(image) {
        return Ok(());
    }
    Err(Fail::from("another image"))
}

#[test]
fn a_stopped_service_makes_no_session(rt: HostRuntime) -> Result<(), Fail> {
    let image = new_volume(rt.alloc(), 1024)?;
    let mut lines = String::new(rt.alloc());
    let left = asked_of(rt.alloc(), rt, &image, &mut lines)?;
    is_right(&image, left.as_deref(), lines.as_str())
}
