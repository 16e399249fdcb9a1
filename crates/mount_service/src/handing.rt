//! What becomes of the image that a mount leaves.

ghost use Rattle.std.specs.Prelude.{◌≡◌, false, true, IfNone, IfSome, None, Some};
ghost use Rattle.output.specs.Output.{Tells};
ghost use Rattle.volume_commands.specs.Handing.{HoldsTreeIn, IsHandedOn, TellsHanding, not_handed_text};
ghost use Rattle.serve.specs.Stopping.{is_as_read as as_read};
ghost use Rattle.archive.specs.Ending.{IsEndedIn};
ghost use Rattle.mount_service.specs.Ending.{status_after};

use crate::mount::{Ended, MountStatus};
use crate::program::{Came, Streams};
use archive::{Archive, Ending};
use output::{Told, tell};
use serve::stopping::is_as_read;
use std::alloc::Global;
use std::io::Write;
use volume_commands::handing::{Handing, ImagePlace, NotHanded, hand_on, tell_handing};

/// What is left of a mount once its image was handed on.
#[derive(Drop)]
pub struct HandedOn<A> {
    /// How the mount ended then.
    pub status: MountStatus,
    /// Where its changes were put, and the image if it was clean; none where there was none, or a thread still has it.
    pub archive: Option<A>,
}

/// How a mount ended, which had ended so, once this came of its image and was told so.
fn ended_with(mounted: MountStatus, handing: Handing, told: Told) -> MountStatus
    ensures { result ≡ status_after mounted handing told }
{
    match (handing, mounted) {
        (Handing::Put, _) => mounted,
        (Handing::Beside(_), MountStatus::Done) => MountStatus::Refused(told),
        (Handing::Beside(_), MountStatus::NotAsRead) => MountStatus::Refused(told),
        (Handing::Beside(_), _) => mounted,
        _ => MountStatus::Refused(told),
    }
}

/// Hands on the image that a mount left, whose place is the archive, the file of this name: it goes there only where it is as it was read
/// back, and the check finds the volume of this minor in it clean, and beside where not, or where the archive doesn't take it (`hand_on`):
/// the archive then stays that of the last sync that was put. How the mount ended then: `Done` only where the image is in the archive. Where
/// it isn't, two lines on `err` say so.
pub fn hand_left<I: Drop, O: Drop, C: Drop, A: Archive + Drop, W: Drop, B: ImagePlace, E: Write>(
    alloc: Global,
    mounted: Ended<I, O, C, A, W>,
    minor: u8,
    name: &str,
    beside: &mut B,
    err: &mut E,
) -> HandedOn<A>
    ensures none { IfNone mounted.came ((result.status ≡ mounted.status) × (result.archive ≡ None) × (beside.new ≡ beside.old)
        × (err.new ≡ err.old)) }
    ensures handed { IfSome mounted.came (λ came. (handing : Handing) × (told : Told)
        × IsHandedOn (IsEndedIn A.ends) B.puts came.image.items minor (as_read came.last_sync) came.streams.archive beside.old handing
        result.archive beside.new
        × TellsHanding E.contents name.now handing told err.old err.new × (result.status ≡ status_after mounted.status handing told)) }
    ensures done { result.status ≡ MountStatus.Done → IfSome mounted.came (λ came. (as_read came.last_sync ≡ true)
        × HoldsTreeIn came.image.items minor × IsEndedIn A.ends came.streams.archive came.image.items true result.archive) }
{
    let Ended { status, came } = mounted;
    let Some(came) = came else {
        return HandedOn {
            status,
            archive: None,
        };
    };
    let Came {
        streams,
        last_sync,
        image,
        ..
    } = came;
    let Streams { archive, .. } = streams;
    let mut ending = Ending { archive };
    let handing = hand_on(
        alloc,
        &image,
        minor,
        is_as_read(last_sync),
        &mut ending,
        beside,
    );
    let told = tell_handing(alloc, name, handing, err);
    HandedOn {
        status: ended_with(status, handing, told),
        archive: ending.archive,
    }
}

/// How a mount ended whose image is handed on nowhere. Where it isn't as it was read back, a line on `err` says so, and the mount is
/// refused.
pub fn let_go<I: Drop, O: Drop, C: Drop, A: Drop, W: Drop, E: Write>(
    alloc: Global,
    mounted: Ended<I, O, C, A, W>,
    err: &mut E,
) -> MountStatus
    ensures none { IfNone mounted.came ((result ≡ mounted.status) × (err.new ≡ err.old)) }
    ensures read { IfSome mounted.came (λ came. as_read came.last_sync ≡ true
        → (result ≡ mounted.status) × (err.new ≡ err.old)) }
    ensures refused { IfSome mounted.came (λ came. as_read came.last_sync ≡ false → (told : Told)
        × Tells (Some (not_handed_text NotHanded.NotAsRead)) told (E.contents err.old) (E.contents err.new)
        × (result ≡ MountStatus.Refused told)) }
{
    let Ended { status, came } = mounted;
    let Some(came) = came else {
        return status;
    };
    if is_as_read(came.last_sync) {
        return status;
    }
    MountStatus::Refused(tell(alloc, err, &NotHanded::NotAsRead))
}
