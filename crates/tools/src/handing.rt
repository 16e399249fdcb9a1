//! What becomes of the image that a play leaves.

ghost use Rattle.std.specs.Prelude.{◌≡◌, false, true, IfNone, IfSome, Some};
ghost use Rattle.output.specs.Output.{Tells};
ghost use Rattle.volume_commands.specs.Handing.{HoldsTreeIn, IsHandedOn, TellsHanding, not_handed_text};
ghost use Rattle.serve.specs.Stopping.{is_as_read as as_read};
ghost use Rattle.tools.specs.Status.{status_after};

use crate::play::{Ended, ImageLeft, PlayStatus};
use output::{Told, tell};
use serve::stopping::is_as_read;
use std::alloc::Global;
use std::io::Write;
use volume_commands::handing::{Handing, ImagePlace, NotHanded, hand_on, tell_handing};

/// How a play ended, which had ended so, once this came of its image and was told so.
fn ended_with(played: PlayStatus, handing: Handing, told: Told) -> PlayStatus
    ensures { result ≡ status_after played handing told }
{
    match (handing, played) {
        (Handing::Put, _) => played,
        (Handing::Beside(_), PlayStatus::Done) => PlayStatus::Refused(told),
        (Handing::Beside(_), PlayStatus::NotAsRead) => PlayStatus::Refused(told),
        (Handing::Beside(_), _) => played,
        _ => PlayStatus::Refused(told),
    }
}

/// Hands on the image that a play left, whose place is the file of this name: it goes there only where it is as it was read back, and the
/// check finds the volume of this minor in it clean, and beside where not, or where its place doesn't take it (`hand_on`). How the play
/// ended then: `Done` only where it is in its place. Where it isn't, two lines on `err` say so.
pub fn hand_left<P: ImagePlace, B: ImagePlace, E: Write>(
    alloc: Global,
    played: Ended,
    minor: u8,
    name: &str,
    place: &mut P,
    beside: &mut B,
    err: &mut E,
) -> PlayStatus
    ensures none { IfNone played.image ((result ≡ played.status) × (place.new ≡ place.old) × (beside.new ≡ beside.old)
        × (err.new ≡ err.old)) }
    ensures handed { IfSome played.image (λ image. (handing : Handing) × (told : Told)
        × IsHandedOn P.puts B.puts image.bytes.items minor (as_read image.last_sync) place.old beside.old handing place.new beside.new
        × TellsHanding E.contents name.now handing told err.old err.new × (result ≡ status_after played.status handing told)) }
    ensures done { result ≡ PlayStatus.Done → IfSome played.image (λ image. (as_read image.last_sync ≡ true)
        × HoldsTreeIn image.bytes.items minor × P.puts place.old image.bytes.items true place.new) }
{
    let Ended { status, image } = played;
    let Some(image) = image else {
        return status;
    };
    let ImageLeft { last_sync, bytes } = image;
    let handing = hand_on(alloc, &bytes, minor, is_as_read(last_sync), place, beside);
    let told = tell_handing(alloc, name, handing, err);
    ended_with(status, handing, told)
}

/// How a play ended whose image is handed on nowhere. Where it isn't as it was read back, a line on `err` says so, and the play is refused.
pub fn let_go<E: Write>(alloc: Global, played: Ended, err: &mut E) -> PlayStatus
    ensures none { IfNone played.image ((result ≡ played.status) × (err.new ≡ err.old)) }
    ensures read { IfSome played.image (λ image. as_read image.last_sync ≡ true
        → (result ≡ played.status) × (err.new ≡ err.old)) }
    ensures refused { IfSome played.image (λ image. as_read image.last_sync ≡ false → (told : Told)
        × Tells (Some (not_handed_text NotHanded.NotAsRead)) told (E.contents err.old) (E.contents err.new)
        × (result ≡ PlayStatus.Refused told)) }
{
    let Ended { status, image } = played;
    let Some(image) = image else {
        return status;
    };
    if is_as_read(image.last_sync) {
        return status;
    }
    PlayStatus::Refused(tell(alloc, err, &NotHanded::NotAsRead))
}
