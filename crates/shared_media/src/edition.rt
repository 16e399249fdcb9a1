//! The number that sectors were published by, with a seat of the board that knows them by it.

ghost use Rattle.std.specs.Prelude.{◌≡◌, ℕ, List, IfSome, IsTrue, Some};
ghost use Rattle.shared_media.specs.Editions.{AreKnown, Tells, kept_unless, may_write};

use board::{Board, Seat};
use media::Media;

/// The number of an edition, and a seat that knows its sectors by it.
#[derive(Drop)]
pub(crate) struct Edition {
    pub(crate) number: u64,
    seat: Seat,
}

/// The edition that these sectors are from now on, which both its own seat and this one know. None where they got no number.
pub(crate) fn published(board: &Board, seat: &mut Seat, sectors: &[[u8; 512]]) -> Option<Edition>
    requires { seat.old.table ≡ board.now }
    ensures table { seat.new.table ≡ board.now }
    ensures known { AreKnown board.now result sectors.now }
    ensures knows { IfSome result (λ e. seat.new.view.edition ≡ Some (e.number, sectors.now)) }
{
    let number = board.publish(seat, sectors)?;
    match board.split(seat, None) {
        Ok(own) => Some(Edition { number, seat: own }),
        Err(_) => None,
    }
}

/// Whether a step under a generation may write: its driver named a sector, and the media accept it.
pub(crate) fn may_write(media: &Media, generation: u32, sector: Option<u32>) -> bool
    ensures { result ≡ may_write media.now generation sector }
{
    match sector {
        Some(sector) => media.accepts(generation, sector),
        None => false,
    }
}

/// Ends an edition where a step may write.
pub(crate) fn end_edition(edition: &mut Option<Edition>, writes: bool)
    ensures { edition.new ≡ kept_unless writes edition.old }
{
    if writes {
        *edition = None;
    }
}

/// Whether there is an edition of this number: then its seat and this one know the same sectors by it.
pub(crate) fn is_known(
    edition: &mut Option<Edition>,
    board: &Board,
    seat: &mut Seat,
    number: u64,
) -> bool
    requires table { seat.old.table ≡ board.now }
    requires known { IfSome edition.old (λ e. e.seat.table ≡ board.now) }
    ensures table { seat.new.table ≡ board.now }
    ensures same { edition.new ≡ edition.old }
    ensures knows { seat.new.view.edition ≡ seat.old.view.edition }
    ensures is { (s t : List (List ℕ)) → IsTrue result → seat.old.view.edition ≡ Some (number, s) → Tells edition.old number t → t ≡ s }
{
    if let Some(known) = edition {
        if known.number == number {
            board.same_edition(seat, &mut known.seat);
            return true;
        }
    }
    false
}
