//! A seat of the board that knows the media as they stood at a moment.

ghost use Rattle.std.specs.Prelude.{◌≡◌, IfSome, IsTrue};
ghost use Rattle.std.specs.Arc.{arc_value};
ghost use Rattle.driver_threads.specs.Watched.{IsNumbered, IsThere, known_sectors};

use crate::comparing::beside_media;
use crate::watch::Likeness;
use board::counting::parameters::ServiceParameters;
use board::{Board, Seat};
use shared_media::confined::Confined;
use std::marker::PhantomData;
use std::sync::Arc;

/// The board of a service, and a seat of it that knows the edition that the media were.
#[derive(Drop)]
pub(crate) struct Witness<N: ServiceParameters> {
    board: Arc<Board>,
    pub(crate) seat: Seat,
    of: PhantomData<N>,
    ghost named: { arc_value board ≡ N.table },
    ghost seated: { seat.table ≡ N.table },
}

impl<N: ServiceParameters> Witness<N> {
    /// With this seat of the board.
    pub(crate) fn new(board: Arc<Board>, seat: Seat) -> Witness<N>
        requires board { arc_value board ≡ N.table }
        requires seat { seat.table ≡ N.table }
    {
        Witness {
            board,
            seat,
            of: PhantomData,
        }
    }

    /// Gives the media, as they stand, a number, by which they are known from now on. None where they get none.
    pub(crate) fn publish(&mut self, media: &mut Confined<N>) -> Option<u64>
        ensures { IfSome result (λ n. IsNumbered self.new.seat.view.edition n) }
    {
        media.publish(&self.board, &mut self.seat)
    }

    /// Whether the media are what is known by this number still.
    fn knows(&mut self, media: &mut Confined<N>, number: u64) -> bool
        requires { IsNumbered self.old.seat.view.edition number }
        ensures stays { self.new.seat.view.edition ≡ self.old.seat.view.edition }
        ensures media { media.new ≡ media.old }
        ensures knows { IsTrue result → media.old.media.sectors ≡ known_sectors self.old.seat.view.edition }
    {
        media.is_edition(&self.board, &mut self.seat, number)
    }

    /// How bytes are beside those that the volume's range of what is known by this number has from this byte on: Unsure where the media
    /// aren't that any more, or the bytes don't lie within the range or the media.
    pub(crate) fn beside(
        &mut self,
        media: &mut Confined<N>,
        number: u64,
        start: u64,
        bytes: &[u8],
    ) -> Likeness
        requires { IsNumbered self.old.seat.view.edition number }
        ensures stays { self.new.seat.view.edition ≡ self.old.seat.view.edition }
        ensures same { result ≡ Likeness.Same → IsThere N.opening (known_sectors self.old.seat.view.edition) start bytes.now }
        ensures differs { result ≡ Likeness.Differs → IsThere N.opening (known_sectors self.old.seat.view.edition) start bytes.now → ⊥ }
    {
        if !self.knows(media, number) {
            return Likeness::Unsure;
        }
        beside_media(media, start, bytes)
    }

    /// What came of all comparisons at last: Unsure where the media aren't what is known by this number any more, or have none.
    pub(crate) fn at_last(
        &mut self,
        media: &mut Confined<N>,
        number: Option<u64>,
        likeness: Likeness,
    ) -> Likeness
        requires { IfSome number (λ n. IsNumbered self.old.seat.view.edition n) }
        ensures media { media.new ≡ media.old }
        ensures same { result ≡ Likeness.Same
            → (likeness ≡ Likeness.Same) × (media.old.media.sectors ≡ known_sectors self.old.seat.view.edition) }
        ensures differs { result ≡ Likeness.Differs
            → (likeness ≡ Likeness.Differs) × (media.old.media.sectors ≡ known_sectors self.old.seat.view.edition) }
    {
        let Some(number) = number else {
            return Likeness::Unsure;
        };
        if self.knows(media, number) {
            likeness
        } else {
            Likeness::Unsure
        }
    }
}
