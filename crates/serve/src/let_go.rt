//! Sessions that were let go without `end`.

use board::Seat;
use board::counting::parameters::ServiceParameters;
use shared_server::left_open::LeftOpen;
use std::array;
use std::marker::{Model, PhantomData};
use std::sync::{Mutex, MutexGuard};
use std::thread::yield_now;
use tree::Who;

/// How many sessions a service may have.
const PLACES: usize = 64;

/// What a session had that was let go without `end`: its seat, and which descriptors its calls left open.
#[derive(Drop)]
pub(crate) struct Gone<N: ServiceParameters> {
    pub(crate) seat: Seat,
    pub(crate) who: Who,
    pub(crate) seen: u64,
    pub(crate) left_open: LeftOpen,
    pub(crate) of: PhantomData<N>,
}

impl<N: ServiceParameters> Model for Gone<N> {
    ghost use Rattle.std.specs.Prelude.{◌≡◌, ◌<◌, Some};
    ghost use Rattle.serve.specs.Counts.{Counts};
    ghost use Rattle.records.specs.Session.{SessionState};
    ghost use Rattle.board.specs.View.{session_for};
    ghost use Rattle.shared_server.specs.Descriptors.{AreLeftOpen};

    ghost Value = { SessionState };

    ghost view = { λ s. session_for s.who.uid s.who.gid s.who.session s.seat.view };

    ghost invariant = { λ s. (s.seat.table ≡ N.table) × (s.seat.view.number ≡ Some s.who.session) × (s.who.session < 64)
        × Counts s.seen s.seat.view.seen × AreLeftOpen s.left_open s.seat.view.mine };
}

/// Where the sessions of a service that are let go without `end` leave what they had, each at its number, until the service ends them. Who
/// looks for it while another thread does lets that go on first.
#[derive(Drop)]
pub(crate) struct LetGo<N: ServiceParameters> {
    places: Mutex<[Option<Gone<N>>; PLACES]>,
}

impl<N: ServiceParameters> LetGo<N> {
    /// Nothing was left.
    pub(crate) fn new() -> LetGo<N> {
        LetGo {
            places: Mutex::new(array::from_fn(|_| None)),
        }
    }

    /// The places, once no other thread has them.
    fn places(&self) -> Option<MutexGuard<'_, [Option<Gone<N>>; PLACES]>> {
        for _ in 0..u64::MAX {
            if let Some(places) = self.places.try_lock() {
                return Some(places);
            }
            yield_now();
        }
        None
    }

    /// A session is let go.
    pub(crate) fn put(&self, gone: Gone<N>) {
        if let Some(mut places) = self.places() {
            let number = gone.who.session as usize;
            let places = &mut *places;
            places[number] = Some(gone);
        }
    }

    /// What a session left, the one of the lowest number. None where none did.
    pub(crate) fn take(&self) -> Option<Gone<N>> {
        let mut places = self.places()?;
        let places = &mut *places;
        for place in places.iter_mut() {
            if place.is_some() {
                return place.take();
            }
        }
        None
    }
}
