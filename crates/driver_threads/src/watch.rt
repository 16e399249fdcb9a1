//! What is read back, compared with the media as it comes.

ghost use Rattle.std.specs.Prelude.{◌≡◌, ◌≢◌, ◌+◌, ◌/◌, length};
ghost use Rattle.shared_media.specs.Confined.{KeepsBut, KeepsOutside};
ghost use Rattle.driver_threads.specs.Watched.{Compares};

use crate::running::Running;
use board::counting::parameters::ServiceParameters;
use changes::Marks;
use media::Media;
use std::marker::Model;
use std::sync::Wait;
use std::thread::Threads;

/// How bytes that were read back are beside the media.
#[derive(Clone, Copy, Debug, PartialEq, Eq)]
pub enum Likeness {
    /// All are the media's.
    Same,
    /// Some aren't.
    Differs,
    /// Not known: a driver may have written since the media were looked at first.
    Unsure,
}

/// The threads behind a link, and the media as they stood at a moment, with which what is read back is compared as it comes. It keeps no
/// byte. Contracts see the sectors as they stood, and what came of all comparisons.
#[derive(Drop)]
pub struct Watch<N: ServiceParameters, R: Wait + Copy> {
    rt: R,
    running: Running<N>,
    // The number by which the media are known as they stood, if they got one.
    number: Option<u64>,
    likeness: Likeness,
}

impl<N: ServiceParameters, R: Wait + Copy> Model for Watch<N, R> {
    ghost use Rattle.std.specs.Prelude.{IfSome};
    ghost use Rattle.driver_threads.specs.Watched.{IsNumbered, WatchState, known_sectors};

    ghost Value = { WatchState };

    ghost view = { λ w. record { sectors = known_sectors w.running.witness.seat.view.edition; likeness = w.likeness } };

    ghost invariant = { λ w. IfSome w.number (λ n. IsNumbered w.running.witness.seat.view.edition n) };
}

impl<N: ServiceParameters> Running<N> {
    /// From now on what is read back is compared with the media as they stand now. It waits for the step of a driver.
    pub fn watch<R: Wait + Copy>(self, rt: R) -> Watch<N, R>
        ensures { result.likeness ≢ Likeness.Differs }
    {
        let mut running = self;
        let number = running.publish(&rt);
        let likeness = match number {
            Some(_) => Likeness::Same,
            None => Likeness::Unsure,
        };
        Watch {
            rt,
            running,
            number,
            likeness,
        }
    }
}

impl<N: ServiceParameters, R: Wait + Copy> Watch<N, R> {
    /// Compares bytes with those that the media have from this byte of the volume's range on. It waits for the step of a driver.
    ///
    /// It is unsure from then on where a driver may have written since the watch began, or the bytes don't lie within the range or the
    /// media; and once some bytes differ, or that isn't known, it looks at nothing more.
    pub fn compare(&mut self, start: u64, bytes: &[u8])
        ensures { Compares N.opening self.old start bytes.now self.new }
    {
        let Likeness::Same = self.likeness else {
            return;
        };
        self.likeness = match self.number {
            Some(number) => self.running.beside(&self.rt, number, start, bytes),
            None => Likeness::Unsure,
        };
    }

    /// The volume's range of the media, as `Running::range`.
    pub fn range(&self) -> (u32, u32)
        ensures { (result.0 ≡ N.opening.first) × (result.1 ≡ N.opening.count) }
    {
        self.running.range(&self.rt)
    }
}

impl<N: ServiceParameters, R: Threads + Wait + Copy> Watch<N, R> {
    /// Ends all drivers, joins all threads, and gives what `Running::stop` gives, and how all that was compared is beside the media that
    /// are given. The link has to be let go of before, and it waits until each `MediaHandle` was let go, as there.
    pub fn stop(self) -> (Media, Marks, Likeness)
        ensures kept { KeepsBut N.opening result.1 result.0 }
        ensures outside { KeepsOutside N.opening result.0 }
        ensures units { length result.1 ≡ (N.opening.count + 7) / 8 }
        ensures same { result.2 ≡ Likeness.Same → (self.likeness ≡ Likeness.Same) × (result.0.sectors ≡ self.sectors) }
        ensures differs { result.2 ≡ Likeness.Differs → (self.likeness ≡ Likeness.Differs) × (result.0.sectors ≡ self.sectors) }
    {
        let Watch {
            rt,
            running,
            number,
            likeness,
        } = self;
        let (mut confined, mut witness) = running.end(&rt);
        let likeness = witness.at_last(&mut confined, number, likeness);
        let (media, written) = confined.into_media();
        (media, written, likeness)
    }
}
