//! What is read back of a volume, compared with the media as it comes.

ghost use Rattle.driver_threads.specs.Watched.{Compares};

use board::counting::parameters::ServiceParameters;
use driver_threads::watch::Watch;
use std::sync::Wait;
use volume_reading::Takes;

/// Compares each piece of a volume with the media as it was read back, and keeps none of it.
pub(crate) struct Comparer<N: ServiceParameters, R: Wait + Copy> {
    pub(crate) watch: Watch<N, R>,
}

impl<N: ServiceParameters, R: Wait + Copy> Takes for Comparer<N, R> {
    ghost takes = { λ s p t. Compares N.opening s.watch p.start p.bytes t.watch };

    fn take(&mut self, start: u64, bytes: &[u8]) {
        self.watch.compare(start, bytes);
    }
}
