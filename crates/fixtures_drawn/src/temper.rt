//! How the threads are chosen.

use crate::draws::Draws;

/// How many drivers may fail or be stuck: the first ones.
pub const FAILING: usize = 8;

/// How likely the threads that stand at the gate are chosen, against each other.
#[derive(Clone, Copy)]
pub struct Temper {
    pub session: u32,
    pub flusher: u32,
    pub clock: u32,
    pub driver: u32,
    /// Whether the flusher writes all before the service is stopped.
    pub settles: bool,
    /// After how many choices each of the first drivers is stuck until a later one has come; 0 for never.
    pub stuck: [u32; FAILING],
}

/// After how many choices a driver is stuck; mostly never.
fn stuck(draws: &mut Draws) -> u32 {
    if draws.one_in(3) {
        draws.below(20).saturating_add(1)
    } else {
        0
    }
}

impl Temper {
    /// The next one.
    pub fn of(draws: &mut Draws) -> Temper {
        let mut temper = Temper {
            session: draws.below(6).saturating_add(1),
            flusher: draws.below(3).saturating_add(1),
            clock: draws.below(2).saturating_add(1),
            driver: draws.below(8).saturating_add(1),
            settles: draws.one_in(3),
            stuck: [0; FAILING],
        };
        for place in temper.stuck.iter_mut() {
            *place = stuck(draws);
        }
        temper
    }
}
