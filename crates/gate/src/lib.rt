//! Where the threads of a service ask before they go on, so that a test can hold one of them back, and a program sets their pace.
#![tactic(auto)]

pub mod bell;
pub mod paced_gate;

use bell::Bell;

/// A place at which a thread of a service asks its gate.
#[derive(Clone, Copy, Debug, PartialEq, Eq)]
pub enum Point {
    /// The driver of this generation is about to take a step.
    DriverStep(u32),
    /// The flusher is about to take its turn.
    FlusherTurn,
    /// The reincarnation server is about to let a tick pass.
    Tick,
}

/// What the threads of a service ask before they go on. Each pass at `Tick` is one tick of the restart policy's clock: so the gate says how
/// long a tick is, and with it how soon a driver that doesn't beat counts as hung.
pub trait Gate: Send + Sync + Drop {
    /// Comes back when the thread may go on. It is asked under no lock.
    fn pass(&self, at: Point);

    /// The same for a thread that ends once this bell is rung: a gate that lets time pass comes back then at once.
    fn pass_or_end(&self, at: Point, _end: &Bell) {
        self.pass(at);
    }
}

/// A gate that holds nobody back. Ticks pass as fast as they can under it, so a driver that has no time to beat is soon replaced.
#[derive(Clone, Copy, Drop)]
pub struct Open;

impl Gate for Open {
    fn pass(&self, _: Point) {}
}
