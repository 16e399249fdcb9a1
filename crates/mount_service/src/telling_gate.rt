//! A gate that notes which drivers take the place of others.

use crate::teller::News;
use gate::bell::Bell;
use gate::{Gate, Point};
use std::sync::Arc;

/// A gate of a service that does as another one does, and notes each driver when it takes its first step, so that a teller tells it. It
/// waits for the other gate alone, and prints nothing.
#[derive(Drop)]
pub struct Telling<G> {
    gate: G,
    news: Arc<News>,
}

impl<G> Telling<G> {
    /// Drivers are noted in these news.
    pub(crate) fn new(gate: G, news: Arc<News>) -> Telling<G> {
        Telling { gate, news }
    }

    /// Notes the driver that comes to this place, if it is a step's.
    fn note(&self, at: Point) {
        if let Point::DriverStep(generation) = at {
            self.news.note(generation);
        }
    }
}

impl<G: Gate> Gate for Telling<G> {
    fn pass(&self, at: Point) {
        self.note(at);
        self.gate.pass(at);
    }

    fn pass_or_end(&self, at: Point, end: &Bell) {
        self.note(at);
        self.gate.pass_or_end(at, end);
    }
}
