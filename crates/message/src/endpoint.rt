//! Endpoints: who sends, and who is sent to. Each slot has one process at a time, and its starts are numbered.

ghost use Rattle.std.specs.Prelude.{◌≡◌, Some};
ghost use Rattle.message.specs.Slots.{StartAnswers, endpoint_text, no_starts, is_last_start, refusal_number};

use std::fmt;
use std::marker::Model;
use thiserror::Error;

/// How many slots there are; they are numbered from 0.
pub const SLOTS: usize = 16;

/// The disk driver's slot.
pub const DISK_DRIVER: u16 = 1;

/// A process that takes messages. Its text is the slot, a dot and the generation.
#[derive(Clone, Copy, Debug, PartialEq, Eq)]
pub struct Endpoint {
    /// 0 to 15.
    pub slot: u16,
    /// 1 at the slot's first start, one more at each later one.
    pub generation: u32,
}

impl fmt::Display for Endpoint {
    ghost output = { λ e. Some (endpoint_text e) };

    fn fmt<W: fmt::Write>(&self, f: &mut fmt::Formatter<W>) -> fmt::Result {
        write!(f, "{}.{}", self.slot, self.generation)
    }
}

/// Why a slot isn't started. The slots stay as they were.
#[derive(Clone, Copy, Debug, PartialEq, Eq, Error)]
pub enum SlotRefusal {
    /// The slot is past the last one.
    #[error("NoSuchSlot")]
    NoSuchSlot,
    /// The slot's last generation was 4294967295, the greatest there is.
    #[error("GenerationsSpent")]
    GenerationsSpent,
}

impl SlotRefusal {
    /// Its number: 1 or 2.
    pub fn number(self) -> u32
        ensures { result ≡ refusal_number self }
    {
        match self {
            SlotRefusal::NoSuchSlot => 1,
            SlotRefusal::GenerationsSpent => 2,
        }
    }
}

/// The slots, and the generation that each one was started with last (0: never).
#[derive(Clone, Debug, Drop)]
pub struct Slots {
    generations: [u32; 16],
}

impl Model for Slots {
    ghost use Rattle.std.specs.Prelude.{ℕ, List};

    ghost Value = { List ℕ };

    ghost view = { λ s. s.generations };
}

impl Slots {
    /// Sixteen slots, none of which was started.
    pub fn new() -> Slots
        ensures { result ≡ no_starts }
    {
        Slots {
            generations: [0; SLOTS],
        }
    }

    /// Starts the slot anew: its generation is one above its last, and 1 at first.
    pub fn start(&mut self, slot: u16) -> Result<Endpoint, SlotRefusal>
        ensures { StartAnswers self.old slot result self.new }
    {
        let at = usize::from(slot);
        if at >= SLOTS {
            return Err(SlotRefusal::NoSuchSlot);
        }
        let Some(generation) = self.generations[at].checked_add(1) else {
            return Err(SlotRefusal::GenerationsSpent);
        };
        self.generations[at] = generation;
        Ok(Endpoint { slot, generation })
    }

    /// Whether this is the endpoint that the last start of its slot gave.
    pub fn is_current(&self, endpoint: Endpoint) -> bool
        ensures { result ≡ is_last_start self.now endpoint }
    {
        match self.generations.get(usize::from(endpoint.slot)) {
            Some(last) => endpoint.generation != 0 && endpoint.generation == *last,
            None => false,
        }
    }
}
