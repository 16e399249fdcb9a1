//! What each event keeps, each a law of the definitions.

ghost use Rattle.simulated_link.specs.Kept.{EventsKeep, EventsKeepSectors, EventsNoteAside, OpeningKeeps};

/// What holds of the drivers and of the server's record holds after each event, with the message that it brings.
#[tactic(auto, using(crate::proofs::Keeping::events_keep))]
pub fn events_keep()
    ensures { EventsKeep }
{}

/// Each event leaves the number of the media's sectors.
#[tactic(auto, using(crate::proofs::Sectors::events_keep_sectors))]
pub fn events_keep_sectors()
    ensures { EventsKeepSectors }
{}

/// What an event notes changes nothing of what the server knows.
#[tactic(auto, using(crate::proofs::Keeping::events_note_aside))]
pub fn events_note_aside()
    ensures { EventsNoteAside }
{}

/// What holds of the drivers and of the server's record holds before the first event, over the media that were handed in.
#[tactic(auto, using(crate::proofs::Keeping::opening_keeps))]
pub fn opening_keeps()
    ensures { OpeningKeeps }
{}
