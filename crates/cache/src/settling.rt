//! What a message does to the slots of blocks.

ghost use Rattle.std.specs.Prelude.{◌≡◌, ℕ, List};
ghost use Rattle.reissue.specs.Settlements.{Flush, End, settlement};
ghost use Rattle.cache.specs.Edits.{AllStay};
ghost use Rattle.cache.specs.Settling.{Settles, taking, took_of, is_ended_by, IsWantedFor};

use crate::Slots;
use reissue::{Settled, Ticket};

/// What came of a message.
#[derive(Clone, Copy, PartialEq, Eq)]
pub enum Took {
    /// No read was settled by it.
    Nothing,
    /// This read was settled: its bytes stand in the spare room.
    Read(Ticket),
}

/// Does with the slots what a message came to: after a write that is settled its slot's bytes are the disk's, unless they were changed
/// since it was begun. A Flush is noted. The spare room stays.
pub fn settle(slots: &mut Slots, flush: &mut bool, settled: Settled) -> Took
    ensures slots { (bytes : List ℕ) → Settles (settlement settled bytes) slots.old.items.items slots.new.items.items }
    ensures took { (bytes : List ℕ) → taking result bytes ≡ took_of (settlement settled bytes) }
    ensures stay { AllStay slots.old slots.new }
    ensures spare { slots.new.spare ≡ slots.old.spare }
    ensures wanted { (bytes : List ℕ) → IsWantedFor (settlement settled bytes ≡ Flush) flush.old flush.new }
    ensures end { (bytes : List ℕ) → settlement settled bytes ≡ End → slots.new ≡ slots.old }
{
    match settled {
        Settled::Nothing => Took::Nothing,
        Settled::Read(ticket) => Took::Read(ticket),
        Settled::Written(ticket) => {
            slots.settle(ticket);
            Took::Nothing
        }
        Settled::Flush => {
            *flush = true;
            Took::Nothing
        }
        Settled::GaveUp => Took::Nothing,
        Settled::End => Took::Nothing,
    }
}

/// Whether the link gives no message any more.
pub fn is_end(settled: &Settled) -> bool
    ensures { (bytes : List ℕ) → result ≡ is_ended_by (settlement settled.now bytes) }
{
    match settled {
        Settled::End => true,
        Settled::Nothing => false,
        Settled::Read(_) => false,
        Settled::Written(_) => false,
        Settled::Flush => false,
        Settled::GaveUp => false,
    }
}
