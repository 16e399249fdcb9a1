//! How the answer to a message goes on.

ghost use Rattle.std.specs.Prelude.{◌≡◌, ◌⊎◌};
ghost use Rattle.talks.specs.Talks.{IsDone};
ghost use Rattle.ninep_fids.specs.Knowledge.{Known};
ghost use Rattle.ninep_server.specs.Turns.{IsPlain};
ghost use Rattle.ninep_server.specs.Messages.{synced};
ghost use Rattle.ninep_server.specs.Progress.{Leaves, left_of_next, left_of_turn};

use crate::work::{Next, Work};
use ninep_fids::answer::{NinepAnswer, Said};
use talks::heard::Heard;
use talks::refused::Refused;

/// How the answer to a message goes on.
#[derive(Drop)]
pub(crate) enum Turn<'m> {
    /// It waits for this.
    Go(Work<'m>),
    /// It waits for a sync by this session.
    Sync(u8),
    /// It is known.
    Said(Said),
}

impl<'m> Turn<'m> {
    /// A refusal is an answer. None says that a sync was done.
    pub(crate) fn of(next: Result<Next<'m>, Refused>) -> Turn<'m>
        ensures plain { IsPlain result }
        ensures left { left_of_turn result ≡ left_of_next next.entry }
    {
        match next {
            Ok(Next::Go(work)) => Turn::Go(work),
            Ok(Next::Done(answer)) => Turn::Said(Said::Plain(answer)),
            Err(refused) => Turn::Said(Said::Plain(NinepAnswer::Refused(refused))),
        }
    }

    /// Behind a sync: that it was done, where it was, or why it wasn't.
    pub(crate) fn synced(heard: Heard) -> Turn<'m>
        ensures told { IsDone heard ⊎ IsPlain result }
        ensures left { (k : Known) → Leaves (synced heard) k (left_of_turn result) k }
    {
        let said = match heard.done() {
            Ok(()) => Said::Synced,
            Err(refused) => Said::Plain(NinepAnswer::Refused(refused)),
        };
        Turn::Said(said)
    }
}
