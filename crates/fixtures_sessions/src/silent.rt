//! A link to no driver.
ghost use Rattle.std.specs.Prelude.{◌≡◌, [], IfOk};
ghost use Rattle.board.specs.Steady.{enough_room};

use board::History;
use board::counting::steady::{Steady, Supplied};
use message::endpoint::Endpoint;
use message::{BlockRequest, Incoming};
use reissue::link::{Link, LinkRefusal};
use std::alloc::{AllocError, Global};

/// A link that has ended: it refuses each post, and each take gives End. Of any record it guarantees
/// nothing, and it says nothing of drivers.
#[derive(Drop)]
pub struct Silent {
    history: History,
}

impl Silent {
    /// It was told nothing yet.
    pub fn new(alloc: Global) -> Result<Silent, AllocError>
        ensures history { IfOk result (λ link. ⟦<Silent as Link>⟧.history link ≡ []) }
    {
        Ok(Silent {
            history: History::new(alloc)?,
        })
    }
}

impl Link for Silent {
    ghost history = { λ l. l.history };

    ghost budget_left = { λ l. 0 };

    ghost room = { λ l. 34 };

    ghost truth = { λ l opening marks. Unit {0} };

    ghost goes_on = { λ l m. Unit {0} };

    fn post(&mut self, to: Endpoint, request: &BlockRequest) -> Result<(), LinkRefusal> {
        self.history.posted(to, request, false);
        Err(LinkRefusal::DeadEndpoint)
    }

    fn complain(&mut self, about: Endpoint) {
        self.history.complained(about);
    }

    fn take(&mut self) -> Incoming {
        self.history.heard(&Incoming::End);
        Incoming::End
    }

    fn budget(&self) -> u64 {
        0
    }

    ghost stays = { λ l. tt };

    ghost joins = { λ a b c first next. tt };
}

impl Steady for Silent {
    fn aside(&mut self) -> Option<Incoming> {
        None
    }

    ghost rests = { λ l v marks who now call answer kept. tt };

    ghost flushes = { λ l v marks kept. tt };

    ghost has_room = { λ l. enough_room };
}

impl Supplied for Silent {
    ghost runs_on = { λ l policy supply. Unit {0} };

    ghost keeps_on = { λ l m policy supply goes runs. tt };
}
