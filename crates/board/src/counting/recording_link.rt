//! A link that counts on the board what goes over another link.

ghost use Rattle.std.specs.Prelude.{◌≡◌, ◌∷◌, [], List, Some, IfOk, refl, if◌then◌else◌};
ghost use Rattle.std.specs.Arc.{arc_value};
ghost use Rattle.records.specs.Marks.{Mark, Took, IsBeginning};
ghost use Rattle.records.specs.Opening.{Opening};
ghost use Rattle.records.specs.Told.{took_end};
ghost use Rattle.tree.specs.Answers.{answer_of};
ghost use Rattle.board.specs.View.{IsKeeper, opener};
ghost use Rattle.board.specs.Steps.{SessionLearns};
ghost use Rattle.file_server.specs.Leaving.{IsEndLast};
ghost use Rattle.trace_digest.specs.Heard.{IsHeard};
ghost use Rattle.board.specs.Keeper.{record_of, numbers_of, begins_itself, begins_further, stays_further};
ghost use Rattle.board.specs.Written.{AreWritten};

use crate::counting::keeper::Keeper;
use crate::counting::parameters::ServiceParameters;
use crate::counting::recorder::Recorder;
use crate::counting::steady::{Steady, Supplied};
use crate::counting::written::{mark_written, none_written};
use crate::{Board, Seat};
use changes::Marks;
use message::endpoint::Endpoint;
use message::{BlockRequest, Incoming};
use reissue::link::{Link, LinkRefusal, TrueLink};
use std::alloc::{AllocError, Global};
use std::sync::Arc;
use trace_digest::TraceDigest;
use tree::{Call, Reply, Who};

/// A link that has the record's seat of the service's board. Over it goes what goes over the link in it. Each request that is issued it
/// adds to the board's record, and each message that leaves a mark, which is counted. After an End it takes nothing from the link in it:
/// its budget is spent. It takes no memory but when it is made.
///
/// What it guarantees of a record is what the link in it does, that the record is what the seat has seen, and that nothing was taken after
/// an End.
#[derive(Drop)]
pub struct RecordingLink<N: ServiceParameters, L: Link> {
    pub(crate) link: L,
    pub(crate) keeper: Keeper<N>,
    pub(crate) heard: TraceDigest,
    // A take gave End.
    pub(crate) ended: bool,
    // The units of the volume's range in which the writes have a byte that were issued.
    pub(crate) written: Marks,
    ghost told: { ended ≡ took_end (L.history link) },
    ghost writes: { AreWritten written (record_of keeper) },
}

impl<N: ServiceParameters, L: Link> RecordingLink<N, L> {
    /// A link over this one, which was told nothing and gave nothing yet, that counts on the service's board, with the record's seat of
    /// that board, which is new. Where no memory was found, the link and the seat are let go.
    pub fn new(
        alloc: Global,
        link: L,
        board: Arc<Board>,
        seat: Seat,
    ) -> Result<RecordingLink<N, L>, AllocError>
    where
        L: Drop,
        requires board { arc_value board ≡ N.table }
        requires seat { IsKeeper N.table seat × (seat.view ≡ opener) }
        requires fresh { L.history link ≡ [] }
        ensures history { IfOk result (λ n. ⟦<RecordingLink<N, L> as Link>⟧.history n ≡ L.history link) }
        ensures budget { IfOk result (λ n. ⟦<RecordingLink<N, L> as Link>⟧.budget_left n ≡ L.budget_left link) }
        ensures room { IfOk result (λ n. ⟦<RecordingLink<N, L> as Link>⟧.room n ≡ L.room link) }
        ensures truth { IfOk result (λ n. (v : Opening) → L.truth link v [] → ⟦<RecordingLink<N, L> as Link>⟧.truth n v []) }
        ensures link { IfOk result (λ n. n.link ≡ link) }
        ensures record_is { IfOk result (λ n. record_of n.keeper ≡ []) }
        ensures numbers { IfOk result (λ n. numbers_of n.keeper ≡ []) }
    {
        Ok(RecordingLink {
            link,
            keeper: Keeper::new(board, seat),
            heard: TraceDigest::new(alloc)?,
            ended: false,
            written: none_written(alloc)?,
        })
    }
}

impl<N: ServiceParameters, L: Link> Link for RecordingLink<N, L> {
    ghost history = { λ l. L.history l.link };

    ghost budget_left = { λ l. if l.ended then 0 else L.budget_left l.link };

    ghost room = { λ l. L.room l.link };

    ghost truth = { λ l v marks. L.truth l.link v marks × (record_of l.keeper ≡ marks) × IsHeard l.heard marks
        × IsEndLast (L.history l.link) };

    // The link in it goes on, the record grows, and the numbers of sessions stay.
    ghost goes_on = { λ l m. L.goes_on l.link m.link × IsBeginning (record_of l.keeper) (record_of m.keeper)
        × (numbers_of m.keeper ≡ numbers_of l.keeper) };

    fn post(&mut self, to: Endpoint, request: &BlockRequest) -> Result<(), LinkRefusal> {
        let posted = self.link.post(to, request);
        if posted.is_ok() {
            self.keeper.issue(request, to);
            self.heard.issued(request);
            mark_written(&mut self.written, request);
        }
        posted
    }

    fn complain(&mut self, about: Endpoint) {
        self.link.complain(about);
    }

    fn take(&mut self) -> Incoming {
        let mut message = Incoming::End;
        self.take_into(&mut message);
        message
    }

    fn take_into(&mut self, message: &mut Incoming) {
        if self.ended {
            *message = Incoming::End;
            return;
        }
        self.link.take_into(message);
        self.ended = matches!(message, Incoming::End);
        if self.heard.leaves_mark(message) {
            self.keeper.note(message);
            self.heard.takes(message);
        }
    }

    fn budget(&self) -> u64 {
        if self.ended { 0 } else { self.link.budget() }
    }

    ghost stays = { λ l. (L.stays l.link, begins_itself (record_of l.keeper), refl) };

    ghost joins = { λ l m n first next. (
      L.joins l.link m.link n.link first.0 next.0,
      begins_further (record_of l.keeper) (record_of m.keeper) (record_of n.keeper) first.1 next.1,
      stays_further (numbers_of l.keeper) (numbers_of m.keeper) (numbers_of n.keeper) first.2 next.2,
    ) };
}

impl<N: ServiceParameters, L: TrueLink> TrueLink for RecordingLink<N, L> {
    ghost replies_are_true = { λ l v marks truth. L.replies_are_true l.link v marks truth.0 };
}

impl<N: ServiceParameters, L: Supplied> Supplied for RecordingLink<N, L> {
    ghost runs_on = { λ l policy supply. L.runs_on l.link policy supply };

    ghost keeps_on = { λ l m policy supply goes. L.keeps_on l.link m.link policy supply goes.0 };
}

impl<N: ServiceParameters, L: Steady + Supplied + Drop> Recorder<N> for RecordingLink<N, L> {
    ghost marks = { λ l. record_of l.keeper };

    ghost numbers = { λ l. numbers_of l.keeper };

    fn count_call(
        &mut self,
        caller: &mut Seat,
        who: Who,
        now: u32,
        call: &Call,
        reply: &Reply,
    ) -> u64 {
        self.keeper.count(caller, who, now, call, reply)
    }

    fn show(&mut self, caller: &mut Seat) -> u64 {
        self.keeper.show(caller)
    }

    fn note_flush(&mut self) {
        self.keeper.note(&Incoming::Flush);
        self.heard.takes(&Incoming::Flush);
    }

    fn aside(&mut self) -> Option<Incoming> {
        let message = self.link.aside()?;
        if self.heard.leaves_mark(&message) {
            self.keeper.note(&message);
            self.heard.takes(&message);
        }
        Some(message)
    }

    fn has_ended(&self) -> bool {
        self.ended
    }

    fn written(&self) -> &Marks {
        &self.written
    }

    fn is_full(&self) -> bool {
        self.keeper.is_full()
    }

    fn has_sessions(&self, but: Option<u8>) -> bool {
        self.keeper.has_sessions(but)
    }

    fn admit(&mut self) -> Option<(u8, Seat, u64)> {
        self.keeper.admit()
    }

    fn release(&mut self, number: u8, caller: Seat) {
        self.keeper.release(number, caller);
    }

    ghost is_record = { λ link v older truth. truth.1 };

    ghost is_roomy = { λ link. L.has_room link.link };

    ghost numbers_stay = { λ l m goes. goes.2 };

    ghost end_last = { λ link v older truth. truth.3 };
}
