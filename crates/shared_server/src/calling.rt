//! A call of a session.

ghost use Rattle.std.specs.Prelude.{◌≡◌, ◌↔◌, Some, true};
ghost use Rattle.records.specs.Told.{took_end};
ghost use Rattle.records.specs.Session.{tally_of};
ghost use Rattle.file_server.specs.Over.{outcome_in, outcome_of};
ghost use Rattle.shared_server.specs.Held.{AddsCall, HoldsIfTrue, IsEioOnceGivenUp, IsGuaranteed, IsHeld, IsServedCall, IsSound};

use crate::sharing::{count_call, show};
use board::Seat;
use board::counting::parameters::ServiceParameters;
use board::counting::recorder::Recorder;
use file_server::{Ending, FileServer};
use tree::{Call, Outcome, Reply, Who};

/// A call of the session that has this seat, which has then seen the whole record. An answer is a mark of it, the last; a cut isn't. No
/// other call is made meanwhile, and no number is given to a session or freed. The reply goes to `reply`, and to `tally` how many counted
/// marks the record has, modulo 2^64. The server stands with its record as before.
pub fn make_call<N: ServiceParameters, L: Recorder<N>, S: FileServer<L>>(
    server: &mut S,
    seat: &mut Seat,
    who: Who,
    now: u32,
    call: &Call,
    reply: &mut Reply,
    tally: &mut u64,
) -> Ending
    requires held { IsHeld N.ServiceParameters L.Link S.Serve.serving S.line S.is_ready S.knows L.runs_on L.marks server.old }
    requires seat { (seat.old.table ≡ N.table) × (seat.old.view.number ≡ Some who.session) }
    ensures held { IsHeld N.ServiceParameters L.Link S.Serve.serving S.line S.is_ready S.knows L.runs_on L.marks server.new }
    ensures absorbed { S.absorbed server.new ≡ S.absorbed server.old }
    ensures seat { (seat.new.table ≡ N.table) × (seat.new.view.number ≡ Some who.session) }
    ensures call { IsServedCall N.geometry N.opening who now call.now seat.old.view (outcome_of (outcome_in result reply.new)) seat.new.view }
    ensures added { AddsCall who now call.now (outcome_of (outcome_in result reply.new)) (L.marks (S.line server.old)) (L.marks (S.line server.new)) }
    ensures numbers { L.numbers (S.line server.new) ≡ L.numbers (S.line server.old) }
    ensures seen { seat.new.view.seen ≡ L.marks (S.line server.new) }
    ensures tally { tally.new ≡ tally_of seat.new.view.seen }
    ensures sound { IsSound seat.new.view.seen }
    ensures guaranteed { IsGuaranteed L.truth N.opening seat.new.view.seen }
    ensures truth { L.truth (S.line server.new) N.opening (L.marks (S.line server.new)) }
    ensures volume { HoldsIfTrue N.geometry N.opening seat.new.view.seen }
    ensures cut { (outcome_in result reply.new ≡ Outcome.Cut) ↔ (took_end (L.Link.history (S.line server.new)) ≡ true) }
    ensures eio { IsEioOnceGivenUp (outcome_in result reply.new) seat.new.view.seen }
{
    match server.call(who, now, call, reply) {
        Ending::Answered => {
            *tally = count_call(server, seat, who, now, call, reply);
            Ending::Answered
        }
        Ending::Cut => {
            *tally = show(server, seat);
            Ending::Cut
        }
    }
}
