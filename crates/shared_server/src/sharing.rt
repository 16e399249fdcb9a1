//! What a server does for its sessions at its link, which keeps the record.

ghost use Rattle.std.specs.Prelude.{◌≡◌, ◌<◌, ◌↔◌, ◌∷◌, ℕ, List, IfOk, OnErr, IsErrOf, Some, false, true};
ghost use Rattle.tree.specs.Answers.{answer_of};
ghost use Rattle.records.specs.Marks.{Mark, Took};
ghost use Rattle.records.specs.Opening.{Opening};
ghost use Rattle.records.specs.Told.{took_end};
ghost use Rattle.board.specs.View.{without};
ghost use Rattle.board.specs.Steps.{SessionLearns, SessionIsNew};
ghost use Rattle.board.specs.Keeper.{AreAllUsed, IsLowestFree, IsOneFree};
ghost use Rattle.records.specs.Session.{tally_of};
ghost use Rattle.shared_server.specs.Recorder.{SameServer};

use crate::refusal::SessionRefusal;
use board::Seat;
use board::counting::parameters::ServiceParameters;
use board::counting::recorder::Recorder;
use file_server::FileServer;
use tree::{Call, Reply, Who};

/// A call of the caller's session was answered. The caller has then seen the whole record, its call last. Gives how many counted marks
/// it has, modulo 2^64.
pub fn count_call<N: ServiceParameters, L: Recorder<N>, S: FileServer<L>>(
    server: &mut S,
    caller: &mut Seat,
    who: Who,
    now: u32,
    call: &Call,
    reply: &Reply,
) -> u64
    requires { (caller.old.table ≡ N.table) × (caller.old.view.number ≡ Some who.session) }
    ensures same { SameServer L.Link S.Serve.serving S.line S.is_ready L.runs_on server.old server.new }
    ensures absorbed { S.absorbed server.new ≡ S.absorbed server.old }
    ensures truth { (v : Opening) (older : List Mark) → L.truth (S.line server.old) v older
        → L.truth (S.line server.new) v (Took who now call.now (answer_of reply.now) ∷ older) }
    ensures marks { L.marks (S.line server.new) ≡ Took who now call.now (answer_of reply.now) ∷ L.marks (S.line server.old) }
    ensures numbers { L.numbers (S.line server.new) ≡ L.numbers (S.line server.old) }
    ensures caller { (caller.new.table ≡ N.table) × (caller.new.view.number ≡ Some who.session) }
    ensures seen { caller.new.view.seen ≡ L.marks (S.line server.new) }
    ensures tally { result ≡ tally_of (L.marks (S.line server.new)) }
    ensures mine { caller.new.view.mine ≡ Took who now call.now (answer_of reply.now) ∷ caller.old.view.mine }
    ensures session { SessionLearns caller.old.view caller.new.view }
{
    server.link_mut().count_call(caller, who, now, call, reply)
}

/// The caller has then seen the whole record. Gives how many counted marks it has, modulo 2^64.
pub fn show<N: ServiceParameters, L: Recorder<N>, S: FileServer<L>>(
    server: &mut S,
    caller: &mut Seat,
) -> u64
    requires { caller.old.table ≡ N.table }
    ensures same { SameServer L.Link S.Serve.serving S.line S.is_ready L.runs_on server.old server.new }
    ensures absorbed { S.absorbed server.new ≡ S.absorbed server.old }
    ensures truth { (v : Opening) (older : List Mark) → L.truth (S.line server.old) v older → L.truth (S.line server.new) v older }
    ensures marks { L.marks (S.line server.new) ≡ L.marks (S.line server.old) }
    ensures numbers { L.numbers (S.line server.new) ≡ L.numbers (S.line server.old) }
    ensures caller { (caller.new.table ≡ N.table) × (caller.new.view.number ≡ caller.old.view.number) }
    ensures seen { caller.new.view.seen ≡ L.marks (S.line server.new) }
    ensures tally { result ≡ tally_of (L.marks (S.line server.new)) }
    ensures mine { caller.new.view.mine ≡ caller.old.view.mine }
    ensures session { SessionLearns caller.old.view caller.new.view }
{
    server.link_mut().show(caller)
}

/// A seat for a new session, with the lowest number that is free: 1 TooMany where 64 are in use, 2 Stopped where a take gave End. A refusal
/// changes nothing.
pub fn admit<N: ServiceParameters, L: Recorder<N>, S: FileServer<L>>(
    server: &mut S,
) -> Result<(u8, Seat, u64), SessionRefusal>
    ensures same { SameServer L.Link S.Serve.serving S.line S.is_ready L.runs_on server.old server.new }
    ensures absorbed { S.absorbed server.new ≡ S.absorbed server.old }
    ensures truth { (v : Opening) (older : List Mark) → L.truth (S.line server.old) v older → L.truth (S.line server.new) v older }
    ensures marks { L.marks (S.line server.new) ≡ L.marks (S.line server.old) }
    ensures too_many { IsErrOf result SessionRefusal.TooMany ↔ AreAllUsed (L.numbers (S.line server.old)) }
    ensures stopped { IsErrOf result SessionRefusal.Stopped
        ↔ ((took_end (L.Link.history (S.line server.old)) ≡ true) × IsOneFree (L.numbers (S.line server.old))) }
    ensures number { IfOk result (λ r. IsLowestFree r.0 (L.numbers (S.line server.old))
        × (L.numbers (S.line server.new) ≡ r.0 ∷ L.numbers (S.line server.old))) }
    ensures seat { IfOk result (λ r. (r.1.table ≡ N.table) × SessionIsNew r.0 r.1.view (L.marks (S.line server.old))) }
    ensures tally { IfOk result (λ r. r.2 ≡ tally_of (L.marks (S.line server.old))) }
    ensures refused { OnErr result (L.numbers (S.line server.new) ≡ L.numbers (S.line server.old)) }
{
    if server.link().is_full() {
        return Err(SessionRefusal::TooMany);
    }
    if server.link().has_ended() {
        return Err(SessionRefusal::Stopped);
    }
    server.link_mut().admit().ok_or(SessionRefusal::TooMany)
}

/// A session ends: its number is free again.
pub fn release<N: ServiceParameters, L: Recorder<N>, S: FileServer<L>>(
    server: &mut S,
    number: u8,
    caller: Seat,
)
    requires { (caller.table ≡ N.table) × (caller.view.number ≡ Some number) × (number < 64) }
    ensures same { SameServer L.Link S.Serve.serving S.line S.is_ready L.runs_on server.old server.new }
    ensures absorbed { S.absorbed server.new ≡ S.absorbed server.old }
    ensures truth { (v : Opening) (older : List Mark) → L.truth (S.line server.old) v older → L.truth (S.line server.new) v older }
    ensures marks { L.marks (S.line server.new) ≡ L.marks (S.line server.old) }
    ensures numbers { L.numbers (S.line server.new) ≡ without (Some number) (L.numbers (S.line server.old)) }
{
    server.link_mut().release(number, caller);
}
