//! Sessions whose calls are made at one time.

ghost use Rattle.std.specs.Prelude.{◌≡◌, ◌<◌, ℕ, All, IfOk, OnErr, Result, length, map, slice_index_or, vec_len};
ghost use Rattle.std.specs.Option.{option_map};
ghost use Rattle.std.specs.List.{list_any};
ghost use Rattle.tools.specs.Made.{Calls, Plays, cuts, has_eio};
ghost use Rattle.tools.specs.Turns.{ArePlayed, HaveEnded, HaveMet, IsTaken, IsUnplayed, asked, seen_by};

use crate::scripts::client::Client;
use call_text::scripts::timed::TimedCall;
use errno::Errno;
use reply_text::answers::Played;
use reply_text::outcomes::Outcomes;
use std::alloc::{AllocError, Global};
use std::thread;
use std::thread::Threads;
use tree::Outcome;

/// A session, and the calls that are to be made in it.
#[derive(Drop)]
pub struct Turn<'t, C: Client> {
    /// The session, which has made no call.
    pub client: C,
    /// The calls, in their order.
    pub calls: Vec<TimedCall<'t>>,
}

/// A session whose calls were made, and what came of them.
#[derive(Drop)]
pub struct Taken<C: Client> {
    /// The session.
    pub client: C,
    /// Its number, and the outcomes of its calls.
    pub played: Played,
}

/// Makes the calls of each session, each in a thread of its own where threads can be made; then the sessions meet, so that all have seen
/// one record, and all end but the last. Gives what came of each, in their order, and the last session, which goes on.
///
/// From the first call of a session that is cut on all its calls are. An error: no memory was found; some calls may have been made then.
pub fn play_together<R: Threads + Sync, C: Client>(
    rt: &R,
    alloc: Global,
    turns: Vec<Turn<'_, C>>,
) -> Result<(Vec<Played>, Option<C>), AllocError>
    requires { All (λ turn. IsUnplayed C.vouches (C.state turn.client)) turns.items }
    ensures { IfOk result (λ came. ArePlayed C.vouches C.ended (map (asked C.state) turns.entry.items) came.0.items
        (seen_by (option_map C.state came.1))) }
{
    let mut results = take_each(rt, alloc, turns)?;
    let Some(last) = results.pop() else {
        return Ok((Vec::new(alloc), None));
    };
    let Taken { mut client, played } = last?;
    let others = meet_each(alloc, &mut client, results)?;
    let mut all = end_each(alloc, &mut client, others)?;
    all.push(played)?;
    Ok((all, Some(client)))
}

/// Makes the calls of each turn, each in a thread of its own where threads can be made. What came of each, in their order.
fn take_each<R: Threads + Sync, C: Client>(
    rt: &R,
    alloc: Global,
    turns: Vec<Turn<'_, C>>,
) -> Result<Vec<Result<Taken<C>, AllocError>>, AllocError>
    requires { All (λ turn. IsUnplayed C.vouches (C.state turn.client)) turns.items }
    ensures len { IfOk result (λ results. vec_len results ≡ vec_len turns.entry) }
    ensures each { IfOk result (λ results. (i : ℕ) (r : Result (Taken C) AllocError) (t : Turn C) → i < length turns.entry.items
        → IsTaken C.vouches C.ended C.state (asked C.state (slice_index_or turns.entry.items i t)) (slice_index_or results.items i r)) }
{
    thread::map_vec(
        rt,
        turns,
        &|turn: Turn<'_, C>| -> Result<Taken<C>, AllocError>
            requires { IsUnplayed C.vouches (C.state turn.client) }
            ensures { IsTaken C.vouches C.ended C.state (asked C.state turn.entry) result }
        { take(alloc, turn) },
    )
}

/// Makes the calls of a turn.
fn take<C: Client>(alloc: Global, turn: Turn<'_, C>) -> Result<Taken<C>, AllocError>
    requires { IsUnplayed C.vouches (C.state turn.client) }
    ensures { IsTaken C.vouches C.ended C.state (asked C.state turn.entry) result }
{
    let Turn { mut client, calls } = turn;
    let played = play_turn(alloc, &mut client, calls.as_slice())?;
    Ok(Taken { client, played })
}

/// Each of the others meets the session, which has then seen what each of them had, the last one first. The others, in reverse.
fn meet_each<C: Client>(
    alloc: Global,
    client: &mut C,
    results: Vec<Result<Taken<C>, AllocError>>,
) -> Result<Vec<Taken<C>>, AllocError>
    ensures { IfOk result (λ others.
        HaveMet C.vouches C.ended C.state (C.state client.old) results.items (C.state client.new) others.items) }
{
    let mut others = Vec::new(alloc);
    let mut left = results;
    while let Some(result) = left.pop() {
        let mut other = result?;
        client.meet(&mut other.client);
        others.push(other)?;
    }
    Ok(others)
}

/// Each of the others meets the session and ends, from the end on. What came of each.
fn end_each<C: Client>(
    alloc: Global,
    client: &mut C,
    others: Vec<Taken<C>>,
) -> Result<Vec<Played>, AllocError>
    ensures { IfOk result (λ played.
        HaveEnded C.vouches C.ended C.state (C.state client.old) others.items (C.state client.new) played.items) }
{
    let mut all = Vec::new(alloc);
    let mut left = others;
    while let Some(other) = left.pop() {
        let Taken {
            client: mut met,
            played,
        } = other;
        client.meet(&mut met);
        met.end();
        all.push(played)?;
    }
    Ok(all)
}

/// Makes a session's calls.
fn play_turn<C: Client>(
    alloc: Global,
    client: &mut C,
    calls: &[TimedCall<'_>],
) -> Result<Played, AllocError>
    ensures played { IfOk result (λ played. Plays C.vouches C.ended (C.state client.old) calls.now played.outcomes.items
        (C.state client.new) × (played.number ≡ (C.state client.old).knows.number)) }
    ensures unplayed { OnErr result (client.new ≡ client.old) }
{
    let number = client.number();
    let outcomes = make_calls(alloc, client, calls)?;
    Ok(Played { number, outcomes })
}

/// Makes these calls in a session, one after the other; from the first that is cut on all are. Without memory for the outcomes none is
/// made, and the session is as it was.
pub fn make_calls<C: Client>(
    alloc: Global,
    client: &mut C,
    calls: &[TimedCall<'_>],
) -> Result<Outcomes, AllocError>
    ensures made { IfOk result (λ outcomes. Plays C.vouches C.ended (C.state client.old) calls.now outcomes.items (C.state client.new)) }
    ensures none_made { OnErr result (client.new ≡ client.old) }
{
    let mut outcomes = Outcomes::with_capacity(alloc, calls.len())?;
    let mut cut = false;
    for timed in calls {
        let outcome = call_unless(cut, client, timed);
        cut = is_cut(&outcome);
        outcomes.push_reserved(outcome);
    }
    Ok(outcomes)
}

/// A call, unless an earlier one was cut.
fn call_unless<C: Client>(cut: bool, client: &mut C, timed: &TimedCall<'_>) -> Outcome
    ensures { Calls C.vouches C.ended (C.state client.old) cut timed.now result (C.state client.new) }
{
    if cut {
        Outcome::Cut
    } else {
        client.call(timed.time, &timed.call)
    }
}

/// Whether a call was cut.
fn is_cut(outcome: &Outcome) -> bool
    ensures { result ≡ cuts outcome.now }
{
    matches!(outcome, Outcome::Cut)
}

/// Whether some call was answered EIO, as each is once the device was given up.
pub fn has_eio(played: &[Played]) -> bool
    ensures { result ≡ list_any has_eio played.now }
{
    played.iter().any(|session| answers_eio(session))
}

/// Whether some call of a session was answered EIO.
fn answers_eio(session: &Played) -> bool
    ensures { result ≡ has_eio session.now }
{
    session.outcomes.has_errno(Errno::EIO)
}
