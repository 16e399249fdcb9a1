//! Writing back what was changed.
#![tactic(auto)]

ghost use Rattle.std.specs.Prelude.{◌≡◌, ◌<◌, ◌≤◌, Ok, IfErr, OnOk};
ghost use Rattle.cache.specs.Calls.{caching, held_by, frame_count, IsReady, IsLive, IsStuck, IsWhyCut, IsFrame, PostsAlone, Does, Keeps};
ghost use Rattle.cache.specs.Calls.{LinkGoesOn, WantsFlush, messages_left};
ghost use Rattle.reissue.specs.Transfers.{begun_in};
ghost use Rattle.cache.specs.Takes.{NoReadBegun};
ghost use Rattle.cache.specs.Edits.{AllClean, SomeUnclean};
ghost use Rattle.cache.specs.Looking.{IsSettled};
ghost use Rattle.cache.specs.declared.frame.Frame.{Frame};
ghost use Rattle.flusher.specs.Flushing.{WritesLowest, WritesInRuns, BeginsAll, WritesNext, MakesWay, Syncs};

use block_store::Cut;
use cache::Cache;
use reissue::Link;
use step_count::Steps;

/// Of how many frames a flush, and one that makes way, begins the writes at most.
const MOST_FRAMES: u32 = 16;
/// Of how many frames a sync begins the writes at most before it looks whether all is clean: sixteen requests, which are all that may be
/// pending, have no more blocks, since each has eight sectors at most.
const AT_ONCE: u32 = 128;

/// Begins the writes of dirty frames, `most` at most, the lowest block first, in runs: neighbouring dirty frames whose writes aren't under
/// way go in one request, as many as fit. It waits for none: no message is taken. It stops early where none is dirty, where the next run
/// was refused since sixteen requests are pending or a byte of it is, or where no message comes any more: where `most` is 128 or more, only
/// then. Whether a Flush is wanted stays as it is.
fn begin_runs<L: Link>(cache: &mut Cache<L>, most: u32)
    requires ready { IsReady (caching L.Link cache.old) }
    ensures keeps { Keeps (caching L.Link cache.old) (caching L.Link cache.new) }
    ensures goes { LinkGoesOn L.Link cache.old cache.new }
    ensures count { frame_count cache.new ≡ frame_count cache.old }
    ensures posts { PostsAlone (caching L.Link cache.old) (caching L.Link cache.new) }
    ensures issued { WritesLowest most (held_by cache.old) (held_by cache.new) }
    ensures runs { WritesInRuns most (caching L.Link cache.old) (caching L.Link cache.new) }
    ensures left { messages_left (caching L.Link cache.new) ≤ messages_left (caching L.Link cache.old) }
    ensures stuck { IsLive (caching L.Link cache.new) → BeginsAll most (held_by cache.old) (caching L.Link cache.new) }
    ensures full { 128 ≤ most → IsLive (caching L.Link cache.new) → IsStuck (caching L.Link cache.new) }
    ensures frames { (f : Frame) → IsFrame cache.old f → IsFrame cache.new f }
    ensures flush { cache.new.flush ≡ cache.old.flush }
    ensures uses { cache.new.slots.uses ≡ cache.old.slots.uses }
    ensures reads { NoReadBegun (begun_in cache.old.transfers) (begun_in cache.new.transfers) }
    ensures at_once { AllClean (held_by cache.old) → cache.new ≡ cache.old }
{
    let mut left = most;
    'runs: while left > 0 {
        let begun = cache.write_run(left);
        if begun == 0 {
            return;
        }
        left -= begun;
    }
}

/// Begins the writes of dirty frames, sixteen at most, the lowest block first, in runs: neighbouring dirty frames whose writes aren't under
/// way go in one request, as many as fit. It waits for none: no message is taken. It stops early where none is dirty, where the next run
/// was refused since sixteen requests are pending or a byte of it is, or where no message comes any more. Whether a Flush is wanted stays
/// as it is.
pub fn flush_some<L: Link>(cache: &mut Cache<L>)
    requires ready { IsReady (caching L.Link cache.old) }
    ensures keeps { Keeps (caching L.Link cache.old) (caching L.Link cache.new) }
    ensures goes { LinkGoesOn L.Link cache.old cache.new }
    ensures count { frame_count cache.new ≡ frame_count cache.old }
    ensures posts { PostsAlone (caching L.Link cache.old) (caching L.Link cache.new) }
    ensures issued { WritesLowest 16 (held_by cache.old) (held_by cache.new) }
    ensures runs { WritesInRuns 16 (caching L.Link cache.old) (caching L.Link cache.new) }
    ensures left { messages_left (caching L.Link cache.new) ≤ messages_left (caching L.Link cache.old) }
    ensures stuck { IsLive (caching L.Link cache.new) → BeginsAll 16 (held_by cache.old) (caching L.Link cache.new) }
    ensures frames { (f : Frame) → IsFrame cache.old f → IsFrame cache.new f }
    ensures flush { cache.new.flush ≡ cache.old.flush }
    ensures uses { cache.new.slots.uses ≡ cache.old.slots.uses }
    ensures reads { NoReadBegun (begun_in cache.old.transfers) (begun_in cache.new.transfers) }
    ensures at_once { AllClean (held_by cache.old) → cache.new ≡ cache.old }
{
    begin_runs(cache, MOST_FRAMES);
}

/// Begins the writes of dirty frames, sixteen at most, the lowest block from this one on first. It waits for none: no message is taken. It
/// stops early where none from there on is dirty, where the next one was refused since sixteen requests are pending or a byte of it is, or
/// where no message comes any more. Whether a Flush is wanted stays as it is.
#[inline(never)]
fn begin_from<L: Link>(cache: &mut Cache<L>, from: u32)
    requires ready { IsReady (caching L.Link cache.old) }
    ensures keeps { Keeps (caching L.Link cache.old) (caching L.Link cache.new) }
    ensures goes { LinkGoesOn L.Link cache.old cache.new }
    ensures count { frame_count cache.new ≡ frame_count cache.old }
    ensures posts { PostsAlone (caching L.Link cache.old) (caching L.Link cache.new) }
    ensures begun { WritesNext 16 from (held_by cache.old) (caching L.Link cache.new) }
    ensures left { messages_left (caching L.Link cache.new) ≤ messages_left (caching L.Link cache.old) }
    ensures frames { (f : Frame) → IsFrame cache.old f → IsFrame cache.new f }
    ensures flush { cache.new.flush ≡ cache.old.flush }
    ensures uses { cache.new.slots.uses ≡ cache.old.slots.uses }
    ensures reads { NoReadBegun (begun_in cache.old.transfers) (begun_in cache.new.transfers) }
    ensures at_once { AllClean (held_by cache.old) → cache.new ≡ cache.old }
{
    'frames: for _ in 0..MOST_FRAMES {
        match cache.write_next(from) {
            Some(_) => {}
            None => return,
        }
    }
}

/// Makes way for a block that is to be given a frame and has none: where the frame that goes next has to be written first, and its write
/// isn't under way, begins it and the writes of the dirty frames with the next higher blocks, sixteen at most, as `begin_from` does. So the
/// frames that go then are clean soon. Else it changes nothing.
#[inline]
pub fn make_way<L: Link>(cache: &mut Cache<L>, block: u32)
    requires ready { IsReady (caching L.Link cache.old) }
    ensures keeps { Keeps (caching L.Link cache.old) (caching L.Link cache.new) }
    ensures goes { LinkGoesOn L.Link cache.old cache.new }
    ensures count { frame_count cache.new ≡ frame_count cache.old }
    ensures posts { PostsAlone (caching L.Link cache.old) (caching L.Link cache.new) }
    ensures way { MakesWay block cache.old cache.new (caching L.Link cache.new) }
    ensures left { messages_left (caching L.Link cache.new) ≤ messages_left (caching L.Link cache.old) }
    ensures frames { (f : Frame) → IsFrame cache.old f → IsFrame cache.new f }
    ensures flush { cache.new.flush ≡ cache.old.flush }
    ensures uses { cache.new.slots.uses ≡ cache.old.slots.uses }
    ensures reads { NoReadBegun (begun_in cache.old.transfers) (begun_in cache.new.transfers) }
    ensures at_once { AllClean (held_by cache.old) → cache.new ≡ cache.old }
{
    let Some(from) = cache.due() else {
        return;
    };
    match cache.find(block, &mut Steps::new()) {
        Some(_) => {}
        None => begin_from(cache, from),
    }
}

/// Takes a message of a sync: only where no further write can be begun before it, and some frame isn't the disk's yet. The bytes of a read
/// that it settles are let go.
fn take_next<L: Link>(cache: &mut Cache<L>) -> Result<(), Cut>
    requires ready { IsReady (caching L.Link cache.old) }
    requires stuck { IsLive (caching L.Link cache.old) → IsStuck (caching L.Link cache.old) }
    requires unclean { SomeUnclean (held_by cache.old) }
    ensures keeps { Keeps (caching L.Link cache.old) (caching L.Link cache.new) }
    ensures goes { LinkGoesOn L.Link cache.old cache.new }
    ensures count { frame_count cache.new ≡ frame_count cache.old }
    ensures left { OnOk result (messages_left (caching L.Link cache.new) < messages_left (caching L.Link cache.old)) }
    ensures cut { IfErr result (λ cut. IsWhyCut (caching L.Link cache.new) cut) }
    ensures frames { (f : Frame) → IsFrame cache.old f → IsFrame cache.new f }
    ensures flush { WantsFlush L.Link cache.old cache.new }
    ensures uses { cache.new.slots.uses ≡ cache.old.slots.uses }
    ensures reads { NoReadBegun (begun_in cache.old.transfers) (begun_in cache.new.transfers) }
{
    cache.take()?;
    Ok(())
}

/// Writes all dirty frames in runs, until no frame is dirty and no write is open.
fn write_all<L: Link>(cache: &mut Cache<L>) -> Result<(), Cut>
    requires ready { IsReady (caching L.Link cache.old) }
    ensures runs { Does L.Link cache.old cache.new (Syncs result) }
    ensures goes { LinkGoesOn L.Link cache.old cache.new }
    ensures count { frame_count cache.new ≡ frame_count cache.old }
    ensures idle { OnOk result (IsSettled (caching L.Link cache.new)) }
    ensures cut { IfErr result (λ cut. IsWhyCut (caching L.Link cache.new) cut) }
    ensures frames { (f : Frame) → IsFrame cache.old f → IsFrame cache.new f }
    ensures flush { WantsFlush L.Link cache.old cache.new }
    ensures uses { cache.new.slots.uses ≡ cache.old.slots.uses }
    ensures reads { NoReadBegun (begun_in cache.old.transfers) (begun_in cache.new.transfers) }
{
    'messages: loop {
        begin_runs(cache, AT_ONCE);
        if cache.is_clean() {
            return Ok(());
        }
        take_next(cache)?;
    }
}

/// Writes all dirty frames, the lowest block first, neighbours in one request, until no frame is dirty and no write is open. Then no place
/// of the disk is unsure, and the disk is what would be read back. Where each frame is clean it changes nothing, whatever became of the
/// link. A Flush is wanted then where one was or has come: `take_flush` counts it as done.
pub fn sync<L: Link>(cache: &mut Cache<L>) -> Result<(), Cut>
    requires ready { IsReady (caching L.Link cache.old) }
    ensures runs { Does L.Link cache.old cache.new (Syncs result) }
    ensures goes { LinkGoesOn L.Link cache.old cache.new }
    ensures count { frame_count cache.new ≡ frame_count cache.old }
    ensures idle { OnOk result (IsSettled (caching L.Link cache.new)) }
    ensures cut { IfErr result (λ cut. IsWhyCut (caching L.Link cache.new) cut) }
    ensures frames { (f : Frame) → IsFrame cache.old f → IsFrame cache.new f }
    ensures flush { WantsFlush L.Link cache.old cache.new }
    ensures uses { cache.new.slots.uses ≡ cache.old.slots.uses }
    ensures at_once { AllClean (held_by cache.old) → (result ≡ Ok tt) × (cache.new ≡ cache.old) }
    ensures reads { NoReadBegun (begun_in cache.old.transfers) (begun_in cache.new.transfers) }
{
    if !cache.is_clean() {
        return write_all(cache);
    }
    Ok(())
}
