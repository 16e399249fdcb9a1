//! What is common to all calls.

ghost use Rattle.std.specs.Prelude.{◌≡◌, ℕ, false};
ghost use Rattle.tree.specs.declared.Call.TheVariants.{Dup};
ghost use Rattle.descriptors.specs.Table.{files_of};
ghost use Rattle.file_server.specs.Over.{CallSpecification, outcome_in, outcome_of};
ghost use Rattle.vfs.specs.Outcomes.{OnAnswered, stopped};
ghost use Rattle.vfs.specs.Serving.{MayServe, Spends, server_of};

use block_store::Cut;
use cached_blocks::Caches;
use client_calls::{NameCache, body};
use descriptors::Descriptors;
use errno::Errno;
use file_server::Ending;
use layout::Geometry;
use std::alloc::Global;
use tree::{Call, Reply, Who};

/// How a call that is cut off ends, and its reply.
#[cold]
#[inline(never)]
fn stop(cut: Cut, reply: &mut Reply) -> Ending
    ensures { outcome_in result reply.new ≡ stopped cut }
{
    match cut {
        Cut::Eio => {
            *reply = Reply::Refused(Errno::EIO);
            Ending::Answered
        }
        Cut::LinkEnded => Ending::Cut,
    }
}

/// Answers a client call on a volume of these sizes with these open files, with the time in seconds since 1970; the reply goes to `reply`.
/// Cut once a take gave End, else EIO once the device was given up; neither does anything at the link. No Flush is left undone where the
/// call is answered otherwise. A dup needs no block: where no Flush was left undone it leaves them all as they are.
pub fn answer<B: Caches>(
    alloc: Global,
    blocks: &mut B,
    names: &mut NameCache,
    opens: &mut Descriptors,
    geometry: &Geometry,
    who: Who,
    now: u32,
    call: &Call,
    reply: &mut Reply,
) -> Ending
    requires may { MayServe geometry.now (B.caching blocks.old) }
    ensures may { MayServe geometry.now (B.caching blocks.new) }
    ensures calls { CallSpecification (server_of geometry.now (B.caching blocks.old) (B.frame_count blocks.old) (B.wanted blocks.old) (files_of opens.old))
        (server_of geometry.now (B.caching blocks.new) (B.frame_count blocks.new) (B.wanted blocks.new) (files_of opens.new))
        (B.caching blocks.old).truth (B.caching blocks.new).truth who now call.now (outcome_of (outcome_in result reply.new)) }
    ensures goes { B.goes_on blocks.old blocks.new }
    ensures flushed { OnAnswered (outcome_of (outcome_in result reply.new)) (B.wanted blocks.new ≡ false) }
    ensures spends { Spends 0 (B.caching blocks.old) (B.caching blocks.new) }
    ensures still { (fd : ℕ) → call.now ≡ Dup fd → B.wanted blocks.old ≡ false → blocks.new ≡ blocks.old }
{
    if let Err(cut) = blocks.live() {
        return stop(cut, reply);
    }
    if let Err(cut) = body(alloc, blocks, names, opens, geometry, who, now, call, reply) {
        return stop(cut, reply);
    }
    blocks.flush_wanted();
    if let Err(cut) = blocks.live() {
        return stop(cut, reply);
    }
    Ending::Answered
}
