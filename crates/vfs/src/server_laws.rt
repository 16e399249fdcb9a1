//! Laws of a server over the frames of a cache: what each call, each message that is handed over to it and each unmount keeps, by what
//! they do to the cache.

ghost use Rattle.vfs.specs.Laws.{AnsweredKeeps, CutKeeps, StoppedKeeps, HandedKeeps, BusyKeeps, UnmountedKeeps, CallSpends, HandedSpends};

use cached_blocks::Caches;

/// A call keeps what a server promises, over blocks that have a cache: one that is cut off where it begins, one that is cut off on its
/// way, and one that is answered, where the blocks say that the tree's call was done and, where it syncs, that each frame is clean. Each
/// message that it takes spends one id at most.
pub fn calls_keep<B: Caches>()
    ensures stopped { StoppedKeeps B B.caching }
    ensures cut { CutKeeps B B.caching }
    ensures answered { AnsweredKeeps B B.caching }
    ensures spends { CallSpends B B.caching }
{}

/// So does a message that is handed over to it, which spends one id at most, as do those that are taken then.
pub fn messages_keep<B: Caches>()
    ensures handed { HandedKeeps B B.caching }
    ensures spends { HandedSpends B B.caching }
{}

/// So does an unmount: one that is refused since a file is open, and one after which each frame is clean.
pub fn unmounts_keep<B: Caches>()
    ensures busy { BusyKeeps B B.caching }
    ensures unmounted { UnmountedKeeps B B.caching }
{}
