//! What a cache keeps, as said of a server.

ghost use Rattle.cache.specs.Laws.{CallsLead, FramesReadBack};
ghost use Rattle.cache.specs.Calls.{caching};
ghost use Rattle.cache.specs.declared.cache.Cache.{Cache};

use records::legal::Serve;
use reissue::Link;

/// What would be read back is what is said of a server with these frames, and what a cache keeps covers each unsure place.
pub fn frames_read_back()
    ensures { FramesReadBack }
{}

/// What a call of a cache does at its link is what its server does there: the same acts, all that was told, and the rules on posts,
/// complaints and takes.
pub fn calls_lead<S: Serve, L: Link>()
    ensures { CallsLead S S.serving (Cache L) (caching L.Link) }
{}
