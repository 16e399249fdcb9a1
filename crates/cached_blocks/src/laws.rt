//! Laws of blocks over a cache, each a function whose contract is the law.

ghost use Rattle.cached_blocks.specs.Laws.{ReadyOverLink};

use reissue::Link;

/// Where its link is replaced by one that has room for a message, or as much as before, and gives no more messages, calls may be made as
/// before.
pub fn ready_over_link<L: Link>()
    ensures { ReadyOverLink L.Link }
{}
