//! Caches over a link that answers from a list.
ghost use Rattle.std.specs.Prelude.{◌≡◌, ◌≤◌, IfOk};
ghost use Rattle.cache.specs.Calls.{caching};
ghost use Rattle.fixtures.specs.Caches.{IsOfBlocks};
ghost use Rattle.reissue.specs.Transfers.{link_of, table_of};

use cache::{Cache, CacheRefusal};
use fixtures::frames::VOLUME;
use fixtures::lists::{moved, started, told};
use message::Incoming;
use reissue::list_link::ListLink;
use reissue::{Link, Transfers};
use std::alloc::{AllocError, Global};
use std::test::Fail;

/// What a link gives: whether the first driver is started first, and what comes then: an answer to its next request, of which a whole
/// block was moved, each byte of it this one, or a Flush.
pub(crate) type Given = (bool, &'static [Option<u8>]);

/// These messages.
fn messages(alloc: Global, (is_started, answers): &Given) -> Result<Vec<Incoming>, AllocError> {
    let mut messages = Vec::new(alloc);
    if *is_started {
        messages.push(started(1))?;
    }
    let mut id = 1u64;
    for answer in *answers {
        match answer {
            Some(byte) => {
                messages.push(moved(1, id, 4096, *byte))?;
                id = id.saturating_add(1);
            }
            None => messages.push(Incoming::Flush)?,
        }
    }
    Ok(messages)
}

/// A cache with so many frames over a link that gives these messages; none where it is refused.
pub(crate) fn cache_over(
    alloc: Global,
    frames: u32,
    given: &Given,
) -> Result<Result<Cache<ListLink>, CacheRefusal>, AllocError>
    ensures volume { IfOk result (λ r. IfOk r (λ c. IsOfBlocks 512 (caching ⟦<ListLink as Link>⟧ c))) }
    ensures size { IfOk result (λ r. IfOk r (λ c. c.shape.block_size ≡ 4096)) }
    ensures unused { IfOk result (λ r. IfOk r (λ c. (table_of c.transfers).ids ≡ 0)) }
    ensures budget { IfOk result (λ r. IfOk r (λ c. ⟦<ListLink as Link>⟧.budget_left (link_of c.transfers) ≡ 1099511627776)) }
    ensures room { IfOk result (λ r. IfOk r (λ c. 34 ≤ ⟦<ListLink as Link>⟧.room (link_of c.transfers))) }
{
    let transfers = Transfers::new(alloc, ListLink::new(alloc, messages(alloc, given)?)?)?;
    Ok(Cache::new(alloc, transfers, 0, &VOLUME, frames))
}

/// It is an error where a step of a row, which counts from 0, gave something else than it says, or its link was told something else.
pub(crate) fn is_done(
    alloc: Global,
    row: usize,
    other: Option<usize>,
    link: &ListLink,
    lines: &str,
) -> Result<(), Fail> {
    if let Some(step) = other {
        return Err(Fail::new(format_args!("step {step} of row {row}")));
    }
    let told = told(alloc, link)?;
    if told.as_str() == lines {
        return Ok(());
    }
    Err(Fail::new(format_args!("row {row}: {told}")))
}
