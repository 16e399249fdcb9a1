//! Errors as text: each is told by its name, and an ended call by the name of why it ended.
use block_store::{Cut, Halt};
use cache::CacheRefusal;
use reissue::{BeginRefusal, LinkRefusal};
use std::test::Fail;
use tests_texts::are_told;

/// Why a request isn't begun.
static BEGUN: [(BeginRefusal, &str); 2] = [
    (BeginRefusal::TableFull, "TableFull"),
    (BeginRefusal::BlockPending, "BlockPending"),
];

/// Why a link takes no request.
static LINKS: [(LinkRefusal, &str); 2] = [
    (LinkRefusal::DeadEndpoint, "DeadEndpoint"),
    (LinkRefusal::Full, "Full"),
];

/// Why no cache is made.
static CACHES: [(CacheRefusal, &str); 2] = [
    (CacheRefusal::BadFrames, "BadFrames"),
    (CacheRefusal::OutOfMemory, "OutOfMemory"),
];

/// Why a block isn't given.
static BLOCKS: [(Cut, &str); 2] = [(Cut::Eio, "Eio"), (Cut::LinkEnded, "LinkEnded")];

/// Why a call on a volume ended early.
static HALTS: [(Halt, &str); 3] = [
    (Halt::Cut(Cut::Eio), "Eio"),
    (Halt::Cut(Cut::LinkEnded), "LinkEnded"),
    (Halt::Unsound, "Unsound"),
];

#[test]
fn errors_are_named(rt: HostRuntime) -> Result<(), Fail> {
    are_told(rt.alloc(), &BEGUN)?;
    are_told(rt.alloc(), &LINKS)?;
    are_told(rt.alloc(), &CACHES)?;
    are_told(rt.alloc(), &BLOCKS)?;
    are_told(rt.alloc(), &HALTS)
}
