//! What came of calls, as it is kept: the lines that it gives, and why calls were refused.
use errno::Errno;
use reply_text::answers::{Played, write_session};
use reply_text::outcomes::Outcomes;
use std::alloc::Global;
use std::test::Fail;
use tests_texts::is_told;
use tree::{LinkTarget, MAX_TARGET, Outcome, Reply};

/// The answer of a link's target, whose bytes are these.
fn target(text: &[u8]) -> Outcome {
    let mut bytes = [0; MAX_TARGET];
    for (place, byte) in bytes.iter_mut().zip(text) {
        *place = *byte;
    }
    Outcome::Reply(Reply::Target(LinkTarget {
        bytes,
        length: text.len(),
    }))
}

/// Outcomes of each way to keep one: two targets, with others before, between and behind them.
fn kept(alloc: Global) -> Result<Outcomes, Fail> {
    let mut outcomes = Outcomes::with_capacity(alloc, 6)?;
    let read = vec![in alloc; 0, 0xab]?;
    outcomes.push_reserved(Outcome::Reply(Reply::Bytes(read)));
    outcomes.push_reserved(target(b"a"));
    outcomes.push_reserved(Outcome::Reply(Reply::Refused(Errno::EIO)));
    outcomes.push_reserved(target(b"../n"));
    outcomes.push_reserved(Outcome::Reply(Reply::Wrote(3)));
    outcomes.push_reserved(Outcome::Cut);
    Ok(outcomes)
}

/// The lines of these outcomes.
const LINES: &str = "session 7\nbytes 00ab\nbytes 61\nEIO\nbytes 2e2e2f6e\nwrote 3\ncut\n";

#[test]
fn outcomes_are_told_as_they_came(rt: HostRuntime) -> Result<(), Fail> {
    let alloc = rt.alloc();
    let outcomes = kept(alloc)?;
    if outcomes.has_errno(Errno::ENOENT) || !outcomes.has_errno(Errno::EIO) {
        return Err(Fail::new("EIO alone was answered"));
    }
    let session = Played {
        number: 7,
        outcomes,
    };
    let mut out = Vec::new(alloc);
    write_session(alloc, &mut out, &session)?;
    is_told(str::from_utf8(out.as_slice()).unwrap_or("no text"), LINES)
}
