//! Messages that are answered as they come.

ghost use Rattle.std.specs.Prelude.{◌≡◌, [], Ok, false, IfOk, OnOk, IfErr};
ghost use Rattle.std.specs.Bool.{OnTrue, OnFalse};
ghost use Rattle.std.specs.Io.KnownBytes.{Appends, Consumes, IsAtEnd};
ghost use Rattle.message_stream.specs.Messages.{IsMessage};
ghost use Rattle.message_stream.specs.Answered.{IsAnswered, IsAnsweredAll, AppendsSome};
ghost use Rattle.message_stream.specs.Stopped.{Stops, IsStopped, IsUnread, Responds, RespondsNot};
ghost use Rattle.message_stream.specs.Exchanges.{by_both};

use crate::framing::{InputRefusal, Message};
use output::write_text;
use std::alloc::Global;
use std::fmt;
use std::io::{BufRead, Write};
use std::time::Clock;
use talks::answers::Answers;
use talks::sessions::Sessions;

/// Why messages are answered no further, though the stream hasn't ended.
#[derive(Clone, Copy, Debug, PartialEq, Eq)]
pub enum StreamRefusal {
    /// No further message came.
    Input(InputRefusal),
    /// No memory was found for an answer, not even for a refusal; nothing of it went out.
    OutOfMemory,
    /// The stream of answers refused bytes, or isn't flushed.
    NotWritten,
    /// As many messages were answered as 64 bits count.
    TooMany,
}

/// Writes why, as a user is told.
impl fmt::Display for StreamRefusal {
    fn fmt<W: fmt::Write>(&self, f: &mut fmt::Formatter<W>) -> fmt::Result {
        match self {
            StreamRefusal::Input(refusal) => write!(f, "{refusal}"),
            StreamRefusal::OutOfMemory => f.write_str("OutOfMemory"),
            StreamRefusal::NotWritten => f.write_str("cannot write standard output"),
            StreamRefusal::TooMany => f.write_str("TooMany"),
        }
    }
}

/// Room for a message and for its answer.
#[derive(Drop)]
struct Buffers {
    message: Message,
    answer: Vec<u8>,
}

impl Buffers {
    /// No message yet.
    fn new(alloc: Global) -> Buffers {
        Buffers {
            message: Message::new(alloc),
            answer: Vec::new(alloc),
        }
    }

    /// Reads the next message, and answers it. Whether there was one.
    #[tactic(auto, using(crate::proofs::Streams::is_answered, crate::proofs::Streams::stops_answering, crate::proofs::Streams::stops_reading))]
    fn next<I: BufRead, O: Write, C: Clock, S: Sessions, W: Answers>(
        &mut self,
        input: &mut I,
        output: &mut O,
        clock: &C,
        sessions: &mut S,
        answerer: &mut W,
    ) -> Result<bool, StreamRefusal>
        ensures answered { IfOk result (λ some. OnTrue some
            (IsAnswered W.fewest (by_both (W.answers S S.called S.entered S.left)) (I.remaining input.old) (I.remaining input.new)
            (O.contents output.old) (O.contents output.new) (sessions.old, answerer.old) (sessions.new, answerer.new))) }
        ensures ended { IfOk result (λ some. OnFalse some (IsAtEnd (I.remaining input.old))) }
        ensures silent { IfOk result (λ some. OnFalse some ((output.new ≡ output.old) × (sessions.new ≡ sessions.old)
            × (answerer.new ≡ answerer.old))) }
        ensures stopped { IfErr result (λ e. (last : W) × Stops W.fewest (by_both (W.answers S S.called S.entered S.left)) e
            (I.remaining input.old) (I.remaining input.new) (O.contents output.old) (O.contents output.new) (sessions.old, answerer.old)
            (sessions.new, last)) }
    {
        if !self.read(input, answerer)? {
            return Ok(false);
        }
        self.respond(output, clock, sessions, answerer)?;
        Ok(true)
    }

    /// Answers the message that was read.
    fn respond<O: Write, C: Clock, S: Sessions, W: Answers>(
        &mut self,
        output: &mut O,
        clock: &C,
        sessions: &mut S,
        answerer: &mut W,
    ) -> Result<(), StreamRefusal>
        ensures answered { OnOk result (Responds (by_both (W.answers S S.called S.entered S.left)) self.old.message
            (O.contents output.old) (O.contents output.new) (sessions.old, answerer.old) (sessions.new, answerer.new)) }
        ensures refused { IfErr result (λ e. (last : W) × RespondsNot (by_both (W.answers S S.called S.entered S.left)) e
            self.old.message (O.contents output.old) (O.contents output.new) (sessions.old, answerer.old) (sessions.new, last)) }
    {
        self.answer.clear();
        let (now, bytes) = (seconds(clock), self.message.as_slice());
        match answerer.answer(sessions, now, bytes, &mut self.answer) {
            Ok(()) => write(output, self.answer.as_slice()),
            Err(_) => Err(StreamRefusal::OutOfMemory),
        }
    }

    /// Reads the next message. Whether there was one.
    fn read<I: BufRead, W: Answers>(
        &mut self,
        input: &mut I,
        answerer: &W,
    ) -> Result<bool, StreamRefusal>
        ensures message { IfOk result (λ some. OnTrue some (IsMessage W.fewest self.new.message)) }
        ensures taken { Consumes (I.remaining input.old) (I.remaining input.new) self.new.message }
        ensures ended { result ≡ Ok false → IsAtEnd (I.remaining input.old) }
        ensures refused { IfErr result (λ e. IsUnread e (I.remaining input.new)) }
    {
        let (least, most) = (answerer.least(), answerer.most());
        match self.message.read_next(input, least, most) {
            Ok(some) => Ok(some),
            Err(refusal) => Err(StreamRefusal::Input(refusal)),
        }
    }
}

/// Answers each message of a stream by an answerer's calls of sessions, in order, until the stream ends. An answer is written whole, and
/// flushed, before the next message is read; for an answer of no bytes nothing is written. Times of calls are those of this clock.
///
/// Where it is refused, the messages before were answered, and what went out is their answers, and of one more a beginning at most.
#[tactic(auto, using(crate::proofs::Streams::none_answered, crate::proofs::Streams::answered_more))]
pub fn answer_all<I: BufRead, O: Write, C: Clock, S: Sessions, W: Answers>(
    alloc: Global,
    input: &mut I,
    output: &mut O,
    clock: &C,
    sessions: &mut S,
    answerer: &mut W,
) -> Result<(), StreamRefusal>
    ensures whole { OnOk result (IsAnsweredAll W.fewest (by_both (W.answers S S.called S.entered S.left)) (I.remaining input.old)
        (O.contents output.old) (O.contents output.new) (sessions.old, answerer.old) sessions.new) }
    ensures stopped { IfErr result (λ e. IsStopped W.fewest (by_both (W.answers S S.called S.entered S.left)) e (I.remaining input.old)
        (I.remaining input.new) (O.contents output.old) (O.contents output.new) (sessions.old, answerer.old) sessions.new) }
{
    let mut buffers = Buffers::new(alloc);
    for _ in 0..u64::MAX {
        if !buffers.next(input, output, clock, sessions, answerer)? {
            return Ok(());
        }
    }
    Err(StreamRefusal::TooMany)
}

/// Writes an answer, and flushes it; nothing is done for one of no bytes.
#[tactic(auto, using(crate::proofs::Streams::appends_kept, crate::proofs::Streams::appends_some, crate::proofs::Streams::appends_nothing))]
fn write<O: Write>(output: &mut O, answer: &[u8]) -> Result<(), StreamRefusal>
    ensures none { answer.now ≡ [] → (result ≡ Ok tt) × (output.new ≡ output.old) }
    ensures ok { OnOk result (Appends (O.contents output.old) (O.contents output.new) answer.now) }
    ensures err { IfErr result (λ e. (e ≡ StreamRefusal.NotWritten) × AppendsSome (O.contents output.old) (O.contents output.new) answer.now) }
{
    if answer.is_empty() {
        return Ok(());
    }
    if write_text(output, answer).is_err() || output.flush().is_err() {
        return Err(StreamRefusal::NotWritten);
    }
    Ok(())
}

/// The seconds since 1970 by a clock, at most those that 32 bits hold; 0 where it gives none.
fn seconds<C: Clock>(clock: &C) -> u32 {
    match clock.since_1970() {
        Ok(since) => since.as_secs().min(u64::from(u32::MAX)) as u32,
        Err(_) => 0,
    }
}
