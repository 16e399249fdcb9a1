//! Whole messages from a stream: each begins with its size in bytes, which counts itself, in 4 bytes, the lowest first.

ghost use Rattle.std.specs.Prelude.{◌≡◌, ◌≢◌, ◌⊎◌, ◌<◌, ◌≤◌, ◌++◌, [], ℕ, List, Ok, Err, true, false, IfOk, IfErr, OnOk, OnErr, length, take, vec_len};
ghost use Rattle.std.specs.Bool.{OnTrue};
ghost use Rattle.std.specs.Io.KnownBytes.{Consumes, IsAtEnd, Keeps};
ghost use Rattle.std.specs.Int.{w32, from_le_bytes};
ghost use Rattle.message_stream.specs.Messages.{IsMessage, IsCutShort, TakesMore};

use std::alloc::Global;
use std::fmt;
use std::io::{ErrorKind, Read};
use std::marker::Model;

/// The bytes of a size.
const SIZE: usize = 4;

/// Why no further message comes from a stream.
#[derive(Clone, Copy, Debug, PartialEq, Eq)]
pub enum InputRefusal {
    /// The stream ends within a message.
    CutShort,
    /// A message names this size, which is below the least or above the most that was taken.
    BadSize(u32),
    /// The stream can't be read.
    NotRead,
    /// No memory was found for a message.
    OutOfMemory,
}

/// Writes why, as a user is told.
impl fmt::Display for InputRefusal {
    fn fmt<W: fmt::Write>(&self, f: &mut fmt::Formatter<W>) -> fmt::Result {
        match self {
            InputRefusal::CutShort => f.write_str("the input ends within a message"),
            InputRefusal::BadSize(size) => write!(f, "bad message of {size} bytes"),
            InputRefusal::NotRead => f.write_str("cannot read standard input"),
            InputRefusal::OutOfMemory => f.write_str("OutOfMemory"),
        }
    }
}

/// A message, at the front of a buffer that is kept for the next one: what is read over isn't cleared.
#[derive(Drop)]
pub struct Message {
    buffer: Vec<u8>,
    len: usize,
}

impl Model for Message {
    ghost use Rattle.std.specs.Prelude.{◌≤◌, ℕ, List, take, length};

    ghost Value = { List ℕ };

    ghost view = { λ m. take m.len m.buffer.items };

    ghost invariant = { λ m. m.len ≤ length m.buffer.items };
}

impl Message {
    /// No bytes yet.
    pub fn new(alloc: Global) -> Message
        ensures { result ≡ [] }
    {
        Message {
            buffer: Vec::new(alloc),
            len: 0,
        }
    }

    /// Its bytes.
    pub fn as_slice(&self) -> &[u8]
        ensures value { result.now ≡ self.now }
    {
        &self.buffer[..self.len]
    }

    /// Reads the next message in its place, at least and at most so many bytes. Whether there was one: there is none where the stream has
    /// ended before it. A message has the bytes of its size, 4, whatever the least is.
    ///
    /// All that was taken from the stream stands here, also where it is refused.
    pub fn read_next<I: Read>(
        &mut self,
        input: &mut I,
        least: u32,
        most: u32,
    ) -> Result<bool, InputRefusal>
        ensures message { IfOk result (λ some. OnTrue some (IsMessage least self.new)) }
        ensures few { IfOk result (λ some. OnTrue some (length self.new ≤ most)) }
        ensures taken { Consumes (I.remaining input.old) (I.remaining input.new) self.new }
        ensures ended { result ≡ Ok false → IsAtEnd (I.remaining input.new) × (self.new ≡ []) }
        ensures cut { result ≡ Err InputRefusal.CutShort → IsAtEnd (I.remaining input.new) × IsCutShort least most self.new }
        ensures size { (size : ℕ) → result ≡ Err (InputRefusal.BadSize size)
            → (from_le_bytes w32 self.new ≡ size) × ((size < least) ⊎ (size < 4) ⊎ (most < size)) }
    {
        self.len = 0;
        match self.take_more(input, SIZE) {
            Ok(()) => {}
            Err(InputRefusal::CutShort) if self.len == 0 => return Ok(false),
            Err(refusal) => return Err(refusal),
        }
        let size = size_in(self.as_slice());
        if size < least || size < SIZE as u32 || most < size {
            return Err(InputRefusal::BadSize(size));
        }
        self.take_more(input, size as usize)?;
        Ok(true)
    }

    /// Takes bytes from a stream behind those that it has, until it has so many.
    fn take_more<I: Read>(&mut self, input: &mut I, size: usize) -> Result<(), InputRefusal>
        requires { length self.old ≤ size }
        ensures taken { TakesMore (I.remaining input.old) (I.remaining input.new) self.old self.new }
        ensures whole { OnOk result (length self.new ≡ size) }
        ensures cut { result ≡ Err InputRefusal.CutShort → IsAtEnd (I.remaining input.new) × (length self.new < size) }
        ensures size { (size : ℕ) → result ≢ Err (InputRefusal.BadSize size) }
    {
        let (len, read) = take_until(input, &mut self.buffer, self.len, size);
        self.len = len;
        read
    }
}

/// Takes bytes from a stream behind the first `at` of a buffer, until there are so many. How many there are then, and why no more.
fn take_until<I: Read>(
    input: &mut I,
    buffer: &mut Vec<u8>,
    at: usize,
    size: usize,
) -> (usize, Result<(), InputRefusal>)
    requires begun { at ≤ vec_len buffer.old }
    requires wanted { at ≤ size }
    ensures taken { TakesMore (I.remaining input.old) (I.remaining input.new) (take at buffer.old.items) (take result.0 buffer.new.items) }
    ensures most { result.0 ≤ vec_len buffer.new }
    ensures whole { OnOk result.1 (result.0 ≡ size) }
    ensures cut { result.1 ≡ Err InputRefusal.CutShort → IsAtEnd (I.remaining input.new) × (result.0 < size) }
    ensures size { (size : ℕ) → result.1 ≢ Err (InputRefusal.BadSize size) }
{
    if let Err(refusal) = make_room(buffer, size) {
        return (at, Err(refusal));
    }
    let (count, read) = read_into(input, &mut buffer[at..size]);
    (at + count, read)
}

/// Makes a buffer at least as long as this, by zeros behind what it has.
fn make_room(buffer: &mut Vec<u8>, size: usize) -> Result<(), InputRefusal>
    ensures front { take (length buffer.old.items) buffer.new.items ≡ buffer.old.items }
    ensures long { OnOk result (size ≤ vec_len buffer.new) }
    ensures refused { IfErr result (λ e. e ≡ InputRefusal.OutOfMemory) }
{
    if buffer.len() >= size {
        return Ok(());
    }
    match buffer.resize(size, 0) {
        Ok(()) => Ok(()),
        Err(_) => Err(InputRefusal::OutOfMemory),
    }
}

/// The size that the first bytes of a message name.
fn size_in(message: &[u8]) -> u32
    requires { length message.now ≡ 4 }
    ensures { result ≡ from_le_bytes w32 message.now }
{
    u32::from_le_bytes([message[0], message[1], message[2], message[3]])
}

/// Fills these bytes from a stream. How many were read, and why no more.
fn read_into<I: Read>(input: &mut I, bytes: &mut [u8]) -> (usize, Result<(), InputRefusal>)
    ensures taken { Consumes (I.remaining input.old) (I.remaining input.new) (take result.0 bytes.new) }
    ensures most { result.0 ≤ length bytes.new }
    ensures whole { OnOk result.1 (result.0 ≡ length bytes.new) }
    ensures cut { result.1 ≡ Err InputRefusal.CutShort → IsAtEnd (I.remaining input.new) × (result.0 < length bytes.new) }
    ensures size { (size : ℕ) → result.1 ≢ Err (InputRefusal.BadSize size) }
{
    let mut at = 0;
    while at < bytes.len() {
        match read_some(input, &mut bytes[at..]) {
            Ok(count) => at += count,
            Err(refusal) => return (at, Err(refusal)),
        }
    }
    (at, Ok(()))
}

/// Reads some bytes from a stream, at most as many as there is room for. How many there were.
#[tactic(auto, using(crate::proofs::Streams::consumes_kept, crate::proofs::Streams::kept_at_end, crate::proofs::Streams::keeps_same))]
fn read_some<I: Read>(input: &mut I, bytes: &mut [u8]) -> Result<usize, InputRefusal>
    requires { 0 < length bytes.old }
    ensures some { IfOk result (λ n. (0 < n) × (n ≤ length bytes.new)) }
    ensures taken { IfOk result (λ n. Consumes (I.remaining input.old) (I.remaining input.new) (take n bytes.new)) }
    ensures none { OnErr result (Keeps (I.remaining input.old) (I.remaining input.new)) }
    ensures cut { result ≡ Err InputRefusal.CutShort → IsAtEnd (I.remaining input.new) }
    ensures size { (size : ℕ) → result ≢ Err (InputRefusal.BadSize size) }
{
    for _ in 0..u64::MAX {
        match input.read(bytes) {
            Ok(0) => return Err(InputRefusal::CutShort),
            Ok(count) => return Ok(count),
            Err(error) if error.kind() == ErrorKind::Interrupted => {}
            Err(_) => return Err(InputRefusal::NotRead),
        }
    }
    Err(InputRefusal::NotRead)
}
