//! The fields of a message, read from the left.

ghost use Rattle.std.specs.Prelude.{◌≡◌, ◌≤◌};
ghost use Rattle.std.specs.Int.{w8, w16, w32, w64};
ghost use Rattle.ninep.specs.Parts.{Gives, IsBehind, number_at, text_at, names_at, texts_at, bytes_at};
ghost use Rattle.ninep.specs.Requests.{names_in};

use crate::fault::MalformedMessage;
use crate::names::{MAX_NAMES, Names};

/// A byte, and the bytes behind it.
pub(crate) fn u8_at(bytes: &[u8]) -> Result<(u8, &[u8]), MalformedMessage>
    ensures { Gives (λ x. (x.0, x.1.now)) result (number_at w8 bytes.now) }
{
    let Some((first, rest)) = bytes.split_at_checked(1) else {
        return Err(MalformedMessage::Short);
    };
    Ok((u8::from_le_bytes([first[0]]), rest))
}

/// A number of two bytes, and the bytes behind it.
pub(crate) fn u16_at(bytes: &[u8]) -> Result<(u16, &[u8]), MalformedMessage>
    ensures { Gives (λ x. (x.0, x.1.now)) result (number_at w16 bytes.now) }
{
    if bytes.len() < 2 {
        return Err(MalformedMessage::Short);
    }
    let (front, rest) = bytes.split_at(2);
    Ok((u16::from_le_bytes([front[0], front[1]]), rest))
}

/// A number of four bytes, and the bytes behind it.
pub(crate) fn u32_at(bytes: &[u8]) -> Result<(u32, &[u8]), MalformedMessage>
    ensures { Gives (λ x. (x.0, x.1.now)) result (number_at w32 bytes.now) }
{
    if bytes.len() < 4 {
        return Err(MalformedMessage::Short);
    }
    let (front, rest) = bytes.split_at(4);
    let number = u32::from_le_bytes([front[0], front[1], front[2], front[3]]);
    Ok((number, rest))
}

/// A number of eight bytes, and the bytes behind it.
pub(crate) fn u64_at(bytes: &[u8]) -> Result<(u64, &[u8]), MalformedMessage>
    ensures { Gives (λ x. (x.0, x.1.now)) result (number_at w64 bytes.now) }
{
    if bytes.len() < 8 {
        return Err(MalformedMessage::Short);
    }
    let (front, rest) = bytes.split_at(8);
    let number = u64::from_le_bytes([
        front[0], front[1], front[2], front[3], front[4], front[5], front[6], front[7],
    ]);
    Ok((number, rest))
}

/// So many bytes, and those behind them.
fn split(bytes: &[u8], count: usize) -> Result<(&[u8], &[u8]), MalformedMessage>
    ensures { Gives (λ x. (x.0.now, x.1.now)) result (bytes_at (count, bytes.now)) }
{
    if bytes.len() < count {
        return Err(MalformedMessage::Short);
    }
    Ok(bytes.split_at(count))
}

/// A text, behind its length of two bytes.
#[tactic(auto, unfolding(crate::specs::Parts::text_at))]
pub(crate) fn text_of(bytes: &[u8]) -> Result<(&[u8], &[u8]), MalformedMessage>
    ensures { Gives (λ x. (x.0.now, x.1.now)) result (text_at w16 bytes.now) }
{
    let (length, rest) = u16_at(bytes)?;
    split(rest, length as usize)
}

/// Data, behind their length of four bytes.
#[tactic(auto, unfolding(crate::specs::Parts::text_at))]
pub(crate) fn data_of(bytes: &[u8]) -> Result<(&[u8], &[u8]), MalformedMessage>
    ensures { Gives (λ x. (x.0.now, x.1.now)) result (text_at w32 bytes.now) }
{
    let (length, rest) = u32_at(bytes)?;
    split(rest, length as usize)
}

/// So many texts, and the bytes behind them.
fn texts_of(count: usize, bytes: &[u8]) -> Result<(Names<'_>, &[u8]), MalformedMessage>
    requires { count ≤ 16 }
    ensures { Gives (λ x. (names_in x.0, x.1.now)) result (texts_at count bytes.now) }
{
    let rest = skip_texts(count, bytes)?;
    let length = bytes.len() - rest.len();
    let names = Names {
        count,
        bytes: &bytes[..length],
    };
    Ok((names, rest))
}

/// The bytes behind so many texts.
fn skip_texts(count: usize, bytes: &[u8]) -> Result<&[u8], MalformedMessage>
    ensures { IsBehind result (texts_at count bytes.now) }
{
    let mut rest = bytes;
    for _ in 0..count {
        let (_, after) = text_of(rest)?;
        rest = after;
    }
    Ok(rest)
}

/// The names of a walk, behind their number of two bytes.
#[tactic(auto, unfolding(crate::specs::Parts::names_at))]
pub(crate) fn names_of(bytes: &[u8]) -> Result<(Names<'_>, &[u8]), MalformedMessage>
    ensures { Gives (λ x. (names_in x.0, x.1.now)) result (names_at bytes.now) }
{
    let (count, rest) = u16_at(bytes)?;
    if count as usize > MAX_NAMES {
        return Err(MalformedMessage::ManyNames);
    }
    texts_of(count as usize, rest)
}
