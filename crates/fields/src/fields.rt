//! The fields of a message, read from the left.

ghost use Rattle.std.specs.Prelude.{◌≡◌, ◌≤◌};
ghost use Rattle.std.specs.Int.{w32, w64};
ghost use Rattle.fields.specs.Parts.{Gives, number_at, bytes_at, name_at};

use crate::fault::MalformedMessage;
use memchr::memchr;

/// A number of four bytes, and the bytes behind it.
pub fn u32_at(bytes: &[u8]) -> Result<(u32, &[u8]), MalformedMessage>
    ensures { Gives (λ x. (x.0, x.1.now)) result (number_at w32 bytes.now) }
{
    if bytes.len() < 4 {
        return Err(MalformedMessage::Short);
    }
    let (front, rest) = bytes.split_at(4);
    let number = u32::from_le_bytes([front[0], front[1], front[2], front[3]]);
    Ok((number, rest))
}

/// A number of eight bytes, and the bytes behind it.
pub fn u64_at(bytes: &[u8]) -> Result<(u64, &[u8]), MalformedMessage>
    ensures { Gives (λ x. (x.0, x.1.now)) result (number_at w64 bytes.now) }
{
    if bytes.len() < 8 {
        return Err(MalformedMessage::Short);
    }
    let (front, rest) = bytes.split_at(8);
    let number = u64::from_le_bytes([
        front[0], front[1], front[2], front[3], front[4], front[5], front[6], front[7],
    ]);
    Ok((number, rest))
}

/// So many bytes, and those behind them.
pub fn bytes_of(count: usize, bytes: &[u8]) -> Result<(&[u8], &[u8]), MalformedMessage>
    ensures { Gives (λ x. (x.0.now, x.1.now)) result (bytes_at (count, bytes.now)) }
{
    if bytes.len() < count {
        return Err(MalformedMessage::Short);
    }
    Ok(bytes.split_at(count))
}

/// A name without the zero that ends it, and the bytes behind that zero.
pub fn name_of(bytes: &[u8]) -> Result<(&[u8], &[u8]), MalformedMessage>
    ensures { Gives (λ x. (x.0.now, x.1.now)) result (name_at bytes.now) }
{
    match memchr(0, bytes) {
        Some(end) => Ok((&bytes[..end], &bytes[end + 1..])),
        None => Err(MalformedMessage::Short),
    }
}
