//! Bounds on what is moved in one call.

ghost use Rattle.std.specs.Prelude.{◌≡◌, ◌≤◌, length, min, take};

use tree::MAX_TRANSFER;

/// The first of some bytes, at most so many.
pub(crate) fn within(bytes: &[u8], most: u32) -> &[u8]
    ensures first { result.now ≡ take most bytes.now }
    ensures few { length result.now ≤ most }
{
    if bytes.len() <= most as usize {
        return bytes;
    }
    &bytes[..most as usize]
}

/// The smaller one of a count and what a call moves at most.
pub(crate) fn most_of(count: u32) -> u32
    ensures value { result ≡ min count 65536 }
    ensures least { result ≤ count }
    ensures most { result ≤ 65536 }
{
    if count < MAX_TRANSFER {
        count
    } else {
        MAX_TRANSFER
    }
}
