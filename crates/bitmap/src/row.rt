//! Bits in a row of bytes: bit b is bit b mod 8 of byte b div 8. The rows are looked at a word of 64 bits at a time.

ghost use Rattle.std.specs.Prelude.{◌≡◌, ◌≢◌, ◌≤◌, ◌<◌, ◌+◌, ◌*◌, ◌/◌, ◌%◌, ◌^◌, ◌==◌, ℕ, length, slice_index};
ghost use Rattle.volume.specs.Reading.{bit_in};
ghost use Rattle.bitmap.specs.Numbers.{IsLowestFree, count_free_in, words_for};
ghost use Rattle.bitmap.specs.Words.{bit_of};

use byteorder::{ByteOrder, LittleEndian};
use step_count::Steps;

/// A byte where one bit is set or not, and the others are as they were.
pub(crate) fn with_bit(byte: u8, bit: u32, on: bool) -> u8
    requires { bit < 8 }
    ensures this { (result / 2 ^ bit % 2 == 1) ≡ on }
    ensures others { (j : ℕ) → j < 8 → j ≢ bit → (result / 2 ^ j % 2 == 1) ≡ (byte / 2 ^ j % 2 == 1) }
{
    if on {
        byte | 1 << bit
    } else {
        byte & !(1 << bit)
    }
}

/// Whether one bit of a byte is set.
pub(crate) fn has_bit(byte: u8, bit: u32) -> bool
    requires { bit < 8 }
    ensures { result ≡ (byte / 2 ^ bit % 2 == 1) }
{
    byte >> bit & 1 == 1
}

/// The word of 64 bits at a place of a row, counted in words: one step.
fn word_at(bytes: &[u8], place: u32, steps: &mut Steps) -> u64
    requires within { 8 * place + 8 ≤ length bytes.now }
    ensures bits { (j : ℕ) → j < 64 → bit_in (slice_index bytes.now) (64 * place + j) ≡ bit_of result j }
    ensures cost { steps.new ≤ steps.old + 1 }
{
    steps.tick();
    LittleEndian::read_u64(&bytes[8 * place as usize..])
}

/// The lowest bit of a word from one up to another that isn't set.
fn clear_in_word(word: u64, from: u32, end: u32) -> Option<u32>
    requires order { from ≤ end }
    requires from { from < 64 }
    requires end { end ≤ 64 }
    ensures { IsLowestFree result (bit_of word) from end }
{
    let bit = from + (word >> from).trailing_ones();
    if bit < end { Some(bit) } else { None }
}

/// The lowest bit from one up to another that isn't set.
pub(crate) fn first_clear(bytes: &[u8], from: u32, end: u32, steps: &mut Steps) -> Option<u32>
    requires order { from ≤ end }
    requires within { end ≤ 8 * length bytes.now }
    requires words { length bytes.now % 8 ≡ 0 }
    ensures lowest { IsLowestFree result (bit_in (slice_index bytes.now)) from end }
    ensures cost { steps.new ≤ steps.old + words_for end }
{
    for place in from / 64..end.div_ceil(64) {
        let first = 64 * place;
        let word = word_at(bytes, place, steps);
        let (low, high) = (from.saturating_sub(first), (end - first).min(64));
        if let Some(bit) = clear_in_word(word, low, high) {
            return Some(first + bit);
        }
    }
    None
}

/// How many bits of a word from one up to another aren't set.
fn count_in_word(word: u64, from: u32, end: u32) -> u32
    requires order { from ≤ end }
    requires from { from < 64 }
    requires some { 0 < end }
    requires end { end ≤ 64 }
    ensures value { result ≡ count_free_in (bit_of word) from end }
    ensures most { result + from ≤ end }
{
    if from == 0 && end == 64 {
        return word.count_zeros();
    }
    let past = word >> (end - 1) >> 1;
    end - from - ((word >> from).count_ones() - past.count_ones())
}

/// How many bits from one up to another aren't set.
pub(crate) fn count_clear(bytes: &[u8], from: u32, end: u32, steps: &mut Steps) -> u32
    requires order { from ≤ end }
    requires within { end ≤ 8 * length bytes.now }
    requires words { length bytes.now % 8 ≡ 0 }
    ensures value { result ≡ count_free_in (bit_in (slice_index bytes.now)) from end }
    ensures most { result + from ≤ end }
    ensures cost { steps.new ≤ steps.old + words_for end }
{
    let mut clear = 0;
    // A count of its own, so that it stands in a register.
    let mut words = Steps::new();
    for place in from / 64..end.div_ceil(64) {
        let first = 64 * place;
        let word = word_at(bytes, place, &mut words);
        clear += count_in_word(word, from.saturating_sub(first), (end - first).min(64));
    }
    steps.add(&words);
    clear
}
