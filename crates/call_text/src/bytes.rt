//! Bytes in hexadecimal, and the flags of open.

ghost use Rattle.std.specs.Prelude.{◌≡◌, ◌++◌, ◌≤◌, OnOk, OnErr};
ghost use Rattle.std.specs.List.{list_all};
ghost use Rattle.std.specs.Option.{option_copied};
ghost use Rattle.call_text.specs.Bytes.{bit_of, byte_of, digits_in, flags_of, flag_bits, hex_bytes, hex_digit, is_hex, is_hex_digit};

use bitflags::Flags;
use std::alloc::AllocError;
use tree::OpenFlags;

/// The number of each byte that is a lower-case hexadecimal digit; 16 for any other.
static DIGITS: [u8; 256] = [
    16, 16, 16, 16, 16, 16, 16, 16, 16, 16, 16, 16, 16, 16, 16, 16, 16, 16, 16, 16, 16, 16, 16, 16,
    16, 16, 16, 16, 16, 16, 16, 16, 16, 16, 16, 16, 16, 16, 16, 16, 16, 16, 16, 16, 16, 16, 16, 16,
    0, 1, 2, 3, 4, 5, 6, 7, 8, 9, 16, 16, 16, 16, 16, 16, 16, 16, 16, 16, 16, 16, 16, 16, 16, 16,
    16, 16, 16, 16, 16, 16, 16, 16, 16, 16, 16, 16, 16, 16, 16, 16, 16, 16, 16, 16, 16, 16, 16, 10,
    11, 12, 13, 14, 15, 16, 16, 16, 16, 16, 16, 16, 16, 16, 16, 16, 16, 16, 16, 16, 16, 16, 16, 16,
    16, 16, 16, 16, 16, 16, 16, 16, 16, 16, 16, 16, 16, 16, 16, 16, 16, 16, 16, 16, 16, 16, 16, 16,
    16, 16, 16, 16, 16, 16, 16, 16, 16, 16, 16, 16, 16, 16, 16, 16, 16, 16, 16, 16, 16, 16, 16, 16,
    16, 16, 16, 16, 16, 16, 16, 16, 16, 16, 16, 16, 16, 16, 16, 16, 16, 16, 16, 16, 16, 16, 16, 16,
    16, 16, 16, 16, 16, 16, 16, 16, 16, 16, 16, 16, 16, 16, 16, 16, 16, 16, 16, 16, 16, 16, 16, 16,
    16, 16, 16, 16, 16, 16, 16, 16, 16, 16, 16, 16, 16, 16, 16, 16, 16, 16, 16, 16, 16, 16, 16, 16,
    16, 16, 16, 16, 16, 16, 16, 16, 16, 16, 16, 16, 16, 16,
];

/// Whether a byte is a lower-case hexadecimal digit.
fn is_hex_digit(byte: u8) -> bool
    ensures { result ≡ is_hex_digit byte }
{
    DIGITS[byte as usize] < 16
}

/// Whether each byte is a lower-case hexadecimal digit.
fn are_hex_digits(text: &[u8]) -> bool
    ensures { result ≡ list_all is_hex_digit text.now }
{
    text.iter().all(|byte| is_hex_digit(*byte))
}

/// Whether a text is pairs of lower-case hexadecimal digits, and nothing else.
pub fn is_hex(text: &[u8]) -> bool
    ensures { result ≡ is_hex text.now }
{
    are_hex_digits(text) && text.len() % 2 == 0
}

/// The number of a lower-case hexadecimal digit: 0 for `0`, 15 for `f`; 0 for any other byte.
fn hex_digit(digit: u8) -> u8
    ensures value { result ≡ hex_digit digit }
    ensures small { result ≤ 15 }
{
    DIGITS[digit as usize] & 15
}

/// The byte that a word of two lower-case hexadecimal digits writes.
pub fn byte(word: &[u8]) -> Option<u8>
    ensures { result ≡ byte_of word.now }
{
    match word {
        [high, low] if is_hex_digit(*high) && is_hex_digit(*low) => {
            Some(16 * hex_digit(*high) + hex_digit(*low))
        }
        _ => None,
    }
}

/// The digits of a word that writes bytes in hexadecimal, or no bytes by `-`.
pub fn digits(word: &[u8]) -> Option<&[u8]>
    ensures { option_copied result ≡ digits_in word.now }
{
    if word == b"-".as_slice() {
        Some(&[])
    } else if !word.is_empty() && is_hex(word) {
        Some(word)
    } else {
        None
    }
}

/// Adds the bytes that pairs of lower-case hexadecimal digits write, or none where no memory is found for all of them.
pub fn push_hex(to: &mut Vec<u8>, digits: &[u8]) -> Result<(), AllocError>
    ensures ok { OnOk result (to.new.items ≡ to.old.items ++ hex_bytes digits.now) }
    ensures err { OnErr result (to.new.items ≡ to.old.items) }
{
    to.reserve(digits.len() / 2)?;
    let mut rest = digits;
    while let [high, low, after @ ..] = rest {
        to.push_reserved(16 * hex_digit(*high) + hex_digit(*low));
        rest = after;
    }
    Ok(())
}

/// A flag's bit where a word has its letter.
fn bit(word: &[u8], letter: u8, bit: u8) -> u8
    ensures { result ≡ bit_of word.now letter bit }
{
    if word.contains(&letter) { bit } else { 0 }
}

/// The bits of the flags whose letters a word has.
fn flag_bits(word: &[u8]) -> u8
    ensures { result ≡ flag_bits word.now }
{
    let opening = bit(word, b'r', 1) + bit(word, b'w', 2) + bit(word, b'a', 4);
    opening + bit(word, b'c', 8) + bit(word, b'x', 16) + bit(word, b't', 32)
}

/// The flags of open by their letters r, w, a, c, x and t, each at most once and in any order; `-` for none.
pub fn flags(word: &[u8]) -> Option<OpenFlags>
    ensures { result ≡ flags_of word.now }
{
    if word == b"-".as_slice() {
        return Some(OpenFlags::from_bits_retain(0));
    }
    let bits = flag_bits(word);
    if !word.is_empty() && bits.count_ones() as usize == word.len() {
        Some(OpenFlags::from_bits_retain(bits))
    } else {
        None
    }
}
