//! Lines, words and numbers.

ghost use Rattle.std.specs.Prelude.{◌≡◌, ◌∷◌, [], ◌<◌, ◌≤◌, IfSome, MatchOption, length};
ghost use Rattle.std.specs.Option.{option_copied, option_map};
ghost use Rattle.call_text.specs.Words.{parts_of, number_in, number_of, mode_of, offset_of, path_of};

use memchr::memchr;
use tree::{PathFrom, Start};

/// What stands before the first separator of a text, and what stands after it; none where the text has no separator.
pub fn cut(text: &[u8], separator: u8) -> Option<(&[u8], &[u8])>
    ensures { MatchOption result (parts_of separator text.now ≡ text.now ∷ [])
        (λ cut. (parts_of separator text.now ≡ cut.0.now ∷ parts_of separator cut.1.now) × (length cut.1.now < length text.now)) }
{
    match memchr(separator, text) {
        Some(end) => Some((&text[..end], &text[end + 1..])),
        None => None,
    }
}

/// A number of one digit or more of this radix and nothing else, at most 18446744073709551615.
fn number(word: &[u8], radix: u32) -> Option<u64>
    requires { (2 ≤ radix) × (radix ≤ 10) }
    ensures { result ≡ number_in radix u64.MAX word.now }
{
    if word.is_empty() {
        return None;
    }
    let mut value: u64 = 0;
    for byte in word {
        let digit = char::from(*byte).to_digit(radix)?;
        value = value
            .checked_mul(u64::from(radix))?
            .checked_add(u64::from(digit))?;
    }
    Some(value)
}

/// A decimal number, at most 4294967295.
pub fn decimal(word: &[u8]) -> Option<u32>
    ensures { result ≡ number_of u32.MAX word.now }
{
    u32::try_from(number(word, 10)?).ok()
}

/// A decimal number, at most 65535.
pub fn half(word: &[u8]) -> Option<u16>
    ensures { result ≡ number_of u16.MAX word.now }
{
    u16::try_from(number(word, 10)?).ok()
}

/// A decimal number, at most 255.
pub fn small(word: &[u8]) -> Option<u8>
    ensures { result ≡ number_of u8.MAX word.now }
{
    u8::try_from(number(word, 10)?).ok()
}

/// The permissions that a word writes in octal, at most 177777.
pub fn mode(word: &[u8]) -> Option<u16>
    ensures { result ≡ mode_of word.now }
{
    u16::try_from(number(word, 8)?).ok()
}

/// The offset of a seek: a decimal number, with `-` before a negative one.
pub fn offset(word: &[u8]) -> Option<i64>
    ensures { result ≡ offset_of word.now }
{
    match word {
        [b'-', digits @ ..] => {
            let below = number(digits, 10)?.checked_sub(1)?;
            Some(-1 - i64::try_from(below).ok()?)
        }
        _ => i64::try_from(number(word, 10)?).ok(),
    }
}

/// The target of a symbolic link: any bytes of a word, one at least.
pub fn target(word: &[u8]) -> Option<&[u8]>
    ensures { option_copied result ≡ path_of word.now }
{
    if word.is_empty() { None } else { Some(word) }
}

/// A path from the root: any bytes of a word, one at least.
pub fn path(word: &[u8]) -> Option<PathFrom<'_>>
    ensures bytes { option_map (λ path. path.bytes.now) result ≡ path_of word.now }
    ensures root { IfSome result (λ path. path.start ≡ Start.Root) }
{
    Some(PathFrom::root(target(word)?))
}
