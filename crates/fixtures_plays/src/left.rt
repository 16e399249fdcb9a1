//! What a play gave, beside what a text says: the bytes of the image that is left, and the first line that is another one.
use std::alloc::{AllocError, Global};
use std::test::Fail;

/// Bytes of an image from a place on, in hexadecimal.
fn shown(alloc: Global, image: &[u8], at: usize, count: usize) -> Result<String, AllocError> {
    let mut text = String::new(alloc);
    for byte in image.iter().skip(at).take(count) {
        write!(text, "{byte:02x}")?;
    }
    Ok(text)
}

/// Looks at whether an image has the bytes that a text's lines `left` say; it is an error where it hasn't.
pub fn has_left(alloc: Global, image: &[u8], text: &str) -> Result<(), Fail> {
    for line in text.lines() {
        let Some(rest) = line.strip_prefix("left ") else {
            continue;
        };
        let (at, bytes) = rest.split_once(" ").unwrap_or(("", ""));
        let at = at.parse::<usize>().unwrap_or(image.len());
        let there = shown(alloc, image, at, bytes.len() / 2)?;
        if bytes.is_empty() || there.as_str() != bytes {
            return Err(Fail::new(format_args!("{line}: {there}")));
        }
    }
    Ok(())
}

/// The first line of a text whose place has another one in a second text, and that one.
fn first_other<'p>(wanted: &'p str, got: &'p str) -> (&'p str, &'p str) {
    for (line, other) in wanted.lines().zip(got.lines()) {
        if line != other {
            return (line, other);
        }
    }
    ("", "")
}

/// The failure of a play that ended with this status and gave this text, where another one was wanted.
pub fn other(status: u8, wanted: &str, got: &[u8]) -> Fail {
    let got = str::from_utf8(got).unwrap_or("no text");
    let (line, other) = first_other(wanted, got);
    Fail::new(format_args!("status {status}, {line}: {other}"))
}
