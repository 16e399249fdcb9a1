//! What the media hold after a run.

/// From where to where the media are looked at, and which byte each is there; with none, as they were.
pub type ChangedByte = (usize, usize, Option<u8>);

/// Whether there are bytes, and each is this one.
fn are_all(bytes: Option<&[u8]>, byte: u8) -> bool {
    for each in bytes.unwrap_or(&[]) {
        if *each != byte {
            return false;
        }
    }
    bytes.is_some()
}

/// Whether the media, which held this image, hold such bytes.
fn hold(media: &[u8], image: &[u8], place: &ChangedByte) -> bool {
    let (from, to, byte) = *place;
    let part = media.get(from..to);
    match byte {
        Some(byte) => are_all(part, byte),
        None => part.is_some() && part == image.get(from..to),
    }
}

/// The first of the places where the media, which held this image, hold something else.
pub fn misheld(media: &[u8], image: &[u8], places: &[ChangedByte]) -> Option<usize> {
    for (number, place) in places.iter().enumerate() {
        if !hold(media, image, place) {
            return Some(number);
        }
    }
    None
}
