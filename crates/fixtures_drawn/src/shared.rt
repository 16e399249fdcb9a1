//! What two sessions did in a directory that they share, and whether one order of all of it gives these answers.

/// Something that was done with a name of the shared directory.
#[derive(Clone, Copy)]
pub struct Shared {
    pub name: u8,
    /// Whether the file was to be made, where it mustn't be there; else it was to be removed.
    pub makes: bool,
    /// Whether that was done; else it was refused, since the file was there, or wasn't.
    pub was_done: bool,
}

/// How many things a session does there at most.
pub const MOST: usize = 16;

/// Of each set of names, as a number below 16, whether it may be what the directory has: that set's bit.
type Sets = u16;

/// The set of names behind this, if it may be done so on a set.
fn after(set: u16, done: &Shared) -> Option<u16> {
    let bit = 1u16 << (done.name & 3);
    let had = set & bit != 0;
    if done.was_done == (had == done.makes) {
        return None;
    }
    Some(if done.was_done { set ^ bit } else { set })
}

/// The sets behind this.
fn behind(sets: Sets, done: &Shared) -> Sets {
    let mut result = 0;
    for set in 0..16u16 {
        if sets & (1 << set) != 0 {
            if let Some(next) = after(set, done) {
                result |= 1 << (next & 15);
            }
        }
    }
    result
}

/// The sets behind each number of the second session's deeds, once the first session has done one more, or none at first.
fn next_row(row: &mut [Sets; MOST + 1], first: Option<&Shared>, second: &[Shared]) {
    let mut beside = 0;
    for (at, place) in row.iter_mut().enumerate() {
        let above = match first {
            Some(done) => behind(*place, done),
            None => u16::from(at == 0),
        };
        let left = match at.checked_sub(1).and_then(|before| second.get(before)) {
            Some(done) => behind(beside, done),
            None => 0,
        };
        beside = above | left;
        *place = beside;
    }
}

/// Whether there is an order of all of it that keeps each session's own, gives these answers, and leaves this set of names.
pub fn fits(first: &[Shared], second: &[Shared], last: u16) -> bool {
    let mut row = [0; MOST + 1];
    next_row(&mut row, None, second);
    for done in first {
        next_row(&mut row, Some(done), second);
    }
    match row.get(second.len()) {
        Some(sets) => sets & (1 << (last & 15)) != 0,
        None => false,
    }
}
