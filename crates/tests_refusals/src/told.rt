//! What functions of programs write where memory is refused.

use std::alloc::AllocError;
use std::str;

/// The status of the process, and what was written on standard output and on standard error.
#[derive(Drop)]
pub(crate) struct Said {
    pub(crate) status: u8,
    pub(crate) out: Vec<u8>,
    pub(crate) err: Vec<u8>,
}

/// Whether a line is that of an undisturbed run, or says that a read had no memory: ENOMEM in the place of bytes or names.
fn is_line(line: &str, wanted: &str) -> bool {
    let short = |text: &str| text.split_once("reply ").is_some();
    let wants = wanted.contains("bytes") || wanted.contains("names");
    line == wanted || (wants && line.ends_with("ENOMEM") && short(line) == short(wanted))
}

/// Whether a text has the lines of that of an undisturbed run, some of which may say that a read had no memory.
fn are_lines(out: &str, whole: &str) -> bool {
    let (mut lines, mut wanted) = (out.lines(), whole.lines());
    for line in &mut lines {
        match wanted.next() {
            Some(other) if is_line(line, other) => {}
            _ => return false,
        }
    }
    wanted.next().is_none()
}

impl Said {
    /// Whether this is what an undisturbed run says, or what a run may say of which a request for memory was refused: that there was none,
    /// behind a beginning of the text; or all, but for reads that had no memory.
    pub(crate) fn is_right(&self, whole: &[u8], refused: bool) -> bool {
        self.is_right_by(0, whole, refused)
    }

    /// Whether it is what a run may say of which a request was refused, where all is said with status 1: as by a play whose volume wasn't
    /// read back for want of memory, of which no line speaks yet.
    pub(crate) fn is_unread(&self, whole: &[u8]) -> bool {
        self.is_right_by(1, whole, true)
    }

    /// The same, by the status with which all is said.
    fn is_right_by(&self, status: u8, whole: &[u8], refused: bool) -> bool {
        let out = str::from_utf8(self.out.as_slice()).unwrap_or("no text");
        let text = str::from_utf8(whole).unwrap_or("no text either");
        let is_whole = self.status == status && self.err.is_empty() && out == text;
        if !refused {
            return is_whole;
        }
        let is_cut_short = self.status == 1
            && self.err.as_slice() == b"OutOfMemory\n".as_slice()
            && text.starts_with(out);
        is_cut_short || (self.status == status && self.err.is_empty() && are_lines(out, text))
    }
}
