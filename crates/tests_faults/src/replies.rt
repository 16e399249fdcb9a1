//! Texts of replies.

/// How the lines of replies begin, as docs/CALLS.md says; an error's name is one of capital letters and digits.
static BEGINNINGS: [&str; 8] = [
    "ok", "fd ", "bytes", "wrote ", "at ", "inode ", "names ", "block ",
];

/// Whether a line is a reply.
fn is_reply(line: &str) -> bool {
    if BEGINNINGS.iter().any(|begins| line.starts_with(*begins)) {
        return true;
    }
    line.starts_with("E")
        && line
            .bytes()
            .all(|byte| byte.is_ascii_uppercase() || byte.is_ascii_digit())
}

/// Whether a text is the line of session 0, and then so many replies.
pub fn are_replies(text: &str, count: usize) -> bool {
    let mut lines = text.lines();
    if lines.next() != Some("session 0") {
        return false;
    }
    let mut replies = 0usize;
    for line in lines {
        if !is_reply(line) {
            return false;
        }
        replies = replies.saturating_add(1);
    }
    replies == count
}
