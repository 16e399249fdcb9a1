//! The scripts and the replies that a text says.
use std::alloc::{AllocError, Global};
use std::test::Fail;

/// The line behind which nothing changes the image.
const UNCHANGED: &str = "unchanged\n";

/// The scripts of a text's sessions, and what is printed of them.
#[derive(Drop)]
pub struct Said {
    /// The text of each session's script, in their order.
    scripts: Vec<String>,
    /// For each session its line, and those of the replies to its calls.
    pub replies: String,
}

impl Said {
    /// Begins the replies to one more session.
    pub fn begin_replies(&mut self) -> Result<(), AllocError> {
        writeln!(self.replies, "session {}", self.scripts.len())?;
        Ok(())
    }

    /// The bytes of the scripts, and behind them those of one more, if there is one.
    pub fn files<'s>(
        &'s self,
        alloc: Global,
        last: Option<&'s [u8]>,
    ) -> Result<Vec<Option<&'s [u8]>>, AllocError> {
        let mut files = Vec::new(alloc);
        for script in &self.scripts {
            files.push(Some(script.as_bytes()))?;
        }
        if last.is_some() {
            files.push(last)?;
        }
        Ok(files)
    }

    /// Begins a session.
    fn begin(&mut self, alloc: Global, line: &str) -> Result<(), AllocError> {
        self.begin_replies()?;
        self.scripts.push(String::new(alloc))?;
        self.add(line, None)
    }

    /// Adds a line of the last session's script, and its reply.
    fn add(&mut self, line: &str, reply: Option<&str>) -> Result<(), AllocError> {
        if let Some(script) = self.scripts.last_mut() {
            writeln!(script, "{line}")?;
        }
        if let Some(reply) = reply {
            writeln!(self.replies, "{reply}")?;
        }
        Ok(())
    }

    /// Reads a line; it is an error where it is of no kind, or a call in no session.
    fn take(&mut self, alloc: Global, line: &str) -> Result<(), Fail> {
        if line.starts_with("user ") {
            return Ok(self.begin(alloc, line)?);
        }
        if line.starts_with("#") || line.starts_with("left ") || line == "unchanged" {
            return Ok(());
        }
        match line.split_once(" -> ") {
            Some((call, reply)) if !self.scripts.is_empty() => Ok(self.add(call, Some(reply))?),
            _ => Err(Fail::new(format_args!("bad line: {line}"))),
        }
    }
}

/// What a text says.
pub fn read(alloc: Global, text: &str) -> Result<Said, Fail> {
    let mut said = Said {
        scripts: Vec::new(alloc),
        replies: String::new(alloc),
    };
    for line in text.lines() {
        said.take(alloc, line)?;
    }
    Ok(said)
}

/// What a text says up to its line `unchanged`, if it has one.
pub fn read_unchanged(alloc: Global, text: &str) -> Result<Option<Said>, Fail> {
    match text.split_once(UNCHANGED) {
        Some((before, _)) => Ok(Some(read(alloc, before)?)),
        None => Ok(None),
    }
}

/// The replies to so many sessions, each of one call that is answered by this line.
pub fn repeated(alloc: Global, count: usize, reply: &str) -> Result<String, AllocError> {
    let mut replies = String::new(alloc);
    for number in 0..count {
        writeln!(replies, "session {number}\n{reply}")?;
    }
    Ok(replies)
}
