//! Why a service gives nothing.

ghost use Rattle.std.specs.Prelude.{◌≡◌, Some};
ghost use Rattle.lecternowl.specs.Serving.{serve_refusal_text};

use serve::stopping::NoImage;
use service_start::volume_mount::StartRefusal;
use shared_server::refusal::SessionRefusal;
use std::{error, fmt};

/// Why a service gives nothing. What the tasks wrote before is lost.
#[derive(Clone, Copy, Debug, PartialEq, Eq)]
pub enum ServeRefusal {
    /// It isn't started; no task is done.
    Start(StartRefusal),
    /// It makes no session for a task, or no memory or thread was found for the tasks. No task is done.
    NoSession(SessionRefusal),
    /// It leaves no image.
    NoImage(NoImage),
}

/// Writes the refusal's own text.
impl fmt::Display for ServeRefusal {
    ghost output = { λ refusal. Some (serve_refusal_text refusal) };

    fn fmt<W: fmt::Write>(&self, f: &mut fmt::Formatter<W>) -> fmt::Result {
        match self {
            ServeRefusal::Start(refusal) => write!(f, "{refusal}"),
            ServeRefusal::NoSession(refusal) => write!(f, "{refusal}"),
            ServeRefusal::NoImage(why) => write!(f, "{why}"),
        }
    }
}

impl error::Error for ServeRefusal {}
