//! Why a session of a file server isn't made.

ghost use Rattle.std.specs.Prelude.{◌≡◌, Some};
ghost use Rattle.shared_server.specs.Refusals.{session_refusal_name, session_refusal_number};

use std::alloc::AllocError;
use std::{error, fmt};

/// Why no session is made. All is as it was.
#[derive(Clone, Copy, Debug, PartialEq, Eq)]
pub enum SessionRefusal {
    /// There are 64 sessions.
    TooMany,
    /// The link to the drivers has ended: each call would be cut.
    Stopped,
    /// No memory was found.
    OutOfMemory,
}

/// Writes the name.
impl fmt::Display for SessionRefusal {
    ghost output = { λ refusal. Some (session_refusal_name refusal) };

    fn fmt<W: fmt::Write>(&self, f: &mut fmt::Formatter<W>) -> fmt::Result {
        f.write_str(match self {
            SessionRefusal::TooMany => "TooMany",
            SessionRefusal::Stopped => "Stopped",
            SessionRefusal::OutOfMemory => "OutOfMemory",
        })
    }
}

impl error::Error for SessionRefusal {}

impl SessionRefusal {
    /// Its number: 1 to 3.
    pub fn number(self) -> u32
        ensures { result ≡ session_refusal_number self }
    {
        match self {
            SessionRefusal::TooMany => 1,
            SessionRefusal::Stopped => 2,
            SessionRefusal::OutOfMemory => 3,
        }
    }
}

impl From<AllocError> for SessionRefusal {
    ghost use Rattle.shared_server.specs.declared.refusal.SessionRefusal.TheVariants.{OutOfMemory as NoMemory};

    ghost from_gives = { λ _ e. e ≡ NoMemory };

    fn from(_error: AllocError) -> SessionRefusal {
        SessionRefusal::OutOfMemory
    }
}
