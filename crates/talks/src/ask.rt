//! What is asked of the sessions, one thing at a time.

use tree::Call;

/// Which sessions end.
#[derive(Clone, Copy)]
pub enum Leaving {
    /// All of them.
    All,
    /// The one with this number.
    One(u8),
}

/// What is asked of the sessions.
#[derive(Clone, Copy)]
pub enum Ask<'a> {
    /// A session for a user and a group.
    Enter { uid: u16, gid: u16 },
    /// That sessions end.
    Leave(Leaving),
    /// A call of a session.
    Call { session: u8, call: Call<'a> },
}
