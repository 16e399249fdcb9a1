//! When the record of a file server is legal: each answer is that of the file tree, which each call moves once.
//! What a server would read back, what its calls promise over any link, and what its sessions have seen.

pub mod laws;

/// A server as contracts see it.
pub trait Serve {
    ghost use Rattle.records.specs.ServerCall.{Serving};

    // its volume, its frames, what it owes and was told by its link, and the records that it agrees with
    ghost serving: { Self → Serving };
}
