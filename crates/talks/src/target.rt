//! The target of a symbolic link, as the server tells it.

ghost use Rattle.std.specs.Prelude.{◌≡◌};
ghost use Rattle.talks.specs.Hearing.{target_of};

use tree::{LinkTarget, MAX_TARGET};

/// Its bytes.
pub fn bytes_of(target: &LinkTarget) -> &[u8]
    ensures { result.now ≡ target_of target.now }
{
    if target.length <= MAX_TARGET {
        &target.bytes[..target.length]
    } else {
        &target.bytes
    }
}
