//! Names that entries may have.

ghost use Rattle.std.specs.Prelude.{◌≡◌};
ghost use Rattle.fuse_nodes.specs.Names.{is_dots, checked};

use errno::Errno;
use talks::refused::Refused;

/// Whether a name is `.` or `..`.
fn is_dots(name: &[u8]) -> bool
    ensures { result ≡ is_dots name.now }
{
    name == b".".as_slice() || name == b"..".as_slice()
}

/// Refuses with EINVAL a name that no entry may have: an empty one, `.` and `..`, and one with a slash or a zero.
pub fn check_name(name: &[u8]) -> Result<(), Refused>
    ensures { result ≡ checked name.now }
{
    if name.is_empty() || is_dots(name) || name.contains(&b'/') || name.contains(&0) {
        return Err(Refused::By(Errno::EINVAL));
    }
    Ok(())
}
