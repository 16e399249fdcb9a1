//! What is refused before anything is asked, by what a fid stands on and whether it is open.

ghost use Rattle.std.specs.Prelude.{◌≡◌, Ok, []};
ghost use Rattle.ninep_fids.specs.Knowledge.{known_of, closed};
ghost use Rattle.ninep_fids.specs.Checks.{not_link, changeable, is_directory, enters, place};

use crate::fid::Kind;
use crate::knows::Knows;
use crate::paths::check_step;
use errno::Errno;
use talks::refused::Refused;

/// Refuses a fid that is open.
pub fn check_closed(descriptor: Option<u32>) -> Result<(), Refused>
    ensures { result ≡ closed descriptor }
{
    match descriptor {
        None => Ok(()),
        Some(_) => Err(Refused::By(Errno::EINVAL)),
    }
}

/// Refuses to open a symbolic link.
pub fn check_kind(kind: Kind) -> Result<(), Refused>
    ensures { result ≡ not_link kind }
{
    match kind {
        Kind::Symlink => Err(Refused::By(Errno::ELOOP)),
        Kind::File | Kind::Directory => Ok(()),
    }
}

/// Refuses to change what a symbolic link has.
pub fn check_changeable(kind: Kind) -> Result<(), Refused>
    ensures { result ≡ changeable kind }
{
    match kind {
        Kind::Symlink => Err(Refused::Unsupported),
        Kind::File | Kind::Directory => Ok(()),
    }
}

/// Whether a node is a directory.
pub fn is_directory(kind: Kind) -> bool
    ensures { result ≡ is_directory kind }
{
    match kind {
        Kind::Directory => true,
        Kind::File | Kind::Symlink => false,
    }
}

/// Refuses a name behind a node: ENOTDIR where that is no directory.
pub fn enters(kind: Kind, name: &[u8]) -> Result<(), Refused>
    ensures { result ≡ enters kind name.now }
{
    match kind {
        Kind::Directory => check_step(name),
        Kind::File | Kind::Symlink => Err(Refused::By(Errno::ENOTDIR)),
    }
}

/// Refuses a place for what is walked to: the fid itself where it is open, else a number that is used.
pub fn check_place(
    knows: &Knows,
    fid: u32,
    new_fid: u32,
    descriptor: Option<u32>,
) -> Result<(), Refused>
    ensures { result ≡ place (known_of knows.now) fid new_fid descriptor }
{
    if new_fid == fid {
        check_closed(descriptor)
    } else {
        knows.fids.check_new(new_fid)
    }
}
