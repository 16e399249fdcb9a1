//! What the programs say of themselves.

/// The version, which `-V` tells.
pub(crate) const SHORT: &str = "0.1.0";

/// What `--version` tells: the version, the commit and the kit. In a packed program both of these stand here, with as many bytes as what is
/// said of a program that isn't packed (bin/package).
pub(crate) const LONG: &str = "0.1.0
commit not told, for this program isn't packed.
kit not told: this program wasn't packed.";
