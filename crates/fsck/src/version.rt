//! The versions of the MINIX file system that are checked.

ghost use Rattle.std.specs.Prelude.{◌≡◌, ◌≤◌};
ghost use Rattle.fsck.specs.Form.{form_of};

/// A version of the MINIX file system. A version 2 volume has the maps, the inodes and the zones of a version 3 volume with blocks of
/// 1024 bytes, in the same places; it differs in its superblock and in the entries of its directories.
#[derive(Clone, Copy, Debug, PartialEq, Eq)]
pub enum Version {
    /// Entries of 16 bytes: two of inode number and 14 of name. Those past the first two may be free.
    V2,
    /// Entries of 64 bytes: four of inode number and 60 of name. None is free.
    V3,
}

impl Version {
    /// How many bytes an entry has.
    pub(crate) fn entry_size(self) -> u32
        ensures value { result ≡ (form_of self).size }
        ensures least { 16 ≤ result }
        ensures most { result ≤ 64 }
    {
        match self {
            Version::V2 => 16,
            Version::V3 => 64,
        }
    }

    /// Whether entries past the first two may be free.
    pub(crate) fn may_be_free(self) -> bool
        ensures { result ≡ (form_of self).may_be_free }
    {
        match self {
            Version::V2 => true,
            Version::V3 => false,
        }
    }
}
