//! The bytes of an entry.

ghost use Rattle.std.specs.Prelude.{◌≡◌, ◌≤◌, ◌+◌, ℕ, length, slice_index};
ghost use Rattle.directory.specs.Files.{IsEntryBytes};
ghost use Rattle.directory.specs.First.{AreFirstEntries};
ghost use Rattle.block_store.specs.Rows.{with_bytes};
ghost use Rattle.directory.specs.Places.{IsNameBytes};

/// Writes bytes from a place on.
fn put(into: &mut [u8], at: usize, bytes: &[u8])
    requires { at + length bytes.now ≤ length into.old }
    ensures { (o : ℕ) → slice_index into.new o ≡ with_bytes at bytes.now (slice_index into.old) o }
{
    into[at..at + bytes.len()].copy_from_slice(bytes);
}

/// The 64 bytes of an entry: an inode number, and a name of at most 60 bytes, filled with zeros.
pub(crate) fn entry_bytes(number: u32, name: &[u8]) -> [u8; 64]
    requires { length name.now ≤ 60 }
    ensures { IsEntryBytes result number name.now }
{
    let mut bytes = [0; 64];
    put(&mut bytes, 0, &number.to_le_bytes());
    put(&mut bytes, 4, name);
    bytes
}

/// The 60 bytes of a name of at most as many, filled with zeros.
pub(crate) fn name_bytes(name: &[u8]) -> [u8; 60]
    requires { length name.now ≤ 60 }
    ensures { IsNameBytes result name.now }
{
    let mut bytes = [0; 60];
    put(&mut bytes, 0, name);
    bytes
}

/// The 128 bytes of a directory without names: `.` leads to it, `..` to its parent.
pub fn first_entries(number: u32, parent: u32) -> [u8; 128]
    ensures { AreFirstEntries result number parent }
{
    let mut bytes = [0; 128];
    put(&mut bytes, 0, &entry_bytes(number, b"."));
    put(&mut bytes, 64, &entry_bytes(parent, b".."));
    bytes
}
