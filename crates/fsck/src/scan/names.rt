//! The names of a directory: none is empty or holds a slash, and none stands twice.

ghost use Rattle.std.specs.Prelude.{◌≡◌, ◌&&◌, ℕ, false, IfOk, length, nat_le, not, slice_index};
ghost use Rattle.fsck.specs.Findings.{has_bad_entry, has_bad_size};
ghost use Rattle.volume.specs.Verdict.{place_limit};
ghost use Rattle.image.specs.Contents.{contents};
ghost use Rattle.image.specs.Entry.{has_name};
ghost use Rattle.image.specs.Least.{least_of};
ghost use Rattle.fsck.specs.Form.{form_of};

use crate::entries::{entry, entry_count, is_free, name_at};
use crate::version::Version;
use image::{Image, is_name_field};
use layout::u32_at;
use std::alloc::{AllocError, Global};
use std::collections::HashSet;

/// The least directory with a free entry among the first two, one past . and .. whose field is no name, or one whose name stands earlier
/// too.
pub(crate) fn bad_entry(
    version: Version,
    alloc: Global,
    image: &Image,
) -> Result<Option<u32>, AllocError>
    requires { (n : ℕ) → has_bad_size (form_of version) image.now.geometry (contents image.now) n ≡ false }
    ensures { IfOk result (λ r. r
        ≡ least_of (has_bad_entry (form_of version) image.now.geometry (contents image.now)) (place_limit image.now.geometry)) }
{
    for n in 0..image.geometry().inodes + 1 {
        if has_bad_entry(version, alloc, image, n)? {
            return Ok(Some(n));
        }
    }
    Ok(None)
}

/// Whether n is a directory with such an entry.
fn has_bad_entry(version: Version, alloc: Global, image: &Image, n: u32) -> Result<bool, AllocError>
    requires { (n : ℕ) → has_bad_size (form_of version) image.now.geometry (contents image.now) n ≡ false }
    ensures { IfOk result (λ r. r ≡ has_bad_entry (form_of version) image.now.geometry (contents image.now) n) }
{
    if !image.is_directory(n) {
        return Ok(false);
    }
    let inode = image.inode(n);
    let count = entry_count(version, &inode);
    let mut names = HashSet::with_capacity(alloc, count as usize)?;
    for number in 0..count {
        let entry = entry(version, image, &inode, number);
        if is_free(version, &entry, number) {
            continue;
        }
        if u32_at(&entry, 0) == 0 {
            return Ok(true);
        }
        if is_bad_name(&entry, number) {
            return Ok(true);
        }
        if !names.insert(name_at(version, image, &inode, number))? {
            return Ok(true);
        }
    }
    Ok(false)
}

/// Whether the field of an entry past . and .. is no name that a directory can have.
fn is_bad_name(entry: &[u8], number: u32) -> bool
    requires { length entry.now ≡ 64 }
    ensures { result ≡ (nat_le 2 number && not (has_name (slice_index entry.now))) }
{
    number >= 2 && !is_name_field(entry)
}
