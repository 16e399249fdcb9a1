//! The inodes that are reached from the root by names.

ghost use Rattle.std.specs.Prelude.{◌≡◌, ◌≤◌, ◌+◌, ◌==◌, ℕ, OnOk, OnErr, false, length, slice_index_or, vec_capacity};
ghost use Rattle.lemmas.specs.Sums.{one_if};
ghost use Rattle.image.specs.Contents.{contents};
ghost use Rattle.fsck.specs.Form.{form_of};
ghost use Rattle.fsck.specs.Findings.{has_bad_size, names_in_of};
ghost use Rattle.fsck.specs.Reached.{AreReached, GoesOn, unseen};

use crate::entries::entry_count;
use crate::scan::dots::target;
use crate::version::Version;
use image::Image;
use std::alloc::{AllocError, Global};

/// Marks the inodes that are reached from the root; none is marked at first. Each directory is read once. The memory is taken before
/// anything is marked, so an error leaves all as it was.
pub(crate) fn mark_reached(
    version: Version,
    alloc: Global,
    image: &Image,
    seen: &mut [bool],
) -> Result<(), AllocError>
    requires sizes { (n : ℕ) → has_bad_size (form_of version) image.now.geometry (contents image.now) n ≡ false }
    requires size { length seen.old ≡ image.now.geometry.inodes + 1 }
    requires fresh { (n : ℕ) → slice_index_or seen.old n false ≡ false }
    ensures reached { OnOk result (AreReached (form_of version) image.now seen.new) }
    ensures refused { OnErr result (seen.new ≡ seen.old) }
{
    let mut waiting = Vec::with_capacity(alloc, seen.len())?;
    mark(1, seen, &mut waiting);
    while let Some(n) = waiting.pop() {
        mark_names(version, image, n, seen, &mut waiting);
    }
    Ok(())
}

/// Marks the inodes that directory n names. Those that weren't marked wait: there is room for all that aren't.
fn mark_names(version: Version, image: &Image, n: u32, seen: &mut [bool], waiting: &mut Vec<u32>)
    requires sizes { (n : ℕ) → has_bad_size (form_of version) image.now.geometry (contents image.now) n ≡ false }
    requires room { unseen seen.old + length waiting.old.items ≤ vec_capacity waiting.old }
    ensures goes { GoesOn (names_in_of (form_of version) image.now.geometry (contents image.now) n) seen.old waiting.old.items seen.new
        waiting.new.items }
    ensures capacity { vec_capacity waiting.new ≡ vec_capacity waiting.old }
{
    if !image.is_directory(n) {
        return;
    }
    let inode = image.inode(n);
    for number in 2..entry_count(version, &inode) {
        mark(target(version, image, &inode, number), seen, waiting);
    }
}

/// Marks inode m. Where it wasn't marked, it waits: there is room for all that aren't.
fn mark(m: u32, seen: &mut [bool], waiting: &mut Vec<u32>)
    requires { unseen seen.old + length waiting.old.items ≤ vec_capacity waiting.old }
    ensures goes { GoesOn (λ k. one_if (m == k)) seen.old waiting.old.items seen.new waiting.new.items }
    ensures capacity { vec_capacity waiting.new ≡ vec_capacity waiting.old }
{
    let place = m as usize;
    if place >= seen.len() {
        return;
    }
    if seen[place] {
        return;
    }
    seen[place] = true;
    waiting.push_reserved(m);
}
