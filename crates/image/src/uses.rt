//! How often each zone is named.

ghost use Rattle.std.specs.Prelude.{◌≡◌, ◌≤◌, ◌<◌, ◌+◌, ◌*◌, ℕ, ◌==◌, min, length, slice_index, if◌then◌else◌};
ghost use Rattle.lemmas.specs.Sums.{count_below, one_if, sum_below};
ghost use Rattle.tree.specs.Space.{numbers_in_zone};
ghost use Rattle.volume.specs.Nodes.{is_marked, slot, word};
ghost use Rattle.volume.specs.Places.{uses};
ghost use Rattle.volume.specs.Findings.{has_bad_bit, is_used_twice};
ghost use Rattle.volume.specs.Verdict.{place_limit};
ghost use Rattle.image.specs.Contents.{contents};
ghost use Rattle.image.specs.Least.{least_of};
ghost use Rattle.image.specs.Entered.{AreEntered, is_in};
ghost use Rattle.image.specs.Counts.{AreCounted, AreCountedTo, AreSmall, named_by_entered, named_by_inode, named_by_zone};

use crate::{Image, least_passing};

/// Counts the uses of each zone, up to two, where it is known which indirect zones are entered; `uses` is 0 for each zone at first.
pub fn count_uses(image: &Image, entered: &[bool], uses: &mut [u8])
    requires entered { AreEntered image.now entered.now }
    requires rows { length entered.now ≡ 4 * image.now.geometry.zones }
    requires size { length uses.old ≡ image.now.geometry.zones }
    requires fresh { (z : ℕ) → slice_index uses.old z ≡ 0 }
    ensures { AreCounted image.now uses.new }
{
    count_inodes(image, uses);
    count_level(image, entered, 3, uses);
    count_level(image, entered, 2, uses);
    count_level(image, entered, 1, uses);
}

/// Counts one use of a zone.
fn count_zone(zone: u32, uses: &mut [u8])
    requires { AreSmall uses.old }
    ensures small { AreSmall uses.new }
    ensures counted { AreCountedTo (λ z. one_if (zone == z)) uses.old uses.new }
{
    let place = zone as usize;
    if place < uses.len() && uses[place] < 2 {
        uses[place] += 1;
    }
}

/// Counts the numbers in the inodes.
fn count_inodes(image: &Image, uses: &mut [u8])
    requires { AreSmall uses.old }
    ensures small { AreSmall uses.new }
    ensures counted { AreCountedTo (λ z. sum_below (named_by_inode image.now z) (image.now.geometry.inodes + 1)) uses.old uses.new }
{
    for n in 0..image.geometry().inodes + 1 {
        count_inode(image, n, uses);
    }
}

/// Counts the numbers in inode n, where it is marked.
fn count_inode(image: &Image, n: u32, uses: &mut [u8])
    requires { AreSmall uses.old }
    ensures small { AreSmall uses.new }
    ensures counted { AreCountedTo (λ z. named_by_inode image.now z n) uses.old uses.new }
{
    if !image.is_marked(n) {
        return;
    }
    let inode = image.inode(n);
    for s in 0..10 {
        count_zone(inode.zones[s], uses);
    }
}

/// Counts the numbers in the zones that are entered at a level.
fn count_level(image: &Image, entered: &[bool], level: usize, uses: &mut [u8])
    requires low { level < 4 }
    requires rows { length entered.now ≡ 4 * image.now.geometry.zones }
    requires small { AreSmall uses.old }
    ensures small { AreSmall uses.new }
    ensures counted { AreCountedTo (λ z. sum_below (named_by_entered image.now entered.now level z) image.now.geometry.zones) uses.old
        uses.new }
{
    let zones = image.geometry().zones;
    for above in 0..zones {
        let is_entered = entered[level * zones as usize + above as usize];
        count_numbers(image, above, is_entered, uses);
    }
}

/// Counts the numbers in a zone, where it is entered.
fn count_numbers(image: &Image, above: u32, is_entered: bool, uses: &mut [u8])
    requires { AreSmall uses.old }
    ensures small { AreSmall uses.new }
    ensures counted { AreCountedTo (λ z. if is_entered then named_by_zone image.now z above else 0) uses.old uses.new }
{
    if !is_entered {
        return;
    }
    for j in 0..image.numbers() {
        count_zone(image.number(above, j), uses);
    }
}

/// The least zone with two uses.
pub fn used_twice(image: &Image, uses: &[u8]) -> Option<u32>
    requires { AreCounted image.now uses.now }
    ensures { result ≡ least_of (is_used_twice image.now.geometry (contents image.now)) (place_limit image.now.geometry) }
{
    least_passing(
        image.geometry().zones,
        |zone| is_used_twice(image, uses, zone),
    )
}

/// Whether a zone is a data zone with two uses.
fn is_used_twice(image: &Image, uses: &[u8], zone: u32) -> bool
    requires { AreCounted image.now uses.now }
    ensures { result ≡ is_used_twice image.now.geometry (contents image.now) zone }
{
    image.is_data_zone(zone) && 1 < uses[zone as usize]
}

/// The least zone whose bit in the zone map says otherwise than its uses.
pub fn bad_bit(image: &Image, uses: &[u8]) -> Option<u32>
    requires { AreCounted image.now uses.now }
    ensures { result ≡ least_of (has_bad_bit image.now.geometry (contents image.now)) (place_limit image.now.geometry) }
{
    least_passing(
        image.geometry().zones,
        |zone| has_bad_bit(image, uses, zone),
    )
}

/// Whether a zone is a data zone whose bit is set and has no use, or is clear and has one.
fn has_bad_bit(image: &Image, uses: &[u8], zone: u32) -> bool
    requires { AreCounted image.now uses.now }
    ensures { result ≡ has_bad_bit image.now.geometry (contents image.now) zone }
{
    image.is_data_zone(zone)
        && image.has_zone_bit(zone - image.geometry().first_zone + 1) != (0 < uses[zone as usize])
}
