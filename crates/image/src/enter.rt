//! Entering the indirect zones, and the first inode with a number that is no data zone's.

ghost use Rattle.std.specs.Prelude.{◌≡◌, ◌<◌, ◌+◌, ◌*◌, ℕ, None, true, false, not, length, slice_index_or};
ghost use Rattle.tree.specs.Space.{numbers_in_zone};
ghost use Rattle.volume.specs.Nodes.{is_marked};
ghost use Rattle.volume.specs.Findings.{has_bad_number};
ghost use Rattle.volume.specs.Verdict.{place_limit};
ghost use Rattle.image.specs.Contents.{contents};
ghost use Rattle.image.specs.Least.{least_of};
ghost use Rattle.image.specs.Entered.{AreEntered, HasBadBelow, IsFine, IsNamed, IsSwept, Keeps, SlotsAreFine, level_of, numbers_at};

use crate::Image;

/// The least inode with a number but 0 that is no data zone's. Where there is none, `entered` says of each zone at each level whether
/// it is entered: it has a row of all zones for each of the levels 0 to 3, and is false throughout at first.
pub fn bad_number(image: &Image, entered: &mut [bool]) -> Option<u32>
    requires size { length entered.old ≡ 4 * image.now.geometry.zones }
    requires fresh { (k : ℕ) → slice_index_or entered.old k false ≡ false }
    ensures least { result ≡ least_of (has_bad_number image.now.geometry (contents image.now)) (place_limit image.now.geometry) }
    ensures entered { result ≡ None → AreEntered image.now entered.new }
{
    for n in 1..image.geometry().inodes + 1 {
        if !enter_inode(image, entered, n) {
            return Some(n);
        }
    }
    None
}

/// Enters what inode n names, where it is marked, and says whether all its numbers are 0 or data zones'.
fn enter_inode(image: &Image, entered: &mut [bool], n: u32) -> bool
    requires { IsSwept image.now entered.old }
    ensures swept { IsSwept image.now entered.new }
    ensures keeps { Keeps entered.old entered.new }
    ensures slots { result ≡ true → is_marked image.now.geometry (contents image.now) n ≡ true → SlotsAreFine image.now entered.new n }
    ensures bad { result ≡ not (has_bad_number image.now.geometry (contents image.now) n) }
{
    if !image.is_marked(n) {
        return true;
    }
    let inode = image.inode(n);
    for s in 0..10 {
        if !enter(image, entered, level_of(s), inode.zones[s]) {
            return false;
        }
    }
    true
}

/// Enters a number that stands at a level, and what stands below it, and says whether all these are 0 or data zones'.
fn enter(image: &Image, entered: &mut [bool], level: usize, zone: u32) -> bool
    requires low { level < 4 }
    requires named { IsNamed image.now level zone }
    requires swept { IsSwept image.now entered.old }
    ensures swept { IsSwept image.now entered.new }
    ensures keeps { Keeps entered.old entered.new }
    ensures fine { result ≡ true → IsFine image.now entered.new level zone }
    ensures bad { result ≡ false → HasBadBelow image.now level zone }
{
    if zone == 0 {
        return true;
    }
    if !image.is_data_zone(zone) {
        return false;
    }
    let place = level * image.geometry().zones as usize + zone as usize;
    if entered[place] {
        return true;
    }
    for j in 0..numbers_at(image, level) {
        if !enter(image, entered, level - 1, image.number(zone, j)) {
            return false;
        }
    }
    entered[place] = true;
    true
}

/// The level at which the zone of a slot stands: 0 for a page, 1 to 3 for the blocks.
pub(crate) fn level_of(slot: usize) -> usize
    ensures { result ≡ level_of slot }
{
    if slot < 7 { 0 } else { slot - 6 }
}

/// How many numbers of a zone at a level name zones: a page has none.
fn numbers_at(image: &Image, level: usize) -> usize
    ensures { result ≡ numbers_at image.now level }
{
    if level == 0 { 0 } else { image.numbers() }
}
