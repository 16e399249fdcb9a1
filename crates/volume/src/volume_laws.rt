//! Laws of the volume: what a clean image holds.

ghost use Rattle.volume.specs.Laws.{CleanIsATree, UsedZonesAreMarked, HeldLeavesRoom, ImageLeavesRoom};

/// The verdict on an image is Clean exactly where the image holds a tree without open files, whatever its bytes.
pub fn clean_is_a_tree()
    ensures { CleanIsATree }
{}

/// A tree that a volume holds, with open files or without, uses as many zones as the zone map marks.
pub fn used_zones_are_marked()
    ensures { UsedZonesAreMarked }
{}

/// A tree that a volume holds, with open files or without, leaves room: it uses no more zones than the volume has.
/// So does the tree that an image holds.
pub fn leaves_room()
    ensures volume { HeldLeavesRoom }
    ensures image { ImageLeavesRoom }
{}
