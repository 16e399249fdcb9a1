//! What is done with a volume.

use bitmap::Map;

/// What is done.
pub(crate) enum Step {
    /// The lowest free number of a map is asked for; 0 is none.
    Lowest(Map),
    /// How many numbers of a map are free.
    Count(Map),
    /// How many words are looked at for the lowest free number of a map.
    LowestWords(Map),
    /// How many are looked at to count the free ones.
    CountWords(Map),
    /// A number is put into a map, or taken out; 1 where that was done, 0 past the last.
    Mark(Map, u32, bool),
    /// An inode is read: 1 is the root, 2 the other.
    Load(u32),
    /// An inode becomes the root.
    StoreRoot(u32),
    /// An inode becomes the other.
    StoreOther(u32),
}
