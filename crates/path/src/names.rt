//! A cache of names: where they were last seen to lead.

ghost use Rattle.std.specs.Prelude.{◌≡◌, ◌≤◌};

use directory::Placed;
use lru::LruCache;
use std::alloc::Global;
use std::marker::Model;
use std::num::NonZeroUsize;
use tree::MAX_NAME;

/// How many names a cache keeps.
const MOST_KEPT: usize = 256;

/// How many keys are put when a cache is made. The table behind it grows for the last time at fewer.
const PUT_AT_FIRST: u32 = 512;

/// A name of a directory, filled with zeros.
#[derive(Clone, Copy, Debug, PartialEq, Eq, Hash)]
struct Key {
    parent: u32,
    name: [u8; 60],
}

/// At most 256 names of directories, the ones last used, with the entries that had them: contracts see how many. A walk looks whether the
/// entry that it finds here still stands in its directory, so nothing in a cache changes what a walk answers. All memory is taken when it
/// is made; where it is refused the cache keeps no name.
#[derive(Drop)]
pub struct NameCache {
    // Full from the first: with keys of empty names, which go before any name does. None where memory was refused.
    kept: Option<LruCache<Key, Placed>>,
    // How many of them are names.
    count: usize,
}

impl Model for NameCache {
    ghost use Rattle.std.specs.Prelude.{ℕ, ◌≤◌};

    ghost Value = { ℕ };

    ghost view = { λ c. c.count };

    ghost invariant = { λ c. c.count ≤ 256 };
}

/// The key of a name of a directory; a name that is longer than it may be has none.
fn key_of(parent: u32, name: &[u8]) -> Option<Key> {
    if name.len() > MAX_NAME {
        return None;
    }
    let mut bytes = [0; 60];
    bytes[..name.len()].copy_from_slice(name);
    Some(Key {
        parent,
        name: bytes,
    })
}

/// The room of a cache, full of keys of empty names. None where memory was refused.
fn filled(alloc: Global) -> Option<LruCache<Key, Placed>> {
    let most = NonZeroUsize::new(MOST_KEPT)?;
    let mut kept = LruCache::new(alloc, most).ok()?;
    let nowhere = Placed {
        place: 0,
        number: 0,
    };
    for parent in 0..PUT_AT_FIRST {
        let empty = Key {
            parent,
            name: [0; 60],
        };
        kept.put(empty, nowhere).ok()?;
    }
    Some(kept)
}

impl NameCache {
    /// A cache without names. Memory that is refused is done without.
    pub fn new(alloc: Global) -> NameCache
        ensures { result ≡ 0 }
    {
        NameCache {
            kept: filled(alloc),
            count: 0,
        }
    }

    /// How many names it keeps.
    pub fn len(&self) -> usize
        ensures count { result ≡ self.now }
        ensures few { result ≤ 256 }
    {
        self.count
    }

    /// The entry that a name of a directory had, if it is kept.
    pub(crate) fn get(&mut self, parent: u32, name: &[u8]) -> Option<Placed> {
        let key = key_of(parent, name)?;
        let kept = self.kept.as_mut()?;
        kept.get(&key).copied()
    }

    /// Keeps the entry that a name of a directory has, in the place of the one that was used longest ago. A put that is refused memory is
    /// ignored.
    pub(crate) fn put(&mut self, parent: u32, name: &[u8], placed: Placed) {
        let Some(key) = key_of(parent, name) else {
            return;
        };
        let Some(kept) = &mut self.kept else {
            return;
        };
        if let Ok(None) = kept.put(key, placed) {
            self.count = (self.count + 1).min(MOST_KEPT);
        }
    }
}
