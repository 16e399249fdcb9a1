//! The names of a walk.

ghost use Rattle.std.specs.Prelude.{◌≤◌};
ghost use Rattle.ninep.specs.Parts.{AreTexts};

use crate::fields::text_of;

/// The most names of one walk.
pub const MAX_NAMES: usize = 16;

/// The names of a walk, in their order: at most [`MAX_NAMES`].
#[derive(Clone, Copy, Debug)]
pub struct Names<'a> {
    // How many they are, and their bytes, each behind its length.
    pub(crate) count: usize,
    pub(crate) bytes: &'a [u8],
    ghost whole: { AreTexts count bytes.now },
    ghost few: { count ≤ 16 },
}

impl<'a> Names<'a> {
    ghost use Rattle.std.specs.Prelude.{◌≡◌, ◌∷◌, [], IfNone, IfSome, length, ◌==◌};
    ghost use Rattle.ninep.specs.Requests.{names_in};

    /// None.
    #[tactic(auto, unfolding(crate::specs::Parts::texts_at))]
    pub(crate) fn none() -> Names<'a>
        ensures { names_in result ≡ [] }
    {
        Names {
            count: 0,
            bytes: &[],
        }
    }

    /// How many they are.
    pub fn len(&self) -> usize
        ensures { result ≡ length (names_in self.now) }
    {
        self.count
    }

    /// Whether there are none.
    pub fn is_empty(&self) -> bool
        ensures { result ≡ (length (names_in self.now) == 0) }
    {
        self.count == 0
    }

    /// The first name, and those behind it; none where there are none.
    pub fn split_first(&self) -> Option<(&'a [u8], Names<'a>)>
        ensures some { IfSome result (λ x. names_in self.now ≡ x.0.now ∷ names_in x.1) }
        ensures none { IfNone result (names_in self.now ≡ []) }
    {
        if self.count == 0 {
            return None;
        }
        let Ok((name, bytes)) = text_of(self.bytes) else {
            return None;
        };
        let count = self.count - 1;
        Some((name, Names { count, bytes }))
    }
}
