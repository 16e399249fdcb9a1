//! Changes that are to be put, wherever their bytes lie.

ghost use Rattle.std.specs.Prelude.{◌≡◌, ◌<◌, ◌^◌, [], ℕ, List, length, map, slice_index_or};

use stable::UNIT;

/// Changes of an image that are to be put: the numbers of their units, and the bytes of each, wherever these lie.
pub trait Puts {
    // The changes, in order: a unit's number, and its bytes. A later one of the same number counts.
    ghost puts: { Self → List (ℕ × List ℕ) };

    /// The numbers of the units; there are fewer than 2^32.
    fn numbers(&self) -> &[u32]
        ensures numbers { result.now ≡ map (λ w. w.0) (puts self.now) }
        ensures few { length result.now < 2 ^ 32 };

    /// The bytes of the change at this place among them.
    fn unit(&self, at: usize) -> [u8; UNIT]
        requires { at < length (puts self.now) }
        ensures { result ≡ slice_index_or (map (λ w. w.1) (puts self.now)) at [] };
}
