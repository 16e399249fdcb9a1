//! Nodes that the kernel forgets, many in one message.

ghost use Rattle.std.specs.Prelude.{◌≡◌, ◌*◌, length};

use fields::fields::u64_at;

/// Nodes, each with how many of the answers that named it are forgotten.
#[derive(Clone, Copy, Debug)]
pub struct Forgets<'a> {
    // How many nodes they are, and their bytes, 16 for each.
    pub(crate) count: u32,
    pub(crate) bytes: &'a [u8],
    ghost whole: { length bytes.now ≡ 16 * count },
}

impl<'a> Forgets<'a> {
    ghost use Rattle.std.specs.Prelude.{◌≡◌, ◌∷◌, [], IfNone, IfSome, length, ◌==◌};
    ghost use Rattle.fuse.specs.Requests.{forgotten};

    /// How many nodes they are.
    pub fn len(&self) -> u32
        ensures { result ≡ length (forgotten self.now) }
    {
        self.count
    }

    /// Whether there are none.
    pub fn is_empty(&self) -> bool
        ensures { result ≡ (length (forgotten self.now) == 0) }
    {
        self.count == 0
    }

    /// The first node with its count, and those behind it; none where there are none.
    pub fn split_first(&self) -> Option<((u64, u64), Forgets<'a>)>
        ensures some { IfSome result (λ x. forgotten self.now ≡ x.0 ∷ forgotten x.1) }
        ensures none { IfNone result (forgotten self.now ≡ []) }
    {
        if self.count == 0 {
            return None;
        }
        let Ok((node, bytes)) = u64_at(self.bytes) else {
            return None;
        };
        let Ok((times, bytes)) = u64_at(bytes) else {
            return None;
        };
        let count = self.count - 1;
        Some(((node, times), Forgets { count, bytes }))
    }
}
