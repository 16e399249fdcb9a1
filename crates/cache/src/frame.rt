//! Where a block stands.

/// A block's place in memory. It may end at the next `fetch` or `fresh` of a block without a frame, and where `forget` gives its
/// block up.
#[derive(Clone, Copy)]
pub struct Frame {
    /// The block.
    pub block: u32,
    // Its slot.
    pub(crate) at: usize,
}
