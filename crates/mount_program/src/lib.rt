//! What the programs have in common that serve the image of a volume, so that Linux mounts it: their words, and the image that they keep.
#![tactic(auto)]

mod keeping;
pub mod serving;
