//! Files that are cut: the pages from one on are let go, and the indirect blocks that have no number then.

pub mod pages;

pub use pages::detach_from;
