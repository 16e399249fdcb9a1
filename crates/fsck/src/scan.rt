//! The passes of a check over the directories: their pages, their entries, and who names whom; and that over the symbolic links.

mod dots;
mod homes;
mod links;
mod names;
mod reached;
mod tables;

pub(crate) use dots::{bad_dots, bad_target, hole};
pub(crate) use homes::{bad_links, misplaced};
pub(crate) use links::bad_link;
pub(crate) use names::bad_entry;
pub(crate) use reached::mark_reached;
pub(crate) use tables::count_names;
