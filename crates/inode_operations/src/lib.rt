//! Steps of client calls that change one node of a volume, over any blocks: its attributes, its links, its size, its end; a free inode that
//! becomes a file, a directory or a symbolic link; the moves of a rename. No memory is taken.
#![tactic(auto)]

mod attributes;
pub mod call_laws;
mod ending;
mod fresh;
mod laws;
mod moves;
mod replaced;
mod resizing;
mod steps;

pub use attributes::{add_link, drop_link, set_attributes};
pub use ending::{free_node, lose_name, lose_node};
pub use fresh::{free_inode, new_directory, new_file, new_link};
pub use laws::{moves_are_the_trees, moves_may_be_made};
pub use moves::{Move, move_over, move_to, move_within};
pub use replaced::drop_replaced;
pub use resizing::set_size_at;
pub use steps::{put_in, put_over, settle, take_out};
