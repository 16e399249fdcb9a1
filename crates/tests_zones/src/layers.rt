//! Tests of numbers and bytes in blocks, of both maps and of inodes, over blocks in memory. Each expected value is taken from the format's
//! tables or worked out by hand.

mod images;
mod steps;
mod tables;
mod volumes;
mod words;
