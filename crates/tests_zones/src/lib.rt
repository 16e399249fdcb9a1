//! Tests of a volume's lower layers: of the bytes and zones of files and the room that writes need, over blocks in memory (`calls`,
//! `images` and `volumes` make them); of numbers, maps and inodes in blocks (`layers`); and of files over a link that answers from a
//! list (`links`). Each expected value is taken from the format's tables or worked out by hand.
#![tactic(auto)]

#[cfg(test)]
mod bytes;
#[cfg(test)]
mod calls;
#[cfg(test)]
mod images;
#[cfg(test)]
mod layers;
#[cfg(test)]
mod links;
#[cfg(test)]
mod pages;
#[cfg(test)]
mod reads;
#[cfg(test)]
mod volumes;
#[cfg(test)]
mod writes;
