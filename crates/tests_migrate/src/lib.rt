//! Tests of the migration of version 2 volumes. Each expected value is taken from the format's tables or worked out by hand.
#![tactic(auto)]

#[cfg(test)]
mod made;
#[cfg(test)]
mod old_images;
#[cfg(test)]
mod refused;
