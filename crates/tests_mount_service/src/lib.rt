//! Tests of a volume that is mounted by 9P: sessions that end, whose rights they have, lines that say how a mount ended,
//! what becomes of its image, and many changes behind a sync. The bytes of
//! messages and of their answers are worked out from the protocol's description.
#![tactic(auto)]

#[cfg(test)]
mod handed;
#[cfg(test)]
mod lines;
#[cfg(test)]
mod many;
#[cfg(test)]
mod mounted;
#[cfg(test)]
mod sessions;
