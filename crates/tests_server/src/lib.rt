//! Tests of the file server: of client calls that no script can make or show, over blocks in memory (empty paths, flags that have no
//! letter, sessions beside each other, targets of no bytes and of the most, links whose bits grant nothing, and what the table of
//! descriptors holds); and of mounting and unmounting, over a link that answers from a list (why a mount is refused, what is read and
//! written of a volume that was mounted, and why it isn't unmounted). Each expected value is worked out by hand from the definitions and
//! the format.
#![tactic(auto)]

#[cfg(test)]
mod answered;
#[cfg(test)]
mod links;
#[cfg(test)]
mod refusals;
#[cfg(test)]
mod rows;
#[cfg(test)]
mod unmounts;
#[cfg(test)]
mod volumes;
