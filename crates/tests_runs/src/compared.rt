//! Runs of schedules on new volumes, over boxed drivers, and whether they come out as a test says.

#[cfg(test)]
pub mod failing;
#[cfg(test)]
pub mod left;
#[cfg(test)]
pub mod places;
#[cfg(test)]
pub mod refused;
pub mod said;
#[cfg(test)]
pub mod shown;
#[cfg(test)]
pub mod supplies;
#[cfg(test)]
pub mod writer;
