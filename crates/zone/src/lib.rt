//! The zones of files: where the pages lie, through direct, single, double and triple indirect blocks; a page that comes to lie in a
//! zone, and pages that are let go.
#![tactic(auto)]

pub mod cutting;
pub mod holding;
pub mod numbers;
pub mod pages;
pub mod places;
pub mod steps;
pub mod zone_laws;
