//! Rows of moments, worked by hand: what a run of a schedule is, and what isn't one. They stand in `proofs/`; there is no code.
#![tactic(auto)]
