//! Small lemmas on truth values, numbers, lists and options that several crates' proofs use: proofs alone, no code.
#![tactic(auto)]
