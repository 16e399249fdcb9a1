//! What all measures share: how long work took, and the sizes of volumes that are measured.
#![tactic(auto)]

pub mod bench_bytes;
pub mod bench_maps;
pub mod bench_migration;
pub mod bench_names;
pub mod bench_paths;
pub mod bench_volumes;
pub mod sizes;
pub mod timing;
