//! Why the record of a run is justified, event by event: what stands between two events carries each clause to the next; requests are
//! issued in their places, and all open ones again after a start; drivers took and answered what was issued to them. Laws alone.
#![tactic(auto)]

pub mod issuing_runs;
pub mod justified_runs;
pub mod justifying;
pub mod taking_runs;
pub mod whole_runs;
