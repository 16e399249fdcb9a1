//! What drivers of media in memory have in common: it moves the sectors of a request, one a step, in the order of an arm that sweeps over
//! the disk.
//!
//! It takes no memory once it is made.

ghost use Rattle.modeldisk.specs.Laws.{IsSweep};

pub mod chunks;
pub mod mover;

/// The order in which an arm moves the sectors of a request: those not below it, rising, then those
/// below it, rising. From sector 0 on that is rising order.
#[tactic(auto, using(crate::proofs::FilterLaws::is_sweep))]
pub fn sweeps_in_order()
    ensures { IsSweep }
{}
