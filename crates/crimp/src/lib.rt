//! Crimping the sectors round a vertex: whether its creases fold flat, with a layer order, and else
//! the run of angles that stands in the way.
#![tactic(auto)]

mod crimping;
mod entries;
mod laws;
mod outcome;
mod run;

pub use laws::{
    blocked_run_is_unique, crimp_is_sound, crimps, crimps_decide, order_outlives_crimp,
    pair_has_one_mark, stuck_has_no_order,
};
pub use outcome::{Outcome, Run, reduce};

#[cfg(test)]
mod tests;
