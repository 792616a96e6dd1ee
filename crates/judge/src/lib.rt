//! The verdict on a vertex: whether the creases that meet there fold flat, and else why not.
#![tactic(auto)]

mod counting;
mod fault;
mod judged;
mod laws;
mod report;
mod verdict;

pub use fault::Fault;
pub use judged::Judged;
pub use laws::{passed_exactly_foldable, verdict_is_one};
pub use report::Report;
pub use verdict::{Verdict, Why, judge};

#[cfg(test)]
mod example_tests;
#[cfg(test)]
mod judged_tests;
#[cfg(test)]
mod tests;
