//! The deltas of an edited pattern, which can be undone and redone.
#![tactic(auto)]

mod history;
mod laws;

pub use history::History;
pub use laws::{redoing_is_one, undoing_is_one};

#[cfg(test)]
mod tests;
