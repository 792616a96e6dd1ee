//! A generator of commands: edits, undos and redos of a project, by numbers drawn from a seed.
#![tactic(auto)]

mod laws;
mod place;
mod turns;

pub use laws::turn_is_one;
pub use turns::Generator;

#[cfg(test)]
mod tests;
