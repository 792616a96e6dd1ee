//! The words of the command line: what they ask for.
#![tactic(auto)]

mod argument;
mod ask;
mod further;
mod given;
mod keep;
mod laws;
mod matches;
mod number;
#[cfg(test)]
mod tests;
mod text;

pub use ask::{Ask, asked};
pub use keep::keep_wanted;
pub use laws::words_ask_one_thing;
