//! The words of a line and the lines of a text.
#![tactic(auto)]

mod laws;
mod lines;
mod words;

pub use laws::{bare_is_one, first_line_is_one, lines_are_one, words_are_one};
pub use lines::{bare, first_line, split_line};
pub use words::{Word, Words};

#[cfg(test)]
mod tests;
