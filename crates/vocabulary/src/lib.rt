//! Words that stand in more than one text: names of projects, the first words of commands, digit
//! strings and revs.
#![tactic(auto)]

mod name;
mod number;
mod rev;
#[cfg(test)]
mod tests;
mod verb;

pub use name::{Name, NotName};
pub use number::read_number;
pub use rev::LAST_REV;
pub use verb::Verb;
