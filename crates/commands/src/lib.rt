//! The texts of commands, read, and those of replies, written.
#![tactic(auto)]

mod ask;
mod asked;
mod bad;
mod block;
mod body;
mod cause;
mod digits;
mod fields;
mod gather;
mod laws;
mod length;
mod letter;
mod number;
mod read;
mod reply;
mod report;
mod verb;
mod who;
mod words;
mod written;

pub use bad::BadText;
pub use body::{body_len, write_body};
pub use laws::{a_verb_is_never_silent, reading_is_one, wanted_is_one};
pub use length::{bad_len, reply_len};
pub use read::{lines_wanted, read_command};
pub use reply::{write_bad, write_reply};

#[cfg(test)]
mod reply_tests;
#[cfg(test)]
mod tests;
