//! Requests over HTTP: the bytes of a connection read as a command text or refused with a status, and
//! the heads of answers written.
#![tactic(auto)]

mod answer_head;
mod ask;
mod bad;
mod body;
mod head;
mod lengths;
mod look;
mod plan;
mod request;
mod taking;
#[cfg(test)]
mod tests;

pub use answer_head::write_head;
pub use ask::{Ask, AskEnd};
pub use bad::{BadWhy, HttpBad, bad_text};
pub use request::read_request;
