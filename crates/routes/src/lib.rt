//! What a request over HTTP asks for: the path that it names, the methods of that path, and the
//! command text that its path, query and body stand for. Heads and streams are not known here.
#![tactic(auto)]

mod change;
mod command;
mod edit;
mod laws;
mod method;
mod page;
mod parts;
mod query;
mod route;
mod router;
mod target;
#[cfg(test)]
mod tests;

pub use command::command_text;
pub use laws::{asking_begins_with_a_verb, asking_is_one, target_is_one};
pub use method::Method;
pub use route::Route;
pub use router::Routes;
pub use target::cut_target;
