//! What is asked of an editor of projects, and what it answers, as data.
#![tactic(auto)]

mod cause;
mod command;
mod reply;

pub use cause::Cause;
pub use command::{Change, Command};
pub use reply::Reply;
pub use vocabulary::LAST_REV;
