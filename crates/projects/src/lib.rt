//! Projects, the steps that change them, and what keeps them.
#![tactic(auto)]

mod changes;
mod cut;
mod desk;
mod early;
mod keeper;
mod laws;
mod memory;
mod open;
mod project;
mod questions;
mod same;
mod step;
mod tables;

pub use desk::Desk;
pub use dialogue::{Cause, Change, Command, Reply};
pub use keeper::{Keeper, KeeperEnd};
pub use laws::{
    entries_are_one, entry_is_one, past_is_taken_back, redo_gives_back, step_leads_to_one,
    steps_stand, tables_hold_what_was_put, tables_stand_for_entries, undo_gives_back,
};
pub use memory::MemKeeper;
pub use project::Project;
pub use step::Step;
pub use vocabulary::{Name, NotName};

#[cfg(test)]
mod desk_tests;
#[cfg(test)]
mod tests;
