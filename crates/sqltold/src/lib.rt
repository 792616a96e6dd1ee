//! Projects in tables of SQL.
#![tactic(auto)]

mod commits;
mod creates;
mod file;
mod halt;
mod marks;
mod reads;
mod told;
mod writes;

pub use file::SqlKeeper;
pub use told::SqlTold;

#[cfg(test)]
mod crash_tests;
#[cfg(test)]
mod tests;
