//! The rows of a kept project, and the project for which they stand.
#![tactic(auto)]

mod crease_rows;
mod laws;
mod project;
mod step_rows;

pub use crease_rows::CreaseRow;
pub use laws::{rows_after_a_delta, rows_after_a_redo, rows_after_an_undo, rows_stand_for_one};
pub use project::{ProjectRow, STEP_LIMIT, SheetRow, are_marks, project_of};
pub use step_rows::StepRow;

#[cfg(test)]
mod tests;
