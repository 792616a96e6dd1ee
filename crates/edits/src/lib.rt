//! What a designer does to a crease pattern: the nine edits, what each makes of a pattern, and why
//! one is refused.
#![tactic(auto)]

mod bisect;
mod border;
mod changes;
mod cutting;
mod draft;
mod drawing;
mod edit;
mod ends;
mod extend;
mod flip;
mod laws;
mod lines;
mod mirror;
mod planning;
mod rabbit_ear;
mod rays;
mod refusal;
mod sight;
mod triangle;

pub use edit::Edit;
pub use laws::{answer_is_one, parts_are_two, patterns_are_kept};
pub use planning::plan;
pub use refusal::{EditBad, PointKind};

#[cfg(test)]
mod extend_tests;
#[cfg(test)]
mod sheet_tests;
#[cfg(test)]
mod tests;
