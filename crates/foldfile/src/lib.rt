//! FOLD text, the JSON text in which origami programs exchange crease patterns.
#![tactic(auto)]

mod items;
mod laws;
mod list;
#[cfg(test)]
mod tests;
mod write;

pub use laws::fold_text_is_one;
pub use write::write_fold;
