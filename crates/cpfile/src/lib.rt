//! CP text, the text in which ORIPA and Oriedita keep crease patterns.
#![tactic(auto)]

mod axis;
mod bad;
mod drawn;
mod fields;
mod laws;
mod line;
mod reading;
#[cfg(test)]
mod tests;
mod writing;
#[cfg(test)]
mod writing_tests;

pub use bad::{CpBad, CpWhy};
pub use drawn::CpLines;
pub use laws::{cp_reading_is_one, cp_text_is_one};
pub use reading::read_cp;
pub use writing::write_cp;
