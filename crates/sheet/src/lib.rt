//! What the sheet of paper is, and a crease pattern on it.
#![tactic(auto)]

mod colour;
mod mark;
mod size;

pub use colour::Colour;
pub use mark::Mark;
pub use size::Sheet;

/// As many creases may stand in a pattern.
pub const CREASE_LIMIT: usize = 20_000;
