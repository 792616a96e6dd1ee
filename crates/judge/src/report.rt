//! What is said of a vertex of a pattern.
use crate::Verdict;
use layers::Star;

/// What is said of a vertex of a pattern.
#[derive(Drop)]
pub enum Report {
    /// It is on the border of the sheet, where nothing is judged.
    Border,
    /// It is strictly inside the sheet.
    Judged {
        /// Its mountains and valleys.
        star: Star,
        /// Whether it folds flat with them.
        verdict: Verdict,
    },
}
