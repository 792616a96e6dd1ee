//! Why a text is no command, and where.

/// Why a text is no command. A column is the place of a byte in its line, counted from 1.
#[derive(Clone, Copy, Debug, PartialEq, Eq)]
pub enum BadText {
    /// A word is wrong, missing or too many, or a line is too long or too many.
    Syntax { column: u64 },
    /// A word is a point of which a number is out of the limits.
    Range { column: u64 },
}
