//! The native text of a pattern: a line for the sheet, and then a line for each crease. The first
//! line is `q2 1` for the sheet of width 1 and height 1, and `q2 2 W H` with the width and the
//! height for every other sheet.
mod delta;
mod header;
mod line;
mod place;
mod read;
mod single;
mod split;
mod write;

pub use delta::{delta_bytes, read_delta};
pub use read::read_pattern;
pub use single::{put_crease, put_seg, read_crease, read_seg};
pub use write::pattern_bytes;

/// Why a line of native text is refused. A line is tested in the order of these numbers.
#[derive(Clone, Copy, Debug, PartialEq, Eq)]
pub enum PatternWhy {
    /// It is not of the form, a number on it is not the text of one in lowest terms, or it has no
    /// line feed. Line 1 is that of no sheet.
    Line = 1,
    /// A number on it is out of range: its a or b is above 2^48 in size, or its d above 2^20.
    Range = 2,
    /// An end is not in the sheet.
    Outside = 3,
    /// The first end is not the lesser one, or the segment is not after that of the line before.
    Order = 4,
    /// No sixteenth direction joins the ends.
    NotDirection = 5,
    /// The segment lies on a side of the sheet.
    OnBorder = 6,
    /// It has more than one point in common with an earlier segment.
    Overlap = 7,
    /// It is the 20,001st crease.
    TooMany = 8,
}

/// The first bad line of a text that is no pattern's, counted from 1, and why it is refused.
#[derive(Clone, Copy, Debug, PartialEq, Eq)]
pub struct PatternBad {
    pub line: u64,
    pub why: PatternWhy,
}
