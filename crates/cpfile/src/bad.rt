//! Why a CP text is refused.
use qroot2::Num;

/// Why a CP text is refused: its first bad line, and what is wrong with it.
#[derive(Clone, Copy, Debug, PartialEq, Eq)]
pub struct CpBad {
    /// The number of the line, counted from 1.
    pub line: u64,
    pub why: CpWhy,
}

/// What is wrong with a line, in the order in which it is tested. Fields are counted from 1, and
/// the first is the type of the line.
#[derive(Clone, Copy, Debug, PartialEq, Eq)]
pub enum CpWhy {
    /// The line has more than 256 bytes.
    TooLong,
    /// It is not a type from 0 to 4 and four decimals.
    Line,
    /// The decimal in this field is near no value of the lattice.
    NoNear { field: u8 },
    /// The decimal in this field is near two values of the lattice or more. These are the two least.
    TwoNear { field: u8, first: Num, second: Num },
    /// None of the sixteen directions joins the two points.
    NotDirection,
    /// The line is a contour, and does not lie on one side of the sheet.
    InnerContour,
}
