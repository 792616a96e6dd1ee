//! The sign of a number.
/// Which side of zero.
#[derive(Clone, Copy, Debug, PartialEq, Eq, PartialOrd, Ord)]
pub enum Sign {
    Minus,
    Zero,
    Plus,
}
