//! What two segments have in common.
use crate::{Point, Seg};

/// What two segments have in common.
#[derive(Clone, Copy, Debug, PartialEq, Eq)]
pub enum Meet {
    /// No point.
    Apart,
    /// Exactly one point, which is given.
    At(Point),
    /// More than one point. The common part is given.
    Overlap(Seg),
    /// Exactly one point, which cannot be held.
    AtOutOfRange,
}
