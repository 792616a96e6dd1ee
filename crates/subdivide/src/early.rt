//! Whether all common points of lines are known to be within range, so that a sweep that has found too
//! many points need not go on.

ghost use Rattle.std.specs.Prelude.{◌≡◌, true};
ghost use Rattle.subdivide.specs.Lines.{AreMarked};
ghost use Rattle.subdivide.specs.Found.{AreSmall, AreHeld};

use crate::line::MarkedLine;
use forms::{common_multiple, is_small};

/// Whether every common point of two lines of different directions is known to be within range: each
/// begins at a point that is small over one denominator.
pub fn are_held(lines: &[MarkedLine]) -> bool
    requires { AreMarked lines.now }
    ensures { result ≡ true → AreHeld lines.now }
{
    match denominator_of(lines) {
        Some(d) => are_small(lines, d),
        None => false,
    }
}

/// A common denominator of the points at which the lines begin, if there is a small one.
fn denominator_of(lines: &[MarkedLine]) -> Option<u64> {
    let mut d = 1;
    for line in lines {
        d = common_multiple(d, &line.seg.p())?;
    }
    Some(d)
}

/// Whether each line begins at a point that is small over a denominator.
fn are_small(lines: &[MarkedLine], d: u64) -> bool
    ensures { result ≡ true → AreSmall d lines.now }
{
    for line in lines {
        if !is_small(d, &line.seg.p()) {
            return false;
        }
    }
    true
}
