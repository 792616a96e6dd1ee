//! The line on which a segment lies, as a key under which segments of one line are found.
ghost use Rattle.std.specs.Prelude.{◌≡◌, ◌≢◌, ◌↔◌, IfOk, Err};
ghost use Rattle.exact.specs.Number.{Same};
ghost use Rattle.exact.specs.Plane.{ExactSegment, IsSegment, vector, turn};
ghost use Rattle.qroot2.specs.Lowest.{IsInLowestTerms};
ghost use Rattle.plane.specs.Segments.{HasEnds, IsHeld};
ghost use Rattle.plane.specs.Support.{IsSupportOf};
ghost use Rattle.plane.specs.declared.segment.SegBad.{SegBad};

use crate::segment::directed;
use crate::sides::offset;
use crate::ways::{Way, denominator};
use crate::{Point, Seg, SegBad};
use qroot2::{Dir, Lowest};
use std::marker::Model;

/// The line on which a segment lies: its direction, one of eight, and how far it runs to the left
/// of the origin. Two segments have the same one exactly where they lie on one line. The order is
/// for use as a key.
#[derive(Clone, Copy, Debug, PartialEq, Eq, PartialOrd, Ord, Hash)]
pub struct SupportLine {
    dir: Dir,
    offset: Lowest,
}

impl Model for SupportLine {
    ghost use Rattle.plane.specs.Support.{ExactLine};

    ghost Value = { ExactLine };

    ghost view = { λ s. record { dir = s.dir; offset = s.offset } };

    ghost inverse = { λ v. record { dir = v.dir; offset = v.offset } };
}

impl SupportLine {
    /// The line on which a segment lies.
    pub fn of(seg: &Seg) -> SupportLine
        ensures { IsSupportOf seg.now result }
    {
        SupportLine::through(&seg.p(), seg.dir())
    }

    /// The line through a point in a direction.
    fn through(p: &Point, dir: Dir) -> SupportLine
        ensures dir { result.dir ≡ dir }
        ensures lowest { IsInLowestTerms result.offset }
        ensures offset { Same result.offset (turn (vector dir) p.now) }
    {
        let offset = offset(dir, &Way::from_origin(p));
        SupportLine {
            dir,
            offset: Lowest::new(offset.a(), offset.b(), u128::from(denominator(&p.x, &p.y))),
        }
    }
}

impl Seg {
    /// The segment between two points, given in either order, and the line on which it lies. It is
    /// refused as by `Seg::new`.
    pub fn with_line(p: Point, q: Point) -> Result<(Seg, SupportLine), SegBad>
        ensures ok { IfOk result (λ s. IsSegment s.0 × HasEnds s.0 p q) }
        ensures held { IfOk result (λ s. IsHeld s.0) }
        ensures line { IfOk result (λ s. IsSupportOf s.0 s.1) }
        ensures same_point { (result ≡ Err SegBad.SamePoint) ↔ (p ≡ q) }
        ensures not_direction { (result ≡ Err SegBad.NotDirection)
            ↔ ((p ≢ q) × ((s : ExactSegment) → HasEnds s p q → ¬ IsSegment s)) }
    {
        let (seg, dir) = directed(p, q)?;
        Ok((seg, SupportLine::through(&seg.p(), dir)))
    }
}
