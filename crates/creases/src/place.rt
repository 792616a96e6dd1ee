//! Where a crease stands among others: on which line, and from where.
ghost use Rattle.plane.specs.Segments.{IsHeld};
ghost use Rattle.plane.specs.Support.{IsSupportOf};
ghost use Rattle.creases.specs.Places.{IsPlaceOf, IsEndOf};

use plane::{Point, Seg, SupportLine};

/// The line on which a segment lies, and its lesser end. Segments that do not overlap have
/// different places, and those of one line follow one another in the order of places.
#[derive(Clone, Copy, Debug, PartialEq, Eq, PartialOrd, Ord)]
pub(crate) struct Place {
    pub(crate) line: SupportLine,
    pub(crate) from: Point,
}

impl Place {
    /// The place of a segment.
    pub(crate) fn of(seg: &Seg) -> Place
        ensures place { IsPlaceOf seg.now result }
        ensures held { IsHeld seg.now }
    {
        Place::on(SupportLine::of(seg), seg)
    }

    /// The place of a segment on this line.
    pub(crate) fn on(line: SupportLine, seg: &Seg) -> Place
        requires { IsSupportOf seg.now line }
        ensures place { IsPlaceOf seg.now result }
        ensures held { IsHeld seg.now }
    {
        let _to = seg.q();
        Place {
            line,
            from: seg.p(),
        }
    }

    /// The place at which a segment ends, which is found from the place of the segment.
    pub(crate) fn end_of(&self, seg: &Seg) -> Place
        requires { IsPlaceOf seg.now self.now }
        ensures { IsEndOf seg.now result }
    {
        Place {
            line: self.line,
            from: seg.q(),
        }
    }
}
