//! A line of a pattern with what tells it from others: its direction, and the marks of its ends.

ghost use Rattle.std.specs.Prelude.{◌≡◌, ◌<◌, ◌≤◌, ◌^◌};
ghost use Rattle.subdivide.specs.Lines.{IsMarkedBy, end_at as end_of, mark_at};

use crate::EdgeKind;
use forms::Marks;
use plane::{Point, Seg};
use qroot2::Dir;

/// An end of a segment.
#[derive(Clone, Copy)]
pub enum End {
    Lesser,
    Greater,
}

/// A side of the sheet or a crease, with the kind of the edges on it, its direction, and the marks of
/// its ends.
#[derive(Clone, Copy)]
pub struct MarkedLine {
    pub seg: Seg,
    pub kind: EdgeKind,
    pub dir: Dir,
    pub lesser: Marks,
    pub greater: Marks,
}

impl MarkedLine {
    pub fn new(scale: u64, seg: Seg, kind: EdgeKind) -> MarkedLine
        requires { scale ≤ 2 ^ 32 }
        ensures seg { result.seg ≡ seg }
        ensures kind { result.kind ≡ kind }
        ensures marked { IsMarkedBy scale result }
    {
        MarkedLine {
            seg,
            kind,
            dir: seg.dir(),
            lesser: Marks::of(scale, &seg.p()),
            greater: Marks::of(scale, &seg.q()),
        }
    }
}

/// The mark of an end of a line in a row.
pub fn mark(line: &MarkedLine, end: End, row: usize) -> i32
    requires { row < 8 }
    ensures { result ≡ mark_at line.now end row }
{
    match end {
        End::Lesser => line.lesser.at(row),
        End::Greater => line.greater.at(row),
    }
}

/// An end of a segment.
pub fn end_at(seg: &Seg, end: End) -> Point
    ensures { result ≡ end_of seg.now end }
{
    match end {
        End::Lesser => seg.p(),
        End::Greater => seg.q(),
    }
}
