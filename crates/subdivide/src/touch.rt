//! What two lines of different directions have in common, by the sides of their ends.

ghost use Rattle.std.specs.Prelude.{◌≡◌, ◌≢◌, ℕ, IfSome, IsNone};
ghost use Rattle.exact.specs.Plane.{IsPointCanonical};
ghost use Rattle.geometry.specs.Meeting.{Along};
ghost use Rattle.plane.specs.Sides.{IsSide};
ghost use Rattle.qroot2.specs.declared.sign.Sign.TheVariants.{Zero};
ghost use Rattle.subdivide.specs.Lines.{IsMarkedBy, end_at as end_of};
ghost use Rattle.subdivide.specs.Touch.{IsTouch, AreCrossing, IsSignAt};

use crate::line::{End, MarkedLine, end_at, mark};
use forms::row_of;
use plane::{Point, Seg, are_one_side, cross_lines, is_same_point, side};
use qroot2::{Dir, Sign};
use std::cmp::Ordering;

/// What two lines have in common, and which of them it cuts.
#[derive(Clone, Copy)]
pub enum Touch {
    /// No point, or an end of both.
    Ends,
    /// An end of the second, inside the first.
    CutsFirst(End),
    /// An end of the first, inside the second.
    CutsSecond(End),
    /// A point inside both.
    CutsBoth(Point),
    /// A point inside both that cannot be held.
    OutOfRange,
}

/// What two lines of different directions have in common. Most is told by the marks of their ends.
pub fn touching(s: &MarkedLine, t: &MarkedLine) -> Touch
    requires marked { (n : ℕ) × IsMarkedBy n s.now × IsMarkedBy n t.now }
    requires different { s.now.dir ≢ t.now.dir }
    ensures { IsTouch s.now.seg t.now.seg result }
{
    let (a, b) = sides_of(t, s);
    if are_one_side(a, b) {
        return Touch::Ends;
    }
    let (c, d) = sides_of(s, t);
    if are_one_side(c, d) {
        return Touch::Ends;
    }
    match (end_on(a, b), end_on(c, d)) {
        (Some(_), Some(_)) => Touch::Ends,
        (Some(end), None) => Touch::CutsSecond(end),
        (None, Some(end)) => Touch::CutsFirst(end),
        (None, None) => inside(&s.seg, s.dir, &t.seg, t.dir),
    }
}

/// On which sides of the first line the ends of the second are.
fn sides_of(line: &MarkedLine, other: &MarkedLine) -> (Sign, Sign)
    requires { (n : ℕ) × IsMarkedBy n line.now × IsMarkedBy n other.now }
    ensures lesser { IsSide line.now.seg.p line.now.dir other.now.seg.p result.0 }
    ensures greater { IsSide line.now.seg.p line.now.dir other.now.seg.q result.1 }
{
    (
        side_of(line, other, End::Lesser),
        side_of(line, other, End::Greater),
    )
}

/// On which side of a line an end of another one is.
fn side_of(line: &MarkedLine, other: &MarkedLine, end: End) -> Sign
    requires { (n : ℕ) × IsMarkedBy n line.now × IsMarkedBy n other.now }
    ensures { IsSide line.now.seg.p line.now.dir (end_of other.now.seg end) result }
{
    let row = row_of(line.dir);
    match mark(other, end, row).cmp(&mark(line, End::Lesser, row)) {
        Ordering::Less => Sign::Minus,
        Ordering::Greater => Sign::Plus,
        Ordering::Equal => exact_side(&line.seg, line.dir, &end_at(&other.seg, end)),
    }
}

/// On which side of a segment a point is. An end of the segment needs no arithmetic.
fn exact_side(seg: &Seg, dir: Dir, point: &Point) -> Sign
    requires { Along seg.now dir }
    ensures { IsSide seg.now.p dir point.now result }
{
    if is_same_point(point, &seg.p()) {
        return Sign::Zero;
    }
    if is_same_point(point, &seg.q()) {
        return Sign::Zero;
    }
    side(&seg.p(), dir, point)
}

/// The end that is on a line, by the sides of both.
fn end_on(lesser: Sign, greater: Sign) -> Option<End>
    ensures some { IfSome result (λ end. IsSignAt lesser greater end Zero) }
    ensures none { IsNone result → (lesser ≢ Zero) × (greater ≢ Zero) }
{
    match (lesser, greater) {
        (Sign::Zero, _) => Some(End::Lesser),
        (_, Sign::Zero) => Some(End::Greater),
        _ => None,
    }
}

/// The point inside both of two segments. Those along the axes need no arithmetic.
fn inside(s: &Seg, k: Dir, t: &Seg, j: Dir) -> Touch
    requires { AreCrossing s.now t.now k j }
    ensures { IsTouch s.now t.now result }
{
    match (k.number(), j.number()) {
        (0, 4) => Touch::CutsBoth(corner(t, s)),
        (4, 0) => Touch::CutsBoth(corner(s, t)),
        _ => match cross_lines(&s.p(), k, &t.p(), j) {
            Some(point) => Touch::CutsBoth(point),
            None => Touch::OutOfRange,
        },
    }
}

/// The point where an upright line meets a level one.
fn corner(upright: &Seg, level: &Seg) -> Point
    ensures value { result ≡ record { x = upright.now.p.x; y = level.now.p.y } }
    ensures canonical { IsPointCanonical result }
{
    Point {
        x: upright.p().x,
        y: level.p().y,
    }
}
