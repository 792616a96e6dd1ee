//! Segments: two ends in order, joined by one of the sixteen directions.
ghost use Rattle.std.specs.Prelude.{◌≡◌, ◌≢◌, ℕ, ◌<◌, ◌≤◌, ◌^◌, ◌⊎◌, IfOk, IfSome, IsNone, IsTrue, ◌↔◌, Err};
ghost use Rattle.exact.specs.Plane.{ExactSegment, Before, DirOf, IsSegment, OnSeg, IsPointCanonical};
ghost use Rattle.geometry.specs.Root.{size};
ghost use Rattle.plane.specs.Ways.{root, tilted, IsAlong, IsAhead};
ghost use Rattle.plane.specs.Segments.{HasEnds, IsHeld};
ghost use Rattle.plane.specs.declared.segment.SegBad.{SegBad};

use crate::Point;
use crate::order::{is_before, is_level, is_plumb, is_same_point};
use crate::sides::is_on_line;
use crate::ways::Way;
use qroot2::{Dir, Wide};
use std::marker::Model;

/// A segment: two points, the lesser and the greater, that one of the sixteen directions joins.
/// Segments are ordered by their lesser ends, and then by their greater ones.
#[derive(Clone, Copy, Debug, PartialEq, Eq, PartialOrd, Ord, Hash)]
pub struct Seg {
    p: Point,
    q: Point,
}

impl Model for Seg {
    ghost use Rattle.exact.specs.Plane.{ExactSegment};
    ghost use Rattle.plane.specs.Segments.{IsHeld};

    ghost Value = { ExactSegment };

    ghost view = { λ s. record { p = s.p; q = s.q } };

    ghost invariant = { λ s. IsHeld (record { p = s.p; q = s.q }) };

    ghost inverse = { λ v. record { p = v.p; q = v.q } };
}

/// Why two points are not the ends of a segment.
#[derive(Clone, Copy, Debug, PartialEq, Eq)]
pub enum SegBad {
    /// They are one point.
    SamePoint = 1,
    /// They are two points, and none of the sixteen directions leads from one to the other.
    NotDirection = 2,
}

impl Seg {
    /// The segment between two points, given in either order.
    pub fn new(p: Point, q: Point) -> Result<Seg, SegBad>
        ensures ok { IfOk result (λ s. IsSegment s × HasEnds s p q) }
        ensures held { IfOk result IsHeld }
        ensures same_point { (result ≡ Err SegBad.SamePoint) ↔ (p ≡ q) }
        ensures not_direction { (result ≡ Err SegBad.NotDirection)
            ↔ ((p ≢ q) × ((s : ExactSegment) → HasEnds s p q → ¬ IsSegment s)) }
    {
        let (seg, _) = directed(p, q)?;
        Ok(seg)
    }

    /// The lesser end.
    pub fn p(&self) -> Point
        ensures value { result ≡ self.now.p }
        ensures canonical { IsPointCanonical result }
        ensures segment { IsSegment self.now }
    {
        self.p
    }

    /// The greater end.
    pub fn q(&self) -> Point
        ensures value { result ≡ self.now.q }
        ensures canonical { IsPointCanonical result }
        ensures segment { IsSegment self.now }
    {
        self.q
    }

    /// The direction from the lesser end to the greater one.
    pub fn dir(&self) -> Dir
        ensures leads { DirOf self.now.p self.now.q result }
        ensures small { result < 16 }
        ensures segment { IsSegment self.now }
        ensures only { (k : ℕ) → k < 16 → DirOf self.now.p self.now.q k → k ≡ result }
    {
        direction(&self.p, &self.q).unwrap()
    }
}

/// Whether a point lies on a segment, at an end or between its ends.
pub fn on(seg: &Seg, point: &Point) -> bool
    ensures { IsTrue result ↔ OnSeg point.now seg.now }
{
    is_between(seg, point) && is_on_line(&seg.p(), seg.dir(), point)
}

/// Whether a point is not before the lesser end and not after the greater one.
pub(crate) fn is_between(seg: &Seg, point: &Point) -> bool
    ensures { IsTrue result ↔ ((¬ Before point.now seg.now.p) × (¬ Before seg.now.q point.now)) }
{
    !is_before(point, &seg.p()) && !is_before(&seg.q(), point)
}

/// The segment from one point to a later one.
pub(crate) fn joined(p: Point, q: Point) -> Seg
    requires { let s : ExactSegment = record { p = p; q = q } in IsSegment s }
    ensures is { result ≡ record { p = p; q = q } }
    ensures held { IsHeld result }
{
    let _p = (p.x.d(), p.y.d());
    let _q = (q.x.d(), q.y.d());
    Seg { p, q }
}

/// The segment between two points, given in either order, and the direction from its lesser end to
/// its greater one.
pub(crate) fn directed(p: Point, q: Point) -> Result<(Seg, Dir), SegBad>
    ensures ok { IfOk result (λ s. IsSegment s.0 × HasEnds s.0 p q) }
    ensures held { IfOk result (λ s. IsHeld s.0) }
    ensures dir { IfOk result (λ s. (s.1 < 16) × DirOf s.0.p s.0.q s.1) }
    ensures same_point { (result ≡ Err SegBad.SamePoint) ↔ (p ≡ q) }
    ensures not_direction { (result ≡ Err SegBad.NotDirection)
        ↔ ((p ≢ q) × ((s : ExactSegment) → HasEnds s p q → ¬ IsSegment s)) }
{
    if is_same_point(&p, &q) {
        return Err(SegBad::SamePoint);
    }
    if is_before(&p, &q) {
        in_order(p, q)
    } else {
        in_order(q, p)
    }
}

/// The segment from one point to a later one, and its direction, if one of the sixteen leads there.
fn in_order(p: Point, q: Point) -> Result<(Seg, Dir), SegBad>
    requires { Before p q }
    ensures ok { IfOk result (λ s. IsSegment s.0 × (s.0 ≡ record { p = p; q = q })) }
    ensures held { IfOk result (λ s. IsHeld s.0) }
    ensures dir { IfOk result (λ s. (s.1 < 16) × DirOf s.0.p s.0.q s.1) }
    ensures not_direction { (result ≡ Err SegBad.NotDirection)
        ↔ (let s : ExactSegment = record { p = p; q = q } in ¬ IsSegment s) }
    ensures not_same { result ≢ Err SegBad.SamePoint }
{
    match direction(&p, &q) {
        Some(dir) => Ok((joined(p, q), dir)),
        None => Err(SegBad::NotDirection),
    }
}

/// The direction from one point to a later one, or None where none of the sixteen leads there.
fn direction(from: &Point, to: &Point) -> Option<Dir>
    requires { Before from.now to.now }
    ensures some { IfSome result (λ k. (k < 16) × DirOf from.now to.now k) }
    ensures none { IsNone result → (k : ℕ) → k < 16 → ¬ DirOf from.now to.now k }
{
    if is_level(from, to) {
        Dir::new(0)
    } else if is_plumb(from, to) {
        Dir::new(4)
    } else {
        slanted(&Way::new(from, to))
    }
}

/// The direction, one that leads to later points, along whose lines a way leads, if there is one.
fn slanted(way: &Way) -> Option<Dir>
    requires x { size (root way.now.x) ≤ 2 ^ 110 }
    requires y { size (root way.now.y) ≤ 2 ^ 110 }
    ensures some { IfSome result (λ k. IsAhead k × IsAlong k (root way.now.x) (root way.now.y)) }
    ensures none { IsNone result → (k : ℕ) → IsAhead k → ¬ IsAlong k (root way.now.x) (root way.now.y) }
{
    let (x, y) = (way.x, way.y);
    if y == x {
        Dir::new(2)
    } else if y == -x {
        Dir::new(14)
    } else {
        oblique(x, y)
    }
}

/// The same of a way that is not diagonal. No product is taken.
fn oblique(x: Wide, y: Wide) -> Option<Dir>
    requires x { size (root x) ≤ 2 ^ 110 }
    requires y { size (root y) ≤ 2 ^ 110 }
    ensures some { IfSome result (λ k. IsAhead k × IsAlong k (root x) (root y)) }
    ensures none { IsNone result → (k : ℕ) → IsAhead k → (k ≡ 2)
        ⊎ ((k ≡ 14) ⊎ (¬ IsAlong k (root x) (root y))) }
{
    let (low, narrow) = (lessened(x), lessened(y));
    if y == low {
        Dir::new(1)
    } else if y == -low {
        Dir::new(15)
    } else if x == narrow {
        Dir::new(3)
    } else if x == -narrow {
        Dir::new(13)
    } else {
        axial(x, y)
    }
}

/// The direction of an axis along which a way leads, if it does.
fn axial(x: Wide, y: Wide) -> Option<Dir>
    ensures some { IfSome result (λ k. ((k ≡ 0) ⊎ (k ≡ 4)) × IsAlong k (root x) (root y)) }
    ensures none { IsNone result → (¬ IsAlong 0 (root x) (root y)) × (¬ IsAlong 4 (root x) (root y)) }
{
    let none = Wide::new(0, 0);
    if y == none {
        Dir::new(0)
    } else if x == none {
        Dir::new(4)
    } else {
        None
    }
}

/// A number times √2 - 1.
fn lessened(x: Wide) -> Wide
    requires { size (root x) ≤ 2 ^ 110 }
    ensures { result ≡ tilted x }
{
    let (a, b) = (x.a(), x.b());
    Wide::new(2 * b - a, a - b)
}
