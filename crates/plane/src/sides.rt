//! On which side of a line a point is, or a segment.
ghost use Rattle.std.specs.Prelude.{◌≡◌, ◌≤◌, ◌^◌, IsTrue, ◌↔◌};
ghost use Rattle.geometry.specs.Root.{size};
ghost use Rattle.plane.specs.Ways.{root, offset_of, IsAlong};
ghost use Rattle.plane.specs.Sides.{IsSide, IsOnLine, IsBeside, IsOneSide};

use crate::order::{is_level, is_plumb};
use crate::ways::{Way, cross_product};
use crate::{Point, Seg};
use qroot2::{Dir, Sign, Wide};

/// On which side of the line through `at` in direction `dir` a point is: Plus on its left, Minus on
/// its right, Zero on the line. Exact for all points.
pub fn side(at: &Point, dir: Dir, point: &Point) -> Sign
    ensures { IsSide at.now dir point.now result }
{
    offset(dir, &Way::new(at, point)).sign()
}

/// Whether a point is on the line through `at` in direction `dir`.
pub fn is_on_line(at: &Point, dir: Dir, point: &Point) -> bool
    ensures { IsTrue result ↔ IsOnLine at.now dir point.now }
{
    match dir.number() {
        0 => is_level(at, point),
        4 => is_plumb(at, point),
        _ => is_along(dir, &Way::new(at, point)),
    }
}

/// Whether both ends of a segment are strictly on one side of the line through `at` in direction `dir`.
pub fn is_beside(seg: &Seg, at: &Point, dir: Dir) -> bool
    ensures { IsTrue result ↔ IsBeside at.now dir seg.now }
{
    are_one_side(side(at, dir, &seg.p()), side(at, dir, &seg.q()))
}

/// Whether two signs are one, and not zero.
pub fn are_one_side(first: Sign, second: Sign) -> bool
    ensures { IsTrue result ↔ IsOneSide first second }
{
    match (first, second) {
        (Sign::Plus, Sign::Plus) | (Sign::Minus, Sign::Minus) => true,
        _ => false,
    }
}

/// Whether a way leads along the lines of a direction.
pub(crate) fn is_along(dir: Dir, way: &Way) -> bool
    requires x { size (root way.now.x) ≤ 2 ^ 110 }
    requires y { size (root way.now.y) ≤ 2 ^ 110 }
    ensures { IsTrue result ↔ IsAlong dir (root way.now.x) (root way.now.y) }
{
    let off = offset(dir, way);
    off.a() == 0 && off.b() == 0
}

/// How far a way leads to the left of a direction.
pub(crate) fn offset(dir: Dir, way: &Way) -> Wide
    requires x { size (root way.now.x) ≤ 2 ^ 110 }
    requires y { size (root way.now.y) ≤ 2 ^ 110 }
    ensures { root result ≡ offset_of dir (root way.now.x) (root way.now.y) }
{
    let (x, y) = dir.vector();
    cross_product(x, y, way.x, way.y)
}
