//! The image of a point in a line.
ghost use Rattle.std.specs.Prelude.{◌+◌, ◌*◌, ◌<◌, ◌≤◌, ◌^◌, IfSome, IfNone};
ghost use Rattle.exact.specs.Number.{IsCanonical, IsRepresentable, Same};
ghost use Rattle.exact.specs.Plane.{ExactPoint, IsPointCanonical, IsPointRepresentable};
ghost use Rattle.geometry.specs.Root.{plus, times, count, size};
ghost use Rattle.plane.specs.Ways.{root};
ghost use Rattle.plane.specs.Crossings.{over};
ghost use Rattle.plane.specs.Images.{AreTurned, IsImage};

use crate::Point;
use crate::ways::{Way, cross_product, scaled, weight};
use qroot2::{Dir, Num, Wide};

/// The image of a point in the line through `at` in direction `axis`: as far from the line as the
/// point, on the other side, with the same foot. None where it is out of range.
pub fn reflect(point: &Point, at: &Point, axis: Dir) -> Option<Point>
    ensures some { IfSome result (λ q. IsImage at.now axis point.now q) }
    ensures canonical { IfSome result IsPointCanonical }
    ensures none { IfNone result
        ((q : ExactPoint) → IsImage at.now axis point.now q → ¬ IsPointRepresentable q) }
{
    // below 16
    let _number = axis.number();
    let (cosine, sine) = doubled(axis);
    let way = Way::new(at, point);
    let from = Way::from_origin(at);
    let others = 2 * weight(point);
    let below = u128::from(weight(at)) * u128::from(others);
    let x = moved(
        from.x,
        others,
        cross_product(sine, -cosine, way.x, way.y),
        below,
    )?;
    let y = moved(
        from.y,
        others,
        cross_product(-cosine, -sine, way.x, way.y),
        below,
    )?;
    Some(Point { x, y })
}

/// Twice the cosine and the sine of twice the angle of a direction.
fn doubled(axis: Dir) -> (Wide, Wide)
    ensures turned { AreTurned axis (root result.0) (root result.1) }
    ensures small { (size (root result.0) ≤ 2) × (size (root result.1) ≤ 2) }
{
    let (x, y) = axis.turn(axis.number()).vector();
    if axis.number() % 2 == 0 {
        (x + x, y + y)
    } else {
        // The vector leads along a diagonal, and is √2 long.
        (Wide::new(0, x.a()), Wide::new(0, y.a()))
    }
}

/// A multiple and a number, over a whole number, or None where that cannot be held.
fn moved(from: Wide, others: u64, by: Wide, below: u128) -> Option<Num>
    requires from { size (root from) ≤ 2 ^ 69 }
    requires others { others ≤ 2 ^ 41 }
    requires by { size (root by) ≤ 2 ^ 115 }
    requires below { (0 < below) × (below ≤ 2 ^ 84) }
    ensures some { IfSome result
        (λ x. Same x (over (plus (times (root from) (count others)) (root by)) below) × IsCanonical x) }
    ensures none { IfNone result
        (¬ IsRepresentable (over (plus (times (root from) (count others)) (root by)) below)) }
{
    let top = scaled(from, others) + by;
    Num::new(top.a(), top.b(), below as i128)
}
