//! The common point of two lines.
ghost use Rattle.std.specs.Prelude.{◌≡◌, ◌≢◌, ◌*◌, ◌%◌, ◌<◌, ◌≤◌, ◌^◌, IfSome, IfNone, unsigned_abs};
ghost use Rattle.exact.specs.Number.{IsCanonical, IsRepresentable, Same};
ghost use Rattle.exact.specs.Plane.{ExactPoint, IsPointCanonical, IsPointRepresentable, vector};
ghost use Rattle.geometry.specs.Root.{times, size};
ghost use Rattle.geometry.specs.Gap.{det as det_of, norm as norm_of, partner as partner_of};
ghost use Rattle.plane.specs.Ways.{root};
ghost use Rattle.plane.specs.Sides.{IsOnLine};
ghost use Rattle.plane.specs.Crossings.{over, lift_of, weight_of};

use crate::Point;
use crate::sides::offset;
use crate::ways::{Way, cross_product, product, scaled, two_products, weight};
use qroot2::{Dir, Num, Wide};

/// The common point of the line through `p` in direction `first` and the line through `q` in
/// direction `second`, which are not parallel. None where that point cannot be held.
pub fn cross_lines(p: &Point, first: Dir, q: &Point, second: Dir) -> Option<Point>
    requires { first % 8 ≢ second % 8 }
    ensures some { IfSome result (λ c. IsOnLine p.now first c × IsOnLine q.now second c) }
    ensures canonical { IfSome result IsPointCanonical }
    ensures none { IfNone result
        ((c : ExactPoint) → IsOnLine p.now first c → IsOnLine q.now second c → ¬ IsPointRepresentable c) }
{
    // both are below 16
    let _numbers = (first.number(), second.number());
    let det = determinant(first, second);
    let by = partner(det);
    let below = denominators(det, p, q);
    let a = lifted(q, second, p);
    let b = lifted(p, first, q);
    let (vx, vy) = first.vector();
    let (wx, wy) = second.vector();
    let x = quotient(cross_product(vx, wx, b, a), by, below)?;
    let y = quotient(cross_product(vy, wy, b, a), by, below)?;
    Some(Point { x, y })
}

/// The determinant of the vectors of two directions, from the second to the first.
fn determinant(first: Dir, second: Dir) -> Wide
    ensures value { root result ≡ det_of (vector second) (vector first) }
    ensures within { size (root result) ≤ 16 }
{
    Dir::det(second, first)
}

/// How far the line through a point is from the origin, over the denominators of that point and of
/// another one.
fn lifted(at: &Point, dir: Dir, other: &Point) -> Wide
    ensures value { root result ≡ lift_of dir at.now other.now }
    ensures within { size (root result) ≤ 2 ^ 112 }
{
    scaled(offset(dir, &Way::from_origin(at)), weight(other))
}

/// The denominator of the common point: the denominators of both points, times the whole number
/// that a determinant becomes times its partner.
fn denominators(det: Wide, p: &Point, q: &Point) -> u128
    requires det { size (root det) ≤ 16 }
    requires whole { (0 < unsigned_abs (norm_of (root det))) × (unsigned_abs (norm_of (root det)) < 9) }
    ensures value { result ≡ unsigned_abs (norm_of (root det)) * (weight_of p.now * weight_of q.now) }
    ensures within { (0 < result) × (result ≤ 2 ^ 84) }
{
    u128::from(whole(det)) * (u128::from(weight(p)) * u128::from(weight(q)))
}

/// A number times another over a whole number, or None where it cannot be held.
fn quotient(n: Wide, by: Wide, below: u128) -> Option<Num>
    requires n { size (root n) ≤ 2 ^ 115 }
    requires by { size (root by) ≤ 16 }
    requires below { (0 < below) × (below ≤ 2 ^ 84) }
    ensures some { IfSome result (λ x. Same x (over (times (root n) (root by)) below) × IsCanonical x) }
    ensures none { IfNone result (¬ IsRepresentable (over (times (root n) (root by)) below)) }
{
    let top = product(n, by);
    Num::new(top.a(), top.b(), below as i128)
}

/// What a number is multiplied by to become a whole number: its conjugate, or the negative of that.
fn partner(x: Wide) -> Wide
    requires { size (root x) ≤ 16 }
    ensures value { root result ≡ partner_of (root x) }
    ensures within { size (root result) ≤ 16 }
{
    if norm(x) < 0 {
        Wide::new(-x.a(), x.b())
    } else {
        Wide::new(x.a(), -x.b())
    }
}

/// The whole number that a number times its partner is.
fn whole(x: Wide) -> u64
    requires { size (root x) ≤ 16 }
    ensures { result ≡ unsigned_abs (norm_of (root x)) }
{
    norm(x).unsigned_abs() as u64
}

/// A number times its conjugate, a a - 2 b b.
fn norm(x: Wide) -> i128
    requires { size (root x) ≤ 16 }
    ensures value { result ≡ norm_of (root x) }
    ensures within { unsigned_abs result ≤ 1024 }
{
    let (a, b) = (x.a(), x.b());
    two_products(a, a, -2 * b, b)
}
