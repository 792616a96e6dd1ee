//! The way from one point to another, by numerators over a common denominator. No value leaves 120 bits.
ghost use Rattle.std.specs.Prelude.{◌≡◌, ◌+◌, ◌*◌, ◌<◌, ◌≤◌, ◌^◌, ℤ, ◌+ℤ◌, ◌-ℤ◌, ◌*ℤ◌, unsigned_abs};
ghost use Rattle.exact.specs.Number.{den, sub};
ghost use Rattle.geometry.specs.Root.{plus, minus, times, count, size};
ghost use Rattle.geometry.specs.Gap.{num, dn, gx, gy};
ghost use Rattle.plane.specs.Ways.{root};
ghost use Rattle.plane.specs.Crossings.{weight_of};

use crate::Point;
use qroot2::{Num, Wide};

/// The way from one point to another, both parts times the product of the four denominators.
#[derive(Clone, Copy)]
pub(crate) struct Way {
    pub(crate) x: Wide,
    pub(crate) y: Wide,
}

impl Way {
    /// The way from one point to another.
    pub(crate) fn new(from: &Point, to: &Point) -> Way
        ensures x { root result.x ≡ gx from.now to.now }
        ensures y { root result.y ≡ gy from.now to.now }
        ensures within { (size (root result.x) ≤ 2 ^ 110) × (size (root result.y) ≤ 2 ^ 110) }
    {
        Way {
            x: scaled(difference(&to.x, &from.x), denominator(&to.y, &from.y)),
            y: scaled(difference(&to.y, &from.y), denominator(&to.x, &from.x)),
        }
    }

    /// The way from the origin to a point, times the product of its two denominators.
    pub(crate) fn from_origin(point: &Point) -> Way
        ensures x { root result.x ≡ times (num point.now.x) (dn point.now.y) }
        ensures y { root result.y ≡ times (num point.now.y) (dn point.now.x) }
        ensures within { (size (root result.x) ≤ 2 ^ 69) × (size (root result.y) ≤ 2 ^ 69) }
    {
        Way {
            x: scaled(numerator(&point.x), below(&point.y)),
            y: scaled(numerator(&point.y), below(&point.x)),
        }
    }
}

/// The product of the denominators of a point.
pub(crate) fn weight(point: &Point) -> u64
    ensures value { result ≡ weight_of point.now }
    ensures within { (0 < result) × (result ≤ 2 ^ 40) }
{
    below(&point.x) * below(&point.y)
}

fn numerator(x: &Num) -> Wide
    ensures value { root result ≡ num x.now }
    ensures within { size (root result) ≤ 2 ^ 49 }
{
    Wide::new(i128::from(x.a()), i128::from(x.b()))
}

fn below(x: &Num) -> u64
    ensures value { result ≡ den x.now }
    ensures within { (0 < result) × (result ≤ 2 ^ 20) }
{
    x.d().unsigned_abs()
}

/// The numerator of x - y, over the product of both denominators.
fn difference(x: &Num, y: &Num) -> Wide
    ensures value { root result ≡ num (sub x.now y.now) }
    ensures within { size (root result) ≤ 2 ^ 70 }
{
    Wide::new(
        crossed(x.a(), y.a(), x.d(), y.d()),
        crossed(x.b(), y.b(), x.d(), y.d()),
    )
}

/// The product of both denominators.
pub(crate) fn denominator(x: &Num, y: &Num) -> u64
    ensures value { result ≡ den (sub x.now y.now) }
    ensures within { result ≤ 2 ^ 40 }
{
    below(x) * below(y)
}

/// x e - y d.
fn crossed(x: i64, y: i64, d: i64, e: i64) -> i128
    requires x { unsigned_abs x ≤ 2 ^ 48 }
    requires y { unsigned_abs y ≤ 2 ^ 48 }
    requires d { unsigned_abs d ≤ 2 ^ 20 }
    requires e { unsigned_abs e ≤ 2 ^ 20 }
    ensures value { result ≡ x *ℤ e -ℤ y *ℤ d }
    ensures within { unsigned_abs result ≤ 2 ^ 69 }
{
    part(x, e) - part(y, d)
}

fn part(x: i64, d: i64) -> i128
    requires x { unsigned_abs x ≤ 2 ^ 48 }
    requires d { unsigned_abs d ≤ 2 ^ 20 }
    ensures value { result ≡ x *ℤ d }
    ensures within { unsigned_abs result ≤ 2 ^ 68 }
{
    i128::from(x) * i128::from(d)
}

/// A multiple.
pub(crate) fn scaled(x: Wide, n: u64) -> Wide
    requires { size (root x) * n ≤ 2 ^ 120 }
    ensures { root result ≡ times (root x) (count n) }
{
    let n = i128::from(n);
    Wide::new(x.a() * n, x.b() * n)
}

/// The product of two numbers.
pub(crate) fn product(x: Wide, y: Wide) -> Wide
    requires { 2 * (size (root x) * size (root y)) ≤ 2 ^ 120 }
    ensures { root result ≡ times (root x) (root y) }
{
    let (a, b) = (x.a(), x.b());
    let (c, d) = (y.a(), y.b());
    Wide::new(two_products(a, c, 2 * b, d), two_products(a, d, b, c))
}

/// The turn from one vector, with small parts, to another: vx y - vy x.
pub(crate) fn cross_product(vx: Wide, vy: Wide, x: Wide, y: Wide) -> Wide
    requires vx { size (root vx) ≤ 2 }
    requires vy { size (root vy) ≤ 2 }
    requires x { size (root x) ≤ 2 ^ 112 }
    requires y { size (root y) ≤ 2 ^ 112 }
    ensures value { root result ≡ plus (times (root vx) (root y)) (minus (times (root vy) (root x))) }
    ensures within { size (root result) ≤ 2 ^ 115 }
{
    product(vx, y) - product(vy, x)
}

/// a c + b d.
pub(crate) fn two_products(a: i128, c: i128, b: i128, d: i128) -> i128
    requires { unsigned_abs a * unsigned_abs c + unsigned_abs b * unsigned_abs d ≤ 2 ^ 120 }
    ensures value { result ≡ a *ℤ c +ℤ b *ℤ d }
    ensures within { unsigned_abs result ≤ 2 ^ 120 }
{
    a * c + b * d
}
