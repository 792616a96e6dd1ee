//! The order of numbers and of points, as tests.
ghost use Rattle.std.specs.Prelude.{◌≡◌, IsTrue, ◌↔◌};
ghost use Rattle.exact.specs.Number.{Less, Same};
ghost use Rattle.exact.specs.Plane.{Before, SamePoint};
ghost use Rattle.geometry.specs.Meeting.{IsLater, IsEarlier};

use crate::Point;
use qroot2::Num;

/// Whether x is below y.
fn is_less(x: &Num, y: &Num) -> bool
    ensures { IsTrue result ↔ Less x.now y.now }
{
    let _x = x.d();
    let _y = y.d();
    x.cmp(y).is_lt()
}

/// Whether x and y are one number.
fn is_same(x: &Num, y: &Num) -> bool
    ensures same { IsTrue result ↔ Same x.now y.now }
    ensures equal { IsTrue result ↔ (x.now ≡ y.now) }
{
    let _x = x.d();
    let _y = y.d();
    x == y
}

/// Whether two points are one.
pub fn is_same_point(p: &Point, q: &Point) -> bool
    ensures same { IsTrue result ↔ SamePoint p.now q.now }
    ensures equal { IsTrue result ↔ (p.now ≡ q.now) }
{
    is_same(&p.x, &q.x) && is_same(&p.y, &q.y)
}

/// Whether the first point is before the second.
pub fn is_before(first: &Point, second: &Point) -> bool
    ensures { IsTrue result ↔ Before first.now second.now }
{
    is_less(&first.x, &second.x) || (is_same(&first.x, &second.x) && is_less(&first.y, &second.y))
}

/// The later of two points.
pub fn later(a: &Point, b: &Point) -> Point
    ensures { IsLater a.now b.now result }
{
    if is_before(a, b) { *b } else { *a }
}

/// The earlier of two points.
pub fn earlier(a: &Point, b: &Point) -> Point
    ensures { IsEarlier a.now b.now result }
{
    if is_before(b, a) { *b } else { *a }
}

/// Whether two points are at one height.
pub(crate) fn is_level(a: &Point, b: &Point) -> bool
    ensures { IsTrue result ↔ Same a.now.y b.now.y }
{
    is_same(&a.y, &b.y)
}

/// Whether two points are one above the other.
pub(crate) fn is_plumb(a: &Point, b: &Point) -> bool
    ensures { IsTrue result ↔ Same a.now.x b.now.x }
{
    is_same(&a.x, &b.x)
}
