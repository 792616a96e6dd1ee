//! The coordinates of a point over one denominator, and its forms by additions.
ghost use Rattle.std.specs.Prelude.{◌≡◌, ◌*◌, ◌≤◌, ◌^◌};
ghost use Rattle.geometry.specs.Root.{times, count, size};
ghost use Rattle.geometry.specs.Gap.{num};
ghost use Rattle.plane.specs.Ways.{root, tilted, offset_of, IsAhead};
ghost use Rattle.forms.specs.Forms.{IsLifted};

use plane::Point;
use qroot2::{Num, Wide};

/// The coordinates of a point, both times a weight that makes them whole.
#[derive(Drop)]
pub struct Lifted {
    pub x: Wide,
    pub y: Wide,
    pub weight: u64,
}

impl Lifted {
    /// A point. Where both denominators are equal, they are the weight.
    pub fn of(point: &Point) -> Lifted
        ensures lifted { IsLifted point.now result.x result.y result.weight }
        ensures within { (size (root result.x) ≤ 2 ^ 69) × (size (root result.y) ≤ 2 ^ 69) }
    {
        let (d, e) = (point.x.d().unsigned_abs(), point.y.d().unsigned_abs());
        if d == e {
            Lifted {
                x: scaled(&point.x, 1),
                y: scaled(&point.y, 1),
                weight: d,
            }
        } else {
            Lifted {
                x: scaled(&point.x, e),
                y: scaled(&point.y, d),
                weight: d * e,
            }
        }
    }

    /// The form in a direction, times the weight.
    pub fn form(&self, dir: u8) -> Wide
        requires ahead { IsAhead dir }
        requires x { size (root self.now.x) ≤ 2 ^ 69 }
        requires y { size (root self.now.y) ≤ 2 ^ 69 }
        ensures value { root result ≡ offset_of dir (root self.now.x) (root self.now.y) }
        ensures within { size (root result) ≤ 2 ^ 72 }
    {
        let (x, y) = (self.x, self.y);
        match dir {
            0 => y,
            1 => y - aslant(x),
            2 => y - x,
            3 => aslant(y) - x,
            4 => -x,
            13 => aslant(y) + x,
            14 => y + x,
            _ => y + aslant(x),
        }
    }
}

/// A multiple of a numerator.
fn scaled(x: &Num, n: u64) -> Wide
    requires { n ≤ 2 ^ 20 }
    ensures value { root result ≡ times (num x.now) (count n) }
    ensures within { size (root result) ≤ 2 ^ 69 }
{
    let n = i128::from(n);
    Wide::new(i128::from(x.a()) * n, i128::from(x.b()) * n)
}

/// √2 - 1 times a number.
fn aslant(x: Wide) -> Wide
    requires { size (root x) ≤ 2 ^ 69 }
    ensures value { result ≡ tilted x }
    ensures within { size (root result) ≤ 2 ^ 71 }
{
    Wide::new(2 * x.b() - x.a(), x.a() - x.b())
}
