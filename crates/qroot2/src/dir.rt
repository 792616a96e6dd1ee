//! The sixteen directions of creases, their arithmetic and their vectors.
ghost use Rattle.std.specs.Prelude.{◌≡◌, ℕ, ◌<◌, ◌+◌, ◌%◌, ◌*◌, ◌-◌, IsNone, ◌↔◌, ◌≤◌, IfSome, IfNone, ◌*ℤ◌};
ghost use Rattle.std.specs.Prelude.{unsigned_abs};
ghost use Rattle.exact.specs.Plane.{vector, first_vector, turn};
ghost use Rattle.qroot2.specs.Dir.{IsMiddle, HasOddAngle};
ghost use Rattle.qroot2.specs.Wide.{HasUnitParts, pair_number, pair_mul};

use crate::Wide;
use std::marker::Model;

/// One of the sixteen directions of a crease: a number of units of 22.5 degrees, from 0 to 15,
/// counterclockwise from the x axis.
#[derive(Clone, Copy, Debug, Default, PartialEq, Eq, PartialOrd, Ord, Hash)]
pub struct Dir {
    k: u8,
}

impl Model for Dir {
    ghost use Rattle.std.specs.Prelude.{ℕ, ◌<◌};

    ghost Value = { ℕ };

    ghost view = { λ s. s.k };

    ghost invariant = { λ s. s.k < 16 };

    ghost inverse = { λ v. record { k = v } };
}

impl Dir {
    /// The direction of a number of units, or None where the number is above 15.
    pub fn new(k: u8) -> Option<Dir>
        ensures some { IfSome result (λ d. (d ≡ k) × (k < 16)) }
        ensures none { IsNone result ↔ (16 ≤ k) }
    {
        if k < 16 { Some(Dir { k }) } else { None }
    }

    /// The number of units, from 0 to 15.
    pub fn number(self) -> u8
        ensures value { result ≡ self }
        ensures small { result < 16 }
    {
        self.k
    }

    /// The direction n units further, counterclockwise.
    pub fn turn(self, n: u8) -> Dir
        ensures { result ≡ (self + n) % 16 }
    {
        Dir {
            k: (self.k + n % 16) % 16,
        }
    }

    /// The opposite direction.
    pub fn opposite(self) -> Dir
        ensures { result ≡ (self + 8) % 16 }
    {
        Dir {
            k: (self.k + 8) % 16,
        }
    }

    /// The image of the direction in a line along `axis`: twice the axis less the direction.
    pub fn mirror(self, axis: Dir) -> Dir
        ensures { result ≡ (2 * axis + 16 - self) % 16 }
    {
        Dir {
            k: (2 * axis.k + 16 - self.k) % 16,
        }
    }

    /// The direction halfway counterclockwise from the first to the second, a full turn where they
    /// are equal. None where that angle is an odd number of units.
    pub fn middle(first: Dir, second: Dir) -> Option<Dir>
        ensures some { IfSome result (λ d. IsMiddle first second d) }
        ensures none { IfNone result (HasOddAngle first second) }
    {
        let n = (second.k + 15 - first.k) % 16 + 1;
        if n % 2 == 0 {
            Some(first.turn(n / 2))
        } else {
            None
        }
    }

    /// The vector of the direction, by x and y: one of them is 1 or -1, and the other 0, 1, -1,
    /// √2 - 1 or 1 - √2.
    pub fn vector(self) -> (Wide, Wide)
        ensures x { pair_number result.0 ≡ (vector self).x }
        ensures y { pair_number result.1 ≡ (vector self).y }
        ensures small { HasUnitParts result.0 × HasUnitParts result.1 }
    {
        let (x, y) = in_first_quarter(self.k % 4);
        match self.k / 4 {
            0 => (x, y),
            1 => (-y, x),
            2 => (-x, -y),
            _ => (y, -x),
        }
    }

    /// The determinant of the vectors of two directions: above zero where the second is less than
    /// half a turn counterclockwise from the first, zero where they are parallel.
    pub fn det(first: Dir, second: Dir) -> Wide
        ensures { pair_number result ≡ turn (vector first) (vector second) }
    {
        let (x, y) = first.vector();
        let (u, v) = second.vector();
        product(x, v) - product(y, u)
    }
}

/// The vectors of the directions 0 to 3.
fn in_first_quarter(k: u8) -> (Wide, Wide)
    requires { k < 4 }
    ensures x { pair_number result.0 ≡ (first_vector k).x }
    ensures y { pair_number result.1 ≡ (first_vector k).y }
    ensures small { HasUnitParts result.0 × HasUnitParts result.1 }
{
    let one = Wide::new(1, 0);
    let tangent = Wide::new(-1, 1);
    match k {
        0 => (one, Wide::new(0, 0)),
        1 => (one, tangent),
        2 => (one, one),
        _ => (tangent, one),
    }
}

/// The product of two numbers with parts -1, 0 or 1.
fn product(x: Wide, y: Wide) -> Wide
    requires x { HasUnitParts x }
    requires y { HasUnitParts y }
    ensures value { result ≡ pair_mul x y }
    ensures small { (unsigned_abs result.a ≤ 3) × (unsigned_abs result.b ≤ 2) }
{
    let roots = times(x.b(), y.b());
    Wide::new(
        times(x.a(), y.a()) + roots + roots,
        times(x.a(), y.b()) + times(x.b(), y.a()),
    )
}

fn times(x: i128, y: i128) -> i128
    requires x { unsigned_abs x ≤ 1 }
    requires y { unsigned_abs y ≤ 1 }
    ensures value { result ≡ x *ℤ y }
    ensures small { unsigned_abs result ≤ 1 }
{
    x * y
}
