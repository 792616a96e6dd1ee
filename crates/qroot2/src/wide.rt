//! The numbers a + b √2 with whole a and b of up to 120 bits: intermediate values, exact and never refused.
ghost use Rattle.std.specs.Prelude.{◌≡◌, ◌+◌, ◌*◌, ◌<◌, ◌≤◌, ◌^◌, unsigned_abs, IsTrue, IsFalse};
ghost use Rattle.qroot2.specs.Wide.{Pair, IsWithin, HasSign, pair_add, pair_sub, pair_neg};

use crate::Sign;
use crate::squares::by_squares;
use std::cmp::Ordering;
use std::marker::Model;
use std::ops::{Add, Neg, Sub};

/// The number a + b √2, with a and b of at most 2^120 in size.
#[derive(Clone, Copy, Debug, PartialEq, Eq)]
pub struct Wide {
    a: i128,
    b: i128,
}

impl Model for Wide {
    ghost use Rattle.qroot2.specs.Wide.{Pair, IsWithin};

    ghost Value = { Pair };

    ghost view = { λ s. record { a = s.a; b = s.b } };

    ghost invariant = { λ s. IsWithin (record { a = s.a; b = s.b }) };

    ghost inverse = { λ v. record { a = v.a; b = v.b } };
}

impl Wide {
    /// The number a + b √2.
    pub fn new(a: i128, b: i128) -> Wide
        requires a { unsigned_abs a ≤ 2 ^ 120 }
        requires b { unsigned_abs b ≤ 2 ^ 120 }
        ensures { result ≡ record { a = a; b = b } }
    {
        Wide { a, b }
    }

    /// The whole part, a of a + b √2.
    pub fn a(self) -> i128
        ensures value { result ≡ self.a }
        ensures bound { unsigned_abs result ≤ 2 ^ 120 }
    {
        self.a
    }

    /// The factor of √2, b of a + b √2.
    pub fn b(self) -> i128
        ensures value { result ≡ self.b }
        ensures bound { unsigned_abs result ≤ 2 ^ 120 }
    {
        self.b
    }

    /// On which side of zero the number is.
    pub fn sign(&self) -> Sign
        ensures { HasSign self.now.a self.now.b result }
    {
        if self.a.unsigned_abs() < 1 << 62 && self.b.unsigned_abs() < 1 << 62 {
            sign_by_squares(self.a as i64, self.b as i64)
        } else {
            sign_by_descent(self.a, self.b)
        }
    }
}

impl Add for Wide {
    type Output = Wide;

    ghost can_add = { λ x y. IsWithin (pair_add x y) };

    ghost add_gives = { λ x y r. r ≡ pair_add x y };

    fn add(self, other: Wide) -> Wide {
        Wide::new(self.a + other.a, self.b + other.b)
    }
}

impl Sub for Wide {
    type Output = Wide;

    ghost can_sub = { λ x y. IsWithin (pair_sub x y) };

    ghost sub_gives = { λ x y r. r ≡ pair_sub x y };

    fn sub(self, other: Wide) -> Wide {
        Wide::new(self.a - other.a, self.b - other.b)
    }
}

impl Neg for Wide {
    type Output = Wide;

    ghost neg_gives = { λ x r. r ≡ pair_neg x };

    fn neg(self) -> Wide {
        Wide::new(-self.a, -self.b)
    }
}

/// The sign of a + b √2, where 128 bits hold the squares.
fn sign_by_squares(a: i64, b: i64) -> Sign
    requires a { unsigned_abs a < 2 ^ 62 }
    requires b { unsigned_abs b < 2 ^ 62 }
    ensures { HasSign a b result }
{
    match by_squares(a, b) {
        Ordering::Less => Sign::Minus,
        Ordering::Equal => Sign::Zero,
        Ordering::Greater => Sign::Plus,
    }
}

/// The sign of a + b √2, with no square taken.
fn sign_by_descent(a: i128, b: i128) -> Sign
    requires a { unsigned_abs a ≤ 2 ^ 120 }
    requires b { unsigned_abs b ≤ 2 ^ 120 }
    ensures { HasSign a b result }
{
    let x = a.unsigned_abs();
    let y = b.unsigned_abs();
    if a >= 0 && b >= 0 {
        if x == 0 && y == 0 {
            Sign::Zero
        } else {
            Sign::Plus
        }
    } else if a <= 0 && b <= 0 {
        Sign::Minus
    } else if above(x, y) == (a > 0) {
        Sign::Plus
    } else {
        Sign::Minus
    }
}

/// Whether a is above b √2, for a and b above zero.
#[tactic(auto, using(exact::proofs::Root::norm_turns, exact::proofs::Root::below_root, exact::proofs::Root::above_root))]
fn above(a: u128, b: u128) -> bool
    requires a { (0 < a) × (a ≤ 2 ^ 120) }
    requires b { (0 < b) × (b ≤ 2 ^ 120) }
    ensures yes { IsTrue result → 2 * (b * b) < a * a }
    ensures no { IsFalse result → a * a < 2 * (b * b) }
{
    let mut x = a;
    let mut y = b;
    let mut same = true;
    while y < x && x < 2 * y {
        // (x - y √2) (1 + √2) = -((2 y - x) - (x - y) √2)
        let step = x - y;
        x = y - step;
        y = step;
        same = !same;
    }
    (x > y) == same
}
