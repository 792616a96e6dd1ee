//! Exact numbers (a + b √2) / d in lowest terms: the type, how one is made, and its parts.
ghost use Rattle.std.specs.Prelude.{◌≡◌, pos, ◌≤◌, ◌<◌, ◌^◌, unsigned_abs, IfSome, IfNone, ◌<ℤ◌};
ghost use Rattle.exact.specs.Number.{IsCanonical, IsRepresentable, Same};

mod order;
mod product;
mod reduce;
mod sum;
mod whole;

pub(crate) use reduce::lowest;
use reduce::with_sign;
use std::marker::Model;

/// The number (a + b √2) / d, in lowest terms, with a and b of at most 2^48 in size and d from 1
/// to 2^20. Because √2 is irrational, each number has one such triple, so two are equal exactly
/// where they are equal as numbers.
#[derive(Clone, Copy, Debug, PartialEq, Eq, Hash)]
pub struct Num {
    a: i64,
    b: i64,
    d: u32,
}

impl Model for Num {
    ghost use Rattle.exact.specs.Number.{ExactNumber, IsCanonical};

    ghost Value = { ExactNumber };

    ghost view = { λ s. record { a = s.a; b = s.b; d = s.d } };

    ghost invariant = { λ s. IsCanonical (record { a = s.a; b = s.b; d = s.d }) };

    ghost inverse = { λ v. record { a = v.a; b = v.b; d = v.d } };
}

impl Num {
    /// The number (a + b √2) / d, for d of at least 1. None where its lowest terms are out of range.
    pub fn new(a: i128, b: i128, d: i128) -> Option<Num>
        requires a { unsigned_abs a ≤ 2 ^ 120 }
        requires b { unsigned_abs b ≤ 2 ^ 120 }
        requires d { (pos 0 <ℤ d) × (unsigned_abs d ≤ 2 ^ 120) }
        ensures some { IfSome result
            (λ n. Same n (record { a = a; b = b; d = unsigned_abs d }) × IsCanonical n) }
        ensures none { IfNone result (¬ IsRepresentable (record { a = a; b = b; d = unsigned_abs d })) }
    {
        let (x, y, z) = lowest(a.unsigned_abs(), b.unsigned_abs(), d.unsigned_abs());
        if x > 1 << 48 || y > 1 << 48 || z > 1 << 20 {
            return None;
        }
        Some(Num {
            a: with_sign(a, x),
            b: with_sign(b, y),
            d: z as u32,
        })
    }

    /// The whole part of the numerator, a of (a + b √2) / d.
    pub fn a(&self) -> i64
        ensures value { result ≡ self.now.a }
        ensures canonical { IsCanonical self.now }
    {
        self.a
    }

    /// The factor of √2 in the numerator, b of (a + b √2) / d.
    pub fn b(&self) -> i64
        ensures value { result ≡ self.now.b }
        ensures canonical { IsCanonical self.now }
    {
        self.b
    }

    /// The denominator, d of (a + b √2) / d, from 1 to 2^20.
    pub fn d(&self) -> i64
        ensures value { result ≡ pos self.now.d }
        ensures canonical { IsCanonical self.now }
    {
        i64::from(self.d)
    }
}
