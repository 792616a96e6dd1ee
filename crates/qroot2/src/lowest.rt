//! Numbers (a + b √2) / d of any size in lowest terms, to be compared as keys.
ghost use Rattle.std.specs.Prelude.{◌≡◌, ◌<◌, ◌≤◌, ◌^◌, unsigned_abs};
ghost use Rattle.exact.specs.Number.{ExactNumber, Same};
ghost use Rattle.qroot2.specs.Num.{signed};
ghost use Rattle.qroot2.specs.Lowest.{IsInLowestTerms};

use crate::num::lowest;
use std::marker::Model;

/// A number (a + b √2) / d in lowest terms, with a and b of at most 2^120 in size. Each number has
/// one such triple, so two are equal exactly where they are equal as numbers. Their order is that
/// of the triples, for use as keys, and not that of the values.
#[derive(Clone, Copy, Debug, PartialEq, Eq, PartialOrd, Ord, Hash)]
pub struct Lowest {
    a: i128,
    b: i128,
    d: u128,
}

impl Model for Lowest {
    ghost use Rattle.exact.specs.Number.{ExactNumber};
    ghost use Rattle.qroot2.specs.Lowest.{IsInLowestTerms};

    ghost Value = { ExactNumber };

    ghost view = { λ s. record { a = s.a; b = s.b; d = s.d } };

    ghost invariant = { λ s. IsInLowestTerms (record { a = s.a; b = s.b; d = s.d }) };

    ghost inverse = { λ v. record { a = v.a; b = v.b; d = v.d } };
}

impl Lowest {
    /// The number (a + b √2) / d, for d of at least 1.
    pub fn new(a: i128, b: i128, d: u128) -> Lowest
        requires a { unsigned_abs a ≤ 2 ^ 120 }
        requires b { unsigned_abs b ≤ 2 ^ 120 }
        requires d { 0 < d }
        ensures value { Same result (record { a = a; b = b; d = d }) }
        ensures lowest { IsInLowestTerms result }
    {
        let (x, y, z) = lowest(a.unsigned_abs(), b.unsigned_abs(), d);
        Lowest {
            a: with_sign(a, x),
            b: with_sign(b, y),
            d: z,
        }
    }
}

/// The size, with the sign of a number.
fn with_sign(of: i128, size: u128) -> i128
    requires { size ≤ 2 ^ 120 }
    ensures { result ≡ signed of size }
{
    if of < 0 {
        -(size as i128)
    } else {
        size as i128
    }
}
