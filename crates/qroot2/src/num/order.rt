//! The order of exact numbers, which is that of the real values.
ghost use Rattle.std.specs.Prelude.{◌≡◌, refl, ◌≤◌, ◌^◌, unsigned_abs};
ghost use Rattle.exact.specs.Order.{num_cmp, real_cmp, root_cmp};
ghost use Rattle.exact.proofs.Order.{num_total, num_ties};
ghost use Rattle.std.specs.Cmp.{partial_order_from_agreeing_total};
ghost use Rattle.std.proofs.Common.{rules};
ghost use Rattle.std.specs.Cmp.Rules.{comparing};
ghost use Rattle.std.specs.Ordering.{as_partial_cmp};

use super::Num;
use super::whole::{cross, narrow_cross, scaled};
use crate::squares::by_squares;
use crate::{Sign, Wide};
use std::cmp::Ordering;

impl Ord for Num {
    ghost cmp = { num_cmp };

    ghost total = { num_total };

    ghost matches_partial_cmp = { Prim.search (comparing, rules) };

    ghost matches_eq = { num_ties (Prim.search (comparing, rules)) };

    /// The order of the real values.
    fn cmp(&self, other: &Num) -> Ordering
        ensures order { result ≡ num_cmp self.now other.now }
        ensures values { result ≡ real_cmp self.now other.now }
    {
        if self.d < 1 << 13 && other.d < 1 << 13 {
            // the usual case comes first: it has no branches
            let a = narrow_cross(self.a, other.a, self.d, other.d);
            let b = narrow_cross(self.b, other.b, self.d, other.d);
            by_squares(a, b)
        } else if self.d == other.d {
            by_squares(self.a - other.a, self.b - other.b)
        } else if self.b == 0 && other.b == 0 {
            scaled(self.a, other.d).cmp(&scaled(other.a, self.d))
        } else {
            let a = cross(self.a, other.a, self.d, other.d);
            let b = cross(self.b, other.b, self.d, other.d);
            side(a, b)
        }
    }
}

impl PartialOrd for Num {
    ghost partial_cmp = { as_partial_cmp num_cmp };

    ghost laws = { partial_order_from_agreeing_total num_cmp num_total (λ x y. refl)
        (num_ties (Prim.search (comparing, rules))) };

    fn partial_cmp(&self, other: &Num) -> Option<Ordering> {
        Some(self.cmp(other))
    }
}

/// How a + b √2 compares with zero.
fn side(a: i128, b: i128) -> Ordering
    requires a { unsigned_abs a ≤ 2 ^ 120 }
    requires b { unsigned_abs b ≤ 2 ^ 120 }
    ensures { result ≡ root_cmp a b }
{
    match Wide::new(a, b).sign() {
        Sign::Minus => Ordering::Less,
        Sign::Zero => Ordering::Equal,
        Sign::Plus => Ordering::Greater,
    }
}
