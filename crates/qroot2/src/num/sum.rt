//! Sums and differences of exact numbers.
ghost use Rattle.std.specs.Prelude.{◌≡◌, IfSome, IfNone};
ghost use Rattle.exact.specs.Number.{IsRepresentable, Same, add, sub, neg};

use super::Num;
use super::whole::{plus, product, scaled};
use std::ops::Neg;

impl Num {
    /// The sum, or None where it is out of range.
    pub fn add(&self, other: &Num) -> Option<Num>
        ensures some { IfSome result (λ n. Same n (add self.now other.now)) }
        ensures none { IfNone result (¬ IsRepresentable (add self.now other.now)) }
    {
        if self.d == other.d {
            return Num::new(
                plus(i128::from(self.a), i128::from(other.a)),
                plus(i128::from(self.b), i128::from(other.b)),
                i128::from(self.d),
            );
        }
        let a = plus(scaled(self.a, other.d), scaled(other.a, self.d));
        let b = plus(scaled(self.b, other.d), scaled(other.b, self.d));
        Num::new(a, b, product(self.d, other.d))
    }

    /// The difference, or None where it is out of range.
    pub fn sub(&self, other: &Num) -> Option<Num>
        ensures some { IfSome result (λ n. Same n (sub self.now other.now)) }
        ensures none { IfNone result (¬ IsRepresentable (sub self.now other.now)) }
    {
        self.add(&-*other)
    }
}

impl Neg for Num {
    type Output = Num;

    ghost neg_gives = { λ x r. r ≡ neg x };

    fn neg(self) -> Num {
        Num {
            a: -self.a,
            b: -self.b,
            d: self.d,
        }
    }
}
