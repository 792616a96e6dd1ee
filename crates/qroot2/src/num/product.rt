//! Products of exact numbers.
ghost use Rattle.std.specs.Prelude.{IfSome, IfNone};
ghost use Rattle.exact.specs.Number.{IsRepresentable, Same, mul};

use super::Num;
use super::whole::{plus, product, times};

impl Num {
    /// The product, or None where it is out of range.
    pub fn mul(&self, other: &Num) -> Option<Num>
        ensures some { IfSome result (λ n. Same n (mul self.now other.now)) }
        ensures none { IfNone result (¬ IsRepresentable (mul self.now other.now)) }
    {
        // √2 times √2 is 2.
        let roots = times(self.b, other.b);
        let a = plus(times(self.a, other.a), plus(roots, roots));
        let b = plus(times(self.a, other.b), times(self.b, other.a));
        Num::new(a, b, product(self.d, other.d))
    }
}
