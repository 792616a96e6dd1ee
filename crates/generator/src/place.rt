//! Coordinates in sixteenths.
ghost use Rattle.std.specs.Prelude.{◌≤◌, ◌^◌, unsigned_abs};
ghost use Rattle.exact.specs.Number.{Same, IsCanonical, add, mul};
ghost use Rattle.qroot2.specs.Wide.{HasUnitParts, pair_number};
ghost use Rattle.generator.specs.Turns.{sixteenths};
ghost use Rattle.lattice.specs.Lattice.{fraction};

use qroot2::{Num, Wide};

/// So many sixteenths.
pub(crate) fn at(n: u8) -> Num
    requires { n ≤ 16 }
    ensures same { Same result (sixteenths n) }
    ensures canonical { IsCanonical result }
{
    over_sixteen(i128::from(n), 0)
}

/// The number that lies so many sixteenths of a part of a vector ahead.
pub(crate) fn ahead(start: u8, length: u8, part: Wide) -> Num
    requires start { start ≤ 16 }
    requires length { length ≤ 16 }
    requires part { HasUnitParts part }
    ensures same { Same result (add (sixteenths start) (mul (sixteenths length) (pair_number part))) }
    ensures canonical { IsCanonical result }
{
    let n = i128::from(length);
    over_sixteen(i128::from(start) + n * part.a(), n * part.b())
}

/// The number (a + b √2) / 16.
fn over_sixteen(a: i128, b: i128) -> Num
    requires a { unsigned_abs a ≤ 2 ^ 20 }
    requires b { unsigned_abs b ≤ 2 ^ 20 }
    ensures same { Same result (fraction a b 16) }
    ensures canonical { IsCanonical result }
{
    Num::new(a, b, 16).unwrap()
}
