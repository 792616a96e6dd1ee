//! How a + b √2 compares with zero by squares, where 128 bits hold them. There is no case to tell apart.
ghost use Rattle.std.specs.Prelude.{◌≡◌, ◌<◌, ◌^◌, unsigned_abs};
ghost use Rattle.exact.specs.Order.{root_cmp, signed_square};

use std::cmp::Ordering;

/// How a + b √2 compares with zero.
pub fn by_squares(a: i64, b: i64) -> Ordering
    requires a { unsigned_abs a < 2 ^ 62 }
    requires b { unsigned_abs b < 2 ^ 62 }
    ensures { result ≡ root_cmp a b }
{
    (square(a) + 2 * square(b)).cmp(&0)
}

/// The square of a number, with the sign of the number.
fn square(x: i64) -> i128
    requires { unsigned_abs x < 2 ^ 62 }
    ensures value { result ≡ signed_square x }
    ensures bound { unsigned_abs result < 2 ^ 124 }
{
    let size = i128::from(x) * i128::from(x);
    if x < 0 { -size } else { size }
}
