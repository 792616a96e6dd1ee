//! The sign of a difference.
ghost use Rattle.std.specs.Prelude.{pos, ◌-ℤ◌, ◌↔◌, IsTrue};
ghost use Rattle.qroot2.specs.Wide.{HasSign};
ghost use Rattle.lattice.specs.Side.{NotBelow};

use qroot2::{Sign, Wide};

/// The side of zero of (a - c) + (b - d) √2.
pub(crate) fn difference_sign(a: u64, c: u64, b: u64, d: u64) -> Sign
    ensures { HasSign (pos a -ℤ pos c) (pos b -ℤ pos d) result }
{
    Wide::new(i128::from(a) - i128::from(c), i128::from(b) - i128::from(d)).sign()
}

/// Whether (a - c) + (b - d) √2 is 0 or above.
pub(crate) fn is_not_below(a: u64, c: u64, b: u64, d: u64) -> bool
    ensures { IsTrue result ↔ NotBelow a c b d }
{
    match difference_sign(a, c, b, d) {
        Sign::Minus => false,
        _ => true,
    }
}
