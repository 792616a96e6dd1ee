//! Decimals read.
ghost use Rattle.std.specs.Prelude.{◌≡◌, ◌≤◌, ℤ, IsNone, IfSome};
ghost use Rattle.decimals.specs.Decimal.{IsDecimal, signed, capped, cap};

use crate::cut::pieces_of;
use crate::exponent::read_exponent;
use crate::size::size;

/// The value of a decimal in units of 10^-12, cut toward zero. A decimal is a sign or none, digits with
/// at most one point among, before or behind them, at least one digit in all, and then an exponent or
/// none: `e` or `E`, a sign or none, and one to three digits. Values above 10^30 units in size are read
/// as 10^30 + 1 units with the same sign.
///
/// None exactly where the bytes are no decimal.
pub fn read_decimal(bytes: &[u8]) -> Option<i128>
    ensures some { IfSome result (λ y. (x : ℤ) × IsDecimal bytes.now x × (y ≡ capped x)) }
    ensures none { IsNone result → (x : ℤ) → ¬ IsDecimal bytes.now x }
{
    let pieces = pieces_of(bytes);
    if pieces.before.is_empty() && pieces.behind.is_empty() {
        return None;
    }
    let exponent = read_exponent(pieces.tail)?;
    let size = size(pieces.before, pieces.behind, exponent);
    Some(with_sign(pieces.minus, size))
}

/// A size with its sign.
fn with_sign(minus: bool, size: u128) -> i128
    requires { size ≤ cap }
    ensures { result ≡ signed minus size }
{
    if minus { -(size as i128) } else { size as i128 }
}
