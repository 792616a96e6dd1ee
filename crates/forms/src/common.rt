//! Denominators that points have in common, and points that are small over one.
ghost use Rattle.std.specs.Prelude.{ℕ, ◌*◌, ◌<◌, ◌≤◌, ◌^◌, ◌↔◌, IfSome, IfNone, IsTrue, unsigned_abs};
ghost use Rattle.forms.specs.Common.{IsCommon, IsSmall, IsSmallOver};

use plane::Point;
use qroot2::Num;

/// The greatest denominator. The crossing of two lines multiplies it by 8 at most, so that it stays within
/// that of a number, 2^20.
const DENOMINATOR: u64 = 1 << 17;

/// The greatest size of a part of a numerator. That of a crossing stays within 2^48.
const PART: u64 = 1 << 36;

/// The least common multiple of a denominator and both of a point. None where it is above 2^17.
pub fn common_multiple(d: u64, point: &Point) -> Option<u64>
    requires { 0 < d }
    ensures some { IfSome result (λ m. IsCommon d point.now m × (m ≤ 2 ^ 17)) }
    ensures least { IfSome result (λ m. (n : ℕ) → IsCommon d point.now n → m ≤ n) }
    ensures none { IfNone result ((n : ℕ) → IsCommon d point.now n → 2 ^ 17 < n) }
{
    let (x, y) = (point.x.d().unsigned_abs(), point.y.d().unsigned_abs());
    let mut multiple = d;
    while multiple <= DENOMINATOR {
        if multiple % x == 0 && multiple % y == 0 {
            return Some(multiple);
        }
        multiple += d;
    }
    None
}

/// Whether both coordinates of a point are, over a denominator of at most 2^17, numerators of which no part
/// is above 2^36 in size.
pub fn is_small(d: u64, point: &Point) -> bool
    ensures { IsTrue result ↔ IsSmall d point.now }
{
    0 < d && d <= DENOMINATOR && is_small_over(d, &point.x) && is_small_over(d, &point.y)
}

/// The same of a number.
fn is_small_over(d: u64, n: &Num) -> bool
    requires { (0 < d) × (d ≤ 2 ^ 17) }
    ensures { IsTrue result ↔ IsSmallOver d n.now }
{
    let own = n.d().unsigned_abs();
    if d % own != 0 {
        return false;
    }
    let times = d / own;
    stays_small(n.a(), times) && stays_small(n.b(), times)
}

/// Whether a multiple of a part is small.
fn stays_small(part: i64, times: u64) -> bool
    requires { (0 < times) × (times ≤ 2 ^ 17) }
    ensures { IsTrue result ↔ (unsigned_abs part * times ≤ 2 ^ 36) }
{
    let size = part.unsigned_abs();
    size <= PART && size * times <= PART
}
