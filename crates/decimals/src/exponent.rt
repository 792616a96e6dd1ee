//! The exponent of a decimal.
ghost use Rattle.std.specs.Prelude.{ℤ, ◌≤◌, MatchOption};
ghost use Rattle.decimals.specs.Decimal.{IsExponent, IsSmall, signed};

use crate::cut::{run, unsigned};
use crate::size::value_on;

/// An exponent, whether it is below 0, and its size.
#[derive(Clone, Copy)]
pub(crate) struct Exponent {
    pub minus: bool,
    pub size: usize,
}

/// The exponent at the end of a decimal, which is 0 where there is none.
pub(crate) fn read_exponent(tail: &[u8]) -> Option<Exponent>
    ensures { MatchOption result ((e : ℤ) → ¬ IsExponent tail.now e)
        (λ p. IsExponent tail.now (signed p.minus p.size) × (p.size ≤ 999)) }
{
    if tail.is_empty() {
        return Some(Exponent {
            minus: false,
            size: 0,
        });
    }
    if tail[0] != b'e' && tail[0] != b'E' {
        return None;
    }
    small(&tail[1..])
}

/// A number of one to three digits.
fn small(bytes: &[u8]) -> Option<Exponent>
    ensures { MatchOption result ((e : ℤ) → ¬ IsSmall bytes.now e)
        (λ p. IsSmall bytes.now (signed p.minus p.size) × (p.size ≤ 999)) }
{
    let (minus, plain) = unsigned(bytes);
    let (digits, rest) = run(plain);
    if digits.is_empty() || digits.len() > 3 || !rest.is_empty() {
        return None;
    }
    Some(Exponent {
        minus,
        size: value_on(0, digits) as usize,
    })
}
