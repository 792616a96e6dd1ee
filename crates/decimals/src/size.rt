//! What the digits of a decimal are worth.
ghost use Rattle.std.specs.Prelude.{◌≡◌, ◌≤◌, ◌+◌, ◌-◌, ◌*◌, ◌<◌, ◌^◌, ◌++◌, take, length, min, pos, ◌+ℤ◌};
ghost use Rattle.std.specs.Prelude.{◌-ℤ◌};
ghost use Rattle.qroot2.specs.Digits.{AllDigits, value_on as digits_on};
ghost use Rattle.decimals.specs.Decimal.{scaled, signed, cap};
ghost use Rattle.decimals.specs.Cutting.{wanted_of};

use crate::exponent::Exponent;

/// Sizes from here on are read as this one.
const CAP: u128 = 1_000_000_000_000_000_000_000_000_000_001;

/// Digits before and behind a point with an exponent, in units of 10^-12.
pub(crate) fn size(before: &[u8], behind: &[u8], exponent: Exponent) -> u128
    requires before { AllDigits before.now }
    requires behind { AllDigits behind.now }
    requires exponent { exponent.size ≤ 999 }
    ensures { result ≡ min (scaled (digits_on 0 (before.now ++ behind.now))
        ((signed exponent.minus exponent.size +ℤ pos 12) -ℤ pos (length behind.now))) cap }
{
    let wanted = wanted(before.len(), exponent);
    let more = wanted.saturating_sub(before.len());
    let value = value_on(value_on(0, front(before, wanted)), front(behind, more));
    times_ten(value, more.saturating_sub(behind.len()))
}

/// How many of the digits count units of 10^-12 and above.
fn wanted(before: usize, exponent: Exponent) -> usize
    requires before { before < 2 ^ 63 }
    requires exponent { exponent.size ≤ 999 }
    ensures { result ≡ wanted_of before exponent.minus exponent.size }
{
    if exponent.minus {
        (before + 12).saturating_sub(exponent.size)
    } else {
        before + 12 + exponent.size
    }
}

/// So many bytes of the front, or all.
fn front(bytes: &[u8], count: usize) -> &[u8]
    ensures { result.now ≡ take count bytes.now }
{
    &bytes[..count.min(bytes.len())]
}

/// The value of digits behind a value, kept at CAP.
pub(crate) fn value_on(start: u128, digits: &[u8]) -> u128
    requires start { start ≤ cap }
    requires digits { AllDigits digits.now }
    ensures { result ≡ min (digits_on start digits.now) cap }
{
    let mut value = start;
    for byte in digits {
        value = (10 * value + u128::from(*byte - b'0')).min(CAP);
    }
    value
}

/// A value with so many zeros behind it, kept at CAP.
fn times_ten(start: u128, zeros: usize) -> u128
    requires start { start ≤ cap }
    ensures { result ≡ min (start * 10 ^ zeros) cap }
{
    let mut value = start;
    // 31 zeros take all but 0 past CAP
    for _ in 0..zeros.min(31) {
        value = (10 * value).min(CAP);
    }
    value
}
