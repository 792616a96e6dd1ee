//! The text of a decimal, written without memory.
ghost use Rattle.std.specs.Prelude.{◌≡◌, ◌≤◌, ◌<◌, ◌^◌, ◌++◌, ◌+◌};
ghost use Rattle.arrayvec.specs.ArrayVec.{array_vec_len};
ghost use Rattle.qroot2.specs.Text.{numeral};
ghost use Rattle.decimals.specs.DecimalText.{decimal_text, size_text, last_digits};

use arrayvec::ArrayVec;
use itoa::Buffer;

/// The longest text has a sign, 27 digits, a point and twelve digits.
type Text = ArrayVec<u8, 41>;

/// So many units are 1.
const ONE: u128 = 1_000_000_000_000;

/// The one text of so many units of 10^-12: `-` where they are below 0, the whole part with no
/// leading zero, a point and twelve digits.
pub fn put_decimal(units: i128) -> ArrayVec<u8, 41>
    ensures { result.items ≡ decimal_text units }
{
    let mut text = ArrayVec::new();
    if units < 0 {
        text.push(b'-');
        push_size(&mut text, units.unsigned_abs());
    } else {
        push_size(&mut text, units.unsigned_abs());
    }
    text
}

/// The units without their sign, in at most 40 bytes.
#[tactic(auto, unfolding(crate::specs::DecimalText::size_text))]
fn push_size(text: &mut Text, size: u128)
    requires room { array_vec_len text.old ≤ 1 }
    requires size { size ≤ 2 ^ 127 }
    ensures { text.new.items ≡ text.old.items ++ size_text size }
{
    push_whole(text, size / ONE);
    text.push(b'.');
    push_part(text, size % ONE);
}

/// The digits of a whole part, at most 27.
#[tactic(auto, using(crate::proofs::Digits::numeral_wide, crate::proofs::Digits::short_27))]
fn push_whole(text: &mut Text, whole: u128)
    requires room { array_vec_len text.old ≤ 1 }
    requires whole { whole < 10 ^ 27 }
    ensures text { text.new.items ≡ text.old.items ++ numeral whole }
    ensures short { array_vec_len text.new ≤ 28 }
{
    let mut buffer = Buffer::new();
    let _ = text.try_extend_from_slice(buffer.format(whole).as_bytes());
}

/// Twelve digits, which are those behind the first of the part and 10^12.
#[tactic(auto, using(crate::proofs::Digits::part_length))]
fn push_part(text: &mut Text, part: u128)
    requires room { array_vec_len text.old ≤ 29 }
    requires part { part < 10 ^ 12 }
    ensures { text.new.items ≡ text.old.items ++ last_digits 12 part }
{
    let mut buffer = Buffer::new();
    let digits = buffer.format(ONE + part).as_bytes();
    let _ = text.try_extend_from_slice(&digits[1..]);
}
