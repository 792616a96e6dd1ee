//! The text of a number, written without memory.
ghost use Rattle.std.specs.Prelude.{◌≡◌, ◌+◌, ◌≤◌, ◌<◌, ◌^◌, ◌++◌, [], length, unsigned_abs, ◌≢◌, pos};
ghost use Rattle.arrayvec.specs.ArrayVec.{array_vec_len};
ghost use Rattle.qroot2.specs.Text.{numeral, both_text, signed_text, summand_text, numerator_text};
ghost use Rattle.qroot2.specs.Text.{denominator_text, number_text};

use crate::Num;
use arrayvec::ArrayVec;
use itoa::Buffer;

/// The longest text has two numbers of 15 digits, three signs and letters, and 8 bytes of denominator.
type Text = ArrayVec<u8, 41>;

/// The one text of a number, which `read_num` reads.
pub fn put_num(num: &Num) -> ArrayVec<u8, 41>
    ensures { result.items ≡ number_text num.now }
{
    let mut text = ArrayVec::new();
    push_numerator(&mut text, num.a(), num.b());
    push_denominator(&mut text, num.d() as u64);
    text
}

/// a + b √2, in at most 33 bytes.
fn push_numerator(text: &mut Text, a: i64, b: i64)
    requires empty { text.old.items ≡ [] }
    requires a { unsigned_abs a ≤ 2 ^ 48 }
    requires b { unsigned_abs b ≤ 2 ^ 48 }
    ensures text { text.new.items ≡ numerator_text a b }
    ensures short { array_vec_len text.new ≤ 33 }
{
    if b == 0 {
        push_signed(text, a);
    } else {
        push_both(text, a, b);
        text.push(b'r');
    }
}

/// A denominator above 1, in at most 8 bytes.
#[tactic(auto, using(crate::proofs::callers::Decimals::short_7))]
fn push_denominator(text: &mut Text, d: u64)
    requires room { array_vec_len text.old ≤ 33 }
    requires d { d ≤ 2 ^ 20 }
    ensures { text.new.items ≡ text.old.items ++ denominator_text d }
{
    if d > 1 {
        text.push(b'/');
        push_numeral(text, d);
    }
}

/// a and b, or b alone where a is 0, in at most 32 bytes.
fn push_both(text: &mut Text, a: i64, b: i64)
    requires empty { text.old.items ≡ [] }
    requires a { unsigned_abs a ≤ 2 ^ 48 }
    requires b { (b ≢ pos 0) × (unsigned_abs b ≤ 2 ^ 48) }
    ensures text { text.new.items ≡ both_text a b }
    ensures short { array_vec_len text.new ≤ 32 }
{
    if a == 0 {
        push_signed(text, b);
    } else {
        push_signed(text, a);
        push_summand(text, b);
    }
}

/// A number, with `-` before it where it is below 0, in at most 16 bytes.
fn push_signed(text: &mut Text, number: i64)
    requires room { array_vec_len text.old ≤ 25 }
    requires number { unsigned_abs number ≤ 2 ^ 48 }
    ensures text { text.new.items ≡ text.old.items ++ signed_text number }
    ensures short { array_vec_len text.new ≤ array_vec_len text.old + 16 }
{
    if number < 0 {
        text.push(b'-');
        push_size(text, number.unsigned_abs());
    } else {
        push_size(text, number.unsigned_abs());
    }
}

/// A number with its sign, in at most 16 bytes.
fn push_summand(text: &mut Text, number: i64)
    requires room { array_vec_len text.old ≤ 25 }
    requires number { unsigned_abs number ≤ 2 ^ 48 }
    ensures text { text.new.items ≡ text.old.items ++ summand_text number }
    ensures short { array_vec_len text.new ≤ array_vec_len text.old + 16 }
{
    text.push(if number < 0 { b'-' } else { b'+' });
    push_size(text, number.unsigned_abs());
}

/// The decimal digits of a size within the limit, which are at most 15.
#[tactic(auto, using(crate::proofs::callers::Decimals::short_15))]
fn push_size(text: &mut Text, size: u64)
    requires room { array_vec_len text.old ≤ 26 }
    requires size { size ≤ 2 ^ 48 }
    ensures text { text.new.items ≡ text.old.items ++ numeral size }
    ensures short { array_vec_len text.new ≤ array_vec_len text.old + 15 }
{
    push_numeral(text, size);
}

/// The decimal digits.
#[tactic(auto, using(crate::proofs::callers::Decimals::numeral_decimal))]
fn push_numeral(text: &mut Text, number: u64)
    requires { array_vec_len text.old + length (numeral number) ≤ 41 }
    ensures text { text.new.items ≡ text.old.items ++ numeral number }
    ensures len { array_vec_len text.new ≡ array_vec_len text.old + length (numeral number) }
{
    let mut buffer = Buffer::new();
    let _ = text.try_extend_from_slice(buffer.format(number).as_bytes());
}
