//! The text of a number, read and written.
ghost use Rattle.std.specs.Prelude.{◌≡◌, ℕ, ℤ, ◌+◌, ◌*◌, ◌<◌, ◌≤◌, ◌^◌, ◌++◌, ◌∷◌, pos, length, take};
ghost use Rattle.std.specs.Prelude.{slice_index, min, unsigned_abs, IfSome, IfNone, MatchOption, MatchResult};
ghost use Rattle.qroot2.specs.Text.{Reads, numeral, signed_text, numerator_text, number_text};
ghost use Rattle.exact.specs.Number.{ExactNumber, IsCanonical, IsLowest};
ghost use Rattle.qroot2.specs.Digits.{AllDigits, AreBoth, AreSummands, Lacks, capped, capped_size, value_on};

use crate::Num;

/// Why bytes are not read as a number.
#[derive(Clone, Copy, Debug, PartialEq, Eq)]
pub enum NumText {
    /// They are of no form of a number text, or of one that is not in lowest terms.
    Syntax = 1,
    /// They are of a form, with a or b above 2^48 in size or d above 2^20.
    Range = 2,
}

/// Sizes from here on are read as this one, which is out of every limit.
const CAP: u64 = (1 << 48) + 1;

/// The numbers of a text before they are known to be in lowest terms, each kept at CAP.
#[derive(Clone, Copy)]
struct Spelled {
    top: Numerator,
    d: u64,
}

/// a + b √2, each kept at CAP in size.
#[derive(Clone, Copy)]
struct Numerator {
    a: i64,
    b: i64,
}

/// The value of a run of digits.
fn digits(bytes: &[u8]) -> Option<u64>
    ensures { MatchOption result (¬ AllDigits bytes.now)
        (λ v. AllDigits bytes.now × (v ≡ capped_size (value_on 0 bytes.now))) }
{
    let mut value = 0;
    for byte in bytes {
        if *byte < b'0' || *byte > b'9' {
            return None;
        }
        value = (10 * value + u64::from(*byte - b'0')).min(CAP);
    }
    Some(value)
}

/// The value of a digit string.
fn numeral(bytes: &[u8]) -> Option<u64>
    ensures { MatchOption result ((n : ℕ) → numeral n ≡ bytes.now → ⊥)
        (λ v. (n : ℕ) × (numeral n ≡ bytes.now) × (v ≡ capped_size n)) }
{
    if bytes.is_empty() {
        return None;
    }
    if bytes[0] == b'0' && bytes.len() > 1 {
        return None;
    }
    digits(bytes)
}

/// The value of a digit string that may have `-` before it.
fn signed(bytes: &[u8]) -> Option<i64>
    ensures { MatchOption result ((z : ℤ) → signed_text z ≡ bytes.now → ⊥)
        (λ v. (z : ℤ) × (signed_text z ≡ bytes.now) × (v ≡ capped z)) }
{
    if bytes.is_empty() {
        return None;
    }
    if bytes[0] != b'-' {
        let size = numeral(bytes)?;
        return Some(size as i64);
    }
    let size = numeral(&bytes[1..])?;
    if size == 0 {
        return None;
    }
    Some(-(size as i64))
}

/// The place of the first byte `at`.
fn place(bytes: &[u8], at: u8) -> Option<usize>
    ensures some { IfSome result
        (λ i. (i < length bytes.now) × (slice_index bytes.now i ≡ at) × Lacks at (take i bytes.now)) }
    ensures none { IfNone result (Lacks at bytes.now) }
{
    for (i, byte) in bytes.iter().enumerate() {
        if *byte == at {
            return Some(i);
        }
    }
    None
}

/// The bytes before the first byte `at`, and those behind it.
fn split(bytes: &[u8], at: u8) -> Option<(&[u8], &[u8])>
    ensures { MatchOption result (Lacks at bytes.now)
        (λ p. Lacks at p.0.now × (bytes.now ≡ p.0.now ++ at ∷ p.1.now)) }
{
    let i = place(bytes, at)?;
    Some((&bytes[..i], &bytes[i + 1..]))
}

/// Two summands, neither of them 0, the second by its size.
fn summands(whole: &[u8], root: &[u8]) -> Option<Numerator>
    ensures { MatchOption result ((a : ℤ) (n : ℕ) → AreSummands a n whole.now root.now → ⊥)
        (λ v. (a : ℤ) × (n : ℕ) × AreSummands a n whole.now root.now × (v.a ≡ capped a)
        × (v.b ≡ pos (capped_size n))) }
{
    let a = signed(whole)?;
    let size = numeral(root)?;
    if a == 0 || size == 0 {
        return None;
    }
    Some(Numerator { a, b: size as i64 })
}

/// a + b √2 with b not 0, before the letter r.
fn both(bytes: &[u8]) -> Option<Numerator>
    ensures { MatchOption result ((a b : ℤ) → AreBoth a b bytes.now → ⊥)
        (λ v. (a b : ℤ) × AreBoth a b bytes.now × (v.a ≡ capped a) × (v.b ≡ capped b)) }
{
    match split(bytes, b'+') {
        Some((whole, root)) => summands(whole, root),
        None => below_or_alone(bytes),
    }
}

/// The same, where no byte is `+`.
fn below_or_alone(bytes: &[u8]) -> Option<Numerator>
    requires { Lacks 43 bytes.now }
    ensures { MatchOption result ((a b : ℤ) → AreBoth a b bytes.now → ⊥)
        (λ v. (a b : ℤ) × AreBoth a b bytes.now × (v.a ≡ capped a) × (v.b ≡ capped b)) }
{
    if bytes.is_empty() {
        return None;
    }
    // A `-` in the first place belongs to the first number.
    if let Some(i) = place(&bytes[1..], b'-') {
        let sum = summands(&bytes[..i + 1], &bytes[i + 2..])?;
        return Some(Numerator {
            a: sum.a,
            b: -sum.b,
        });
    }
    let b = signed(bytes)?;
    if b == 0 {
        return None;
    }
    Some(Numerator { a: 0, b })
}

/// a + b √2.
fn read_numerator(bytes: &[u8]) -> Option<Numerator>
    ensures { MatchOption result ((a b : ℤ) → numerator_text a b ≡ bytes.now → ⊥)
        (λ v. (a b : ℤ) × (numerator_text a b ≡ bytes.now) × (v.a ≡ capped a) × (v.b ≡ capped b)) }
{
    match split(bytes, b'r') {
        Some((parts, rest)) => { if rest.is_empty() { both(parts) } else { None } }
        None => {
            let a = signed(bytes)?;
            Some(Numerator { a, b: 0 })
        }
    }
}

/// (a + b √2) / d, in whatever terms.
fn read_triple(bytes: &[u8]) -> Option<Spelled>
    ensures { MatchOption result ((x : ExactNumber) → 0 < x.d → number_text x ≡ bytes.now → ⊥)
        (λ v. (x : ExactNumber) × (0 < x.d) × (number_text x ≡ bytes.now) × (v.top.a ≡ capped x.a)
        × (v.top.b ≡ capped x.b) × (v.d ≡ capped_size x.d)) }
{
    match split(bytes, b'/') {
        None => {
            let top = read_numerator(bytes)?;
            Some(Spelled { top, d: 1 })
        }
        Some((over, under)) => {
            let top = read_numerator(over)?;
            let d = numeral(under)?;
            if d < 2 {
                return None;
            }
            Some(Spelled { top, d })
        }
    }
}

/// Reads a number text: `A`, `A/D`, `Br`, `Br/D`, `A+Br`, `A-Br`, `A+Br/D` or `A-Br/D` in decimal
/// digits, with r for √2 and D dividing the whole. A number has one text: no leading zero, no part
/// that is 0 but for `0` itself, no denominator of 1, and lowest terms.
pub fn read_num(bytes: &[u8]) -> Result<Num, NumText>
    ensures { Reads bytes.now result }
{
    let Some(Spelled { top, d }) = read_triple(bytes) else {
        return Err(NumText::Syntax);
    };
    if top.a.unsigned_abs() >= CAP || top.b.unsigned_abs() >= CAP || d > 1 << 20 {
        return Err(NumText::Range);
    }
    in_lowest_terms(top, d)
}

/// The number, or Syntax where its parts have a common divisor.
fn in_lowest_terms(top: Numerator, d: u64) -> Result<Num, NumText>
    requires a { unsigned_abs top.a ≤ 2 ^ 48 }
    requires b { unsigned_abs top.b ≤ 2 ^ 48 }
    requires d { (0 < d) × (d ≤ 2 ^ 20) }
    ensures { MatchResult result (λ n. (n ≡ record { a = top.a; b = top.b; d = d }) × IsCanonical n)
        (λ e. (e ≡ NumText.Syntax) × (¬ IsLowest (record { a = top.a; b = top.b; d = d }))) }
{
    match Num::new(i128::from(top.a), i128::from(top.b), i128::from(d)) {
        Some(num) => {
            if num.d() as u64 == d {
                Ok(num)
            } else {
                Err(NumText::Syntax)
            }
        }
        None => Err(NumText::Syntax),
    }
}
