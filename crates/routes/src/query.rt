//! The query that asks for a vertex.
ghost use Rattle.std.specs.Prelude.{◌≡◌, ◌++◌, ◌∷◌, ◌≤◌, ◌<◌, codes, length};
ghost use Rattle.std.specs.Prelude.{IfOk, IfSome, IsNone, MatchOption, ℕ, List};
ghost use Rattle.routes.specs.Queries.{IsFirstByte, IsHexDigit, IsHexPair, IsQuery, Unescapes};

use ports::NoMemory;
use std::alloc::Global;

/// The text of the point that a query asks for: all bytes behind `at=`, where `%` and two hexadecimal
/// digits stand for a byte and `+` for itself (RFC 3986, section 2.1). `None` exactly where the query
/// is not of this form.
///
/// # Errors
///
/// `NoMemory` where there was none.
pub(crate) fn read_query(alloc: Global, query: &[u8]) -> Result<Option<Vec<u8>>, NoMemory>
    ensures { IfOk result (λ point. MatchOption point ((text : List ℕ) → ¬ IsQuery query.now text)
        (λ text. IsQuery query.now text.items)) }
{
    match value_in(query) {
        Some(value) => unescape(alloc, value),
        None => Ok(None),
    }
}

/// All bytes behind `at=`.
fn value_in(query: &[u8]) -> Option<&[u8]>
    ensures { MatchOption result ((value : List ℕ) → ¬ (query.now ≡ codes "at=" ++ value))
        (λ value. query.now ≡ codes "at=" ++ value.now) }
{
    match query {
        [b'a', b't', b'=', value @ ..] => Some(value),
        _ => None,
    }
}

/// The bytes that a text with escapes stands for.
fn unescape(alloc: Global, text: &[u8]) -> Result<Option<Vec<u8>>, NoMemory>
    ensures { IfOk result (λ value. MatchOption value ((bytes : List ℕ) → ¬ Unescapes text.now bytes)
        (λ bytes. Unescapes text.now bytes.items)) }
{
    let mut value = Vec::new(alloc);
    let mut rest = text;
    while let Some((byte, behind)) = first_byte(rest) {
        value.push(byte)?;
        rest = behind;
    }
    if rest.is_empty() {
        Ok(Some(value))
    } else {
        Ok(None)
    }
}

/// The first byte that a text with escapes stands for, and the text behind it.
fn first_byte(text: &[u8]) -> Option<(u8, &[u8])>
    ensures some { IfSome result (λ f. IsFirstByte text.now f.0 f.1.now) }
    ensures shorter { IfSome result (λ f. length f.1.now < length text.now) }
    ensures none { IsNone result → (byte : ℕ) (behind : List ℕ) → ¬ IsFirstByte text.now byte behind }
{
    match text {
        [first, behind @ ..] => {
            if *first == b'%' {
                escaped_byte(behind)
            } else {
                Some((*first, behind))
            }
        }
        [] => None,
    }
}

/// The byte of two hexadecimal digits, and the text behind them.
fn escaped_byte(text: &[u8]) -> Option<(u8, &[u8])>
    ensures some { IfSome result (λ f. IsFirstByte (37 ∷ text.now) f.0 f.1.now) }
    ensures shorter { IfSome result (λ f. length f.1.now < length text.now) }
    ensures none { IsNone result
        → (byte : ℕ) (behind : List ℕ) → ¬ IsFirstByte (37 ∷ text.now) byte behind }
{
    match text {
        [first, second, behind @ ..] => match pair_value(*first, *second) {
            Some(byte) => Some((byte, behind)),
            None => None,
        },
        _ => None,
    }
}

/// The byte of two hexadecimal digits, the higher one first.
fn pair_value(first: u8, second: u8) -> Option<u8>
    ensures some { IfSome result (λ byte. IsHexPair first second byte) }
    ensures none { IsNone result → (byte : ℕ) → ¬ IsHexPair first second byte }
{
    let high = digit_value(first)?;
    let low = digit_value(second)?;
    Some(high * 16 + low)
}

/// The value of a hexadecimal digit.
fn digit_value(digit: u8) -> Option<u8>
    ensures value { MatchOption result ((value : ℕ) → ¬ IsHexDigit digit value)
        (λ value. IsHexDigit digit value) }
    ensures most { IfSome result (λ value. value ≤ 15) }
{
    match digit {
        b'0'..=b'9' => Some(digit - b'0'),
        b'A'..=b'F' => Some(digit - b'A' + 10),
        b'a'..=b'f' => Some(digit - b'a' + 10),
        _ => None,
    }
}
