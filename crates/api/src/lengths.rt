//! The fields of a head that speak of the body.
ghost use Rattle.std.specs.Prelude.{◌≡◌, ◌≢◌, ◌≤◌, ◌↔◌, ◌++◌, ◌∷◌, [], ℕ, List, IsTrue, MatchBool};
ghost use Rattle.std.specs.Prelude.{MatchOption, EachIndex, length, slice_index};
ghost use Rattle.std.specs.Str.Parse.{IsNumeral, AllDigits, digits_value};
ghost use Rattle.httparse.specs.Spans.{IsHeaderWithin, header_bytes};
ghost use Rattle.api.specs.Lengths.{is_named as is_named_so, codings, lengths, IsSmall};
ghost use Rattle.api.specs.Fields.{AreWithin, IsLength, pairs};

use httparse::spans::HeaderSpan;

/// A body has at most so many bytes.
const BODY_LIMIT: u128 = 4_194_304;

/// What the fields Content-Length of a head say (RFC 9112, section 6.3).
#[derive(Clone, Copy, Debug, PartialEq, Eq)]
pub(crate) enum Length<'a> {
    /// There is none.
    Absent,
    /// All have these digits.
    Given(&'a [u8]),
    /// One is no digit string, or two differ.
    Wrong,
}

/// Whether there is a field Transfer-Encoding.
pub(crate) fn has_coding(bytes: &[u8], fields: &[HeaderSpan]) -> bool
    requires { AreWithin bytes.now fields.now }
    ensures { MatchBool result (codings (pairs bytes.now fields.now) ≢ [])
        (codings (pairs bytes.now fields.now) ≡ []) }
{
    for field in fields {
        if is_named(bytes, field, b"transfer-encoding") {
            return true;
        }
    }
    false
}

/// What the fields Content-Length say.
pub(crate) fn length_in<'a>(bytes: &'a [u8], fields: &[HeaderSpan]) -> Length<'a>
    requires { AreWithin bytes.now fields.now }
    ensures { IsLength (lengths (pairs bytes.now fields.now)) result }
{
    let mut found = Length::Absent;
    for field in fields {
        found = with_field(found, bytes, field);
    }
    found
}

/// What they say with one field more.
fn with_field<'a>(found: Length<'a>, bytes: &'a [u8], field: &HeaderSpan) -> Length<'a>
    requires { IsHeaderWithin (length bytes.now) field.now }
    ensures { (fields : List (List ℕ × List ℕ)) → IsLength (lengths fields) found.entry
        → IsLength (lengths (fields ++ header_bytes bytes.now field.now ∷ [])) result }
{
    if is_named(bytes, field, b"content-length") {
        with_value(found, field.value.of(bytes))
    } else {
        found
    }
}

/// What they say with one value more.
fn with_value<'a>(found: Length<'a>, value: &'a [u8]) -> Length<'a>
    ensures { (texts : List (List ℕ)) → IsLength texts found.entry
        → IsLength (texts ++ value.now ∷ []) result }
{
    if !is_numeral(value) {
        return Length::Wrong;
    }
    match found {
        Length::Absent => Length::Given(value),
        Length::Given(digits) => {
            if digits == value {
                found
            } else {
                Length::Wrong
            }
        }
        Length::Wrong => Length::Wrong,
    }
}

/// Whether the bytes are a digit string.
fn is_numeral(bytes: &[u8]) -> bool
    ensures { IsTrue result ↔ IsNumeral 10 bytes.now }
{
    !bytes.is_empty() && are_digits(bytes)
}

/// Whether each of the bytes is a digit.
fn are_digits(bytes: &[u8]) -> bool
    ensures { IsTrue result ↔ EachIndex bytes.now (λ i. (48 ≤ slice_index bytes.now i)
        × (slice_index bytes.now i ≤ 57)) }
{
    bytes.iter().all(|byte| *byte >= b'0' && *byte <= b'9')
}

/// Whether a field has this name, whatever the case of its letters.
fn is_named(bytes: &[u8], field: &HeaderSpan, name: &[u8]) -> bool
    requires { IsHeaderWithin (length bytes.now) field.now }
    ensures { result ≡ is_named_so name.now (header_bytes bytes.now field.now) }
{
    field.name.of(bytes).eq_ignore_ascii_case(name)
}

/// The number of a digit string of at most twenty digits, within the limit of a body.
pub(crate) fn small(digits: &[u8]) -> Option<usize>
    requires { IsNumeral 10 digits.now }
    ensures { MatchOption result (¬ IsSmall digits.now)
        (λ number. IsSmall digits.now × (number ≡ digits_value 10 digits.now)) }
{
    if digits.len() > 20 {
        return None;
    }
    let number = value_of(digits);
    if number <= BODY_LIMIT {
        Some(number as usize)
    } else {
        None
    }
}

/// The number of a digit string of at most twenty digits.
fn value_of(digits: &[u8]) -> u128
    requires digits { AllDigits 10 digits.now }
    requires few { length digits.now ≤ 20 }
    ensures { result ≡ digits_value 10 digits.now }
{
    let mut value: u128 = 0;
    for digit in digits {
        value = value * 10 + u128::from(*digit - b'0');
    }
    value
}
