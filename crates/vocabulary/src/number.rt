//! Digit strings.
ghost use Rattle.std.specs.Prelude.{◌↔◌, IsTrue};
ghost use Rattle.vocabulary.specs.Numbers.{IsPlain, ReadsNumber};

use std::str;

/// The number up to `most` that the bytes spell, or None exactly where they spell none: a digit string
/// with no leading zero but `0` itself. It takes no memory.
pub fn read_number(bytes: &[u8], most: u64) -> Option<u64>
    ensures { ReadsNumber most bytes.now result }
{
    match str::from_utf8(bytes) {
        Ok(text) => parsed(text, most),
        Err(_) => None,
    }
}

/// The number up to `most` of which this is the text.
fn parsed(text: &str, most: u64) -> Option<u64>
    ensures { ReadsNumber most text.now result }
{
    if !is_plain(text.as_bytes()) {
        return None;
    }
    match text.parse::<u64>() {
        Ok(value) => { if value <= most { Some(value) } else { None } }
        Err(_) => None,
    }
}

/// Whether the bytes do not begin with `+` or with a needless zero, both of which `parse` takes.
fn is_plain(bytes: &[u8]) -> bool
    ensures { IsTrue result ↔ IsPlain bytes.now }
{
    match bytes {
        [] => false,
        [first] => *first != b'+',
        [first, _, ..] => *first != b'+' && *first != b'0',
    }
}
