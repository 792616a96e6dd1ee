//! Words as names and values.
ghost use Rattle.std.specs.Prelude.{◌≡◌, ◌↔◌, IsTrue};
ghost use Rattle.words.specs.Grammar.{IsValue};
ghost use Rattle.words.specs.Tasks.{maybe_text};
ghost use Rattle.words.specs.FirstGiven.{cut_at_equals};

/// Whether a text may be a value: it is not empty and does not begin with a hyphen.
pub(crate) fn may_be_value(text: &str) -> bool
    ensures { IsTrue result ↔ IsValue text.now }
{
    match text.as_bytes() {
        [] => false,
        [first, ..] => *first != b'-',
    }
}

/// The parts of a word before and behind its first `=`, or the word alone where it has none.
pub(crate) fn cut(word: &str) -> (&str, Option<&str>)
    ensures name { result.0.now ≡ (cut_at_equals word.now).0 }
    ensures value { maybe_text result.1 ≡ (cut_at_equals word.now).1 }
{
    match word.split_once('=') {
        Some((name, value)) => (name, Some(value)),
        None => (word, None),
    }
}
