//! The first word of a command that is to change a project.
ghost use Rattle.std.specs.Prelude.{◌≡◌, ◌↔◌, ◌≤◌, IfSome, IsTrue, length, MatchOption, position};
ghost use Rattle.std.specs.Prelude.{ℕ, List, true};
ghost use Rattle.vocabulary.specs.Verbs.{verb_text, is_change as is_change_verb};
ghost use Rattle.vocabulary.specs.declared.verb.Verb.{Verb as AnyVerb};
ghost use Rattle.routes.specs.Edits.{IsChange};
ghost use Rattle.routes.specs.FirstWords.{IsFirstWord, is_end};

use vocabulary::Verb;

/// The word of a change that a command begins with, and what stands behind it.
pub(crate) fn change_in(command: &[u8]) -> Option<(&[u8], &[u8])>
    ensures { MatchOption result ((verb : AnyVerb) (behind : List ℕ) → ¬ IsChange command.now verb behind)
        (λ c. (verb : AnyVerb) × (c.0.now ≡ verb_text verb) × IsChange command.now verb c.1.now) }
{
    let (word, behind) = first_word(command);
    if is_change(word) {
        Some((word, behind))
    } else {
        None
    }
}

/// Whether a word is that of a change.
fn is_change(word: &[u8]) -> bool
    ensures { IsTrue result
        ↔ ((verb : AnyVerb) × (verb_text verb ≡ word.now) × (is_change_verb verb ≡ true)) }
{
    match Verb::read(word) {
        Some(verb) => verb.is_change(),
        None => false,
    }
}

/// The bytes before the first blank, carriage return or line feed, and the bytes from there on.
fn first_word(text: &[u8]) -> (&[u8], &[u8])
    ensures { IsFirstWord text.now result.0.now result.1.now }
{
    match word_end(text) {
        Some(end) => text.split_at(end),
        None => (text, &[]),
    }
}

/// Where the first byte stands at which a word ends.
fn word_end(text: &[u8]) -> Option<usize>
    ensures place { result ≡ position is_end text.now }
    ensures within { IfSome result (λ end. end ≤ length text.now) }
{
    text.iter().position(|byte| ends_word(*byte))
}

/// Whether a word ends at this byte.
fn ends_word(byte: u8) -> bool
    ensures { result ≡ is_end byte }
{
    byte == b' ' || byte == b'\t' || byte == b'\r' || byte == b'\n'
}
