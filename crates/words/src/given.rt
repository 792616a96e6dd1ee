//! The values that words give to arguments.
ghost use Rattle.std.specs.Prelude.{◌<◌, ◌≤◌, ◌↔◌, ◌∷◌, List, ℕ, IfSome, IsNone, IsTrue};
ghost use Rattle.std.specs.Prelude.{length, map, string_bytes};
ghost use Rattle.words.specs.Grammar.{giving};
ghost use Rattle.words.specs.Tasks.{maybe_text};
ghost use Rattle.words.specs.FirstGiven.{IsFirst, IsFound, HasNoFirst, GiveTo, TextBy};

use crate::argument::{Argument, is_among, named};
use crate::text::{cut, may_be_value};

/// The first value that some words give to an argument, and the words behind it.
#[derive(Clone, Copy)]
struct FirstGiven<'a> {
    argument: Argument,
    value: &'a str,
    behind: &'a [String],
}

/// Whether the words give values to some of these arguments, each at most once.
pub(crate) fn are_given(arguments: &[Argument], words: &[String]) -> bool
    ensures { IsTrue result ↔ GiveTo arguments.now (map string_bytes words.now) }
{
    if words.is_empty() {
        return true;
    }
    match first(words) {
        None => false,
        Some(first) => {
            if !is_among(arguments, first.argument) {
                return false;
            }
            if text_of(first.behind, first.argument).is_some() {
                return false;
            }
            are_given(arguments, first.behind)
        }
    }
}

/// The value that words give to an argument, if they give it one.
pub(crate) fn text_of(words: &[String], argument: Argument) -> Option<&str>
    ensures { TextBy (map string_bytes words.now) argument (maybe_text result) }
{
    let mut rest = words;
    while let Some(first) = first(rest) {
        if first.argument == argument {
            return Some(first.value);
        }
        rest = first.behind;
    }
    None
}

/// The first value that words give.
fn first(words: &[String]) -> Option<FirstGiven<'_>>
    ensures some { IfSome result (λ f. IsFirst (map string_bytes words.now)
        (giving f.argument f.value.now) (map string_bytes f.behind.now)) }
    ensures shorter { IfSome result (λ f. length f.behind.now < length words.now) }
    ensures none { IsNone result → HasNoFirst (map string_bytes words.now) }
{
    match words {
        [] => None,
        [word, later @ ..] => first_by(word.as_str(), later),
    }
}

/// The value that a word is, or that it and the word behind it give to an option.
fn first_by<'a>(word: &'a str, later: &'a [String]) -> Option<FirstGiven<'a>>
    ensures some { IfSome result (λ f. IsFirst (word.entry.now ∷ map string_bytes later.entry.now)
        (giving f.argument f.value.now) (map string_bytes f.behind.now)) }
    ensures shorter { IfSome result (λ f. length f.behind.now ≤ length later.entry.now) }
    ensures none { IsNone result → HasNoFirst (word.entry.now ∷ map string_bytes later.entry.now) }
{
    if may_be_value(word) {
        return Some(FirstGiven {
            argument: Argument::Port,
            value: word,
            behind: later,
        });
    }
    let (name, own) = cut(word);
    let argument = named(name)?;
    let (value, behind) = value(own, later)?;
    if !may_be_value(value) {
        return None;
    }
    Some(FirstGiven {
        argument,
        value,
        behind,
    })
}

/// The value of an option, by the text behind its `=`, if there is one, and the words behind it, and
/// the words behind the value.
fn value<'a>(own: Option<&'a str>, later: &'a [String]) -> Option<(&'a str, &'a [String])>
    ensures some { IfSome result (λ v. IsFound (maybe_text own.entry) (map string_bytes later.entry.now)
        v.0.now (map string_bytes v.1.now)) }
    ensures shorter { IfSome result (λ v. length v.1.now ≤ length later.entry.now) }
    ensures none { IsNone result → (value : List ℕ) (behind : List (List ℕ))
        → ¬ IsFound (maybe_text own.entry) (map string_bytes later.entry.now) value behind }
{
    if let Some(value) = own {
        return Some((value, later));
    }
    match later {
        [] => None,
        [value, behind @ ..] => Some((value.as_str(), behind)),
    }
}
