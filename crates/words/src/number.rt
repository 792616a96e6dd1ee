//! Numbers as values.
ghost use Rattle.std.specs.Prelude.{◌≡◌, ◌≢◌, ◌≤◌, ◌<◌, ℕ, MatchOption, decimal};
ghost use Rattle.words.specs.Tasks.{maybe_text};
ghost use Rattle.words.specs.Texts.{NumberFrom};

use vocabulary::read_number;

/// The number from 1 to `most` that a text spells.
pub(crate) fn number(text: &str, most: u64) -> Option<u64>
    ensures { MatchOption result ((n : ℕ) → 1 ≤ n → n ≤ most → decimal n ≢ text.now)
        (λ n. (decimal n ≡ text.now) × (1 ≤ n) × (n ≤ most)) }
{
    let number = read_number(text.as_bytes(), most)?;
    if number > 0 { Some(number) } else { None }
}

/// The same, or the usual number where there is no text.
pub(crate) fn number_or(text: Option<&str>, most: u64, usual: u64) -> Option<u64>
    ensures { NumberFrom most usual (maybe_text text.entry) result }
{
    match text {
        None => Some(usual),
        Some(text) => number(text, most),
    }
}

/// The same for numbers of 32 bits.
pub(crate) fn small_or(text: Option<&str>, most: u32, usual: u32) -> Option<u32>
    ensures { NumberFrom most usual (maybe_text text.entry) result }
{
    Some(number_or(text, u64::from(most), u64::from(usual))? as u32)
}
