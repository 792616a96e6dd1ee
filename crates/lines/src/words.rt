//! The words of a line, taken one after another.
ghost use Rattle.std.specs.Prelude.{◌≡◌, ◌+◌, ◌↔◌, [], IfSome, IsNone, IsTrue, length, not, position};
ghost use Rattle.lines.specs.Taking.{is_blank as is_blank_byte, left_of};
ghost use Rattle.lines.specs.Words.{AreWords, before};

use std::marker::Model;

/// A word, and the place of its first byte in the line, counted from 1.
#[derive(Clone, Copy)]
pub struct Word<'a> {
    pub text: &'a [u8],
    pub column: u64,
}

/// The words of a line that are not taken yet. They are separated by spaces and tabs. Contracts see
/// the list of them, and the column of a word that is missing behind them.
#[derive(Drop)]
pub struct Words<'a> {
    rest: &'a [u8],
    /// How many bytes of the line stand before the rest.
    at: usize,
}

impl<'a> Model for Words<'a> {
    ghost use Rattle.std.specs.Prelude.{◌+◌, ◌<◌, ◌^◌, length};
    ghost use Rattle.lines.specs.Words.{Left};
    ghost use Rattle.lines.specs.Taking.{left_of};

    ghost Value = { Left };

    ghost view = { λ s. left_of s.at s.rest.now };

    ghost invariant = { λ s. s.at + length s.rest.now < 2 ^ 63 };
}

impl<'a> Words<'a> {
    /// All words of a line.
    pub fn of(line: &'a [u8]) -> Words<'a>
        ensures all { AreWords line.now result.words }
        ensures missing { result.missing ≡ length line.now + 1 }
    {
        Words { rest: line, at: 0 }
    }

    /// Takes the next word, if there is one.
    pub fn next(&mut self) -> Option<Word<'a>>
        ensures some { IfSome result (λ word.
            self.old ≡ before (record { column = word.column; text = word.text.now }) self.new) }
        ensures none { IsNone result → self.old.words ≡ [] }
        ensures same { IsNone result → self.new ≡ self.old }
    {
        let gap = first_solid(self.rest)?;
        let rest = &self.rest[gap..];
        let end = first_blank(rest).unwrap_or(rest.len());
        let start = self.at + gap;
        self.rest = &rest[end..];
        self.at = start + end;
        Some(Word {
            text: &rest[..end],
            column: start as u64 + 1,
        })
    }

    /// Whether no word is left.
    pub fn is_empty(&self) -> bool
        ensures { IsTrue result ↔ (self.now.words ≡ []) }
    {
        first_solid(self.rest).is_none()
    }

    /// The column of a word that is missing behind the words: one more than the number of bytes of
    /// the line.
    pub fn missing(&self) -> u64
        ensures { result ≡ self.now.missing }
    {
        (self.at + self.rest.len()) as u64 + 1
    }
}

/// The place of the first byte that is no blank.
fn first_solid(bytes: &[u8]) -> Option<usize>
    ensures { result ≡ position (λ b. not (is_blank_byte b)) bytes.now }
{
    bytes.iter().position(|byte| !is_blank(*byte))
}

/// The place of the first blank.
fn first_blank(bytes: &[u8]) -> Option<usize>
    ensures { result ≡ position is_blank_byte bytes.now }
{
    bytes.iter().position(|byte| is_blank(*byte))
}

fn is_blank(byte: u8) -> bool
    ensures { result ≡ is_blank_byte byte }
{
    byte == b' ' || byte == b'\t'
}
