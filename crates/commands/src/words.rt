//! The words of a line, taken one after another, where one that is missing or too many is wrong.
ghost use Rattle.std.specs.Prelude.{◌≡◌, ◌↔◌, [], IfOk, IfErr, IsOk, IsTrue};
ghost use Rattle.lines.specs.Words.{before};
ghost use Rattle.commands.specs.Taking.{HasMore};

use crate::BadText;
use lines::Word;
use std::marker::Model;

/// The words of a line that are not taken yet.
#[derive(Drop)]
pub(crate) struct Words<'a> {
    words: lines::Words<'a>,
}

impl<'a> Model for Words<'a> {
    ghost use Rattle.lines.specs.Words.{Left};

    ghost Value = { Left };

    ghost view = { λ s. s.words };
}

impl<'a> Words<'a> {
    /// These words.
    pub(crate) fn of(words: lines::Words<'a>) -> Words<'a>
        ensures { result ≡ words.entry }
    {
        Words { words }
    }

    /// Takes the next word.
    ///
    /// # Errors
    ///
    /// Where there is none it is missing behind the end of the line.
    pub(crate) fn take(&mut self) -> Result<Word<'a>, BadText>
        ensures right { IfOk result (λ word.
            self.old ≡ before (record { column = word.column; text = word.text.now }) self.new) }
        ensures missing { IfErr result (λ why.
            (self.old.words ≡ []) × (why ≡ BadText.Syntax self.old.missing)) }
    {
        let column = self.words.missing();
        match self.words.next() {
            Some(word) => Ok(word),
            None => Err(BadText::Syntax { column }),
        }
    }

    /// Ends the words.
    ///
    /// # Errors
    ///
    /// Where there is a word more it is wrong.
    pub(crate) fn end(&mut self) -> Result<(), BadText>
        ensures none { IsOk result → self.old.words ≡ [] }
        ensures more { IfErr result (HasMore self.old) }
    {
        match self.words.next() {
            None => Ok(()),
            Some(word) => Err(syntax(&word)),
        }
    }

    /// Whether no word is left.
    pub(crate) fn is_empty(&self) -> bool
        ensures { IsTrue result ↔ (self.now.words ≡ []) }
    {
        self.words.is_empty()
    }
}

/// That this word is wrong.
pub(crate) fn syntax(word: &Word) -> BadText
    ensures { result ≡ BadText.Syntax word.now.column }
{
    BadText::Syntax {
        column: word.column,
    }
}
