//! The next word of a line as what it has to be.
ghost use Rattle.std.specs.Prelude.{◌≡◌, IfOk, IfErr};
ghost use Rattle.commands.specs.Fields.{AVerb, AName, AWho, AColour, AMark, ADirection, ANumber, ALength};
ghost use Rattle.commands.specs.Fields.{APoint};
ghost use Rattle.commands.specs.Reading.{first_column};
ghost use Rattle.commands.specs.Taking.{IsTaken, IsWrong};

use crate::BadText;
use crate::letter::{read_colour, read_mark};
use crate::number::{read_direction, read_length, read_within};
use crate::verb::read_verb;
use crate::who::{Who, read_who};
use crate::words::{Words, syntax};
use plane::{Point, read_point};
use qroot2::{Dir, NumText};
use sheet::{Colour, Mark};
use vocabulary::{Name, Verb};

/// How many lines are to come, and the column of the word that says so.
#[derive(Clone, Copy)]
pub(crate) struct Count {
    pub(crate) lines: u32,
    pub(crate) column: u64,
}

impl<'a> Words<'a> {
    /// Takes what is to be done.
    pub(crate) fn verb(&mut self) -> Result<Verb, BadText>
        ensures right { IfOk result (λ a. IsTaken AVerb self.old a self.new) }
        ensures wrong { IfErr result (IsWrong AVerb self.old) }
    {
        let word = self.take()?;
        read_verb(word.text).ok_or(syntax(&word))
    }

    /// Takes the name of a project.
    pub(crate) fn name(&mut self) -> Result<Name, BadText>
        ensures right { IfOk result (λ a. IsTaken AName self.old a self.new) }
        ensures wrong { IfErr result (IsWrong AName self.old) }
    {
        let word = self.take()?;
        Name::new(word.text).ok().ok_or(syntax(&word))
    }

    /// Takes the project of a change.
    pub(crate) fn who(&mut self) -> Result<Who, BadText>
        ensures right { IfOk result (λ a. IsTaken AWho self.old a self.new) }
        ensures wrong { IfErr result (IsWrong AWho self.old) }
    {
        let word = self.take()?;
        read_who(word.text).ok_or(syntax(&word))
    }

    /// Takes a colour.
    pub(crate) fn colour(&mut self) -> Result<Colour, BadText>
        ensures right { IfOk result (λ a. IsTaken AColour self.old a self.new) }
        ensures wrong { IfErr result (IsWrong AColour self.old) }
    {
        let word = self.take()?;
        read_colour(word.text).ok_or(syntax(&word))
    }

    /// Takes a mark.
    pub(crate) fn mark(&mut self) -> Result<Mark, BadText>
        ensures right { IfOk result (λ a. IsTaken AMark self.old a self.new) }
        ensures wrong { IfErr result (IsWrong AMark self.old) }
    {
        let word = self.take()?;
        read_mark(word.text).ok_or(syntax(&word))
    }

    /// Takes a direction.
    pub(crate) fn direction(&mut self) -> Result<Dir, BadText>
        ensures right { IfOk result (λ a. IsTaken ADirection self.old a self.new) }
        ensures wrong { IfErr result (IsWrong ADirection self.old) }
    {
        let word = self.take()?;
        read_direction(word.text).ok_or(syntax(&word))
    }

    /// Takes a whole number within limits.
    pub(crate) fn number(&mut self, low: u32, most: u32) -> Result<u32, BadText>
        ensures right { IfOk result (λ a. IsTaken (ANumber low most) self.old a self.new) }
        ensures wrong { IfErr result (IsWrong (ANumber low most) self.old) }
    {
        let word = self.take()?;
        read_within(word.text, low, most).ok_or(syntax(&word))
    }

    /// Takes how many lines are to come.
    pub(crate) fn count(&mut self) -> Result<Count, BadText>
        ensures right { IfOk result (λ count. IsTaken (ANumber 0 40000) self.old count.lines self.new) }
        ensures column { IfOk result (λ count. count.column ≡ first_column self.old.words) }
        ensures wrong { IfErr result (IsWrong (ANumber 0 40000) self.old) }
    {
        let word = self.take()?;
        match read_within(word.text, 0, 40_000) {
            Some(lines) => Ok(Count {
                lines,
                column: word.column,
            }),
            None => Err(syntax(&word)),
        }
    }

    /// Takes a width or a height.
    pub(crate) fn length(&mut self) -> Result<u8, BadText>
        ensures right { IfOk result (λ a. IsTaken ALength self.old a self.new) }
        ensures wrong { IfErr result (IsWrong ALength self.old) }
    {
        let word = self.take()?;
        read_length(word.text).ok_or(syntax(&word))
    }

    /// Takes a point.
    pub(crate) fn point(&mut self) -> Result<Point, BadText>
        ensures right { IfOk result (λ a. IsTaken APoint self.old a self.new) }
        ensures wrong { IfErr result (IsWrong APoint self.old) }
    {
        let word = self.take()?;
        match read_point(word.text) {
            Ok(point) => Ok(point),
            Err(NumText::Syntax) => Err(syntax(&word)),
            Err(NumText::Range) => Err(BadText::Range {
                column: word.column,
            }),
        }
    }
}
