//! A text as one command.
ghost use Rattle.std.specs.Prelude.{◌≡◌, ◌↔◌, IsTrue, List, Ok};
ghost use Rattle.commands.specs.Lines.{Asks, IsSilent, IsWanted, ReadsCommand, count_of};
ghost use Rattle.lines.specs.Words.{AreWords, Word as AnyWord};
ghost use Rattle.ports.specs.Stops.{Answers};

use crate::BadText;
use crate::ask::Asked;
use crate::asked::read_words;
use crate::gather::{alone, whole_import};
use crate::words::Words;
use dialogue::Command;
use lines::{bare, first_line};
use ports::Stop;
use std::alloc::Global;

/// As many bytes may be in a line of a command, without its LF and the CR before it.
pub(crate) const LINE_LIMIT: usize = 4096;

/// Reads a text as one command: a line, and for an import as many lines more as it says. The last
/// line has its LF or not, and one CR before an LF or at the end is dropped and not counted. Words
/// are separated by spaces and tabs. A blank line and a comment, of which the first word begins with
/// `#`, are none, however long. The text of an import is its lines, each with an LF behind it.
///
/// # Errors
///
/// `Syntax` at column 4097 where a line of the command has more than 4,096 bytes. Then the first
/// wrong word from the left, by the column of its first byte: `Range` where it is a point whose
/// reading is Range, and else `Syntax`. A word that is missing is `Syntax` at one more than the
/// number of bytes of the line, and a word too many is `Syntax` at its column. Then, where an import
/// has fewer lines than it says, `Syntax` at the column of the word that says how many. Last,
/// `Syntax` at column 1 where bytes come behind the command. `NoMemory` where the text of an import
/// finds none.
pub fn read_command(alloc: Global, text: &[u8]) -> Result<Option<Command>, Stop<BadText>>
    ensures { Answers (ReadsCommand text.now) result }
{
    let (line, after) = first_line(text);
    if is_silent(&mut lines::Words::of(line)) {
        return Ok(None);
    }
    match read_line(line) {
        Ok(Asked::Command(command)) => alone(after, command),
        Ok(Asked::Import(import)) => whole_import(alloc, import, after),
        Err(bad) => Err(Stop::Why(bad)),
    }
}

/// How many lines behind the first of a command belong to it: the number that the line of an import
/// says, where no word of it is wrong, missing or too many and it has at most 4,096 bytes, and else
/// none. The line is given without its LF, and one CR at its end is dropped. It takes no memory.
pub fn lines_wanted(first: &[u8]) -> u32
    ensures { IsWanted first.now result }
{
    let line = bare(first);
    match read_line(line) {
        Ok(asked) => lines_of(&asked),
        Err(_) => 0,
    }
}

/// How many lines are to come.
fn lines_of(asked: &Asked) -> u32
    ensures { result ≡ count_of (Ok asked.now) }
{
    match asked {
        Asked::Command(_) => 0,
        Asked::Import(import) => import.count,
    }
}

/// What a line asks for.
fn read_line(line: &[u8]) -> Result<Asked, BadText>
    ensures { (words : List AnyWord) × AreWords line.now words × Asks line.now words result }
{
    if line.len() > LINE_LIMIT {
        return Err(BadText::Syntax { column: 4097 });
    }
    read_words(&mut Words::of(lines::Words::of(line)))
}

/// Whether a line is blank or a comment.
fn is_silent(words: &mut lines::Words) -> bool
    ensures { IsTrue result ↔ IsSilent words.old.words }
{
    match words.next() {
        None => true,
        Some(word) => word.text.starts_with(b"#"),
    }
}
