//! What is asked for, by its words: what is to be done, and then what belongs to it.
ghost use Rattle.std.specs.Prelude.{◌≡◌};
ghost use Rattle.commands.specs.Reading.{CommandOf, ImportOf, ReadsWords, changed as changed_by};
ghost use Rattle.commands.specs.Reading.{edited as edited_by};

use crate::BadText;
use crate::ask::{Asked, ImportLine};
use crate::who::Who;
use crate::words::Words;
use dialogue::{Change, Command};
use edits::Edit;
use lattice::Lattice;
use sheet::Sheet;
use vocabulary::Verb;

/// What the words ask for.
///
/// # Errors
///
/// The first wrong word from the left.
pub(crate) fn read_words(words: &mut Words) -> Result<Asked, BadText>
    ensures { ReadsWords words.old result }
{
    let verb = words.verb()?;
    command_of(verb, words)
}

/// What the words behind the first ask for.
fn command_of(verb: Verb, words: &mut Words) -> Result<Asked, BadText>
    ensures { CommandOf verb words.old result }
{
    match verb {
        Verb::New => new(words),
        Verb::List => list(words),
        Verb::Show => show(words),
        Verb::Faults => faults(words),
        Verb::Vertex => vertex(words),
        Verb::Pattern => pattern(words),
        Verb::Cp => cp(words),
        Verb::Fold => fold(words),
        Verb::Draw => draw(words),
        Verb::Erase => erase(words),
        Verb::Recolour => recolour(words),
        Verb::Flip => flip(words),
        Verb::Extend => extend(words),
        Verb::Bisect => bisect(words),
        Verb::Mirror => mirror(words),
        Verb::RabbitEar => rabbit_ear(words),
        Verb::Import => import(words),
        Verb::Undo => undo(words),
        Verb::Redo => redo(words),
    }
}

/// A new project, on the square where no width and height are given.
fn new(words: &mut Words) -> Result<Asked, BadText>
    ensures { CommandOf Verb.New words.old result }
{
    let name = words.name()?;
    if words.is_empty() {
        let sheet = Sheet::square();
        return Ok(Asked::Command(Command::New { name, sheet }));
    }
    let w = words.length()?;
    let h = words.length()?;
    words.end()?;
    let Some(sheet) = Sheet::new(w, h) else {
        unreachable!()
    };
    Ok(Asked::Command(Command::New { name, sheet }))
}

fn list(words: &mut Words) -> Result<Asked, BadText>
    ensures { CommandOf Verb.List words.old result }
{
    words.end()?;
    Ok(Asked::Command(Command::List))
}

fn show(words: &mut Words) -> Result<Asked, BadText>
    ensures { CommandOf Verb.Show words.old result }
{
    let name = words.name()?;
    words.end()?;
    Ok(Asked::Command(Command::Show { name }))
}

fn faults(words: &mut Words) -> Result<Asked, BadText>
    ensures { CommandOf Verb.Faults words.old result }
{
    let name = words.name()?;
    words.end()?;
    Ok(Asked::Command(Command::Faults { name }))
}

fn vertex(words: &mut Words) -> Result<Asked, BadText>
    ensures { CommandOf Verb.Vertex words.old result }
{
    let name = words.name()?;
    let at = words.point()?;
    words.end()?;
    Ok(Asked::Command(Command::Vertex { name, at }))
}

fn pattern(words: &mut Words) -> Result<Asked, BadText>
    ensures { CommandOf Verb.Pattern words.old result }
{
    let name = words.name()?;
    words.end()?;
    Ok(Asked::Command(Command::PatternText { name }))
}

fn cp(words: &mut Words) -> Result<Asked, BadText>
    ensures { CommandOf Verb.Cp words.old result }
{
    let name = words.name()?;
    words.end()?;
    Ok(Asked::Command(Command::CpText { name }))
}

fn fold(words: &mut Words) -> Result<Asked, BadText>
    ensures { CommandOf Verb.Fold words.old result }
{
    let name = words.name()?;
    words.end()?;
    Ok(Asked::Command(Command::FoldText { name }))
}

fn draw(words: &mut Words) -> Result<Asked, BadText>
    ensures { CommandOf Verb.Draw words.old result }
{
    let who = words.who()?;
    let colour = words.colour()?;
    let from = words.point()?;
    let to = words.point()?;
    words.end()?;
    Ok(edited(who, Edit::Draw { colour, from, to }))
}

fn erase(words: &mut Words) -> Result<Asked, BadText>
    ensures { CommandOf Verb.Erase words.old result }
{
    let who = words.who()?;
    let from = words.point()?;
    let to = words.point()?;
    words.end()?;
    Ok(edited(who, Edit::Erase { from, to }))
}

fn recolour(words: &mut Words) -> Result<Asked, BadText>
    ensures { CommandOf Verb.Recolour words.old result }
{
    let who = words.who()?;
    let colour = words.colour()?;
    let from = words.point()?;
    let to = words.point()?;
    words.end()?;
    Ok(edited(who, Edit::Recolour { colour, from, to }))
}

fn flip(words: &mut Words) -> Result<Asked, BadText>
    ensures { CommandOf Verb.Flip words.old result }
{
    let who = words.who()?;
    words.end()?;
    Ok(edited(who, Edit::Flip))
}

fn extend(words: &mut Words) -> Result<Asked, BadText>
    ensures { CommandOf Verb.Extend words.old result }
{
    let who = words.who()?;
    let colour = words.colour()?;
    let at = words.point()?;
    let dir = words.direction()?;
    words.end()?;
    Ok(edited(who, Edit::Extend { colour, at, dir }))
}

fn bisect(words: &mut Words) -> Result<Asked, BadText>
    ensures { CommandOf Verb.Bisect words.old result }
{
    let who = words.who()?;
    let colour = words.colour()?;
    let at = words.point()?;
    let first = words.direction()?;
    let second = words.direction()?;
    words.end()?;
    Ok(edited(
        who,
        Edit::Bisect {
            colour,
            at,
            first,
            second,
        },
    ))
}

fn mirror(words: &mut Words) -> Result<Asked, BadText>
    ensures { CommandOf Verb.Mirror words.old result }
{
    let who = words.who()?;
    let at = words.point()?;
    let dir = words.direction()?;
    words.end()?;
    Ok(edited(who, Edit::Mirror { at, dir }))
}

fn rabbit_ear(words: &mut Words) -> Result<Asked, BadText>
    ensures { CommandOf Verb.RabbitEar words.old result }
{
    let who = words.who()?;
    let mark = words.mark()?;
    let p = words.point()?;
    let q = words.point()?;
    let r = words.point()?;
    words.end()?;
    Ok(edited(who, Edit::RabbitEar { mark, p, q, r }))
}

/// An import, whose lines are to come.
fn import(words: &mut Words) -> Result<Asked, BadText>
    ensures { ImportOf words.old result }
{
    let who = words.who()?;
    let d = words.number(1, 1024)?;
    let k = words.number(d, 1024)?;
    let tol = words.number(1, 100_000)?;
    let count = words.count()?;
    words.end()?;
    let Some(lattice) = Lattice::new(d, k, tol) else {
        unreachable!()
    };
    Ok(Asked::Import(ImportLine {
        who,
        lattice,
        count: count.lines,
        column: count.column,
    }))
}

fn undo(words: &mut Words) -> Result<Asked, BadText>
    ensures { CommandOf Verb.Undo words.old result }
{
    let who = words.who()?;
    words.end()?;
    Ok(Asked::Command(changed(who, Change::Undo)))
}

fn redo(words: &mut Words) -> Result<Asked, BadText>
    ensures { CommandOf Verb.Redo words.old result }
{
    let who = words.who()?;
    words.end()?;
    Ok(Asked::Command(changed(who, Change::Redo)))
}

/// The change of a project.
pub(crate) fn changed(who: Who, change: Change) -> Command
    ensures { result ≡ changed_by who change }
{
    Command::Change {
        name: who.name,
        rev: who.rev,
        change,
    }
}

/// An edit of a project.
fn edited(who: Who, edit: Edit) -> Asked
    ensures { result ≡ edited_by who edit }
{
    Asked::Command(changed(who, Change::Edit(edit)))
}
