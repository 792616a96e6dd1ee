//! What `check` writes for its input.
ghost use Rattle.std.specs.Prelude.{◌≡◌, ◌≤◌, IfOk, Ok, Err};
ghost use Rattle.ports.specs.Streams.{Rose};
ghost use Rattle.ports.specs.Stops.{Answers as MayAnswer};
ghost use Rattle.edits.specs.EditOf.{EditOf};
ghost use Rattle.oriedit.specs.CheckText.{CheckText, DrawnText, FaultsText, LinesText, faults_status};
ghost use Rattle.oriedit.specs.Dues.{text_of};
ghost use Rattle.oriedit.specs.Run.{Answers};

use crate::Status;
use crate::due::{Due, Text, written};
use cpfile::read_cp;
use dialogue::{Cause, Reply};
use edits::{Edit, EditBad, plan};
use judge::{Fault, Judged};
use lattice::Lattice;
use pattern::{Crease, Pattern};
use ports::{Listed, NoMemory, Sink, Stop};
use sheet::Sheet;
use std::alloc::{AllocError, Global};

/// Writes what is due for the whole input of `check`.
pub fn check<W: Sink>(
    alloc: Global,
    bytes: &[u8],
    lattice: &Lattice,
    sheet: &Sheet,
    sink: &mut W,
) -> Status
    ensures bytes { Answers (CheckText lattice.now sheet.now) bytes.now
        (W.held sink.old) (W.held sink.new) result }
    ensures fault { result ≡ Status.WriteFault → Rose (W.faults sink.old) (W.faults sink.new) }
    ensures later { W.faults sink.old ≤ W.faults sink.new }
    ensures aside { W.aside sink.new ≡ W.aside sink.old }
{
    match due_for_cp(alloc, bytes, lattice, sheet) {
        Ok(due) => written(sink, &due),
        Err(NoMemory) => Status::NoMemory,
    }
}

/// What is due for these bytes.
fn due_for_cp(
    alloc: Global,
    bytes: &[u8],
    lattice: &Lattice,
    sheet: &Sheet,
) -> Result<Due, NoMemory>
    ensures { IfOk result (λ due. CheckText lattice.now sheet.now bytes.now due.status (text_of due.text)) }
{
    match read_cp(alloc, bytes, lattice, sheet) {
        Ok(read) => due_of_lines(alloc, sheet, read.lines),
        Err(Stop::Why(bad)) => Ok(Due::refused(Cause::Cp(bad))),
        Err(Stop::NoMemory) => Err(NoMemory),
    }
}

/// What is due for the lines of a CP text.
fn due_of_lines(alloc: Global, sheet: &Sheet, lines: Listed<Crease>) -> Result<Due, NoMemory>
    ensures { IfOk result (λ due. LinesText sheet.now lines due.status (text_of due.text)) }
{
    let empty = Pattern::empty(alloc, *sheet);
    match edited(alloc, &empty, &Edit::Lines(lines)) {
        Ok(pattern) => due_of_faults(alloc, pattern),
        Err(Stop::Why(bad)) => due_undrawn(alloc, sheet, bad),
        Err(Stop::NoMemory) => Err(NoMemory),
    }
}

/// What an edit makes of a pattern.
fn edited(alloc: Global, pattern: &Pattern, edit: &Edit) -> Result<Pattern, Stop<EditBad>>
    ensures { MayAnswer (EditOf pattern.now edit.now) result }
{
    let delta = plan(alloc, pattern, edit)?;
    Ok(pattern.applied(alloc, &delta)?)
}

/// What is due where the lines cannot be drawn, or draw nothing: the sheet is then judged as it is.
fn due_undrawn(alloc: Global, sheet: &Sheet, bad: EditBad) -> Result<Due, NoMemory>
    ensures { IfOk result (λ due. DrawnText sheet.now (Err bad) due.status (text_of due.text)) }
{
    match bad {
        EditBad::NoChange => due_of_faults(alloc, Pattern::empty(alloc, *sheet)),
        _ => Ok(Due::refused(Cause::Edit(bad))),
    }
}

/// What is due for a pattern: its faults.
fn due_of_faults(alloc: Global, pattern: Pattern) -> Result<Due, NoMemory>
    ensures { IfOk result (λ due. FaultsText pattern due.status (text_of due.text)) }
{
    match Judged::start(alloc, pattern) {
        Ok(judged) => Ok(due_of_judged(alloc, &judged)?),
        Err(Stop::Why(bad)) => Ok(Due::refused(Cause::Cut(bad))),
        Err(Stop::NoMemory) => Err(NoMemory),
    }
}

/// What is due for a pattern that is cut and judged.
fn due_of_judged(alloc: Global, judged: &Judged) -> Result<Due, AllocError>
    ensures { IfOk result (λ due. FaultsText judged.now due.status (text_of due.text)) }
{
    // it is cut
    let _pattern = judged.pattern();
    let faults = judged.faults();
    let status = status_for(faults);
    let list = Vec::from_slice(alloc, faults)?;
    Ok(Due {
        text: Text::Reply(Reply::Faults {
            rev: 0,
            list: Listed::new(list),
        }),
        status,
    })
}

/// The status that comes with these faults.
fn status_for(faults: &[Fault]) -> Status
    ensures { result ≡ faults_status faults.now }
{
    match faults {
        [] => Status::Ok,
        [_, ..] => Status::FaultsFound,
    }
}
