//! The lines that belong to an import.
ghost use Rattle.std.specs.Prelude.{◌≡◌, ◌≤◌, ◌<◌, ◌↔◌, [], IfOk, IsTrue, length};
ghost use Rattle.commands.specs.Gathering.{Gathers};
ghost use Rattle.commands.specs.Imports.{IsImport, alone as alone_of, line_limit};
ghost use Rattle.ports.specs.Stops.{Answers};

use crate::BadText;
use crate::ask::ImportLine;
use crate::asked::changed;
use crate::read::LINE_LIMIT;
use dialogue::{Change, Command};
use lines::first_line;
use ports::{Listed, NoMemory, Stop};
use std::alloc::Global;

/// The text of the lines, how many there are, whether none is too long, and the bytes behind them.
#[derive(Drop)]
struct Gathered<'a> {
    text: Vec<u8>,
    lines: u32,
    is_short: bool,
    rest: &'a [u8],
}

/// So many lines, or as many as there are.
fn gather<'a>(alloc: Global, count: u32, after: &'a [u8]) -> Result<Gathered<'a>, NoMemory>
    ensures gathers { IfOk result (λ g. Gathers after.now g.text.items g.lines g.is_short g.rest.now) }
    ensures most { IfOk result (λ g. g.lines ≤ count) }
    ensures lacking { IfOk result (λ g. g.lines < count → g.rest.now ≡ []) }
{
    let mut text = Vec::new(alloc);
    let mut lines = 0;
    let mut is_short = true;
    let mut rest = after;
    while lines < count && !rest.is_empty() {
        let (line, later) = first_line(rest);
        is_short = stays_short(is_short, line);
        text.extend_from_slice(line)?;
        text.push(b'\n')?;
        lines += 1;
        rest = later;
    }
    Ok(Gathered {
        text,
        lines,
        is_short,
        rest,
    })
}

/// Whether neither a line before nor this one is too long.
fn stays_short(is_short: bool, line: &[u8]) -> bool
    ensures { IsTrue result ↔ (IsTrue is_short × (length line.now ≤ line_limit)) }
{
    is_short && line.len() <= LINE_LIMIT
}

/// An import with the lines behind its own.
pub(crate) fn whole_import(
    alloc: Global,
    line: ImportLine,
    after: &[u8],
) -> Result<Option<Command>, Stop<BadText>>
    ensures { Answers (IsImport line after.now) result }
{
    let lines = gather(alloc, line.count, after)?;
    if !lines.is_short {
        return Err(Stop::Why(BadText::Syntax { column: 4097 }));
    }
    if lines.lines < line.count {
        return Err(Stop::Why(BadText::Syntax {
            column: line.column,
        }));
    }
    let lattice = line.lattice;
    let text = Listed::new(lines.text);
    alone(
        lines.rest,
        changed(line.who, Change::Import { lattice, text }),
    )
}

/// A command where no bytes come behind its lines.
pub(crate) fn alone(rest: &[u8], command: Command) -> Result<Option<Command>, Stop<BadText>>
    ensures { Answers (λ answer. answer ≡ alone_of rest.now command) result }
{
    if rest.is_empty() {
        Ok(Some(command))
    } else {
        Err(Stop::Why(BadText::Syntax { column: 1 }))
    }
}
