//! The lines of a pattern, the sides of the sheet and the creases, in the order in which they are swept.
ghost use Rattle.std.specs.Prelude.{◌≡◌, ◌≤◌, ◌^◌, IfOk, map};
ghost use Rattle.sheet.specs.Pattern.{IsPattern};
ghost use Rattle.subdivide.specs.Subdivision.{kind_of as kind_of_colour};
ghost use Rattle.subdivide.specs.Lines.{swept, as_line, AreLinesOf, AreMarked};

use crate::EdgeKind;
use crate::line::MarkedLine;
use pattern::Pattern;
use plane::{Seg, sheet_sides};
use sheet::{Colour, Sheet};
use std::alloc::{AllocError, Global};
use std::marker::Model;

/// A side of the sheet or a crease, with the kind of the edges on it.
#[derive(Clone, Copy)]
struct Line {
    seg: Seg,
    kind: EdgeKind,
}

impl Model for Line {
    ghost use Rattle.subdivide.specs.Subdivision.{Line as ALine};

    ghost Value = { ALine };

    ghost view = { λ s. record { seg = s.seg; kind = s.kind } };

    ghost inverse = { λ v. record { seg = v.seg; kind = v.kind } };
}

impl Line {
    fn new(seg: Seg, kind: EdgeKind) -> Line
        ensures { result ≡ record { seg = seg; kind = kind } }
    {
        Line { seg, kind }
    }
}

/// The kind of the edges on a crease of a colour.
fn kind_of(colour: Colour) -> EdgeKind
    ensures { result ≡ kind_of_colour colour }
{
    match colour {
        Colour::M => EdgeKind::M,
        Colour::V => EdgeKind::V,
        Colour::A => EdgeKind::A,
    }
}

/// The left, the lower and the upper side, the creases ascending, and the right side.
fn listed(alloc: Global, pattern: &Pattern) -> Result<Vec<Line>, AllocError>
    ensures lines { IfOk result (λ ls. ls.items ≡ swept pattern.now) }
    ensures pattern { IsPattern pattern.now }
{
    let sides = sheet_sides(&pattern.sheet());
    let (first, last) = sides.split_at(3);
    let before = first.iter().map(|side| Line::new(*side, EdgeKind::B));
    let creases = pattern.creases();
    let inner = creases.map(|crease| Line::new(crease.seg, kind_of(crease.colour)));
    let behind = last.iter().map(|side| Line::new(*side, EdgeKind::B));
    before.chain(inner).chain(behind).collect(alloc)
}

/// The scale of the marks: fine enough to tell most points apart, and not too fine for 32 bits.
fn scale_of(sheet: &Sheet) -> u64
    ensures { result ≤ 2 ^ 32 }
{
    let length = u64::from(sheet.w().max(sheet.h()).max(1));
    (1 << 28) / length
}

/// The same lines with their directions and marks.
fn marked(alloc: Global, scale: u64, lines: &[Line]) -> Result<Vec<MarkedLine>, AllocError>
    requires { scale ≤ 2 ^ 32 }
    ensures same { IfOk result (λ ls. map as_line ls.items ≡ lines.now) }
    ensures marked { IfOk result (λ ls. AreMarked ls.items) }
{
    let mut marked = Vec::with_capacity(alloc, lines.len())?;
    for line in lines {
        marked.push(MarkedLine::new(scale, line.seg, line.kind))?;
    }
    Ok(marked)
}

/// The lines of a pattern in the order in which they are swept.
pub fn lines_of(alloc: Global, pattern: &Pattern) -> Result<Vec<MarkedLine>, AllocError>
    ensures { IfOk result (λ ls. AreLinesOf pattern.now ls.items) }
{
    let lines = listed(alloc, pattern)?;
    marked(alloc, scale_of(&pattern.sheet()), &lines)
}
