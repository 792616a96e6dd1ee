//! The lines are taken by where they begin, and each is met with those before it that it can have a point of.

ghost use Rattle.std.specs.Prelude.{◌+◌, ◌<◌, IfOk, OnOk, length};
ghost use Rattle.subdivide.specs.Lines.{AreSwept};
ghost use Rattle.subdivide.specs.Found.{IsSweptUpTo};
ghost use Rattle.subdivide.specs.Strips.{AreStanding};

use crate::bands::strips_of;
use crate::early::are_held;
use crate::found::{Found, narrow};
use crate::line::MarkedLine;
use crate::strips::Strips;
use ports::NoMemory;
use std::alloc::Global;

/// All points of lines where they end or cross, and which points are on which line. It ends early where
/// there are too many points and no pair of lines can be out of range.
pub fn sweep(alloc: Global, lines: &[MarkedLine]) -> Result<Found, NoMemory>
    requires { AreSwept lines.now }
    ensures { IfOk result (IsSweptUpTo lines.now (length lines.now)) }
{
    let mut strips = strips_of(alloc, lines)?;
    let mut found = Found::new(alloc, lines)?;
    let mut near = Vec::new(alloc);
    for line in 0..lines.len() {
        take(lines, line, &mut strips, &mut found, &mut near)?;
        if found.look(alloc)? && are_held(lines) {
            return Ok(found);
        }
    }
    Ok(found)
}

/// Takes the next line: it is met with those near it, and stands from now on.
fn take(
    lines: &[MarkedLine],
    line: usize,
    strips: &mut Strips,
    found: &mut Found,
    near: &mut Vec<u32>,
) -> Result<(), NoMemory>
    requires swept { AreSwept lines.now }
    requires within { line < length lines.now }
    requires standing { AreStanding lines.now line strips.old }
    requires found { IsSweptUpTo lines.now line found.old }
    ensures standing { OnOk result (AreStanding lines.now (line + 1) strips.new) }
    ensures found { OnOk result (IsSweptUpTo lines.now (line + 1) found.new) }
{
    let number = narrow(line)?;
    strips.reach(lines, line, near)?;
    found.meet(lines, near, number)?;
    strips.put(lines, line, number)?;
    Ok(())
}
