//! The strips before any line stands in them. Nothing is proved of how many there are: any choice is right.

ghost use Rattle.std.specs.Prelude.{◌≡◌, ◌+◌, ◌≤◌, ◌<◌, IfOk, OnOk, length};
ghost use Rattle.subdivide.specs.Strips.{AreStanding, AreUnused, HaveRows};

use crate::line::{End, MarkedLine, mark};
use crate::strips::{Band, Strip, Strips};
use forms::row_of;
use std::alloc::{AllocError, Global};

/// Strips in which no line stands yet.
pub fn strips_of(alloc: Global, lines: &[MarkedLine]) -> Result<Strips, AllocError>
    ensures { IfOk result (AreStanding lines.now 0) }
{
    let mut strips = Strips {
        bands: Vec::new(alloc),
        strips: Vec::new(alloc),
    };
    for row in 0..8 {
        add_band(alloc, &mut strips, lines, row)?;
    }
    Ok(strips)
}

/// Adds the strips of the next row.
fn add_band(
    alloc: Global,
    strips: &mut Strips,
    lines: &[MarkedLine],
    row: usize,
) -> Result<(), AllocError>
    requires row { row < 8 }
    requires before { HaveRows row strips.old }
    ensures { OnOk result (HaveRows (row + 1) strips.new) }
{
    let first = strips.strips.len();
    let low = lowest(lines, row);
    let height = u64::from(highest(lines, row).abs_diff(low));
    let shift = shift_of(lines, row, height);
    let last = (height >> shift) as usize;
    add_strips(alloc, &mut strips.strips, last + 1)?;
    strips.bands.push(Band {
        low,
        shift,
        first,
        last,
    })?;
    Ok(())
}

/// Adds strips in which no line stands.
fn add_strips(alloc: Global, strips: &mut Vec<Strip>, count: usize) -> Result<(), AllocError>
    requires { AreUnused strips.old.items }
    ensures unused { OnOk result (AreUnused strips.new.items) }
    ensures count { OnOk result (length strips.new.items ≡ length strips.old.items + count) }
{
    for _turn in 0..count {
        strips.push(Strip {
            lines: Vec::new(alloc),
        })?;
    }
    Ok(())
}

/// The least mark of a form on the lines of its own direction.
fn lowest(lines: &[MarkedLine], row: usize) -> i32
    requires { row < 8 }
{
    let own = lines.iter().filter(|line| row_of(line.dir) == row);
    own.map(|line| mark(line, End::Lesser, row))
        .min()
        .unwrap_or(0)
}

/// The greatest mark of a form on the lines of its own direction.
fn highest(lines: &[MarkedLine], row: usize) -> i32
    requires { row < 8 }
{
    let own = lines.iter().filter(|line| row_of(line.dir) == row);
    own.map(|line| mark(line, End::Lesser, row))
        .max()
        .unwrap_or(0)
}

/// How wide the strips of a form are, as a power of two: no more strips than lines stand in them, and so
/// wide that a line reaches three or four of them on average.
fn shift_of(lines: &[MarkedLine], row: usize, height: u64) -> u32
    requires { row < 8 }
    ensures { result ≤ 32 }
{
    let own = lines.iter().filter(|line| row_of(line.dir) == row).count() as u64;
    let reached = reach_of(lines, row);
    let most = (lines.len() as u64).saturating_mul(3);
    let mut shift = 0;
    while shift < 32 && (height >> shift > own || reached >> shift > most) {
        shift += 1;
    }
    shift
}

/// How far all lines reach along a form.
fn reach_of(lines: &[MarkedLine], row: usize) -> u64
    requires { row < 8 }
{
    let mut sum: u64 = 0;
    for line in lines {
        let (a, b) = (mark(line, End::Lesser, row), mark(line, End::Greater, row));
        sum = sum.saturating_add(u64::from(a.abs_diff(b)));
    }
    sum
}
