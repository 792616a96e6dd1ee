//! Strips of the eight forms, in which the lines stand that those to come can meet.

ghost use Rattle.std.specs.Prelude.{◌≡◌, ◌+◌, ◌<◌, ◌^◌, ℕ, OnOk, false, length, slice_get, Some, ◌<ℤ◌};
ghost use Rattle.subdivide.specs.Lines.{AreSwept, mark_at, leftward};
ghost use Rattle.subdivide.specs.Strips.{place_of, IsBand, AreBands, IsOwnPlace, AreStanding, AreLookedAt, AreBelow, HaveBelow, AreNear};
ghost use Rattle.subdivide.specs.Strips.{IsReached};
ghost use Rattle.subdivide.specs.declared.line.End.TheVariants as ends;
ghost use Rattle.subdivide.specs.declared.line.MarkedLine.{MarkedLine as ALine};

use crate::line::{End, MarkedLine, mark};
use forms::row_of;
use std::alloc::{AllocError, Global};

/// The strips of one row: where they begin, how wide they are, which place is the first, and how many
/// follow it.
#[derive(Clone, Copy)]
pub struct Band {
    pub low: i32,
    pub shift: u32,
    pub first: usize,
    pub last: usize,
}

/// The lines in one strip, by their numbers.
#[derive(Drop)]
pub struct Strip {
    pub lines: Vec<u32>,
}

/// The strips of all eight forms. Each line stands in one strip, that of the form that is one value on it.
#[derive(Drop)]
pub struct Strips {
    pub bands: Vec<Band>,
    pub strips: Vec<Strip>,
}

/// The row of direction 4, whose form is x from right to left.
const LEFTWARD: usize = 4;

impl Band {
    /// The place of the strip into which a mark falls.
    fn place(&self, mark: i32) -> usize
        requires { (count : ℕ) × (count < 2 ^ 64) × IsBand count self.now }
        ensures { result ≡ place_of self.now mark }
    {
        let above = u64::from(mark.max(self.low).abs_diff(self.low));
        self.first + self.last.min((above >> self.shift) as usize)
    }
}

/// Whether a line reaches one that begins at this mark: it does not end left of it.
fn reaches(lines: &[MarkedLine], number: u32, start: i32) -> bool
    ensures { result ≡ false → (l : ALine) → slice_get lines.now number ≡ Some l
        → start <ℤ mark_at l ends.Greater leftward }
{
    match lines.get(number as usize) {
        Some(line) => mark(line, End::Greater, LEFTWARD) <= start,
        None => false,
    }
}

impl Strips {
    /// The strip in which a line stands.
    fn own_place(&self, line: &MarkedLine) -> usize
        requires { AreBands self.now }
        ensures own { IsOwnPlace self.now line.now result }
        ensures within { result < length self.now.strips.items }
    {
        let row = row_of(line.dir);
        self.bands[row].place(mark(line, End::Lesser, row))
    }

    /// Puts the next line into its strip.
    pub fn put(&mut self, lines: &[MarkedLine], line: usize, number: u32) -> Result<(), AllocError>
        requires number { number ≡ line }
        requires within { line < length lines.now }
        requires standing { AreStanding lines.now line self.old }
        ensures { OnOk result (AreStanding lines.now (line + 1) self.new) }
    {
        let place = self.own_place(&lines[line]);
        self.strips[place].lines.push(number)?;
        Ok(())
    }

    /// Puts the lines into a list that can have a point of the next one, but for those of its direction.
    /// What ends left of it leaves the strips.
    pub fn reach(
        &mut self,
        lines: &[MarkedLine],
        line: usize,
        near: &mut Vec<u32>,
    ) -> Result<(), AllocError>
        requires swept { AreSwept lines.now }
        requires within { line < length lines.now }
        requires standing { AreStanding lines.now line self.old }
        ensures standing { OnOk result (AreStanding lines.now line self.new) }
        ensures near { OnOk result (AreNear lines.now line near.new.items) }
    {
        near.clear();
        let own = row_of(lines[line].dir);
        for row in 0..8 {
            if row != own {
                self.reach_band(lines, line, row, near)?;
            }
        }
        Ok(())
    }

    /// Adds the lines of the strips of one row between the ends of the next line.
    fn reach_band(
        &mut self,
        lines: &[MarkedLine],
        line: usize,
        row: usize,
        near: &mut Vec<u32>,
    ) -> Result<(), AllocError>
        requires row { row < 8 }
        requires swept { AreSwept lines.now }
        requires within { line < length lines.now }
        requires standing { AreStanding lines.now line self.old }
        requires below { AreBelow line near.old.items }
        ensures { OnOk result (AreLookedAt lines.now line (IsReached self.old lines.now line row) self.old self.new
            near.old.items near.new.items) }
    {
        let band = self.bands[row];
        let from = band.place(mark(&lines[line], End::Lesser, row));
        let to = band.place(mark(&lines[line], End::Greater, row));
        for place in from.min(to)..from.max(to) + 1 {
            self.look(lines, line, place, near)?;
        }
        Ok(())
    }

    /// Adds the lines of one strip, when those that end left of the next line have left it.
    fn look(
        &mut self,
        lines: &[MarkedLine],
        line: usize,
        place: usize,
        near: &mut Vec<u32>,
    ) -> Result<(), AllocError>
        requires swept { AreSwept lines.now }
        requires within { line < length lines.now }
        requires place { place < length self.old.strips.items }
        requires earlier { HaveBelow line self.old }
        requires below { AreBelow line near.old.items }
        ensures { OnOk result (AreLookedAt lines.now line (λ p. p ≡ place) self.old self.new near.old.items
            near.new.items) }
    {
        let start = mark(&lines[line], End::Lesser, LEFTWARD);
        let strip = &mut self.strips[place];
        strip.lines.retain(|number| reaches(lines, *number, start));
        near.extend_from_slice(&strip.lines)
    }
}
