//! What the sweep finds: points, where they cut lines, and the least pair of lines that is out of range.

ghost use Rattle.std.specs.Prelude.{◌≡◌, ◌+◌, ◌<◌, ◌≤◌, ◌⊎◌, ◌↔◌, IsTrue, ℕ, length, true, IfOk, OnOk, List, [], ◌∷◌, slice_get, Some};
ghost use Rattle.subdivide.specs.declared.line.MarkedLine.{MarkedLine as ALine};
ghost use Rattle.subdivide.specs.declared.touch.Touch.TheVariants as touch;
ghost use Rattle.subdivide.specs.Lines.{IsMarkedBy, AreMarked, AreSwept};
ghost use Rattle.subdivide.specs.Strips.{AreBelow};
ghost use Rattle.subdivide.specs.Found.{Findings, IsKept, Leads, IsNoted, AreSettled, AreMany, HoldEnds};
ghost use Rattle.subdivide.specs.Found.{number_of, IsAtMost, IsWithCut};

use crate::VERTEX_LIMIT;
use crate::line::{End, MarkedLine};
use crate::touch::{Touch, touching};
use chains::ascending;
use plane::Point;
use ports::NoMemory;
use std::alloc::{AllocError, Global};

/// A cut of a line at a point, both by their numbers.
#[derive(Clone, Copy, PartialEq, Eq, PartialOrd, Ord)]
pub struct Cut {
    pub line: u32,
    pub point: u32,
}

/// Two lines, the first before the second.
#[derive(Clone, Copy)]
pub struct Pair {
    pub first: u32,
    pub second: u32,
}

/// What has been found so far. The points 2 i and 2 i + 1 are the ends of line i, the others are
/// crossings. Where there are too many points (`full`) no more are kept.
#[derive(Drop)]
pub struct Found {
    pub points: Vec<Point>,
    pub cuts: Vec<Cut>,
    pub least: Option<Pair>,
    pub full: bool,
    look: usize,
}

/// A number as one of 32 bits. Where there are more points than that, memory is wanting.
pub fn narrow(n: usize) -> Result<u32, NoMemory>
    ensures { IfOk result (λ m. m ≡ n) }
{
    u32::try_from(n).map_err(|_| NoMemory)
}

/// The number of a point that is an end of a line.
fn end_number(line: u32, end: End) -> Result<u32, NoMemory>
    ensures { IfOk result (λ m. m ≡ number_of line end) }
{
    let more = match end {
        End::Lesser => 0,
        End::Greater => 1,
    };
    narrow(2 * line as usize + more)
}

impl Found {
    /// The ends of all lines, each of which cuts its line.
    pub fn new(alloc: Global, lines: &[MarkedLine]) -> Result<Found, NoMemory>
        requires { AreMarked lines.now }
        ensures { IfOk result (λ found. (f : Findings) × IsKept lines.now f found) }
    {
        let mut found = Found {
            points: Vec::with_capacity(alloc, 3 * lines.len())?,
            cuts: Vec::with_capacity(alloc, 4 * lines.len())?,
            least: None,
            full: false,
            look: 2 * VERTEX_LIMIT,
        };
        for line in lines {
            found.begin(line)?;
        }
        Ok(found)
    }

    /// Adds the ends of the next line.
    fn begin(&mut self, line: &MarkedLine) -> Result<(), NoMemory>
        ensures { OnOk result ((lines : List ALine) (n scale : ℕ) → slice_get lines n ≡ Some line.now
            → IsMarkedBy scale line.now → HoldEnds lines n self.old → HoldEnds lines (n + 1) self.new) }
    {
        let number = narrow(self.points.len() / 2)?;
        let from = end_number(number, End::Lesser)?;
        let to = end_number(number, End::Greater)?;
        self.cuts.push(Cut {
            line: number,
            point: from,
        })?;
        self.cuts.push(Cut {
            line: number,
            point: to,
        })?;
        self.points.push(line.seg.p())?;
        self.points.push(line.seg.q())?;
        Ok(())
    }

    /// Takes in what a line has in common with lines before it.
    pub fn meet(&mut self, lines: &[MarkedLine], near: &[u32], line: u32) -> Result<(), NoMemory>
        requires swept { AreSwept lines.now }
        requires within { line < length lines.now }
        requires near { AreBelow line near.now }
        ensures { OnOk result (Leads lines.now self.old self.new (AreSettled lines.now line near.now)) }
    {
        for first in near {
            self.meet_one(lines, *first, line)?;
        }
        Ok(())
    }

    /// Takes in what two lines have in common, the first before the second. Lines of one direction have at
    /// most ends in common. Where a pair that comes not after them is out of range, nothing that they have in
    /// common can change the answer.
    fn meet_one(&mut self, lines: &[MarkedLine], first: u32, second: u32) -> Result<(), NoMemory>
        requires swept { AreSwept lines.now }
        requires ordered { first < second }
        requires within { second < length lines.now }
        ensures { OnOk result (Leads lines.now self.old self.new (AreSettled lines.now second (first ∷ []))) }
    {
        let (s, t) = (&lines[first as usize], &lines[second as usize]);
        if is_at_most(self.least, first, second) {
            return Ok(());
        }
        if s.dir == t.dir {
            return Ok(());
        }
        self.note(first, second, touching(s, t))
    }

    /// Notes what two lines have in common, the first before the second.
    fn note(&mut self, first: u32, second: u32, touch: Touch) -> Result<(), NoMemory>
        ensures { OnOk result (IsNoted first second touch self.old self.new) }
    {
        match touch {
            Touch::Ends => Ok(()),
            Touch::CutsFirst(end) => {
                let point = end_number(second, end)?;
                self.cut(first, point)
            }
            Touch::CutsSecond(end) => {
                let point = end_number(first, end)?;
                self.cut(second, point)
            }
            Touch::CutsBoth(at) => self.cross(first, second, at),
            Touch::OutOfRange => {
                self.refuse(first, second);
                Ok(())
            }
        }
    }

    /// Adds a cut of a line.
    fn cut(&mut self, line: u32, point: u32) -> Result<(), NoMemory>
        ensures { OnOk result (IsWithCut line point self.old self.new) }
    {
        if !self.full {
            self.cuts.push(Cut { line, point })?;
        }
        Ok(())
    }

    /// Adds a point at which two lines are cut.
    fn cross(&mut self, first: u32, second: u32, at: Point) -> Result<(), NoMemory>
        ensures { OnOk result (IsNoted first second (touch.CutsBoth at) self.old self.new) }
    {
        if self.full {
            return Ok(());
        }
        let point = narrow(self.points.len())?;
        self.points.push(at)?;
        self.cuts.push(Cut { line: first, point })?;
        self.cuts.push(Cut {
            line: second,
            point,
        })?;
        Ok(())
    }

    /// Notes a pair that is out of range, unless there is a lesser one.
    fn refuse(&mut self, first: u32, second: u32)
        ensures { IsNoted first second touch.OutOfRange self.old self.new }
    {
        if !is_at_most(self.least, first, second) {
            self.least = Some(Pair { first, second });
        }
    }

    /// Looks whether there are too many different points, once their number has doubled. Answers whether
    /// this has just been found.
    pub fn look(&mut self, alloc: Global) -> Result<bool, NoMemory>
        ensures leads { OnOk result ((lines : List ALine) → Leads lines self.old self.new (λ _. Unit {0})) }
        ensures full { IfOk result (λ now. now ≡ true → self.new.full ≡ true) }
    {
        if self.full || self.points.len() < self.look {
            return Ok(false);
        }
        self.look = self.points.len().saturating_mul(2);
        self.full = are_many(alloc, &self.points)?;
        Ok(self.full)
    }
}

/// Whether the least of the pairs comes not after a pair.
fn is_at_most(least: Option<Pair>, first: u32, second: u32) -> bool
    ensures { IsTrue result ↔ IsAtMost least first second }
{
    match least {
        Some(pair) => is_not_after(pair, first, second),
        None => false,
    }
}

/// Whether one pair comes not after another.
fn is_not_after(pair: Pair, first: u32, second: u32) -> bool
    ensures { IsTrue result ↔ ((pair.first < first) ⊎ ((pair.first ≡ first) × (pair.second ≤ second))) }
{
    if pair.first == first {
        pair.second <= second
    } else {
        pair.first < first
    }
}

/// Whether there are more different points than vertices are allowed.
fn are_many(alloc: Global, points: &[Point]) -> Result<bool, AllocError>
    ensures { IfOk result (λ many. many ≡ true → AreMany points.now) }
{
    let mut some = Vec::from_slice(alloc, points)?;
    ascending(&mut some);
    Ok(some.len() > VERTEX_LIMIT)
}
