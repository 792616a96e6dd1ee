//! A whole CP text read.
ghost use Rattle.std.specs.Prelude.{◌≡◌, ◌+◌, ◌<◌, ◌^◌, [], IfOk};
ghost use Rattle.ports.specs.Stops.{Answers};
ghost use Rattle.cpfile.specs.CpReading.{ReadsCp};
ghost use Rattle.cpfile.specs.CpSteps.{Tally, with_line, stop_at};

use crate::line::{Drawn, Reader};
use crate::{CpBad, CpLines, CpWhy};
use creases::Crease;
use lattice::Lattice;
use lines::first_line;
use ports::{Listed, NoMemory, Stop};
use sheet::Sheet;
use std::alloc::Global;
use std::marker::Model;

/// What a CP text draws on a sheet, its coordinates read by a lattice. The CP sheet runs from -200 to
/// 400·w - 200 and from -200 to 400·h - 200, where w and h are the width and the height of the sheet.
///
/// # Errors
///
/// The first bad line, and the first test that it fails.
pub fn read_cp(
    alloc: Global,
    bytes: &[u8],
    lattice: &Lattice,
    sheet: &Sheet,
) -> Result<CpLines, Stop<CpBad>>
    ensures { Answers (ReadsCp lattice.now sheet.now bytes.now) result }
{
    let mut reader = Reader::new(alloc, lattice, sheet);
    let mut tally = Counted::new(alloc);
    let mut rest = bytes;
    while !rest.is_empty() {
        let (line, after) = first_line(rest);
        match reader.line(sheet, line) {
            Ok(drawn) => tally.add(drawn)?,
            Err(stop) => return Err(at_line(stop, tally.next())),
        }
        rest = after;
    }
    Ok(tally.drawn())
}

/// Why a line ends the reading, with its number.
fn at_line(stop: Stop<CpWhy>, line: u64) -> Stop<CpBad>
    ensures { result ≡ stop_at line stop }
{
    match stop {
        Stop::NoMemory => Stop::NoMemory,
        Stop::Why(why) => Stop::Why(CpBad { line, why }),
    }
}

/// The creases of the lines so far, and how many lines were dropped and how many there were.
#[derive(Drop)]
struct Counted {
    creases: Vec<Crease>,
    dropped: u64,
    lines: u64,
}

impl Model for Counted {
    ghost use Rattle.std.specs.Prelude.{◌≤◌};
    ghost use Rattle.cpfile.specs.CpSteps.{Tally};

    ghost Value = { Tally };

    ghost view = { λ s. record { creases = s.creases.items; dropped = s.dropped; lines = s.lines } };

    ghost invariant = { λ s. s.dropped ≤ s.lines };
}

impl Counted {
    fn new(alloc: Global) -> Counted
        ensures { result ≡ record { creases = []; dropped = 0; lines = 0 } }
    {
        Counted {
            creases: Vec::new(alloc),
            dropped: 0,
            lines: 0,
        }
    }

    /// Counts one line more.
    fn add(&mut self, drawn: Drawn) -> Result<(), NoMemory>
        requires { self.old.lines + 1 < 2 ^ 64 }
        ensures { IfOk result (λ _. self.new ≡ with_line drawn self.old) }
    {
        match drawn {
            Drawn::Nothing => {}
            Drawn::Dropped => self.dropped += 1,
            Drawn::Line(crease) => self.creases.push(crease)?,
        }
        self.lines += 1;
        Ok(())
    }

    /// The number of the next line.
    fn next(&self) -> u64
        requires { self.now.lines + 1 < 2 ^ 64 }
        ensures { result ≡ self.now.lines + 1 }
    {
        self.lines + 1
    }

    /// What the lines draw.
    fn drawn(self) -> CpLines
        ensures creases { result.lines ≡ self.creases }
        ensures dropped { result.dropped ≡ self.dropped }
    {
        CpLines {
            lines: Listed::new(self.creases),
            dropped: self.dropped,
        }
    }
}
