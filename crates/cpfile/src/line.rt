//! What a line of CP text draws.
ghost use Rattle.std.specs.Prelude.{◌≡◌, Option};
ghost use Rattle.ports.specs.Stops.{Answers};
ghost use Rattle.cpfile.specs.CpDrawing.{DrawsLine, DrawsBetween};
ghost use Rattle.cpfile.specs.CpAxes.{Ruled, PlacesEnds};
ghost use Rattle.cpfile.specs.CpWords.{AreSmall};

use crate::CpWhy;
use crate::axis::Axis;
use crate::fields::{Read, fields};
use creases::Crease;
use lattice::Lattice;
use lines::Words;
use plane::{Point, Seg, SegBad, seg_on_border};
use ports::Stop;
use sheet::{Colour, Sheet};
use std::alloc::Global;
use std::marker::Model;

/// What a line draws that is not bad.
#[derive(Clone, Copy)]
pub(crate) enum Drawn {
    /// Nothing: it has no words.
    Nothing,
    /// Nothing: its two near points are one, or it lies on a side of the sheet.
    Dropped,
    Line(Crease),
}

/// As many bytes may stand on a line.
const LINE_LIMIT: usize = 256;

/// A reader of lines by a lattice on a sheet.
#[derive(Drop)]
pub(crate) struct Reader {
    x: Axis,
    y: Axis,
}

impl Model for Reader {
    ghost use Rattle.std.specs.Prelude.{◌≡◌};
    ghost use Rattle.cpfile.specs.CpAxes.{Ruled};

    ghost Value = { Ruled };

    ghost view = { λ s. record { lattice = s.x.lattice; sheet = record { w = s.x.length; h = s.y.length } } };

    ghost invariant = { λ s. s.y.lattice ≡ s.x.lattice };
}

impl Reader {
    pub(crate) fn new(alloc: Global, lattice: &Lattice, sheet: &Sheet) -> Reader
        ensures { result ≡ record { lattice = lattice.now; sheet = sheet.now } }
    {
        Reader {
            x: Axis::new(alloc, lattice, sheet.w()),
            y: Axis::new(alloc, lattice, sheet.h()),
        }
    }

    /// What a line draws, without its LF and CR.
    ///
    /// # Errors
    ///
    /// The first test that it fails.
    pub(crate) fn line(&mut self, sheet: &Sheet, line: &[u8]) -> Result<Drawn, Stop<CpWhy>>
        requires { self.old.sheet ≡ sheet.now }
        ensures same { self.new ≡ self.old }
        ensures draws { Answers (DrawsLine self.old.lattice sheet.now line.now) result }
    {
        if line.len() > LINE_LIMIT {
            return Err(Stop::Why(CpWhy::TooLong));
        }
        let mut words = Words::of(line);
        if words.is_empty() {
            return Ok(Drawn::Nothing);
        }
        let Some(read) = fields(&mut words) else {
            return Err(Stop::Why(CpWhy::Line));
        };
        let (p, q) = self.ends(read)?;
        match between(sheet, read.kind, p, q) {
            Ok(drawn) => Ok(drawn),
            Err(why) => Err(Stop::Why(why)),
        }
    }

    /// The near points of the two ends of a line.
    ///
    /// # Errors
    ///
    /// The first field that has none, or two and more.
    fn ends(&mut self, read: Read) -> Result<(Point, Point), Stop<CpWhy>>
        requires { AreSmall read }
        ensures same { self.new ≡ self.old }
        ensures ends { PlacesEnds self.old read result }
    {
        let x1 = self.x.place(2, read.x1)?;
        let y1 = self.y.place(3, read.y1)?;
        let x2 = self.x.place(4, read.x2)?;
        let y2 = self.y.place(5, read.y2)?;
        Ok((Point { x: x1, y: y1 }, Point { x: x2, y: y2 }))
    }
}

/// What a line of a type draws between its near points.
fn between(sheet: &Sheet, kind: Option<Colour>, p: Point, q: Point) -> Result<Drawn, CpWhy>
    ensures { DrawsBetween sheet.now kind p q result }
{
    let seg = match Seg::new(p, q) {
        Ok(seg) => seg,
        Err(SegBad::SamePoint) => return Ok(Drawn::Dropped),
        Err(SegBad::NotDirection) => return Err(CpWhy::NotDirection),
    };
    if seg_on_border(sheet, &seg) {
        return Ok(Drawn::Dropped);
    }
    match kind {
        Some(colour) => Ok(Drawn::Line(Crease { seg, colour })),
        None => Err(CpWhy::InnerContour),
    }
}
