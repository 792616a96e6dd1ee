//! Cutting a draft along a segment: erasing, drawing and recolouring there.
ghost use Rattle.std.specs.Prelude.{◌≡◌, ◌↔◌, ◌⊎◌, Contains, IsSomeAnd, IfSome, IfOk, OnOk, IsTrue};
ghost use Rattle.exact.specs.Plane.{ExactSegment, Before, IsSegment};
ghost use Rattle.sheet.specs.Pattern.{ExactCrease};
ghost use Rattle.plane.specs.Segments.{IsHeld};
ghost use Rattle.edits.specs.CreaseSet.{AreCreases, crease as crease_of};
ghost use Rattle.creases.specs.Standing.{AreStanding};
ghost use Rattle.edits.specs.Drawn.{IsLeft, Drawn};
ghost use Rattle.edits.specs.Erase.{IsBare};
ghost use Rattle.edits.specs.Recolour.{StandsRecoloured};
ghost use Rattle.edits.specs.Pieces.{IsCut, AreCut, IsFromTo, MayCome, IsPiece, IsRecoloured, Replaced};
ghost use Rattle.edits.specs.Pieces.{AllReplaced};

use crate::draft::Draft;
use pattern::Crease;
use plane::{Point, Seg, earlier, is_before, later};
use ports::NoMemory;
use sheet::Colour;
use std::alloc::Global;

impl<'a> Draft<'a> {
    /// Whether no crease overlaps the segment.
    ///
    /// # Errors
    ///
    /// `NoMemory` where memory for the creases that overlap it runs out.
    pub(crate) fn is_bare(&self, alloc: Global, seg: &Seg) -> Result<bool, NoMemory>
        ensures { IfOk result (λ bare. IsTrue bare ↔ IsBare self.now.creases seg.now) }
    {
        Ok(self.overlapped(alloc, seg)?.is_empty())
    }

    /// Takes away what the creases have in common with a segment. Of a crease that overlaps it, the
    /// parts outside it stay.
    ///
    /// # Errors
    ///
    /// `NoMemory` where memory for the parts runs out. Then the draft may be cut in part.
    pub(crate) fn erase(&mut self, alloc: Global, seg: &Seg) -> Result<(), NoMemory>
        requires { IsHeld seg.now }
        ensures left { OnOk result (AreCreases (IsLeft self.old.creases seg.now) self.new.creases) }
        ensures pattern { self.new.pattern ≡ self.old.pattern }
    {
        let overlapped = self.overlapped(alloc, seg)?;
        self.cut_all(&overlapped, seg)
    }

    /// Draws a crease: erases along its segment, and puts it in.
    ///
    /// # Errors
    ///
    /// `NoMemory` where memory for the creases runs out. Then the draft may be cut in part.
    pub(crate) fn draw(&mut self, alloc: Global, crease: &Crease) -> Result<(), NoMemory>
        requires { IsHeld crease.now.seg }
        ensures drawn { OnOk result (Drawn self.old.creases crease.now self.new.creases) }
        ensures pattern { self.new.pattern ≡ self.old.pattern }
    {
        self.erase(alloc, &crease.seg)?;
        self.put_in(*crease)
    }

    /// Gives what the creases have in common with a segment a new colour. A crease that has this
    /// colour already stays whole.
    ///
    /// # Errors
    ///
    /// `NoMemory` where memory for the parts runs out. Then the draft may be cut in part.
    pub(crate) fn recolour(
        &mut self,
        alloc: Global,
        seg: &Seg,
        colour: Colour,
    ) -> Result<(), NoMemory>
        requires { IsHeld seg.now }
        ensures recoloured { OnOk result
            (AreCreases (StandsRecoloured self.old.creases seg.now colour) self.new.creases) }
        ensures pattern { self.new.pattern ≡ self.old.pattern }
    {
        let overlapped = self.overlapped(alloc, seg)?;
        self.paint_all(&overlapped, seg, colour)
    }

    /// Takes the creases out that overlap a segment, and puts their parts outside the segment in.
    fn cut_all(&mut self, overlapped: &[Crease], seg: &Seg) -> Result<(), NoMemory>
        requires { AreCut self.old.creases seg.now overlapped.now }
        ensures cut { OnOk result
            (AllReplaced (IsPiece seg.now) self.old.creases overlapped.now self.new.creases) }
        ensures standing { OnOk result (AreStanding self.new.creases) }
        ensures pattern { self.new.pattern ≡ self.old.pattern }
    {
        for crease in overlapped {
            self.cut(crease, seg)?;
        }
        Ok(())
    }

    /// Takes a crease out that overlaps a segment, and puts its parts outside the segment in.
    fn cut(&mut self, crease: &Crease, seg: &Seg) -> Result<(), NoMemory>
        requires { IsCut self.old.creases crease.now seg.now }
        ensures cut { OnOk result
            (Replaced (IsPiece seg.now crease.now) self.old.creases crease.now self.new.creases) }
        ensures standing { OnOk result (AreStanding self.new.creases) }
        ensures pattern { self.new.pattern ≡ self.old.pattern }
    {
        self.take_out(crease)?;
        self.put_part(part(crease.seg.p(), seg.p()), crease.colour)?;
        self.put_part(part(seg.q(), crease.seg.q()), crease.colour)
    }

    /// Recolours the creases that overlap a segment along it.
    fn paint_all(
        &mut self,
        overlapped: &[Crease],
        seg: &Seg,
        colour: Colour,
    ) -> Result<(), NoMemory>
        requires { AreCut self.old.creases seg.now overlapped.now }
        ensures painted { OnOk result
            (AllReplaced (IsRecoloured seg.now colour) self.old.creases overlapped.now self.new.creases) }
        ensures standing { OnOk result (AreStanding self.new.creases) }
        ensures pattern { self.new.pattern ≡ self.old.pattern }
    {
        for crease in overlapped {
            self.paint(crease, seg, colour)?;
        }
        Ok(())
    }

    /// Recolours a crease along a segment that it overlaps.
    fn paint(&mut self, crease: &Crease, seg: &Seg, colour: Colour) -> Result<(), NoMemory>
        requires { IsCut self.old.creases crease.now seg.now }
        ensures painted { OnOk result
            (Replaced (IsRecoloured seg.now colour crease.now) self.old.creases crease.now self.new.creases) }
        ensures standing { OnOk result (AreStanding self.new.creases) }
        ensures pattern { self.new.pattern ≡ self.old.pattern }
    {
        if crease.colour == colour {
            return Ok(());
        }
        self.cut(crease, seg)?;
        let from = later(&crease.seg.p(), &seg.p());
        let to = earlier(&crease.seg.q(), &seg.q());
        self.put_part(part(from, to), colour)
    }

    /// Puts a part of a crease in, if there is one.
    fn put_part(&mut self, part: Option<Seg>, colour: Colour) -> Result<(), NoMemory>
        requires standing { AreStanding self.old.creases }
        requires may { IfSome part (MayCome self.old.creases) }
        ensures put { OnOk result
            ((f : ExactCrease) → Contains self.new.creases f
            ↔ (Contains self.old.creases f ⊎ IsSomeAnd part (λ u. f ≡ crease_of u colour))) }
        ensures standing { OnOk result (AreStanding self.new.creases) }
        ensures pattern { self.new.pattern ≡ self.old.pattern }
    {
        match part {
            Some(seg) => self.put_in(Crease { seg, colour }),
            None => Ok(()),
        }
    }
}

/// The segment from one point to another, or None where that one is not later.
fn part(from: Point, to: Point) -> Option<Seg>
    requires { Before from to → (let s : ExactSegment = record { p = from; q = to } in IsSegment s) }
    ensures { IsFromTo from to result }
{
    if is_before(&from, &to) {
        Seg::new(from, to).ok()
    } else {
        None
    }
}
