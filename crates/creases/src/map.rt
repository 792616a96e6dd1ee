//! Creases of which no two overlap, found by their segments and by the lines on which they lie.
ghost use Rattle.std.specs.Prelude.{◌≡◌, ◌↔◌, ◌<◌, ◌^◌, [], Contains, length, IsTrue, IsFalse};
ghost use Rattle.std.specs.Prelude.{IfSome, IsNone, IfOk, OnOk, OnErr};
ghost use Rattle.creases.specs.Creases.{AreBut, AreOverlapping, AreRecoloured, AreWith};
ghost use Rattle.creases.specs.Creases.{FollowOneAnother, IsColoured, IsFree, IsUncreased};
ghost use Rattle.plane.specs.Segments.{IsHeld};
ghost use Rattle.plane.specs.Support.{IsSupportOf};
ghost use Rattle.creases.specs.Standing.{AreStanding};
ghost use Rattle.creases.specs.Places.{IsPlaceOf};

use crate::index::LineIndex;
use crate::place::Place;
use crate::{Crease, Creases, Overlapping};
use plane::{Seg, SupportLine};
use ports::NoMemory;
use sheet::Colour;
use std::alloc::Global;
use std::collections::BTreeMap;
use std::marker::Model;

/// Creases of which no two overlap, found by their segments and by the lines on which they lie.
/// Contracts see their list, ascending by segment.
#[derive(Drop)]
pub struct CreaseMap {
    by_segment: BTreeMap<Seg, Colour>,
    by_line: LineIndex,
}

impl Model for CreaseMap {
    ghost use Rattle.std.specs.Prelude.{List};
    ghost use Rattle.sheet.specs.Pattern.{ExactCrease};
    ghost use Rattle.creases.specs.Segments.{creases_of, AreFound};

    ghost Value = { List ExactCrease };

    ghost view = { λ s. creases_of s.by_segment.entries };

    ghost invariant = { λ s. AreFound s.by_segment.entries s.by_line };
}

impl CreaseMap {
    /// The map without creases. It takes no memory.
    pub fn new(alloc: Global) -> CreaseMap
        ensures { result ≡ [] }
    {
        CreaseMap {
            by_segment: BTreeMap::new(alloc),
            by_line: LineIndex::new(alloc),
        }
    }

    /// How many creases there are.
    pub fn len(&self) -> usize
        ensures count { result ≡ length self.now }
        ensures small { result < 2 ^ 63 }
        ensures standing { AreStanding self.now }
    {
        self.by_segment.len()
    }

    /// The colour of the crease on exactly this segment, or None where there is none.
    pub fn colour(&self, seg: &Seg) -> Option<Colour>
        ensures some { IfSome result (IsColoured self.now seg.now) }
        ensures none { IsNone result → IsUncreased self.now seg.now }
        ensures standing { AreStanding self.now }
    {
        self.by_segment.get(seg).copied()
    }

    /// Whether this crease, with its colour, is there.
    pub fn has(&self, crease: &Crease) -> bool
        ensures here { IsTrue result ↔ Contains self.now crease.now }
        ensures standing { AreStanding self.now }
    {
        match self.colour(&crease.seg) {
            Some(colour) => colour == crease.colour,
            None => false,
        }
    }

    /// The creases, ascending by their segments.
    pub fn creases(&self) -> Creases<'_>
        ensures rest { result ≡ self.now }
        ensures standing { AreStanding self.now }
    {
        Creases::new(&self.by_segment)
    }

    /// The creases that overlap a segment, in the order in which they follow one another on its
    /// line. It takes no memory, and the time of a look-up and of its answer.
    pub fn overlapping(&self, seg: &Seg) -> Overlapping<'_>
        ensures members { AreOverlapping self.now seg.now result }
        ensures along { FollowOneAnother result }
        ensures standing { AreStanding self.now }
    {
        self.by_line.overlapping(seg)
    }

    /// Whether no crease overlaps a segment. It takes no memory, and the time of a look-up.
    pub fn is_free(&self, seg: &Seg) -> bool
        ensures free { IsTrue result ↔ IsFree self.now seg.now }
        ensures standing { AreStanding self.now }
    {
        self.is_free_at(&Place::of(seg), seg)
    }

    /// Puts in a crease that overlaps none of those that are there.
    ///
    /// # Errors
    ///
    /// `NoMemory` where memory for the crease runs out. Then nothing has changed.
    pub fn put(&mut self, crease: Crease) -> Result<(), NoMemory>
        requires { IsFree self.old crease.seg }
        ensures ok { OnOk result (AreWith self.old crease self.new) }
        ensures err { OnErr result (self.new ≡ self.old) }
        ensures standing { AreStanding self.new }
    {
        self.put_at(Place::of(&crease.seg), crease)
    }

    /// Puts in a crease if it overlaps none of those that are there, and says whether it did. Where
    /// it overlaps one of them, nothing changes.
    ///
    /// # Errors
    ///
    /// `NoMemory` where memory for the crease runs out. Then nothing has changed.
    pub fn put_if_free(&mut self, crease: Crease) -> Result<bool, NoMemory>
        ensures free { IfOk result (λ put. IsTrue put ↔ IsFree self.old crease.seg) }
        ensures put { IfOk result (λ put. IsTrue put → AreWith self.old crease self.new) }
        ensures not_put { IfOk result (λ put. IsFalse put → self.new ≡ self.old) }
        ensures err { OnErr result (self.new ≡ self.old) }
        ensures standing { AreStanding self.new }
    {
        self.put_if_free_on(SupportLine::of(&crease.seg), crease)
    }

    /// As `put_if_free`, for a crease of which the line is known.
    ///
    /// # Errors
    ///
    /// `NoMemory` where memory for the crease runs out. Then nothing has changed.
    pub fn put_if_free_on(&mut self, line: SupportLine, crease: Crease) -> Result<bool, NoMemory>
        requires { IsSupportOf crease.seg line }
        ensures free { IfOk result (λ put. IsTrue put ↔ IsFree self.old crease.seg) }
        ensures put { IfOk result (λ put. IsTrue put → AreWith self.old crease self.new) }
        ensures not_put { IfOk result (λ put. IsFalse put → self.new ≡ self.old) }
        ensures err { OnErr result (self.new ≡ self.old) }
        ensures standing { AreStanding self.new }
    {
        let place = Place::on(line, &crease.seg);
        if !self.is_free_at(&place, &crease.seg) {
            return Ok(false);
        }
        self.put_at(place, crease)?;
        Ok(true)
    }

    /// Takes out a crease, with its colour, and says whether it was there. Where it was not, nothing
    /// changes.
    pub fn take(&mut self, crease: &Crease) -> bool
        ensures there { IsTrue result ↔ Contains self.old crease.now }
        ensures taken { AreBut self.old crease.now self.new }
        ensures not_taken { IsFalse result → self.new ≡ self.old }
        ensures standing { AreStanding self.new }
    {
        if !self.has(crease) {
            return false;
        }
        self.by_segment.remove(&crease.seg);
        self.by_line.take(crease);
        true
    }

    /// Gives a crease this colour, and says whether the crease was there with its own. Where it was
    /// not, nothing changes. It takes no memory.
    pub fn recolour(&mut self, crease: &Crease, colour: Colour) -> bool
        ensures there { IsTrue result ↔ Contains self.old crease.now }
        ensures recoloured { IsTrue result → AreRecoloured self.old crease.now colour self.new }
        ensures not_recoloured { IsFalse result → self.new ≡ self.old }
        ensures count { length self.new ≡ length self.old }
        ensures standing { AreStanding self.new }
    {
        let Some(kept) = self.by_segment.get_mut(&crease.seg) else {
            return false;
        };
        if *kept != crease.colour {
            return false;
        }
        *kept = colour;
        self.by_line.recolour(crease, colour);
        true
    }

    /// An equal map. It takes time in proportion to the creases, and finds no line anew.
    ///
    /// # Errors
    ///
    /// `NoMemory` where memory for the creases runs out.
    pub fn copy(&self) -> Result<CreaseMap, NoMemory>
        ensures same { IfOk result (λ map. map ≡ self.now) }
        ensures standing { AreStanding self.now }
    {
        Ok(CreaseMap {
            by_segment: self.by_segment.clone()?,
            by_line: self.by_line.copy()?,
        })
    }

    /// Whether no crease overlaps a segment, which is at this place.
    fn is_free_at(&self, place: &Place, seg: &Seg) -> bool
        requires place { IsPlaceOf seg.now place.now }
        requires held { IsHeld seg.now }
        ensures free { IsTrue result ↔ IsFree self.now seg.now }
        ensures standing { AreStanding self.now }
    {
        self.by_line.is_free(place, seg)
    }

    /// Puts in a crease, at its place, that overlaps none of those that are there.
    fn put_at(&mut self, place: Place, crease: Crease) -> Result<(), NoMemory>
        requires place { IsPlaceOf crease.seg place }
        requires held { IsHeld crease.seg }
        requires free { IsFree self.old crease.seg }
        ensures ok { OnOk result (AreWith self.old crease self.new) }
        ensures err { OnErr result (self.new ≡ self.old) }
        ensures standing { AreStanding self.new }
    {
        self.by_segment.insert(crease.seg, crease.colour)?;
        match self.by_line.put(place, crease) {
            Ok(()) => Ok(()),
            Err(_) => {
                self.by_segment.remove(&crease.seg);
                Err(NoMemory)
            }
        }
    }
}
