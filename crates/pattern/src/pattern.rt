//! A crease pattern: a sheet, and a finite map from segments to colours, without overlaps.
ghost use Rattle.std.specs.Prelude.{◌≡◌, [], ◌↔◌, length, IfSome, IsNone, Contains, IfOk, IsTrue};
ghost use Rattle.sheet.specs.Pattern.{IsPattern};
ghost use Rattle.creases.specs.Creases.{AreOverlapping, FollowOneAnother, IsColoured, IsUncreased};
ghost use Rattle.pattern.specs.Deltas.{Fits, Leads};

use crate::{Crease, CreaseMap, Creases, Delta, Overlapping};
use plane::Seg;
use ports::NoMemory;
use sheet::{Colour, Sheet};
use std::alloc::Global;
use std::marker::Model;

/// A crease pattern: a sheet, and a finite map from segments to colours. All ends are in the sheet,
/// no segment lies on a side of it, no two overlap, and there are at most `CREASE_LIMIT`.
#[derive(Drop)]
pub struct Pattern {
    pub(crate) sheet: Sheet,
    pub(crate) creases: CreaseMap,
}

impl Model for Pattern {
    ghost use Rattle.sheet.specs.Pattern.{ExactPattern, IsPattern};

    ghost Value = { ExactPattern };

    ghost view = { λ s. record { sheet = s.sheet; creases = s.creases } };

    ghost invariant = { λ s. IsPattern (record { sheet = s.sheet; creases = s.creases }) };
}

impl Pattern {
    /// The pattern on this sheet without creases. It takes no memory.
    pub fn empty(alloc: Global, sheet: Sheet) -> Pattern
        ensures { result ≡ record { sheet = sheet; creases = [] } }
    {
        let _w = sheet.w();
        Pattern {
            sheet,
            creases: CreaseMap::new(alloc),
        }
    }

    /// The sheet that the pattern is on.
    pub fn sheet(&self) -> Sheet
        ensures sheet { result ≡ self.now.sheet }
        ensures pattern { IsPattern self.now }
    {
        self.sheet
    }

    /// How many creases there are, at most `CREASE_LIMIT`.
    pub fn len(&self) -> usize
        ensures count { result ≡ length self.now.creases }
        ensures pattern { IsPattern self.now }
    {
        self.creases.len()
    }

    /// The colour of the crease on exactly this segment, or None where there is none.
    pub fn colour(&self, seg: &Seg) -> Option<Colour>
        ensures some { IfSome result (IsColoured self.now.creases seg.now) }
        ensures none { IsNone result → IsUncreased self.now.creases seg.now }
        ensures pattern { IsPattern self.now }
    {
        self.creases.colour(seg)
    }

    /// Whether this crease, with its colour, is in the pattern.
    pub fn has(&self, crease: &Crease) -> bool
        ensures { IsTrue result ↔ Contains self.now.creases crease.now }
    {
        self.creases.has(crease)
    }

    /// The creases, ascending by their segments.
    pub fn creases(&self) -> Creases<'_>
        ensures rest { result ≡ self.now.creases }
        ensures pattern { IsPattern self.now }
    {
        self.creases.creases()
    }

    /// The creases that overlap a segment, in the order in which they follow one another on its
    /// line. It takes no memory, and the time of a look-up and of its answer.
    pub fn overlapping(&self, seg: &Seg) -> Overlapping<'_>
        ensures members { AreOverlapping self.now.creases seg.now result }
        ensures along { FollowOneAnother result }
        ensures pattern { IsPattern self.now }
    {
        self.creases.overlapping(seg)
    }

    /// An equal pattern.
    ///
    /// # Errors
    ///
    /// `NoMemory` where memory for the creases runs out.
    pub fn copy(&self, _alloc: Global) -> Result<Pattern, NoMemory>
        ensures same { IfOk result (λ pattern. pattern ≡ self.now) }
        ensures pattern { IsPattern self.now }
    {
        Ok(Pattern {
            sheet: self.sheet,
            creases: self.creases.copy()?,
        })
    }

    /// The pattern to which a delta that fits leads from this one. It is on the same sheet.
    ///
    /// # Errors
    ///
    /// `NoMemory` where memory for the creases runs out.
    pub fn applied(&self, alloc: Global, delta: &Delta) -> Result<Pattern, NoMemory>
        requires { Fits self.now delta.now }
        ensures { IfOk result (Leads self.now delta.now) }
    {
        Ok(self.copy(alloc)?.advance(delta)?.unwrap())
    }
}
