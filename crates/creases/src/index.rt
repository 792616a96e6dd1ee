//! Creases of which no two overlap, found by the lines on which they lie.
ghost use Rattle.std.specs.Prelude.{◌≡◌, ◌↔◌, [], false, Contains, IfOk, OnOk, OnErr, IsTrue};
ghost use Rattle.std.specs.declared.cmp.Ordering.{Ordering};
ghost use Rattle.std.specs.Ordering.{is_gt};
ghost use Rattle.exact.specs.Plane.{Overlap};
ghost use Rattle.plane.specs.Segments.{IsHeld};
ghost use Rattle.creases.specs.Creases.{AreBut, AreOverlapping, AreRecoloured, AreWith};
ghost use Rattle.creases.specs.Creases.{FollowOneAnother, IsFree};
ghost use Rattle.creases.specs.Index.{IsIndex, OverlapBetween};
ghost use Rattle.creases.specs.Places.{IsPlaceOf, IsEndOf, place_cmp};

use crate::place::Place;
use crate::{Crease, Overlapping};
use plane::{Seg, is_before};
use ports::NoMemory;
use sheet::Colour;
use std::alloc::Global;
use std::collections::BTreeMap;
use std::marker::Model;

/// Creases of which no two overlap, found by the lines on which they lie. Contracts see their list,
/// line by line.
#[derive(Drop)]
pub(crate) struct LineIndex {
    by_place: BTreeMap<Place, Crease>,
}

impl Model for LineIndex {
    ghost use Rattle.std.specs.Prelude.{List};
    ghost use Rattle.std.specs.BTreeMap.{values};
    ghost use Rattle.sheet.specs.Pattern.{ExactCrease};
    ghost use Rattle.creases.specs.Index.{IsIndex};

    ghost Value = { List ExactCrease };

    ghost view = { λ s. values s.by_place };

    ghost invariant = { λ s. IsIndex s.by_place.entries };
}

impl LineIndex {
    pub(crate) fn new(alloc: Global) -> LineIndex
        ensures { result ≡ [] }
    {
        LineIndex {
            by_place: BTreeMap::new(alloc),
        }
    }

    /// The creases that overlap a segment.
    pub(crate) fn overlapping(&self, seg: &Seg) -> Overlapping<'_>
        ensures members { AreOverlapping self.now seg.now result }
        ensures along { FollowOneAnother result }
    {
        let place = Place::of(seg);
        let end = place.end_of(seg);
        let first = first_place(&self.by_place, &place, &end, seg);
        Overlapping::new(self.by_place.range(first..end))
    }

    /// Whether no crease overlaps a segment, which is at this place.
    pub(crate) fn is_free(&self, place: &Place, seg: &Seg) -> bool
        requires place { IsPlaceOf seg.now place.now }
        requires held { IsHeld seg.now }
        ensures { IsTrue result ↔ IsFree self.now seg.now }
    {
        let end = place.end_of(seg);
        match self.by_place.range(..end).next_back() {
            Some((last, crease)) => !is_reached(last, crease, &end, seg),
            None => true,
        }
    }

    /// Puts in a crease that overlaps none of the others, at its place.
    pub(crate) fn put(&mut self, place: Place, crease: Crease) -> Result<(), NoMemory>
        requires place { IsPlaceOf crease.seg place }
        requires held { IsHeld crease.seg }
        requires free { IsFree self.old crease.seg }
        ensures ok { OnOk result (AreWith self.old crease self.new) }
        ensures err { OnErr result (self.new ≡ self.old) }
    {
        self.by_place.insert(place, crease)?;
        Ok(())
    }

    /// Takes out a crease that is there.
    pub(crate) fn take(&mut self, crease: &Crease)
        requires { Contains self.old crease.now }
        ensures { AreBut self.old crease.now self.new }
    {
        self.by_place.remove(&Place::of(&crease.seg));
    }

    /// Gives a crease that is there this colour.
    pub(crate) fn recolour(&mut self, crease: &Crease, colour: Colour)
        requires { Contains self.old crease.now }
        ensures { AreRecoloured self.old crease.now colour self.new }
    {
        let Some(kept) = self.by_place.get_mut(&Place::of(&crease.seg)) else {
            return;
        };
        *kept = Crease {
            seg: crease.seg,
            colour,
        };
    }

    /// An equal index.
    pub(crate) fn copy(&self) -> Result<LineIndex, NoMemory>
        ensures { IfOk result (λ index. index ≡ self.now) }
    {
        Ok(LineIndex {
            by_place: self.by_place.clone()?,
        })
    }
}

/// The place of the crease that begins before a segment and reaches into it, or the segment's own
/// place where none does. On one line creases do not overlap, so only the last one before the
/// segment can reach into it.
fn first_place(by_place: &BTreeMap<Place, Crease>, place: &Place, end: &Place, seg: &Seg) -> Place
    requires index { IsIndex by_place.now.entries }
    requires place { IsPlaceOf seg.now place.now }
    requires end { IsEndOf seg.now end.now }
    requires held { IsHeld seg.now }
    ensures overlap { OverlapBetween by_place.now.entries seg.now result end.now }
    ensures forward { is_gt (place_cmp result end.now) ≡ false }
{
    match by_place.range(..*place).next_back() {
        Some((last, crease)) => {
            if is_reached(last, crease, end, seg) {
                *last
            } else {
                *place
            }
        }
        None => *place,
    }
}

/// Whether a crease whose place is before the end of a segment overlaps it.
fn is_reached(place: &Place, crease: &Crease, end: &Place, seg: &Seg) -> bool
    requires place { IsPlaceOf crease.now.seg place.now }
    requires held { IsHeld crease.now.seg }
    requires end { IsEndOf seg.now end.now }
    requires segment { IsHeld seg.now }
    requires before { place_cmp place.now end.now ≡ Ordering.Less }
    ensures { IsTrue result ↔ Overlap crease.now.seg seg.now }
{
    place.line == end.line && is_before(&seg.p(), &crease.seg.q())
}
