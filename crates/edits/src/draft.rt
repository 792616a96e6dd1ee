//! A pattern while it is drawn on.
ghost use Rattle.std.specs.Prelude.{◌≡◌, ◌≢◌, ◌↔◌, AllPairs, Contains, length, IfOk, OnOk};
ghost use Rattle.sheet.specs.Pattern.{ExactCrease, IsPattern};
ghost use Rattle.plane.specs.Segments.{IsHeld};
ghost use Rattle.pattern.specs.Deltas.{IsBetween};
ghost use Rattle.creases.specs.Creases.{AreBut, AreOverlapping, AreWith, IsFree};
ghost use Rattle.creases.specs.Standing.{AreStanding};

use pattern::{Crease, CreaseMap, Delta, Overlapping, Pattern};
use plane::Seg;
use ports::{Listed, NoMemory};
use std::alloc::Global;
use std::marker::Model;

/// A pattern while it is drawn on: which of its creases are gone, and which came. No two of those
/// that stand overlap, and there may be more of them than a pattern has. Contracts see the pattern
/// as it was, and the list of the creases that stand, ascending by segment.
#[derive(Drop)]
pub(crate) struct Draft<'a> {
    pattern: &'a Pattern,
    /// Creases of the pattern, with their colours.
    gone: CreaseMap,
    /// None of them, with its colour, is in the pattern.
    come: CreaseMap,
}

impl<'a> Model for Draft<'a> {
    ghost use Rattle.edits.specs.Drafts.{ExactDraft};
    ghost use Rattle.edits.specs.Beside.{standing, AreBeside};

    ghost Value = { ExactDraft };

    ghost view = { λ s. record { pattern = s.pattern.now; creases = standing s.pattern.now s.gone s.come } };

    ghost invariant = { λ s. AreBeside s.pattern.now s.gone s.come };
}

impl<'a> Draft<'a> {
    /// A pattern on which nothing is drawn. It takes no memory.
    pub(crate) fn of(alloc: Global, pattern: &'a Pattern) -> Draft<'a>
        ensures same { result ≡ record { pattern = pattern.now; creases = pattern.now.creases } }
        ensures pattern { IsPattern pattern.now }
    {
        let _len = pattern.len();
        Draft {
            pattern,
            gone: CreaseMap::new(alloc),
            come: CreaseMap::new(alloc),
        }
    }

    /// How many creases stand.
    pub(crate) fn len(&self) -> usize
        ensures count { result ≡ length self.now.creases }
        ensures standing { AreStanding self.now.creases }
    {
        self.pattern.len() - self.gone.len() + self.come.len()
    }

    /// The creases that overlap a segment, each once.
    ///
    /// # Errors
    ///
    /// `NoMemory` where memory for the list runs out.
    pub(crate) fn overlapped(&self, alloc: Global, seg: &Seg) -> Result<Vec<Crease>, NoMemory>
        ensures members { IfOk result (λ list. AreOverlapping self.now.creases seg.now list.items) }
        ensures once { IfOk result (λ list. AllPairs (λ f g. f ≢ g) list.items) }
        ensures standing { AreStanding self.now.creases }
    {
        let mut list = left(alloc, self.pattern.overlapping(seg), &self.gone)?;
        for crease in self.come.overlapping(seg) {
            list.push(crease)?;
        }
        Ok(list)
    }

    /// Takes out a crease that stands.
    ///
    /// # Errors
    ///
    /// `NoMemory` where memory for what is gone runs out.
    pub(crate) fn take_out(&mut self, crease: &Crease) -> Result<(), NoMemory>
        requires { Contains self.old.creases crease.now }
        ensures taken { OnOk result (AreBut self.old.creases crease.now self.new.creases) }
        ensures standing { AreStanding self.new.creases }
        ensures pattern { self.new.pattern ≡ self.old.pattern }
    {
        if self.come.take(crease) {
            return Ok(());
        }
        self.gone.put(*crease)?;
        Ok(())
    }

    /// Puts in a crease that overlaps none of those that stand. One of the pattern's that is gone
    /// comes back.
    ///
    /// # Errors
    ///
    /// `NoMemory` where memory for the crease runs out.
    pub(crate) fn put_in(&mut self, crease: Crease) -> Result<(), NoMemory>
        requires held { IsHeld crease.seg }
        requires apart { IsFree self.old.creases crease.seg }
        ensures put { OnOk result (AreWith self.old.creases crease self.new.creases) }
        ensures standing { AreStanding self.new.creases }
        ensures pattern { self.new.pattern ≡ self.old.pattern }
    {
        if self.gone.take(&crease) {
            return Ok(());
        }
        self.come.put(crease)?;
        Ok(())
    }

    /// The delta from the pattern to the creases that stand: those that are gone, and those that came.
    ///
    /// # Errors
    ///
    /// `NoMemory` where memory for the lists runs out.
    pub(crate) fn delta(&self, alloc: Global) -> Result<Delta, NoMemory>
        ensures lists { IfOk result (IsBetween self.now.pattern.creases self.now.creases) }
        ensures pattern { IsPattern self.now.pattern }
        ensures standing { AreStanding self.now.creases }
    {
        Ok(Delta {
            removed: Listed::new(listed(alloc, &self.gone)?),
            added: Listed::new(listed(alloc, &self.come)?),
        })
    }
}

/// Those of the creases that are not gone.
fn left(alloc: Global, creases: Overlapping<'_>, gone: &CreaseMap) -> Result<Vec<Crease>, NoMemory>
    requires { AllPairs (λ f g. f ≢ g) creases }
    ensures members { IfOk result
        (λ list. (f : ExactCrease)
        → Contains list.items f ↔ (Contains creases.entry f × (¬ Contains gone.now f))) }
    ensures once { IfOk result (λ list. AllPairs (λ f g. f ≢ g) list.items) }
{
    let mut list = Vec::new(alloc);
    for crease in creases {
        if !gone.has(&crease) {
            list.push(crease)?;
        }
    }
    Ok(list)
}

/// The creases of a map, ascending.
fn listed(alloc: Global, map: &CreaseMap) -> Result<Vec<Crease>, NoMemory>
    ensures { IfOk result (λ list. list.items ≡ map.now) }
{
    let mut list = Vec::new(alloc);
    for crease in map.creases() {
        list.push(crease)?;
    }
    Ok(list)
}
