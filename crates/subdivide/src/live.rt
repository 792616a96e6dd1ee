//! A pattern that is kept cut.

ghost use Rattle.std.specs.Prelude.{◌≡◌, ◌≤◌, ◌↔◌, IfErr, IfOk, IfSome, IsSome};
ghost use Rattle.sheet.specs.Pattern.{IsPattern};
ghost use Rattle.pattern.specs.Deltas.{Fits, Leads};
ghost use Rattle.subdivide.specs.Subdivision.{Answer, CutOf, IsVertex};
ghost use Rattle.subdivide.specs.Star.{StarOf};
ghost use Rattle.subdivide.specs.Live.{IsCut, RefusesStep};
ghost use Rattle.ports.specs.Stops.{Refuses};
ghost use Rattle.subdivide.specs.CutAnswers.{IsCutAnswer};

use crate::stars::{Fan, fans_of};
use crate::{CutBad, Plan, Subdivision, scratch};
use chains::find;
use layers::Star;
use pattern::{Delta, Pattern, delta_leads_to_one};
use plane::Point;
use ports::{NoMemory, Steps, Stop};
use std::alloc::Global;
use std::marker::Model;
use std::snapshot::Snapshot;
use std::sync::ledger::Ledger;

/// A pattern that is kept cut: its vertices, its edges, and the star of each vertex. Contracts see
/// the pattern, which cutting does not refuse.
#[derive(Drop)]
pub struct Live {
    pattern: Pattern,
    cut: Subdivision,
    fans: Vec<Fan>,
}

impl Model for Live {
    ghost use Rattle.sheet.specs.Pattern.{ExactPattern};
    ghost use Rattle.subdivide.specs.Fans.{IsLive};

    ghost Value = { ExactPattern };

    ghost view = { λ s. s.pattern };

    ghost invariant = { λ s. IsLive s.pattern s.cut s.fans.items };
}

impl Live {
    /// Cuts a pattern.
    ///
    /// # Errors
    ///
    /// Those of `scratch`.
    pub fn start(alloc: Global, pattern: Pattern) -> Result<Live, Stop<CutBad>>
        ensures ok { IfOk result (λ live. live ≡ pattern) }
        ensures cut { IfOk result IsCut }
        ensures err { IfErr result (λ e. Refuses (IsCutAnswer pattern) e) }
    {
        let cut = scratch(alloc, &pattern)?;
        let fans = fans_of(alloc, &cut)?;
        Ok(Live { pattern, cut, fans })
    }

    /// The step by a delta that fits, if the pattern that it leads to can be cut. `steps` counts
    /// the pairs of creases that are met for it. The pattern is cut from scratch, on a counter of
    /// its own, so `steps` may stand still.
    ///
    /// # Errors
    ///
    /// Those of `scratch` on the pattern that the delta leads to.
    pub fn check<L: Ledger>(
        &self,
        alloc: Global,
        delta: &Delta,
        _steps: &mut Steps<L>,
    ) -> Result<Plan, Stop<CutBad>>
        requires { Fits self.now delta.now }
        ensures old { IfOk result (λ plan. plan.old ≡ self.now) }
        ensures new { IfOk result (λ plan. Leads self.now delta.now plan.new) }
        ensures cut { IfOk result (λ plan. IsCut plan.new) }
        ensures err { IfErr result (λ e. RefusesStep self.now delta.now e) }
        ensures steps { _steps.old ≤ _steps.new }
    {
        delta_leads_to_one();
        let new = self.pattern.applied(alloc, delta)?;
        Ok(Plan {
            old: Snapshot::of(&self.pattern),
            next: Live::start(alloc, new)?,
        })
    }

    /// Goes a step from this pattern.
    ///
    /// # Errors
    ///
    /// `NoMemory` where memory runs out.
    pub fn apply(self, _alloc: Global, plan: Plan) -> Result<Live, NoMemory>
        requires { plan.old ≡ self }
        ensures { IfOk result (λ live. live ≡ plan.new) }
    {
        Ok(plan.next)
    }

    /// The pattern.
    pub fn pattern(&self) -> &Pattern
        ensures value { result.now ≡ self.now }
        ensures pattern { IsPattern self.now }
        ensures cut { IsCut self.now }
    {
        &self.pattern
    }

    /// The vertices and edges of the pattern: a copy.
    ///
    /// # Errors
    ///
    /// `NoMemory` where memory for the lists runs out.
    pub fn subdivision(&self, alloc: Global) -> Result<Subdivision, NoMemory>
        ensures { IfOk result (λ cut. CutOf self.now (Answer.Cut cut.vertices cut.edges)) }
    {
        self.cut.copy(alloc)
    }

    /// The mountain and valley edges at a vertex, by their directions away from it, or None where
    /// the point is no vertex. It takes no memory.
    pub fn star(&self, at: &Point) -> Option<Star>
        ensures some { IfSome result (λ star. StarOf self.now at.now star) }
        ensures vertex { IsSome result ↔ IsVertex self.now at.now }
        ensures pattern { IsPattern self.now }
        ensures cut { IsCut self.now }
    {
        // in lowest terms
        let _point = (at.x.d(), at.y.d());
        match find(self.cut.vertices(), at) {
            Some(place) => Some(self.fans[place].star()),
            None => None,
        }
    }
}
