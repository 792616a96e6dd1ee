//! A pattern that is kept cut and judged.
ghost use Rattle.std.specs.Prelude.{◌≡◌, ◌≤◌, ◌<◌, IfErr, IfOk};
ghost use Rattle.sheet.specs.Pattern.{IsPattern};
ghost use Rattle.pattern.specs.Deltas.{Fits, Leads};
ghost use Rattle.subdivide.specs.Subdivision.{Answer, CutOf};
ghost use Rattle.subdivide.specs.Live.{IsCut, RefusesStep};
ghost use Rattle.ports.specs.Stops.{Refuses};
ghost use Rattle.subdivide.specs.CutAnswers.{IsCutAnswer};
ghost use Rattle.judge.specs.Faults.{AreFaults, ReportOf};

use crate::fault::{faults_of, report_on};
use crate::{Fault, Report};
use pattern::{Delta, Pattern};
use plane::Point;
use ports::{NoMemory, Steps, Stop};
use std::alloc::Global;
use std::marker::{Brand, Model};
use std::sync::ledger::{Blank, Ledger};
use subdivide::{CutBad, Live, Plan, Subdivision};

/// A pattern that is kept cut, with the vertices of it that do not fold flat. Contracts see the
/// pattern, which cutting does not refuse.
#[derive(Drop)]
pub struct Judged {
    live: Live,
    faults: Vec<Fault>,
}

impl Model for Judged {
    ghost use Rattle.sheet.specs.Pattern.{ExactPattern};
    ghost use Rattle.judge.specs.Faults.{AreFaults};

    ghost Value = { ExactPattern };

    ghost view = { λ s. s.live };

    ghost invariant = { λ s. AreFaults s.live s.faults.items };
}

impl Judged {
    /// Cuts a pattern and judges it.
    ///
    /// # Errors
    ///
    /// Those of `Live::start`.
    pub fn start(alloc: Global, pattern: Pattern) -> Result<Judged, Stop<CutBad>>
        ensures ok { IfOk result (λ judged. judged ≡ pattern) }
        ensures err { IfErr result (λ e. Refuses (IsCutAnswer pattern) e) }
    {
        let live = Live::start(alloc, pattern)?;
        Ok(uncounted::<Brand>(alloc, live, Blank::new(1))?)
    }

    /// The step by a delta that fits, if the pattern that it leads to can be cut. `steps` counts as in
    /// `Live::check`.
    ///
    /// # Errors
    ///
    /// Those of `Live::check`.
    pub fn check<L: Ledger>(
        &self,
        alloc: Global,
        delta: &Delta,
        steps: &mut Steps<L>,
    ) -> Result<Plan, Stop<CutBad>>
        requires { Fits self.now delta.now }
        ensures old { IfOk result (λ plan. plan.old ≡ self.now) }
        ensures new { IfOk result (λ plan. Leads self.now delta.now plan.new) }
        ensures cut { IfOk result (λ plan. IsCut plan.new) }
        ensures err { IfErr result (λ e. RefusesStep self.now delta.now e) }
        ensures steps { steps.old ≤ steps.new }
    {
        self.live.check(alloc, delta, steps)
    }

    /// Goes a step from this pattern. `steps` counts the vertices that are judged for it.
    ///
    /// # Errors
    ///
    /// `NoMemory` where memory runs out.
    pub fn apply<L: Ledger>(
        self,
        alloc: Global,
        plan: Plan,
        steps: &mut Steps<L>,
    ) -> Result<Judged, NoMemory>
        requires { plan.old ≡ self }
        ensures ok { IfOk result (λ judged. judged ≡ plan.new) }
        ensures steps { steps.old ≤ steps.new }
    {
        let live = self.live.apply(alloc, plan)?;
        with_faults(alloc, live, steps)
    }

    /// The vertices strictly inside the sheet that do not fold flat, ascending.
    pub fn faults(&self) -> &[Fault]
        ensures faults { AreFaults self.now result.now }
        ensures pattern { IsPattern self.now }
    {
        let _pattern = self.pattern();
        &self.faults
    }

    /// What is said of a point: None where it is no vertex, Border where it is a vertex that is not strictly
    /// inside the sheet, else its star and the verdict on it. It takes no memory.
    pub fn report(&self, at: &Point) -> Option<Report>
        ensures { ReportOf self.now at.now result }
    {
        reported::<Brand>(&self.live, at, Blank::new(1))
    }

    /// The pattern.
    pub fn pattern(&self) -> &Pattern
        ensures value { result.now ≡ self.now }
        ensures pattern { IsPattern self.now }
        ensures cut { IsCut self.now }
    {
        self.live.pattern()
    }

    /// The vertices and edges of the pattern: a copy.
    ///
    /// # Errors
    ///
    /// `NoMemory` where memory for the lists runs out.
    pub fn subdivision(&self, alloc: Global) -> Result<Subdivision, NoMemory>
        ensures { IfOk result (λ cut. CutOf self.now (Answer.Cut cut.vertices cut.edges)) }
    {
        self.live.subdivision(alloc)
    }
}

/// A pattern that is kept cut, judged.
fn with_faults<L: Ledger>(
    alloc: Global,
    live: Live,
    steps: &mut Steps<L>,
) -> Result<Judged, NoMemory>
    ensures ok { IfOk result (λ judged. judged ≡ live) }
    ensures steps { steps.old ≤ steps.new }
{
    let faults = faults_of(alloc, &live, steps)?;
    Ok(Judged { live, faults })
}

/// The same, with a counter of its own.
fn uncounted<L: Ledger>(alloc: Global, live: Live, blank: Blank) -> Result<Judged, NoMemory>
    requires name { blank.name ≡ L.name }
    requires parts { blank.parts ≡ L.parts }
    requires some { 0 < blank.parts }
    ensures { IfOk result (λ judged. judged ≡ live) }
{
    with_faults(alloc, live, &mut Steps::<L>::begin(blank))
}

/// What is said of a point, with a counter of its own.
fn reported<L: Ledger>(live: &Live, at: &Point, blank: Blank) -> Option<Report>
    requires name { blank.name ≡ L.name }
    requires parts { blank.parts ≡ L.parts }
    requires some { 0 < blank.parts }
    ensures { ReportOf live.now at.now result }
{
    report_on(live, at, &mut Steps::<L>::begin(blank))
}
