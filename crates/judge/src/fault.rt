//! The vertices of a pattern that do not fold flat.
ghost use Rattle.std.specs.Prelude.{◌≡◌, ◌≤◌, ◌↔◌, IfOk, IsTrue};
ghost use Rattle.sheet.specs.Sheet.{IsInside};
ghost use Rattle.judge.specs.Faults.{AreFaults, ReportOf, failure_of, TellsFault};

use crate::{Report, Verdict, Why, judge, verdict_is_one};
use plane::{Point, Sheet, in_sheet, on_border};
use ports::{NoMemory, Steps};
use std::alloc::Global;
use std::sync::ledger::Ledger;
use subdivide::{Live, star_is_of_the_point, star_is_one};

/// A vertex strictly inside the sheet that does not fold flat, and why.
#[derive(Clone, Copy, Debug, PartialEq, Eq)]
pub struct Fault {
    /// The vertex.
    pub at: Point,
    /// Why it does not fold flat.
    pub why: Why,
}

/// Whether a point is strictly inside the sheet.
fn is_inside(sheet: &Sheet, point: &Point) -> bool
    ensures { IsTrue result ↔ IsInside sheet.now point.now }
{
    // from 1 to 8
    let _width = sheet.w();
    in_sheet(sheet, point) && !on_border(sheet, point)
}

/// What is said of a point of a pattern: None where it is no vertex.
pub(crate) fn report_on<L: Ledger>(live: &Live, at: &Point, steps: &mut Steps<L>) -> Option<Report>
    ensures report { ReportOf live.now at.now result }
    ensures steps { steps.old ≤ steps.new }
{
    let star = live.star(at)?;
    if !is_inside(&live.pattern().sheet(), at) {
        return Some(Report::Border);
    }
    let verdict = judge(&star, steps);
    Some(Report::Judged { star, verdict })
}

/// Why a vertex that was judged fails, if it does.
fn failure(report: Option<Report>) -> Option<Why>
    ensures { result ≡ failure_of report }
{
    match report {
        None | Some(Report::Border) => None,
        Some(Report::Judged { star: _, verdict }) => match verdict {
            Verdict::Plain | Verdict::Passed(_) => None,
            Verdict::Fails(why) => Some(why),
        },
    }
}

/// Why a point is a fault, or None where it is none.
fn fault_at<L: Ledger>(live: &Live, at: &Point, steps: &mut Steps<L>) -> Option<Why>
    ensures tells { TellsFault live.now at.now result }
    ensures steps { steps.old ≤ steps.new }
{
    star_is_one();
    verdict_is_one();
    failure(report_on(live, at, steps))
}

/// The faults of a pattern, ascending: each vertex is judged that is strictly inside the sheet.
pub(crate) fn faults_of<L: Ledger>(
    alloc: Global,
    live: &Live,
    steps: &mut Steps<L>,
) -> Result<Vec<Fault>, NoMemory>
    ensures faults { IfOk result (λ faults. AreFaults live.now faults.items) }
    ensures steps { steps.old ≤ steps.new }
{
    star_is_of_the_point();
    // the law speaks of patterns
    let _pattern = live.pattern();
    let cut = live.subdivision(alloc)?;
    let mut faults = Vec::new(alloc);
    for at in cut.vertices() {
        if let Some(why) = fault_at(live, at, steps) {
            faults.push(Fault { at: *at, why })?;
        }
    }
    Ok(faults)
}
