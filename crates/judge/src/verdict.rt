//! What is said of a vertex.
ghost use Rattle.std.specs.Prelude.{◌≡◌, ◌+◌, ◌≤◌, length};
ghost use Rattle.judge.specs.Verdict.{VerdictOf};
ghost use Rattle.judge.specs.Cause.{IsCauseOf};

use crate::counting::{angle_sum, mountains, valleys};
use crimp::{Outcome, Run, reduce};
use layers::{Order, Ray, Star, sectors};
use ports::Steps;
use std::sync::ledger::Ledger;

/// Why a vertex does not fold flat.
#[derive(Clone, Copy, Debug, PartialEq, Eq)]
pub enum Why {
    /// The number of rays is odd, or the angles of the sectors with even numbers and of those with odd
    /// numbers have different sums.
    Kawasaki {
        /// The sum of the angles of the sectors with even numbers, in units of 22.5 degrees.
        even: u8,
        /// The sum of the angles of the sectors with odd numbers.
        odd: u8,
        /// The number of rays, from 1 to 16.
        count: u8,
    },
    /// The sums are equal, and the mountains and valleys do not differ by exactly two.
    Maekawa {
        /// The number of mountains.
        mountains: u8,
        /// The number of valleys.
        valleys: u8,
    },
    /// The sums are equal and the marks differ by two, and still no order of the sectors is a layer order.
    /// This run stands in the way.
    Blocked(Run),
}

/// What is said of a vertex.
#[derive(Drop)]
pub enum Verdict {
    /// No mountain and no valley ends there.
    Plain,
    /// It folds flat, with these layers from the bottom to the top.
    Passed(Order),
    /// It does not fold flat.
    Fails(Why),
}

/// Why a vertex whose sums are equal has no layer order, where crimping is stuck with this run.
fn cause(rays: &[Ray], run: Run) -> Why
    requires { length rays.now ≤ 16 }
    ensures { IsCauseOf rays.now run result }
{
    let mountains = mountains(rays);
    let valleys = valleys(rays);
    if mountains.abs_diff(valleys) == 2 {
        Why::Blocked(run)
    } else {
        Why::Maekawa { mountains, valleys }
    }
}

/// The verdict on a star.
fn verdict_on(star: &Star) -> Verdict
    ensures { VerdictOf star.now result }
{
    let rays = star.rays();
    if rays.is_empty() {
        return Verdict::Plain;
    }
    let sectors = sectors(star);
    let list = sectors.list();
    let even = angle_sum(list, 0);
    let odd = angle_sum(list, 1);
    if rays.len() % 2 == 1 || even != odd {
        let count = rays.len() as u8;
        return Verdict::Fails(Why::Kawasaki { even, odd, count });
    }
    match reduce(&sectors) {
        Outcome::Folds(order) => Verdict::Passed(order),
        Outcome::Stuck(run) => Verdict::Fails(cause(rays, run)),
    }
}

/// The verdict on the creases that meet at a vertex, for every star: the first of these that applies.
///
/// - Plain: there are no rays.
/// - Kawasaki: their number is odd, or the two sums of angles differ. Both sums and the number are given.
/// - Passed: some order of the sectors is a layer order. One is given.
/// - Maekawa: mountains and valleys do not differ by exactly two. Both numbers are given.
/// - Blocked: all else. The run with which the crimping ends is given.
///
/// After Hull, Origametry, and Demaine and O'Rourke, Geometric Folding Algorithms, chapter 12. It takes no
/// memory and counts one step.
pub fn judge<L: Ledger>(star: &Star, steps: &mut Steps<L>) -> Verdict
    ensures verdict { VerdictOf star.now result }
    ensures counted { steps.new ≡ steps.old + 1 }
{
    steps.tick();
    verdict_on(star)
}
