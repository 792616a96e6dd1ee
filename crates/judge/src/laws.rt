//! Laws of the verdict, as the contracts of functions that do nothing.
ghost use Rattle.std.specs.Prelude.{◌↔◌, List};
ghost use Rattle.layers.specs.declared.star.Ray.{Ray as AnyRay};
ghost use Rattle.layers.specs.Star.{IsStar};
ghost use Rattle.judge.specs.declared.verdict.Verdict.{Verdict as AnyVerdict};
ghost use Rattle.judge.specs.Verdict.{VerdictOf, IsPassed, FoldsFlat, AreOne};

use crimp::blocked_run_is_unique;

/// A star has one verdict: two verdicts of it are equal but for the order with which it passes.
pub fn verdict_is_one()
    ensures { (rays : List AnyRay) (verdict other : AnyVerdict) → IsStar rays
        → VerdictOf rays verdict → VerdictOf rays other → AreOne verdict other }
{
    blocked_run_is_unique();
}

/// A star passes exactly where some order of its sectors is a layer order.
pub fn passed_exactly_foldable()
    ensures { (rays : List AnyRay) (verdict : AnyVerdict) → VerdictOf rays verdict
        → (IsPassed verdict ↔ FoldsFlat rays) }
{}
