//! What two segments have in common, by their directions, the sides of their ends, and the order of points.
ghost use Rattle.std.specs.Prelude.{◌≡◌, ◌≢◌, ◌+◌, ◌<◌};
ghost use Rattle.geometry.specs.Meeting.{Along};
ghost use Rattle.plane.specs.Meets.{Meets, HasCanonicalPoints, AreCollinear};

use crate::crossing::cross_lines;
use crate::order::{earlier, is_before, later};
use crate::segment::{is_between, joined};
use crate::sides::{is_beside, is_on_line};
use crate::{Meet, Point, Seg};
use ports::Steps;
use qroot2::Dir;
use std::sync::ledger::Ledger;

/// What two segments have in common. Each call counts one step.
pub fn meet<L: Ledger>(s: &Seg, t: &Seg, steps: &mut Steps<L>) -> Meet
    ensures meets { Meets s.now t.now result }
    ensures canonical { HasCanonicalPoints result }
    ensures counted { steps.new ≡ steps.old + 1 }
{
    steps.tick();
    let k = s.dir();
    let j = t.dir();
    if k.number() == j.number() {
        parallel(s, t, k)
    } else {
        not_parallel(s, k, t, j)
    }
}

/// Of two segments of one direction.
fn parallel(s: &Seg, t: &Seg, dir: Dir) -> Meet
    requires s { Along s.now dir }
    requires t { Along t.now dir }
    ensures meets { Meets s.now t.now result }
    ensures canonical { HasCanonicalPoints result }
{
    if is_on_line(&s.p(), dir, &t.p()) {
        collinear(s, t)
    } else {
        Meet::Apart
    }
}

/// Of two segments of one line.
fn collinear(s: &Seg, t: &Seg) -> Meet
    requires { AreCollinear s.now t.now }
    ensures meets { Meets s.now t.now result }
    ensures canonical { HasCanonicalPoints result }
{
    let lo = later(&s.p(), &t.p());
    let hi = earlier(&s.q(), &t.q());
    if is_before(&hi, &lo) {
        Meet::Apart
    } else if is_before(&lo, &hi) {
        Meet::Overlap(joined(lo, hi))
    } else {
        Meet::At(lo)
    }
}

/// Of two segments of different directions. Those along the axes need no arithmetic.
fn not_parallel(s: &Seg, k: Dir, t: &Seg, j: Dir) -> Meet
    requires s { Along s.now k }
    requires t { Along t.now j }
    requires different { k ≢ j }
    ensures meets { Meets s.now t.now result }
    ensures canonical { HasCanonicalPoints result }
{
    match (k.number(), j.number()) {
        (0, 4) => upright_across(s, t),
        (4, 0) => flat_across(s, t),
        _ => slanted(s, k, t, j),
    }
}

/// Of a segment along direction 0 and one along direction 4.
fn upright_across(s: &Seg, t: &Seg) -> Meet
    requires s { Along s.now 0 }
    requires t { Along t.now 4 }
    ensures meets { Meets s.now t.now result }
    ensures canonical { HasCanonicalPoints result }
{
    let at = corner(&t.p(), &s.p());
    if is_between(s, &at) && is_between(t, &at) {
        Meet::At(at)
    } else {
        Meet::Apart
    }
}

/// Of a segment along direction 4 and one along direction 0.
fn flat_across(s: &Seg, t: &Seg) -> Meet
    requires s { Along s.now 4 }
    requires t { Along t.now 0 }
    ensures meets { Meets s.now t.now result }
    ensures canonical { HasCanonicalPoints result }
{
    upright_across(t, s)
}

fn corner(a: &Point, b: &Point) -> Point
    ensures { result ≡ record { x = a.now.x; y = b.now.y } }
{
    Point { x: a.x, y: b.y }
}

/// Of two segments that are not parallel: none where the ends of one are strictly on one side of the
/// other, and else the common point of their lines.
fn slanted(s: &Seg, k: Dir, t: &Seg, j: Dir) -> Meet
    requires s { Along s.now k }
    requires t { Along t.now j }
    requires different { k ≢ j }
    ensures meets { Meets s.now t.now result }
    ensures canonical { HasCanonicalPoints result }
{
    let p = s.p();
    let q = t.p();
    // the second is tried first: who has chosen it by the ends of the first knows already that they
    // are not beside it
    if is_beside(t, &p, k) || is_beside(s, &q, j) {
        return Meet::Apart;
    }
    match cross_lines(&p, k, &q, j) {
        Some(point) => Meet::At(point),
        None => Meet::AtOutOfRange,
    }
}
