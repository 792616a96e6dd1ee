//! Rays: which points are on one, and which segments run along one.
ghost use Rattle.std.specs.Prelude.{◌≤◌, ◌<◌, ◌⊎◌, IsTrue, ◌↔◌};
ghost use Rattle.geometry.specs.Rays.{OnRay, RunsAlong};

use plane::{Point, Seg, is_before, on, side};
use qroot2::{Dir, Sign};

/// Whether a direction leads to later points.
pub(crate) fn leads_on(dir: Dir) -> bool
    ensures on { IsTrue result ↔ ((dir < 5) ⊎ (12 < dir)) }
    ensures small { dir < 16 }
{
    dir.number() < 5 || 12 < dir.number()
}

/// Whether a point is on the ray from `at` in a direction. The point `at` itself is not.
pub(crate) fn is_on_ray(at: &Point, dir: Dir, point: &Point) -> bool
    ensures { IsTrue result ↔ OnRay at.now dir point.now }
{
    match side(at, dir, point) {
        Sign::Zero if leads_on(dir) => is_before(at, point),
        Sign::Zero => is_before(point, at),
        Sign::Minus | Sign::Plus => false,
    }
}

/// Whether a segment runs along the ray from `at` in a direction, from its start on.
pub(crate) fn runs_along(at: &Point, dir: Dir, seg: &Seg) -> bool
    ensures { IsTrue result ↔ RunsAlong at.now dir seg.now }
{
    if leads_on(dir) {
        runs_on(at, dir, seg)
    } else {
        runs_back(at, dir, seg)
    }
}

/// The same for a direction that leads to later points.
fn runs_on(at: &Point, dir: Dir, seg: &Seg) -> bool
    requires { (dir < 5) ⊎ (12 < dir) }
    ensures { IsTrue result ↔ RunsAlong at.now dir seg.now }
{
    seg.dir().number() == dir.number() && on(seg, at) && is_before(at, &seg.q())
}

/// The same for a direction that leads to earlier points.
fn runs_back(at: &Point, dir: Dir, seg: &Seg) -> bool
    requires low { 5 ≤ dir }
    requires high { dir ≤ 12 }
    ensures { IsTrue result ↔ RunsAlong at.now dir seg.now }
{
    seg.dir().number() == dir.opposite().number() && on(seg, at) && is_before(&seg.p(), at)
}
