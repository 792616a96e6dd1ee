//! What a ray meets of segments.
ghost use Rattle.std.specs.Prelude.{◌≡◌, ◌≢◌, ℕ, ◌%◌, ◌<◌, ◌≤◌, ◌⊎◌, IsTrue, ◌↔◌};
ghost use Rattle.exact.specs.Plane.{IsPointCanonical, vector};
ghost use Rattle.geometry.specs.Gap.{cross, det};
ghost use Rattle.geometry.specs.Meeting.{Along as IsAlong, SameSide};
ghost use Rattle.geometry.specs.Rays.{RunsAlong};
ghost use Rattle.edits.specs.Sights.{Sees, IsNearer, AreBoth};

use crate::rays::{is_on_ray, leads_on, runs_along};
use plane::{Point, Seg, are_one_side, cross_lines, is_before, is_beside, side};
use qroot2::Dir;

/// What a ray meets of one segment, or of several. The start of a ray is not on it.
#[derive(Clone, Copy)]
pub(crate) enum Sight {
    /// A segment runs along the ray from its start on.
    Along,
    /// A segment is met in exactly one point, which cannot be held, and none runs along the ray.
    OutOfRange,
    /// This point comes first, and each segment that is met in exactly one point is met in one that
    /// can be held.
    First(Point),
    /// There is no point.
    Nothing,
}

/// What the ray from `at` in a direction meets of a segment.
pub(crate) fn met(at: &Point, dir: Dir, seg: &Seg) -> Sight
    ensures { Sees at.now dir (λ s. s ≡ seg.now) result }
{
    let line = seg.dir();
    if runs_along(at, dir, seg) {
        Sight::Along
    } else if line.number() % 8 == dir.number() % 8 {
        parallel(at, dir, seg, line)
    } else {
        across(at, dir, seg, line)
    }
}

/// Of a segment that is parallel to the ray and does not run along it from its start.
fn parallel(at: &Point, dir: Dir, seg: &Seg, line: Dir) -> Sight
    requires along { IsAlong seg.now line }
    requires parallel { line % 8 ≡ dir % 8 }
    requires apart { ¬ RunsAlong at.now dir seg.now }
    ensures { Sees at.now dir (λ s. s ≡ seg.now) result }
{
    let near = near_end(dir, seg);
    if is_on_ray(at, dir, &near) {
        Sight::First(near)
    } else {
        Sight::Nothing
    }
}

/// The end of a segment that is parallel to a ray to which the ray comes first.
fn near_end(dir: Dir, seg: &Seg) -> Point
    ensures on { (dir < 5) ⊎ (12 < dir) → result ≡ seg.now.p }
    ensures back { 5 ≤ dir → dir ≤ 12 → result ≡ seg.now.q }
    ensures canonical { IsPointCanonical result }
    ensures small { dir < 16 }
{
    if leads_on(dir) { seg.p() } else { seg.q() }
}

/// Of a segment that is not parallel to the ray.
fn across(at: &Point, dir: Dir, seg: &Seg, line: Dir) -> Sight
    requires along { IsAlong seg.now line }
    requires across { dir % 8 ≢ line % 8 }
    requires small { dir < 16 }
    ensures { Sees at.now dir (λ s. s ≡ seg.now) result }
{
    let p = seg.p();
    if !faces(at, dir, &p, line) || is_beside(seg, at, dir) {
        return Sight::Nothing;
    }
    match cross_lines(at, dir, &p, line) {
        Some(point) => Sight::First(point),
        None => Sight::OutOfRange,
    }
}

/// Whether the ray from `at` in direction `dir` leads to the line through `p` in direction `line`,
/// from one of its sides.
fn faces(at: &Point, dir: Dir, p: &Point, line: Dir) -> bool
    ensures { IsTrue result ↔ SameSide (cross (vector line) p.now at.now) (det (vector dir) (vector line)) }
{
    are_one_side(side(p, line, at), Dir::det(dir, line).sign())
}

/// What is met of all segments, by what is met of some and of the others.
pub(crate) fn both(dir: Dir, first: Sight, second: Sight) -> Sight
    ensures { AreBoth dir first second result }
{
    match first {
        Sight::Along => Sight::Along,
        Sight::OutOfRange => with_lost(second),
        Sight::First(point) => with_first(dir, point, second),
        Sight::Nothing => second,
    }
}

/// Where some are met in a point that cannot be held.
fn with_lost(second: Sight) -> Sight
    ensures { (k : ℕ) → AreBoth k Sight.OutOfRange second result }
{
    match second {
        Sight::Along => Sight::Along,
        Sight::OutOfRange | Sight::First(_) | Sight::Nothing => Sight::OutOfRange,
    }
}

/// Where some are met in this point first.
fn with_first(dir: Dir, point: Point, second: Sight) -> Sight
    ensures { AreBoth dir (Sight.First point) second result }
{
    match second {
        Sight::Along => Sight::Along,
        Sight::OutOfRange => Sight::OutOfRange,
        Sight::First(other) => Sight::First(nearer(dir, &point, &other)),
        Sight::Nothing => Sight::First(point),
    }
}

/// Which of two points of a ray in this direction comes first.
fn nearer(dir: Dir, first: &Point, second: &Point) -> Point
    ensures { IsNearer dir first.now second.now result }
{
    if leads_on(dir) == is_before(first, second) {
        *first
    } else {
        *second
    }
}
