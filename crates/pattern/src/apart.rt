//! Whether creases that come overlap one another.
ghost use Rattle.std.specs.Prelude.{◌<◌, ◌↔◌, IsTrue, All};
ghost use Rattle.exact.specs.Plane.{Before, DirOf, Overlap, SegmentBefore};
ghost use Rattle.creases.specs.Creases.{Ascends};
ghost use Rattle.pattern.specs.Fitting.{AreApart};

use crate::Crease;
use plane::{Seg, is_before, side};
use qroot2::{Dir, Sign};

/// Whether no two of these creases, which ascend, overlap.
pub(crate) fn are_all_apart(creases: &[Crease]) -> bool
    requires { Ascends creases.now }
    ensures { IsTrue result ↔ AreApart creases.now }
{
    for i in 0..creases.len() {
        let crease = &creases[i];
        if !is_apart_from(&crease.seg, &creases[i + 1..]) {
            return false;
        }
    }
    true
}

/// Whether a segment overlaps none of these creases, which come after it. Those that begin behind
/// its end cannot, so that only its neighbours are looked at.
fn is_apart_from(seg: &Seg, later: &[Crease]) -> bool
    requires ascend { Ascends later.now }
    requires after { All (λ f. SegmentBefore seg.now f.seg) later.now }
    ensures { IsTrue result ↔ All (λ f. ¬ Overlap seg.now f.seg) later.now }
{
    let end = seg.q();
    let dir = seg.dir();
    for crease in later {
        if !is_before(&crease.seg.p(), &end) {
            return true;
        }
        if overlaps(seg, dir, &crease.seg) {
            return false;
        }
    }
    true
}

/// Whether two segments overlap of which each begins before the other ends: they do where they lie
/// on one line.
fn overlaps(seg: &Seg, dir: Dir, later: &Seg) -> bool
    requires dir { (dir < 16) × DirOf seg.now.p seg.now.q dir }
    requires begins { Before seg.now.p later.now.q }
    requires meets { Before later.now.p seg.now.q }
    ensures { IsTrue result ↔ Overlap seg.now later.now }
{
    let from = seg.p();
    let start = later.p();
    match side(&from, dir, &start) {
        Sign::Zero => later.dir().number() == dir.number(),
        _ => false,
    }
}
