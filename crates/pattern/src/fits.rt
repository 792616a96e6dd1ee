//! Whether a delta fits a pattern.
ghost use Rattle.std.specs.Prelude.{◌≡◌, ◌↔◌, IsTrue, All, Contains};
ghost use Rattle.exact.specs.Plane.{SegmentBefore};
ghost use Rattle.sheet.specs.Pattern.{IsKey};
ghost use Rattle.creases.specs.Creases.{Ascends};
ghost use Rattle.pattern.specs.Deltas.{Fits};
ghost use Rattle.pattern.specs.Fitting.{IsFreeBut};

use crate::apart::are_all_apart;
use crate::{Crease, Delta, Pattern};
use plane::{Seg, are_in_sheet, is_before, is_same_point, seg_on_border};
use sheet::{CREASE_LIMIT, Sheet};

impl Pattern {
    /// Whether a delta fits this pattern: both lists ascend strictly by their segments, each removed
    /// crease is in the pattern with its colour, no added crease is on a segment that stays, and the
    /// pattern without the removed creases and with the added ones is a pattern. It takes no memory.
    pub fn fits(&self, delta: &Delta) -> bool
        ensures { IsTrue result ↔ Fits self.now delta.now }
    {
        let len = self.len();
        let sheet = self.sheet();
        let removed = delta.removed.as_slice();
        let added = delta.added.as_slice();
        if !ascend(removed) {
            return false;
        }
        if !ascend(added) {
            return false;
        }
        if !has_all(self, removed) {
            return false;
        }
        if !are_keys(&sheet, added) {
            return false;
        }
        if len + added.len() > CREASE_LIMIT + removed.len() {
            return false;
        }
        if !are_all_apart(added) {
            return false;
        }
        are_free(self, removed, added)
    }
}

/// Whether each crease comes after the one before.
pub(crate) fn ascend(creases: &[Crease]) -> bool
    ensures { IsTrue result ↔ Ascends creases.now }
{
    for i in 1..creases.len() {
        let last = &creases[i - 1];
        let next = &creases[i];
        if !comes_before(&last.seg, &next.seg) {
            return false;
        }
    }
    true
}

/// Whether the first segment is before the second.
fn comes_before(s: &Seg, t: &Seg) -> bool
    ensures { IsTrue result ↔ SegmentBefore s.now t.now }
{
    let from = s.p();
    let other_from = t.p();
    is_before(&from, &other_from)
        || (is_same_point(&from, &other_from) && is_before(&s.q(), &t.q()))
}

/// Whether all these creases are in the pattern, with their colours.
fn has_all(pattern: &Pattern, creases: &[Crease]) -> bool
    ensures { IsTrue result ↔ All (λ f. Contains pattern.now.creases f) creases.now }
{
    for crease in creases {
        if !pattern.has(crease) {
            return false;
        }
    }
    true
}

/// Whether the segments of all these creases can stand in a pattern on the sheet.
fn are_keys(sheet: &Sheet, creases: &[Crease]) -> bool
    ensures { IsTrue result ↔ All (λ f. IsKey sheet.now f.seg) creases.now }
{
    for crease in creases {
        if !is_key(sheet, &crease.seg) {
            return false;
        }
    }
    true
}

/// Whether a segment can stand in a pattern on the sheet: its ends are in it, and it is on no side of it.
pub(crate) fn is_key(sheet: &Sheet, seg: &Seg) -> bool
    ensures { IsTrue result ↔ IsKey sheet.now seg.now }
{
    let from = seg.p();
    let to = seg.q();
    if !are_in_sheet(sheet, &from, &to) {
        return false;
    }
    !seg_on_border(sheet, seg)
}

/// Whether all these creases overlap none of the pattern but those that are removed.
fn are_free(pattern: &Pattern, removed: &[Crease], creases: &[Crease]) -> bool
    requires { Ascends removed.now }
    ensures { IsTrue result ↔ All (IsFreeBut pattern.now.creases removed.now) creases.now }
{
    for crease in creases {
        if !is_free(pattern, removed, crease) {
            return false;
        }
    }
    true
}

/// Whether a crease overlaps none of the pattern but those that are removed.
fn is_free(pattern: &Pattern, removed: &[Crease], crease: &Crease) -> bool
    requires { Ascends removed.now }
    ensures { IsTrue result ↔ IsFreeBut pattern.now.creases removed.now crease.now }
{
    for other in pattern.overlapping(&crease.seg) {
        if !is_among(removed, &other) {
            return false;
        }
    }
    true
}

/// Whether a crease is one of these, which ascend.
fn is_among(creases: &[Crease], crease: &Crease) -> bool
    requires { Ascends creases.now }
    ensures { IsTrue result ↔ Contains creases.now crease.now }
{
    let mut low = 0;
    let mut high = creases.len();
    while low < high {
        let middle = low + (high - low) / 2;
        let one = &creases[middle];
        if comes_before(&one.seg, &crease.seg) {
            low = middle + 1;
        } else if comes_before(&crease.seg, &one.seg) {
            high = middle;
        } else {
            return is_one(one, crease);
        }
    }
    false
}

/// Whether two creases are one.
fn is_one(first: &Crease, second: &Crease) -> bool
    ensures { IsTrue result ↔ (first.now ≡ second.now) }
{
    first.seg.cmp(&second.seg).is_eq() && first.colour == second.colour
}
