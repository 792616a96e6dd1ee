//! A pattern of which creases take other colours in place.
ghost use Rattle.std.specs.Prelude.{◌≡◌, ◌↔◌, All, Contains, IfSome, IsSome, IsTrue, length};
ghost use Rattle.creases.specs.Creases.{Ascends};
ghost use Rattle.pattern.specs.Deltas.{Fits, Leads};
ghost use Rattle.pattern.specs.Fitting.{AreExchanged, AreOnSame};
ghost use Rattle.pattern.specs.declared.delta.Delta.{Delta as AnyDelta};

use crate::{Crease, CreaseMap, Pattern};
use plane::{Seg, is_same_point};

impl Pattern {
    /// The pattern in which some of its creases have the colours of others on their segments, or
    /// None exactly where one of them is not there. It takes no memory.
    pub(crate) fn recoloured(self, gone: &[Crease], come: &[Crease]) -> Option<Pattern>
        requires gone { Ascends gone.now }
        requires come { Ascends come.now }
        requires same { AreOnSame gone.now come.now }
        ensures some { IfSome result
            (let delta : AnyDelta = record { removed = gone.now; added = come.now } in Leads self delta) }
        ensures exactly { IsSome result
            ↔ (let delta : AnyDelta = record { removed = gone.now; added = come.now } in Fits self delta) }
    {
        let sheet = self.sheet();
        let mut creases = self.creases;
        if !recolour_all(&mut creases, gone, come) {
            return None;
        }
        let _count = creases.len();
        Some(Pattern { sheet, creases })
    }
}

/// Gives these creases the colours of others on their segments, as far as the first that is not
/// there, and says whether all were there.
fn recolour_all(creases: &mut CreaseMap, gone: &[Crease], come: &[Crease]) -> bool
    requires ascend { Ascends gone.now }
    requires same { AreOnSame gone.now come.now }
    ensures all { IsTrue result ↔ All (λ f. Contains creases.old f) gone.now }
    ensures exchanged { IsTrue result → AreExchanged creases.old gone.now come.now creases.new }
    ensures count { length creases.new ≡ length creases.old }
{
    for i in 0..gone.len() {
        let crease = &gone[i];
        let other = &come[i];
        if !creases.recolour(crease, other.colour) {
            return false;
        }
    }
    true
}

/// Whether these creases are on the segments of those, one by one.
pub(crate) fn are_on_same(gone: &[Crease], come: &[Crease]) -> bool
    ensures { IsTrue result ↔ AreOnSame gone.now come.now }
{
    if gone.len() != come.len() {
        return false;
    }
    for i in 0..gone.len() {
        let first = &gone[i];
        let second = &come[i];
        if !is_same_seg(&first.seg, &second.seg) {
            return false;
        }
    }
    true
}

/// Whether two segments are one.
fn is_same_seg(s: &Seg, t: &Seg) -> bool
    ensures { IsTrue result ↔ (s.now ≡ t.now) }
{
    is_same_point(&s.p(), &t.p()) && is_same_point(&s.q(), &t.q())
}
