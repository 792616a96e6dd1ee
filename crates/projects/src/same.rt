//! Whether two patterns are one.
ghost use Rattle.std.specs.Prelude.{◌≡◌, ◌↔◌, IsTrue};

use pattern::{Crease, Pattern};
use plane::{Seg, is_same_point};
use sheet::{Colour, Sheet};

/// Whether two patterns are one. It takes no memory, and the time of one walk through their creases.
pub(crate) fn is_same_pattern(first: &Pattern, second: &Pattern) -> bool
    ensures { IsTrue result ↔ (first.now ≡ second.now) }
{
    is_same_sheet(&first.sheet(), &second.sheet()) && have_same_creases(first, second)
}

/// Whether two patterns have the same creases.
fn have_same_creases(first: &Pattern, second: &Pattern) -> bool
    ensures { IsTrue result ↔ (first.now.creases ≡ second.now.creases) }
{
    let mut others = second.creases();
    for crease in first.creases() {
        let Some(other) = others.next() else {
            return false;
        };
        if !is_same_crease(&crease, &other) {
            return false;
        }
    }
    others.next().is_none()
}

/// Whether two creases are one.
fn is_same_crease(first: &Crease, second: &Crease) -> bool
    ensures { IsTrue result ↔ (first.now ≡ second.now) }
{
    is_same_seg(&first.seg, &second.seg) && is_same_colour(first.colour, second.colour)
}

/// Whether two segments are one.
fn is_same_seg(first: &Seg, second: &Seg) -> bool
    ensures { IsTrue result ↔ (first.now ≡ second.now) }
{
    is_same_point(&first.p(), &second.p()) && is_same_point(&first.q(), &second.q())
}

/// Whether two colours are one.
fn is_same_colour(first: Colour, second: Colour) -> bool
    ensures { IsTrue result ↔ (first ≡ second) }
{
    match (first, second) {
        (Colour::M, Colour::M) | (Colour::V, Colour::V) | (Colour::A, Colour::A) => true,
        _ => false,
    }
}

/// Whether two sheets are one.
fn is_same_sheet(first: &Sheet, second: &Sheet) -> bool
    ensures { IsTrue result ↔ (first.now ≡ second.now) }
{
    first.w() == second.w() && first.h() == second.h()
}
