//! Points and segments against the sheet.
ghost use Rattle.std.specs.Prelude.{◌≡◌, ◌⊎◌, ◌*◌, ◌≤◌, ◌^◌, pos, ◌-ℤ◌, unsigned_abs, IsTrue, ◌↔◌};
ghost use Rattle.exact.specs.Number.{Same, AtMost, Positive, IsCanonical, whole};
ghost use Rattle.sheet.specs.Sheet.{IsWithin, InSheet, OnSide, OnBorder};
ghost use Rattle.plane.specs.Corners.{IsEnd, AreOnSide};

use crate::order::{is_level, is_plumb};
use crate::{Point, Seg, Sheet};
use qroot2::{Num, Sign, Wide};

/// Whether a point is in the sheet, its border with it.
pub fn in_sheet(sheet: &Sheet, point: &Point) -> bool
    ensures { IsTrue result ↔ InSheet sheet.now point.now }
{
    is_within(&point.x, sheet.w()) && is_within(&point.y, sheet.h())
}

/// Whether two points are in the sheet, its border with it.
pub fn are_in_sheet(sheet: &Sheet, p: &Point, q: &Point) -> bool
    ensures { IsTrue result ↔ (InSheet sheet.now p.now × InSheet sheet.now q.now) }
{
    in_sheet(sheet, p) && in_sheet(sheet, q)
}

/// Whether a point is on one of the sides of the sheet.
pub fn on_border(sheet: &Sheet, point: &Point) -> bool
    ensures { IsTrue result ↔ OnSide sheet.now point.now }
{
    // from 1 to 8
    let _width = sheet.w();
    in_sheet(sheet, point) && has_end(sheet, point)
}

/// Whether all of a segment lies on one side of the sheet.
pub fn seg_on_border(sheet: &Sheet, seg: &Seg) -> bool
    ensures { IsTrue result ↔ OnBorder sheet.now seg.now }
{
    // from 1 to 8
    let _width = sheet.w();
    are_on_side(sheet, &seg.p(), &seg.q())
}

/// Whether two points are on one side of the sheet.
fn are_on_side(sheet: &Sheet, p: &Point, q: &Point) -> bool
    ensures { IsTrue result ↔ AreOnSide sheet.now p.now q.now }
{
    are_in_sheet(sheet, p, q) && (are_on_upright(sheet, p, q) || are_on_flat(sheet, p, q))
}

/// Whether two points are at the left of the sheet, or both at its right.
fn are_on_upright(sheet: &Sheet, p: &Point, q: &Point) -> bool
    ensures { IsTrue result ↔ (Same p.now.x q.now.x × IsEnd sheet.now.w p.now.x) }
{
    is_plumb(p, q) && is_end(&p.x, sheet.w())
}

/// Whether two points are at the bottom of the sheet, or both at its top.
fn are_on_flat(sheet: &Sheet, p: &Point, q: &Point) -> bool
    ensures { IsTrue result ↔ (Same p.now.y q.now.y × IsEnd sheet.now.h p.now.y) }
{
    is_level(p, q) && is_end(&p.y, sheet.h())
}

/// Whether a point is at the left of the sheet, at its right, at its bottom or at its top.
fn has_end(sheet: &Sheet, point: &Point) -> bool
    ensures { IsTrue result ↔ (IsEnd sheet.now.w point.now.x ⊎ IsEnd sheet.now.h point.now.y) }
{
    is_end(&point.x, sheet.w()) || is_end(&point.y, sheet.h())
}

/// Whether a number is from 0 to n.
fn is_within(x: &Num, n: u8) -> bool
    ensures { IsTrue result ↔ IsWithin n x.now }
{
    is_least_zero(x) && is_most(x, n)
}

/// Whether a number is at least 0.
fn is_least_zero(x: &Num) -> bool
    ensures { IsTrue result ↔ AtMost (whole 0) x.now }
{
    is_not_below_zero(x.a(), x.b())
}

/// Whether a number is at most n.
fn is_most(x: &Num, n: u8) -> bool
    ensures { IsTrue result ↔ AtMost x.now (whole n) }
{
    is_not_below_zero(room(x, n), -x.b())
}

/// Whether a number is 0 or n.
fn is_end(x: &Num, n: u8) -> bool
    ensures { IsTrue result ↔ IsEnd n x.now }
{
    is_zero(x.a(), x.b()) || is_zero(room(x, n), x.b())
}

/// The whole part of n - x, over the denominator of x.
fn room(x: &Num, n: u8) -> i64
    ensures value { result ≡ pos (n * x.now.d) -ℤ x.now.a }
    ensures within { unsigned_abs result ≤ 2 ^ 49 }
    ensures canonical { IsCanonical x.now }
{
    i64::from(n) * x.d() - x.a()
}

/// Whether a + b √2 is not below zero.
fn is_not_below_zero(a: i64, b: i64) -> bool
    ensures { IsTrue result ↔ (((a ≡ pos 0) × (b ≡ pos 0)) ⊎ Positive a b) }
{
    match Wide::new(i128::from(a), i128::from(b)).sign() {
        Sign::Minus => false,
        Sign::Zero | Sign::Plus => true,
    }
}

fn is_zero(a: i64, b: i64) -> bool
    ensures { IsTrue result ↔ ((a ≡ pos 0) × (b ≡ pos 0)) }
{
    a == 0 && b == 0
}
