//! The triangle of a rabbit ear: whether it can be folded, its incentre and the foot of that.
ghost use Rattle.std.specs.Prelude.{◌≡◌, ◌⊎◌, ◌<◌, ◌+◌, ◌%◌, IfOk, IfErr, IfSome, IfNone, IsTrue, ◌↔◌, Err};
ghost use Rattle.exact.specs.Plane.{ExactPoint, DirOf, IsPointCanonical, IsPointRepresentable};
ghost use Rattle.sheet.specs.Sheet.{InSheet};
ghost use Rattle.sheet.specs.declared.mark.Mark.{Mark as AnyMark};
ghost use Rattle.qroot2.specs.Dir.{IsMiddle};
ghost use Rattle.plane.specs.Triangles.{IsIncentre, IsFootBetween};
ghost use Rattle.edits.specs.Ends.{AreJoined};
ghost use Rattle.edits.specs.RabbitEar.{AreNotThree, AreAllJoined, IsNoMolecule, EarOf};
ghost use Rattle.edits.specs.Foldable.{HasSides, HasOddTurn, IsFoldable};

use crate::EditBad;
use plane::{Point, Seg, are_in_sheet, cross_lines, in_sheet, is_on_line, is_same_point};
use qroot2::Dir;
use sheet::Sheet;
use std::marker::Model;

/// The directions of the sides of a triangle, one after another.
#[derive(Clone, Copy)]
struct Sides {
    /// From the first corner to the second.
    first: Dir,
    /// From the second corner to the third.
    second: Dir,
    /// From the third corner to the first.
    third: Dir,
}

/// A triangle that can be folded into a rabbit ear of a sheet: its corners in the order in which they
/// were given, and its sides. Contracts see the sheet and the corners.
#[derive(Drop)]
pub(crate) struct Triangle {
    sheet: Sheet,
    p: Point,
    q: Point,
    r: Point,
    sides: Sides,
}

impl Model for Triangle {
    ghost use Rattle.edits.specs.Foldable.{ExactTriangle, HasSides, IsFoldable};

    ghost Value = { ExactTriangle };

    ghost view = { λ t. record { sheet = t.sheet; p = t.p; q = t.q; r = t.r } };

    ghost invariant = { λ t. IsFoldable t.sheet t.p t.q t.r
        × HasSides t.p t.q t.r t.sides.first t.sides.second t.sides.third };
}

impl Triangle {
    /// The triangle of three points of the sheet, each two joined by one of the sixteen directions,
    /// not on one line, with angles that can be halved. What remains are the right isosceles ones.
    pub(crate) fn of(sheet: &Sheet, p: &Point, q: &Point, r: &Point) -> Result<Triangle, EditBad>
        ensures ok { IfOk result (λ t. t ≡ record { sheet = sheet.now; p = p.now; q = q.now; r = r.now }) }
        ensures err { IfErr result (λ e. (mark : AnyMark) → EarOf sheet.now mark p.now q.now r.now (Err e)) }
    {
        let sides = foldable_sides(sheet, p, q, r)?;
        Ok(Triangle {
            sheet: *sheet,
            p: *p,
            q: *q,
            r: *r,
            sides,
        })
    }

    /// The sheet, on which no rule for the corners is broken.
    pub(crate) fn sheet(&self) -> &Sheet
        ensures sheet { result.now ≡ self.now.sheet }
        ensures foldable { IsFoldable self.now.sheet self.now.p self.now.q self.now.r }
    {
        &self.sheet
    }

    /// The first corner.
    pub(crate) fn p(&self) -> &Point
        ensures { result.now ≡ self.now.p }
    {
        &self.p
    }

    /// The second corner.
    pub(crate) fn q(&self) -> &Point
        ensures { result.now ≡ self.now.q }
    {
        &self.q
    }

    /// The third corner.
    pub(crate) fn r(&self) -> &Point
        ensures { result.now ≡ self.now.r }
    {
        &self.r
    }

    /// The incentre, where the bisectors of the first two corners meet. None where it cannot be
    /// held.
    pub(crate) fn incentre(&self) -> Option<Point>
        ensures foldable { IsFoldable self.now.sheet self.now.p self.now.q self.now.r }
        ensures some { IfSome result (IsIncentre self.now.p self.now.q self.now.r) }
        ensures canonical { IfSome result IsPointCanonical }
        ensures none { IfNone result
            ((c : ExactPoint) × IsIncentre self.now.p self.now.q self.now.r c × (¬ IsPointRepresentable c)) }
    {
        let first = bisector(self.sides.first, self.sides.third);
        let second = bisector(self.sides.second, self.sides.first);
        cross_lines(&self.p, first, &self.q, second)
    }

    /// The foot of a point on the line of the first side. None where it cannot be held.
    pub(crate) fn foot(&self, point: &Point) -> Option<Point>
        ensures some { IfSome result (IsFootBetween self.now.p self.now.q point.now) }
        ensures canonical { IfSome result IsPointCanonical }
        ensures none { IfNone result
            ((f : ExactPoint) × IsFootBetween self.now.p self.now.q point.now f
            × (¬ IsPointRepresentable f)) }
    {
        let along = self.sides.first;
        cross_lines(&self.p, along, point, along.turn(4))
    }
}

/// The direction of the line that halves the angle from a side to the one that ends where it begins.
fn bisector(begins: Dir, ends: Dir) -> Dir
    requires { ¬ HasOddTurn begins ends }
    ensures { IsMiddle begins ((ends + 8) % 16) result }
{
    Dir::middle(begins, ends.opposite()).unwrap()
}

/// The sides of a triangle that can be folded into a rabbit ear: three points of the sheet, each
/// two joined by one of the sixteen directions, not on one line, with angles that can be halved.
fn foldable_sides(sheet: &Sheet, p: &Point, q: &Point, r: &Point) -> Result<Sides, EditBad>
    ensures foldable { IfOk result (λ _. IsFoldable sheet.now p.now q.now r.now) }
    ensures sides { IfOk result (λ s. HasSides p.now q.now r.now s.first s.second s.third) }
    ensures err { IfErr result (λ e. (mark : AnyMark) → EarOf sheet.now mark p.now q.now r.now (Err e)) }
{
    if !are_three_in(sheet, p, q, r) {
        return Err(EditBad::Outside);
    }
    if are_not_three(p, q, r) {
        return Err(EditBad::SamePoint);
    }
    match sides_of(p, q, r) {
        None => Err(EditBad::NotDirection),
        Some(sides) => {
            if is_no_molecule(p, q, r, &sides) {
                Err(EditBad::NoMolecule)
            } else {
                Ok(sides)
            }
        }
    }
}

/// Whether three points are in the sheet.
fn are_three_in(sheet: &Sheet, p: &Point, q: &Point, r: &Point) -> bool
    ensures { IsTrue result ↔ (InSheet sheet.now p.now × InSheet sheet.now q.now × InSheet sheet.now r.now) }
{
    are_in_sheet(sheet, p, q) && in_sheet(sheet, r)
}

/// Whether two of three points are one.
fn are_not_three(p: &Point, q: &Point, r: &Point) -> bool
    ensures { IsTrue result ↔ AreNotThree p.now q.now r.now }
{
    is_same_point(p, q) || is_same_point(q, r) || is_same_point(r, p)
}

/// The sides of a triangle, or None where one of the sixteen directions is missing between two
/// corners.
fn sides_of(p: &Point, q: &Point, r: &Point) -> Option<Sides>
    ensures some { IfSome result (λ s. HasSides p.now q.now r.now s.first s.second s.third) }
    ensures none { IfNone result (¬ AreAllJoined p.now q.now r.now) }
{
    Some(Sides {
        first: leading(p, q)?,
        second: leading(q, r)?,
        third: leading(r, p)?,
    })
}

/// The direction from one point to another, or None where none of the sixteen leads there.
fn leading(from: &Point, to: &Point) -> Option<Dir>
    ensures some { IfSome result (λ k. (k < 16) × DirOf from.now to.now k) }
    ensures none { IfNone result (¬ AreJoined from.now to.now) }
{
    match Seg::new(*from, *to) {
        Ok(seg) => Some(from_end(&seg, from)),
        Err(_) => None,
    }
}

/// The direction from one end of a segment to the other.
fn from_end(seg: &Seg, end: &Point) -> Dir
    requires { (seg.now.p ≡ end.now) ⊎ (seg.now.q ≡ end.now) }
    ensures small { result < 16 }
    ensures from_lesser { seg.now.p ≡ end.now → DirOf seg.now.p seg.now.q result }
    ensures from_greater { seg.now.q ≡ end.now → DirOf seg.now.q seg.now.p result }
{
    let dir = seg.dir();
    if is_same_point(&seg.p(), end) {
        dir
    } else {
        dir.opposite()
    }
}

/// Whether a triangle's corners are on one line, or one of its angles cannot be halved.
fn is_no_molecule(p: &Point, q: &Point, r: &Point, sides: &Sides) -> bool
    requires three { ¬ AreNotThree p.now q.now r.now }
    requires sides { HasSides p.now q.now r.now sides.now.first sides.now.second sides.now.third }
    ensures { IsTrue result ↔ IsNoMolecule p.now q.now r.now }
{
    is_on_line(p, sides.first, r) || has_odd_corner(sides)
}

/// Whether one of the angles of a triangle is an odd number of units.
fn has_odd_corner(sides: &Sides) -> bool
    ensures { IsTrue result
        ↔ (HasOddTurn sides.now.first sides.now.third
        ⊎ (HasOddTurn sides.now.second sides.now.first ⊎ HasOddTurn sides.now.third sides.now.second)) }
{
    is_odd(sides.first, sides.third)
        || is_odd(sides.second, sides.first)
        || is_odd(sides.third, sides.second)
}

/// Whether the angle from a side to the one that ends where it begins is an odd number of units.
fn is_odd(begins: Dir, ends: Dir) -> bool
    ensures { IsTrue result ↔ HasOddTurn begins ends }
{
    Dir::middle(begins, ends.opposite()).is_none()
}
